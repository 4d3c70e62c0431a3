//! What was counted in a period, counted again. A task or a CPU comes back if it is at the end of
//! the period what it was at the beginning, later, in all but its counts.

ghost use Rattle.std.specs.Prelude.{◌≡◌, ◌+◌, ◌<◌, ◌^◌, IsTrue, IfSome, option_map};
ghost use Rattle.domain_run.specs.Later.{later};
ghost use Rattle.run_figures.specs.private.Growing as growing;

mod rows;

use crate::counting::Ended;
use crate::job::Job;
use crate::logged::TaskTally;
use crate::ran::{Cpu, Ran};
pub(crate) use rows::{
    all_cpus_back, all_logged_back, all_ran_back, grow_all_cpus, grow_all_logged, grow_all_ran,
};

/// Whether a time is `micros` later than another.
fn is_later_by(micros: u64, before: u64, now: u64) -> bool
    ensures { IsTrue result → now ≡ before + micros }
{
    match before.checked_add(micros) {
        Some(later) => later == now,
        None => false,
    }
}

fn is_since_back(micros: u64, before: Option<u64>, now: Option<u64>) -> bool
    ensures { IsTrue result → now ≡ later micros before }
{
    match (before, now) {
        (None, None) => true,
        (Some(before), Some(now)) => is_later_by(micros, before, now),
        _ => false,
    }
}

fn is_same_job(micros: u64, before: &Job, now: &Job) -> bool
    ensures { IsTrue result → now.now ≡ growing.later_job micros before.now }
{
    is_later_by(micros, before.release, now.release)
        && is_later_by(micros, before.deadline, now.deadline)
        && is_since_back(micros, before.ended, now.ended)
        && before.throttled == now.throttled
        && before.cut == now.cut
}

fn is_job_back(micros: u64, before: &Option<Job>, now: &Option<Job>) -> bool
    ensures { IsTrue result → now.now ≡ option_map (growing.later_job micros) before.now }
{
    match (before, now) {
        (None, None) => true,
        (Some(before), Some(now)) => is_same_job(micros, before, now),
        _ => false,
    }
}

/// Whether a task is what it was `micros` microseconds before, in all but its counts, and no job
/// of it was superseded since.
fn is_logged_back(micros: u64, before: &TaskTally, now: &TaskTally) -> bool
    ensures { IsTrue result → growing.IsLoggedBack micros before.now now.now }
{
    is_job_back(micros, &before.job, &now.job)
        && is_since_back(micros, before.throttle.since, now.throttle.since)
        && before.superseded == now.superseded
}

fn is_time_soon(shift: u64, time: u64) -> bool
    ensures { IsTrue result → growing.IsTimeSoon shift time }
{
    time.checked_add(shift).is_some()
}

fn is_since_soon(shift: u64, since: Option<u64>) -> bool
    ensures { IsTrue result → IfSome since (growing.IsTimeSoon shift) }
{
    match since {
        None => true,
        Some(since) => is_time_soon(shift, since),
    }
}

fn is_job_soon(shift: u64, job: &Option<Job>) -> bool
    ensures { IsTrue result → IfSome job.now (growing.IsJobSoon shift) }
{
    match job {
        None => true,
        Some(job) => {
            is_time_soon(shift, job.release)
                && is_time_soon(shift, job.deadline)
                && job.ended.is_none()
        }
    }
}

/// Whether the times of a task have room for `shift` microseconds more.
fn is_logged_soon(shift: u64, logged: &TaskTally) -> bool
    ensures { IsTrue result → growing.IsLoggedSoon shift logged.now }
{
    is_job_soon(shift, &logged.job) && is_since_soon(shift, logged.throttle.since)
}

/// A count after `periods` periods more.
fn grown_count(periods: u64, before: u64, now: u64) -> u64
    requires { growing.grown_count periods before now < 2 ^ 64 }
    ensures { result ≡ growing.grown_count periods before now }
{
    now + periods * now.saturating_sub(before)
}

fn grown_wide(periods: u64, before: u128, now: u128) -> u128
    requires { growing.grown_count periods before now < 2 ^ 128 }
    ensures { result ≡ growing.grown_count periods before now }
{
    now + u128::from(periods) * now.saturating_sub(before)
}

/// A time up to the end of the run after `periods` periods more.
fn grown_time(periods: u64, before: u128, now: u128) -> u128
    requires { growing.grown_time periods before now < 2 ^ 128 }
    ensures { result ≡ growing.grown_time periods before now }
{
    if before <= now {
        now + u128::from(periods) * (now - before)
    } else {
        now.saturating_sub(u128::from(periods).saturating_mul(before - now))
    }
}

fn count_of(ended: &Option<Ended>) -> u64
    ensures { result ≡ growing.count_of ended.now }
{
    match ended {
        None => 0,
        Some(ended) => ended.count,
    }
}

fn total_of(ended: &Option<Ended>) -> u128
    ensures { result ≡ growing.total_of ended.now }
{
    match ended {
        None => 0,
        Some(ended) => ended.total,
    }
}

fn grow_ended(periods: u64, before: &Option<Ended>, now: &mut Option<Ended>)
    requires count { IfSome (growing.grown_ended periods before.now now.old)
        (λ e. e.count < 2 ^ 64) }
    requires total { IfSome (growing.grown_ended periods before.now now.old)
        (λ e. e.total < 2 ^ 128) }
    ensures { now.new ≡ growing.grown_ended periods before.now now.old }
{
    if let Some(now) = now {
        now.count = grown_count(periods, count_of(before), now.count);
        now.total = grown_wide(periods, total_of(before), now.total);
    }
}

fn delay_since(shift: u64, since: Option<u64>) -> Option<u64>
    requires { IfSome since (growing.IsTimeSoon shift) }
    ensures { result ≡ later shift since }
{
    match since {
        None => None,
        Some(since) => Some(since + shift),
    }
}

fn delay_job(shift: u64, job: Option<Job>) -> Option<Job>
    requires { IfSome job (growing.IsJobSoon shift) }
    ensures { result ≡ option_map (growing.later_job shift) job }
{
    match job {
        None => None,
        Some(job) => Some(Job {
            release: job.release + shift,
            deadline: job.deadline + shift,
            ended: None,
            throttled: job.throttled,
            cut: job.cut,
        }),
    }
}

/// A task after `periods` periods more, which are `shift` microseconds.
fn grow_logged(logged: &mut TaskTally, before: &TaskTally, periods: u64, shift: u64)
    requires soon { growing.IsLoggedSoon shift logged.old }
    requires counted { growing.IsLoggedCounted
        (growing.grown_logged shift periods before.now logged.old) }
    ensures { logged.new ≡ growing.grown_logged shift periods before.now logged.old }
{
    logged.job = delay_job(shift, logged.job);
    grow_ended(periods, &before.counts.ended, &mut logged.counts.ended);
    logged.counts.late = grown_count(periods, before.counts.late, logged.counts.late);
    logged.throttle.times = grown_count(periods, before.throttle.times, logged.throttle.times);
    logged.throttle.us = grown_wide(periods, before.throttle.us, logged.throttle.us);
    logged.throttle.since = delay_since(shift, logged.throttle.since);
    logged.preempted = grown_count(periods, before.preempted, logged.preempted);
}

fn grow_ran(ran: &mut Ran, before: &Ran, periods: u64)
    requires { growing.IsRanCounted (growing.grown_ran periods before.now ran.old) }
    ensures { ran.new ≡ growing.grown_ran periods before.now ran.old }
{
    ran.cpu_us = grown_time(periods, before.cpu_us, ran.cpu_us);
    ran.migrated = grown_count(periods, before.migrated, ran.migrated);
}

fn grow_cpu(cpu: &mut Cpu, before: &Cpu, periods: u64)
    requires { growing.IsCpuCounted (growing.grown_cpu periods before.now cpu.old) }
    ensures { cpu.new ≡ growing.grown_cpu periods before.now cpu.old }
{
    cpu.busy_us = grown_time(periods, before.busy_us, cpu.busy_us);
    cpu.switches = grown_count(periods, before.switches, cpu.switches);
}
