//! What is logged of a task while its entries go by.

ghost use Rattle.std.specs.Prelude.{ℕ, ◌≡◌, ◌≤◌, ◌+◌, ◌-◌, ◌^◌, Some};
ghost use Rattle.run_figures.specs.private.Logging as logging;

use crate::counting::{Counts, add_job};
use crate::job::{Job, add_throttle, new_job, over_by};
use crate::throttle::{Throttle, begin_throttle, end_throttle};
use domain_run::{Happened, PrevState, Switch, What};

/// What is logged of a task so far.
#[derive(Clone, Copy)]
pub(crate) struct TaskTally {
    /// The task's number.
    pub(crate) number: u32,
    /// The job that is under way.
    pub(crate) job: Option<Job>,
    /// The jobs that are over.
    pub(crate) counts: Counts,
    pub(crate) throttle: Throttle,
    /// How often it was preempted.
    pub(crate) preempted: u64,
    /// How many of its jobs are over with no end and no cut.
    pub(crate) superseded: u64,
}

pub(crate) fn unlogged(number: u32) -> TaskTally
    ensures { result ≡ logging.nothing_logged number }
{
    TaskTally {
        number,
        job: None,
        counts: Counts {
            ended: None,
            late: 0,
        },
        throttle: Throttle {
            times: 0,
            us: 0,
            since: None,
        },
        preempted: 0,
        superseded: 0,
    }
}

/// Whether a job that is over had no end and no cut: 1 or 0.
fn superseded_by(job: &Job) -> u64
    ensures superseded { result ≡ logging.superseded_by (Some job.now) }
    ensures few { result ≤ 1 }
{
    match job.ended {
        None if !job.cut => 1,
        _ => 0,
    }
}

/// Its job, where it is over by this.
fn log_over(logged: &mut TaskTally, happened: &Happened, time: u64)
    requires room { logging.IsLoggedWithin (2 ^ 64 - 2) logged.old }
    ensures { logged.new ≡ logging.with_over_by time happened.now logged.old }
{
    if let Some(job) = over_by(happened, logged.job) {
        add_job(&mut logged.counts, &job, time);
        logged.superseded += superseded_by(&job);
    }
}

/// An entry of the task, where the run ends at this time.
fn log_what(logged: &mut TaskTally, happened: &Happened, time: u64)
    requires room { logging.IsLoggedWithin (2 ^ 64 - 2) logged.old }
    ensures { logged.new ≡ logging.logged_after time happened.now logged.old }
{
    match happened.what {
        What::JobEnds => {
            log_over(logged, happened, time);
            logged.job = None;
        }
        What::Cut => {
            log_over(logged, happened, time);
            logged.job = None;
            end_throttle(&mut logged.throttle, happened.time);
        }
        What::NextReleased { deadline } | What::Released { deadline } => {
            log_over(logged, happened, time);
            logged.job = Some(new_job(happened.time, deadline));
        }
        What::Spent { .. } | What::WokenSpent { .. } => {
            add_throttle(&mut logged.job);
            begin_throttle(&mut logged.throttle, happened.time);
        }
        What::Replenished { .. } => end_throttle(&mut logged.throttle, happened.time),
    }
}

/// An entry of the task, where the run ends at this time.
pub(crate) fn log_entry(logged: &mut TaskTally, happened: &Happened, time: u64)
    requires room { logging.IsLoggedWithin (2 ^ 64 - 2) logged.old }
    ensures logged { logged.new ≡ logging.logged_after time happened.now logged.old }
    ensures within { (n : ℕ) → logging.IsLoggedWithin n logged.old
        → logging.IsLoggedWithin (n + 1) logged.new }
{
    // Read, so that its range is known.
    let _time = happened.time;
    log_what(logged, happened, time);
}

/// Whom a switch takes a CPU from that it still wants: a task that is ready, or throttled.
pub(crate) fn preempted_by(switch: &Switch) -> Option<u32>
    ensures { result ≡ logging.leaver_wanting switch.now }
{
    match switch.state() {
        PrevState::Preempted => switch.prev(),
        PrevState::Running | PrevState::Sleeping | PrevState::Dead => None,
    }
}
