//! What a domain keeps of its tasks beside their list: the running sums of their bandwidth, the
//! ready ones in the order of the choice with the task that runs on each CPU, and when each is due.
//! So a tick neither sums nor sorts, and looks at those alone that are due or have changed.

ghost use Rattle.std.specs.Prelude.{◌≡◌, ◌≢◌, ◌<◌, ◌≤◌, ◌+◌, ◌-◌, ◌^◌, ◌∷◌, [], None, length, not, replicate, All, IfOk, IfSome};
ghost use Rattle.edf_pick.specs.Schedule.{IsAtHome};
ghost use Rattle.grub_rules.specs.Accounts.{Holds, Exchanges};
ghost use Rattle.domain_run.specs.private.RunQueue as spec;

use crate::status::TaskStatus;
use due_times::Timers;
use edf_pick::{Candidate, Schedule};
use grub_rules::{Accounts, Share};
use no_memory::NoMemory;
use std::alloc::Global;

/// The running sums, the schedule and the timers of a domain.
#[derive(Drop)]
pub(crate) struct RunQueue {
    pub(crate) accounts: Accounts,
    pub(crate) schedule: Schedule,
    pub(crate) timers: Timers,
}

fn share_on(cpu: usize, status: &TaskStatus) -> Share
    ensures { result ≡ spec.share_on cpu status.now }
{
    Share {
        cpu,
        bw: status.bw,
        active: status.active,
    }
}

// Bandwidth of a CPU becomes active, or inactive.
#[inline(always)]
fn apply_active(accounts: &mut Accounts, cpu: usize, bw: u64, active: bool)
    requires { Holds accounts.old (record { cpu = cpu; bw = bw; active = not active }) }
    ensures { Exchanges accounts.old accounts.new
        (record { cpu = cpu; bw = bw; active = not active } ∷ [])
        (record { cpu = cpu; bw = bw; active = active } ∷ []) }
{
    if active {
        accounts.wake(cpu, bw);
    } else {
        accounts.idle(cpu, bw);
    }
}

// The sums learn of a share that has changed. Mostly it has not, which a look shows.
#[inline(always)]
fn track(accounts: &mut Accounts, cpu: usize, before: &TaskStatus, after: &TaskStatus)
    requires held { Holds accounts.old (spec.share_on cpu before.now) }
    requires fits { accounts.old.total - before.now.bw + after.now.bw < 2 ^ 64 }
    ensures { Exchanges accounts.old accounts.new
        (spec.share_on cpu before.now ∷ []) (spec.share_on cpu after.now ∷ []) }
{
    if before.bw != after.bw {
        accounts.track(&share_on(cpu, before), &share_on(cpu, after));
    } else if before.active != after.active {
        apply_active(accounts, cpu, after.bw, after.active);
    }
}

// A task that is ready by a deadline, as the choice sees it.
#[inline(always)]
fn candidate(number: u32, cpu: usize, deadline: u64) -> Candidate
    requires { cpu < 64 }
    ensures { result ≡ spec.candidate number cpu deadline }
{
    Candidate {
        deadline,
        number,
        home: cpu as u32,
    }
}

#[inline(always)]
fn take_out(schedule: &mut Schedule, number: u32, cpu: usize, before: Option<u64>)
    requires { cpu < 64 }
    ensures { schedule.new ≡ record schedule.old {
      queue = spec.without_ready (spec.candidate_at number cpu before) schedule.old.queue;
    } }
{
    if let Some(deadline) = before {
        schedule.remove(&candidate(number, cpu, deadline));
    }
}

#[inline(always)]
fn take_in(schedule: &mut Schedule, number: u32, cpu: usize, after: Option<u64>)
    requires cpu { cpu < 64 }
    requires room { length schedule.old.queue < 256 }
    requires numbered { IfSome (spec.candidate_at number cpu after)
        (λ c. All (λ a. a.number ≢ c.number) schedule.old.queue) }
    requires homed { IfSome (spec.candidate_at number cpu after)
        (λ c. IsAtHome schedule.old.places c) }
    ensures { schedule.new ≡ record schedule.old {
      queue = spec.with_ready (spec.candidate_at number cpu after) schedule.old.queue;
    } }
{
    if let Some(deadline) = after {
        schedule.insert(candidate(number, cpu, deadline));
    }
}

impl RunQueue {
    /// Of no tasks. No other call takes memory.
    pub(crate) fn open(alloc: Global, cpus: usize) -> Result<RunQueue, NoMemory>
        requires some { 0 < cpus }
        requires few { cpus ≤ 64 }
        ensures counted { IfOk result (λ queue. spec.IsCounted cpus queue []) }
        ensures places { IfOk result (λ queue. queue.schedule.places ≡ replicate cpus None) }
        ensures moves { IfOk result (λ queue. queue.schedule.moves ≡ []) }
    {
        // For the prover alone: matched, and not handed on by `?`.
        let Ok(accounts) = Accounts::open(alloc, cpus) else {
            return Err(NoMemory);
        };
        let Ok(timers) = Timers::open(alloc) else {
            return Err(NoMemory);
        };
        let Ok(schedule) = Schedule::open(alloc, cpus) else {
            return Err(NoMemory);
        };
        Ok(RunQueue {
            accounts,
            schedule,
            timers,
        })
    }

    /// The task at a place of the list, of a number, which belongs to a CPU, had the status
    /// `before`, and has `after` now.
    #[inline(always)]
    pub(crate) fn apply(
        &mut self,
        place: usize,
        number: u32,
        cpu: usize,
        before: &TaskStatus,
        after: &TaskStatus,
    )
        requires narrow { length self.old.accounts.all ≤ 64 }
        requires turns { spec.MayApply place number cpu self.old before.now after.now }
        ensures { spec.IsApplied place number cpu before.now after.now self.old self.new }
    {
        track(&mut self.accounts, cpu, before, after);
        if before.ready != after.ready {
            take_out(&mut self.schedule, number, cpu, before.ready);
            take_in(&mut self.schedule, number, cpu, after.ready);
        }
        if before.due != after.due {
            self.timers.set(place, after.due);
        }
    }
}
