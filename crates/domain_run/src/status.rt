//! The status of a task, for what a domain keeps beside its list: its share of the sums, whether it
//! is ready, and when it is due. Its number and the CPU to which it belongs are given beside that.

ghost use Rattle.std.specs.Prelude.{◌≡◌, ◌<◌, ◌^◌};
ghost use Rattle.domain_run.specs.Tick as tick_spec;
ghost use Rattle.domain_run.specs.private.RunQueue as spec;
ghost use Rattle.domain_run.specs.private.Timers as timers;

use crate::task::{Condition, Task};
use due_times::NEVER;
use grub_rules::Share;

/// A task as the sums see it, as the choice does where it is ready, and when it is due.
#[derive(Clone, Copy)]
pub(crate) struct TaskStatus {
    pub(crate) bw: u64,
    pub(crate) active: bool,
    /// The deadline by which it is chosen, where it is ready.
    pub(crate) ready: Option<u64>,
    /// The first time at which something is to be done to it before the choice, in microseconds.
    pub(crate) due: u64,
}

/// Whether a task's bandwidth is active: it contends, or has a zero-lag time ahead.
#[inline(always)]
fn is_active(task: &Task) -> bool
    ensures { result ≡ (tick_spec.share_of task.now).active }
{
    task.condition.is_contending() || task.zero_lag.is_some()
}

/// A task as the sums see it.
pub(crate) fn share_of(task: &Task) -> Share
    ensures { result ≡ tick_spec.share_of task.now }
{
    Share {
        cpu: task.cpu,
        bw: task.params.bw,
        active: is_active(task),
    }
}

#[inline(always)]
fn moment_of(moment: Option<u64>) -> u64
    ensures moment { result ≡ timers.due_moment moment }
    ensures short { result < 2 ^ 64 }
{
    match moment {
        None => NEVER,
        Some(moment) => moment,
    }
}

/// The first time at which something is to be done to a task before the choice.
#[inline(always)]
pub(crate) fn due_of(task: &Task) -> u64
    ensures { result ≡ timers.due_of task.now }
{
    let settled = moment_of(task.zero_lag);
    match task.condition {
        Condition::Ready | Condition::Waiting => settled,
        Condition::Throttled => moment_of(task.server.deadline).min(settled),
        Condition::Blocked(until) => until.min(settled),
        Condition::Leaving => task.zero_lag.unwrap_or(0),
    }
}

#[inline(always)]
fn ready_at(task: &Task) -> Option<u64>
    ensures { result ≡ spec.ready_at task.now }
{
    match task.condition {
        Condition::Ready => Some(task.server.deadline.unwrap_or(0)),
        _ => None,
    }
}

/// The status of a task now.
#[inline(always)]
pub(crate) fn status_of(task: &Task) -> TaskStatus
    ensures { result ≡ spec.status_of task.now }
{
    let bw = task.params.bw;
    TaskStatus {
        bw,
        active: is_active(task),
        ready: ready_at(task),
        due: due_of(task),
    }
}
