//! What is done to one listed task: a part of a tick, or a call.

ghost use Rattle.std.specs.Prelude.{ℕ, ◌≡◌, ◌<◌, ◌≤◌, ◌^◌, ◌<ℤ◌, ◌≤ℤ◌, IsTrue, Option, None, IfSome, IfNone, option_map, pos};
ghost use Rattle.domain_run.specs.Conditions.{is_ready};
ghost use Rattle.domain_run.specs.Sound.{IsSound};
ghost use Rattle.domain_run.specs.private.Paying.{ran_until};
ghost use Rattle.domain_run.specs.private.RunQueue as spec;
ghost use Rattle.domain_run.specs.private.TaskTable.{task_after, deferred_lag, without_zero_lag, MayMake, MayRun, HadStatus};
ghost use Rattle.domain_run.specs.private.Owed.{owed_by};
ghost use Rattle.due_times.specs.declared.charges.OpenCharge.{OpenCharge};

use crate::status::{TaskStatus, status_of};
use crate::task::Task;
use crate::{calls, parts};
use attr_check::Params;

/// What is done to one listed task.
#[derive(Clone, Copy)]
pub(crate) enum Transition {
    /// Part 1: it is replenished where it is throttled and its deadline has come.
    Replenish,
    /// Part 2: its zero-lag time is dropped where it has come.
    Settle,
    /// Part 3: it asks its script where its time of blocking is over.
    Unblock,
    /// Part 6 of so many ticks at once, which leave so much of its budget, in 1/2^20 us.
    Run { ticks: u64, left: i128 },
    /// As `Run`; its zero-lag time, where it stops with one, is deferred.
    RunDeferring { ticks: u64, left: i128 },
    /// Its zero-lag time is deferred.
    Defer,
    /// It has a zero-lag time again, in microseconds.
    TakeBack { lag: u64 },
    /// It has new parameters.
    Regrade { params: Params },
    /// It waits no more.
    Release,
    /// It ends.
    End,
    /// It goes to another domain: it asks for no CPU any more, and has no zero-lag time.
    Depart,
}

/// Whether a look at a task shows that a change does nothing to it, whatever it owes.
#[inline(always)]
pub(crate) fn does_nothing(task: &Task, time: u64, transition: &Transition) -> bool
    ensures { IsTrue result → (upto : ℕ) (open_charge : Option OpenCharge)
        → task_after time transition.now (owed_by upto open_charge task.now)
        ≡ owed_by upto open_charge task.now }
{
    match transition {
        Transition::Replenish => !task.condition.is_throttled(),
        Transition::Settle => !parts::has_come(time, task.zero_lag),
        Transition::Unblock => !task.condition.is_over(time),
        _ => false,
    }
}

/// Part 6 of so many ticks at once, where neither work nor budget ends with them: a running task
/// runs on, and has the status of before.
fn slide(task: &mut Task, time: u64, ticks: u64, left: i128)
    requires lasted { pos 0 <ℤ left }
    requires high { left ≤ℤ pos (2 ^ 52) }
    requires worked { ticks < task.old.work }
    requires ready { IsTrue (is_ready task.old.condition) }
    requires sound { IsSound time task.old }
    ensures task { task.new ≡ ran_until time ticks left task.old }
    ensures sound { IsSound time task.new }
    ensures on_cpu { spec.status_of task.new ≡ spec.status_of task.old }
{
    task.server.left = left;
    task.work -= ticks;
}

/// The zero-lag time of a task, which has it no more.
#[inline(always)]
fn take_lag(task: &mut Task) -> Option<u64>
    ensures task { task.new ≡ without_zero_lag task.old }
    ensures lag { result ≡ task.old.zero_lag }
{
    let lag = task.zero_lag;
    task.zero_lag = None;
    lag
}

/// As part 6 of so many ticks; the zero-lag time with which it stops is deferred.
#[inline(always)]
fn run_deferring(task: &mut Task, time: u64, ticks: u64, left: i128) -> Option<u64>
    requires sound { IsSound time task.old }
    requires may { MayRun time ticks left task.old }
    requires small { task.old.params.bw ≤ 2 ^ 20 }
    ensures task { task.new ≡ without_zero_lag (ran_until time ticks left task.old) }
    ensures deferring { result ≡ (ran_until time ticks left task.old).zero_lag }
    ensures sound { IsSound time task.new }
{
    parts::run_until(task, time, ticks, left);
    take_lag(task)
}

// Makes a change, and answers the zero-lag time that it defers.
#[inline(always)]
fn act(task: &mut Task, time: u64, transition: &Transition) -> Option<u64>
    requires sound { IsSound time task.old }
    requires may { MayMake time transition.now task.old }
    ensures task { task.new ≡ task_after time transition.now task.old }
    ensures deferring { result ≡ deferred_lag time transition.now task.old }
    ensures sound { IsSound time task.new }
{
    // For the prover alone: the call brings what the type of parameters keeps.
    let _bw = task.params.bandwidth();
    match transition {
        Transition::Replenish => parts::replenish_due(task, time),
        Transition::Settle => parts::settle(task, time),
        Transition::Unblock => parts::unblock(task, time),
        Transition::Run { ticks, left } => parts::run_until(task, time, *ticks, *left),
        Transition::RunDeferring { ticks, left } => return run_deferring(task, time, *ticks, *left),
        Transition::Defer => return take_lag(task),
        Transition::TakeBack { lag } => task.zero_lag = Some(*lag),
        Transition::Regrade { params } => calls::regrade(task, params),
        Transition::Release => calls::release(task, time),
        Transition::End => calls::end(task, time),
        Transition::Depart => calls::depart(task),
    }
    None
}

/// The status of a task before a change, and the zero-lag time that this has deferred.
#[derive(Clone, Copy)]
pub(crate) struct Made {
    pub(crate) before: TaskStatus,
    /// In microseconds.
    pub(crate) deferring: Option<u64>,
}

/// Makes a change, and answers the status of the task before, if that may have changed.
#[inline(always)]
pub(crate) fn make(task: &mut Task, time: u64, transition: &Transition) -> Option<Made>
    requires sound { IsSound time task.old }
    requires may { MayMake time transition.now task.old }
    ensures task { task.new ≡ task_after time transition.now task.old }
    ensures sound { IsSound time task.new }
    ensures was_on_cpu { HadStatus (option_map (λ m. m.before) result) task.old task.new }
    ensures deferring { IfSome result (λ m. m.deferring
        ≡ deferred_lag time transition.now task.old) }
    ensures none { IfNone result (deferred_lag time transition.now task.old ≡ None) }
{
    if let Transition::Run { ticks, left } = transition
        && *left > 0
        && *ticks < task.work
    {
        slide(task, time, *ticks, *left);
        return None;
    }
    let before = status_of(task);
    let deferring = act(task, time, transition);
    Some(Made { before, deferring })
}
