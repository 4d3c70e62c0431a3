//! What a transition of one task logs.

ghost use Rattle.std.specs.Prelude.{[], ◌≡◌, ◌<◌, ◌^◌, ℕ, ℤ, pos, Bool, IsTrue, false};
ghost use Rattle.domain_run.specs.declared.task.Condition.{Condition};
ghost use Rattle.domain_run.specs.declared.task.Task.{Task};
ghost use Rattle.domain_run.specs.declared.transition.Transition.TheVariants as Transition;
ghost use Rattle.domain_run.specs.declared.happened.What.TheVariants as What;
ghost use Rattle.domain_run.specs.Conditions.{is_ready};
ghost use Rattle.domain_run.specs.Happened as spec;
ghost use Rattle.domain_run.specs.Sound.{IsSound};
ghost use Rattle.domain_run.specs.private.TaskTable.{MayMake};
ghost use Rattle.domain_run.specs.private.TransitionLog as transition_log;

use crate::happened::{Happened, What};
use crate::task::{Condition, Task};
use crate::transition::Transition;

/// What is looked at of a task before a change.
#[derive(Clone, Copy)]
pub(crate) struct Before {
    pub(crate) condition: Condition,
    /// Its script is asked at the end of its work, and passes a timer that is late.
    pub(crate) is_late: bool,
}

/// What a transition logs, in its order.
#[derive(Clone, Copy)]
pub(crate) struct LogEntries {
    pub(crate) first: Option<Happened>,
    pub(crate) second: Option<Happened>,
    pub(crate) third: Option<Happened>,
}

fn is_late(task: &Task, time: u64, ticks: u64) -> bool
    requires early { time < 2 ^ 43 }
    requires sound { IsSound time task.now }
    requires ready { IsTrue (is_ready task.now.condition) }
    ensures { result ≡ transition_log.is_late_in time (Transition.Run ticks (pos 0)) task.now }
{
    task.work <= ticks && task.cursor.passes_late_timer(time)
}

/// A look at a task before a change.
#[inline(always)]
pub(crate) fn look(task: &Task, time: u64, transition: &Transition) -> Before
    requires sound { IsSound time task.now }
    requires may { MayMake time transition.now task.now }
    ensures { result ≡ transition_log.look_of time transition.now task.now }
{
    let is_late = match transition {
        Transition::Run { ticks, .. } => is_late(task, time, *ticks),
        Transition::RunDeferring { ticks, .. } => is_late(task, time, *ticks),
        _ => false,
    };
    Before {
        condition: task.condition,
        is_late,
    }
}

/// Whether part 1 or 3 may log anything of a task in this condition.
#[inline(always)]
pub(crate) fn may_log(condition: Condition, time: u64, transition: &Transition) -> bool
    ensures { (t : Task) → result ≡ false → t.condition ≡ condition
        → transition_log.logged_by_transition time transition.now t ≡ [] }
{
    match transition {
        Transition::Replenish => condition.is_throttled(),
        Transition::Unblock => condition.is_over(time),
        _ => true,
    }
}

/// Whether a look at a task shows that a transition logs nothing: it runs on, with work and budget
/// left.
#[inline(always)]
pub(crate) fn logs_nothing(task: &Task, transition: &Transition) -> bool
    ensures { (time : ℕ) → IsTrue result → transition_log.logged_by_transition time transition.now
        task.now ≡ [] }
{
    if let Transition::Run { ticks, left } = transition
        && *left > 0
        && *ticks < task.work
    {
        return true;
    }
    false
}

fn logged_if(test: bool, time: u64, task: &Task, what: What) -> Option<Happened>
    requires { task.now.cpu < 2 ^ 16 }
    ensures { result ≡ transition_log.logged_where test time task.now what }
{
    if !test {
        return None;
    }
    Some(Happened {
        time,
        what,
        number: task.number,
        cpu: task.cpu as u16,
    })
}

/// The job of a task of a CPU that a call cuts.
pub(crate) fn cut(time: u64, number: u32, cpu: usize) -> Happened
    requires { cpu < 2 ^ 16 }
    ensures { result ≡ record { time = time; what = What.Cut; number = number; cpu = cpu } }
{
    Happened {
        time,
        what: What::Cut,
        number,
        cpu: cpu as u16,
    }
}

fn due(task: &Task) -> u64
    ensures { result ≡ spec.due task.now }
{
    task.server.deadline.unwrap_or(0)
}

// When a job that is released at a time is due.
fn job_due(task: &Task, time: u64) -> u64
    requires { time < 2 ^ 43 }
    ensures { result ≡ spec.job_due time task.now }
{
    time + task.params.deadline
}

fn by_replenishment(time: u64, was: Condition, task: &Task) -> LogEntries
    requires narrow { task.now.cpu < 2 ^ 16 }
    ensures { (late : Bool) → result
        ≡ transition_log.entries_after time Transition.Replenish
        (record { condition = was; is_late = late }) task.now }
{
    let is_logged = was.is_throttled() && task.condition.is_ready();
    let deadline = due(task);
    LogEntries {
        first: logged_if(is_logged, time, task, What::Replenished { deadline }),
        second: None,
        third: None,
    }
}

fn by_unblocking(time: u64, was: Condition, task: &Task) -> LogEntries
    requires narrow { task.now.cpu < 2 ^ 16 }
    requires early { time < 2 ^ 43 }
    ensures { (late : Bool) → result
        ≡ transition_log.entries_after time Transition.Unblock
        (record { condition = was; is_late = late }) task.now }
{
    let is_released = was.is_over(time) && task.condition.is_contending();
    let is_spent = was.is_over(time) && task.condition.is_throttled();
    let (released, deadline) = (job_due(task, time), due(task));
    LogEntries {
        first: logged_if(
            is_released,
            time,
            task,
            What::Released { deadline: released },
        ),
        second: logged_if(is_spent, time, task, What::WokenSpent { deadline }),
        third: None,
    }
}

fn by_run(time: u64, is_late: bool, task: &Task) -> LogEntries
    requires narrow { task.now.cpu < 2 ^ 16 }
    requires early { time < 2 ^ 43 }
    ensures { (ticks : ℕ) (left : ℤ) (was : Condition) → result
        ≡ transition_log.entries_after time (Transition.Run ticks left)
        (record { condition = was; is_late = is_late }) task.now }
{
    let goes_on = task.condition.is_contending();
    let is_spent = task.condition.is_throttled();
    let (released, deadline) = (job_due(task, time), due(task));
    LogEntries {
        first: logged_if(!goes_on || is_late, time, task, What::JobEnds),
        second: logged_if(
            goes_on && is_late,
            time,
            task,
            What::NextReleased { deadline: released },
        ),
        third: logged_if(is_spent, time, task, What::Spent { deadline }),
    }
}

/// What a transition logs, by the look before it and the task after it.
#[inline(always)]
pub(crate) fn seen_later(
    time: u64,
    transition: &Transition,
    before: Before,
    task: &Task,
) -> LogEntries
    requires narrow { task.now.cpu < 2 ^ 16 }
    requires early { time < 2 ^ 43 }
    ensures { result ≡ transition_log.entries_after time transition.now before task.now }
{
    match transition {
        Transition::Replenish => by_replenishment(time, before.condition, task),
        Transition::Unblock => by_unblocking(time, before.condition, task),
        Transition::Run { .. } => by_run(time, before.is_late, task),
        Transition::RunDeferring { .. } => by_run(time, before.is_late, task),
        _ => LogEntries {
            first: None,
            second: None,
            third: None,
        },
    }
}
