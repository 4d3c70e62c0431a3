//! The parts of a tick, on one task.

ghost use Rattle.std.specs.Prelude.{◌≡◌, ◌<◌, ◌≤◌, ◌^◌, IsTrue, IsSome, false, pos, neg_ℤ, ◌≤ℤ◌, ◌<ℤ◌};
ghost use Rattle.domain_run.specs.Conditions as conditions;
ghost use Rattle.cbs_rules.specs.Serving as serving;
ghost use Rattle.domain_run.specs.Switches as switches_spec;
ghost use Rattle.domain_run.specs.Parts as parts;
ghost use Rattle.domain_run.specs.private.Paying.{ran_until};
ghost use Rattle.task_script.specs.script.Segments.{IsSegment, next_ask};
ghost use Rattle.domain_run.specs.Bounds.{IsServed};
ghost use Rattle.domain_run.specs.Sound.{IsTimed, IsSound};
ghost use Rattle.limits.specs.Limits.{clock_end};

use crate::switch::PrevState;
use crate::task::{Condition, Task};
use cbs_rules::Server;
use task_script::Segment;

pub(crate) fn has_come(time: u64, moment: Option<u64>) -> bool
    ensures { result ≡ conditions.has_come time moment }
{
    match moment {
        None => false,
        Some(moment) => moment <= time,
    }
}

fn replenish_now(server: Server, task: &Task, time: u64) -> Server
    requires early { time < clock_end }
    requires served { IsServed time server }
    requires spent { server.left ≤ℤ pos 0 }
    requires come { IsTrue (conditions.has_come time server.deadline) }
    ensures value { result ≡ serving.replenished task.now.params server }
    ensures served { IsServed time result }
    ensures lifted { pos 0 <ℤ result.left }
    ensures dated { IsSome result.deadline }
{
    cbs_rules::replenish(server, &task.params)
}

/// Part 1: a throttled task whose deadline has come is replenished.
pub(crate) fn replenish_due(task: &mut Task, time: u64)
    requires early { time < clock_end }
    requires sound { IsSound time task.old }
    ensures task { task.new ≡ parts.replenish_due time task.old }
    ensures sound { IsSound time task.new }
{
    if task.condition.is_throttled() && has_come(time, task.server.deadline) {
        task.server = replenish_now(task.server, task, time);
        task.condition = Condition::Ready;
    }
}

/// Part 2: a zero-lag time that has come is dropped.
pub(crate) fn settle(task: &mut Task, time: u64)
    requires { IsSound time task.old }
    ensures task { task.new ≡ parts.settled time task.old }
    ensures sound { IsSound time task.new }
{
    if has_come(time, task.zero_lag) {
        task.zero_lag = None;
    }
}

/// Part 2: whether a task stays listed.
pub(crate) fn is_listed(task: &Task) -> bool
    ensures { result ≡ parts.is_listed task.now }
{
    !(task.condition.is_leaving() && task.zero_lag.is_none())
}

fn enqueue(task: &mut Task, server: Server, time: u64)
    requires early { time < clock_end }
    requires served { IsServed time server }
    requires dated { IsSome server.deadline }
    requires busy { 0 < task.old.work }
    requires timed { task.old.cursor.reference ≤ time }
    ensures task { task.new ≡ parts.enqueued time server task.old }
    ensures sound { IsSound time task.new }
{
    if !cbs_rules::is_throttled(&server) {
        task.server = server;
        task.condition = Condition::Ready;
    } else if has_come(time, server.deadline) {
        task.server = replenish_now(server, task, time);
        task.condition = Condition::Ready;
    } else {
        task.server = server;
        task.condition = Condition::Throttled;
    }
}

fn wake_server(task: &Task, time: u64) -> Server
    requires early { time < clock_end }
    requires served { IsServed time task.now.server }
    ensures value { result ≡ serving.woken task.now.params time task.now.server }
    ensures served { IsServed time result }
    ensures dated { IsSome result.deadline }
{
    cbs_rules::on_wake(task.server, &task.params, time)
}

#[inline(always)]
fn wake(task: &mut Task, work: u64, time: u64)
    requires early { time < clock_end }
    requires served { IsServed time task.old.server }
    requires busy { 0 < work }
    requires timed { task.old.cursor.reference ≤ time }
    ensures task { task.new ≡ parts.woken_task time work task.old }
    ensures sound { IsSound time task.new }
{
    let server = wake_server(task, time);
    task.zero_lag = None;
    task.work = work;
    enqueue(task, server, time);
}

#[inline(always)]
fn start(task: &mut Task, segment: Segment, time: u64)
    requires early { time < clock_end }
    requires served { IsServed time task.old.server }
    requires within { IsSegment segment }
    requires timed { task.old.cursor.reference ≤ next_ask time segment }
    ensures task { task.new ≡ parts.started time segment task.old }
    ensures sound { IsSound time task.new }
{
    match segment {
        Segment::Run(work) => wake(task, work, time),
        Segment::Until(until) => task.condition = Condition::Blocked(until),
        Segment::Wait => task.condition = Condition::Waiting,
        Segment::End => task.condition = Condition::Leaving,
    }
}

/// Part 3: a task whose time of blocking is over asks its script.
#[inline(always)]
pub(crate) fn unblock(task: &mut Task, time: u64)
    requires early { time < clock_end }
    requires sound { IsSound time task.old }
    ensures task { task.new ≡ parts.unblocked time task.old }
    ensures sound { IsSound time task.new }
{
    if task.condition.is_over(time) {
        let segment = task.cursor.next(time);
        start(task, segment, time);
    }
}

/// Part 5: the state in which a listed task leaves its CPU. Not inlined it is read from a table,
/// and inlined it would be a jump by the condition.
#[inline(never)]
pub(crate) fn left_in(condition: Condition) -> PrevState
    ensures { result ≡ switches_spec.left_in condition }
{
    match condition {
        Condition::Ready | Condition::Throttled => PrevState::Preempted,
        Condition::Blocked(_) | Condition::Waiting => PrevState::Sleeping,
        Condition::Leaving => PrevState::Dead,
    }
}

fn run_on(task: &mut Task, time: u64)
    requires served { IsServed time task.old.server }
    requires dated { IsSome task.old.server.deadline }
    requires busy { 0 < task.old.work }
    requires timed { task.old.cursor.reference ≤ time }
    ensures task { task.new ≡ parts.running_on task.old }
    ensures sound { IsSound time task.new }
{
    task.condition = if cbs_rules::is_throttled(&task.server) {
        Condition::Throttled
    } else {
        Condition::Ready
    };
}

#[inline(always)]
pub(crate) fn stop(task: &mut Task, condition: Condition, time: u64)
    requires served { IsServed time task.old.server }
    requires resting { conditions.is_contending condition ≡ false }
    requires timed { IsTimed time condition task.old.cursor.reference }
    ensures task { task.new ≡ parts.stopped time condition task.old }
    ensures sound { IsSound time task.new }
{
    task.condition = condition;
    task.zero_lag = grub_rules::zero_lag(&task.server, &task.params, time);
}

#[inline(always)]
fn go_on(task: &mut Task, segment: Segment, time: u64)
    requires served { IsServed time task.old.server }
    requires dated { IsSome task.old.server.deadline }
    requires within { IsSegment segment }
    requires timed { task.old.cursor.reference ≤ next_ask time segment }
    ensures task { task.new ≡ parts.went_on time segment task.old }
    ensures sound { IsSound time task.new }
{
    match segment {
        Segment::Run(work) => {
            task.work = work;
            run_on(task, time);
        }
        Segment::Until(until) => stop(task, Condition::Blocked(until), time),
        Segment::Wait => stop(task, Condition::Waiting, time),
        Segment::End => stop(task, Condition::Leaving, time),
    }
}

#[inline(always)]
fn after_charge(task: &mut Task, time: u64)
    requires early { time < 2 ^ 43 }
    requires served { IsServed time task.old.server }
    requires dated { IsSome task.old.server.deadline }
    requires timed { task.old.cursor.reference ≤ time }
    ensures task { task.new ≡ parts.after_charge time task.old }
    ensures sound { IsSound time task.new }
{
    if task.work == 0 {
        let segment = task.cursor.next(time);
        go_on(task, segment, time);
    } else {
        run_on(task, time);
    }
}

/// Part 6: so many ticks of running at once, up to a time, with what they leave of the budget.
#[inline(always)]
pub(crate) fn run_until(task: &mut Task, time: u64, ticks: u64, left: i128)
    requires early { time < 2 ^ 43 }
    requires low { neg_ℤ (pos (2 ^ 32)) ≤ℤ left }
    requires high { left ≤ℤ pos (2 ^ 52) }
    requires worked { ticks ≤ task.old.work }
    requires sound { IsSound time task.old }
    requires running { IsTrue (conditions.is_ready task.old.condition) }
    ensures task { task.new ≡ ran_until time ticks left task.old }
    ensures sound { IsSound time task.new }
{
    task.server.left = left;
    task.work -= ticks;
    after_charge(task, time);
}
