//! How the mark of a task is compared a period later.

ghost use Rattle.std.specs.Prelude.{ℕ, ◌≡◌, ◌+◌, ◌↔◌, None, IfSome, IsSome, IsTrue};
ghost use Rattle.domain_run.specs.declared.task.Condition.TheVariants as condition;
ghost use Rattle.domain_run.specs.Conditions.{is_contending};
ghost use Rattle.domain_run.specs.declared.pace.Pace.{Pace};
ghost use Rattle.task_script.specs.script.Later.{later_reference};
ghost use Rattle.domain_run.specs.Later.{later, later_condition, later_server};
ghost use Rattle.domain_run.specs.Marks.{paced_mark, round_on};
ghost use Rattle.repeat_law.specs.Marks.{IsLaterMark, IsWorkingOn, MayBegin};

use cbs_rules::Server;
use domain_run::{Condition, Pace, TaskMark};

fn is_later(before: u64, after: u64, micros: u64) -> bool
    ensures { IsTrue result ↔ (after ≡ before + micros) }
{
    after >= micros && after - micros == before
}

fn is_later_time(before: Option<u64>, after: Option<u64>, micros: u64) -> bool
    ensures { IsTrue result ↔ (after ≡ later micros before) }
{
    match (before, after) {
        (None, None) => true,
        (Some(before), Some(after)) => is_later(before, after, micros),
        _ => false,
    }
}

fn is_later_condition(before: Condition, after: Condition, micros: u64) -> bool
    ensures { IsTrue result ↔ (after ≡ later_condition micros before) }
{
    match (before, after) {
        (Condition::Blocked(before), Condition::Blocked(after)) => is_later(before, after, micros),
        (Condition::Blocked(_), _) => false,
        _ => after == before,
    }
}

fn is_later_server(before: Server, after: Server, micros: u64) -> bool
    ensures { IsTrue result ↔ (after ≡ later_server micros before) }
{
    after.left == before.left && is_later_time(before.deadline, after.deadline, micros)
}

fn is_later_reference(before: u64, after: u64, micros: u64, timed: bool) -> bool
    ensures { IsTrue result ↔ (after ≡ later_reference timed micros before) }
{
    if timed {
        is_later(before, after, micros)
    } else {
        after == before
    }
}

// Whether all but work and round are later.
fn is_later_mark(before: &TaskMark, after: &TaskMark, micros: u64, timed: bool) -> bool
    ensures { IsTrue result ↔ IsLaterMark timed micros before.now after.now }
{
    after.cpu == before.cpu
        && after.step == before.step
        && is_later_condition(before.condition, after.condition, micros)
        && is_later_time(before.zero_lag, after.zero_lag, micros)
        && is_later_server(before.server, after.server, micros)
        && is_later_reference(before.reference, after.reference, micros, timed)
}

fn rests(mark: &TaskMark) -> bool
    ensures { IsTrue result ↔
        (mark.now.condition ≡ condition.Waiting) × (mark.now.zero_lag ≡ None) }
{
    mark.condition == Condition::Waiting && mark.zero_lag.is_none()
}

fn contends(condition: Condition) -> bool
    ensures { result ≡ is_contending condition }
{
    matches!(condition, Condition::Ready | Condition::Throttled)
}

fn rounds_between(before: u64, after: u64, finite: bool) -> Option<u64>
    ensures rounds { IfSome result (λ rounds. after ≡ round_on finite rounds before) }
    ensures found { (rounds : ℕ) → after ≡ round_on finite rounds before → IsSome result }
{
    if after == before {
        Some(0)
    } else if finite && after > before {
        Some(after - before)
    } else {
        None
    }
}

// Whether it does some of its work, which lasts longer.
fn works_on(before: &TaskMark, after: &TaskMark, micros: u64) -> bool
    ensures { IsTrue result ↔ IsWorkingOn micros before.now after.now }
{
    contends(before.condition)
        && micros < before.work
        && after.work < before.work
        && after.round == before.round
}

/// The pace at which a task comes from one mark to the other in `micros` microseconds, or none if
/// it comes back to no such mark. `finite` says whether its script has an end, `timed` whether the
/// script has a timer. A pace that it gives explains the second mark, and may begin at the first;
/// if there is such a pace, it gives one.
pub fn pace_between(
    before: &TaskMark,
    after: &TaskMark,
    micros: u64,
    finite: bool,
    timed: bool,
) -> Option<Pace>
    ensures paced { IfSome result (λ pace.
        after.now ≡ paced_mark finite timed micros pace before.now) }
    ensures begins { IfSome result (λ pace. MayBegin micros pace before.now) }
    ensures found { (pace : Pace) → MayBegin micros pace before.now
        → after.now ≡ paced_mark finite timed micros pace before.now → IsSome result }
{
    if rests(before) && *after == *before {
        Some(Pace::Rests)
    } else if !is_later_mark(before, after, micros, timed) {
        None
    } else if after.work == before.work {
        match rounds_between(before.round, after.round, finite) {
            Some(rounds) => Some(Pace::Plays(rounds)),
            None => None,
        }
    } else if works_on(before, after, micros) {
        Some(Pace::Works(before.work - after.work))
    } else {
        None
    }
}
