//! The shift of the recording's clock.

ghost use Rattle.std.specs.Prelude.{◌≡◌, ◌*◌, ◌<◌, ◌≤◌, ◌^◌, ◌++◌, length, take, map, sum_by, All, IfOk, IfSome, IfNone, OnOk};
ghost use Rattle.std.specs.List.{flat_map};
ghost use Rattle.trace_compare.specs.Runs.{IsShort};
ghost use Rattle.trace_compare.specs.Tasks.{AreSoundRuns};
ghost use Rattle.trace_compare.specs.Clocks.{shift_between, IsSmallShift};
ghost use Rattle.trace_compare.specs.Shift.{shifts_of, task_score, IsBestOf, IsShift};
ghost use Rattle.trace_compare.specs.private.Choices.{IsBetter, most_of};

use crate::clock::{ClockShift, NO_SHIFT};
use crate::pairs::matched_if;
use crate::run::Run;
use crate::task::TaskRuns;
use std::alloc::{AllocError, Global};

/// How many tasks are looked at (own).
const TASKS: usize = 256;
/// How many runs of the model are looked at, of all tasks (own).
const RUNS: usize = 4096;
/// How many recorded starts of a task are tried.
const STARTS: usize = 50;

/// At most so many from the front.
fn front(runs: &[Run], most: usize) -> &[Run]
    ensures { result.now ≡ take most runs.now }
{
    if runs.len() <= most {
        runs
    } else {
        &runs[..most]
    }
}

/// How many of the first runs of a task match under a shift; none if fewer than `needed` do.
fn score_of_task(
    within: u64,
    share: usize,
    shift: ClockShift,
    task: &TaskRuns,
    needed: usize,
) -> Option<usize>
    requires within { within < 2 ^ 61 }
    requires share { share ≤ 4096 }
    requires shift { IsSmallShift shift }
    requires task { AreSoundRuns task.now }
    ensures some { IfSome result (λ n. n ≡ task_score within share shift task.now) }
    ensures few { IfSome result (λ n. n ≤ most_of share task.now) }
    ensures none { IfNone result (task_score within share shift task.now < needed) }
{
    let ms = front(task.model.as_slice(), share);
    let rs = front(task.recorded.as_slice(), 4 * share + STARTS);
    matched_if(within, shift, ms, rs, needed)
}

/// How many of the first runs of a task can match at most.
fn most_of_task(share: usize, task: &TaskRuns) -> usize
    ensures { result ≡ most_of share task.now }
{
    task.model.len().min(share)
}

/// How many of the first runs of the tasks can match at most.
fn most_of_tasks(share: usize, tasks: &[TaskRuns]) -> usize
    requires share { share ≤ 4096 }
    requires few { length tasks.now ≤ 256 }
    ensures value { result ≡ sum_by (most_of share) tasks.now }
    ensures small { result ≤ 4096 * 256 }
{
    let mut most = 0;
    for task in tasks {
        most += most_of_task(share, task);
    }
    most
}

/// How many of the first runs of the tasks match under a shift; none if fewer than `needed` do. It
/// ends as soon as the runs that are left are too few.
fn score_if(
    within: u64,
    share: usize,
    shift: ClockShift,
    tasks: &[TaskRuns],
    needed: usize,
) -> Option<usize>
    requires within { within < 2 ^ 61 }
    requires share { share ≤ 4096 }
    requires shift { IsSmallShift shift }
    requires few { length tasks.now ≤ 256 }
    requires tasks { All AreSoundRuns tasks.now }
    ensures some { IfSome result (λ n. n ≡ sum_by (task_score within share shift) tasks.now) }
    ensures none { IfNone result (sum_by (task_score within share shift) tasks.now < needed) }
{
    let mut left = most_of_tasks(share, tasks);
    let mut total = 0;
    for task in tasks {
        left -= most_of_task(share, task);
        let wanted = needed.saturating_sub(total + left);
        match score_of_task(within, share, shift, task, wanted) {
            Some(score) => total += score,
            None => return None,
        }
    }
    if total < needed { None } else { Some(total) }
}

/// The shift from a start of the model to a recorded one.
fn shift_to(start: u64, run: &Run) -> ClockShift
    requires start { start < 2 ^ 61 }
    requires run { IsShort run.now }
    ensures value { result ≡ shift_between start run.now.start }
    ensures small { IsSmallShift result }
{
    ClockShift {
        ahead: run.start.saturating_sub(start),
        behind: start.saturating_sub(run.start),
    }
}

/// Adds the shifts from a start of the model to each of the recorded ones.
fn push_from(shifts: &mut Vec<ClockShift>, start: u64, runs: &[Run]) -> Result<(), AllocError>
    requires start { start < 2 ^ 61 }
    requires runs { All IsShort runs.now }
    ensures shifts { OnOk result (shifts.new.items
        ≡ shifts.old.items ++ map (λ r. shift_between start r.start) runs.now) }
    ensures small { All IsSmallShift shifts.old.items
        → All IsSmallShift shifts.new.items }
{
    for run in runs {
        shifts.push(shift_to(start, run))?;
    }
    Ok(())
}

/// Adds the shifts from the model's first start to each of the first recorded ones.
fn push_shifts(shifts: &mut Vec<ClockShift>, task: &TaskRuns) -> Result<(), AllocError>
    requires { AreSoundRuns task.now }
    ensures shifts { OnOk result (shifts.new.items ≡ shifts.old.items ++ shifts_of task.now) }
    ensures small { All IsSmallShift shifts.old.items
        → All IsSmallShift shifts.new.items }
{
    match task.model.as_slice().first() {
        None => Ok(()),
        Some(first) => push_from(shifts, first.start, front(task.recorded.as_slice(), STARTS)),
    }
}

/// The shifts that are tried.
fn all_shifts(alloc: Global, tasks: &[TaskRuns]) -> Result<Vec<ClockShift>, AllocError>
    requires { All AreSoundRuns tasks.now }
    ensures shifts { IfOk result (λ v. v.items ≡ flat_map shifts_of tasks.now) }
    ensures small { IfOk result (λ v. All IsSmallShift v.items) }
{
    let mut shifts = Vec::new(alloc);
    for task in tasks {
        push_shifts(&mut shifts, task)?;
    }
    Ok(shifts)
}

/// At most so many tasks from the front.
fn front_tasks(tasks: &[TaskRuns], most: usize) -> &[TaskRuns]
    ensures value { result.now ≡ take most tasks.now }
    ensures few { length result.now ≤ most }
{
    if tasks.len() <= most {
        tasks
    } else {
        &tasks[..most]
    }
}

/// A shift, and how many runs match under it.
#[derive(Clone, Copy)]
struct Choice {
    shift: ClockShift,
    score: usize,
}

/// The one with the greater score, or the smaller one of equals.
fn better(a: Choice, b: Choice) -> Choice
    ensures { IsBetter a b result }
{
    let of_a = u128::from(a.shift.ahead) + u128::from(b.shift.behind);
    let of_b = u128::from(b.shift.ahead) + u128::from(a.shift.behind);
    if b.score > a.score || (b.score == a.score && of_b < of_a) {
        b
    } else {
        a
    }
}

/// The better of the best so far and one shift more, which is given up early if it is worse.
fn next_best(
    within: u64,
    share: usize,
    shift: ClockShift,
    tasks: &[TaskRuns],
    best: Choice,
) -> Choice
    requires within { within < 2 ^ 61 }
    requires share { share ≤ 4096 }
    requires shift { IsSmallShift shift }
    requires few { length tasks.now ≤ 256 }
    requires tasks { All AreSoundRuns tasks.now }
    ensures { IsBetter best
        (record { shift = shift; score = sum_by (task_score within share shift) tasks.now })
        result }
{
    match score_if(within, share, shift, tasks, best.score) {
        Some(score) => better(best, Choice { shift, score }),
        None => best,
    }
}

/// The best of several shifts, at least one.
fn best_of(within: u64, share: usize, shifts: &[ClockShift], tasks: &[TaskRuns]) -> ClockShift
    requires within { within < 2 ^ 61 }
    requires share { share ≤ 4096 }
    requires some { 0 < length shifts.now }
    requires small { All IsSmallShift shifts.now }
    requires few { length tasks.now ≤ 256 }
    requires tasks { All AreSoundRuns tasks.now }
    ensures best { IsBestOf (λ s. sum_by (task_score within share s) tasks.now) shifts.now result }
    ensures small { IsSmallShift result }
{
    let mut best = Choice {
        shift: shifts[0],
        score: score_if(within, share, shifts[0], tasks, 0).unwrap_or(0),
    };
    for shift in shifts {
        best = next_best(within, share, *shift, tasks, best);
    }
    best.shift
}

/// The shift of the recording's clock: of the differences between a recorded start and the model's
/// first start of that task, for the first 50 recorded starts of each task, the one under which
/// most of the model's first runs match; the smallest of equals. [`NO_SHIFT`] if there is none.
///
/// # Errors
/// Where a growth was refused.
pub fn find_shift(alloc: Global, within: u64, tasks: &[TaskRuns]) -> Result<ClockShift, AllocError>
    requires within { within < 2 ^ 61 }
    requires tasks { All AreSoundRuns tasks.now }
    ensures shift { IfOk result (IsShift within tasks.now) }
    ensures small { IfOk result IsSmallShift }
{
    let looked_at = front_tasks(tasks, TASKS);
    let shifts = all_shifts(alloc, looked_at)?;
    if shifts.is_empty() {
        return Ok(NO_SHIFT);
    }
    let share = RUNS / looked_at.len().max(1);
    Ok(best_of(within, share, shifts.as_slice(), looked_at))
}
