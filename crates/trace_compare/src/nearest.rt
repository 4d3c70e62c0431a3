//! The nearest recorded run, and the model's time.

ghost use Rattle.std.specs.Prelude.{◌≡◌, ◌<◌, ◌≤◌, ◌^◌, length, fold, min, max, All, IfSome, IfNone};
ghost use Rattle.trace_compare.specs.Clocks.{IsSmallShift};
ghost use Rattle.trace_compare.specs.Runs.{IsShort};
ghost use Rattle.trace_compare.specs.Tasks.{AreSoundRuns};
ghost use Rattle.trace_compare.specs.Differences.{far_from, IsNearest, first_start, last_end};

use crate::clock::{ClockShift, TIME_LIMIT};
use crate::run::Run;
use crate::task::TaskRuns;

/// How far a recorded run is from one of the model.
fn far(shift: ClockShift, m: &Run, r: &Run) -> u64
    requires shift { IsSmallShift shift }
    requires model { IsShort m.now }
    requires recorded { IsShort r.now }
    ensures { result ≡ far_from shift m.now r.now }
{
    let starts = (m.start + shift.ahead).abs_diff(r.start + shift.behind);
    let ends = (m.end + shift.ahead).abs_diff(r.end + shift.behind);
    starts + ends
}

/// The place of the recorded run that is nearest to one of the model, by its start and its end
/// together; the first of equals.
pub fn nearest_of(shift: ClockShift, m: &Run, recorded: &[Run]) -> Option<usize>
    requires shift { IsSmallShift shift }
    requires model { IsShort m.now }
    requires recorded { All IsShort recorded.now }
    ensures found { IfSome result (IsNearest shift m.now recorded.now) }
    ensures none { IfNone result (length recorded.now ≡ 0) }
{
    if recorded.is_empty() {
        return None;
    }
    let mut nearest = 0;
    for i in 1..recorded.len() {
        if far(shift, m, &recorded[i]) < far(shift, m, &recorded[nearest]) {
            nearest = i;
        }
    }
    Some(nearest)
}

/// The earliest start among a time and some runs.
fn earliest_of(mut time: u64, runs: &[Run]) -> u64
    ensures { result ≡ fold (λ at r. min at r.start) time runs.now }
{
    for run in runs {
        time = time.min(run.start);
    }
    time
}

/// The latest end among a time and some runs.
fn latest_of(mut time: u64, runs: &[Run]) -> u64
    ensures { result ≡ fold (λ at r. max at r.«end») time runs.now }
{
    for run in runs {
        time = time.max(run.end);
    }
    time
}

/// When the model's first run begins, in microseconds; [`TIME_LIMIT`] if it has none.
pub fn first_start_of(tasks: &[TaskRuns]) -> u64
    ensures time { result ≡ first_start tasks.now }
    ensures small { result ≤ 2 ^ 61 }
{
    let mut time = TIME_LIMIT;
    for task in tasks {
        time = earliest_of(time, task.model.as_slice());
    }
    time
}

/// When the model's last run ends, in microseconds; 0 where it has none.
pub fn last_end_of(tasks: &[TaskRuns]) -> u64
    ensures time { result ≡ last_end tasks.now }
    ensures small { All AreSoundRuns tasks.now → result < 2 ^ 61 }
{
    let mut time = 0;
    for task in tasks {
        time = latest_of(time, task.model.as_slice());
    }
    time
}
