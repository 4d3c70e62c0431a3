//! All tasks of the model beside their recorded runs.

ghost use Rattle.std.specs.Prelude.{◌<◌, ◌^◌, length, All, IfOk, IfSome};
ghost use Rattle.trace_compare.specs.Clocks.{IsSmallShift};
ghost use Rattle.trace_compare.specs.Tasks.{AreSoundRuns};
ghost use Rattle.trace_compare.specs.Matched.{IsSoundMatching};
ghost use Rattle.trace_compare.specs.Compared.{AreMatched, IsCompared};

use crate::clock::ClockShift;
use crate::pairs::{Matching, match_runs};
use crate::shift::find_shift;
use crate::task::TaskRuns;
use std::alloc::{AllocError, Global};

/// The runs of all tasks, matched.
#[derive(Drop)]
pub struct Compared {
    /// How far the recording's clock is ahead.
    pub shift: ClockShift,
    /// Of each task which runs match.
    pub tasks: Vec<Matching>,
}

/// Matches the runs of each task.
fn match_all(
    alloc: Global,
    within: u64,
    shift: ClockShift,
    tasks: &[TaskRuns],
) -> Result<Vec<Matching>, AllocError>
    requires within { within < 2 ^ 61 }
    requires shift { IsSmallShift shift }
    requires tasks { All AreSoundRuns tasks.now }
    ensures matched { IfOk result (λ v. AreMatched within shift tasks.now
        (length tasks.now) v.items) }
    ensures sound { IfOk result (λ v. All IsSoundMatching v.items) }
{
    let mut matchings = Vec::new(alloc);
    for j in 0..tasks.len() {
        let task = &tasks[j];
        let matching = match_runs(
            alloc,
            within,
            shift,
            task.model.as_slice(),
            task.recorded.as_slice(),
        )?;
        matchings.push(matching)?;
    }
    Ok(matchings)
}

/// Matches the runs of all tasks, under the shift that was asked for, or else under the one under
/// which most of them match ([`find_shift`]). Two runs match where their starts and their ends are
/// each within so many microseconds of one another; in order of time each run of the model takes
/// the first recorded one of its task behind those that were taken.
///
/// # Errors
/// Where a growth was refused.
pub fn compare(
    alloc: Global,
    within: u64,
    asked: Option<ClockShift>,
    tasks: &[TaskRuns],
) -> Result<Compared, AllocError>
    requires within { within < 2 ^ 61 }
    requires asked { IfSome asked IsSmallShift }
    requires tasks { All AreSoundRuns tasks.now }
    ensures compared { IfOk result (IsCompared within asked tasks.now) }
    ensures sound { IfOk result (λ c. All IsSoundMatching c.tasks.items) }
    ensures small { IfOk result (λ c. IsSmallShift c.shift) }
{
    let shift = match asked {
        Some(shift) => shift,
        None => find_shift(alloc, within, tasks)?,
    };
    let matchings = match_all(alloc, within, shift, tasks)?;
    Ok(Compared {
        shift,
        tasks: matchings,
    })
}
