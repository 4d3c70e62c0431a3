//! The row of a task.

ghost use Rattle.std.specs.Prelude.{◌≡◌, ◌<◌, ◌≤◌, ◌^◌, All, IfOk, filter, map};
ghost use Rattle.trace_compare.specs.Clocks.{IsSmallShift};
ghost use Rattle.trace_compare.specs.Runs.{IsShort};
ghost use Rattle.trace_compare.specs.Tasks.{AreSoundRuns};
ghost use Rattle.trace_compare.specs.Matched.{IsSoundMatching};
ghost use Rattle.trace_compare.specs.Differences.{pairs_of, start_apart, end_apart, is_inside};
ghost use Rattle.compare_report.specs.Rows.{IsRow, IsSpreadOf};

use crate::line::{Row, Spread};
use crate::quantiles::spread;
use std::alloc::{AllocError, Global};
use trace_compare::{
    Apart, ClockShift, Matching, Run, TaskRuns, cpu_time_of, lies_inside, matched_of, others_of,
    taken_time_of,
};

/// The model's time, and where it lies in the recording.
#[derive(Clone, Copy)]
pub(crate) struct Span {
    /// How far the recording's clock is ahead.
    pub shift: ClockShift,
    /// When the model's first run begins, in microseconds of the model's clock.
    pub from: u64,
    /// When its last one ends.
    pub until: u64,
}

/// The recorded runs that nothing takes, inside the model's time.
fn inside_of(alloc: Global, span: Span, left: &[Run]) -> Result<Vec<Run>, AllocError>
    requires shift { IsSmallShift span.shift }
    requires from { span.from ≤ 2 ^ 61 }
    requires until { span.until < 2 ^ 61 }
    requires left { All IsShort left.now }
    ensures { IfOk result (λ v. v.items
        ≡ filter (is_inside span.from span.until span.shift) left.now) }
{
    let mut runs = Vec::new(alloc);
    for run in left {
        if lies_inside(span.from, span.until, span.shift, run) {
            runs.push(*run)?;
        }
    }
    Ok(runs)
}

fn spread_of(distances: &mut Vec<u64>) -> Option<Spread>
    ensures { IsSpreadOf distances.old.items result }
{
    spread(distances.as_mut_slice())
}

/// The row of a task, whose matched runs are so far apart.
pub(crate) fn row_of<'a>(
    alloc: Global,
    name: &'a [u8],
    task: &TaskRuns,
    matching: &Matching,
    mut apart: Apart,
    span: Span,
) -> Result<Row<'a>, AllocError>
    requires shift { IsSmallShift span.shift }
    requires from { span.from ≤ 2 ^ 61 }
    requires until { span.until < 2 ^ 61 }
    requires task { AreSoundRuns task.now }
    requires matching { IsSoundMatching matching.now }
    requires starts { apart.starts.items
        ≡ map (start_apart span.shift) (pairs_of task.now.model.items matching.now.partners.items) }
    requires ends { apart.ends.items
        ≡ map (end_apart span.shift) (pairs_of task.now.model.items matching.now.partners.items) }
    ensures { IfOk result (IsRow span.shift span.from span.until name.now task.now matching.now) }
{
    let others = inside_of(alloc, span, &matching.left)?;
    let matched = matched_of(&matching.partners);
    let left = others_of(span.from, span.until, span.shift, &matching.left);
    let taken = u128::from(taken_time_of(&matching.partners));
    Ok(Row {
        name,
        runs: task.model.len() as u64,
        recorded: matched as u128 + left as u128,
        matched: matched as u64,
        starts: spread_of(&mut apart.starts),
        ends: spread_of(&mut apart.ends),
        cpu: u128::from(cpu_time_of(&task.model)),
        recorded_cpu: taken + u128::from(cpu_time_of(&others)),
    })
}
