//! What is told of one task.

ghost use Rattle.std.specs.Prelude.{◌≡◌, ◌<◌, ◌≤◌, ◌^◌, All, IfOk, count_by, length, nat_lt};
ghost use Rattle.trace_compare.specs.Clocks.{IsSmallShift};
ghost use Rattle.trace_compare.specs.Runs.{IsShort};
ghost use Rattle.trace_compare.specs.Tasks.{AreSoundRuns};
ghost use Rattle.trace_compare.specs.Matched.{IsSoundMatching};
ghost use Rattle.compare_report.specs.Findings.{stretch_of, IsNearestOf, IsMissingAt, IsMissingOf, IsOtherAt, IsOtherOf, IsFinding};

use crate::line::{Place, Row, Stretch};
use crate::row::{Span, row_of};
use std::alloc::{AllocError, Global};
use trace_compare::{
    ClockShift, Matching, Run, TaskRuns, apart_in, missing_of, nearest_of, other_of,
};

/// A run of the model that no recorded run matches.
#[derive(Clone, Copy)]
pub struct Missing<'a> {
    /// The run, by the model's clock.
    pub place: Place<'a>,
    /// The task's nearest recorded run, by the recording's clock.
    pub nearest: Option<Stretch>,
}

/// What is told of a task.
#[derive(Clone, Copy)]
pub struct Finding<'a> {
    /// Its row.
    pub row: Row<'a>,
    /// Its first run of the model that no recorded run matches.
    pub missing: Option<Missing<'a>>,
    /// Its first recorded run inside the model's time that matches none of the model.
    pub other: Option<Place<'a>>,
    /// How many of its matched runs were on the same CPU.
    pub same_cpu: u64,
}

fn stretch(run: &Run) -> Stretch
    ensures { result ≡ stretch_of run.now }
{
    Stretch {
        start: run.start,
        end: run.end,
    }
}

/// The recorded run that is nearest to one of the model.
fn nearest_stretch(shift: ClockShift, m: &Run, recorded: &[Run]) -> Option<Stretch>
    requires shift { IsSmallShift shift }
    requires model { IsShort m.now }
    requires recorded { All IsShort recorded.now }
    ensures { IsNearestOf shift m.now recorded.now result }
{
    match nearest_of(shift, m, recorded) {
        None => None,
        Some(place) => Some(stretch(&recorded[place])),
    }
}

/// The model's run of a number, and the recorded run that is nearest.
fn missing_at<'a>(shift: ClockShift, name: &'a [u8], task: &TaskRuns, number: usize) -> Missing<'a>
    requires shift { IsSmallShift shift }
    requires task { AreSoundRuns task.now }
    requires among { number < length task.now.model.items }
    ensures { IsMissingAt shift name.now task.now number result }
{
    let run = &task.model[number];
    Missing {
        place: Place {
            name,
            number: number as u64,
            run: stretch(run),
        },
        nearest: nearest_stretch(shift, run, task.recorded.as_slice()),
    }
}

/// The task's first run of the model that no recorded run matches.
fn missing_in<'a>(
    shift: ClockShift,
    name: &'a [u8],
    task: &TaskRuns,
    matching: &Matching,
) -> Option<Missing<'a>>
    requires shift { IsSmallShift shift }
    requires task { AreSoundRuns task.now }
    requires as_many { length matching.now.partners.items ≡ length task.now.model.items }
    ensures { IsMissingOf shift name.now task.now matching.now result }
{
    match missing_of(matching.partners.as_slice()) {
        None => None,
        Some(number) => Some(missing_at(shift, name, task, number)),
    }
}

/// How many runs begin before a time.
fn begun_before(time: u64, runs: &[Run]) -> usize
    ensures { result ≡ count_by (λ q. nat_lt q.start time) runs.now }
{
    runs.iter().filter(|q| q.start < time).count()
}

/// A recorded run of a task.
fn other_at<'a>(name: &'a [u8], task: &TaskRuns, run: &Run) -> Place<'a>
    ensures { IsOtherAt name.now task.now run.now result }
{
    Place {
        name,
        number: begun_before(run.start, task.recorded.as_slice()) as u64,
        run: stretch(run),
    }
}

/// The task's first recorded run inside the model's time that matches none of the model.
fn other_in<'a>(
    span: Span,
    name: &'a [u8],
    task: &TaskRuns,
    matching: &Matching,
) -> Option<Place<'a>>
    requires shift { IsSmallShift span.shift }
    requires from { span.from ≤ 2 ^ 61 }
    requires until { span.until < 2 ^ 61 }
    requires matching { IsSoundMatching matching.now }
    ensures { IsOtherOf span.shift span.from span.until name.now task.now matching.now result }
{
    match other_of(span.from, span.until, span.shift, matching.left.as_slice()) {
        None => None,
        Some(run) => Some(other_at(name, task, &run)),
    }
}

/// What is told of a task.
pub(crate) fn finding_of<'a>(
    alloc: Global,
    name: &'a [u8],
    task: &TaskRuns,
    matching: &Matching,
    span: Span,
) -> Result<Finding<'a>, AllocError>
    requires shift { IsSmallShift span.shift }
    requires from { span.from ≤ 2 ^ 61 }
    requires until { span.until < 2 ^ 61 }
    requires task { AreSoundRuns task.now }
    requires matching { IsSoundMatching matching.now }
    requires as_many { length matching.now.partners.items ≡ length task.now.model.items }
    ensures { IfOk result (IsFinding span.shift span.from span.until name.now task.now
        matching.now) }
{
    let apart = apart_in(alloc, span.shift, task, matching)?;
    let same_cpu = apart.same_cpu as u64;
    let row = row_of(alloc, name, task, matching, apart, span)?;
    Ok(Finding {
        row,
        missing: missing_in(span.shift, name, task, matching),
        other: other_in(span, name, task, matching),
        same_cpu,
    })
}
