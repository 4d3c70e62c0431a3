//! What is told of all tasks.

ghost use Rattle.std.specs.Prelude.{◌≡◌, ◌<◌, ◌≤◌, ◌^◌, ℕ, List, All, IfOk, length, slice_index_or};
ghost use Rattle.trace_compare.specs.Clocks.{IsSmallShift};
ghost use Rattle.trace_compare.specs.declared.task.TaskRuns.{TaskRuns};
ghost use Rattle.trace_compare.specs.declared.pairs.Matching.{Matching};
ghost use Rattle.trace_compare.specs.Tasks.{AreSoundRuns};
ghost use Rattle.trace_compare.specs.Matched.{IsSoundMatching};
ghost use Rattle.compare_report.specs.Findings.{IsFinding, AreFindings};
ghost use Rattle.compare_report.specs.private.Fitting.{AreFitting};

use crate::finding::{Finding, finding_of};
use crate::row::Span;
use std::alloc::{AllocError, Global};
use trace_compare::{Matching, Names, TaskRuns};

/// The name of a number.
fn name_of(names: &Names, number: usize) -> &[u8]
    requires { number < length names.now }
    ensures { (d : List ℕ) → result.now ≡ slice_index_or names.now number d }
{
    match names.get(number) {
        Some(name) => name,
        None => b"".as_slice(),
    }
}

/// What is told of the task of a number.
fn finding_at<'a>(
    alloc: Global,
    names: &'a Names,
    tasks: &[TaskRuns],
    matchings: &[Matching],
    number: usize,
    span: Span,
) -> Result<Finding<'a>, AllocError>
    requires shift { IsSmallShift span.shift }
    requires from { span.from ≤ 2 ^ 61 }
    requires until { span.until < 2 ^ 61 }
    requires there { number < length tasks.now }
    requires names { length tasks.now ≤ length names.now }
    requires matchings { AreFitting tasks.now matchings.now }
    requires tasks { All AreSoundRuns tasks.now }
    requires matched { All IsSoundMatching matchings.now }
    ensures { IfOk result (λ f. (x : List ℕ) (t : TaskRuns) (m : Matching)
        → IsFinding span.shift span.from span.until (slice_index_or names.now number x)
        (slice_index_or tasks.now number t) (slice_index_or matchings.now number m) f) }
{
    let name = name_of(names, number);
    let task = &tasks[number];
    let matching = &matchings[number];
    finding_of(alloc, name, task, matching, span)
}

/// What is told of each task.
pub(crate) fn findings_of<'a>(
    alloc: Global,
    names: &'a Names,
    tasks: &[TaskRuns],
    matchings: &[Matching],
    span: Span,
) -> Result<Vec<Finding<'a>>, AllocError>
    requires shift { IsSmallShift span.shift }
    requires from { span.from ≤ 2 ^ 61 }
    requires until { span.until < 2 ^ 61 }
    requires names { length tasks.now ≤ length names.now }
    requires matchings { AreFitting tasks.now matchings.now }
    requires tasks { All AreSoundRuns tasks.now }
    requires matched { All IsSoundMatching matchings.now }
    ensures { IfOk result (λ v. AreFindings span.shift span.from span.until names.now tasks.now
        matchings.now (length tasks.now) v.items) }
{
    let mut findings = Vec::new(alloc);
    for number in 0..tasks.len() {
        let finding = finding_at(alloc, names, tasks, matchings, number, span)?;
        findings.push(finding)?;
    }
    Ok(findings)
}
