//! The report of two texts that were read.

ghost use Rattle.std.specs.Prelude.{◌≡◌, ◌<◌, ◌≤◌, ◌^◌, All, IfOk, length};
ghost use Rattle.trace_compare.specs.Clocks.{IsSmallShift};
ghost use Rattle.trace_compare.specs.Tasks.{AreSoundRuns, HaveSmallTimes};
ghost use Rattle.trace_compare.specs.Matched.{IsSoundMatching};
ghost use Rattle.trace_compare.specs.Differences.{first_start, last_end};
ghost use Rattle.compare_report.specs.Report.{IsReport};
ghost use Rattle.compare_report.specs.private.Fitting.{AreFitting, IsReportOfRuns};
ghost use Rattle.compare_report.specs.Reading.{pair};

use crate::findings::findings_of;
use crate::options::{CompareOptions, noise_asked, shift_asked};
use crate::row::Span;
use crate::tally::{Tally, tally_in};
use crate::text::text_of;
use draft::NoMemory;
use std::alloc::Global;
use trace_compare::{
    ClockShift, Compared, Names, Step, TaskRuns, compare, first_start_of, last_end_of,
    runs_of_tasks,
};

/// A report, and the total in it.
#[derive(Drop)]
pub(crate) struct Summed {
    pub text: Vec<u8>,
    pub tally: Tally,
}

/// The model's time, under a shift.
fn span_of(shift: ClockShift, tasks: &[TaskRuns]) -> Span
    requires { All AreSoundRuns tasks.now }
    ensures shift { result.shift ≡ shift }
    ensures from { result.from ≡ first_start tasks.now }
    ensures until { result.until ≡ last_end tasks.now }
    ensures small_from { result.from ≤ 2 ^ 61 }
    ensures small_until { result.until < 2 ^ 61 }
{
    Span {
        shift,
        from: first_start_of(tasks),
        until: last_end_of(tasks),
    }
}

/// The report of runs that were compared.
fn report_of_compared(
    alloc: Global,
    cpus: bool,
    names: &Names,
    tasks: &[TaskRuns],
    compared: &Compared,
) -> Result<Summed, NoMemory>
    requires names { length tasks.now ≤ length names.now }
    requires tasks { All AreSoundRuns tasks.now }
    requires shift { IsSmallShift compared.now.shift }
    requires fitting { AreFitting tasks.now compared.now.tasks.items }
    requires matched { All IsSoundMatching compared.now.tasks.items }
    ensures { IfOk result (λ r.
        IsReportOfRuns cpus names.now tasks.now compared.now r.text.items r.tally) }
{
    let span = span_of(compared.shift, tasks);
    let findings = findings_of(alloc, names, tasks, compared.tasks.as_slice(), span)?;
    let tally = tally_in(findings.as_slice());
    let text = text_of(alloc, cpus, compared.shift, tally, findings.as_slice())?;
    Ok(Summed { text, tally })
}

/// The report of the switches of two texts, whose tasks are those of the first so many names.
pub(crate) fn report_of(
    alloc: Global,
    options: CompareOptions,
    names: &Names,
    many: usize,
    model: &[Step],
    recorded: &[Step],
) -> Result<Summed, NoMemory>
    requires many { many ≤ length names.now }
    requires model { HaveSmallTimes model.now }
    requires recorded { HaveSmallTimes recorded.now }
    ensures { IfOk result (λ r.
        IsReport options (pair names.now many model.now recorded.now) r.text.items r.tally) }
{
    let tasks = runs_of_tasks(alloc, noise_asked(options), model, recorded, many)?;
    let within = u64::from(options.within);
    let compared = compare(alloc, within, shift_asked(options), tasks.as_slice())?;
    report_of_compared(alloc, options.cpus, names, tasks.as_slice(), &compared)
}
