//! The jobs and the figures of the runs of a machine's domains, as texts.

ghost use Rattle.std.specs.Prelude.{◌≡◌, ◌<◌, ◌≤◌, ◌^◌, All, IfOk, IfErr, OnOk, length, map};
ghost use Rattle.counted_io.specs.Sides.{faults_of, side};
ghost use Rattle.run_figures.specs.Runs as counted;
ghost use Rattle.figure_text.specs.Jobs as jobs;
ghost use Rattle.figure_text.specs.Summary as summaries;
ghost use Rattle.calls_trace.specs.DomainEvents.{admitted_with_params};
ghost use Rattle.calls_trace.specs.Written.{IsWritten, IsUnwritten};
ghost use Rattle.calls_trace.specs.private.Replaying.{given_in};
ghost use Rattle.calls_trace.specs.private.Counting.{counted_as};

use crate::counted_run::CountedRun;
use crate::fault::TraceFault;
use attr_check::Params;
use domain_run::{NoMemory, State};
use draft::Draft;
use figure_text::{DomainJobs, DomainSummary, is_countable, put_summary, write_jobs};
use indexmap::IndexMap;
use run_figures::Admitted;
use std::alloc::Global;
use std::io::Write;
use switch_text::{Counted, write_text};

/// A task that was admitted, with the parameters that are known of it.
fn admitted_as(given: &IndexMap<u32, Params>, number: u32) -> Admitted
    ensures { result ≡ admitted_with_params (given_in given.now) number }
{
    match given.get(&number) {
        Some(params) => Admitted {
            number,
            runtime: params.runtime,
            period: params.period,
        },
        None => Admitted {
            number,
            runtime: 0,
            period: 0,
        },
    }
}

/// The tasks that were admitted in a run, by number.
pub(crate) fn tasks_of(
    alloc: Global,
    state: &State,
    given: &IndexMap<u32, Params>,
) -> Result<Vec<Admitted>, NoMemory>
    ensures tasks { IfOk result (λ v. v.items
        ≡ map (admitted_with_params (given_in given.now)) state.now.used) }
    ensures apart { IfOk result (λ v. counted.AreTasks v.items) }
{
    let numbers = state.numbers(alloc)?;
    let mut tasks = Vec::with_capacity(alloc, numbers.len())?;
    for number in &numbers {
        tasks.push_reserved(admitted_as(given, *number));
    }
    Ok(tasks)
}

// ---- jobs

/// Writes jobs. Takes no memory. A text of 2^64 bytes or more is refused as if for want of memory.
pub(crate) fn write_all_jobs<W: Write>(
    domains: &[DomainJobs<'_>],
    writer: &mut Counted<W>,
) -> Result<(), TraceFault>
    requires faults { faults_of writer.old < 2 ^ 63 }
    ensures ok { OnOk result (IsWritten (side W.contents writer.old writer.new)
        (jobs.jobs_text (map jobs.jobs_view_of domains.now))) }
    ensures err { IfErr result (IsUnwritten (side W.contents writer.old writer.new)
        (jobs.jobs_text (map jobs.jobs_view_of domains.now))) }
{
    if !is_countable(domains) {
        return Err(TraceFault::Memory);
    }
    match write_jobs(domains, writer) {
        Ok(()) => Ok(()),
        Err(fault) => Err(TraceFault::Write {
            written: fault.written,
        }),
    }
}

// ---- the summary

/// The figures of runs as they are written.
fn all_as_summaries<'a>(
    alloc: Global,
    counted: &'a [CountedRun<'_>],
) -> Result<Vec<DomainSummary<'a>>, NoMemory>
    ensures views { IfOk result
        (λ v. map summaries.summary_view_of v.items ≡ map counted_as counted.now) }
    ensures short { IfOk result (λ v. All summaries.IsShortSummary v.items) }
    ensures machine { IfOk result (λ v. All summaries.IsOfMachine v.items) }
    ensures count { IfOk result (λ v. length v.items ≡ length counted.now) }
{
    let mut written = Vec::with_capacity(alloc, counted.len())?;
    for one in counted {
        written.push_reserved(one.as_summary());
    }
    Ok(written)
}

/// The text of figures.
pub(crate) fn figures_text(alloc: Global, counted: &[CountedRun<'_>]) -> Result<Vec<u8>, NoMemory>
    requires few { length counted.now ≤ 8 }
    ensures { IfOk result (λ v. v.items ≡ summaries.summary_text (map counted_as counted.now)) }
{
    let domains = all_as_summaries(alloc, counted)?;
    let mut text = Draft::new(alloc);
    put_summary(&mut text, &domains);
    text.into_text()
}

// ---- written

/// Writes a text in one piece.
pub(crate) fn write_whole<W: Write>(text: &[u8], writer: &mut Counted<W>) -> Result<(), TraceFault>
    requires faults { faults_of writer.old < 2 ^ 63 }
    ensures ok { OnOk result (IsWritten (side W.contents writer.old writer.new) text.now) }
    ensures err { IfErr result (IsUnwritten (side W.contents writer.old writer.new) text.now) }
{
    match write_text(text, writer) {
        Ok(()) => Ok(()),
        Err(fault) => Err(TraceFault::Write {
            written: fault.written,
        }),
    }
}
