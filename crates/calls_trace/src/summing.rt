//! The figures and the jobs of the sections of a calls text, whose runs are streamed while they are
//! made.

ghost use Rattle.std.specs.Prelude.{◌≡◌, ◌<◌, ◌≤◌, ◌^◌, ℕ, List, All, IfErr, IfOk, OnOk, length, map};
ghost use Rattle.calls_text.specs.SectionView.{SectionView};
ghost use Rattle.calls_text.specs.BadLine.{IsReadFault};
ghost use Rattle.calls_text.specs.Reader.{IsWithin, empty_section, bytes_left};
ghost use Rattle.counted_io.specs.Sides.{faults_of, side};
ghost use Rattle.figure_text.specs.Jobs as jobs;
ghost use Rattle.figure_text.specs.Summary as summaries;
ghost use Rattle.calls_trace.specs.Written.{IsWritten, IsUnwritten};
ghost use Rattle.calls_trace.specs.private.ReadRuns.{IsBegun};
ghost use Rattle.calls_trace.specs.private.Summed.{jobs_as, summed_as, AreSummed, IsSummedSection};

use crate::fault::TraceFault;
use crate::figures::{write_all_jobs, write_whole};
use crate::foreseen::foreseen_read;
use crate::streaming::sum_up;
use crate::summed_run::SummedRun;
use calls_text::{CallsFault, CallsReader};
use domain_run::NoMemory;
use draft::Draft;
use figure_text::{DomainJobs, DomainSummary, put_summary};
use std::alloc::Global;
use std::io::Write;
use switch_text::Counted;

/// The most sections of a text.
const MOST_SECTIONS: usize = 8;

/// The figures of the section that a reader has begun, of which it has read no call yet, and its
/// jobs, if they are wanted. Its calls are kept until they are made.
fn summed_read(
    alloc: Global,
    cpus: u32,
    limit: u64,
    jobs: bool,
    reader: &mut CallsReader<'_>,
) -> Result<SummedRun, NoMemory>
    requires begun { IsBegun cpus limit reader.old }
    ensures read { (text : List ℕ) (before : List SectionView)
        → IsWithin text before (empty_section cpus limit) reader.old
        → IfOk result (IsSummedSection text before jobs reader.new) }
    ensures never_more { bytes_left reader.new ≤ bytes_left reader.old }
{
    let foreseen = foreseen_read(alloc, cpus, limit, reader)?;
    sum_up(alloc, cpus, limit, foreseen, jobs)
}

/// The figures of the sections of a text, each on a domain of its own, and their jobs, if they are
/// wanted. The run of each is made and streamed once its calls are read, and it is not kept.
pub(crate) fn summed_of_text(
    alloc: Global,
    jobs: bool,
    text: &[u8],
) -> Result<Vec<SummedRun>, CallsFault>
    ensures runs { IfOk result (λ v. AreSummed text.now jobs v.items) }
    ensures fault { IfErr result (IsReadFault text.now) }
{
    let mut reader = CallsReader::open(text)?;
    let Ok(mut runs) = Vec::with_capacity(alloc, MOST_SECTIONS) else {
        return Err(CallsFault::Memory);
    };
    'sections: while let Some((cpus, limit)) = reader.next_domain()? {
        match summed_read(alloc, cpus, limit, jobs, &mut reader) {
            Ok(run) => runs.push_reserved(run),
            Err(NoMemory) => return Err(CallsFault::Memory),
        }
    }
    Ok(runs)
}

/// The figures of runs as they are written.
fn all_as_written(alloc: Global, runs: &[SummedRun]) -> Result<Vec<DomainSummary<'_>>, NoMemory>
    ensures views { IfOk result
        (λ v. map summaries.summary_view_of v.items ≡ map summed_as runs.now) }
    ensures short { IfOk result (λ v. All summaries.IsShortSummary v.items) }
    ensures machine { IfOk result (λ v. All summaries.IsOfMachine v.items) }
    ensures count { IfOk result (λ v. length v.items ≡ length runs.now) }
{
    let mut written = Vec::with_capacity(alloc, runs.len())?;
    for run in runs {
        written.push_reserved(run.as_summary());
    }
    Ok(written)
}

/// The text of the figures of 1 to 8 runs.
fn summed_text(alloc: Global, runs: &[SummedRun]) -> Result<Vec<u8>, NoMemory>
    requires few { length runs.now ≤ 8 }
    ensures { IfOk result (λ v. v.items ≡ summaries.summary_text (map summed_as runs.now)) }
{
    let domains = all_as_written(alloc, runs)?;
    let mut text = Draft::new(alloc);
    put_summary(&mut text, &domains);
    text.into_text()
}

/// Writes the figures of 1 to 8 runs.
pub(crate) fn write_summed<W: Write>(
    alloc: Global,
    runs: &[SummedRun],
    writer: &mut Counted<W>,
) -> Result<(), TraceFault>
    requires few { length runs.now ≤ 8 }
    requires faults { faults_of writer.old < 2 ^ 63 }
    ensures ok { OnOk result (IsWritten (side W.contents writer.old writer.new)
        (summaries.summary_text (map summed_as runs.now))) }
    ensures err { IfErr result (IsUnwritten (side W.contents writer.old writer.new)
        (summaries.summary_text (map summed_as runs.now))) }
{
    let text = summed_text(alloc, runs)?;
    write_whole(&text, writer)
}

/// The jobs of runs as they are written.
fn all_as_jobs(alloc: Global, runs: &[SummedRun]) -> Result<Vec<DomainJobs<'_>>, NoMemory>
    ensures { IfOk result (λ v. map jobs.jobs_view_of v.items ≡ map jobs_as runs.now) }
{
    let mut written = Vec::with_capacity(alloc, runs.len())?;
    for run in runs {
        written.push_reserved(run.as_jobs());
    }
    Ok(written)
}

/// Writes the jobs of runs. No memory is taken once the first byte is written.
pub(crate) fn write_summed_jobs<W: Write>(
    alloc: Global,
    runs: &[SummedRun],
    writer: &mut Counted<W>,
) -> Result<(), TraceFault>
    requires faults { faults_of writer.old < 2 ^ 63 }
    ensures ok { OnOk result (IsWritten (side W.contents writer.old writer.new)
        (jobs.jobs_text (map jobs_as runs.now))) }
    ensures err { IfErr result (IsUnwritten (side W.contents writer.old writer.new)
        (jobs.jobs_text (map jobs_as runs.now))) }
{
    let domains = all_as_jobs(alloc, runs)?;
    write_all_jobs(&domains, writer)
}
