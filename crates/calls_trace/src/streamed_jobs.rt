//! The jobs of histories whose runs were streamed while they were made.

ghost use Rattle.std.specs.Prelude.{◌≡◌, ◌<◌, ◌^◌, IfErr, IfOk, OnOk, length, map};
ghost use Rattle.domain_run.specs.Passing.{without_switches};
ghost use Rattle.counted_io.specs.Sides.{faults_of, side};
ghost use Rattle.calls_text.specs.Histories.{AreLegal, IsLegal};
ghost use Rattle.figure_text.specs.Jobs.{jobs_view_of};
ghost use Rattle.calls_trace.specs.DomainEvents.{domain_of, jobs_of_sections, jobs_view};
ghost use Rattle.calls_trace.specs.Streamed.{AreAccountings, AreRunsButSwitches, section_streamed};
ghost use Rattle.calls_trace.specs.Written.{IsWritten, IsUnwritten};
ghost use Rattle.calls_trace.specs.private.Summed.{named_as};

use crate::fault::TraceFault;
use crate::figures::write_all_jobs;
use crate::named_run::names_of;
use crate::streamed_summary::tasks_streamed;
use calls_text::Section;
use domain_run::{NoMemory, State};
use figure_text::DomainJobs;
use indexmap::IndexMap;
use run_figures::{Accounting, KeptJobs};
use std::alloc::Global;
use std::io::Write;
use switch_text::Counted;

/// The jobs of a run, and the names of its tasks.
#[derive(Drop)]
struct NamedJobs {
    names: IndexMap<u32, String>,
    jobs: Vec<KeptJobs>,
}

/// The jobs of the run of a history, which was streamed. The accounting does not have them then.
fn jobs_streamed(
    alloc: Global,
    history: &Section,
    state: &State,
    streamed: &mut Accounting,
) -> Result<NamedJobs, NoMemory>
    requires legal { IsLegal history.now.cpus history.now.limit history.now.entries }
    requires state { without_switches state.now ≡ without_switches (domain_of history.now) }
    requires streamed { streamed.old ≡ section_streamed history.now }
    ensures jobs { IfOk result (λ j. named_as j ≡ jobs_view history.now) }
    ensures same { streamed.new ≡ streamed.old }
{
    let tasks = tasks_streamed(alloc, history, state)?;
    let names = names_of(alloc, history)?;
    let jobs = match streamed.take_jobs(alloc, &tasks) {
        Ok(jobs) => jobs,
        Err(error) => {
            drop(names);
            return Err(error);
        }
    };
    Ok(NamedJobs { names, jobs })
}

/// The jobs of the run of each history.
fn all_jobs_streamed(
    alloc: Global,
    histories: &[Section],
    states: &[State],
    streamed: &mut [Accounting],
) -> Result<Vec<NamedJobs>, NoMemory>
    requires legal { AreLegal histories.now }
    requires count { length states.now ≡ length histories.now }
    requires as_many { length streamed.old ≡ length histories.now }
    requires runs { AreRunsButSwitches histories.now states.now }
    requires streamed { AreAccountings histories.now streamed.old }
    ensures { IfOk result (λ v. map named_as v.items ≡ map jobs_view histories.now) }
{
    let mut all = Vec::with_capacity(alloc, histories.len())?;
    for (place, history) in histories.iter().enumerate() {
        let one = jobs_streamed(alloc, history, &states[place], &mut streamed[place])?;
        all.push_reserved(one);
    }
    Ok(all)
}

fn as_jobs(named: &NamedJobs) -> DomainJobs<'_>
    ensures { jobs_view_of result ≡ named_as named.now }
{
    DomainJobs {
        names: &named.names,
        tasks: &named.jobs,
    }
}

/// The jobs of runs as they are written.
fn all_as_written(alloc: Global, named: &[NamedJobs]) -> Result<Vec<DomainJobs<'_>>, NoMemory>
    ensures { IfOk result (λ v. map jobs_view_of v.items ≡ map named_as named.now) }
{
    let mut written = Vec::with_capacity(alloc, named.len())?;
    for one in named {
        written.push_reserved(as_jobs(one));
    }
    Ok(written)
}

/// Writes the jobs of the tasks of 1 to 8 histories: the text that
/// [`replay_as`](crate::replay_as) writes of their calls text for
/// [`ReplayPrint::Jobs`](crate::ReplayPrint::Jobs). The accountings have streamed all that happened
/// in the runs of the histories, and all their switches, and have kept the jobs; they do not have
/// them any more after the call. The states are those that the histories led to. Their switches are
/// not used, so a state may have forgotten them. Nothing is run again, and no memory is taken once
/// the first byte is written.
///
/// # Errors
/// [`TraceFault::Memory`]: a growth was refused, now or while a run was streamed, or an accounting
/// has no jobs, and nothing was written. [`TraceFault::Write`]: the writer failed; it took
/// `written` bytes, the front of the text, and not all.
pub fn write_streamed_jobs<W: Write>(
    alloc: Global,
    histories: &[Section],
    states: &[State],
    streamed: &mut [Accounting],
    writer: &mut Counted<W>,
) -> Result<(), TraceFault>
    requires count { length states.now ≡ length histories.now }
    requires as_many { length streamed.old ≡ length histories.now }
    requires legal { AreLegal histories.now }
    requires runs { AreRunsButSwitches histories.now states.now }
    requires streamed { AreAccountings histories.now streamed.old }
    requires faults { faults_of writer.old < 2 ^ 63 }
    ensures ok { OnOk result (IsWritten (side W.contents writer.old writer.new)
        (jobs_of_sections histories.now)) }
    ensures err { IfErr result (IsUnwritten (side W.contents writer.old writer.new)
        (jobs_of_sections histories.now)) }
{
    let named = all_jobs_streamed(alloc, histories, states, streamed)?;
    let domains = all_as_written(alloc, &named)?;
    write_all_jobs(&domains, writer)
}
