//! The summary of histories whose runs were streamed while they were made.

ghost use Rattle.std.specs.Prelude.{◌≡◌, ◌<◌, ◌≤◌, ◌^◌, IfErr, IfOk, OnOk, length, map};
ghost use Rattle.domain_run.specs.Passing.{without_switches};
ghost use Rattle.counted_io.specs.Sides.{faults_of, side};
ghost use Rattle.calls_text.specs.Histories.{IsLegal};
ghost use Rattle.calls_text.specs.Histories.{AreLegal};
ghost use Rattle.switch_text.specs.Names.{name_of_task};
ghost use Rattle.run_figures.specs.Runs as counted;
ghost use Rattle.calls_trace.specs.DomainEvents.{admitted_with_params, domain_of, names_in, params_in, summary_view, summary_of_sections};
ghost use Rattle.calls_trace.specs.Streamed.{AreAccountings, AreRunsButSwitches, section_streamed};
ghost use Rattle.calls_trace.specs.Written.{IsWritten, IsUnwritten};
ghost use Rattle.calls_trace.specs.private.Counting.{counted_as};

use crate::counted_run::CountedRun;
use crate::fault::TraceFault;
use crate::figures::{figures_text, tasks_of, write_whole};
use crate::named_run::{names_of, params_of};
use calls_text::Section;
use domain_run::{NoMemory, State};
use indexmap::IndexMap;
use run_figures::{Accounting, Admitted};
use std::alloc::Global;
use std::io::Write;
use switch_text::Counted;

/// The names of each history.
fn all_names(alloc: Global, histories: &[Section]) -> Result<Vec<IndexMap<u32, String>>, NoMemory>
    requires { AreLegal histories.now }
    ensures { IfOk result (λ v. map name_of_task v.items ≡ map names_in histories.now) }
{
    let mut all = Vec::with_capacity(alloc, histories.len())?;
    for history in histories {
        all.push_reserved(names_of(alloc, history)?);
    }
    Ok(all)
}

/// The tasks of the run of a history, with the parameters that its replies tell.
pub(crate) fn tasks_streamed(
    alloc: Global,
    history: &Section,
    state: &State,
) -> Result<Vec<Admitted>, NoMemory>
    requires { IsLegal history.now.cpus history.now.limit history.now.entries }
    ensures tasks { IfOk result (λ v. v.items
        ≡ map (admitted_with_params (params_in history.now)) state.now.used) }
    ensures apart { IfOk result (λ v. counted.AreTasks v.items) }
{
    let given = params_of(alloc, history)?;
    tasks_of(alloc, state, &given)
}

/// The figures of the run of a history, which was streamed.
fn count_streamed<'a>(
    alloc: Global,
    names: &'a IndexMap<u32, String>,
    history: &Section,
    state: &State,
    streamed: &Accounting,
) -> Result<CountedRun<'a>, NoMemory>
    requires legal { IsLegal history.now.cpus history.now.limit history.now.entries }
    requires names { name_of_task names.now ≡ names_in history.now }
    requires state { without_switches state.now ≡ without_switches (domain_of history.now) }
    requires streamed { streamed.now ≡ section_streamed history.now }
    ensures { IfOk result (λ c. counted_as c ≡ summary_view history.now) }
{
    let tasks = tasks_streamed(alloc, history, state)?;
    let summary = streamed.summary(alloc, &tasks)?;
    Ok(CountedRun::of(names, state, summary))
}

/// The figures of the run of each history.
fn all_streamed<'a>(
    alloc: Global,
    names: &'a [IndexMap<u32, String>],
    histories: &[Section],
    states: &[State],
    streamed: &[Accounting],
) -> Result<Vec<CountedRun<'a>>, NoMemory>
    requires legal { AreLegal histories.now }
    requires names { map name_of_task names.now ≡ map names_in histories.now }
    requires count { length states.now ≡ length histories.now }
    requires as_many { length streamed.now ≡ length histories.now }
    requires runs { AreRunsButSwitches histories.now states.now }
    requires streamed { AreAccountings histories.now streamed.now }
    ensures { IfOk result (λ v. map counted_as v.items ≡ map summary_view histories.now) }
{
    let mut all = Vec::with_capacity(alloc, histories.len())?;
    for (place, history) in histories.iter().enumerate() {
        let one = count_streamed(
            alloc,
            &names[place],
            history,
            &states[place],
            &streamed[place],
        )?;
        all.push_reserved(one);
    }
    Ok(all)
}

/// The text of the figures of histories.
fn streamed_text(
    alloc: Global,
    histories: &[Section],
    states: &[State],
    streamed: &[Accounting],
) -> Result<Vec<u8>, NoMemory>
    requires few { length histories.now ≤ 8 }
    requires legal { AreLegal histories.now }
    requires count { length states.now ≡ length histories.now }
    requires as_many { length streamed.now ≡ length histories.now }
    requires runs { AreRunsButSwitches histories.now states.now }
    requires streamed { AreAccountings histories.now streamed.now }
    ensures { IfOk result (λ v. v.items ≡ summary_of_sections histories.now) }
{
    let names = all_names(alloc, histories)?;
    let counted = all_streamed(alloc, &names, histories, states, streamed)?;
    figures_text(alloc, &counted)
}

/// Writes the figures of each task, of each CPU and of each domain of 1 to 8 histories: the text
/// that [`replay_as`](crate::replay_as) writes of their calls text for
/// [`ReplayPrint::Summary`](crate::ReplayPrint::Summary). The accountings have streamed all that
/// happened in the runs of the histories, and all their switches; the states are those that the
/// histories led to. Nobody looks at the switches that a state still has, so it may have forgotten
/// them. Nothing is run again.
///
/// # Errors
/// [`TraceFault::Memory`]: a growth was refused, and nothing was written. [`TraceFault::Write`]:
/// the writer failed; it took exactly so many bytes, the front of the text, and not all.
pub fn write_streamed_summary<W: Write>(
    alloc: Global,
    histories: &[Section],
    states: &[State],
    streamed: &[Accounting],
    writer: &mut Counted<W>,
) -> Result<(), TraceFault>
    requires few { length histories.now ≤ 8 }
    requires count { length states.now ≡ length histories.now }
    requires as_many { length streamed.now ≡ length histories.now }
    requires legal { AreLegal histories.now }
    requires runs { AreRunsButSwitches histories.now states.now }
    requires streamed { AreAccountings histories.now streamed.now }
    requires faults { faults_of writer.old < 2 ^ 63 }
    ensures ok { OnOk result (IsWritten (side W.contents writer.old writer.new)
        (summary_of_sections histories.now)) }
    ensures err { IfErr result (IsUnwritten (side W.contents writer.old writer.new)
        (summary_of_sections histories.now)) }
{
    let text = streamed_text(alloc, histories, states, streamed)?;
    write_whole(&text, writer)
}
