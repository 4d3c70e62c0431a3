//! What is promised of the tasks of a run.

ghost use Rattle.std.specs.Prelude.{◌≡◌, ◌<◌, ◌^◌, map, IfOk, IfErr, OnOk};
ghost use Rattle.counted_io.specs.Sides.{faults_of, side};
ghost use Rattle.figure_text.specs.Promises.{promise_view_of};
ghost use Rattle.dl_session.specs.Promised as spec;
ghost use Rattle.dl_session.specs.private.Printing.{IsWrittenAs, IsUnwrittenAs};

use calls_trace::TraceFault;
use deadline_promise::{Demand, Promise, promise_to};
use domain_run::State;
use draft::{Draft, NoMemory};
use figure_text::{PromiseRow, put_promises};
use rtapp_scenario::TaskSpec;
use std::alloc::{AllocError, Global};
use std::io::Write;
use switch_text::{Counted, write_text};

fn lists(state: &State, number: u32) -> bool
    ensures { result ≡ spec.lists number state.now }
{
    match state.view(number) {
        None => false,
        Some(_) => true,
    }
}

/// The first domain that lists a task, and the answer for the task there.
fn answer_in(states: &[State], number: u32, demand: Demand) -> (Option<usize>, Promise)
    ensures { result ≡ spec.answer_from 0 states.now number demand }
{
    for (place, state) in states.iter().enumerate() {
        if lists(state, number) {
            return (Some(place), promise_to(state, number, demand));
        }
    }
    (None, Promise::Refused)
}

fn row_of<'a>(states: &[State], task: &'a TaskSpec) -> PromiseRow<'a>
    ensures { spec.IsRowOf states.now task.now (promise_view_of result) }
{
    let demand = Demand::of(&task.script);
    let (domain, promise) = answer_in(states, task.number, demand);
    PromiseRow {
        name: task.name.as_str(),
        number: task.number,
        domain,
        work_max: demand.work_max,
        gap_min: demand.gap_min,
        promise,
    }
}

fn rows_of<'a>(
    alloc: Global,
    states: &[State],
    tasks: &'a [TaskSpec],
) -> Result<Vec<PromiseRow<'a>>, AllocError>
    ensures { IfOk result (λ rows.
        spec.AreEach (spec.IsRowOf states.now) tasks.now (map promise_view_of rows.items)) }
{
    let mut rows = Vec::with_capacity(alloc, tasks.len())?;
    for task in tasks {
        rows.push_reserved(row_of(states, task));
    }
    Ok(rows)
}

/// The text: a row for each task, as it is promised in these states.
fn text_of(alloc: Global, states: &[State], tasks: &[TaskSpec]) -> Result<Vec<u8>, NoMemory>
    ensures { IfOk result (λ text.
        spec.AreRows (spec.IsRowOf states.now) tasks.now text.items) }
{
    let Ok(rows) = rows_of(alloc, states, tasks) else {
        return Err(NoMemory);
    };
    let mut out = Draft::new(alloc);
    put_promises(&mut out, &rows);
    out.into_text()
}

/// Writes what is promised of tasks, in these states of domains, in one piece.
///
/// # Errors
/// [`TraceFault::Memory`]: a growth was refused, and nothing was written. [`TraceFault::Write`]:
/// the writer failed; it took `written` bytes, the front of the text, and not all.
pub(crate) fn write_promises<W: Write>(
    alloc: Global,
    states: &[State],
    tasks: &[TaskSpec],
    writer: &mut Counted<W>,
) -> Result<(), TraceFault>
    requires { faults_of writer.old < 2 ^ 63 }
    ensures ok { OnOk result
        (IsWrittenAs (spec.AreRows (spec.IsRowOf states.now) tasks.now)
        (side W.contents writer.old writer.new)) }
    ensures err { IfErr result
        (IsUnwrittenAs (spec.AreRows (spec.IsRowOf states.now) tasks.now)
        (side W.contents writer.old writer.new)) }
{
    let Ok(text) = text_of(alloc, states, tasks) else {
        return Err(TraceFault::Memory);
    };
    match write_text(&text, writer) {
        Ok(()) => Ok(()),
        Err(fault) => Err(TraceFault::Write {
            written: fault.written,
        }),
    }
}
