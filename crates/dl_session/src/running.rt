//! From bytes to bytes: a scenario in, a text of its run out.

ghost use Rattle.std.specs.Prelude.{◌≡◌, ◌<◌, ◌≤◌, ◌^◌, map, IfOk, IfErr, OnOk};
ghost use Rattle.counted_io.specs.Sides.{Side, HasNoFault, faults_of, side};
ghost use Rattle.run_options.specs.declared.options.Options.{Options as OptionsView};
ghost use Rattle.run_options.specs.Options.{AreOptions};
ghost use Rattle.calls_trace.specs.Answer.{streams, NothingWritten};
ghost use Rattle.dl_session.specs.RunAnswer as answers;
ghost use Rattle.dl_session.specs.RunAnswer.{with_reclaim, IsScenario, IsRunAnswer, IsRunFault};
ghost use Rattle.dl_session.specs.private.Asked.{HaveAsked, IsRunWritten, IsRunUnwritten};
ghost use Rattle.dl_session.specs.private.Printing.{print_of_kept};
ghost use Rattle.dl_session.specs.private.Running.{IsJsonLogged, IsScenarioLogged};
ghost use Rattle.limits.specs.Limits.{max_advance};

use crate::asked::{Asked, ask_in};
use crate::fault::SessionFault;
use crate::history_text::{HistoryText, write_logged};
use crate::printing::{KeptText, Left, wanted_for, write_run};
use crate::streaming::{Streaming, write_streamed};
use deadline_promise::budgets_isolate;
use json_order::{JsonFault, JsonKind, read_lent};
use rtapp_scenario::{Scenario, ScenarioFault, TaskSpec, parse_lent};
use session::{Finished, Names, Options, Parts, Print, Report, Turnstile, end_run};
use std::alloc::Global;
use std::io::{Read, Write};
use std::marker::Brand;
use std::sync::Wait;
use std::thread::Threads;
use switch_text::{Counted, ReadFault};

/// A fault of the JSON text; want of memory is logged as such.
fn json_fault(fault: JsonFault) -> SessionFault
    ensures { IsJsonLogged fault result }
{
    match fault.kind {
        JsonKind::Memory => SessionFault::Memory,
        _ => SessionFault::Json(fault),
    }
}

/// A fault of the scenario; want of memory is logged as such.
fn scenario_fault(fault: ScenarioFault) -> SessionFault
    ensures { IsScenarioLogged fault result }
{
    match fault {
        ScenarioFault::Memory => SessionFault::Memory,
        fault => SessionFault::Scenario(fault),
    }
}

/// Reads a scenario to its end.
fn read_scenario<R: Read>(alloc: Global, reader: &mut Counted<R>) -> Result<Scenario, SessionFault>
    requires { faults_of reader.old < 2 ^ 63 }
    ensures ok { (w : Side) → IfOk result
        (IsScenario (streams (side R.remaining reader.old reader.new) w)) }
    ensures reads { OnOk result (HasNoFault (side R.remaining reader.old reader.new)) }
    ensures short { IfOk result (λ s. s.duration_us ≤ max_advance) }
    ensures err { let r : Side = side R.remaining reader.old reader.new in
        (w : Side) (o : OptionsView) → NothingWritten (streams r w) → HasNoFault w
        → IfErr result (IsRunFault (streams r w) o) }
{
    let text = match reader.read_all(alloc) {
        Ok(text) => text,
        Err(ReadFault::Failed) => return Err(SessionFault::Read),
        Err(ReadFault::Memory) => return Err(SessionFault::Memory),
    };
    let tree = match read_lent(alloc, &text) {
        Ok(tree) => tree,
        Err(fault) => return Err(json_fault(fault)),
    };
    match parse_lent(alloc, &tree) {
        Ok(scenario) => Ok(scenario),
        Err(fault) => Err(scenario_fault(fault)),
    }
}

/// Sets the flag of reclaiming on all tasks, where it is asked for (sched_setattr(2),
/// SCHED_FLAG_RECLAIM).
fn flag_all(tasks: &mut Vec<TaskSpec>, reclaim: bool)
    ensures { tasks.new.items ≡ map (with_reclaim reclaim) tasks.old.items }
{
    if !reclaim {
        return;
    }
    for task in tasks.iter_mut() {
        task.attr.flags = 2;
    }
}

/// How far each domain is advanced, in microseconds: by the whole duration, and not at all for
/// promises.
fn advance_for(print: Print, duration: u64) -> u64
    ensures advance { result ≡ answers.advance_for print duration }
    ensures most { result ≤ duration }
{
    match print {
        Print::Promises => 0,
        Print::Trace
        | Print::Calls
        | Print::Replies
        | Print::Events
        | Print::Jobs
        | Print::Summary
        | Print::Chart(_) => duration,
    }
}

/// Lets client 1 advance each domain by the whole duration, in microseconds, closes the session,
/// and writes a text of what it left: of states, of figures, of jobs, or of what was drawn.
fn write_kept<N: Names + Send + Sync, W: Write, X: Threads + Wait + Sync>(
    rt: &X,
    alloc: Global,
    kept: KeptText,
    asked: Asked<'_, N>,
    duration: u64,
    writer: &mut Counted<W>,
) -> Result<Report, SessionFault>
    requires asked { HaveAsked N.id asked.tasks.now asked.clients.items asked.refused.items }
    requires duration { duration ≤ max_advance }
    requires faults { faults_of writer.old < 2 ^ 63 }
    ensures ok { IfOk result (IsRunWritten N.id asked.entry.tasks.now duration
        (print_of_kept kept) (side W.contents writer.old writer.new)) }
    ensures err { IfErr result (IsRunUnwritten N.id asked.entry.tasks.now duration
        (print_of_kept kept) (side W.contents writer.old writer.new)) }
{
    let Asked {
        session,
        clients,
        tasks,
        refused,
    } = asked;
    let Finished {
        mut report,
        states,
        logs: _,
        streamed,
        drawn,
    } = end_run(
        rt,
        alloc,
        session,
        clients,
        duration,
        wanted_for(kept, duration),
    )?;
    report.refused = refused;
    let left = Left {
        states,
        streamed,
        drawn,
    };
    let histories = &report.histories;
    match write_run(alloc, kept, duration, tasks, histories, left, writer) {
        Ok(()) => Ok(report),
        Err(fault) => Err(SessionFault::from(fault)),
    }
}

/// Runs tasks in a session of these parts: the admissions, then the advance of each domain by the
/// whole duration, in microseconds, and the end; and writes the text that is asked for. The trace
/// and the events go out while their ticks are made, a trace's by up to `workers` threads.
fn run_in<N: Names + Send + Sync, W: Write, T: Turnstile, X: Threads + Wait + Sync>(
    rt: &X,
    alloc: Global,
    parts: Parts,
    options: &Options,
    tasks: &[TaskSpec],
    duration: u64,
    turnstile: &T,
    writer: &mut Counted<W>,
) -> Result<Report, SessionFault>
    requires parts { N.id ≡ parts }
    requires many { options.now.clients ≡ parts.clients }
    requires some { 0 < options.now.clients }
    requires workers { 0 < options.now.workers }
    requires duration { duration ≤ max_advance }
    requires faults { faults_of writer.old < 2 ^ 63 }
    ensures ok { IfOk result (IsRunWritten N.id tasks.now duration options.now.print
        (side W.contents writer.old writer.new)) }
    ensures err { IfErr result (IsRunUnwritten N.id tasks.now duration options.now.print
        (side W.contents writer.old writer.new)) }
{
    let asked = ask_in::<N, T, X>(rt, alloc, parts, options.clients, tasks, turnstile)?;
    let workers = options.workers;
    match options.print {
        Print::Trace => write_streamed(
            rt,
            alloc,
            workers,
            Streaming::Trace,
            asked,
            duration,
            writer,
        ),
        Print::Events => write_streamed(
            rt,
            alloc,
            workers,
            Streaming::Events,
            asked,
            duration,
            writer,
        ),
        Print::Calls => write_logged(alloc, HistoryText::Calls, asked, duration, writer),
        Print::Replies => write_logged(alloc, HistoryText::Replies, asked, duration, writer),
        Print::Summary => write_kept(rt, alloc, KeptText::Summary, asked, duration, writer),
        Print::Jobs => write_kept(rt, alloc, KeptText::Jobs, asked, duration, writer),
        Print::Chart(span) => write_kept(rt, alloc, KeptText::Chart(span), asked, duration, writer),
        Print::Promises => write_kept(rt, alloc, KeptText::Promises, asked, duration, writer),
    }
}

/// Reads a scenario to its end, opens a session, lets its clients admit the scenario's tasks by
/// [`admit_all`](crate::admit_all), each in a thread of its own, with the turnstile round each
/// admission. Then client 1 advances each domain by the scenario's duration as the last entry of
/// its book, the session is closed, and what is asked for is written of all domains: the trace, the
/// calls text of the histories, these with their replies, the trace with what happens, the jobs,
/// the summary, or a chart of a part of the run. A duration of 0 makes no advance. For promises
/// there is none either: the tasks are admitted, and no time passes.
///
/// `Ok`: the histories in the report are legal and answer the scenario together with the refusals,
/// and what was written is the text of their run, and nothing else. A task that is refused is no
/// fault: it stands in the report. Of promises it is the text of the answers, and a task that is
/// said to be never late is not: whatever number of ticks is made after the same admissions, `late`
/// in its figures is 0.
///
/// # Errors
/// [`SessionFault::Json`] and [`SessionFault::Scenario`] where the input is no scenario,
/// [`SessionFault::Read`] where the reader failed, [`SessionFault::Start`] where the system started
/// no thread for a client, [`SessionFault::Full`] where a history has no room for the advance,
/// [`SessionFault::Memory`] where a growth was refused: nothing was written.
/// [`SessionFault::Write`] where the writer failed: it took `written` bytes, the front of the
/// text, and not all.
pub fn run<R: Read, W: Write, T: Turnstile, X: Threads + Wait + Sync>(
    rt: &X,
    alloc: Global,
    reader: &mut Counted<R>,
    writer: &mut Counted<W>,
    options: &Options,
    turnstile: &T,
) -> Result<Report, SessionFault>
    requires reader { faults_of reader.old < 2 ^ 63 }
    requires writer { faults_of writer.old < 2 ^ 63 }
    requires options { AreOptions options.now }
    ensures ok { IfOk result (IsRunAnswer
        (streams (side R.remaining reader.old reader.new)
        (side W.contents writer.old writer.new)) options.now) }
    ensures err { IfErr result (IsRunFault
        (streams (side R.remaining reader.old reader.new)
        (side W.contents writer.old writer.new)) options.now) }
{
    let Scenario {
        duration_us,
        mut tasks,
    } = match read_scenario(alloc, reader) {
        Ok(scenario) => scenario,
        Err(fault) => return Err(fault),
    };
    flag_all(&mut tasks, options.reclaim);
    let Ok(parts) = Parts::open(alloc, options) else {
        return Err(SessionFault::Memory);
    };
    // For the prover alone: that promises are kept.
    budgets_isolate();
    run_in::<Brand, W, T, X>(
        rt,
        alloc,
        parts,
        options,
        &tasks,
        advance_for(options.print, duration_us),
        turnstile,
        writer,
    )
}
