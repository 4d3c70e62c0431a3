//! A run of which the histories are written: client 1's advance is entered and made, and its
//! switches are not kept.

ghost use Rattle.std.specs.Prelude.{◌≡◌, ◌<◌, ◌≤◌, ◌^◌, IfOk, IfErr, OnOk};
ghost use Rattle.calls_text.specs.Histories.{AreLegal};
ghost use Rattle.counted_io.specs.Sides.{faults_of, side};
ghost use Rattle.dl_session.specs.private.Asked.{HaveAsked, IsRunWritten, IsRunUnwritten};
ghost use Rattle.dl_session.specs.private.HistoryText.{logged_text, print_of};
ghost use Rattle.calls_trace.specs.Written.{IsWritten, IsUnwritten};
ghost use Rattle.limits.specs.Limits.{max_advance};

use crate::asked::Asked;
use crate::fault::SessionFault;
use call_book::{NoMemory, Section, write_calls};
use calls_trace::TraceFault;
use reply_text::write_recorded;
use session::{Names, Report, RunBegun, begin_end, finish_end};
use std::alloc::Global;
use std::io::Write;
use switch_text::{Counted, write_text};

/// What is written of histories alone.
#[derive(Clone, Copy)]
pub(crate) enum HistoryText {
    /// Their calls text.
    Calls,
    /// Their calls with the replies.
    Replies,
}

/// The text of histories.
fn text_of(
    alloc: Global,
    history_text: HistoryText,
    histories: &[Section],
) -> Result<Vec<u8>, NoMemory>
    requires { AreLegal histories.now }
    ensures { IfOk result (λ v. v.items ≡ logged_text history_text histories.now) }
{
    match history_text {
        HistoryText::Calls => write_calls(alloc, histories),
        HistoryText::Replies => write_recorded(alloc, histories),
    }
}

/// Writes the text of histories, in one piece.
fn write_histories<W: Write>(
    alloc: Global,
    history_text: HistoryText,
    histories: &[Section],
    writer: &mut Counted<W>,
) -> Result<(), TraceFault>
    requires legal { AreLegal histories.now }
    requires faults { faults_of writer.old < 2 ^ 63 }
    ensures ok { OnOk result (IsWritten (side W.contents writer.old writer.new)
        (logged_text history_text histories.now)) }
    ensures err { IfErr result (IsUnwritten (side W.contents writer.old writer.new)
        (logged_text history_text histories.now)) }
{
    let Ok(text) = text_of(alloc, history_text, histories) else {
        return Err(TraceFault::Memory);
    };
    match write_text(&text, writer) {
        Ok(()) => Ok(()),
        Err(fault) => Err(TraceFault::Write {
            written: fault.written,
        }),
    }
}

/// Lets client 1 enter an advance of the whole duration, in microseconds, as the last entry of each
/// book, makes its ticks without keeping a switch, closes the session, and writes the histories.
pub(crate) fn write_logged<N: Names, W: Write>(
    alloc: Global,
    history_text: HistoryText,
    asked: Asked<'_, N>,
    duration: u64,
    writer: &mut Counted<W>,
) -> Result<Report, SessionFault>
    requires asked { HaveAsked N.id asked.tasks.now asked.clients.items asked.refused.items }
    requires duration { duration ≤ max_advance }
    requires faults { faults_of writer.old < 2 ^ 63 }
    ensures ok { IfOk result (IsRunWritten N.id asked.entry.tasks.now duration
        (print_of history_text)
        (side W.contents writer.old writer.new)) }
    ensures err { IfErr result (IsRunUnwritten N.id asked.entry.tasks.now duration
        (print_of history_text) (side W.contents writer.old writer.new)) }
{
    let Asked {
        session,
        clients,
        tasks: _,
        refused,
    } = asked;
    let RunBegun { books, rest } = begin_end(alloc, session, clients, duration, false)?;
    let mut report = finish_end(alloc, books, rest);
    report.refused = refused;
    match write_histories(alloc, history_text, &report.histories, writer) {
        Ok(()) => Ok(report),
        Err(fault) => Err(SessionFault::from(fault)),
    }
}
