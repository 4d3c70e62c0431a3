//! From bytes to bytes: recorded calls in, a text of their run out.

ghost use Rattle.std.specs.Prelude.{◌<◌, ◌^◌, OnOk, IfErr};
ghost use Rattle.counted_io.specs.Sides.{faults_of, side};
ghost use Rattle.calls_trace.specs.Answer.{streams, IsAnswered, IsAnsweredBy, replayed_text};
ghost use Rattle.dl_session.specs.Answer.{IsSessionFaultBy, IsSessionFault};

use crate::fault::SessionFault;
use calls_trace::ReplayPrint;
use std::alloc::Global;
use std::io::{Read, Write};
use switch_text::Counted;

/// Reads a calls text to its end, runs the calls of each of its 1 to 8 sections on a domain of its
/// own, and writes what is asked for: one trace of all domains, by time and CPU of the machine, in
/// which the first domain has the first CPUs of the machine, the second the next ones; the same
/// with lines of what happens to the tasks; each job of each task; the figures of tasks, CPUs and
/// domains; a chart of all tasks, by domain; or each section's calls, each with the reply that it
/// gets.
///
/// `Ok`: the input spells sections, and what was written is that text of their run, and nothing
/// else.
///
/// # Errors
/// [`SessionFault::Calls`] with the first bad line of the input, [`SessionFault::Read`] where the
/// reader failed, [`SessionFault::Memory`] where a growth was refused: nothing was written.
/// [`SessionFault::Write`] where the writer failed: it took `written` bytes, the front of the
/// text, and not all.
pub fn replay_as<R: Read, W: Write>(
    alloc: Global,
    reader: &mut Counted<R>,
    writer: &mut Counted<W>,
    print: ReplayPrint,
) -> Result<(), SessionFault>
    requires reader { faults_of reader.old < 2 ^ 63 }
    requires writer { faults_of writer.old < 2 ^ 63 }
    ensures ok { OnOk result
        (IsAnsweredBy (replayed_text print) (streams (side R.remaining reader.old reader.new)
        (side W.contents writer.old writer.new))) }
    ensures err { IfErr result
        (IsSessionFaultBy (replayed_text print) (streams (side R.remaining reader.old reader.new)
        (side W.contents writer.old writer.new))) }
{
    match calls_trace::replay_as(alloc, reader, writer, print) {
        Ok(()) => Ok(()),
        Err(fault) => Err(SessionFault::from(fault)),
    }
}

/// As [`replay_as`], for the trace.
///
/// `Ok`: the input spells sections, and what was written is the trace of their run, and nothing
/// else.
///
/// # Errors
/// [`SessionFault::Calls`] with the first bad line of the input, [`SessionFault::Read`] where the
/// reader failed, [`SessionFault::Memory`] where a growth was refused: nothing was written.
/// [`SessionFault::Write`] where the writer failed: it took `written` bytes, the front of the
/// trace, and not all.
pub fn replay<R: Read, W: Write>(
    alloc: Global,
    reader: &mut Counted<R>,
    writer: &mut Counted<W>,
) -> Result<(), SessionFault>
    requires reader { faults_of reader.old < 2 ^ 63 }
    requires writer { faults_of writer.old < 2 ^ 63 }
    ensures ok { OnOk result
        (IsAnswered (streams (side R.remaining reader.old reader.new)
        (side W.contents writer.old writer.new))) }
    ensures err { IfErr result
        (IsSessionFault (streams (side R.remaining reader.old reader.new)
        (side W.contents writer.old writer.new))) }
{
    replay_as(alloc, reader, writer, ReplayPrint::Trace)
}
