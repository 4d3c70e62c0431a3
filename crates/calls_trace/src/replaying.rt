//! From bytes to bytes: recorded calls in, a text of their run out.

ghost use Rattle.std.specs.Prelude.{◌<◌, ◌^◌, OnOk, IfErr};
ghost use Rattle.counted_io.specs.Sides.{faults_of, side};
ghost use Rattle.calls_trace.specs.Answer.{streams, IsAnswered, IsAnsweredBy, IsReplayFaultBy, IsReplayFault, replayed_text};
ghost use Rattle.calls_trace.specs.private.Replayed.{IsReplayed, IsUnreplayed};

use crate::fault::ReplayFault;
use crate::run_text::RunText;
use crate::writing::{write_answered_text, write_run_text};
use run_options::ReplayPrint;
use std::alloc::Global;
use std::io::{Read, Write};
use switch_text::{Counted, ReadFault};

/// Makes the calls of a text, and writes what is asked for of them.
fn write_replayed<W: Write>(
    alloc: Global,
    print: ReplayPrint,
    text: &[u8],
    writer: &mut Counted<W>,
) -> Result<(), ReplayFault>
    requires faults { faults_of writer.old < 2 ^ 63 }
    ensures ok { OnOk result
        (IsReplayed text.now (replayed_text print) (side W.contents writer.old writer.new)) }
    ensures err { IfErr result
        (IsUnreplayed text.now (replayed_text print) (side W.contents writer.old writer.new)) }
{
    match RunText::of(print) {
        Some(kind) => write_run_text(alloc, kind, text, writer),
        None => write_answered_text(alloc, text, writer),
    }
}

/// Reads a calls text to its end, runs the calls of each of its 1 to 8 sections on a domain of its
/// own, and writes what is asked for: one trace of all domains, by time and CPU of the machine, in
/// which the first domain has the first CPUs of the machine, the second the next ones; the same
/// with lines of what happens to the tasks; each job of each task; the figures of tasks, CPUs and
/// domains; a chart of all tasks, by domain; or each section's calls, each with the reply that it
/// gets.
///
/// `Ok`: the input spells sections, and what was written is that text of their run, and nothing
/// else.
///
/// # Errors
/// [`ReplayFault::Calls`] with the first bad line of the input, [`ReplayFault::Read`] where the
/// reader failed, [`ReplayFault::Memory`] where a growth was refused: nothing was written.
/// [`ReplayFault::Write`] where the writer failed: it took exactly so many bytes, the front of the
/// text, and not all.
pub fn replay_as<R: Read, W: Write>(
    alloc: Global,
    reader: &mut Counted<R>,
    writer: &mut Counted<W>,
    print: ReplayPrint,
) -> Result<(), ReplayFault>
    requires reader { faults_of reader.old < 2 ^ 63 }
    requires writer { faults_of writer.old < 2 ^ 63 }
    ensures ok { OnOk result
        (IsAnsweredBy (replayed_text print) (streams (side R.remaining reader.old reader.new)
        (side W.contents writer.old writer.new))) }
    ensures err { IfErr result
        (IsReplayFaultBy (replayed_text print) (streams (side R.remaining reader.old reader.new)
        (side W.contents writer.old writer.new))) }
{
    let text = match reader.read_all(alloc) {
        Ok(text) => text,
        Err(ReadFault::Failed) => return Err(ReplayFault::Read),
        Err(ReadFault::Memory) => return Err(ReplayFault::Memory),
    };
    write_replayed(alloc, print, &text, writer)
}

/// As [`replay_as`], for the trace.
///
/// `Ok`: the input spells sections, and what was written is the trace of their run, and nothing
/// else.
///
/// # Errors
/// [`ReplayFault::Calls`] with the first bad line of the input, [`ReplayFault::Read`] where the
/// reader failed, [`ReplayFault::Memory`] where a growth was refused: nothing was written.
/// [`ReplayFault::Write`] where the writer failed: it took exactly so many bytes, the front of the
/// trace, and not all.
pub fn replay<R: Read, W: Write>(
    alloc: Global,
    reader: &mut Counted<R>,
    writer: &mut Counted<W>,
) -> Result<(), ReplayFault>
    requires reader { faults_of reader.old < 2 ^ 63 }
    requires writer { faults_of writer.old < 2 ^ 63 }
    ensures ok { OnOk result
        (IsAnswered (streams (side R.remaining reader.old reader.new)
        (side W.contents writer.old writer.new))) }
    ensures err { IfErr result
        (IsReplayFault (streams (side R.remaining reader.old reader.new)
        (side W.contents writer.old writer.new))) }
{
    replay_as(alloc, reader, writer, ReplayPrint::Trace)
}
