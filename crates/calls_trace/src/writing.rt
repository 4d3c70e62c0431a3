//! The calls of a text, made, and the text that is asked for of their runs.

ghost use Rattle.std.specs.Prelude.{◌<◌, ◌^◌, All, IfErr, OnOk};
ghost use Rattle.counted_io.specs.Sides.{faults_of, side};
ghost use Rattle.calls_text.specs.Limits.{IsSection};
ghost use Rattle.reply_text.specs.Replies.{replies_of};
ghost use Rattle.calls_trace.specs.Written.{IsWritten, IsUnwritten};
ghost use Rattle.calls_trace.specs.declared.run_text.RunText.TheVariants as texts;
ghost use Rattle.calls_trace.specs.private.Replayed.{IsReplayed, IsUnreplayed};
ghost use Rattle.calls_trace.specs.private.RunTexts.{text_of_all};

use crate::fault::{ReplayFault, TraceFault};
use crate::figures::write_whole;
use crate::foreseen_text::foreseen_of_text;
use crate::read_text::{events_of_text, playing_of_text};
use crate::run_text::RunText;
use crate::sketched_text::write_sketched;
use crate::summing::{summed_of_text, write_summed, write_summed_jobs};
use crate::trace::{write_played, write_played_events};
use calls_text::{Section, read_calls};
use chart_pieces::Span;
use reply_text::write_replies;
use std::alloc::Global;
use std::io::Write;
use switch_text::Counted;

/// Makes the calls of a text, and writes the trace of their runs while they are made.
fn write_read_trace<W: Write>(
    alloc: Global,
    text: &[u8],
    writer: &mut Counted<W>,
) -> Result<(), ReplayFault>
    requires faults { faults_of writer.old < 2 ^ 63 }
    ensures ok { OnOk result
        (IsReplayed text.now (text_of_all texts.Trace) (side W.contents writer.old writer.new)) }
    ensures err { IfErr result
        (IsUnreplayed text.now (text_of_all texts.Trace) (side W.contents writer.old writer.new)) }
{
    let playing = playing_of_text(alloc, text)?;
    Ok(write_played(alloc, playing, writer)?)
}

/// Makes the calls of a text, and writes the trace of their runs, and between its lines those of
/// what happens, while they are made.
fn write_read_events<W: Write>(
    alloc: Global,
    text: &[u8],
    writer: &mut Counted<W>,
) -> Result<(), ReplayFault>
    requires faults { faults_of writer.old < 2 ^ 63 }
    ensures ok { OnOk result
        (IsReplayed text.now (text_of_all texts.Events) (side W.contents writer.old writer.new)) }
    ensures err { IfErr result (IsUnreplayed text.now (text_of_all texts.Events)
        (side W.contents writer.old writer.new)) }
{
    let playing = events_of_text(alloc, text)?;
    Ok(write_played_events(alloc, playing, writer)?)
}

/// Makes the calls of a text, and writes the figures of their runs, which are streamed while they
/// are made.
fn write_read_summary<W: Write>(
    alloc: Global,
    text: &[u8],
    writer: &mut Counted<W>,
) -> Result<(), ReplayFault>
    requires faults { faults_of writer.old < 2 ^ 63 }
    ensures ok { OnOk result
        (IsReplayed text.now (text_of_all texts.Summary) (side W.contents writer.old writer.new)) }
    ensures err { IfErr result (IsUnreplayed text.now (text_of_all texts.Summary)
        (side W.contents writer.old writer.new)) }
{
    let runs = summed_of_text(alloc, false, text)?;
    Ok(write_summed(alloc, &runs, writer)?)
}

/// Makes the calls of a text, and writes the jobs of their runs, which are streamed while they are
/// made.
fn write_read_jobs<W: Write>(
    alloc: Global,
    text: &[u8],
    writer: &mut Counted<W>,
) -> Result<(), ReplayFault>
    requires faults { faults_of writer.old < 2 ^ 63 }
    ensures ok { OnOk result
        (IsReplayed text.now (text_of_all texts.Jobs) (side W.contents writer.old writer.new)) }
    ensures err { IfErr result
        (IsUnreplayed text.now (text_of_all texts.Jobs) (side W.contents writer.old writer.new)) }
{
    let runs = summed_of_text(alloc, true, text)?;
    Ok(write_summed_jobs(alloc, &runs, writer)?)
}

/// Makes the calls of a text, and writes the chart of a part of their runs, which are drawn while
/// they are made. All sections are read before: the chart may end where the last run does.
fn write_read_chart<W: Write>(
    alloc: Global,
    span: Span,
    text: &[u8],
    writer: &mut Counted<W>,
) -> Result<(), ReplayFault>
    requires faults { faults_of writer.old < 2 ^ 63 }
    ensures ok { OnOk result (IsReplayed text.now (text_of_all (texts.Chart span))
        (side W.contents writer.old writer.new)) }
    ensures err { IfErr result (IsUnreplayed text.now (text_of_all (texts.Chart span))
        (side W.contents writer.old writer.new)) }
{
    let sections = foreseen_of_text(alloc, text)?;
    Ok(write_sketched(alloc, span, sections, writer)?)
}

/// Makes the calls of a text, and writes a text of their runs.
pub(crate) fn write_run_text<W: Write>(
    alloc: Global,
    kind: RunText,
    text: &[u8],
    writer: &mut Counted<W>,
) -> Result<(), ReplayFault>
    requires faults { faults_of writer.old < 2 ^ 63 }
    ensures ok { OnOk result
        (IsReplayed text.now (text_of_all kind) (side W.contents writer.old writer.new)) }
    ensures err { IfErr result
        (IsUnreplayed text.now (text_of_all kind) (side W.contents writer.old writer.new)) }
{
    match kind {
        RunText::Trace => write_read_trace(alloc, text, writer),
        RunText::Events => write_read_events(alloc, text, writer),
        RunText::Summary => write_read_summary(alloc, text, writer),
        RunText::Jobs => write_read_jobs(alloc, text, writer),
        RunText::Chart(span) => write_read_chart(alloc, span, text, writer),
    }
}

/// Writes the calls of sections with their replies, in one piece.
fn write_answered<W: Write>(
    alloc: Global,
    sections: Vec<Section>,
    writer: &mut Counted<W>,
) -> Result<(), TraceFault>
    requires sections { All IsSection sections.items }
    requires faults { faults_of writer.old < 2 ^ 63 }
    ensures ok { OnOk result
        (IsWritten (side W.contents writer.old writer.new) (replies_of sections.items)) }
    ensures err { IfErr result
        (IsUnwritten (side W.contents writer.old writer.new) (replies_of sections.items)) }
{
    let text = write_replies(alloc, sections)?;
    write_whole(&text, writer)
}

/// Writes the calls of a text with their replies.
pub(crate) fn write_answered_text<W: Write>(
    alloc: Global,
    text: &[u8],
    writer: &mut Counted<W>,
) -> Result<(), ReplayFault>
    requires faults { faults_of writer.old < 2 ^ 63 }
    ensures ok { OnOk result
        (IsReplayed text.now replies_of (side W.contents writer.old writer.new)) }
    ensures err { IfErr result
        (IsUnreplayed text.now replies_of (side W.contents writer.old writer.new)) }
{
    let sections = read_calls(alloc, text)?;
    Ok(write_answered(alloc, sections, writer)?)
}
