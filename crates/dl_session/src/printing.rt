//! The last step of a run: the text that is asked for of its histories.

ghost use Rattle.std.specs.Prelude.{◌≡◌, ◌<◌, ◌≤◌, ◌^◌, All, OnOk, IfErr, length};
ghost use Rattle.calls_text.specs.Limits.{IsSection};
ghost use Rattle.calls_text.specs.Histories.{AreLegal};
ghost use Rattle.calls_trace.specs.Charted.{last_time};
ghost use Rattle.counted_io.specs.Sides.{faults_of, side};
ghost use Rattle.dl_session.specs.private.Printing as printing;
ghost use Rattle.dl_session.specs.private.Running.{AreLeftAs};

use crate::promising::write_promises;
use call_book::Section;
use calls_trace::{
    Span, TraceFault, write_drawn_chart, write_streamed_jobs, write_streamed_summary,
};
use chart_pieces::Drawing;
use domain_run::State;
use rtapp_scenario::TaskSpec;
use run_figures::Accounting;
use session::Wanted;
use std::alloc::Global;
use std::io::Write;
use switch_text::Counted;

/// A text that is made of what a run left. The trace and the events go out while the run is made,
/// and the calls and the replies are made of the histories alone.
#[derive(Clone, Copy)]
pub(crate) enum KeptText {
    /// The summary, of what was streamed while the run was made.
    Summary,
    /// The jobs, of what was streamed then.
    Jobs,
    /// The chart of this part of the run, of what was drawn then.
    Chart(Span),
    /// The promises, of the tasks and the states.
    Promises,
}

/// What is wanted of a run of this duration, in microseconds, of which this text is written.
pub(crate) fn wanted_for(kept: KeptText, duration: u64) -> Wanted
    ensures { result ≡ printing.wanted_for duration kept }
{
    match kept {
        KeptText::Summary => Wanted::Figures,
        KeptText::Jobs => Wanted::Jobs,
        KeptText::Chart(span) => Wanted::Chart(span.window(duration)),
        KeptText::Promises => Wanted::Switches,
    }
}

/// What a run left, besides its report.
#[derive(Drop)]
pub(crate) struct Left {
    /// The state of each domain.
    pub(crate) states: Vec<State>,
    /// What its figures or jobs are made of, if they were wanted.
    pub(crate) streamed: Vec<Accounting>,
    /// What its chart is made of, if that was wanted.
    pub(crate) drawn: Vec<Drawing>,
}

/// Writes the text that is asked for of histories. It is made of what their run left: states,
/// accountings, or drawings. The run lasted this duration, in microseconds. Nothing is run again.
///
/// # Errors
/// [`TraceFault::Memory`]: a growth was refused, and nothing was written. [`TraceFault::Write`]:
/// the writer failed; it took `written` bytes, the front of the text, and not all.
pub(crate) fn write_run<W: Write>(
    alloc: Global,
    kept: KeptText,
    duration: u64,
    tasks: &[TaskSpec],
    histories: &[Section],
    left: Left,
    writer: &mut Counted<W>,
) -> Result<(), TraceFault>
    requires few { length histories.now ≤ 8 }
    requires count { length left.states.items ≡ length histories.now }
    requires sections { All IsSection histories.now }
    requires legal { AreLegal histories.now }
    requires runs { AreLeftAs (printing.wanted_for duration kept) histories.now left }
    requires last { last_time histories.now ≡ duration }
    requires faults { faults_of writer.old < 2 ^ 63 }
    ensures ok { OnOk result
        (printing.IsWrittenAs
        (printing.IsMadeText (printing.print_of_kept kept) tasks.now histories.now)
        (side W.contents writer.old writer.new)) }
    ensures err { IfErr result
        (printing.IsUnwrittenAs
        (printing.IsMadeText (printing.print_of_kept kept) tasks.now histories.now)
        (side W.contents writer.old writer.new)) }
{
    let Left {
        states,
        mut streamed,
        drawn,
    } = left;
    match kept {
        KeptText::Summary => {
            write_streamed_summary(alloc, histories, &states, &streamed, writer)
        }
        KeptText::Jobs => { write_streamed_jobs(alloc, histories, &states, &mut streamed, writer) }
        KeptText::Chart(span) => {
            let window = span.window(duration);
            write_drawn_chart(alloc, window, histories, &states, drawn, writer)
        }
        KeptText::Promises => write_promises(alloc, &states, tasks, writer),
    }
}
