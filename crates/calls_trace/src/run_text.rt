//! The texts that are made of runs.

ghost use Rattle.std.specs.Prelude.{◌≡◌};
ghost use Rattle.calls_trace.specs.private.RunTexts as texts;

use chart_pieces::Span;
use run_options::ReplayPrint;

/// A text that is made of the runs of a machine's domains.
#[derive(Clone, Copy)]
pub(crate) enum RunText {
    Trace,
    Events,
    Jobs,
    Summary,
    Chart(Span),
}

impl RunText {
    /// The text that is asked for; the calls with their replies are made of no run.
    pub(crate) fn of(print: ReplayPrint) -> Option<RunText>
        ensures { result ≡ texts.run_text print }
    {
        match print {
            ReplayPrint::Trace => Some(RunText::Trace),
            ReplayPrint::Replies => None,
            ReplayPrint::Events => Some(RunText::Events),
            ReplayPrint::Jobs => Some(RunText::Jobs),
            ReplayPrint::Summary => Some(RunText::Summary),
            ReplayPrint::Chart(span) => Some(RunText::Chart(span)),
        }
    }
}
