ghost use Rattle.std.specs.Prelude.{◌≡◌};
ghost use Rattle.run_options.specs.Options.{print_tells};

use chart_pieces::Span;

/// What is written of a replay.
#[derive(Clone, Copy)]
pub enum ReplayPrint {
    /// The trace: a sched_switch line for each switch.
    Trace,
    /// The calls, each with its reply.
    Replies,
    /// The trace, and between its lines those of what happens to the tasks.
    Events,
    /// Each job of each task.
    Jobs,
    /// The figures of each task, of each CPU and of each domain.
    Summary,
    /// A part of the run as a chart, an SVG file: which task ran where, when it wanted a CPU or was
    /// throttled, and when its jobs were released and due. [`Span::window`] says what is shown.
    Chart(Span),
}

impl ReplayPrint {
    /// Whether what happens has to be known for it.
    pub fn tells(self) -> bool
        ensures { result ≡ print_tells self }
    {
        match self {
            ReplayPrint::Trace | ReplayPrint::Replies => false,
            ReplayPrint::Events
            | ReplayPrint::Jobs
            | ReplayPrint::Summary
            | ReplayPrint::Chart(_) => true,
        }
    }
}
