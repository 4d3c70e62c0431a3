ghost use Rattle.std.specs.Prelude.{◌≡◌};
ghost use Rattle.run_options.specs.Options.{tells};

use chart_pieces::Span;

/// What is written of a run.
#[derive(Clone, Copy)]
pub enum Print {
    /// The trace: a sched_switch line for each switch.
    Trace,
    /// The calls text of the histories.
    Calls,
    /// The calls of the histories, each with its reply.
    Replies,
    /// The trace, and between its lines those of what happens to the tasks.
    Events,
    /// Each job of each task.
    Jobs,
    /// The figures of each task, of each CPU and of each domain.
    Summary,
    /// For each task, that it is never late, or the first reason why that is not promised. The
    /// tasks are admitted, and no time passes.
    Promises,
    /// A part of the run as a chart, an SVG file: which task ran where, when it wanted a CPU or was
    /// throttled, and when its jobs were released and due. [`Span::window`] says what is shown.
    Chart(Span),
}

impl Print {
    /// Whether what happens to the tasks is told.
    pub fn tells(&self) -> bool
        ensures { result ≡ tells self.now }
    {
        matches!(
            self,
            Print::Events | Print::Jobs | Print::Summary | Print::Chart(_)
        )
    }
}

/// With what a scenario is to be run. A session is opened from its domains, limit, clients, workers
/// and history; a run reads `reclaim` and `print` too. No answer depends on `workers`.
#[derive(Clone, Drop)]
pub struct Options {
    /// How many CPUs each root domain has, 1 to 64; 1 to 8 domains. The first has the first CPUs of
    /// the machine, the second the next ones, and so on.
    pub domains: Vec<u32>,
    /// What deadline tasks may take of each CPU, 10485 to 1048576 in 1/2^20 (sched-deadline.rst,
    /// "Bandwidth management").
    pub limit: u64,
    /// How many clients admit tasks, each in a thread of its own, 1 to 64.
    pub clients: u32,
    /// How many worker threads compute each domain, 1 to 8.
    pub workers: usize,
    /// How many calls the history of each domain has room for, 1 to 65536.
    pub history: usize,
    /// Whether every task is to ask for reclaiming (SCHED_FLAG_RECLAIM). A client admits a task
    /// with the flags that it has.
    pub reclaim: bool,
    pub print: Print,
}
