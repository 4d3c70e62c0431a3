//! The figures of a run, with what else a summary has of it.

ghost use Rattle.std.specs.Prelude.{◌≡◌, ◌≤◌, length};
ghost use Rattle.run_figures.specs.Laws.{AreShort};

use domain_run::State;
use figure_text::DomainSummary;
use indexmap::IndexMap;
use run_figures::Summary;

/// The figures of a run, the names of its tasks, and what a summary has of its state.
#[derive(Drop)]
pub(crate) struct CountedRun<'a> {
    names: &'a IndexMap<u32, String>,
    summary: Summary,
    bandwidth: u64,
    cap: u64,
    time: u64,
    ghost short: { AreShort summary.tasks.items summary.cpus.items },
    ghost machine: { length summary.cpus.items ≤ 64 },
}

impl<'a> CountedRun<'a> {
    ghost use Rattle.figure_text.specs.Summary as summaries;
    ghost use Rattle.switch_text.specs.Names.{name_of_task};
    ghost use Rattle.calls_trace.specs.private.Counting.{counted_as, summary_of_domain};

    /// Of a run that led to this state. Nobody looks at the state's switches.
    pub(crate) fn of(
        names: &'a IndexMap<u32, String>,
        state: &State,
        summary: Summary,
    ) -> CountedRun<'a>
        requires short { AreShort summary.tasks.items summary.cpus.items }
        requires cpus { length summary.cpus.items ≡ state.now.cpus }
        ensures { counted_as result
            ≡ summary_of_domain (name_of_task names.now) state.now summary.tasks.items
            summary.cpus.items }
    {
        CountedRun {
            names,
            summary,
            bandwidth: state.sum(),
            cap: u64::from(state.cpus()) * state.limit(),
            time: state.now(),
        }
    }

    /// As it is written.
    pub(crate) fn as_summary(&self) -> DomainSummary<'_>
        ensures view { summaries.summary_view_of result ≡ counted_as self.now }
        ensures short { summaries.IsShortSummary result }
        ensures machine { summaries.IsOfMachine result }
    {
        DomainSummary {
            names: self.names,
            tasks: &self.summary.tasks,
            cpus: &self.summary.cpus,
            bandwidth: self.bandwidth,
            cap: self.cap,
            time: self.time,
        }
    }
}
