//! The figures of a run that was streamed while it was made, with what else a summary has of it,
//! and its jobs.

ghost use Rattle.std.specs.Prelude.{◌≡◌, ◌≤◌, length};
ghost use Rattle.run_figures.specs.Laws.{AreShort};

use domain_run::State;
use figure_text::{DomainJobs, DomainSummary};
use indexmap::IndexMap;
use run_figures::{KeptJobs, Summary};

/// The figures of a run, the names of its tasks, what a summary has of its state, and the jobs of
/// its tasks, if they were asked for. The run itself is not kept.
#[derive(Drop)]
pub(crate) struct SummedRun {
    names: IndexMap<u32, String>,
    summary: Summary,
    /// None, if they were not asked for.
    jobs: Vec<KeptJobs>,
    bandwidth: u64,
    cap: u64,
    time: u64,
    ghost short: { AreShort summary.tasks.items summary.cpus.items },
    ghost machine: { length summary.cpus.items ≤ 64 },
}

impl SummedRun {
    ghost use Rattle.figure_text.specs.Jobs as jobs;
    ghost use Rattle.figure_text.specs.Summary as summaries;
    ghost use Rattle.switch_text.specs.Names.{name_of_task};
    ghost use Rattle.calls_trace.specs.private.Counting.{summary_of_domain};
    ghost use Rattle.calls_trace.specs.private.Summed.{jobs_as, summed_as};

    /// Of a run that led to this state. Its switches are not used.
    pub(crate) fn of(
        names: IndexMap<u32, String>,
        state: State,
        summary: Summary,
        jobs: Vec<KeptJobs>,
    ) -> SummedRun
        requires short { AreShort summary.tasks.items summary.cpus.items }
        requires cpus { length summary.cpus.items ≡ state.cpus }
        ensures figures { summed_as result ≡ summary_of_domain (name_of_task names) state
            summary.tasks.items summary.cpus.items }
        ensures jobs { jobs_as result
            ≡ record { names = name_of_task names; tasks = jobs.items } }
    {
        SummedRun {
            names,
            summary,
            jobs,
            bandwidth: state.sum(),
            cap: u64::from(state.cpus()) * state.limit(),
            time: state.now(),
        }
    }

    /// Its jobs, as they are written.
    pub(crate) fn as_jobs(&self) -> DomainJobs<'_>
        ensures { jobs.jobs_view_of result ≡ jobs_as self.now }
    {
        DomainJobs {
            names: &self.names,
            tasks: &self.jobs,
        }
    }

    /// Its figures, as they are written.
    pub(crate) fn as_summary(&self) -> DomainSummary<'_>
        ensures view { summaries.summary_view_of result ≡ summed_as self.now }
        ensures short { summaries.IsShortSummary result }
        ensures machine { summaries.IsOfMachine result }
    {
        DomainSummary {
            names: &self.names,
            tasks: &self.summary.tasks,
            cpus: &self.summary.cpus,
            bandwidth: self.bandwidth,
            cap: self.cap,
            time: self.time,
        }
    }
}
