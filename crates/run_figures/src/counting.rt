//! The jobs of a task, counted one by one.

ghost use Rattle.std.specs.Prelude.{◌≡◌, ◌-◌, ◌≤◌, ◌^◌, IfSome};
ghost use Rattle.run_figures.specs.Figures as figures;
ghost use Rattle.run_figures.specs.private.Logging as logging;

use crate::job::Job;

/// Of the jobs that ended.
#[derive(Clone, Copy)]
pub(crate) struct Ended {
    pub(crate) count: u64,
    /// All their responses.
    pub(crate) total: u128,
    /// The least response.
    pub(crate) least: u64,
    /// The greatest.
    pub(crate) most: u64,
    /// The least slack.
    pub(crate) slack: i128,
}

/// The jobs so far.
#[derive(Clone, Copy)]
pub(crate) struct Counts {
    pub(crate) ended: Option<Ended>,
    pub(crate) late: u64,
}

/// One more that ended.
fn add_outcome(ended: &mut Option<Ended>, response: u64, slack: i128)
    requires room { IfSome ended.old (logging.IsWithinEnded (2 ^ 64 - 2)) }
    ensures { ended.new
        ≡ logging.with_outcome ended.old (record { response = response; slack = slack }) }
{
    match ended {
        None => {
            *ended = Some(Ended {
                count: 1,
                total: u128::from(response),
                least: response,
                most: response,
                slack,
            });
        }
        Some(ended) => {
            ended.count += 1;
            ended.total += u128::from(response);
            ended.least = ended.least.min(response);
            ended.most = ended.most.max(response);
            ended.slack = ended.slack.min(slack);
        }
    }
}

/// Whether a job is late, where the run ends at this time.
fn is_late(job: &Job, time: u64) -> bool
    ensures { result ≡ figures.is_late time job.now }
{
    match job.ended {
        Some(end) => job.deadline < end,
        None => !job.cut && job.deadline < time,
    }
}

/// The end of a job, where it ended.
fn add_end(ended: &mut Option<Ended>, job: &Job)
    requires room { IfSome ended.old (logging.IsWithinEnded (2 ^ 64 - 2)) }
    ensures { ended.new ≡ logging.with_end ended.old job.now }
{
    if let Some(end) = job.ended {
        add_outcome(
            ended,
            end.saturating_sub(job.release),
            i128::from(job.deadline) - i128::from(end),
        );
    }
}

/// One more job, where the run ends at this time.
pub(crate) fn add_job(counts: &mut Counts, job: &Job, time: u64)
    requires room { IfSome counts.old.ended (logging.IsWithinEnded (2 ^ 64 - 2)) }
    requires late { counts.old.late ≤ 2 ^ 64 - 2 }
    ensures { counts.new ≡ logging.with_job time counts.old job.now }
{
    add_end(&mut counts.ended, job);
    if is_late(job, time) {
        counts.late += 1;
    }
}
