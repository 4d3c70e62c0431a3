//! A job, and what becomes of it.

ghost use Rattle.std.specs.Prelude.{◌≡◌, ◌-◌, ◌≤◌, ◌^◌, IfSome};
ghost use Rattle.std.specs.Option.{option_map};
ghost use Rattle.run_figures.specs.Jobs as jobs;

use domain_run::{Happened, What};

/// A job of a task. Times are in microseconds.
#[derive(Clone, Copy)]
pub struct Job {
    /// When it was released.
    pub release: u64,
    /// When it is due.
    pub deadline: u64,
    /// When it ended, where it did.
    pub ended: Option<u64>,
    /// How often its task was throttled while it was under way.
    pub throttled: u64,
    /// Whether a call ended it: a leave of its task, or a departure.
    pub cut: bool,
}

pub(crate) fn new_job(release: u64, deadline: u64) -> Job
    ensures { result ≡ jobs.new_job release deadline }
{
    Job {
        release,
        deadline,
        ended: None,
        throttled: 0,
        cut: false,
    }
}

/// The job, where it is over by this.
fn closed(happened: &Happened, job: Job) -> Option<Job>
    ensures { result ≡ jobs.job_closed happened.now.time happened.now.what job }
{
    match happened.what {
        What::JobEnds => Some(Job {
            ended: Some(happened.time),
            ..job
        }),
        What::Cut => Some(Job { cut: true, ..job }),
        What::NextReleased { .. } | What::Released { .. } => Some(job),
        What::Spent { .. } | What::Replenished { .. } | What::WokenSpent { .. } => None,
    }
}

/// The job that was under way, where it is over by this.
pub(crate) fn over_by(happened: &Happened, job: Option<Job>) -> Option<Job>
    ensures { result ≡ jobs.over_by happened.now.time happened.now.what job }
{
    match job {
        Some(job) => closed(happened, job),
        None => None,
    }
}

/// A job, throttled once more.
fn once_more(job: Option<Job>) -> Option<Job>
    requires room { IfSome job (λ j. j.throttled ≤ 2 ^ 64 - 2) }
    ensures { result ≡ option_map jobs.once_more job }
{
    match job {
        None => None,
        Some(job) => Some(Job {
            throttled: job.throttled + 1,
            ..job
        }),
    }
}

/// The job that is under way is throttled once more.
pub(crate) fn add_throttle(job: &mut Option<Job>)
    requires room { IfSome job.old (λ j. j.throttled ≤ 2 ^ 64 - 2) }
    ensures { job.new ≡ option_map jobs.once_more job.old }
{
    if let Some(job) = job {
        job.throttled += 1;
    }
}

/// The job that is under way then.
pub(crate) fn under_way(happened: &Happened, job: Option<Job>) -> Option<Job>
    requires room { IfSome job (λ j. j.throttled ≤ 2 ^ 64 - 2) }
    ensures { result ≡ jobs.job_after happened.now.time happened.now.what job }
{
    match happened.what {
        What::JobEnds | What::Cut => None,
        What::NextReleased { deadline } | What::Released { deadline } => {
            Some(new_job(happened.time, deadline))
        }
        What::Spent { .. } | What::WokenSpent { .. } => once_more(job),
        What::Replenished { .. } => job,
    }
}
