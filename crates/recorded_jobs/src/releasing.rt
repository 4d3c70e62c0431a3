//! The releases of a task's jobs, by the times at which it was woken.

ghost use Rattle.std.specs.Prelude.{◌≡◌, IfOk};
ghost use Rattle.std.specs.List.Sorted.{IsNonDecreasing};
ghost use Rattle.recorded_jobs.specs.Releases.{is_wake_of, wakes_of, latest_between, release_by, releases_after};
ghost use Rattle.recorded_jobs.specs.private.Splits.{IsSplitAt};

use crate::job::{Job, Release};
use crate::moment::{Moment, What};
use std::alloc::{AllocError, Global};

/// Whether a moment wakes a task.
fn is_wake_of(task: usize, what: &What) -> bool
    ensures { result ≡ is_wake_of task what.now }
{
    match what {
        What::Wake { task: Some(other) } => *other == task,
        _ => false,
    }
}

/// The times at which a task was woken.
pub(crate) fn wakes_of(
    alloc: Global,
    task: usize,
    moments: &[Moment],
) -> Result<Vec<u64>, AllocError>
    ensures { IfOk result (λ v. v.items ≡ wakes_of task moments.now) }
{
    let mut wakes = Vec::new(alloc);
    for moment in moments {
        if is_wake_of(task, &moment.what) {
            wakes.push(moment.time)?;
        }
    }
    Ok(wakes)
}

/// How many of these times, which are in order, are not after another.
fn count_until(wakes: &[u64], time: u64) -> usize
    requires { IsNonDecreasing wakes.now }
    ensures { IsSplitAt wakes.now time result }
{
    let mut low = 0;
    let mut high = wakes.len();
    while low < high {
        let middle = low + (high - low) / 2;
        if wakes[middle] <= time {
            low = middle + 1;
        } else {
            high = middle;
        }
    }
    low
}

/// The latest of these times, which are in order, from one time to another.
fn latest_between(after: u64, start: u64, wakes: &[u64]) -> Option<u64>
    requires { IsNonDecreasing wakes.now }
    ensures { result ≡ latest_between after start wakes.now }
{
    let count = count_until(wakes, start);
    if count == 0 {
        return None;
    }
    let last = wakes[count - 1];
    if last >= after { Some(last) } else { None }
}

/// A job that a wake released, or that was released when it started.
fn release_by(job: &Job, wake: Option<u64>) -> Release
    ensures { result ≡ release_by job.now wake }
{
    Release {
        time: wake.unwrap_or(job.start),
        woken: wake.is_some(),
        job: *job,
    }
}

/// The jobs of a task with their releases, by the times at which it was woken, which are in order.
///
/// # Errors
/// A growth was refused.
pub(crate) fn releases_after(
    alloc: Global,
    wakes: &[u64],
    jobs: &[Job],
) -> Result<Vec<Release>, AllocError>
    requires { IsNonDecreasing wakes.now }
    ensures { IfOk result (λ v. v.items ≡ releases_after 0 wakes.now jobs.now) }
{
    let mut releases = Vec::new(alloc);
    let mut after = 0;
    for job in jobs {
        releases.push(release_by(job, latest_between(after, job.start, wakes)))?;
        after = job.end.unwrap_or(job.start);
    }
    Ok(releases)
}
