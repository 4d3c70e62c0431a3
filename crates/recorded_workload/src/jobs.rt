//! What the jobs of all tasks say.

ghost use Rattle.std.specs.Prelude.{◌≡◌, map};
ghost use Rattle.recorded_scripts.specs.Scripts.{first_release};
ghost use Rattle.recorded_workload.specs.Workload.{earlier, earliest};
ghost use Rattle.recorded_workload.specs.Refusals.{none_found, many_from, fits_script, long_from, cpus_refused, ticks_refused, refused_by};

use crate::fault::WorkloadFault;
use recorded_jobs::Release;
use recorded_scripts::are_short;

/// The most jobs of a task.
const MOST_JOBS: usize = 2048;

/// The most microseconds from an admission to the start of the task.
const MOST_DELAY: u64 = 1_000_000_000;

/// The most CPUs of a domain.
const MOST_CPUS: usize = 64;

/// The most microseconds of a workload.
const MOST_TICKS: u64 = 3_900_000_000_000;

/// When the first of these jobs was released, or 0 if there is none.
pub(crate) fn first_release(jobs: &[Release]) -> u64
    ensures { result ≡ first_release jobs.now }
{
    match jobs.first() {
        Some(release) => release.time,
        None => 0,
    }
}

/// The earlier of a time and a first release.
fn earlier(found: Option<u64>, jobs: &[Release]) -> Option<u64>
    ensures { result ≡ earlier found jobs.now }
{
    match (jobs, found) {
        ([], _) => found,
        ([first, ..], Some(time)) => Some(time.min(first.time)),
        ([first, ..], None) => Some(first.time),
    }
}

/// The earliest release of all tasks.
pub(crate) fn earliest(jobs: &[Vec<Release>]) -> Option<u64>
    ensures { result ≡ earliest (map (λ v. v.items) jobs.now) }
{
    let mut found = None;
    for own in jobs {
        found = earlier(found, own);
    }
    found
}

fn none_found(start: Option<u64>) -> Option<WorkloadFault>
    ensures { result ≡ none_found start }
{
    match start {
        None => Some(WorkloadFault::NoTask),
        Some(_) => None,
    }
}

/// The first task of too many jobs.
fn many_jobs(jobs: &[Vec<Release>]) -> Option<WorkloadFault>
    ensures { result ≡ many_from 0 (map (λ v. v.items) jobs.now) }
{
    for task in 0..jobs.len() {
        let count = jobs[task].len();
        if count > MOST_JOBS {
            return Some(WorkloadFault::ManyJobs { task, jobs: count });
        }
    }
    None
}

/// Whether a task with these jobs starts soon, and neither works nor waits too long.
fn fits_script(start: u64, jobs: &[Release]) -> bool
    ensures { result ≡ fits_script start jobs.now }
{
    first_release(jobs).saturating_sub(start) <= MOST_DELAY && are_short(jobs)
}

/// The first task that does not.
fn long_sleep(start: u64, jobs: &[Vec<Release>]) -> Option<WorkloadFault>
    ensures { result ≡ long_from start 0 (map (λ v. v.items) jobs.now) }
{
    for task in 0..jobs.len() {
        if !fits_script(start, &jobs[task]) {
            return Some(WorkloadFault::LongSleep { task });
        }
    }
    None
}

fn cpus_refused(cpus: usize) -> Option<WorkloadFault>
    ensures { result ≡ cpus_refused cpus }
{
    if cpus > MOST_CPUS {
        Some(WorkloadFault::ManyCpus { cpus })
    } else {
        None
    }
}

fn ticks_refused(ticks: u64) -> Option<WorkloadFault>
    ensures { result ≡ ticks_refused ticks }
{
    if ticks > MOST_TICKS {
        Some(WorkloadFault::LongRecording)
    } else {
        None
    }
}

/// Why there is no workload of these jobs, on so many CPUs and of so many microseconds.
pub(crate) fn refused_by(jobs: &[Vec<Release>], cpus: usize, ticks: u64) -> Option<WorkloadFault>
    ensures { result ≡ refused_by (map (λ v. v.items) jobs.now) cpus ticks }
{
    let start = earliest(jobs);
    none_found(start)
        .or(many_jobs(jobs))
        .or(long_sleep(start.unwrap_or(0), jobs))
        .or(cpus_refused(cpus))
        .or(ticks_refused(ticks))
}
