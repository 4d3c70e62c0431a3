//! The jobs of all tasks of a recording.

ghost use Rattle.std.specs.Prelude.{◌≡◌, IfOk, OnOk};
ghost use Rattle.std.specs.List.Sorted.{IsNonDecreasingBy};
ghost use Rattle.recorded_jobs.specs.Stretches.{all_stretches};
ghost use Rattle.recorded_jobs.specs.CpusUsed.{with_new_cpu, cpus_run_on};
ghost use Rattle.recorded_jobs.specs.Releases.{time_at_end, jobs_of_task};
ghost use Rattle.recorded_jobs.specs.Found.{ShowsJobs, AreJobsFound};

use crate::cutting::jobs_cut;
use crate::job::Release;
use crate::moment::Moment;
use crate::releasing::{releases_after, wakes_of};
use crate::stretch::{Stretch, stretches_in, stretches_of};
use std::alloc::{AllocError, Global};

/// What a recording shows of tasks.
#[derive(Drop)]
pub struct Found {
    /// The jobs of each task, in the order of the tasks.
    pub jobs: Vec<Vec<Release>>,
    /// The CPUs on which they ran, each once.
    pub cpus: Vec<u16>,
}

/// The time of the last moment.
fn time_at_end(moments: &[Moment]) -> u64
    ensures { result ≡ time_at_end moments.now }
{
    match moments.last() {
        Some(moment) => moment.time,
        None => 0,
    }
}

/// Adds a CPU, if it is new.
fn take_cpu(cpus: &mut Vec<u16>, cpu: u16) -> Result<(), AllocError>
    ensures { OnOk result (cpus.new.items ≡ with_new_cpu cpus.old.items cpu) }
{
    if !cpus.contains(&cpu) {
        cpus.push(cpu)?;
    }
    Ok(())
}

/// The CPUs of these stretches, each once.
fn cpus_run_on(alloc: Global, stretches: &[Stretch]) -> Result<Vec<u16>, AllocError>
    ensures { IfOk result (λ v. v.items ≡ cpus_run_on stretches.now) }
{
    let mut cpus = Vec::new(alloc);
    for stretch in stretches {
        take_cpu(&mut cpus, stretch.cpu)?;
    }
    Ok(cpus)
}

/// The jobs of one task.
fn jobs_of_task(
    alloc: Global,
    task: usize,
    moments: &[Moment],
    stretches: &[Stretch],
) -> Result<Vec<Release>, AllocError>
    requires order { IsNonDecreasingBy (λ m. m.time) moments.now }
    requires stretches { stretches.now ≡ all_stretches (time_at_end moments.now) moments.now }
    ensures { IfOk result (λ v. v.items ≡ jobs_of_task moments.now task) }
{
    let own = stretches_of(alloc, task, stretches)?;
    let jobs = jobs_cut(alloc, &own)?;
    let wakes = wakes_of(alloc, task, moments)?;
    releases_after(alloc, &wakes, &jobs)
}

/// The jobs of each task.
fn jobs_of_each(
    alloc: Global,
    moments: &[Moment],
    stretches: &[Stretch],
    tasks: usize,
) -> Result<Vec<Vec<Release>>, AllocError>
    requires order { IsNonDecreasingBy (λ m. m.time) moments.now }
    requires stretches { stretches.now ≡ all_stretches (time_at_end moments.now) moments.now }
    ensures { IfOk result (λ v. AreJobsFound moments.now tasks v.items) }
{
    let mut found = Vec::new(alloc);
    for task in 0..tasks {
        found.push(jobs_of_task(alloc, task, moments, stretches)?)?;
    }
    Ok(found)
}

/// What a recording shows of tasks, which have the numbers from 0 on. Its moments are in the order
/// of time.
///
/// # Errors
/// A growth was refused.
pub fn jobs_of_tasks(alloc: Global, moments: &[Moment], tasks: usize) -> Result<Found, AllocError>
    requires { IsNonDecreasingBy (λ m. m.time) moments.now }
    ensures { IfOk result (ShowsJobs moments.now tasks) }
{
    let stretches = stretches_in(alloc, time_at_end(moments), moments)?;
    let jobs = jobs_of_each(alloc, moments, &stretches, tasks)?;
    let cpus = cpus_run_on(alloc, &stretches)?;
    Ok(Found { jobs, cpus })
}
