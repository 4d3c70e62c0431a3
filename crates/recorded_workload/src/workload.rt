//! The section of a workload, and its text.

ghost use Rattle.std.specs.Prelude.{◌≡◌, ◌-◌, ◌∷◌, [], None, unwrap_or, max, length, IfOk, IfErr, OnOk};
ghost use Rattle.std.specs.List.Sorted.{IsNonDecreasingBy};
ghost use Rattle.calls_text.specs.Spelling.{spelling};
ghost use Rattle.calls_text.specs.Limits.{AreRead};
ghost use Rattle.calls_text.specs.RoundTrip.{IsReadAs};
ghost use Rattle.recorded_jobs.specs.Releases.{time_at_end};
ghost use Rattle.tasks_text.specs.Tasks.{IsTaskList};
ghost use Rattle.recorded_workload.specs.Workload.{workload_of};
ghost use Rattle.recorded_workload.specs.Refusals.{IsWorkloadShape, workload_refused, IsWorkloadFault, NamesTask};

use crate::building::{admits, push_advances};
use crate::fault::WorkloadFault;
use crate::jobs::{earliest, refused_by};
use crate::shape::Shape;
use calls_text::{NoMemory, Section, write_calls};
use recorded_jobs::{Moment, jobs_of_tasks};
use std::alloc::Global;
use tasks_text::Task;

/// From time 0 to the last moment, and at least 1.
fn ticks_from(start: u64, moments: &[Moment]) -> u64
    ensures { result ≡ max 1 (time_at_end moments.now - start) }
{
    let last = match moments.last() {
        Some(moment) => moment.time,
        None => 0,
    };
    last.saturating_sub(start).max(1)
}

/// The number of CPUs of the domain, where the tasks ran on these.
fn cpus_by(shape: &Shape, ran_on: &[u16]) -> usize
    ensures { result ≡ unwrap_or shape.now.cpus (length ran_on.now) }
{
    match shape.cpus {
        Some(cpus) => cpus as usize,
        None => ran_on.len(),
    }
}

/// The workload of a recording, whose moments are in the order of time and have the numbers of
/// these tasks: each task with a job is admitted under its number, from 1, with the script of its
/// jobs, and the domain goes on to the last moment.
///
/// # Errors
/// The first [`WorkloadFault`] that holds, in their order; [`WorkloadFault::Memory`] if a growth
/// was refused.
pub fn workload_of(
    alloc: Global,
    moments: &[Moment],
    tasks: &[Task],
    shape: &Shape,
) -> Result<Section, WorkloadFault>
    requires order { IsNonDecreasingBy (λ m. m.time) moments.now }
    requires tasks { IsTaskList tasks.now }
    requires shape { IsWorkloadShape shape.now }
    ensures found { IfOk result (λ s. s ≡ workload_of moments.now tasks.now shape.now) }
    ensures good { OnOk result (workload_refused moments.now tasks.now shape.now ≡ None) }
    // A text of it is read.
    ensures read { IfOk result (λ s. AreRead (s ∷ [])) }
    ensures fault { IfErr result (IsWorkloadFault moments.now tasks.now shape.now) }
    ensures named { IfErr result (NamesTask (length tasks.now)) }
{
    let found = jobs_of_tasks(alloc, moments, tasks.len())?;
    let cpus = cpus_by(shape, &found.cpus);
    let start = earliest(&found.jobs).unwrap_or(0);
    let ticks = ticks_from(start, moments);
    if let Some(fault) = refused_by(&found.jobs, cpus, ticks) {
        return Err(fault);
    }
    let mut entries = admits(alloc, start, tasks, &found.jobs)?;
    push_advances(&mut entries, ticks)?;
    Ok(Section {
        cpus: cpus as u32,
        limit: shape.limit,
        entries,
    })
}

/// The calls text of a workload, which `read_calls` reads as this section.
///
/// # Errors
/// A growth was refused.
pub fn workload_text(alloc: Global, section: Section) -> Result<Vec<u8>, NoMemory>
    requires { AreRead (section ∷ []) }
    ensures spelled { IfOk result (λ v. v.items ≡ spelling (section ∷ [])) }
    ensures back { IfOk result (λ v. IsReadAs v.items (section ∷ [])) }
{
    write_calls(alloc, &[section])
}
