//! The text of a workload, or the refusal of it.

ghost use Rattle.std.specs.Prelude.{◌≡◌, ◌<◌, length, IfOk, IfErr};
ghost use Rattle.std.specs.List.Sorted.{IsNonDecreasingBy};
ghost use Rattle.recorded_jobs.specs.Stretches.{is_switch};
ghost use Rattle.tasks_text.specs.Tasks.{IsTaskList};
ghost use Rattle.recorded_workload.specs.Refusals.{IsWorkloadShape, IsWorkloadFault, NamesTask};
ghost use Rattle.recording_import.specs.Import.{shape_of, has_switch};
ghost use Rattle.recording_import.specs.Answer.{task_name_at, fault_named};
ghost use Rattle.recording_import.specs.private.Met.{IsGrantedText};

use crate::fault::ImportFault;
use crate::options::ImportOptions;
use recorded_jobs::{Moment, What};
use recorded_workload::{Shape, WorkloadFault, workload_of, workload_text};
use std::alloc::Global;
use task_script::Name;
use tasks_text::Task;

fn is_switch(what: &What) -> bool
    ensures { result ≡ is_switch what.now }
{
    match what {
        What::Switch { .. } => true,
        What::Wake { .. } => false,
    }
}

/// Whether some switch counts.
pub(crate) fn has_switch(moments: &[Moment]) -> bool
    ensures { result ≡ has_switch moments.now }
{
    moments.iter().any(|m| is_switch(&m.what))
}

fn shape_of(options: &ImportOptions) -> Shape
    ensures { result ≡ shape_of options.now }
{
    Shape {
        cpus: options.cpus,
        limit: options.limit,
    }
}

/// The calls text of what counts of a recording for tasks.
pub(crate) fn text_of(
    alloc: Global,
    options: &ImportOptions,
    tasks: &[Task],
    moments: &[Moment],
) -> Result<Vec<u8>, WorkloadFault>
    requires order { IsNonDecreasingBy (λ m. m.time) moments.now }
    requires tasks { IsTaskList tasks.now }
    requires shape { IsWorkloadShape (shape_of options.now) }
    ensures text { IfOk result (λ v. IsGrantedText options.now tasks.now moments.now v.items) }
    ensures fault { IfErr result (IsWorkloadFault moments.now tasks.now (shape_of options.now)) }
    ensures named { IfErr result (NamesTask (length tasks.now)) }
{
    let section = match workload_of(alloc, moments, tasks, &shape_of(options)) {
        Ok(section) => section,
        Err(fault) => return Err(fault),
    };
    match workload_text(alloc, section) {
        Ok(text) => Ok(text),
        Err(_) => Err(WorkloadFault::Memory),
    }
}

/// The name of a task, by its number from 0.
fn task_name_at(tasks: Vec<Task>, n: usize) -> Name
    requires { n < length tasks.items }
    ensures { result ≡ task_name_at tasks.items n }
{
    let mut tasks = tasks;
    let Task { name, .. } = tasks.swap_remove(n);
    name
}

/// A refusal, as a fault of the import.
pub(crate) fn fault_named(tasks: Vec<Task>, refusal: WorkloadFault) -> ImportFault
    requires { NamesTask (length tasks.items) refusal }
    ensures { result ≡ fault_named tasks.items refusal }
{
    match refusal {
        WorkloadFault::NoTask => ImportFault::NoTask,
        WorkloadFault::ManyJobs { task, jobs } => ImportFault::ManyJobs {
            name: task_name_at(tasks, task),
            jobs,
        },
        WorkloadFault::LongSleep { task } => ImportFault::LongSleep {
            name: task_name_at(tasks, task),
        },
        WorkloadFault::ManyCpus { cpus } => ImportFault::ManyCpus { cpus },
        WorkloadFault::LongRecording => ImportFault::LongRecording,
        WorkloadFault::Memory => ImportFault::Memory,
    }
}
