//! The runs of all tasks, collected from the last switch to the first.

ghost use Rattle.std.specs.Prelude.{◌≡◌, ◌<◌, List, [], ◌∷◌, vec_len, All, IfOk, OnOk, None};
ghost use Rattle.trace_compare.specs.Runs.{run_until};
ghost use Rattle.trace_compare.specs.private.Behind.{AreRunsBehind, PushesOne, TakesStep, IsCollected};

use crate::run::Run;
use recorded_text::Step;
use std::alloc::{AllocError, Global};

/// How many CPUs a machine may have: their numbers have 16 bits.
const CPUS: usize = 65536;

/// Adds a run of a task behind the others.
fn push_run(runs: &mut Vec<Vec<Run>>, task: usize, run: Run) -> Result<(), AllocError>
    requires { task < vec_len runs.old }
    ensures { OnOk result (PushesOne runs.old.items task run runs.new.items) }
{
    runs[task].push(run)?;
    Ok(())
}

/// The run from a switch to the next one on its CPU.
fn run_to(step: &Step, time: u64) -> Run
    ensures { result ≡ run_until step.now time }
{
    Run {
        start: step.time,
        end: step.time.max(time),
        cpu: step.cpu,
    }
}

/// Adds the run that begins with a switch, where it is to a task and another switch comes after it.
fn take_run_at(step: &Step, time: Option<u64>, runs: &mut Vec<Vec<Run>>) -> Result<(), AllocError>
    ensures { OnOk result (TakesStep runs.old.items step.now time runs.new.items) }
{
    match step.task {
        None => Ok(()),
        Some(task) => match time {
            None => Ok(()),
            Some(time) => {
                if task >= runs.len() {
                    return Ok(());
                }
                push_run(runs, task, run_to(step, time))
            }
        },
    }
}

/// Takes the switch before those that were taken.
fn take_step(
    step: &Step,
    next: &mut Vec<Option<u64>>,
    runs: &mut Vec<Vec<Run>>,
) -> Result<(), AllocError>
    requires { vec_len next.old ≡ 65536 }
    ensures behind { OnOk result ((rest : List Step) →
        AreRunsBehind next.old.items runs.old.items rest
        → AreRunsBehind next.new.items runs.new.items (step.now ∷ rest)) }
    ensures many { vec_len next.new ≡ 65536 }
    ensures tasks { OnOk result (vec_len runs.new ≡ vec_len runs.old) }
{
    let cpu = usize::from(step.cpu);
    take_run_at(step, next[cpu], runs)?;
    next[cpu] = Some(step.time);
    Ok(())
}

/// No time for each CPU.
fn no_times(alloc: Global) -> Result<Vec<Option<u64>>, AllocError>
    ensures many { IfOk result (λ v. vec_len v ≡ 65536) }
    ensures none { IfOk result (λ v. All (λ t. t ≡ None) v.items) }
{
    let mut times = Vec::new(alloc);
    for _ in 0..CPUS {
        times.push(None)?;
    }
    Ok(times)
}

/// A list of runs for each task, empty.
fn no_runs(alloc: Global, tasks: usize) -> Result<Vec<Vec<Run>>, AllocError>
    ensures many { IfOk result (λ v. vec_len v ≡ tasks) }
    ensures none { IfOk result (λ v. All (λ rs. rs.items ≡ []) v.items) }
{
    let mut runs = Vec::new(alloc);
    for _ in 0..tasks {
        runs.push(Vec::new(alloc))?;
    }
    Ok(runs)
}

/// The runs of each task, the last first: from each switch to it up to the next one on that CPU.
pub(crate) fn collect(
    alloc: Global,
    steps: &[Step],
    tasks: usize,
) -> Result<Vec<Vec<Run>>, AllocError>
    ensures { IfOk result (λ v. IsCollected v.items tasks steps.now) }
{
    let mut next = no_times(alloc)?;
    let mut runs = no_runs(alloc, tasks)?;
    let mut i = steps.len();
    while i > 0 {
        i -= 1;
        take_step(&steps[i], &mut next, &mut runs)?;
    }
    Ok(runs)
}
