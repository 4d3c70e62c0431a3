//! The runs of each task of the model, in the model's trace and in the recording.

ghost use Rattle.std.specs.Prelude.{◌≡◌, ◌<◌, ◌^◌, ℕ, length, reverse, All, IfOk, IfSome};
ghost use Rattle.std.specs.List.{list_all};
ghost use Rattle.trace_compare.specs.Runs.{runs_of, are_longer, noise_of, IsShort, InTurn};
ghost use Rattle.trace_compare.specs.Tasks.{AreSoundRuns, AreTasksOf, HaveSmallTimes, IsNoise};
ghost use Rattle.trace_compare.specs.private.Behind.{AreShortLists, AreRunsSettled};

use crate::collecting::collect;
use crate::run::Run;
use crate::runs::settled;
use crate::task::TaskRuns;
use recorded_text::Step;
use std::alloc::{AllocError, Global};

/// Where the model's shortest run is longer, this is the noise (own).
const NOISE: u64 = 100;

/// The runs of a task, given the last one first.
fn settle_task(alloc: Global, noise: u64, list: &[Run]) -> Result<Vec<Run>, AllocError>
    requires noise { noise < 2 ^ 62 }
    requires small { All IsShort list.now }
    ensures runs { IfOk result (λ v. v.items ≡ runs_of noise (reverse list.now)) }
    ensures turn { IfOk result (λ v. InTurn v.items) }
    ensures small { IfOk result (λ v. All IsShort v.items) }
{
    let mut raw = Vec::from_slice(alloc, list)?;
    raw.reverse();
    settled(alloc, noise, raw.as_slice())
}

/// The runs of a task in both traces, given the last one first.
fn settle_both(
    alloc: Global,
    noise: u64,
    model: &[Run],
    recorded: &[Run],
) -> Result<TaskRuns, AllocError>
    requires noise { noise < 2 ^ 62 }
    requires model { All IsShort model.now }
    requires recorded { All IsShort recorded.now }
    ensures model { IfOk result (λ t. t.model.items ≡ runs_of noise (reverse model.now)) }
    ensures recorded { IfOk result
        (λ t. t.recorded.items ≡ runs_of noise (reverse recorded.now)) }
    ensures sound { IfOk result AreSoundRuns }
{
    let model = settle_task(alloc, noise, model)?;
    let recorded = settle_task(alloc, noise, recorded)?;
    Ok(TaskRuns { model, recorded })
}

/// The runs of each task.
fn settle_all(
    alloc: Global,
    noise: u64,
    model: &[Vec<Run>],
    recorded: &[Vec<Run>],
) -> Result<Vec<TaskRuns>, AllocError>
    requires noise { noise < 2 ^ 62 }
    requires as_many { length model.now ≡ length recorded.now }
    requires model { AreShortLists model.now }
    requires recorded { AreShortLists recorded.now }
    ensures { IfOk result (λ v. AreRunsSettled noise model.now recorded.now
        (length model.now) v.items) }
{
    let mut tasks = Vec::new(alloc);
    for j in 0..model.len() {
        tasks.push(settle_both(alloc, noise, model[j].as_slice(), recorded[j].as_slice())?)?;
    }
    Ok(tasks)
}

/// Whether all of a task's runs are longer than the noise.
fn is_longer(runs: &[Run]) -> bool
    ensures { result ≡ are_longer 100 runs.now }
{
    runs.iter().all(|r| r.end.saturating_sub(r.start) > NOISE)
}

/// Whether all runs are longer than the noise.
fn all_longer(lists: &[Vec<Run>]) -> bool
    ensures { result ≡ list_all (λ rs. are_longer 100 rs.items) lists.now }
{
    lists.iter().all(|rs| is_longer(rs.as_slice()))
}

/// The noise that was asked for, or else 100 us where all runs are longer, else 0.
fn noise_for(asked: Option<u64>, lists: &[Vec<Run>]) -> u64
    requires { IfSome asked (λ n. n < 2 ^ 62) }
    ensures value { result ≡ noise_of asked (list_all (λ rs. are_longer 100 rs.items) lists.now) }
    ensures small { result < 2 ^ 62 }
{
    match asked {
        Some(noise) => noise,
        None => { if all_longer(lists) { NOISE } else { 0 } }
    }
}

/// The runs of the model's tasks in the model's trace and in the recording: those of a task that
/// are less than the noise apart are one, and those shorter than the noise are left out. A run of a
/// task is the stretch from a switch to it up to the next switch on that CPU; a last one with no
/// such end does not count. The tasks are the first so many numbers. If no noise is asked for, it
/// is 100 us where each of the model's runs is longer, else 0.
///
/// # Errors
/// Where a growth was refused.
pub fn runs_of_tasks(
    alloc: Global,
    asked: Option<u64>,
    model: &[Step],
    recorded: &[Step],
    tasks: usize,
) -> Result<Vec<TaskRuns>, AllocError>
    requires noise { IfSome asked (λ n. n < 2 ^ 62) }
    requires model { HaveSmallTimes model.now }
    requires recorded { HaveSmallTimes recorded.now }
    ensures tasks { IfOk result (λ v. (noise : ℕ) × IsNoise asked model.now tasks noise
        × AreTasksOf noise model.now recorded.now tasks v.items) }
    ensures sound { IfOk result (λ v. All AreSoundRuns v.items) }
{
    let of_model = collect(alloc, model, tasks)?;
    let of_recorded = collect(alloc, recorded, tasks)?;
    let noise = noise_for(asked, of_model.as_slice());
    let settled = settle_all(alloc, noise, of_model.as_slice(), of_recorded.as_slice())?;
    Ok(settled)
}
