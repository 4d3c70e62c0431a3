//! The calls of a workload, one after the other.

ghost use Rattle.std.specs.Prelude.{◌≡◌, ◌<◌, ◌≤◌, ◌++◌, ◌∷◌, [], map, length, true, None, IfOk, IfErr, OnOk};
ghost use Rattle.recorded_workload.specs.Workload.{admit_of, admits_from, last_advance, advances, workload_entry, numbered_from};
ghost use Rattle.recorded_workload.specs.Refusals.{fits_script, long_from};

use crate::fault::WorkloadFault;
use crate::jobs::first_release;
use calls_text::{Call, Entry, NoMemory};
use recorded_jobs::Release;
use recorded_scripts::script_of;
use std::alloc::Global;
use task_script::Name;
use tasks_text::Task;

/// The most microseconds of one advance.
const MOST_ADVANCE: u64 = 60_000_000;

fn copy_of_name(alloc: Global, name: &Name) -> Result<Name, NoMemory>
    ensures { IfOk result (λ n. n ≡ name.now) }
{
    let text = String::from_str(alloc, name.as_str())?;
    match Name::new(text) {
        Ok(name) => Ok(name),
        Err(_) => unreachable!(),
    }
}

/// Adds a call of client 1, under the number of its calls before.
fn push_call(entries: &mut Vec<Entry>, call: Call) -> Result<(), WorkloadFault>
    ensures added { OnOk result (entries.new.items
        ≡ entries.old.items ++ workload_entry (length entries.old.items) call ∷ []) }
    ensures fault { IfErr result (λ e. e ≡ WorkloadFault.Memory) }
{
    let seq = entries.len() as u64;
    entries.push(Entry {
        client: 1,
        seq,
        call,
        reply: None,
    })?;
    Ok(())
}

/// Adds the admission of a task, if it has a job.
#[tactic(auto, unfolding(crate::specs::Workload::numbered_from))]
fn push_admit(
    alloc: Global,
    entries: &mut Vec<Entry>,
    start: u64,
    n: usize,
    task: &Task,
    jobs: &[Release],
) -> Result<(), WorkloadFault>
    requires number { n < 65535 }
    requires short { fits_script start jobs.now ≡ true }
    ensures added { OnOk result (entries.new.items ≡ entries.old.items
        ++ numbered_from (length entries.old.items) (admit_of start n task.now jobs.now)) }
    ensures fault { IfErr result (λ e. e ≡ WorkloadFault.Memory) }
{
    let [_, ..] = jobs else {
        return Ok(());
    };
    let name = copy_of_name(alloc, &task.name)?;
    let script = script_of(alloc, jobs)?;
    push_call(
        entries,
        Call::Admit {
            number: (n + 1) as u32,
            name,
            params: task.params,
            delay: first_release(jobs).saturating_sub(start),
            script,
        },
    )?;
    Ok(())
}

/// The admissions of the tasks that have jobs.
pub(crate) fn admits(
    alloc: Global,
    start: u64,
    tasks: &[Task],
    jobs: &[Vec<Release>],
) -> Result<Vec<Entry>, WorkloadFault>
    requires few { length tasks.now ≤ 256 }
    requires same { length jobs.now ≡ length tasks.now }
    requires short { long_from start 0 (map (λ v. v.items) jobs.now) ≡ None }
    ensures found { IfOk result (λ v. v.items
        ≡ numbered_from 0 (admits_from start 0 tasks.now (map (λ u. u.items) jobs.now))) }
    ensures fault { IfErr result (λ e. e ≡ WorkloadFault.Memory) }
{
    let mut entries = Vec::new(alloc);
    for n in 0..tasks.len() {
        push_admit(alloc, &mut entries, start, n, &tasks[n], &jobs[n])?;
    }
    Ok(entries)
}

/// Adds an advance by so many microseconds, unless they are none.
#[tactic(auto, unfolding(crate::specs::Workload::numbered_from))]
fn push_last(entries: &mut Vec<Entry>, ticks: u64) -> Result<(), WorkloadFault>
    ensures added { OnOk result (entries.new.items ≡ entries.old.items
        ++ numbered_from (length entries.old.items) (last_advance ticks)) }
    ensures fault { IfErr result (λ e. e ≡ WorkloadFault.Memory) }
{
    if ticks == 0 {
        return Ok(());
    }
    push_call(entries, Call::Advance { ticks })?;
    Ok(())
}

/// Adds advances by so many microseconds together.
pub(crate) fn push_advances(entries: &mut Vec<Entry>, ticks: u64) -> Result<(), WorkloadFault>
    ensures added { OnOk result (entries.new.items ≡ entries.old.items
        ++ numbered_from (length entries.old.items) (advances ticks)) }
    ensures fault { IfErr result (λ e. e ≡ WorkloadFault.Memory) }
{
    for _ in 0..ticks / MOST_ADVANCE {
        push_call(
            entries,
            Call::Advance {
                ticks: MOST_ADVANCE,
            },
        )?;
    }
    push_last(entries, ticks % MOST_ADVANCE)?;
    Ok(())
}
