//! The figures of a run, put together.

ghost use Rattle.std.specs.Prelude.{◌≡◌, ◌<◌, ◌-◌, ◌^◌, IfOk, All, map, length};
ghost use Rattle.run_figures.specs.private.Logging as logging;
ghost use Rattle.run_figures.specs.private.Putting as putting;

use crate::counting::{Counts, Ended, add_job};
use crate::figures::{CpuFigures, Responses, TaskFigures};
use crate::logged::TaskTally;
use crate::ran::{Cpu, Ran};
use crate::run::Admitted;
use crate::throttle::us_up_to;
use domain_run::NoMemory;
use std::alloc::Global;

fn responses_of(ended: &Ended) -> Responses
    requires { 0 < ended.now.count }
    ensures { result ≡ putting.responses_by ended.now }
{
    Responses {
        least: ended.least,
        mean: ended.total / u128::from(ended.count),
        most: ended.most,
        slack: ended.slack,
    }
}

/// The jobs that are over, and the one under way, where the run ends at this time.
fn all_counts(logged: &TaskTally, end: u64) -> Counts
    requires room { logging.IsLoggedWithin (2 ^ 64 - 2) logged.now }
    ensures { result ≡ logging.with_over end logged.now.counts logged.now.job }
{
    let mut counts = logged.counts;
    if let Some(job) = &logged.job {
        add_job(&mut counts, job, end);
    }
    counts
}

/// The figures of a task, where the run ends at this time.
pub(crate) fn figures_of(task: &Admitted, logged: &TaskTally, ran: &Ran, end: u64) -> TaskFigures
    requires room { logging.IsLoggedWithin (2 ^ 64 - 2) logged.now }
    ensures { result ≡ putting.put_task end task.now logged.now ran.now }
{
    let counts = all_counts(logged, end);
    let (jobs, responses) = match counts.ended {
        None => (0, None),
        Some(ended) => (ended.count, Some(responses_of(&ended))),
    };
    TaskFigures {
        number: task.number,
        runtime: task.runtime,
        period: task.period,
        jobs,
        late: counts.late,
        responses,
        throttled: logged.throttle.times,
        throttled_us: us_up_to(&logged.throttle, end),
        preempted: logged.preempted,
        migrated: ran.migrated,
        cpu_us: ran.cpu_us,
    }
}

pub(crate) fn all_figures(
    alloc: Global,
    tasks: &[Admitted],
    logged: &[TaskTally],
    ran: &[Ran],
    end: u64,
) -> Result<Vec<TaskFigures>, NoMemory>
    requires logged { length logged.now ≡ length tasks.now }
    requires ran { length ran.now ≡ length tasks.now }
    requires room { All (logging.IsLoggedWithin (2 ^ 64 - 2)) logged.now }
    ensures { IfOk result (λ v. v.items ≡ putting.put_all end tasks.now logged.now ran.now) }
{
    let mut all = Vec::with_capacity(alloc, tasks.len())?;
    for (place, task) in tasks.iter().enumerate() {
        all.push(figures_of(task, &logged[place], &ran[place], end))?;
    }
    Ok(all)
}

pub(crate) fn cpu_figures(alloc: Global, cpus: &[Cpu]) -> Result<Vec<CpuFigures>, NoMemory>
    ensures { IfOk result (λ v. v.items ≡ map putting.put_cpu cpus.now) }
{
    match cpus
        .iter()
        .map(|cpu| CpuFigures {
            busy_us: cpu.busy_us,
            switches: cpu.switches,
        })
        .collect(alloc)
    {
        Ok(figures) => Ok(figures),
        Err(_) => Err(NoMemory),
    }
}
