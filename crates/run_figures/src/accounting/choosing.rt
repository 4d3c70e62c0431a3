//! The figures of some of the tasks of a run that was streamed.

ghost use Rattle.std.specs.Prelude.{ℕ, ◌≡◌, ◌-◌, ◌^◌, IfOk, All, Contains, length, map};
ghost use Rattle.run_figures.specs.declared.logged.TaskTally.{TaskTally as LoggedView};
ghost use Rattle.run_figures.specs.declared.ran.Ran.{Ran as RanView};
ghost use Rattle.run_figures.specs.Accounting.{streamed_run};
ghost use Rattle.run_figures.specs.Figures as figures;
ghost use Rattle.run_figures.specs.Laws as laws;
ghost use Rattle.run_figures.specs.Runs.{AreTasks};
ghost use Rattle.run_figures.specs.private.Putting as putting;
ghost use Rattle.run_figures.specs.private.Logging as logging;

use super::Accounting;
use crate::figures::{Summary, TaskFigures};
use crate::logged::TaskTally;
use crate::places::Places;
use crate::ran::Ran;
use crate::run::Admitted;
use crate::summary::{cpu_figures, figures_of};
use domain_run::NoMemory;
use std::alloc::Global;

/// The figures of these tasks, each from its place in the tables, if the run ends at this time.
fn some_figures(
    alloc: Global,
    tasks: &[Admitted],
    places: &Places,
    logged: &[TaskTally],
    ran: &[Ran],
    end: u64,
) -> Result<Vec<TaskFigures>, NoMemory>
    requires among { All (λ t. Contains places.now t.number) tasks.now }
    requires logged { length logged.now ≡ length places.now }
    requires ran { length ran.now ≡ length places.now }
    requires room { All (logging.IsLoggedWithin (2 ^ 64 - 2)) logged.now }
    ensures { (f : ℕ → LoggedView) (g : ℕ → RanView) → logged.now ≡ map f places.now
        → ran.now ≡ map g places.now → IfOk result (λ v. v.items
        ≡ map (λ t. putting.put_task end t (f t.number) (g t.number)) tasks.now) }
{
    let mut all = Vec::with_capacity(alloc, tasks.len())?;
    for task in tasks {
        if let Some(place) = places.find(task.number) {
            all.push(figures_of(task, &logged[place], &ran[place], end))?;
        }
    }
    Ok(all)
}

impl Accounting {
    /// As [`Accounting::summary`], of some of the tasks of the run, in the order in which they are
    /// given here. So an accounting may be opened before it is known which tasks will be admitted.
    ///
    /// # Errors
    /// 12 [`NoMemory`]: a growth was refused; nothing is left of the summary.
    pub fn summary_of_some(&self, alloc: Global, tasks: &[Admitted]) -> Result<Summary, NoMemory>
        requires tasks { AreTasks tasks.now }
        requires among { All (λ t. Contains self.now.tasks t.number) tasks.now }
        ensures tasks { IfOk result (λ s. s.tasks.items
            ≡ figures.task_figures (streamed_run self.now tasks.now)) }
        ensures cpus { IfOk result (λ s. s.cpus.items
            ≡ figures.cpu_figures (streamed_run self.now tasks.now)) }
        ensures short { IfOk result (λ s. laws.AreShort s.tasks.items s.cpus.items) }
    {
        Ok(Summary {
            tasks: some_figures(
                alloc,
                tasks,
                &self.places,
                &self.logged,
                &self.ran.tasks,
                self.streamed.time,
            )?,
            cpus: cpu_figures(alloc, &self.ran.cpus)?,
        })
    }
}
