//! The jobs of a run that was streamed.

ghost use Rattle.std.specs.Prelude.{◌≡◌, IfOk, All, Contains, map};
ghost use Rattle.run_figures.specs.Jobs as jobs;
ghost use Rattle.run_figures.specs.Laws as laws;
ghost use Rattle.run_figures.specs.Runs.{AreTasks};

use super::Accounting;
use crate::kept_jobs::KeptJobs;
use crate::lines::closed_lines;
use crate::run::Admitted;
use domain_run::NoMemory;
use std::alloc::Global;

impl Accounting {
    /// The jobs of these tasks of the run that was streamed, in the order in which they are given
    /// here: those that are over, and the one that is under way at the end. From then on the
    /// accounting keeps no jobs.
    ///
    /// # Errors
    /// 12 [`NoMemory`]: a growth was refused, now or while a piece was streamed, or the accounting
    /// keeps no jobs. Nothing is left of them.
    pub fn take_jobs(
        &mut self,
        alloc: Global,
        tasks: &[Admitted],
    ) -> Result<Vec<KeptJobs>, NoMemory>
        requires tasks { AreTasks tasks.now }
        requires among { All (λ t. Contains self.old.tasks t.number) tasks.now }
        ensures jobs { IfOk result (λ v. v.items
            ≡ map (λ t. jobs.task_jobs self.old.happened t.number) tasks.now) }
        ensures released { IfOk result (λ v. All (laws.AreReleased self.old.happened) v.items) }
        ensures same { self.new ≡ self.old }
    {
        let Some(mut table) = self.lines.take() else {
            return Err(NoMemory);
        };
        closed_lines(alloc, tasks, &self.places, &mut table)
    }
}
