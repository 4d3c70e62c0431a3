//! The jobs of a task, in few bytes each.

ghost use Rattle.std.specs.Prelude.{◌≡◌, ◌<◌, ◌^◌, [], ◌∷◌, ◌++◌, length, All, MatchOption, OnErr, OnOk};
ghost use Rattle.run_figures.specs.WideJobs.{IsWide};

use crate::job::Job;
use crate::job_codes::{Before, before_of, code_of, no_job, parts_of, read_job};
use domain_run::NoMemory;
use packed_numbers::{NumbersLeft, PackedNumbers};
use std::alloc::Global;
use std::marker::Model;

/// The jobs of a task, in their order: the first is job 0. A job usually takes 5 to 8 bytes.
/// Contracts see the task's number and its jobs.
#[derive(Drop)]
pub struct KeptJobs {
    number: u32,
    numbers: PackedNumbers,
    last: Before,
    count: u64,
}

impl Model for KeptJobs {
    ghost use Rattle.run_figures.specs.TaskJobsView.{TaskJobsView};
    ghost use Rattle.run_figures.specs.private.JobCodes.{jobs_coded, no_job, AreCodesKept};

    ghost Value = { TaskJobsView };

    ghost view = { λ k. record { number = k.number; jobs = jobs_coded no_job k.numbers } };

    ghost invariant = { λ k. AreCodesKept k.numbers k.last k.count };
}

impl KeptJobs {
    /// No job yet, of the task with this number. Takes no memory.
    pub fn new(alloc: Global, number: u32) -> KeptJobs
        ensures { result ≡ record { number = number; jobs = [] } }
    {
        KeptJobs {
            number,
            numbers: PackedNumbers::new(alloc),
            last: no_job(),
            count: 0,
        }
    }

    /// Appends a job.
    ///
    /// # Errors
    /// 12 [`NoMemory`]: a growth was refused; the jobs are as they were.
    pub fn push(&mut self, job: Job) -> Result<(), NoMemory>
        ensures ok { OnOk result (self.new ≡ record self.old { jobs = self.old.jobs ++ job ∷ [] }) }
        ensures err { OnErr result (self.new ≡ self.old) }
    {
        let code = code_of(&parts_of(self.last, &job));
        self.numbers.push_all(code.as_slice())?;
        self.last = before_of(&job);
        // For the prover alone: the numbers are fewer than 2^64, and so are the jobs.
        let _ = self.numbers.left();
        self.count += 1;
        Ok(())
    }

    /// The task's number.
    pub fn number(&self) -> u32
        ensures { result ≡ self.now.number }
    {
        self.number
    }

    /// How many jobs there are. Each number of a job has 64 bits.
    pub fn count(&self) -> u64
        ensures count { result ≡ length self.now.jobs }
        ensures wide { All IsWide self.now.jobs }
    {
        self.count
    }

    /// The jobs, to be read from the first one on.
    pub fn left(&self) -> JobsLeft<'_>
        ensures jobs { result ≡ self.now.jobs }
        ensures countable { length result < 2 ^ 64 }
    {
        JobsLeft {
            numbers: self.numbers.left(),
            before: no_job(),
        }
    }
}

/// The jobs of a [`KeptJobs`] that are left to be read. Contracts see them as a list.
#[derive(Drop)]
pub struct JobsLeft<'a> {
    numbers: NumbersLeft<'a>,
    before: Before,
}

impl<'a> Model for JobsLeft<'a> {
    ghost use Rattle.std.specs.Prelude.{List};
    ghost use Rattle.run_figures.specs.declared.job.Job.{Job};
    ghost use Rattle.run_figures.specs.private.JobCodes.{jobs_coded, AreCodes};

    ghost Value = { List Job };

    ghost view = { λ l. jobs_coded l.before l.numbers };

    ghost invariant = { λ l. AreCodes l.before l.numbers };
}

impl<'a> JobsLeft<'a> {
    /// The next job; none after the last.
    pub fn next(&mut self) -> Option<Job>
        ensures { MatchOption result ((self.old ≡ []) × (self.new ≡ []))
            (λ j. self.old ≡ j ∷ self.new) }
    {
        match self.numbers.next() {
            None => None,
            Some(marks) => {
                let job = read_job(self.before, marks, &mut self.numbers);
                self.before = before_of(&job);
                Some(job)
            }
        }
    }
}
