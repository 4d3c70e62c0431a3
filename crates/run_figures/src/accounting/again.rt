//! Periods that are counted without being streamed.

ghost use Rattle.std.specs.Prelude.{◌≡◌, false, List, IsTrue, IfOk, vec_capacity};
ghost use Rattle.run_figures.specs.Accounting.{with_piece};
ghost use Rattle.run_figures.specs.Again.{IsPeriodSince, more_switches, more_logged};
ghost use Rattle.run_figures.specs.private.Keeping as keeping;
ghost use Rattle.domain_run.specs.declared.happened.Happened.{Happened};
ghost use Rattle.domain_run.specs.Switch.{Switch};

use super::{Accounting, Streamed};
use crate::growing::{
    all_cpus_back, all_logged_back, all_ran_back, grow_all_cpus, grow_all_logged, grow_all_ran,
};
use crate::logged::TaskTally;
use crate::places::Places;
use crate::ran::{Cpu, Ran, Tables};
use domain_run::NoMemory;
use std::alloc::Global;
use std::marker::Model;
use std::snapshot::Snapshot;

/// What an accounting had counted at a time. Contracts see what it had streamed then; memory has
/// its counts alone.
#[derive(Drop)]
pub struct CountsMark {
    of: Snapshot<Accounting>,
    // How many happenings and switches it had streamed.
    happened: u64,
    switches: u64,
    logged: Vec<TaskTally>,
    ran: Vec<Ran>,
    cpus: Vec<Cpu>,
}

impl Model for CountsMark {
    ghost use Rattle.run_figures.specs.Accounting.{AccountingView};
    ghost use Rattle.run_figures.specs.private.Keeping.{IsAccountingKept, IsMarkCounted};

    ghost Value = { AccountingView };

    ghost view = { λ m. m.of.value };

    ghost invariant = { λ m. IsAccountingKept m.of.value m.logged.items m.ran.items m.cpus.items
        × IsMarkCounted m.of.value m.happened m.switches };
}

/// Counts `periods` periods more in the tables of what was streamed. False, with nothing changed,
/// if they have not come back.
fn count_again(
    logged: &mut Vec<TaskTally>,
    ran: &mut Tables,
    places: &Places,
    streamed: &Streamed,
    mark: &CountsMark,
    micros: u64,
    periods: u64,
) -> bool
    requires kept { keeping.IsAccountingKept (keeping.accounting_view_of streamed.now places.now)
        logged.old.items ran.old.tasks.items ran.old.cpus.items }
    requires run { keeping.IsOfRun (keeping.accounting_view_of streamed.now places.now) }
    requires period { IsPeriodSince micros periods mark.now
        (keeping.accounting_view_of streamed.now places.now) }
    ensures kept { IsTrue result → (hs : List Happened) (ss : List Switch)
        → keeping.accounting_view_of streamed.now places.now ≡ with_piece mark.now hs ss
        → keeping.IsAccountingKept (with_piece (keeping.accounting_view_of streamed.now places.now)
        (more_logged micros periods hs) (more_switches micros periods ss))
        logged.new.items ran.new.tasks.items ran.new.cpus.items }
    ensures same_logged { result ≡ false → logged.new ≡ logged.old }
    ensures same_ran { result ≡ false → ran.new ≡ ran.old }
    ensures same_logged_room { vec_capacity logged.new ≡ vec_capacity logged.old }
    ensures same_tasks_room { vec_capacity ran.new.tasks ≡ vec_capacity ran.old.tasks }
    ensures same_cpus_room { vec_capacity ran.new.cpus ≡ vec_capacity ran.old.cpus }
{
    let Some(shift) = periods.checked_mul(micros) else {
        return false;
    };
    if !all_logged_back(&mark.logged, logged, micros, shift)
        || !all_ran_back(&mark.ran, &ran.tasks)
        || !all_cpus_back(&mark.cpus, &ran.cpus)
    {
        return false;
    }
    grow_all_logged(logged, &mark.logged, periods, shift);
    grow_all_ran(&mut ran.tasks, &mark.ran, periods);
    grow_all_cpus(&mut ran.cpus, &mark.cpus, periods);
    true
}

impl Accounting {
    /// Keeps what is counted so far, so that a period can be counted again once it was streamed.
    ///
    /// # Errors
    /// 12 [`NoMemory`]: a growth was refused; nothing is left.
    pub fn keep_counts(&self, alloc: Global) -> Result<CountsMark, NoMemory>
        ensures { IfOk result (λ m. m ≡ self.now) }
    {
        Ok(CountsMark {
            of: Snapshot::of(self),
            happened: self.streamed.happened.count,
            switches: self.streamed.switches.count,
            logged: self.logged.to_vec(alloc)?,
            ran: self.ran.tasks.to_vec(alloc)?,
            cpus: self.ran.cpus.to_vec(alloc)?,
        })
    }

    /// Counts `periods` periods more without hearing them. What was streamed since the mark is one
    /// period of `micros` microseconds; each of the others has the same, a period later than the
    /// one before it. The call takes no memory, and its time depends on the numbers of tasks and
    /// CPUs alone.
    ///
    /// False, with nothing changed, if a task or a CPU is not what it was at the mark, `micros`
    /// microseconds later, in all but its counts: the job that is under way, the throttle and the
    /// last CPU of a task, and the task of a CPU. False too if the next job of a task was released
    /// in this period while one was under way, since whether that one is late depends on the end
    /// of the run, if a time passes 2^64, and if the jobs are kept.
    pub fn stream_again(&mut self, mark: &CountsMark, micros: u64, periods: u64) -> bool
        requires period { IsPeriodSince micros periods mark.now self.old }
        ensures made { IsTrue result → (logged : List Happened) (switches : List Switch)
            → self.old ≡ with_piece mark.now logged switches
            → self.new ≡ with_piece self.old (more_logged micros periods logged)
            (more_switches micros periods switches) }
        ensures unchanged { result ≡ false → self.new ≡ self.old }
    {
        if self.lines.is_some() {
            return false;
        }
        if !count_again(
            &mut self.logged,
            &mut self.ran,
            &self.places,
            &self.streamed,
            mark,
            micros,
            periods,
        ) {
            return false;
        }
        self.streamed
            .happened
            .give_again(mark.happened, micros, periods);
        self.streamed
            .switches
            .give_again(mark.switches, micros, periods);
        true
    }
}
