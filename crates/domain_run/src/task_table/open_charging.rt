//! The open charge of each CPU: nobody is charged by it, as callers see it.

ghost use Rattle.std.specs.Prelude.{◌≡◌, ◌≢◌, ◌<◌, ◌≤◌, ◌^◌, ℕ, All, IfSome, IsSomeAnd, None, Some, length, slice_index_or, slice_set};
ghost use Rattle.std.specs.Int.{bit_at};
ghost use Rattle.attr_check.specs.Ratio.{cap};
ghost use Rattle.domain_run.specs.Domain.{IsLimit};
ghost use Rattle.domain_run.specs.Tick.{sum_of};
ghost use Rattle.domain_run.specs.private.Index.{IsListedAt};
ghost use Rattle.domain_run.specs.private.StaleCharges.{IsSettled};
ghost use Rattle.domain_run.specs.private.TaskTable.{rate_in, basis_in, HasItsCharge};
ghost use Rattle.due_times.specs.OpenCharges.{IsAhead, IsOn};
ghost use Rattle.domain_run.specs.private.Owed as spec;

use super::TaskTable;
use crate::task::Task;
use crate::task_table::starting;
use due_times::{Basis, Claim, OpenCharge};

impl TaskTable {
    /// As `vacate`, where it is known whose charge is open there, and at which place of the list
    /// that task is.
    #[inline(always)]
    pub(super) fn vacate_at(&mut self, cpu: usize, place: usize, open_charge: OpenCharge)
        requires there { cpu < self.old.cpus }
        requires is_charging { slice_index_or self.old.charges cpu None ≡ Some open_charge }
        requires at { IsListedAt self.old.tasks open_charge.number place }
        requires ahead { IsAhead self.old.clock open_charge }
        ensures { self.new ≡ record self.old { charges = slice_set self.old.charges cpu None } }
    {
        starting::vacate_place(&mut self.tasks, &mut self.charges, cpu, place, open_charge);
        self.stale.mark(cpu);
    }

    /// The open charge of a CPU ends, and its task is charged.
    #[inline(always)]
    pub(crate) fn vacate(&mut self, cpu: usize)
        requires { cpu < self.old.cpus }
        ensures { self.new ≡ record self.old { charges = slice_set self.old.charges cpu None } }
    {
        starting::vacate_on(&mut self.tasks, &mut self.charges, &self.index, cpu);
        self.stale.mark(cpu);
    }

    /// As `vacate`: mostly there is no open charge.
    #[inline(always)]
    pub(crate) fn leave_free(&mut self, cpu: usize)
        requires { cpu < self.old.cpus }
        ensures { self.new ≡ record self.old { charges = slice_set self.old.charges cpu None } }
    {
        if !self.charges.is_free(cpu) {
            self.vacate(cpu);
        }
    }

    /// The task at a place, which runs on a CPU without an open charge and belongs to it, has an
    /// open charge there at its rate.
    #[inline(always)]
    fn occupy(&mut self, cpu: usize, place: usize, limit: u64)
        requires there { cpu < self.old.cpus }
        requires cpus { (0 < self.old.cpus) × (self.old.cpus ≤ 64) }
        requires limit { IsLimit limit }
        requires within { sum_of self.old.tasks ≤ cap self.old.cpus limit }
        requires at { place < length self.old.tasks }
        requires free { slice_index_or self.old.charges cpu None ≡ None }
        requires home { (d : Task) → (slice_index_or self.old.tasks place d).cpu ≡ cpu }
        requires may { (d : Task) → spec.MayStart (slice_index_or self.old.tasks place d) }
        requires is_on_cpu { (d : Task) → slice_index_or self.old.places cpu None
            ≡ Some (slice_index_or self.old.tasks place d).number }
        ensures cpus { self.new.cpus ≡ self.old.cpus }
        ensures places { self.new.places ≡ self.old.places }
        ensures clock { self.new.clock ≡ self.old.clock }
        ensures tasks { self.new.tasks ≡ self.old.tasks }
        ensures others { (d : ℕ) → d ≢ cpu
            → slice_index_or self.new.charges d None ≡ slice_index_or self.old.charges d None }
        ensures right { All (λ t. t.cpu ≡ cpu
            → spec.IsRight (slice_index_or self.old.places cpu None) t.number
            (rate_in self.old.cpus limit self.old.tasks t) (spec.charge_of_task self.new.charges t))
            self.new.tasks }
    {
        starting::start_charge_at(
            &self.tasks,
            &self.queue.accounts,
            &mut self.charges,
            &mut self.stale,
            place,
            cpu,
            limit,
        );
    }

    /// The task with an open charge on a CPU, the task at a place, is charged, and goes on there by
    /// the claim that it has now, at its rate.
    #[inline(always)]
    fn go_on(&mut self, cpu: usize, place: usize, open_charge: OpenCharge, claim: Claim, limit: u64)
        requires there { cpu < self.old.cpus }
        requires cpus { (0 < self.old.cpus) × (self.old.cpus ≤ 64) }
        requires limit { IsLimit limit }
        requires within { sum_of self.old.tasks ≤ cap self.old.cpus limit }
        requires at { IsListedAt self.old.tasks open_charge.number place }
        requires is_charging { slice_index_or self.old.charges cpu None ≡ Some open_charge }
        requires ahead { IsAhead self.old.clock open_charge }
        requires kept { IsSomeAnd open_charge.claim (λ k. k.bw ≡ claim.bw) }
        requires on { IsOn (basis_in self.old.cpus limit self.old.tasks cpu) claim }
        requires home { (d : Task) → (slice_index_or self.old.tasks place d).cpu ≡ cpu }
        requires may { (d : Task) → spec.MayStart (slice_index_or self.old.tasks place d) }
        requires is_on_cpu { slice_index_or self.old.places cpu None ≡ Some open_charge.number }
        ensures cpus { self.new.cpus ≡ self.old.cpus }
        ensures places { self.new.places ≡ self.old.places }
        ensures clock { self.new.clock ≡ self.old.clock }
        ensures tasks { self.new.tasks ≡ self.old.tasks }
        ensures others { (d : ℕ) → d ≢ cpu
            → slice_index_or self.new.charges d None ≡ slice_index_or self.old.charges d None }
        ensures right { All (λ t. t.cpu ≡ cpu
            → spec.IsRight (slice_index_or self.old.places cpu None) t.number
            (rate_in self.old.cpus limit self.old.tasks t) (spec.charge_of_task self.new.charges t))
            self.new.tasks }
    {
        starting::go_on(
            &mut self.tasks,
            &mut self.charges,
            place,
            cpu,
            open_charge,
            claim,
        );
        self.stale
            .clear_for(cpu, true, self.queue.accounts.total(), limit);
    }

    /// What the rates of the tasks of a CPU depend on now.
    #[inline(always)]
    fn basis(&self, cpu: usize, limit: u64) -> Basis
        requires there { cpu < self.now.cpus }
        ensures { result ≡ basis_in self.now.cpus limit self.now.tasks cpu }
    {
        starting::basis_of(&self.queue.accounts, cpu, limit)
    }

    /// Marks of the CPUs that are stale: on each other one the task that runs there, if one does,
    /// has an open charge there at its rate, and no other task has one.
    #[inline(always)]
    pub(crate) fn stale_there(&mut self, limit: u64) -> u64
        requires cpus { (0 < self.old.cpus) × (self.old.cpus ≤ 64) }
        ensures task_table { self.new ≡ self.old }
        ensures others { All (λ t. bit_at result t.cpu ≡ 0
            → HasItsCharge self.old.places self.old.cpus limit self.old.tasks self.old.charges t)
            self.old.tasks }
    {
        let sum = self.sum();
        let cpus = self.queue.accounts.cpus() as u64;
        self.stale.renew(sum, cpus, limit);
        self.stale.cpus
    }

    /// A CPU, where the running task has the right open charge, is stale no more. Where the rate
    /// can change that is so only if what it was looked at for is noted.
    #[inline(always)]
    fn keep_fresh(&mut self, cpu: usize, limit: u64)
        requires there { cpu < self.old.cpus }
        requires few { cpu < 64 }
        requires settled { IsSettled (slice_index_or self.old.places cpu None)
            (basis_in self.old.cpus limit self.old.tasks cpu)
            (slice_index_or self.old.charges cpu None) }
        ensures task_table { self.new ≡ self.old }
        ensures right { All (λ t. t.cpu ≡ cpu
            → spec.IsRight (slice_index_or self.old.places cpu None) t.number
            (rate_in self.old.cpus limit self.old.tasks t) (spec.charge_of_task self.old.charges t))
            self.old.tasks }
    {
        let is_rated = self.charges.is_rated(cpu);
        if self.stale.is_fresh(is_rated, self.sum(), limit) {
            self.stale.clear(cpu, is_rated);
        }
    }

    /// The task that runs on a CPU, the task of a number, has an open charge there at its rate, and
    /// no other task has one.
    #[inline(always)]
    fn reseat(&mut self, cpu: usize, number: u32, limit: u64)
        requires there { cpu < self.old.cpus }
        requires cpus { (0 < self.old.cpus) × (self.old.cpus ≤ 64) }
        requires limit { IsLimit limit }
        requires within { sum_of self.old.tasks ≤ cap self.old.cpus limit }
        requires may { All (λ t. t.number ≡ number → (t.cpu ≡ cpu) × spec.MayStart t)
            self.old.tasks }
        requires is_on_cpu { slice_index_or self.old.places cpu None ≡ Some number }
        ensures cpus { self.new.cpus ≡ self.old.cpus }
        ensures places { self.new.places ≡ self.old.places }
        ensures clock { self.new.clock ≡ self.old.clock }
        ensures tasks { self.new.tasks ≡ self.old.tasks }
        ensures others { (d : ℕ) → d ≢ cpu
            → slice_index_or self.new.charges d None ≡ slice_index_or self.old.charges d None }
        ensures right { All (λ t. t.cpu ≡ cpu
            → spec.IsRight (slice_index_or self.old.places cpu None) t.number
            (rate_in self.old.cpus limit self.old.tasks t) (spec.charge_of_task self.new.charges t))
            self.new.tasks }
    {
        self.leave_free(cpu);
        if let Some(place) = self.place(number) {
            self.occupy(cpu, place, limit);
        }
    }

    /// The task with an open charge on a CPU goes on there by the claim that it has now. Where that
    /// is the one that is kept, or of the same rate, the task is not even looked for.
    #[inline(always)]
    fn start_charge_on(&mut self, cpu: usize, open_charge: OpenCharge, kept: Claim, limit: u64)
        requires there { cpu < self.old.cpus }
        requires cpus { (0 < self.old.cpus) × (self.old.cpus ≤ 64) }
        requires limit { IsLimit limit }
        requires within { sum_of self.old.tasks ≤ cap self.old.cpus limit }
        requires is_charging { slice_index_or self.old.charges cpu None ≡ Some open_charge }
        requires ahead { IsAhead self.old.clock open_charge }
        requires kept { open_charge.claim ≡ Some kept }
        requires may { All (λ t. t.number ≡ open_charge.number → (t.cpu ≡ cpu) × spec.MayStart t)
            self.old.tasks }
        requires is_on_cpu { slice_index_or self.old.places cpu None ≡ Some open_charge.number }
        ensures cpus { self.new.cpus ≡ self.old.cpus }
        ensures places { self.new.places ≡ self.old.places }
        ensures clock { self.new.clock ≡ self.old.clock }
        ensures tasks { self.new.tasks ≡ self.old.tasks }
        ensures others { (d : ℕ) → d ≢ cpu
            → slice_index_or self.new.charges d None ≡ slice_index_or self.old.charges d None }
        ensures right { All (λ t. t.cpu ≡ cpu
            → spec.IsRight (slice_index_or self.old.places cpu None) t.number
            (rate_in self.old.cpus limit self.old.tasks t) (spec.charge_of_task self.new.charges t))
            self.new.tasks }
    {
        let claim = Claim::on(&self.basis(cpu, limit), kept.bw);
        if kept.is_same(&claim) {
            self.keep_fresh(cpu, limit);
            return;
        }
        match self.place(open_charge.number) {
            None => self.leave_free(cpu),
            Some(place) => self.go_on(cpu, place, open_charge, claim, limit),
        }
    }

    /// As `reseat`, where mostly the task has an open charge there.
    #[inline(always)]
    fn start_rightly(&mut self, cpu: usize, number: u32, limit: u64)
        requires there { cpu < self.old.cpus }
        requires cpus { (0 < self.old.cpus) × (self.old.cpus ≤ 64) }
        requires limit { IsLimit limit }
        requires within { sum_of self.old.tasks ≤ cap self.old.cpus limit }
        requires may { All (λ t. t.number ≡ number → (t.cpu ≡ cpu) × spec.MayStart t)
            self.old.tasks }
        requires is_on_cpu { slice_index_or self.old.places cpu None ≡ Some number }
        ensures cpus { self.new.cpus ≡ self.old.cpus }
        ensures places { self.new.places ≡ self.old.places }
        ensures clock { self.new.clock ≡ self.old.clock }
        ensures tasks { self.new.tasks ≡ self.old.tasks }
        ensures others { (d : ℕ) → d ≢ cpu
            → slice_index_or self.new.charges d None ≡ slice_index_or self.old.charges d None }
        ensures right { All (λ t. t.cpu ≡ cpu
            → spec.IsRight (slice_index_or self.old.places cpu None) t.number
            (rate_in self.old.cpus limit self.old.tasks t) (spec.charge_of_task self.new.charges t))
            self.new.tasks }
    {
        match self.charges.claimed(cpu, number) {
            Some((open_charge, kept)) => self.start_charge_on(cpu, open_charge, kept, limit),
            None if self.charges.is_unclaimed(cpu, number) => self.keep_fresh(cpu, limit),
            None => self.reseat(cpu, number, limit),
        }
    }

    /// The task that runs on a CPU, if one does, has an open charge there at its rate, and no other
    /// task has one.
    #[inline(always)]
    pub(crate) fn charge_rightly(&mut self, cpu: usize, limit: u64)
        requires there { cpu < self.old.cpus }
        requires wide { length self.old.places ≡ self.old.cpus }
        requires cpus { (0 < self.old.cpus) × (self.old.cpus ≤ 64) }
        requires limit { IsLimit limit }
        requires within { sum_of self.old.tasks ≤ cap self.old.cpus limit }
        requires may { IfSome (slice_index_or self.old.places cpu None)
            (λ n. All (λ t. t.number ≡ n → (t.cpu ≡ cpu) × spec.MayStart t) self.old.tasks) }
        ensures cpus { self.new.cpus ≡ self.old.cpus }
        ensures places { self.new.places ≡ self.old.places }
        ensures clock { self.new.clock ≡ self.old.clock }
        ensures tasks { self.new.tasks ≡ self.old.tasks }
        ensures others { (d : ℕ) → d ≢ cpu
            → slice_index_or self.new.charges d None ≡ slice_index_or self.old.charges d None }
        ensures right { All (λ t. t.cpu ≡ cpu
            → spec.IsRight (slice_index_or self.old.places cpu None) t.number
            (rate_in self.old.cpus limit self.old.tasks t) (spec.charge_of_task self.new.charges t))
            self.new.tasks }
    {
        match self.occupants()[cpu] {
            None => {
                self.leave_free(cpu);
                self.keep_fresh(cpu, limit);
            }
            Some(number) => self.start_rightly(cpu, number, limit),
        }
    }

    /// No charge is open any more.
    fn vacate_all(&mut self)
        ensures cpus { self.new.cpus ≡ self.old.cpus }
        ensures places { self.new.places ≡ self.old.places }
        ensures tasks { self.new.tasks ≡ self.old.tasks }
        ensures nobody { (cpu : ℕ) → slice_index_or self.new.charges cpu None ≡ None }
    {
        for cpu in 0..self.charges.len() {
            self.vacate(cpu);
        }
    }

    /// Where the clock of the open charges has come far, everyone is charged, and it begins anew.
    pub(crate) fn wind_back(&mut self)
        ensures cpus { self.new.cpus ≡ self.old.cpus }
        ensures places { self.new.places ≡ self.old.places }
        ensures tasks { self.new.tasks ≡ self.old.tasks }
        ensures early { self.new.clock ≤ 2 ^ 61 }
    {
        if self.charges.upto() > 1 << 61 {
            self.vacate_all();
            self.charges.restart();
        }
    }
}
