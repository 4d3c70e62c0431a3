//! Time goes on for all open charges.

ghost use Rattle.std.specs.Prelude.{◌≡◌, ◌<◌, ◌≤◌, ◌+◌, ◌^◌, ◌*◌, ◌-◌, ◌<ℤ◌, ◌≤ℤ◌, ◌-ℤ◌, pos, ℕ, All, IfSome, IfNone, None, Some, map, slice_index_or, slice_set};
ghost use Rattle.std.specs.List.{flat_map};
ghost use Rattle.domain_run.specs.Happened.{in_order};
ghost use Rattle.domain_run.specs.Log.{LogHasRoom, HasRoomToEnd, HasLogged};
ghost use Rattle.domain_run.specs.Sound.{IsSound};
ghost use Rattle.domain_run.specs.private.Expiring.{logged_passed, LogsPart};
ghost use Rattle.domain_run.specs.private.Extending as extending;
ghost use Rattle.domain_run.specs.private.Index.{IsListedAt};
ghost use Rattle.domain_run.specs.private.Owed as spec;
ghost use Rattle.domain_run.specs.declared.task.Task.{Task};
ghost use Rattle.due_times.specs.OpenCharges.{IsAhead};

use super::TaskTable;
use crate::log::Log;
use crate::transition::Transition;
use due_times::OpenCharge;

/// What so many ticks at a rate take of a budget that lasts until the last of them.
pub(super) fn used_in(left: i128, rate: u64, ticks: u64) -> u64
    requires some { 0 < ticks }
    requires slow { rate ≤ 2 ^ 27 }
    requires high { left ≤ℤ pos (2 ^ 52) }
    requires lasted { pos (rate * (ticks - 1)) <ℤ left }
    ensures used { result ≡ rate * (ticks - 1) + rate }
    ensures small { result ≤ 2 ^ 53 }
{
    rate * (ticks - 1) + rate
}

pub(super) fn left_after(left: i128, used: u64) -> i128
    requires lifted { pos 0 <ℤ left }
    requires high { left ≤ℤ pos (2 ^ 52) }
    requires small { used ≤ 2 ^ 53 }
    ensures { result ≡ left -ℤ pos used }
{
    left - i128::from(used)
}

impl TaskTable {
    /// The place of the task of a number, where it is listed and belongs to a CPU.
    pub(super) fn place_on(&self, number: u32, cpu: usize) -> Option<usize>
        ensures there { IfSome result (IsListedAt self.now.tasks number) }
        ensures home { IfSome result
            (λ place. (d : Task) → (slice_index_or self.now.tasks place d).cpu ≡ cpu) }
        ensures absent { IfNone result
            (All (λ t. t.number ≡ number → t.cpu ≡ cpu → ⊥) self.now.tasks) }
    {
        let Some(place) = self.place(number) else {
            return None;
        };
        if self.tasks.at(place).cpu != cpu {
            return None;
        }
        Some(place)
    }

    /// Of at most so many ticks as many as pass up to the first end of an open charge.
    pub(crate) fn ticks_to_end(&self, most: u64) -> u64
        requires some { 0 < most }
        ensures some { 0 < result }
        ensures most { result ≤ most }
        ensures ends { (cpu : ℕ) → IfSome (slice_index_or self.now.charges cpu None)
            (λ s. self.now.clock + result ≤ s.end) }
        ensures lasts { All (λ t. IfSome (spec.charge_of_task self.now.charges t)
            (λ s. spec.Lasts result s.rate t)) self.now.tasks }
    {
        (self.charges.first_end() - self.charges.upto()).min(most)
    }

    /// The task with an open charge on a CPU, the task at a place, has run for so many ticks, and
    /// has no open charge any more. The log records what that ends.
    #[inline(always)]
    fn finish_at(
        &mut self,
        cpu: usize,
        place: usize,
        open_charge: OpenCharge,
        ticks: u64,
        time: u64,
        log: &mut Log,
    )
        requires there { cpu < self.old.cpus }
        requires is_charging { slice_index_or self.old.charges cpu None ≡ Some open_charge }
        requires at { IsListedAt self.old.tasks open_charge.number place }
        requires home { (d : Task) → (slice_index_or self.old.tasks place d).cpu ≡ cpu }
        requires ahead { IsAhead self.old.clock open_charge }
        requires some { 0 < ticks }
        requires early { time < 2 ^ 43 }
        requires ends { self.old.clock + ticks ≤ open_charge.end }
        requires sound { All (IsSound time) self.old.tasks }
        requires room { LogHasRoom 3 log.old }
        ensures cpus { self.new.cpus ≡ self.old.cpus }
        ensures places { self.new.places ≡ self.old.places }
        ensures clock { self.new.clock ≡ self.old.clock }
        ensures charges { self.new.charges ≡ slice_set self.old.charges cpu None }
        ensures tasks { map (spec.time_passed time ticks self.new.charges) self.new.tasks
            ≡ map (spec.time_passed time ticks self.old.charges) self.old.tasks }
        ensures sound { All (IsSound time) self.new.tasks }
        ensures logged { LogsPart
            (flat_map (logged_passed time ticks self.old.charges) self.old.tasks)
            (flat_map (logged_passed time ticks self.new.charges) self.new.tasks) log.old log.new }
        ensures room { log.old.room ≤ log.new.room + 3 }
    {
        // For the prover alone: a look at the open charges brings what the type keeps.
        let _ = self.charges.len();
        self.vacate_at(cpu, place, open_charge);
        let left = self.tasks.at(place).server.left;
        let left = left_after(left, used_in(left, open_charge.rate, ticks));
        self.apply_logged(place, time, &Transition::Run { ticks, left }, log);
    }

    /// The task with an open charge on a CPU, if one does, has run for so many ticks: its charge
    /// goes on for longer, or ends. The log records what that ends.
    #[inline(always)]
    fn expire_at(&mut self, cpu: usize, ticks: u64, time: u64, log: &mut Log)
        requires there { cpu < self.old.cpus }
        requires some { 0 < ticks }
        requires early { time < 2 ^ 43 }
        requires clock { self.old.clock + ticks ≤ 2 ^ 62 }
        requires ends { IfSome (slice_index_or self.old.charges cpu None)
            (λ s. self.old.clock + ticks ≤ s.end) }
        requires sound { All (IsSound time) self.old.tasks }
        requires room { LogHasRoom 3 log.old }
        ensures cpus { self.new.cpus ≡ self.old.cpus }
        ensures places { self.new.places ≡ self.old.places }
        ensures clock { self.new.clock ≡ self.old.clock }
        ensures charges { extending.HasExpired (self.old.clock + ticks) cpu self.old.charges
            self.new.charges }
        ensures tasks { map (spec.time_passed time ticks self.new.charges) self.new.tasks
            ≡ map (spec.time_passed time ticks self.old.charges) self.old.tasks }
        ensures sound { All (IsSound time) self.new.tasks }
        ensures logged { LogsPart
            (flat_map (logged_passed time ticks self.old.charges) self.old.tasks)
            (flat_map (logged_passed time ticks self.new.charges) self.new.tasks) log.old log.new }
        ensures room { log.old.room ≤ log.new.room + 3 }
    {
        let Some(open_charge) = self.charges.get(cpu) else {
            return;
        };
        let at = self.place_on(open_charge.number, cpu);
        let Some(place) = at else {
            self.vacate(cpu);
            return;
        };
        let silent = !log.is_wanted();
        if self.extend_at(cpu, place, open_charge, ticks, time, silent) {
            return;
        }
        self.finish_at(cpu, place, open_charge, ticks, time, log);
    }

    /// So many ticks pass, up to a time, and no open charge ends before the last of them: each task
    /// with an open charge has run in each. The log records what happens at that time, in its
    /// order.
    pub(crate) fn pass(&mut self, ticks: u64, time: u64, log: &mut Log)
        requires some { 0 < ticks }
        requires early { time < 2 ^ 43 }
        requires clock { self.old.clock + ticks ≤ 2 ^ 62 }
        requires ends { (cpu : ℕ) → IfSome (slice_index_or self.old.charges cpu None)
            (λ s. self.old.clock + ticks ≤ s.end) }
        requires sound { All (IsSound time) self.old.tasks }
        requires room { HasRoomToEnd log.old }
        ensures cpus { self.new.cpus ≡ self.old.cpus }
        ensures places { self.new.places ≡ self.old.places }
        ensures tasks { self.new.tasks
            ≡ map (spec.time_passed time ticks self.old.charges) self.old.tasks }
        ensures sound { All (IsSound time) self.new.tasks }
        ensures logged { HasLogged log.old (in_order
            (flat_map (logged_passed time ticks self.old.charges) self.old.tasks)) log.new }
    {
        if !log.is_wanted() {
            self.pass_silently(ticks, time);
            return;
        }
        let from = log.len();
        let end = self.charges.upto() + ticks;
        let mut cpu = self.charges.next_ended(0, end);
        while cpu < self.charges.len() {
            self.expire_at(cpu, ticks, time, log);
            cpu = self.charges.next_ended(cpu + 1, end);
        }
        self.charges.pass(ticks);
        log.put_in_order(from);
    }

    // As those above, without a log: a trace looks for none.

    /// The task with an open charge on a CPU, the task at a place, has run for so many ticks, and
    /// has no open charge any more.
    #[inline(always)]
    fn finish_silently_at(
        &mut self,
        cpu: usize,
        place: usize,
        open_charge: OpenCharge,
        ticks: u64,
        time: u64,
    )
        requires there { cpu < self.old.cpus }
        requires is_charging { slice_index_or self.old.charges cpu None ≡ Some open_charge }
        requires at { IsListedAt self.old.tasks open_charge.number place }
        requires home { (d : Task) → (slice_index_or self.old.tasks place d).cpu ≡ cpu }
        requires ahead { IsAhead self.old.clock open_charge }
        requires some { 0 < ticks }
        requires early { time < 2 ^ 43 }
        requires ends { self.old.clock + ticks ≤ open_charge.end }
        requires sound { All (IsSound time) self.old.tasks }
        ensures cpus { self.new.cpus ≡ self.old.cpus }
        ensures places { self.new.places ≡ self.old.places }
        ensures clock { self.new.clock ≡ self.old.clock }
        ensures charges { self.new.charges ≡ slice_set self.old.charges cpu None }
        ensures tasks { map (spec.time_passed time ticks self.new.charges) self.new.tasks
            ≡ map (spec.time_passed time ticks self.old.charges) self.old.tasks }
        ensures sound { All (IsSound time) self.new.tasks }
    {
        // For the prover alone: a look at the open charges brings what the type keeps.
        let _ = self.charges.len();
        self.vacate_at(cpu, place, open_charge);
        let left = self.tasks.at(place).server.left;
        let left = left_after(left, used_in(left, open_charge.rate, ticks));
        self.apply_charged(place, time, &Transition::Run { ticks, left });
    }

    /// The task with an open charge on a CPU, if one does, has run for so many ticks: its charge
    /// goes on for longer, or ends.
    #[inline(always)]
    fn expire_silently_at(&mut self, cpu: usize, ticks: u64, time: u64)
        requires there { cpu < self.old.cpus }
        requires some { 0 < ticks }
        requires early { time < 2 ^ 43 }
        requires clock { self.old.clock + ticks ≤ 2 ^ 62 }
        requires ends { IfSome (slice_index_or self.old.charges cpu None)
            (λ s. self.old.clock + ticks ≤ s.end) }
        requires sound { All (IsSound time) self.old.tasks }
        ensures cpus { self.new.cpus ≡ self.old.cpus }
        ensures places { self.new.places ≡ self.old.places }
        ensures clock { self.new.clock ≡ self.old.clock }
        ensures charges { extending.HasExpired (self.old.clock + ticks) cpu self.old.charges
            self.new.charges }
        ensures tasks { map (spec.time_passed time ticks self.new.charges) self.new.tasks
            ≡ map (spec.time_passed time ticks self.old.charges) self.old.tasks }
        ensures sound { All (IsSound time) self.new.tasks }
    {
        let Some(open_charge) = self.charges.get(cpu) else {
            return;
        };
        let at = self.place_on(open_charge.number, cpu);
        let Some(place) = at else {
            self.vacate(cpu);
            return;
        };
        if self.extend_at(cpu, place, open_charge, ticks, time, true) {
            return;
        }
        self.finish_silently_at(cpu, place, open_charge, ticks, time);
    }

    /// As `pass`, without a log.
    fn pass_silently(&mut self, ticks: u64, time: u64)
        requires some { 0 < ticks }
        requires early { time < 2 ^ 43 }
        requires clock { self.old.clock + ticks ≤ 2 ^ 62 }
        requires ends { (cpu : ℕ) → IfSome (slice_index_or self.old.charges cpu None)
            (λ s. self.old.clock + ticks ≤ s.end) }
        requires sound { All (IsSound time) self.old.tasks }
        ensures cpus { self.new.cpus ≡ self.old.cpus }
        ensures places { self.new.places ≡ self.old.places }
        ensures tasks { self.new.tasks
            ≡ map (spec.time_passed time ticks self.old.charges) self.old.tasks }
        ensures sound { All (IsSound time) self.new.tasks }
    {
        let end = self.charges.upto() + ticks;
        let mut cpu = self.charges.next_ended(0, end);
        while cpu < self.charges.len() {
            self.expire_silently_at(cpu, ticks, time);
            cpu = self.charges.next_ended(cpu + 1, end);
        }
        self.charges.pass(ticks);
    }
}
