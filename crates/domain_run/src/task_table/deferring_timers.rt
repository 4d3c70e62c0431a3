//! Zero-lag times that are deferred. Where no task of a domain reclaims nobody looks at them: no
//! rate depends on the bandwidth that is active, and a zero-lag time that comes changes no CPU. So
//! a long advance defers each when its task stops, and goes past it; at its end those that are
//! still ahead come back.

ghost use Rattle.std.specs.Prelude.{ℕ, ◌||◌, not, nat_le, ◌≡◌, ◌<◌, ◌≤◌, ◌+◌, ◌^◌, IsTrue, All, IfSome, None, Some, map, length, slice_index_or, slice_set};
ghost use Rattle.domain_run.specs.declared.task.Task.{Task};
ghost use Rattle.std.specs.List.{flat_map};
ghost use Rattle.domain_run.specs.Conditions.{is_contending};
ghost use Rattle.domain_run.specs.Happened.{in_order};
ghost use Rattle.domain_run.specs.Log.{LogHasRoom, HasRoomToEnd, HasLogged};
ghost use Rattle.domain_run.specs.private.Expiring.{logged_passed, LogsPart};
ghost use Rattle.domain_run.specs.Sound.{IsSound};
ghost use Rattle.domain_run.specs.private.Extending as extending;
ghost use Rattle.domain_run.specs.private.Index.{IsListedAt};
ghost use Rattle.due_times.specs.OpenCharges.{IsAhead};
ghost use Rattle.domain_run.specs.private.DeferringTimers.{with_lag, with_lags, IsBare, MayDefer, passed_bare};
ghost use Rattle.domain_run.specs.private.TaskTable.{without_zero_lag};
ghost use Rattle.domain_run.specs.private.Timers.{IsTimerStep};
ghost use Rattle.domain_run.specs.private.Owed as spec;

use super::TaskTable;
use super::passing::{left_after, used_in};
use crate::log::Log;
use crate::task::{Condition, Task};
use crate::transition::Transition;
use due_times::OpenCharge;

/// The zero-lag times that are deferred, place by place, in microseconds.
pub(crate) type Lags = [Option<u64>; 256];

/// Whether the zero-lag time of a task may be deferred at a time.
#[inline(always)]
fn may_defer(task: &Task, time: u64) -> bool
    ensures { IsTrue result → MayDefer time task.now }
{
    if task.params.reclaim || task.condition.is_leaving() {
        return false;
    }
    match task.zero_lag {
        None => true,
        Some(lag) => time < lag && !task.condition.is_contending(),
    }
}

/// Whether a zero-lag time that was deferred comes back at a time.
#[inline(always)]
fn is_ahead(condition: Condition, past: u64, lag: u64) -> bool
    ensures { result ≡ not (is_contending condition || nat_le lag past) }
{
    !condition.is_contending() && past < lag
}

impl TaskTable {
    /// Whether the zero-lag times of all tasks may be deferred at a time.
    pub(crate) fn may_defer(&self, time: u64) -> bool
        ensures { IsTrue result → All (MayDefer time) self.now.tasks }
    {
        'tasks: for place in 0..self.tasks.len() {
            if !may_defer(self.tasks.at(place), time) {
                return false;
            }
        }
        true
    }

    /// The zero-lag time of the task at a place, which has it no more.
    fn defer_at(&mut self, place: usize, time: u64) -> Option<u64>
        requires there { place < length self.old.tasks }
        requires sound { All (IsSound time) self.old.tasks }
        ensures cpus { self.new.cpus ≡ self.old.cpus }
        ensures places { self.new.places ≡ self.old.places }
        ensures step { IsTimerStep without_zero_lag place self.old.tasks self.new.tasks }
        ensures sound { All (IsSound time) self.new.tasks }
        ensures lag { (d : Task) → result ≡ (slice_index_or self.old.tasks place d).zero_lag }
    {
        let lag = self.tasks.at(place).zero_lag;
        if lag.is_some() {
            self.apply(place, time, &Transition::Defer);
        }
        lag
    }

    /// The zero-lag times of all tasks are deferred.
    pub(crate) fn deferred_lag(&mut self, time: u64, lags: &mut Lags)
        requires sound { All (IsSound time) self.old.tasks }
        ensures cpus { self.new.cpus ≡ self.old.cpus }
        ensures places { self.new.places ≡ self.old.places }
        ensures tasks { self.new.tasks ≡ map without_zero_lag self.old.tasks }
        ensures sound { All (IsSound time) self.new.tasks }
        ensures lags { (i : ℕ) (d : Task) → i < length self.old.tasks
            → slice_index_or lags.new i None ≡ (slice_index_or self.old.tasks i d).zero_lag }
        ensures few { length self.old.tasks ≤ 256 }
    {
        for place in 0..self.len() {
            lags[place] = self.defer_at(place, time);
        }
    }

    /// The task at a place has the zero-lag time that was deferred, where it does not contend and
    /// that is past no more than a time.
    fn take_back_at(&mut self, place: usize, time: u64, past: u64, lag: Option<u64>)
        requires there { place < length self.old.tasks }
        requires sound { All (IsSound time) self.old.tasks }
        ensures cpus { self.new.cpus ≡ self.old.cpus }
        ensures places { self.new.places ≡ self.old.places }
        ensures step { IsTimerStep (with_lag past lag) place self.old.tasks self.new.tasks }
        ensures sound { All (IsSound time) self.new.tasks }
    {
        let Some(lag) = lag else {
            return;
        };
        if is_ahead(self.tasks.at(place).condition, past, lag) {
            self.apply(place, time, &Transition::TakeBack { lag });
        }
    }

    /// The tasks have those zero-lag times that were deferred, where they do not contend, and these
    /// are past no more than a time.
    pub(crate) fn take_back(&mut self, time: u64, past: u64, lags: &Lags)
        requires sound { All (IsSound time) self.old.tasks }
        ensures cpus { self.new.cpus ≡ self.old.cpus }
        ensures places { self.new.places ≡ self.old.places }
        ensures tasks { self.new.tasks ≡ with_lags past lags.now self.old.tasks }
        ensures sound { All (IsSound time) self.new.tasks }
    {
        for place in 0..self.len() {
            self.take_back_at(place, time, past, lags[place]);
        }
    }

    /// As `finish_at`; the zero-lag time with which the task stops is deferred.
    #[inline(always)]
    fn finish_deferring_at(
        &mut self,
        cpu: usize,
        place: usize,
        open_charge: OpenCharge,
        ticks: u64,
        time: u64,
        lags: &mut Lags,
        log: &mut Log,
    )
        requires there { cpu < self.old.cpus }
        requires is_charging { slice_index_or self.old.charges cpu None ≡ Some open_charge }
        requires at { IsListedAt self.old.tasks open_charge.number place }
        requires home { (d : Task) → (slice_index_or self.old.tasks place d).cpu ≡ cpu }
        requires ahead { IsAhead self.old.clock open_charge }
        requires some { 0 < ticks }
        requires early { time < 2 ^ 43 }
        requires ends { self.old.clock + ticks ≤ open_charge.end }
        requires sound { All (IsSound time) self.old.tasks }
        requires bare { All IsBare self.old.tasks }
        requires room { LogHasRoom 3 log.old }
        ensures cpus { self.new.cpus ≡ self.old.cpus }
        ensures places { self.new.places ≡ self.old.places }
        ensures clock { self.new.clock ≡ self.old.clock }
        ensures charges { self.new.charges ≡ slice_set self.old.charges cpu None }
        ensures tasks { map (passed_bare time ticks self.new.charges) self.new.tasks
            ≡ map (passed_bare time ticks self.old.charges) self.old.tasks }
        ensures lags { (past : ℕ) → past ≤ time
            → map (spec.time_passed time ticks self.new.charges)
            (with_lags past lags.new self.new.tasks)
            ≡ map (spec.time_passed time ticks self.old.charges)
            (with_lags past lags.old self.old.tasks) }
        ensures sound { All (IsSound time) self.new.tasks }
        ensures bare { All IsBare self.new.tasks }
        ensures logged { LogsPart
            (flat_map (logged_passed time ticks self.old.charges) self.old.tasks)
            (flat_map (logged_passed time ticks self.new.charges) self.new.tasks) log.old log.new }
        ensures room { log.old.room ≤ log.new.room + 3 }
    {
        // For the prover alone: a look at the open charges brings what the type keeps.
        let _ = self.charges.len();
        self.vacate_at(cpu, place, open_charge);
        let left = self.tasks.at(place).server.left;
        let left = left_after(left, used_in(left, open_charge.rate, ticks));
        lags[place] = self.apply_logged(
            place,
            time,
            &Transition::RunDeferring { ticks, left },
            log,
        );
    }

    /// As `expire_at`; the zero-lag time with which the task stops is deferred.
    #[inline(always)]
    fn expire_deferring_at(
        &mut self,
        cpu: usize,
        ticks: u64,
        time: u64,
        lags: &mut Lags,
        log: &mut Log,
    )
        requires there { cpu < self.old.cpus }
        requires some { 0 < ticks }
        requires early { time < 2 ^ 43 }
        requires clock { self.old.clock + ticks ≤ 2 ^ 62 }
        requires ends { IfSome (slice_index_or self.old.charges cpu None)
            (λ s. self.old.clock + ticks ≤ s.end) }
        requires sound { All (IsSound time) self.old.tasks }
        requires bare { All IsBare self.old.tasks }
        requires room { LogHasRoom 3 log.old }
        ensures cpus { self.new.cpus ≡ self.old.cpus }
        ensures places { self.new.places ≡ self.old.places }
        ensures clock { self.new.clock ≡ self.old.clock }
        ensures charges { extending.HasExpired (self.old.clock + ticks) cpu self.old.charges
            self.new.charges }
        ensures tasks { map (passed_bare time ticks self.new.charges) self.new.tasks
            ≡ map (passed_bare time ticks self.old.charges) self.old.tasks }
        ensures lags { (past : ℕ) → past ≤ time
            → map (spec.time_passed time ticks self.new.charges)
            (with_lags past lags.new self.new.tasks)
            ≡ map (spec.time_passed time ticks self.old.charges)
            (with_lags past lags.old self.old.tasks) }
        ensures sound { All (IsSound time) self.new.tasks }
        ensures bare { All IsBare self.new.tasks }
        ensures logged { LogsPart
            (flat_map (logged_passed time ticks self.old.charges) self.old.tasks)
            (flat_map (logged_passed time ticks self.new.charges) self.new.tasks) log.old log.new }
        ensures room { log.old.room ≤ log.new.room + 3 }
    {
        let Some(open_charge) = self.charges.get(cpu) else {
            return;
        };
        let at = self.place_on(open_charge.number, cpu);
        let Some(place) = at else {
            self.vacate(cpu);
            return;
        };
        let silent = !log.is_wanted();
        if self.extend_at(cpu, place, open_charge, ticks, time, silent) {
            return;
        }
        self.finish_deferring_at(cpu, place, open_charge, ticks, time, lags, log);
    }

    /// As `pass`; the zero-lag times with which tasks stop are deferred.
    pub(crate) fn pass_deferring(&mut self, ticks: u64, time: u64, lags: &mut Lags, log: &mut Log)
        requires some { 0 < ticks }
        requires early { time < 2 ^ 43 }
        requires clock { self.old.clock + ticks ≤ 2 ^ 62 }
        requires ends { (cpu : ℕ) → IfSome (slice_index_or self.old.charges cpu None)
            (λ s. self.old.clock + ticks ≤ s.end) }
        requires sound { All (IsSound time) self.old.tasks }
        requires bare { All IsBare self.old.tasks }
        requires room { HasRoomToEnd log.old }
        ensures cpus { self.new.cpus ≡ self.old.cpus }
        ensures places { self.new.places ≡ self.old.places }
        ensures tasks { self.new.tasks
            ≡ map (passed_bare time ticks self.old.charges) self.old.tasks }
        ensures lags { (past : ℕ) → past ≤ time → with_lags past lags.new self.new.tasks
            ≡ map (spec.time_passed time ticks self.old.charges)
            (with_lags past lags.old self.old.tasks) }
        ensures sound { All (IsSound time) self.new.tasks }
        ensures logged { HasLogged log.old (in_order
            (flat_map (logged_passed time ticks self.old.charges) self.old.tasks)) log.new }
    {
        if !log.is_wanted() {
            self.pass_deferring_silently(ticks, time, lags);
            return;
        }
        let from = log.len();
        let end = self.charges.upto() + ticks;
        let mut cpu = self.charges.next_ended(0, end);
        while cpu < self.charges.len() {
            self.expire_deferring_at(cpu, ticks, time, lags, log);
            cpu = self.charges.next_ended(cpu + 1, end);
        }
        self.charges.pass(ticks);
        log.put_in_order(from);
    }

    /// As `finish_at`; the zero-lag time with which the task stops is deferred.
    #[inline(always)]
    fn finish_deferring_silently_at(
        &mut self,
        cpu: usize,
        place: usize,
        open_charge: OpenCharge,
        ticks: u64,
        time: u64,
        lags: &mut Lags,
    )
        requires there { cpu < self.old.cpus }
        requires is_charging { slice_index_or self.old.charges cpu None ≡ Some open_charge }
        requires at { IsListedAt self.old.tasks open_charge.number place }
        requires home { (d : Task) → (slice_index_or self.old.tasks place d).cpu ≡ cpu }
        requires ahead { IsAhead self.old.clock open_charge }
        requires some { 0 < ticks }
        requires early { time < 2 ^ 43 }
        requires ends { self.old.clock + ticks ≤ open_charge.end }
        requires sound { All (IsSound time) self.old.tasks }
        requires bare { All IsBare self.old.tasks }
        ensures cpus { self.new.cpus ≡ self.old.cpus }
        ensures places { self.new.places ≡ self.old.places }
        ensures clock { self.new.clock ≡ self.old.clock }
        ensures charges { self.new.charges ≡ slice_set self.old.charges cpu None }
        ensures tasks { map (passed_bare time ticks self.new.charges) self.new.tasks
            ≡ map (passed_bare time ticks self.old.charges) self.old.tasks }
        ensures lags { (past : ℕ) → past ≤ time
            → map (spec.time_passed time ticks self.new.charges)
            (with_lags past lags.new self.new.tasks)
            ≡ map (spec.time_passed time ticks self.old.charges)
            (with_lags past lags.old self.old.tasks) }
        ensures sound { All (IsSound time) self.new.tasks }
        ensures bare { All IsBare self.new.tasks }
    {
        // For the prover alone: a look at the open charges brings what the type keeps.
        let _ = self.charges.len();
        self.vacate_at(cpu, place, open_charge);
        let left = self.tasks.at(place).server.left;
        let left = left_after(left, used_in(left, open_charge.rate, ticks));
        lags[place] = self.apply_charged(place, time, &Transition::RunDeferring { ticks, left });
    }

    /// As `expire_at`; the zero-lag time with which the task stops is deferred.
    #[inline(always)]
    fn expire_deferring_silently_at(&mut self, cpu: usize, ticks: u64, time: u64, lags: &mut Lags)
        requires there { cpu < self.old.cpus }
        requires some { 0 < ticks }
        requires early { time < 2 ^ 43 }
        requires clock { self.old.clock + ticks ≤ 2 ^ 62 }
        requires ends { IfSome (slice_index_or self.old.charges cpu None)
            (λ s. self.old.clock + ticks ≤ s.end) }
        requires sound { All (IsSound time) self.old.tasks }
        requires bare { All IsBare self.old.tasks }
        ensures cpus { self.new.cpus ≡ self.old.cpus }
        ensures places { self.new.places ≡ self.old.places }
        ensures clock { self.new.clock ≡ self.old.clock }
        ensures charges { extending.HasExpired (self.old.clock + ticks) cpu self.old.charges
            self.new.charges }
        ensures tasks { map (passed_bare time ticks self.new.charges) self.new.tasks
            ≡ map (passed_bare time ticks self.old.charges) self.old.tasks }
        ensures lags { (past : ℕ) → past ≤ time
            → map (spec.time_passed time ticks self.new.charges)
            (with_lags past lags.new self.new.tasks)
            ≡ map (spec.time_passed time ticks self.old.charges)
            (with_lags past lags.old self.old.tasks) }
        ensures sound { All (IsSound time) self.new.tasks }
        ensures bare { All IsBare self.new.tasks }
    {
        let Some(open_charge) = self.charges.get(cpu) else {
            return;
        };
        let at = self.place_on(open_charge.number, cpu);
        let Some(place) = at else {
            self.vacate(cpu);
            return;
        };
        if self.extend_at(cpu, place, open_charge, ticks, time, true) {
            return;
        }
        self.finish_deferring_silently_at(cpu, place, open_charge, ticks, time, lags);
    }

    /// As `pass_deferring`, without a log.
    fn pass_deferring_silently(&mut self, ticks: u64, time: u64, lags: &mut Lags)
        requires some { 0 < ticks }
        requires early { time < 2 ^ 43 }
        requires clock { self.old.clock + ticks ≤ 2 ^ 62 }
        requires ends { (cpu : ℕ) → IfSome (slice_index_or self.old.charges cpu None)
            (λ s. self.old.clock + ticks ≤ s.end) }
        requires sound { All (IsSound time) self.old.tasks }
        requires bare { All IsBare self.old.tasks }
        ensures cpus { self.new.cpus ≡ self.old.cpus }
        ensures places { self.new.places ≡ self.old.places }
        ensures tasks { self.new.tasks
            ≡ map (passed_bare time ticks self.old.charges) self.old.tasks }
        ensures lags { (past : ℕ) → past ≤ time → with_lags past lags.new self.new.tasks
            ≡ map (spec.time_passed time ticks self.old.charges)
            (with_lags past lags.old self.old.tasks) }
        ensures sound { All (IsSound time) self.new.tasks }
    {
        let end = self.charges.upto() + ticks;
        let mut cpu = self.charges.next_ended(0, end);
        while cpu < self.charges.len() {
            self.expire_deferring_silently_at(cpu, ticks, time, lags);
            cpu = self.charges.next_ended(cpu + 1, end);
        }
        self.charges.pass(ticks);
    }
}
