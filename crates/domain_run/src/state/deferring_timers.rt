//! From event to event past zero-lag times that nobody looks at: those of a domain in which no task
//! reclaims. They are deferred for as long as an advance goes on, and come back at its end.

ghost use Rattle.std.specs.Prelude.{◌≡◌, ◌<◌, ◌≤◌, ◌+◌, ◌-◌, ◌*◌, ◌++◌, All, IsTrue, length};
ghost use Rattle.domain_run.specs.Domain.{Domain};
ghost use Rattle.domain_run.specs.Happened.{logged_by_beginning, logged_by_last_end, logged_by_ticks};
ghost use Rattle.domain_run.specs.Jump as jump;
ghost use Rattle.domain_run.specs.Log.{LogHasRoom, HasRoomToEnd, HasLogged};
ghost use Rattle.domain_run.specs.Tick as tick;
ghost use Rattle.domain_run.specs.Sound.{IsDomain};
ghost use Rattle.domain_run.specs.private.DeferringTimers.{awake, IsBare, IsWithoutLag, MayDefer};
ghost use Rattle.limits.specs.Limits.{clock_end};

use super::State;
use crate::log::Log;
use crate::task_table::Lags;
use crate::to_event;

/// A shorter advance is not worth the looks at all tasks before it and after it, in microseconds.
const LONG: u64 = 100_000;

/// How many leaps go to each zero-lag time once a look has shown that they must.
const WAKEFUL: u32 = 256;

impl State {
    /// As `run`, of a domain whose zero-lag times are deferred, and stay so: with them it goes the
    /// same way.
    fn run_deferring(&mut self, most: u64, lags: &mut Lags, log: &mut Log) -> u64
        requires begun { jump.IsUnderWay self.old }
        requires some { 0 < most }
        requires quiet { most ≤ jump.ticks_to_event self.old }
        requires early { self.old.time + most ≤ clock_end + 1 }
        requires bare { All IsBare self.old.tasks }
        requires room { HasRoomToEnd log.old }
        ensures some { 0 < result }
        ensures most { result ≤ most }
        ensures domain { (d : Domain) → self.old ≡ jump.under_way d → All IsWithoutLag d.tasks
            → awake lags.new self.new ≡ tick.ticks result (awake lags.old d) }
        ensures bare { All IsBare self.new.tasks }
        ensures logged { (d : Domain) → self.old ≡ jump.under_way d
            → HasLogged log.old (logged_by_last_end result d) log.new }
        ensures quiet { (d : Domain) → self.old ≡ jump.under_way d → All IsWithoutLag d.tasks
            → logged_by_ticks result (awake lags.old d)
            ≡ logged_by_beginning d ++ logged_by_last_end result d }
        ensures switches { self.new.switches ≡ self.old.switches }
    {
        let ticks = to_event::leap_deferring(
            &mut self.task_table,
            self.limit,
            most,
            self.time,
            lags,
            log,
        );
        self.time += ticks - 1;
        ticks
    }

    /// Goes on to the next event, as `leap_in_room`, past zero-lag times that are deferred.
    #[inline(always)]
    fn leap_deferring(&mut self, most: u64, lags: &mut Lags, log: &mut Log) -> u64
        requires some { 0 < most }
        requires early { self.old.time + most ≤ clock_end }
        requires plain { All IsWithoutLag self.old.tasks }
        requires room { LogHasRoom (9 * length self.old.tasks + 192) log.old }
        ensures most { result ≤ most }
        ensures ticks { awake lags.new self.new ≡ tick.ticks result (awake lags.old self.old) }
        ensures bare { All IsBare self.new.tasks }
        ensures logged { HasLogged log.old
            (logged_by_ticks result (awake lags.old self.old)) log.new }
        ensures switches { length self.new.switches ≤ length self.old.switches + 64 }
        ensures happened { length log.new.happened ≤ length log.old.happened + 2304 }
    {
        if !self.begin_charging(log) {
            return 0;
        }
        let most = most.min(self.quiet());
        self.run_deferring(most, lags, log)
    }

    /// Whether no task is to go off the list at once: none has ended, where all zero-lag times are
    /// deferred.
    fn all_stay(&self) -> bool
        requires bare { All IsBare self.now.tasks }
        ensures { IsTrue result → All IsWithoutLag self.now.tasks }
    {
        !self.task_table.may_be_due(0)
    }

    /// Whether there are fewer than `enough` switches and entries of the log by now, and the log
    /// has room for an event.
    #[inline(always)]
    fn lacks(&self, enough: usize, log: &Log) -> bool
        ensures room { IsTrue result → LogHasRoom (9 * length self.now.tasks + 192) log.now }
        ensures switches { IsTrue result → length self.now.switches < enough }
        ensures happened { IsTrue result → length log.now.happened < enough }
    {
        self.switches.len() < enough
            && log.len() < enough
            && log.has_room(9 * self.task_table.len() + 192)
    }

    /// Goes on from event to event in the room that is there, until a task has ended, or until
    /// there are `enough` switches or entries of the log.
    fn defer_on(&mut self, most: u64, enough: usize, lags: &mut Lags, log: &mut Log) -> u64
        requires early { self.old.time + most ≤ clock_end }
        requires bare { All IsBare self.old.tasks }
        ensures most { result ≤ most }
        ensures ticks { awake lags.new self.new ≡ tick.ticks result (awake lags.old self.old) }
        ensures logged { HasLogged log.old
            (logged_by_ticks result (awake lags.old self.old)) log.new }
        ensures bounded { 0 < result → (length self.new.switches < enough + 64)
            × (length log.new.happened < enough + 2304) }
    {
        let mut ticks = 0;
        'events: while ticks < most && self.all_stay() && self.lacks(enough, log) {
            let made = self.leap_deferring(most - ticks, lags, log);
            if made == 0 {
                break;
            }
            ticks += made;
        }
        ticks
    }

    fn deferred_lag(&mut self, lags: &mut Lags)
        requires may { All (MayDefer (self.old.time - 1)) self.old.tasks }
        ensures awake { awake lags.new self.new ≡ self.old }
        ensures time { self.new.time ≡ self.old.time }
        ensures bare { All IsBare self.new.tasks }
    {
        self.task_table.deferred_lag(self.time, lags);
    }

    fn take_back(&mut self, lags: &Lags)
        ensures { self.new ≡ awake lags.now self.old }
    {
        self.task_table
            .take_back(self.time, self.time.saturating_sub(1), lags);
    }

    /// As [`State::leap_in_room`], over many events, where no task reclaims: their zero-lag times
    /// are deferred meanwhile. It ends once there are `enough` switches or entries of the log.
    /// Where it cannot be so it answers 0, and nothing has changed. Takes no memory.
    #[inline(always)]
    fn defer(&mut self, most: u64, enough: usize, log: &mut Log) -> u64
        requires early { self.old.time + most ≤ clock_end }
        ensures most { result ≤ most }
        ensures ticks { self.new ≡ tick.ticks result self.old }
        ensures logged { HasLogged log.old (logged_by_ticks result self.old) log.new }
        ensures bounded { 0 < result → (length self.new.switches < enough + 64)
            × (length log.new.happened < enough + 2304) }
    {
        if !self.task_table.may_defer(self.time.saturating_sub(1)) {
            return 0;
        }
        let mut lags = [None; 256];
        self.deferred_lag(&mut lags);
        let ticks = self.defer_on(most, enough, &mut lags, log);
        self.take_back(&lags);
        ticks
    }

    // Whether there is room for the switches of an event.
    #[inline(always)]
    fn has_room(&self) -> bool {
        self.switches.capacity() - self.switches.len() >= self.cpus
    }

    // Of so many leaps one less is to go to each zero-lag time.
    #[inline(always)]
    fn wake_less(&mut self)
        ensures { self.new ≡ self.old }
    {
        self.wakeful = self.wakeful.saturating_sub(1);
    }

    // So many leaps are to go to each zero-lag time.
    fn stay_wakeful(&mut self)
        ensures { self.new ≡ self.old }
    {
        self.wakeful = WAKEFUL;
    }

    /// As `defer`, where that is worth it: not where it could not be a short while ago.
    #[inline(always)]
    pub(super) fn defer_long(&mut self, most: u64, enough: usize, log: &mut Log) -> u64
        requires early { self.old.time + most ≤ clock_end }
        ensures most { result ≤ most }
        ensures ticks { self.new ≡ tick.ticks result self.old }
        ensures domain { IsDomain self.old }
        ensures logged { HasLogged log.old (logged_by_ticks result self.old) log.new }
        ensures bounded { 0 < result → (length self.new.switches < enough + 64)
            × (length log.new.happened < enough + 2304) }
    {
        // For the prover alone: a look at a field brings what the type keeps.
        let _ = &self.cpus;
        if most < LONG || !self.has_room() {
            return 0;
        }
        if !self.lacks(enough, log) {
            return 0;
        }
        if self.wakeful > 0 {
            self.wake_less();
            return 0;
        }
        let made = self.defer(most, enough, log);
        if made == 0 {
            self.stay_wakeful();
        }
        made
    }
}
