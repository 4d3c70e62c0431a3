//! From event to event in one call.

ghost use Rattle.std.specs.Prelude.{◌≡◌, ◌++◌, [], true, false, ◌*◌, ◌<◌, ◌≤◌, ◌+◌, IfOk, OnOk, OnErr, length};
ghost use Rattle.domain_run.specs.Domain.{Domain};
ghost use Rattle.domain_run.specs.Happened.{logged_by_beginning, logged_by_last_end, logged_by_ticks};
ghost use Rattle.domain_run.specs.Jump as jump;
ghost use Rattle.domain_run.specs.Keys.{AreKept};
ghost use Rattle.domain_run.specs.Log.{LogHasRoom, HasRoomToEnd, HasLogged};
ghost use Rattle.domain_run.specs.Sound.{IsDomain};
ghost use Rattle.domain_run.specs.Tick as tick;
ghost use Rattle.limits.specs.Limits.{clock_end};

use super::State;
use crate::log::Log;
use crate::running::are_still_listed;
use crate::{sweep, to_event};
use no_memory::NoMemory;

impl State {
    /// Ends the tick that has begun, and as many ticks in all as pass up to the first end of an
    /// open charge, and at most so many, which are at most [`State::quiet`]. The domain is then as
    /// after so many single ticks from where it was before [`State::begin`]. The log records what
    /// happens at the end of the last of them; the ends of the others and their beginnings log
    /// nothing.
    pub(super) fn run(&mut self, most: u64, log: &mut Log) -> u64
        requires begun { jump.IsUnderWay self.old }
        requires some { 0 < most }
        requires quiet { most ≤ jump.ticks_to_event self.old }
        requires early { self.old.time + most ≤ clock_end + 1 }
        requires room { HasRoomToEnd log.old }
        ensures some { 0 < result }
        ensures most { result ≤ most }
        ensures domain { (d : Domain) → self.old ≡ jump.under_way d
            → self.new ≡ tick.ticks result d }
        ensures logged { (d : Domain) → self.old ≡ jump.under_way d
            → HasLogged log.old (logged_by_last_end result d) log.new }
        ensures quiet { (d : Domain) → self.old ≡ jump.under_way d
            → logged_by_ticks result d ≡ logged_by_beginning d ++ logged_by_last_end result d }
        ensures switches { self.new.switches ≡ self.old.switches }
    {
        let ticks = to_event::leap(&mut self.task_table, self.limit, most, self.time, log);
        self.time += ticks - 1;
        ticks
    }

    /// As [`State::begin_logged`], in the room that is there: whether there was any for a switch of
    /// each CPU beside those so far. Where there is none, nothing has changed, and nothing is
    /// logged. There is where no switch waits. Who starts on a CPU gets an open charge at once, and
    /// the tasks that run on the CPUs are not listed where that has changed. Takes no memory.
    #[inline(always)]
    pub(super) fn begin_charging(&mut self, log: &mut Log) -> bool
        requires early { self.old.time < clock_end }
        requires log { LogHasRoom (9 * length self.old.tasks + 192) log.old }
        ensures some { self.old.switches ≡ [] → result ≡ true }
        ensures ok { result ≡ true → self.new ≡ jump.under_way self.old }
        ensures begun { result ≡ true → jump.IsUnderWay self.new }
        ensures full { result ≡ false → self.new ≡ self.old }
        ensures domain { IsDomain self.old }
        ensures logged { result ≡ true → HasLogged log.old (logged_by_beginning self.old) log.new }
        ensures room { result ≡ true → HasRoomToEnd log.new }
        ensures unlogged { result ≡ false → log.new ≡ log.old }
    {
        if self.switches.capacity() - self.switches.len() < self.cpus {
            return false;
        }
        let changed = sweep::begin_charging(
            self.time,
            self.limit,
            &mut self.task_table,
            &mut self.switches,
            log,
        );
        self.is_listed = are_still_listed(self.is_listed, changed);
        self.time += 1;
        true
    }

    /// As [`State::leap_in_room`], by one event.
    #[inline(always)]
    fn leap_once_in_room(&mut self, most: u64) -> u64
        requires some { 0 < most }
        requires early { self.old.time + most ≤ clock_end }
        ensures some { self.old.switches ≡ [] → 0 < result }
        ensures most { result ≤ most }
        ensures ticks { self.new ≡ tick.ticks result self.old }
        ensures keys { AreKept self.old.tasks self.new.tasks }
    {
        let mut log = self.silent();
        if !self.begin_charging(&mut log) {
            return 0;
        }
        let most = most.min(self.quiet());
        self.run(most, &mut log)
    }

    /// As [`State::leap`], in the room that is there. Where there is none for a switch of each CPU
    /// beside those so far, nothing has changed: it answers 0 then. There is where no switch waits.
    /// Takes no memory.
    pub(crate) fn leap_in_room(&mut self, most: u64) -> u64
        requires some { 0 < most }
        requires early { self.old.time + most ≤ clock_end }
        ensures some { self.old.switches ≡ [] → 0 < result }
        ensures most { result ≤ most }
        ensures ticks { self.new ≡ tick.ticks result self.old }
        ensures keys { AreKept self.old.tasks self.new.tasks }
    {
        let mut log = self.silent();
        let made = self.defer_long(most, usize::MAX, &mut log);
        if made > 0 {
            return made;
        }
        self.leap_once_in_room(most)
    }

    /// As [`State::leap_logged`], by one event.
    #[inline(always)]
    fn leap_once(&mut self, most: u64, log: &mut Log) -> Result<u64, NoMemory>
        requires some { 0 < most }
        requires early { self.old.time + most ≤ clock_end }
        ensures some { IfOk result (λ made. 0 < made) }
        ensures most { IfOk result (λ made. made ≤ most) }
        ensures ok { IfOk result (λ made. self.new ≡ tick.ticks made self.old) }
        ensures err { OnErr result (self.new ≡ self.old) }
        ensures keys { AreKept self.old.tasks self.new.tasks }
        ensures logged { IfOk result (λ made. HasLogged log.old
            (logged_by_ticks made self.old) log.new) }
        ensures unlogged { OnErr result (HasLogged log.old [] log.new) }
        ensures switches { OnOk result
            (length self.new.switches ≤ length self.old.switches + 64) }
        ensures happened { OnOk result
            (length log.new.happened ≤ length log.old.happened + 2304) }
    {
        self.begin_charging_anew(log)?;
        let most = most.min(self.quiet());
        Ok(self.run(most, log))
    }

    /// Goes on by one tick at least and by at most so many, mostly to the next event or to a later
    /// one, and answers how many they were: the state and its switches are exactly those of so many
    /// single ticks. It may stop before an event where a large budget of a task that reclaims would
    /// last for long. A running task is charged only there, where its work or its budget ends, and
    /// where its rate changes; what callers see is as if it were charged in each tick. Tasks that
    /// have left may go off the list; nobody comes, and the others keep number, bandwidth and
    /// order. Room for the switches is made first: on `Err` nothing has changed.
    pub fn leap(&mut self, most: u64) -> Result<u64, NoMemory>
        requires some { 0 < most }
        requires early { self.old.time + most ≤ clock_end }
        ensures some { IfOk result (λ made. 0 < made) }
        ensures most { IfOk result (λ made. made ≤ most) }
        ensures ok { IfOk result (λ made. self.new ≡ tick.ticks made self.old) }
        ensures err { OnErr result (self.new ≡ self.old) }
        ensures keys { AreKept self.old.tasks self.new.tasks }
    {
        let mut log = self.silent();
        let made = self.defer_long(most, usize::MAX, &mut log);
        if made > 0 {
            return Ok(made);
        }
        self.leap_once(most, &mut log)
    }

    /// As [`State::leap`], and the log records what happens in these ticks, in the order of
    /// "Happened". No event more is made once there are `enough` switches or entries of the log, so
    /// what both hold stays bounded. Room for what an event logs is made before it: on `Err`
    /// nothing has changed, and nothing is logged.
    pub fn leap_logged(&mut self, most: u64, enough: usize, log: &mut Log) -> Result<u64, NoMemory>
        requires some { 0 < most }
        requires early { self.old.time + most ≤ clock_end }
        ensures some { IfOk result (λ made. 0 < made) }
        ensures most { IfOk result (λ made. made ≤ most) }
        ensures ok { IfOk result (λ made. self.new ≡ tick.ticks made self.old) }
        ensures err { OnErr result (self.new ≡ self.old) }
        ensures keys { AreKept self.old.tasks self.new.tasks }
        ensures logged { IfOk result (λ made. HasLogged log.old
            (logged_by_ticks made self.old) log.new) }
        ensures unlogged { OnErr result (HasLogged log.old [] log.new) }
        ensures switches { OnOk result (length self.old.switches < enough
            → length log.old.happened < enough → length self.new.switches < enough + 64) }
        ensures happened { OnOk result (length self.old.switches < enough
            → length log.old.happened < enough → length log.new.happened < enough + 2304) }
    {
        let made = self.defer_long(most, enough, log);
        if made > 0 {
            return Ok(made);
        }
        self.leap_once(most, log)
    }
}
