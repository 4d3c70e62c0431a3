//! From event to event with a log, in the room that is there.

ghost use Rattle.std.specs.Prelude.{◌≡◌, [], ◌<◌, ◌≤◌, ◌+◌, ◌-◌, length};
ghost use Rattle.domain_run.specs.Happened.{logged_by_ticks};
ghost use Rattle.domain_run.specs.Keys.{AreKept};
ghost use Rattle.domain_run.specs.Log.{HasLogged};
ghost use Rattle.domain_run.specs.Tick as tick;
ghost use Rattle.limits.specs.Limits.{clock_end};

use super::State;
use crate::log::Log;

impl State {
    /// As `leap_logged_in_room`, by one event.
    fn leap_once_logged_in_room(&mut self, most: u64, log: &mut Log) -> u64
        requires some { 0 < most }
        requires early { self.old.time + most ≤ clock_end }
        ensures some { self.old.switches ≡ [] → 2496 ≤ log.old.room → 0 < result }
        ensures most { result ≤ most }
        ensures ticks { self.new ≡ tick.ticks result self.old }
        ensures keys { AreKept self.old.tasks self.new.tasks }
        ensures logged { HasLogged log.old (logged_by_ticks result self.old) log.new }
    {
        if log.lacks_room(9 * self.task_table.len() + 192) {
            return 0;
        }
        if !self.begin_charging(log) {
            return 0;
        }
        let most = most.min(self.quiet());
        self.run(most, log)
    }

    /// As [`State::leap_logged`], in the room that is there. If there is none for a switch of each
    /// CPU, or none in the log for what an event logs, nothing has changed, nothing is logged, and
    /// it answers 0. There is room if no switch waits and the log takes 2496 entries more. Takes no
    /// memory.
    fn leap_logged_in_room(&mut self, most: u64, log: &mut Log) -> u64
        requires some { 0 < most }
        requires early { self.old.time + most ≤ clock_end }
        ensures some { self.old.switches ≡ [] → 2496 ≤ log.old.room → 0 < result }
        ensures most { result ≤ most }
        ensures ticks { self.new ≡ tick.ticks result self.old }
        ensures keys { AreKept self.old.tasks self.new.tasks }
        ensures logged { HasLogged log.old (logged_by_ticks result self.old) log.new }
    {
        let made = self.defer_long(most, usize::MAX, log);
        if made > 0 {
            return made;
        }
        self.leap_once_logged_in_room(most, log)
    }

    /// Makes at most `n` ticks, from event to event, until there is no room for the switches of one
    /// more event, or none in the log for what it logs, and answers how many of them are left. The
    /// log records what happens in those that are made. Takes no memory.
    pub(crate) fn fill_logged(&mut self, n: u64, log: &mut Log) -> u64
        requires early { self.old.time + n ≤ clock_end }
        requires room { 2496 ≤ log.old.room + length log.old.happened }
        ensures made { self.new ≡ tick.ticks (n - result) self.old }
        ensures most { result ≤ n }
        ensures full { 0 < result → 0 < length self.new.switches + length log.new.happened }
        ensures logged { HasLogged log.old (logged_by_ticks (n - result) self.old) log.new }
        ensures keys { AreKept self.old.tasks self.new.tasks }
    {
        let mut left = n;
        'events: while left > 0 {
            let made = self.leap_logged_in_room(left, log);
            if made == 0 {
                return left;
            }
            left -= made;
        }
        0
    }
}
