//! A period of a run is given again: the domain goes on in time, and no tick is made.

ghost use Rattle.std.specs.Prelude.{◌≡◌, ◌+◌, ◌≤◌, ◌<◌, ◌++◌, All, false, IsTrue, length, map, vec_capacity};
ghost use Rattle.domain_run.specs.Later.{later_switch};
ghost use Rattle.domain_run.specs.Shift.{given_again, AllMayGo};
ghost use Rattle.domain_run.specs.Tick as tick;
ghost use Rattle.limits.specs.Limits.{clock_end, deadline_end};

use super::State;
use crate::pace::Pace;
use crate::switch::Switch;

/// The most switches that are given again at once.
const MOST_SWITCHES: usize = 1 << 32;

// Appends the switches of a period, later by `later_by` microseconds.
fn append(switches: &mut Vec<Switch>, period: &[Switch], later_by: u64)
    requires room { length switches.old.items + length period.now ≤ vec_capacity switches.old }
    requires early { All (λ s. s.time + later_by < deadline_end) period.now }
    ensures switches { switches.new.items
        ≡ switches.old.items ++ map (later_switch later_by) period.now }
    ensures room { vec_capacity switches.new ≡ vec_capacity switches.old }
{
    for switch in period {
        switches.push_reserved(switch.later(later_by));
    }
}

impl State {
    /// As [`crate::Buffered::repeat`].
    pub(crate) fn repeat(
        &mut self,
        micros: u64,
        paces: &[Pace],
        later_by: u64,
        period: &[Switch],
    ) -> bool
        requires many { length paces.now ≡ length self.old.tasks }
        requires early { self.old.time + micros ≤ clock_end }
        requires may { AllMayGo paces.now self.old.tasks }
        requires again { tick.ticks micros self.old
            ≡ given_again micros paces.now later_by period.now self.old }
        ensures made { IsTrue result → self.new ≡ tick.ticks micros self.old }
        ensures not { result ≡ false → self.new ≡ self.old }
    {
        if period.len() > MOST_SWITCHES || !self.task_table.has_time() {
            return false;
        }
        // For the prover alone: matched, and not handed on by `?`.
        let Ok(()) = self.make_room(period.len()) else {
            return false;
        };
        if self.switches.capacity() - self.switches.len() < period.len() {
            // Never: the room is there.
            return false;
        }
        self.time += micros;
        self.task_table.repeat(micros, paces);
        append(&mut self.switches, period, later_by);
        true
    }
}
