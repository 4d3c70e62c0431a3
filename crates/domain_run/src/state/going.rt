//! A state goes on in time without a tick, and without its switches.

ghost use Rattle.std.specs.Prelude.{◌≡◌, ◌+◌, ◌≤◌, All, IsTrue};
ghost use Rattle.domain_run.specs.GoneOn.{MayGoOn};
ghost use Rattle.domain_run.specs.LowTimes.{HasTime};
ghost use Rattle.domain_run.specs.Passing.{without_switches};
ghost use Rattle.domain_run.specs.Tick as tick;
ghost use Rattle.limits.specs.Limits.{clock_end};

use super::State;
use crate::pace::Pace;

impl State {
    /// Whether all times of all tasks are low, so that [`State::go_on_by`] may be called. In a run
    /// within 2^42 us they always are.
    pub fn has_low_times(&self) -> bool
        ensures { IsTrue result → All HasTime self.now.tasks }
    {
        self.task_table.has_time()
    }

    /// Goes on by `micros` microseconds without a tick: each task goes on at the pace at its place,
    /// and the switches are forgotten. The caller knows that the ticks lead to this domain. Time
    /// stays within 2^42 us. Takes no memory.
    pub fn go_on_by(&mut self, micros: u64, paces: &[Pace])
        requires early { self.old.time + micros ≤ clock_end }
        requires low { All HasTime self.old.tasks }
        requires may { MayGoOn micros paces.now self.old }
        ensures { self.new ≡ without_switches (tick.ticks micros self.old) }
    {
        self.time += micros;
        self.task_table.repeat(micros, paces);
        self.switches.clear();
    }
}
