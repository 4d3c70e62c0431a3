//! One tick: it begins, and every running task is charged.

ghost use Rattle.std.specs.Prelude.{◌≡◌, ◌<◌, OnOk, OnErr};
ghost use Rattle.domain_run.specs.Tick as tick;
ghost use Rattle.domain_run.specs.Keys.{AreKept};
ghost use Rattle.domain_run.specs.Sound.{IsPlacement};
ghost use Rattle.limits.specs.Limits.{clock_end};

use super::State;
use crate::charging;
use no_memory::NoMemory;

impl State {
    /// One tick, from the time now to the next microsecond: throttled tasks whose deadline has come
    /// are replenished, zero-lag times that have come are dropped, blocked tasks whose time has
    /// come ask their scripts, the ready tasks with the earliest deadlines are placed, the switches
    /// are added, and every running task is charged. Tasks that have left may go off the list;
    /// nobody comes, and the others keep number, bandwidth and order. Room for the switches is made
    /// first: on `Err` nothing has changed.
    pub fn tick(&mut self) -> Result<(), NoMemory>
        requires { self.old.time < clock_end }
        ensures ok { OnOk result (self.new ≡ tick.ticked self.old) }
        ensures placed { OnOk result (IsPlacement (tick.with_tick_begun self.old)) }
        ensures keys { OnOk result (AreKept self.old.tasks self.new.tasks) }
        ensures err { OnErr result (self.new ≡ self.old) }
    {
        self.begin()?;
        let mut budgets = [0; 64];
        let count = charging::charge(self, &mut budgets);
        self.finish(1, &budgets[..count]);
        Ok(())
    }
}
