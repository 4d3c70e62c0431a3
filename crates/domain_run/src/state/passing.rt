//! A state forgets its switches, all or the first ones.

ghost use Rattle.std.specs.Prelude.{◌≡◌};
ghost use Rattle.domain_run.specs.Passing.{without_front, without_switches};

use super::State;

impl State {
    /// Forgets the switches so far, and keeps their room. Nothing else changes: no rule reads them,
    /// so each later call does what it would have done. Takes no memory.
    pub fn forget_switches(&mut self)
        ensures { self.new ≡ without_switches self.old }
    {
        self.switches.clear();
    }
    /// Forgets the first `count` of the switches so far, or all if they are fewer, and keeps their
    /// room. The others stay, in their order. Nothing else changes, as in
    /// [`State::forget_switches`]. Takes no memory.
    pub fn forget_front(&mut self, count: usize)
        ensures { self.new ≡ without_front count self.old }
    {
        if count >= self.switches.len() {
            self.forget_switches();
        } else {
            self.switches.drain(..count);
        }
    }
}
