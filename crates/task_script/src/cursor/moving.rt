//! Where a cursor is in its script, and how it comes further on in it without being asked.

ghost use Rattle.std.specs.Prelude.{◌≡◌, ◌+◌, ◌*◌, ◌<◌, ◌^◌};
ghost use Rattle.std.specs.List.{list_any};
ghost use Rattle.task_script.specs.script.ScriptView.{round_len};
ghost use Rattle.task_script.specs.script.Later.{HasRounds, has_timer, later_cursor, reads_reference};

use super::Cursor;
use crate::phase::{Event, Phase};
use crate::progress;
use crate::script::Script;

/// A place in a script.
#[derive(Clone, Copy)]
pub struct Place {
    /// The round, from 0. In a script without end it is always 0.
    pub round: u64,
    /// How many events of the round come before it.
    pub step: u64,
}

fn reads_reference(event: &Event) -> bool
    ensures { result ≡ reads_reference event.now }
{
    matches!(event, Event::Timer(_))
}

fn has_timer_in(phase: &Phase) -> bool
    ensures { result ≡ list_any reads_reference phase.now.events }
{
    phase.events.iter().any(reads_reference)
}

impl Script {
    /// Whether it has a timer. Without one, the reference of its cursor never changes.
    pub fn has_timer(&self) -> bool
        ensures { result ≡ has_timer self.now }
    {
        self.phases().iter().any(has_timer_in)
    }
}

impl Cursor {
    /// The place of its next event.
    pub fn place(&self) -> Place
        ensures place { result.round * round_len self.now.script + result.step ≡ self.now.place }
        ensures step { result.step < round_len self.now.script }
    {
        Place {
            round: self.progress.round(),
            step: progress::step_of(&self.script, self.progress),
        }
    }

    /// From when its timers count, in microseconds.
    pub fn reference(&self) -> u64
        ensures { result ≡ self.now.reference }
    {
        self.reference
    }

    /// Goes a number of rounds further on, if the script is finite, and counts its timers from so
    /// many microseconds later, if it has one. It then gives the events that it would give now.
    /// Takes no memory.
    pub fn go_on(&mut self, rounds: u64, micros: u64)
        requires rounds { 0 < rounds → HasRounds rounds self.old }
        requires early { self.old.reference + micros < 2 ^ 63 }
        ensures { self.new ≡ later_cursor micros rounds self.old }
    {
        if self.script.has_timer() {
            self.reference += micros;
        }
        progress::go_on(&self.script, &mut self.progress, rounds);
        self.coming = progress::event_of(&self.script, self.progress);
    }
}
