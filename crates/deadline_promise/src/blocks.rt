//! How some events block: by timers, sleeps or waits, and for how long at the least.

ghost use Rattle.std.specs.Prelude.{◌≡◌};
ghost use Rattle.deadline_promise.specs.private.Blocking as spec;

use task_script::{Event, Phase};

#[derive(Clone, Copy)]
pub(crate) struct Blocks {
    /// The least timer or sleep, in microseconds.
    pub gap: Option<u64>,
    pub timers: bool,
    pub sleeps: bool,
    pub waits: bool,
}

fn lower(gap: Option<u64>, n: u64) -> Option<u64>
    ensures { result ≡ spec.lesser_gap gap n }
{
    match gap {
        None => Some(n),
        Some(least) => Some(least.min(n)),
    }
}

impl Blocks {
    fn none() -> Blocks
        ensures { result ≡ spec.no_blocks }
    {
        Blocks {
            gap: None,
            timers: false,
            sleeps: false,
            waits: false,
        }
    }

    fn with_block(self, event: Event) -> Blocks
        ensures { result ≡ spec.with_block self event }
    {
        match event {
            Event::Run(_) => self,
            Event::Sleep(n) => Blocks {
                gap: lower(self.gap, n),
                sleeps: true,
                ..self
            },
            Event::Timer(n) => Blocks {
                gap: lower(self.gap, n),
                timers: true,
                ..self
            },
            Event::Wait => Blocks {
                waits: true,
                ..self
            },
        }
    }

    fn with_blocks(self, events: &[Event]) -> Blocks
        ensures { result ≡ spec.with_blocks self events.now }
    {
        let mut blocks = self;
        for i in 0..events.len() {
            blocks = blocks.with_block(events[i]);
        }
        blocks
    }

    /// Of the events of some phases.
    pub fn of_phases(phases: &[Phase]) -> Blocks
        ensures { result ≡ spec.blocks_of_phases phases.now }
    {
        let mut blocks = Blocks::none();
        for i in 0..phases.len() {
            let phase = &phases[i];
            blocks = blocks.with_blocks(&phase.events);
        }
        blocks
    }

    /// Whether they block by timers alone, or by sleeps alone.
    pub fn are_alike(self) -> bool
        ensures { result ≡ spec.are_alike self }
    {
        !self.waits && !(self.timers && self.sleeps)
    }
}
