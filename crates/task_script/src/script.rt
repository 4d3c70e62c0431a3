//! Scripts: what a task does, as phases of events (own; rt-app's phases and loops).

ghost use Rattle.std.specs.Prelude.{◌≡◌, ◌↔◌, IsTrue, IsOk, IfOk, MatchResult, IsSome, IfSome, All};
ghost use Rattle.task_script.specs.script.ScriptView.{IsEvent, IsPhase, IsScript, script_of};
ghost use Rattle.task_script.specs.script.Segments.{IsLoops, rounds_of, loops_of};
ghost use Rattle.task_script.specs.private.Steps.{IsSteps};

use crate::laid::{Body, Laid};
use crate::phase::{Event, Phase};
use crate::steps::Step;
use no_memory::NoMemory;
use std::alloc::Global;
use std::fmt;
use std::marker::Model;

/// The phases of a task in order, over and over, or so many rounds of them. Every script is within
/// the limits that [`Script::new`] tests.
#[derive(Drop)]
pub struct Script {
    rounds: Option<u32>,
    body: Body,
}

// As if the phases were its own. The steps are left out: they follow from the rest.
impl fmt::Debug for Script {
    fn fmt<W: fmt::Write>(&self, f: &mut fmt::Formatter<W>) -> fmt::Result {
        f.debug_struct("Script")
            .field("rounds", &self.rounds)
            .field("phases", &self.body.laid().phases())
            .finish()
    }
}

impl Model for Script {
    ghost use Rattle.task_script.specs.script.ScriptView.{ScriptView};
    ghost use Rattle.task_script.specs.private.Steps.{IsLaid};
    ghost use Rattle.task_script.specs.private.Bodies.{laid_of};

    ghost Value = { ScriptView };

    ghost view = { λ s. record { rounds = s.rounds; phases = (laid_of s.body).phases } };

    ghost invariant = { λ s. IsLaid
        (record { rounds = s.rounds; phases = (laid_of s.body).phases }) (laid_of s.body).steps };
}

/// What a script answers when it is asked.
#[derive(Clone, Copy)]
pub enum Segment {
    /// So much work, in microseconds.
    Run(u64),
    /// Blocked until this time, in microseconds.
    Until(u64),
    /// Waiting for a wake call.
    Wait,
    /// Ended, for good.
    End,
}

const MOST: u64 = 1_000_000_000;

fn is_event(event: &Event) -> bool
    ensures { IsTrue result ↔ IsEvent event.now }
{
    match event {
        Event::Run(n) | Event::Sleep(n) | Event::Timer(n) => *n > 0 && *n <= MOST,
        Event::Wait => true,
    }
}

fn are_events(events: &[Event]) -> bool
    ensures { IsTrue result ↔ All IsEvent events.now }
{
    events.iter().all(is_event)
}

fn is_phase(phase: &Phase) -> bool
    ensures { IsTrue result ↔ IsPhase phase.now }
{
    phase.count > 0
        && phase.count <= MOST
        && !phase.events.is_empty()
        && phase.events.len() <= 64
        && are_events(&phase.events)
}

fn are_phases(phases: &[Phase]) -> bool
    ensures { IsTrue result ↔ All IsPhase phases.now }
{
    phases.iter().all(is_phase)
}

fn rounds_within(loops: i64) -> Option<Option<u32>>
    ensures within { IsSome result ↔ IsLoops loops }
    ensures value { IfSome result (λ rounds. rounds ≡ rounds_of loops) }
{
    match loops {
        -1 => Some(None),
        1..=1_000_000_000 => Some(Some(loops as u32)),
        _ => None,
    }
}

impl Script {
    /// A script of so many rounds, -1 for no end, or 1 to 10^9, of 1 to 64 phases in order. The
    /// phases come back where a limit is not met: of this, of the counts (1 to 10^9) and events (1
    /// to 64) of a phase, or of an event's microseconds (1 to 10^9). Takes no memory.
    pub fn new(loops: i64, phases: Vec<Phase>) -> Result<Script, Vec<Phase>>
        ensures within { IsOk result ↔
            (IsLoops loops × IsScript (script_of (rounds_of loops) phases.items)) }
        ensures value { MatchResult result (λ s. s ≡ script_of (rounds_of loops) phases.items)
            (λ back. back.items ≡ phases.items) }
    {
        match rounds_within(loops) {
            Some(rounds) if !phases.is_empty() && phases.len() <= 64 && are_phases(&phases) => {
                Ok(Script {
                    rounds,
                    body: Body::Own(Laid::bare(phases)),
                })
            }
            _ => Err(phases),
        }
    }

    /// Lays the events of all phases out in one block, where there is more than one phase: a cursor
    /// goes through them faster so. Takes memory for it, and does without where that is refused.
    pub fn lay_out(&mut self)
        ensures { self.new ≡ self.old }
    {
        if let Body::Own(laid) = &mut self.body {
            laid.lay_out();
        }
    }

    /// Lays the events out, as [`Script::lay_out`] does, and puts the script into a block that its
    /// copies share: from then on [`Script::copy`] takes no memory. Takes memory for the block, and
    /// does without where that is refused.
    pub fn share(self, alloc: Global) -> Script
        ensures { result ≡ self }
    {
        let Script { rounds, body } = self;
        Script {
            rounds,
            body: body.shared(alloc),
        }
    }

    /// A copy of the script. Takes no memory where it is shared, else for all phases.
    ///
    /// # Errors
    /// 12 [`NoMemory`]: a growth was refused.
    pub fn copy(&self, alloc: Global) -> Result<Script, NoMemory>
        ensures { IfOk result (λ s. s ≡ self.now) }
    {
        Ok(Script {
            rounds: self.rounds,
            body: self.body.copy(alloc)?,
        })
    }

    /// The number of rounds, -1 for no end.
    pub fn loops(&self) -> i64
        ensures { result ≡ loops_of self.now.rounds }
    {
        match self.rounds {
            None => -1,
            Some(n) => n as i64,
        }
    }

    /// The number of rounds; none for no end.
    pub fn rounds(&self) -> Option<u32>
        ensures { result ≡ self.now.rounds }
    {
        self.rounds
    }

    /// The steps of a round, in order, or none.
    #[inline(always)]
    pub(crate) fn steps(&self) -> &[Step]
        ensures { IsSteps self.now result.now }
    {
        self.body.laid().steps()
    }

    /// The phases of a round, in order.
    pub fn phases(&self) -> &[Phase]
        ensures phases { result.now ≡ self.now.phases }
        ensures within { IsScript self.now }
    {
        self.body.laid().phases()
    }
}
