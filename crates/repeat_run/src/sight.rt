//! A domain that is written down, to be found again some time later.

ghost use Rattle.std.specs.Prelude.{◌≡◌, ◌<◌, ◌≤◌, IfSome, IsTrue, map};
ghost use Rattle.domain_run.specs.Domain.{Domain};
ghost use Rattle.domain_run.specs.Passing.{without_switches};
ghost use Rattle.domain_run.specs.Sound.{IsDomain};
ghost use Rattle.domain_run.specs.Tick as tick;
ghost use Rattle.repeat_law.specs.Repeats as repeats;
ghost use Rattle.repeat_run.specs.Sight.{IsSightOf, GoesOnAlike};

use crate::law::found_goes_on;
use crate::seeing::{paces_to, runs_same, see_all, see_running};
use domain_run::{Pace, State, TaskSeen};
use std::alloc::Global;
use std::marker::Model;

/// All tasks of a domain, and who ran on each CPU, as they were at a time. If the run comes back to
/// this, [`Sight::find`] answers for how many periods more it goes on alike.
#[derive(Drop)]
pub struct Sight {
    seen: Vec<TaskSeen>,
    running: Vec<Option<u32>>,
    /// The pace of each task in one period, and in all periods that were found.
    paces: Vec<Pace>,
    far: Vec<Pace>,
}

impl Model for Sight {
    ghost use Rattle.repeat_run.specs.Sight.{SightView};

    ghost Value = { SightView };

    ghost view = { λ s. record {
      seen = s.seen.items;
      running = s.running.items;
      paces = s.far.items;
    } };
}

// A pace for many periods. None if a number is too great.
fn far_pace(pace: Pace, periods: u64) -> Option<Pace>
    ensures { IfSome result (λ p. p ≡ repeats.many_paces periods pace) }
{
    match pace {
        Pace::Rests => Some(Pace::Rests),
        Pace::Plays(rounds) => match periods.checked_mul(rounds) {
            Some(all) => Some(Pace::Plays(all)),
            None => None,
        },
        Pace::Works(micros) => match periods.checked_mul(micros) {
            Some(all) => Some(Pace::Works(all)),
            None => None,
        },
    }
}

// The paces for many periods. False if a number is too great, or memory was refused.
fn far_paces(paces: &[Pace], periods: u64, far: &mut Vec<Pace>) -> bool
    ensures { IsTrue result → far.new.items ≡ map (repeats.many_paces periods) paces.now }
{
    far.clear();
    for place in 0..paces.len() {
        let Some(pace) = far_pace(paces[place], periods) else {
            return false;
        };
        match far.push(pace) {
            Ok(()) => {}
            Err(_) => return false,
        }
    }
    true
}

impl Sight {
    /// Nothing is written down yet. Takes no memory.
    pub fn new(alloc: Global) -> Sight {
        Sight {
            seen: Vec::new(alloc),
            running: Vec::new(alloc),
            paces: Vec::new(alloc),
            far: Vec::new(alloc),
        }
    }

    /// Writes the domain down, in place of what was written before. False if memory was refused;
    /// then nothing is known of what is written.
    pub fn write(&mut self, state: &State) -> bool
        ensures { IsTrue result → IsSightOf self.new state.now }
    {
        if !see_all(state, &mut self.seen) {
            return false;
        }
        see_running(state, &mut self.running)
    }

    /// Looks whether the domain has come back, `micros` microseconds later, to what was written
    /// down: each task and each CPU, field by field. Answers for how many periods more of this
    /// length it goes on alike, at least one and at most `most`; then [`Sight::paces`] has the pace
    /// of each task for all of them. None if it has not come back, if rounds or work end before, if
    /// a number is too great, or if memory was refused. What was written down stays.
    pub fn find(&mut self, state: &State, micros: u64, most: u64) -> Option<u64>
        ensures some { IfSome result (λ periods. 0 < periods) }
        ensures most { IfSome result (λ periods. periods ≤ most) }
        ensures alike { IfSome result (λ periods. (d : Domain) → IsDomain d → IsSightOf self.old d
            → without_switches state.now ≡ without_switches (tick.ticks micros d)
            → GoesOnAlike micros periods self.new.paces d) }
        ensures seen { self.new.seen ≡ self.old.seen }
        ensures running { self.new.running ≡ self.old.running }
    {
        found_goes_on();
        if !runs_same(state, &self.running) {
            return None;
        }
        let Some(lasts) = paces_to(state, &self.seen, micros, &mut self.paces) else {
            return None;
        };
        let periods = lasts.saturating_sub(1).min(most);
        if periods == 0 || !far_paces(&self.paces, periods, &mut self.far) {
            return None;
        }
        Some(periods)
    }

    /// The pace of each task, in the order of the list, for all periods that were found.
    pub fn paces(&self) -> &[Pace]
        ensures { result.now ≡ self.now.paces }
    {
        &self.far
    }
}
