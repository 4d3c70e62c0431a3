//! What comes next of all that happens and of all switches.

ghost use Rattle.std.specs.Prelude.{◌≡◌, ◌≤◌, length, replicate, All};
ghost use Rattle.switch_text.specs.Runs.{views, IsPrintable};
ghost use Rattle.switch_text.specs.EventLines.{IsLogged};
ghost use Rattle.switch_text.specs.private.EventMerging as merging;
ghost use Rattle.switch_text.specs.private.EventMerging.{after_next, places_of, CanShow, CanStep, IsEventFound};
ghost use Rattle.switch_text.specs.private.Winning.{IsMerge};

use crate::logged::DomainEvents;
use crate::logged_lines::has_a_line;
use crate::logged_merge::{NextLogged, next_logged};
use crate::merge::{Merge, Next};
use crate::run::Run;

/// What comes next: something that happens, or a switch.
#[derive(Clone, Copy)]
pub(crate) enum NextEvent<'a, 'b, 'c, 'd> {
    DomainEvents(NextLogged<'a, 'b>),
    Switch(Next<'c, 'd>),
}

/// How far each domain has gone, in its switches and in what happens.
#[derive(Drop)]
pub(crate) struct EventMerge {
    pub(crate) switches: Merge,
    pub(crate) logged: [usize; 8],
}

impl EventMerge {
    /// Each domain goes on from its start.
    pub(crate) fn start(runs: &[Run<'_>]) -> EventMerge
        requires few { length runs.now ≤ 8 }
        requires runs { All IsPrintable runs.now }
        ensures switches { result.switches.places ≡ replicate 8 0 }
        ensures logged { result.logged ≡ replicate 8 0 }
        ensures heads { IsMerge (views runs.now) result.switches }
    {
        EventMerge {
            switches: Merge::start(runs),
            logged: [0; 8],
        }
    }

    /// Goes on by what comes next.
    pub(crate) fn step(&mut self, runs: &[Run<'_>], next: &NextEvent<'_, '_, '_, '_>)
        requires few { length runs.now ≤ 8 }
        requires runs { All IsPrintable runs.now }
        requires places { CanStep (places_of self.old) next.now }
        requires shown { CanShow runs.now next.now }
        requires heads { IsMerge (views runs.now) self.old.switches }
        ensures places { places_of self.new ≡ after_next (places_of self.old) next.now }
        ensures heads { IsMerge (views runs.now) self.new.switches }
    {
        match next {
            NextEvent::DomainEvents(next) => self.logged[next.index] += 1,
            NextEvent::Switch(next) => self.switches.step(runs, next),
        }
    }
}

/// Whether it goes before the switch: a cut does, and all that happens before the switch or at its
/// time.
fn goes_first(happens: &NextLogged<'_, '_>, switch: &Next<'_, '_>) -> bool
    ensures { result ≡ merging.goes_first happens.now switch.now }
{
    !has_a_line(happens.happened.what) || happens.happened.time <= switch.switch.time()
}

fn first_of<'a, 'b, 'c, 'd>(
    happens: Option<NextLogged<'a, 'b>>,
    switch: Option<Next<'c, 'd>>,
) -> Option<NextEvent<'a, 'b, 'c, 'd>>
    ensures { result ≡ merging.first_event_of happens.entry switch.entry }
{
    let Some(happens) = happens else {
        return Some(NextEvent::Switch(switch?));
    };
    let Some(switch) = switch else {
        return Some(NextEvent::DomainEvents(happens));
    };
    if goes_first(&happens, &switch) {
        return Some(NextEvent::DomainEvents(happens));
    }
    Some(NextEvent::Switch(switch))
}

/// What comes next in the order of the events text, where each domain goes on from its places, or
/// none where nothing is left; a cut, which has no line, at once.
pub(crate) fn next_event<'a, 'b, 'c, 'd>(
    runs: &'c [Run<'d>],
    logged: &'a [DomainEvents<'b>],
    merge: &EventMerge,
) -> Option<NextEvent<'a, 'b, 'c, 'd>>
    requires few_runs { length runs.now ≤ 8 }
    requires few_logged { length logged.now ≤ 8 }
    requires runs { All IsPrintable runs.now }
    requires logged { All IsLogged logged.now }
    requires heads { IsMerge (views runs.now) merge.now.switches }
    ensures { IsEventFound runs.now logged.now (places_of merge.now) result }
{
    first_of(
        next_logged(logged, &merge.logged),
        merge.switches.next(runs),
    )
}
