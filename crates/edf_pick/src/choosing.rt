//! The choice: as many of the first tasks as there are CPUs, by a look at those who wait alone.
//! Where a CPU is left for one the first of them is chosen; where none is, it displaces the latest
//! of those who stay if it is before that one, who waits then.

ghost use Rattle.std.specs.Prelude.{◌≡◌, ◌<◌, ◌≤◌, ◌+◌, ◌⊎◌, ◌++◌, [], true, false, length, slice_index_or, All, IfNone, IfSome, None, Some};
ghost use Rattle.std.specs.List.Sorted.{IsPermutation};
ghost use Rattle.edf_pick.specs.Choice as choice;
ghost use Rattle.edf_pick.specs.private.Choosing as spec;
ghost use Rattle.edf_pick.specs.Changes.{is_home};
ghost use Rattle.edf_pick.specs.private.RunningSet.{bare_key};
ghost use Rattle.edf_pick.specs.private.Ready.{all_held};

use crate::assignments::is_at_home;
use crate::candidate::Candidate;
use crate::movers::Movers;
use crate::order::is_before;
use crate::queue::Queue;
use crate::running::RunningSet;

// A chosen task stays where it runs, or is a mover.
#[inline(always)]
fn choose(running: &mut RunningSet, movers: &mut Movers, places: &[Option<u32>], c: &Candidate)
    requires len { length running.old ≡ length places.now }
    requires few { length movers.old < 64 }
    requires bare { is_home places.now c.now ≡ true
        → slice_index_or running.old c.now.home None ≡ None }
    ensures running { running.new ≡ spec.chosen_stays places.now c.now running.old }
    ensures movers { movers.new ≡ spec.chosen_movers places.now c.now movers.old }
{
    if is_at_home(places, c) {
        running.stay(c.home as usize, c);
    } else {
        movers.push(*c);
    }
}

// The first of those who wait is chosen.
#[inline(always)]
fn choose_first(
    ready_rest: &mut Queue,
    running: &mut RunningSet,
    movers: &mut Movers,
    places: &[Option<u32>],
)
    requires few { length places.now ≤ 64 }
    requires some { 0 < length ready_rest.old }
    requires is { spec.IsChoosing running.old movers.old ready_rest.old places.now }
    requires free { length (all_held running.old) + length movers.old < length places.now }
    ensures is { spec.IsChoosing running.new movers.new ready_rest.new places.now }
    ensures same { IsPermutation (all_held running.old ++ (movers.old ++ ready_rest.old))
        (all_held running.new ++ (movers.new ++ ready_rest.new)) }
    ensures fewer { length ready_rest.new < length ready_rest.old }
{
    let c = ready_rest.take_first();
    choose(running, movers, places, &c);
}

// The first of those who wait are chosen, as long as a CPU is left for one.
#[inline(always)]
fn fill(
    ready_rest: &mut Queue,
    running: &mut RunningSet,
    movers: &mut Movers,
    places: &[Option<u32>],
)
    requires few { length places.now ≤ 64 }
    requires is { spec.IsChoosing running.old movers.old ready_rest.old places.now }
    ensures is { spec.IsChoosing running.new movers.new ready_rest.new places.now }
    ensures same { IsPermutation (all_held running.old ++ (movers.old ++ ready_rest.old))
        (all_held running.new ++ (movers.new ++ ready_rest.new)) }
    ensures all { spec.AreAllAssigned running.new movers.new ready_rest.new places.now }
{
    'free: while !ready_rest.is_empty() && running.busy() + movers.len() < places.len() {
        choose_first(ready_rest, running, movers, places);
    }
}

// The latest of those who stay, if the first of those who wait is before it.
#[inline(always)]
fn outdone(ready_rest: &Queue, running: &mut RunningSet) -> Option<Candidate>
    ensures still { running.new ≡ running.old }
    ensures none { IfNone result ((ready_rest.now ≡ [])
        ⊎ All (λ a. choice.is_before (slice_index_or ready_rest.now 0 bare_key) a ≡ false)
        (all_held running.old)) }
    ensures some { IfSome result (λ last. 0 < length ready_rest.now) }
    ensures first { IfSome result (λ last.
        choice.is_before (slice_index_or ready_rest.now 0 bare_key) last ≡ true) }
    ensures there { IfSome result (λ last. slice_index_or running.old last.home None ≡ Some last) }
{
    let tasks = ready_rest.as_slice();
    if tasks.is_empty() {
        return None;
    }
    let c = tasks[0];
    if !running.may_outlast(&c) {
        return None;
    }
    let last = running.latest();
    if is_before(&c, &last) {
        return Some(last);
    }
    None
}

// The first of those who wait is chosen in the place of one who stays and is after it.
#[inline(always)]
fn displace(
    ready_rest: &mut Queue,
    running: &mut RunningSet,
    movers: &mut Movers,
    places: &[Option<u32>],
    last: Candidate,
)
    requires few { length places.now ≤ 64 }
    requires some { 0 < length ready_rest.old }
    requires is { spec.IsChoosing running.old movers.old ready_rest.old places.now }
    requires first { choice.is_before (slice_index_or ready_rest.old 0 bare_key) last ≡ true }
    requires there { slice_index_or running.old last.home None ≡ Some last }
    ensures is { spec.IsChoosing running.new movers.new ready_rest.new places.now }
    ensures same { IsPermutation (all_held running.old ++ (movers.old ++ ready_rest.old))
        (all_held running.new ++ (movers.new ++ ready_rest.new)) }
    ensures busy { length (all_held running.new) + length movers.new
        ≡ length (all_held running.old) + length movers.old }
    ensures earlier { spec.total (all_held running.new ++ movers.new)
        < spec.total (all_held running.old ++ movers.old) }
{
    let c = ready_rest.take_first();
    running.off(last.home as usize);
    ready_rest.insert(last);
    choose(running, movers, places, &c);
}

// As long as one who waits is before one who stays, it is chosen in its place.
#[inline(always)]
fn displace_all(
    ready_rest: &mut Queue,
    running: &mut RunningSet,
    movers: &mut Movers,
    places: &[Option<u32>],
)
    requires few { length places.now ≤ 64 }
    requires is { spec.IsChoosing running.old movers.old ready_rest.old places.now }
    requires all { spec.AreAllAssigned running.old movers.old ready_rest.old places.now }
    ensures is { spec.IsChosen running.new movers.new ready_rest.new places.now }
    ensures same { IsPermutation (all_held running.old ++ (movers.old ++ ready_rest.old))
        (all_held running.new ++ (movers.new ++ ready_rest.new)) }
{
    'rounds: while let Some(last) = outdone(ready_rest, running) {
        displace(ready_rest, running, movers, places, last);
    }
}

/// The choice of those who run: who stays where it runs, who moves, and who waits.
#[inline(always)]
pub(crate) fn choose_all(
    ready_rest: &mut Queue,
    running: &mut RunningSet,
    movers: &mut Movers,
    places: &[Option<u32>],
)
    requires few { length places.now ≤ 64 }
    requires is { spec.IsChoosing running.old [] ready_rest.old places.now }
    ensures is { spec.IsChosen running.new movers.new ready_rest.new places.now }
    ensures same { IsPermutation (all_held running.old ++ ready_rest.old)
        (all_held running.new ++ (movers.new ++ ready_rest.new)) }
{
    movers.clear();
    fill(ready_rest, running, movers, places);
    displace_all(ready_rest, running, movers, places);
}
