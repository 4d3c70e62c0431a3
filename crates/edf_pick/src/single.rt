//! One CPU: it has who stays there, or else the only mover.

ghost use Rattle.std.specs.Prelude.{◌≡◌, ◌≢◌, ◌<◌, ◌≤◌, ◌+◌, ◌∷◌, [], false, length, map, All, AllPairs};
ghost use Rattle.edf_pick.specs.Moves.{moved_from};
ghost use Rattle.edf_pick.specs.Changes.{with_home};
ghost use Rattle.edf_pick.specs.Places.{AreSingle, placed, is_on_cpu};
ghost use Rattle.edf_pick.specs.private.Ready.{all_held, all_ready, AreOn, AreAssigned, IsReady};

use crate::candidate::Candidate;
use crate::moves::{Moves, is_same};
use crate::placement::{Placement, settle};
use crate::queue::Queue;
use crate::running::RunningSet;

// The CPU has this one from now on, or nobody. Where it has that one already, nothing is written
// but that nobody has moved.
#[inline(always)]
fn on_one(placement: &mut Placement, moves: &mut Moves, is_on_cpu: Option<u32>)
    requires one { length placement.old ≡ 1 }
    ensures places { placement.new ≡ is_on_cpu ∷ [] }
    ensures moves { moves.new ≡ moved_from 0 placement.old placement.new }
{
    let was_on_cpu = placement.occupants()[0];
    if is_same(was_on_cpu, is_on_cpu) {
        moves.clear();
        return;
    }
    moves.list_first(was_on_cpu);
    placement.give(is_on_cpu);
}

// As [`settle`], on one CPU, which takes a few comparisons.
#[inline(always)]
fn settle_one(
    placement: &mut Placement,
    running: &mut RunningSet,
    movers: &[Candidate],
    moves: &mut Moves,
)
    requires one { length placement.old ≡ 1 }
    requires len { length running.old ≡ length placement.old }
    requires free { length (all_held running.old) + length movers.now ≤ length running.old }
    requires on { AreOn running.old placement.old }
    ensures assigned { AreAssigned running.old movers.now running.new placement.new }
    ensures moves { moves.new ≡ moved_from 0 placement.old placement.new }
{
    if running.busy() != 0 {
        moves.clear();
        return;
    }
    if movers.is_empty() {
        on_one(placement, moves, None);
        return;
    }
    let c = movers[0];
    running.stay(0, &c);
    on_one(placement, moves, Some(c.number));
}

/// As [`settle`], which is less work on one CPU.
#[inline(always)]
pub(crate) fn settle_all(
    placement: &mut Placement,
    running: &mut RunningSet,
    movers: &[Candidate],
    moves: &mut Moves,
)
    requires len { length running.old ≡ length placement.old }
    requires free { length (all_held running.old) + length movers.now ≤ length running.old }
    requires numbered { AllPairs (λ a b. a.number ≢ b.number) movers.now }
    requires on { AreOn running.old placement.old }
    requires away { All (λ c. is_on_cpu c.number placement.old ≡ false) movers.now }
    ensures assigned { AreAssigned running.old movers.now running.new placement.new }
    ensures moves { moves.new ≡ moved_from 0 placement.old placement.new }
    ensures single { AreSingle placement.old }
{
    if placement.occupants().len() == 1 {
        settle_one(placement, running, movers, moves);
        return;
    }
    settle(placement, running, movers, moves);
}

/// As [`crate::renew::pick_ready`], on one CPU where nobody stays: the first of those who wait
/// has it.
#[inline(always)]
pub(crate) fn pick_first(
    ready_rest: &mut Queue,
    running: &mut RunningSet,
    placement: &mut Placement,
    moves: &mut Moves,
)
    requires one { length placement.old ≡ 1 }
    requires bare { length (all_held running.old) ≡ 0 }
    requires some { 0 < length ready_rest.old }
    requires is { IsReady running.old ready_rest.old placement.old }
    ensures places { placement.new
        ≡ placed (length placement.old) (all_ready running.old ready_rest.old) placement.old }
    ensures queue { all_ready running.new ready_rest.new
        ≡ map (with_home placement.new) (all_ready running.old ready_rest.old) }
    ensures moves { moves.new ≡ moved_from 0 placement.old placement.new }
    ensures is { IsReady running.new ready_rest.new placement.new }
{
    // For the prover alone: a look at either brings what its type keeps.
    let _ = ready_rest.as_slice();
    let _ = placement.occupants();
    let c = ready_rest.take_first();
    running.stay(0, &c);
    on_one(placement, moves, Some(c.number));
}
