//! The choice of the next tick where who stays runs on its CPU: nothing is done where each occupant
//! stays and nobody who waits is before one of them.

ghost use Rattle.std.specs.Prelude.{◌≡◌, ◌<◌, ◌⊎◌, [], true, false, length, map, slice_index_or, All};
ghost use Rattle.edf_pick.specs.Changes.{with_home};
ghost use Rattle.edf_pick.specs.Choice as choice;
ghost use Rattle.edf_pick.specs.Moves.{moved_from};
ghost use Rattle.edf_pick.specs.Places.{placed};
ghost use Rattle.edf_pick.specs.private.Choosing.{IsChosen};
ghost use Rattle.edf_pick.specs.private.RunningSet.{bare_key};
ghost use Rattle.edf_pick.specs.private.Ready as spec;

use crate::choosing::choose_all;
use crate::movers::Movers;
use crate::moves::Moves;
use crate::placement::Placement;
use crate::queue::Queue;
use crate::running::RunningSet;
use crate::single::{pick_first, settle_all};

// Whether each occupant stays.
#[inline(always)]
fn all_stay(running: &RunningSet, placement: &Placement) -> bool
    requires len { length running.now ≡ length placement.now }
    requires on { spec.AreOn running.now placement.now }
    ensures { result ≡ true → spec.running_places running.now ≡ placement.now }
{
    running.marks() == placement.taken()
}

// Whether nobody waits, or each of so many CPUs has one who stays and none of those is after the
// first of those who wait.
#[inline(always)]
fn none_earlier(ready_rest: &Queue, running: &RunningSet, cpus: usize) -> bool
    ensures all { result ≡ true
        → (ready_rest.now ≡ []) ⊎ (length (spec.all_held running.now) ≡ cpus) }
    ensures first { result ≡ true → (ready_rest.now ≡ [])
        ⊎ All (λ a. choice.is_before (slice_index_or ready_rest.now 0 bare_key) a ≡ false)
        (spec.all_held running.now) }
{
    let tasks = ready_rest.as_slice();
    if tasks.is_empty() {
        return true;
    }
    running.busy() == cpus && !running.may_outlast(&tasks[0])
}

// Whether the choice is that of those who stay.
#[inline(always)]
fn is_still(ready_rest: &Queue, running: &RunningSet, placement: &Placement) -> bool
    requires { spec.IsReady running.now ready_rest.now placement.now }
    ensures chosen { result ≡ true → IsChosen running.now [] ready_rest.now placement.now }
    ensures same { result ≡ true → spec.running_places running.now ≡ placement.now }
{
    // For the prover alone: a look at the queue brings what its type keeps.
    let _ = ready_rest.as_slice();
    all_stay(running, placement) && none_earlier(ready_rest, running, placement.occupants().len())
}

// Whether there is one CPU, nobody stays there, and one waits.
#[inline(always)]
fn is_first_alone(ready_rest: &Queue, running: &RunningSet, placement: &Placement) -> bool
    ensures one { result ≡ true → length placement.now ≡ 1 }
    ensures bare { result ≡ true → length (spec.all_held running.now) ≡ 0 }
    ensures some { result ≡ true → 0 < length ready_rest.now }
{
    placement.occupants().len() == 1 && running.busy() == 0 && !ready_rest.is_empty()
}

// As `pick_ready`, where something may have changed.
#[inline(always)]
fn pick_anew(
    ready_rest: &mut Queue,
    running: &mut RunningSet,
    movers: &mut Movers,
    placement: &mut Placement,
    moves: &mut Moves,
)
    requires { spec.IsReady running.old ready_rest.old placement.old }
    ensures places { placement.new
        ≡ placed (length placement.old) (spec.all_ready running.old ready_rest.old) placement.old }
    ensures queue { spec.all_ready running.new ready_rest.new
        ≡ map (with_home placement.new) (spec.all_ready running.old ready_rest.old) }
    ensures moves { moves.new ≡ moved_from 0 placement.old placement.new }
    ensures is { spec.IsReady running.new ready_rest.new placement.new }
{
    // For the prover alone: a look at either brings what its type keeps.
    let _ = ready_rest.as_slice();
    let occupants = placement.occupants();
    choose_all(ready_rest, running, movers, occupants);
    settle_all(placement, running, movers.as_slice(), moves);
}

/// The choice and its placement, of those who stay and those who wait, as one queue. Lists the CPUs
/// that another one has. Each task that runs then belongs to its CPU, and stays there.
#[inline(always)]
pub(crate) fn pick_ready(
    ready_rest: &mut Queue,
    running: &mut RunningSet,
    movers: &mut Movers,
    placement: &mut Placement,
    moves: &mut Moves,
)
    requires { spec.IsReady running.old ready_rest.old placement.old }
    ensures places { placement.new
        ≡ placed (length placement.old) (spec.all_ready running.old ready_rest.old) placement.old }
    ensures queue { spec.all_ready running.new ready_rest.new
        ≡ map (with_home placement.new) (spec.all_ready running.old ready_rest.old) }
    ensures moves { moves.new ≡ moved_from 0 placement.old placement.new }
    ensures is { spec.IsReady running.new ready_rest.new placement.new }
{
    // For the prover alone: a look at the placement brings what its type keeps.
    let _ = placement.occupants();
    if is_still(ready_rest, running, placement) {
        moves.clear();
        return;
    }
    if is_first_alone(ready_rest, running, placement) {
        pick_first(ready_rest, running, placement, moves);
        return;
    }
    pick_anew(ready_rest, running, movers, placement, moves);
}
