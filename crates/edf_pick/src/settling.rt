//! Which task runs where once the choice is made: who does not stay goes, and then the movers get
//! their CPUs, one after another. Each stays there then.

ghost use Rattle.std.specs.Prelude.{ℕ, ◌≡◌, ◌≢◌, ◌<◌, ◌≤◌, ◌+◌, true, false, length, is_some, slice_index_or, slice_set, All, AllPairs, None, Some, vec_len, vec_capacity};
ghost use Rattle.std.specs.Int.{bit_at};
ghost use Rattle.edf_pick.specs.Moves.{same_occupant};
ghost use Rattle.edf_pick.specs.Places as placing;
ghost use Rattle.edf_pick.specs.Places.{AreSingle, AreTaken};
ghost use Rattle.edf_pick.specs.private.Ready as spec;

use crate::assignments::{cpu_for, occupy, vacate};
use crate::candidate::Candidate;
use crate::running::RunningSet;
use cpu_marks::{beyond, both, first, without};

// A mover gets its CPU, and stays there.
#[inline(always)]
fn assign_mover(
    places: &mut Vec<Option<u32>>,
    running: &mut RunningSet,
    c: &Candidate,
    taken: u64,
) -> u64
    requires few { vec_len places.old ≤ 64 }
    requires free { is_some (placing.cpu_for places.old.items c.now) ≡ true }
    requires same { spec.running_places running.old ≡ places.old.items }
    requires taken { AreTaken places.old.items taken }
    ensures places { (cpu : ℕ) → placing.cpu_for places.old.items c.now ≡ Some cpu
        → places.new.items ≡ slice_set places.old.items cpu (Some c.now.number) }
    ensures running { (cpu : ℕ) → placing.cpu_for places.old.items c.now ≡ Some cpu
        → running.new ≡ slice_set running.old cpu (Some (record c.now { home = cpu })) }
    ensures len { vec_len places.new ≡ vec_len places.old }
    ensures room { vec_capacity places.new ≡ vec_capacity places.old }
    ensures taken { AreTaken places.new.items result }
{
    let Some(cpu) = cpu_for(places, c, taken) else {
        return taken;
    };
    running.stay(cpu, c);
    occupy(places, cpu, c.number, taken)
}

// The movers, in their order.
#[inline(always)]
fn assign_all(
    places: &mut Vec<Option<u32>>,
    running: &mut RunningSet,
    movers: &[Candidate],
    taken: u64,
) -> u64
    requires few { vec_len places.old ≤ 64 }
    requires free { length (spec.all_held running.old) + length movers.now ≤ length running.old }
    requires numbered { AllPairs (λ a b. a.number ≢ b.number) movers.now }
    requires on { spec.AreOn running.old places.old.items }
    requires away { All (λ c. placing.is_on_cpu c.number places.old.items ≡ false) movers.now }
    requires same { places.old.items ≡ spec.running_places running.old }
    requires taken { AreTaken places.old.items taken }
    ensures assigned { spec.AreAssigned running.old movers.now running.new places.new.items }
    ensures len { vec_len places.new ≡ vec_len places.old }
    ensures room { vec_capacity places.new ≡ vec_capacity places.old }
    ensures taken { AreTaken places.new.items result }
{
    let mut marks = taken;
    for i in 0..movers.len() {
        marks = assign_mover(places, running, &movers[i], marks);
    }
    marks
}

// No task runs on the marked CPUs any more.
#[inline(always)]
fn clear(places: &mut Vec<Option<u32>>, left: u64, taken: u64) -> u64
    requires few { vec_len places.old ≤ 64 }
    requires within { (cpu : ℕ) → bit_at left cpu ≡ 1 → cpu < vec_len places.old }
    requires taken { AreTaken places.old.items taken }
    ensures gone { (cpu : ℕ) → bit_at left cpu ≡ 1
        → slice_index_or places.new.items cpu None ≡ None }
    ensures others { (cpu : ℕ) → bit_at left cpu ≡ 0
        → slice_index_or places.new.items cpu None ≡ slice_index_or places.old.items cpu None }
    ensures len { vec_len places.new ≡ vec_len places.old }
    ensures room { vec_capacity places.new ≡ vec_capacity places.old }
    ensures taken { AreTaken places.new.items result }
{
    let mut marks = taken;
    let mut ahead = left;
    'cpus: while ahead != 0 {
        let cpu = first(ahead);
        ahead = without(ahead, cpu);
        marks = vacate(places, cpu, marks);
    }
    marks
}

/// Moves the occupants on: who does not stay goes, and then the movers, who run nowhere, get their
/// CPUs. Marks of the CPUs that have another one.
#[inline(always)]
pub(crate) fn move_on(
    places: &mut Vec<Option<u32>>,
    running: &mut RunningSet,
    movers: &[Candidate],
    taken: &mut u64,
) -> u64
    requires few { vec_len places.old ≤ 64 }
    requires len { length running.old ≡ vec_len places.old }
    requires free { length (spec.all_held running.old) + length movers.now ≤ length running.old }
    requires numbered { AllPairs (λ a b. a.number ≢ b.number) movers.now }
    requires on { spec.AreOn running.old places.old.items }
    requires away { All (λ c. placing.is_on_cpu c.number places.old.items ≡ false) movers.now }
    requires single { AreSingle places.old.items }
    requires taken { AreTaken places.old.items taken.old }
    ensures assigned { spec.AreAssigned running.old movers.now running.new places.new.items }
    ensures len { vec_len places.new ≡ vec_len places.old }
    ensures room { vec_capacity places.new ≡ vec_capacity places.old }
    ensures taken { AreTaken places.new.items taken.new }
    ensures single { AreSingle places.new.items }
    ensures changed { (cpu : ℕ) → bit_at result cpu ≡ 0
        → slice_index_or places.old.items cpu None ≡ slice_index_or places.new.items cpu None }
    ensures differ { (cpu : ℕ) → bit_at result cpu ≡ 1
        → same_occupant (slice_index_or places.old.items cpu None)
        (slice_index_or places.new.items cpu None) ≡ false }
{
    let was_on_cpu = *taken;
    let kept = clear(places, beyond(was_on_cpu, running.marks()), was_on_cpu);
    let now = assign_all(places, running, movers, kept);
    *taken = now;
    both(beyond(was_on_cpu, kept), beyond(now, kept))
}
