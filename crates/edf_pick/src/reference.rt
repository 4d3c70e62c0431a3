//! The choice and the placement of one tick in their plainest form, as `specs/Choice.antt` and
//! `specs/Places.antt` define them. The engine calls [`crate::Schedule::pick`] instead, which
//! chooses the same tasks and puts them on the same CPUs.

ghost use Rattle.std.specs.Prelude.{◌≡◌, ◌<◌, map, length, position, is_none, None, IfSome, slice_index_or, slice_set};
ghost use Rattle.edf_pick.specs.Choice as choice;
ghost use Rattle.edf_pick.specs.Places as placing;
ghost use Rattle.edf_pick.specs.Places.{placed};

use crate::assignments::{is_free, is_task};
use crate::candidate::Candidate;
use crate::order::is_before;
use crate::placement::Placement;
use crate::queue::Queue;

/// Whether a task runs on a CPU.
pub fn is_on_cpu(number: u32, places: &[Option<u32>]) -> bool
    ensures { result ≡ placing.is_on_cpu number places.now }
{
    places.iter().any(|occupant| is_task(number, occupant))
}

// How many ready tasks are ahead of a task.
fn rank(ready: &[Candidate], c: &Candidate) -> usize
    ensures { result ≡ choice.rank ready.now c.now }
{
    ready.iter().filter(|a| is_before(a, c)).count()
}

// Whether fewer ready tasks are ahead of a task than there are CPUs.
fn is_chosen(cpus: usize, ready: &[Candidate], c: &Candidate) -> bool
    ensures { result ≡ choice.is_chosen cpus ready.now c.now }
{
    rank(ready, c) < cpus
}

// The ready task that has `r` others ahead of it.
fn at_rank(ready: &[Candidate], r: usize) -> Option<Candidate>
    ensures { result ≡ choice.candidate_at_rank ready.now r }
{
    ready.iter().copied().find(|c| rank(ready, c) == r)
}

// Whether the task of this number is ready and chosen.
fn is_chosen_number(cpus: usize, ready: &[Candidate], number: u32) -> bool
    ensures { result ≡ placing.is_chosen_number cpus ready.now number }
{
    ready
        .iter()
        .any(|c| c.number == number && is_chosen(cpus, ready, c))
}

// The occupant of a CPU, if it is chosen.
fn kept(cpus: usize, ready: &[Candidate], occupant: Option<u32>) -> Option<u32>
    ensures { result ≡ placing.kept_if_chosen cpus ready.now occupant }
{
    match occupant {
        Some(number) if is_chosen_number(cpus, ready, number) => Some(number),
        _ => None,
    }
}

// The occupant of one CPU leaves it, unless it is chosen.
fn keep_at(placement: &mut Placement, ready: &[Candidate], cpu: usize)
    requires { cpu < length placement.old }
    ensures { placement.new ≡ slice_set placement.old cpu
        (placing.kept_if_chosen (length placement.old) ready.now
        (slice_index_or placement.old cpu None)) }
{
    let places = placement.occupants();
    if kept(places.len(), ready, places[cpu]).is_none() {
        placement.vacate(cpu);
    }
}

// Each occupant that is not chosen leaves its CPU.
fn keep_all(placement: &mut Placement, ready: &[Candidate])
    ensures { placement.new ≡ map (placing.kept_if_chosen (length placement.old) ready.now)
        placement.old }
{
    for cpu in 0..placement.occupants().len() {
        keep_at(placement, ready, cpu);
    }
}

fn lowest_idle(places: &[Option<u32>]) -> Option<usize>
    ensures cpu { result ≡ position (λ occupant. is_none occupant) places.now }
    ensures within { IfSome result (λ cpu. cpu < length places.now) }
{
    places.iter().position(|occupant| occupant.is_none())
}

// The CPU for a task that runs nowhere: its home if that is idle, else the lowest idle one.
fn cpu_for(places: &[Option<u32>], c: &Candidate) -> Option<usize>
    ensures cpu { result ≡ placing.cpu_for places.now c.now }
    ensures within { IfSome result (λ cpu. cpu < length places.now) }
{
    let home = c.home as usize;
    if is_free(places, home) {
        return Some(home);
    }
    lowest_idle(places)
}

// A chosen task that runs nowhere gets a CPU.
fn put(placement: &mut Placement, c: &Candidate)
    ensures { placement.new ≡ placing.assigned placement.old c.now }
{
    let places = placement.occupants();
    if is_on_cpu(c.number, places) {
        return;
    }
    if let Some(cpu) = cpu_for(places, c) {
        placement.occupy(cpu, c.number);
    }
}

// The chosen tasks get their CPUs one after another, by rank.
fn put_all(placement: &mut Placement, ready: &[Candidate])
    ensures { placement.new ≡ placing.assigned_upto ready.now placement.old (length placement.old) }
{
    for r in 0..placement.occupants().len() {
        if let Some(c) = at_rank(ready, r) {
            put(placement, &c);
        }
    }
}

/// Moves the occupants of the CPUs on by one tick. As many of the first tasks of the queue are
/// chosen as there are CPUs (global EDF: sched-deadline.rst, "Main algorithm"; ties and the
/// placement are own). A chosen task stays where it runs; the others, in the order of the queue, go
/// to the CPU to which they belong where that is free, else to the lowest free one. Takes no
/// memory.
pub fn pick(placement: &mut Placement, queue: &Queue)
    ensures { placement.new ≡ placed (length placement.old) queue.now placement.old }
{
    let ready = queue.as_slice();
    keep_all(placement, ready);
    put_all(placement, ready);
}
