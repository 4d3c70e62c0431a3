//! A CPU for a task: it stays where it runs, else it goes to the CPU to which it belongs where that
//! is free, else to the lowest free one.

ghost use Rattle.std.specs.Prelude.{◌≡◌, ◌<◌, ◌≤◌, vec_len, vec_capacity, is_none, slice_get, slice_index_or, slice_set, position, None, Some, IfSome, length};
ghost use Rattle.edf_pick.specs.Places as spec;
ghost use Rattle.edf_pick.specs.Changes.{is_home};

use crate::candidate::Candidate;
use cpu_marks::{first_bare, with, without};

/// Whether this one is the task that runs there.
pub(crate) fn is_task(number: u32, occupant: &Option<u32>) -> bool
    ensures { result ≡ spec.is_task number occupant.now }
{
    matches!(occupant, Some(n) if *n == number)
}

/// Whether a task runs on this CPU.
pub(crate) fn is_on(places: &[Option<u32>], cpu: usize, number: u32) -> bool
    ensures { result ≡ spec.is_task number (slice_index_or places.now cpu None) }
{
    cpu < places.len() && is_task(number, &places[cpu])
}

/// Whether a task runs on the CPU to which it belongs.
pub(crate) fn is_at_home(places: &[Option<u32>], c: &Candidate) -> bool
    ensures { result ≡ is_home places.now c.now }
{
    is_on(places, c.home as usize, c.number)
}

/// Whether a CPU is idle.
pub(crate) fn is_free(places: &[Option<u32>], cpu: usize) -> bool
    ensures { result ≡ spec.is_free (slice_get places.now cpu) }
{
    cpu < places.len() && places[cpu].is_none()
}

fn lowest_free(places: &[Option<u32>], taken: u64) -> Option<usize>
    requires few { length places.now ≤ 64 }
    requires taken { spec.AreTaken places.now taken }
    ensures lowest { result ≡ position (λ occupant. is_none occupant) places.now }
    ensures within { IfSome result (λ cpu. cpu < length places.now) }
{
    let cpu = first_bare(taken);
    if cpu < places.len() {
        return Some(cpu);
    }
    None
}

/// The CPU on which a task that runs nowhere starts; none where each is taken.
pub(crate) fn cpu_for(places: &[Option<u32>], c: &Candidate, taken: u64) -> Option<usize>
    requires few { length places.now ≤ 64 }
    requires taken { spec.AreTaken places.now taken }
    ensures assign { result ≡ spec.cpu_for places.now c.now }
    ensures within { IfSome result (λ cpu. cpu < length places.now) }
{
    let home = c.home as usize;
    if is_free(places, home) {
        return Some(home);
    }
    lowest_free(places, taken)
}

/// A task runs on this CPU from now on.
pub(crate) fn occupy(places: &mut Vec<Option<u32>>, cpu: usize, number: u32, taken: u64) -> u64
    requires within { cpu < vec_len places.old }
    requires few { vec_len places.old ≤ 64 }
    requires taken { spec.AreTaken places.old.items taken }
    ensures places { places.new.items ≡ slice_set places.old.items cpu (Some number) }
    ensures len { vec_len places.new ≡ vec_len places.old }
    ensures room { vec_capacity places.new ≡ vec_capacity places.old }
    ensures taken { spec.AreTaken places.new.items result }
{
    places[cpu] = Some(number);
    with(taken, cpu)
}

/// No task runs on this CPU any more.
pub(crate) fn vacate(places: &mut Vec<Option<u32>>, cpu: usize, taken: u64) -> u64
    requires within { cpu < vec_len places.old }
    requires few { vec_len places.old ≤ 64 }
    requires taken { spec.AreTaken places.old.items taken }
    ensures places { places.new.items ≡ slice_set places.old.items cpu None }
    ensures len { vec_len places.new ≡ vec_len places.old }
    ensures room { vec_capacity places.new ≡ vec_capacity places.old }
    ensures taken { spec.AreTaken places.new.items result }
{
    places[cpu] = None;
    without(taken, cpu)
}
