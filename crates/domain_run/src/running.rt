//! Who runs in the middle of a tick.

ghost use Rattle.std.specs.Prelude.{◌≡◌, ◌≤◌, true, false, length, slice_get, vec_capacity};
ghost use Rattle.domain_run.specs.Jump.{running_numbers};

use crate::task::Task;
use attr_check::Params;

/// A running task in the middle of a tick: what its rate depends on, and for how long it may run.
#[derive(Clone, Copy)]
pub struct Running {
    pub number: u32,
    pub params: Params,
    /// The bandwidth of the inactive tasks of its CPU, in 1/2^20 of a CPU.
    pub uinact: u64,
    /// What is left of its budget, in 1/2^20 us.
    pub left: i128,
    /// Work left in its segment, in microseconds.
    pub work: u64,
}

fn listed_at(running: &[u32], i: usize) -> Option<u32>
    ensures { result ≡ slice_get running.now i }
{
    match running.get(i) {
        None => None,
        Some(number) => Some(*number),
    }
}

/// The i-th of the tasks that run on the CPUs, found by a walk.
fn found_at(places: &[Option<u32>], i: usize) -> Option<u32>
    ensures { result ≡ slice_get (running_numbers places.now) i }
{
    let mut left = i;
    for cpu in 0..places.len() {
        if let Some(number) = places[cpu] {
            if left == 0 {
                return Some(number);
            }
            left -= 1;
        }
    }
    None
}

/// The i-th of the tasks that run on the CPUs, where they are listed or are not.
pub(crate) fn running_at(
    running: &[u32],
    is_listed: bool,
    places: &[Option<u32>],
    i: usize,
) -> Option<u32>
    requires { is_listed ≡ true → running.now ≡ running_numbers places.now }
    ensures { result ≡ slice_get (running_numbers places.now) i }
{
    if !is_listed {
        return found_at(places, i);
    }
    listed_at(running, i)
}

/// The tasks that run on the CPUs, one after another.
fn list_running(running: &mut Vec<u32>, places: &[Option<u32>])
    requires room { length places.now ≤ vec_capacity running.old }
    ensures running { running.new.items ≡ running_numbers places.now }
    ensures room { vec_capacity running.new ≡ vec_capacity running.old }
{
    running.clear();
    for occupant in places {
        if let Some(number) = occupant {
            running.push_reserved(*number);
        }
    }
}

/// The tasks that run on the CPUs are listed, if they are not.
pub(crate) fn relist(running: &mut Vec<u32>, is_listed: bool, places: &[Option<u32>])
    requires room { length places.now ≤ vec_capacity running.old }
    requires listed { is_listed ≡ true → running.old.items ≡ running_numbers places.now }
    ensures running { running.new.items ≡ running_numbers places.now }
    ensures room { vec_capacity running.new ≡ vec_capacity running.old }
{
    if !is_listed {
        list_running(running, places);
    }
}

/// Whether they are still listed.
pub(crate) fn are_still_listed(is_listed: bool, changed: bool) -> bool
    ensures { result ≡ true → (is_listed ≡ true) × (changed ≡ false) }
{
    is_listed && !changed
}
