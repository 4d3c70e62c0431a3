//! A task comes, and waits; or goes, from the CPU where it stays or from those who wait.

ghost use Rattle.std.specs.Prelude.{ℕ, ◌≡◌, ◌≢◌, ◌++◌, true, false, slice_index_or, AllPairs, IfNone, IfSome, None};
ghost use Rattle.edf_pick.specs.Order as order;
ghost use Rattle.edf_pick.specs.private.Ready as spec;

use crate::candidate::Candidate;
use crate::order::is_same;
use crate::queue::Queue;
use crate::running::RunningSet;

// Whether the task of the deadline and the number of `c` stays on this CPU.
#[inline(always)]
fn is_running(running: &RunningSet, cpu: usize, c: &Candidate) -> bool
    ensures { result ≡ spec.is_there c.now (slice_index_or running.now cpu None) }
{
    match running.at(cpu) {
        Some(d) => is_same(&d, c),
        None => false,
    }
}

// The CPU on which it stays. A task is known to belong to the CPU where it stays, so nobody asks.
#[cold]
#[inline(never)]
fn find_running(running: &RunningSet, c: &Candidate) -> Option<usize>
    ensures found { IfSome result (λ cpu.
        spec.is_there c.now (slice_index_or running.now cpu None) ≡ true) }
    ensures none { IfNone result ((cpu : ℕ)
        → spec.is_there c.now (slice_index_or running.now cpu None) ≡ false) }
{
    for cpu in 0..running.cpus() {
        if is_running(running, cpu, c) {
            return Some(cpu);
        }
    }
    None
}

// Who stays on this CPU goes.
#[inline(always)]
fn take_running(ready_rest: &Queue, running: &mut RunningSet, cpu: usize, c: &Candidate)
    requires numbered { AllPairs (λ a b. a.number ≢ b.number)
        (spec.all_held running.old ++ ready_rest.now) }
    requires there { spec.is_there c.now (slice_index_or running.old cpu None) ≡ true }
    ensures left { spec.HasLeftReady c.now running.old ready_rest.now running.new ready_rest.now
        true }
{
    running.off(cpu);
}

// Who stays on another CPU goes, or is not there.
fn take_elsewhere(ready_rest: &Queue, running: &mut RunningSet, c: &Candidate) -> bool
    requires numbered { AllPairs (λ a b. a.number ≢ b.number)
        (spec.all_held running.old ++ ready_rest.now) }
    requires absent { order.has_candidate c.now ready_rest.now ≡ false }
    ensures left { spec.HasLeftReady c.now running.old ready_rest.now running.new ready_rest.now
        result }
{
    let Some(cpu) = find_running(running, c) else {
        return false;
    };
    take_running(ready_rest, running, cpu, c);
    true
}

// Who does not stay on the CPU to which it belongs goes, or is not there.
#[inline(always)]
fn take_other(ready_rest: &mut Queue, running: &mut RunningSet, c: &Candidate) -> bool
    requires numbered { AllPairs (λ a b. a.number ≢ b.number)
        (spec.all_held running.old ++ ready_rest.old) }
    ensures left { spec.HasLeftReady c.now running.old ready_rest.old running.new ready_rest.new
        result }
{
    let Some(_entry) = ready_rest.take(c) else {
        return take_elsewhere(ready_rest, running, c);
    };
    true
}

/// Takes out the task of the deadline and the number of `c`, and answers whether it was there.
#[inline(always)]
pub(crate) fn take_out(ready_rest: &mut Queue, running: &mut RunningSet, c: &Candidate) -> bool
    requires numbered { AllPairs (λ a b. a.number ≢ b.number)
        (spec.all_held running.old ++ ready_rest.old) }
    ensures left { spec.HasLeftReady c.now running.old ready_rest.old running.new ready_rest.new
        result }
{
    let cpu = c.home as usize;
    if is_running(running, cpu, c) {
        take_running(ready_rest, running, cpu, c);
        return true;
    }
    take_other(ready_rest, running, c)
}
