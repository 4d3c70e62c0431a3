//! A running task that has work again where its work ends keeps its open charge, which ends later.
//! Neither the sums nor the choice nor the timers see it, so nothing else changes.

ghost use Rattle.std.specs.Prelude.{◌≡◌, ◌<◌, ◌≤◌, ◌+◌, ◌-◌, ◌^◌, All, IfSome, IsSome, IsTrue, None, Some, false, slice_index_or};
ghost use Rattle.task_script.specs.script.Segments.{next_segment, passes_late_timer, work_in};
ghost use Rattle.due_times.specs.OpenCharges.{IsAhead};
ghost use Rattle.domain_run.specs.declared.task.Task.{Task};
ghost use Rattle.domain_run.specs.Sound.{IsSound};
ghost use Rattle.domain_run.specs.private.Extending as spec;
ghost use Rattle.domain_run.specs.private.Index.{IsListedAt};
ghost use Rattle.domain_run.specs.private.Owed.{IsOpen};
ghost use Rattle.limits.specs.Limits.{max_script_number};

use super::TaskTable;
use super::rating::{lasting, left_in};
use crate::task::Task;
use due_times::OpenCharge;

/// How much work a running task has again where its work ends, and when its open charge ends then.
#[derive(Clone, Copy)]
pub(super) struct More {
    /// In microseconds.
    work: u64,
    /// By the clock of the open charges, in microseconds.
    end: u64,
}

/// The work that a task has again, if its work ends when the clock of the open charges comes to
/// `upto`.
#[inline(always)]
fn work_again(task: &Task, open_charge: OpenCharge, upto: u64, time: u64) -> Option<u64>
    requires since { open_charge.since ≤ upto }
    requires early { time < 2 ^ 43 }
    requires timed { task.now.cursor.reference ≤ time }
    ensures worked { IfSome result (λ n. task.now.work ≡ upto - open_charge.since) }
    ensures asked { IfSome result
        (λ n. work_in (next_segment task.now.cursor time).segment ≡ Some n) }
    ensures within { IfSome result (λ n. (0 < n) × (n ≤ max_script_number)) }
{
    if task.work != upto - open_charge.since {
        return None;
    }
    task.cursor.next_work(time)
}

/// What a task has again whose work ends when the clock of the open charges comes to `upto`, if its
/// budget does not end there too. Unless nobody listens, it must pass no late timer: that ends its
/// job.
#[inline(always)]
fn more_of(task: &Task, open_charge: OpenCharge, upto: u64, time: u64, silent: bool) -> Option<More>
    requires early { time < 2 ^ 43 }
    requires timed { task.now.cursor.reference ≤ time }
    requires since { open_charge.since < upto }
    requires soon { upto ≤ 2 ^ 62 }
    requires end { upto ≤ open_charge.end }
    requires waits { IsOpen open_charge task.now }
    ensures may { IfSome result (λ m. spec.MayExtend upto time open_charge m task.now) }
    ensures quiet { IsSome result → silent ≡ false
        → passes_late_timer task.now.cursor time ≡ false }
{
    let Some(work) = work_again(task, open_charge, upto, time) else {
        return None;
    };
    if !silent && task.cursor.passes_late_timer(time) {
        return None;
    }
    let wanted = task.work + work;
    let spent = lasting(left_in(task), open_charge.rate, wanted);
    let end = open_charge.since + wanted.min(spent);
    if end <= upto {
        return None;
    }
    Some(More { work, end })
}

/// A task has so much work more, which its script has it do next.
#[inline(always)]
fn add_work(task: &mut Task, work: u64, time: u64)
    requires early { time < 2 ^ 43 }
    requires timed { task.old.cursor.reference ≤ time }
    requires short { task.old.work + work < 2 ^ 64 }
    requires asked { work_in (next_segment task.old.cursor time).segment ≡ Some work }
    ensures task { task.new ≡ spec.with_more time work task.old }
    ensures timed { task.new.cursor.reference ≤ time }
{
    task.work += work;
    task.cursor.pass_work(time);
}

impl TaskTable {
    /// The task with an open charge on a CPU, the task at a place, goes on after so many ticks, if
    /// its work ends with them, its script has it run on, and its budget lasts; unless nobody
    /// listens, it must pass no late timer. Whether it does; else nothing changes.
    #[inline(always)]
    pub(super) fn extend_at(
        &mut self,
        cpu: usize,
        place: usize,
        open_charge: OpenCharge,
        ticks: u64,
        time: u64,
        silent: bool,
    ) -> bool
        requires there { cpu < self.old.cpus }
        requires is_charging { slice_index_or self.old.charges cpu None ≡ Some open_charge }
        requires at { IsListedAt self.old.tasks open_charge.number place }
        requires home { (d : Task) → (slice_index_or self.old.tasks place d).cpu ≡ cpu }
        requires ahead { IsAhead self.old.clock open_charge }
        requires some { 0 < ticks }
        requires early { time < 2 ^ 43 }
        requires clock { self.old.clock + ticks ≤ 2 ^ 62 }
        requires ends { self.old.clock + ticks ≤ open_charge.end }
        requires sound { All (IsSound time) self.old.tasks }
        ensures cpus { self.new.cpus ≡ self.old.cpus }
        ensures places { self.new.places ≡ self.old.places }
        ensures clock { self.new.clock ≡ self.old.clock }
        ensures same { result ≡ false → self.new ≡ self.old }
        ensures on { IsTrue result → spec.HasGoneOn time ticks cpu place open_charge self.old
            self.new }
        ensures quiet { IsTrue result → silent ≡ false → (d : Task)
            → passes_late_timer (slice_index_or self.old.tasks place d).cursor time ≡ false }
        ensures sound { All (IsSound time) self.new.tasks }
    {
        let upto = self.charges.upto() + ticks;
        let Some(more) = more_of(self.tasks.at(place), open_charge, upto, time, silent) else {
            return false;
        };
        add_work(self.tasks.at_mut(place), more.work, time);
        self.charges.end_at(cpu, more.end);
        true
    }
}
