//! A change of one listed task, which the run queue follows. Before it changes it is charged what
//! it owes, and closes its charge.

ghost use Rattle.std.specs.Prelude.{◌≡◌, ◌<◌, ◌≤◌, ◌^◌, ◌*◌, ◌-◌, ◌<ℤ◌, ◌-ℤ◌, pos, All, None, Some, is_some, length, slice_index_or};
ghost use Rattle.domain_run.specs.declared.task.Task.{Task};
ghost use Rattle.domain_run.specs.Sound.{IsSound};
ghost use Rattle.domain_run.specs.private.TaskTable.{task_after, deferred_lag, MayMake, Fits};
ghost use Rattle.domain_run.specs.private.RunQueue as spec;
ghost use Rattle.due_times.specs.OpenCharges as charges_spec;
ghost use Rattle.domain_run.specs.private.Owed as waiting;
ghost use Rattle.domain_run.specs.private.Timers.{IsTimerStep};

use crate::run_queue::RunQueue;
use crate::status::status_of;
use crate::task::Task;
use crate::transition::{Transition, make};
use due_times::{OpenCharge, OpenCharges};
use slot_list::SlotList;

/// What is left of a budget after so many ticks at a rate, where it did not end before the last.
#[inline(always)]
pub(super) fn left_after_run(left: i128, rate: u64, ticks: u64) -> i128
    requires slow { rate ≤ 2 ^ 27 }
    requires few { ticks ≤ 2 ^ 63 }
    requires lasted { pos (rate * (ticks - 1)) <ℤ left }
    ensures { result ≡ left -ℤ pos (rate * ticks) }
{
    left - i128::from(rate) * i128::from(ticks)
}

/// A task is charged what it owes since its charge was opened.
#[inline(always)]
pub(super) fn charge(task: &mut Task, open_charge: OpenCharge, upto: u64)
    requires ahead { charges_spec.IsAhead upto open_charge }
    requires waits { waiting.IsOpen open_charge task.old }
    ensures { task.new ≡ waiting.owed_by upto (Some open_charge) task.old }
{
    let ticks = upto - open_charge.since;
    task.server.left = left_after_run(task.server.left, open_charge.rate, ticks);
    task.work -= ticks;
}

/// A task is charged what it owes, and closes its charge. One that is not ready has no open charge.
/// Whether it sat.
#[inline(always)]
pub(super) fn settle(task: &mut Task, charges: &mut OpenCharges) -> bool
    requires { waiting.IsOpenIf charges.old.charges task.old }
    ensures task { task.new ≡ waiting.owed charges.old.upto charges.old.charges task.old }
    ensures charges { charges.new ≡ record charges.old {
      charges = charges_spec.without_charge task.old.cpu task.old.number charges.old.charges;
    } }
    ensures was_started { result ≡ is_some (waiting.charge_of_task charges.old.charges task.old) }
{
    if !task.condition.is_ready() {
        return false;
    }
    let cpu = task.cpu;
    let Some(open_charge) = charges.charge_of(cpu, task.number) else {
        return false;
    };
    charge(task, open_charge, charges.upto());
    charges.end_charge(cpu);
    true
}

/// Makes a change of a task, and updates the run queue. The zero-lag time that it defers.
#[inline(always)]
pub(super) fn apply_settled(
    task: &mut Task,
    queue: &mut RunQueue,
    place: usize,
    time: u64,
    transition: &Transition,
) -> Option<u64>
    requires narrow { length queue.old.accounts.all ≤ 64 }
    requires sound { IsSound time task.old }
    requires may { MayMake time transition.now task.old }
    requires turns { spec.MayApply place task.old.number task.old.cpu queue.old
        (spec.status_of task.old)
        (spec.status_of (task_after time transition.now task.old)) }
    ensures task { task.new ≡ task_after time transition.now task.old }
    ensures sound { IsSound time task.new }
    ensures turned { spec.IsApplied place task.old.number task.old.cpu
        (spec.status_of task.old) (spec.status_of task.new) queue.old queue.new }
    ensures deferring { result ≡ deferred_lag time transition.now task.old }
{
    let (number, cpu) = (task.number, task.cpu);
    let Some(made) = make(task, time, transition) else {
        return None;
    };
    queue.apply(place, number, cpu, &made.before, &status_of(task));
    made.deferring
}

/// A task has no open charge on a CPU any more; on one of them it has no open charge as it is.
#[inline(always)]
pub(super) fn leave_other(charges: &mut OpenCharges, left: usize, cpu: usize, number: u32)
    requires left { charges_spec.charge_by number (slice_index_or charges.old.charges left None)
        ≡ None }
    ensures { charges.new
        ≡ record charges.old {
          charges = charges_spec.without_charge cpu number
              charges.old.charges;
        } }
{
    if cpu != left {
        charges.leave(cpu, number);
    }
}

/// Makes a change of a task as it is once it is charged. It belongs to its CPU still, and has no
/// open charge there then. Whether it had one.
#[inline(always)]
fn apply_one(
    task: &mut Task,
    queue: &mut RunQueue,
    charges: &mut OpenCharges,
    place: usize,
    time: u64,
    transition: &Transition,
) -> bool
    requires narrow { length queue.old.accounts.all ≤ 64 }
    requires waits { waiting.IsOpenIf charges.old.charges task.old }
    requires sound { IsSound time (waiting.owed charges.old.upto charges.old.charges task.old) }
    requires may { MayMake time transition.now
        (waiting.owed charges.old.upto charges.old.charges task.old) }
    requires turns { spec.MayApply place
        (waiting.owed charges.old.upto charges.old.charges task.old).number
        (waiting.owed charges.old.upto charges.old.charges task.old).cpu queue.old
        (spec.status_of (waiting.owed charges.old.upto charges.old.charges task.old))
        (spec.status_of
        (task_after time transition.now (waiting.owed charges.old.upto charges.old.charges
        task.old))) }
    ensures task { task.new
        ≡ task_after time transition.now (waiting.owed charges.old.upto charges.old.charges
        task.old) }
    ensures sound { IsSound time task.new }
    ensures turned { spec.IsApplied place
        (waiting.owed charges.old.upto charges.old.charges task.old).number
        (waiting.owed charges.old.upto charges.old.charges task.old).cpu
        (spec.status_of (waiting.owed charges.old.upto charges.old.charges task.old))
        (spec.status_of task.new) queue.old queue.new }
    ensures charges { charges.new ≡ record charges.old {
      charges = charges_spec.without_charge task.old.cpu task.old.number charges.old.charges;
    } }
    ensures was_started { result ≡ is_some (waiting.charge_of_task charges.old.charges task.old) }
{
    let was_started = settle(task, charges);
    apply_settled(task, queue, place, time, transition);
    was_started
}

/// Changes the task at a place of the list. Whether it sat.
#[inline(always)]
pub(super) fn apply_task(
    tasks: &mut SlotList<Task>,
    queue: &mut RunQueue,
    charges: &mut OpenCharges,
    place: usize,
    time: u64,
    transition: &Transition,
) -> bool
    requires narrow { length queue.old.accounts.all ≤ 64 }
    requires there { place < length tasks.old }
    requires fits { Fits (length queue.old.accounts.all) transition.now }
    requires waits { waiting.AreOpen charges.old.charges tasks.old }
    requires sound { All (IsSound time) (waiting.owed_all charges.old tasks.old) }
    requires may { (d : Task) → MayMake time transition.now
        (slice_index_or (waiting.owed_all charges.old tasks.old) place d) }
    requires counted { spec.IsCounted (length queue.old.accounts.all) queue.old
        (waiting.owed_all charges.old tasks.old) }
    ensures step { IsTimerStep (task_after time transition.now) place
        (waiting.owed_all charges.old tasks.old)
        (waiting.owed_all charges.new tasks.new) }
    ensures sound { All (IsSound time) (waiting.owed_all charges.new tasks.new) }
    ensures counted { spec.IsCounted (length queue.old.accounts.all) queue.new
        (waiting.owed_all charges.new tasks.new) }
    ensures waits { waiting.AreOpen charges.new.charges tasks.new }
    ensures charges { (d : Task) → charges.new.charges
        ≡ waiting.charges_without (slice_index_or (waiting.owed_all charges.new tasks.new) place d)
        (waiting.charges_without (slice_index_or (waiting.owed_all charges.old tasks.old) place d)
        charges.old.charges) }
    ensures places { queue.new.schedule.places ≡ queue.old.schedule.places }
    ensures clock { charges.new.upto ≡ charges.old.upto }
    ensures wide { length charges.new.charges ≡ length charges.old.charges }
    ensures was_started { (d : Task) → result
        ≡ is_some (waiting.charge_of_task charges.old.charges (slice_index_or tasks.old place d)) }
{
    apply_one(tasks.at_mut(place), queue, charges, place, time, transition)
}
