//! A task comes onto the list; tasks that have left go off it.

ghost use Rattle.std.specs.List.{remove};
ghost use Rattle.std.specs.Prelude.{◌≡◌, ◌<◌, ◌≤◌, ◌^◌, ◌++◌, ◌∷◌, [], filter, false, All, length, slice_index_or};
ghost use Rattle.domain_run.specs.Conditions.{is_ready};
ghost use Rattle.domain_run.specs.Parts as parts_spec;
ghost use Rattle.domain_run.specs.Calls.{is_other};
ghost use Rattle.domain_run.specs.declared.task.Task.{Task};
ghost use Rattle.domain_run.specs.private.Index.{IsListedAt, IsUnlisted};
ghost use Rattle.domain_run.specs.private.RunQueue.{IsCounted};

use crate::index::Index;
use crate::parts;
use crate::run_queue::RunQueue;
use crate::status::{due_of, share_of};
use crate::task::Task;
use slot_list::SlotList;

/// One task more, which is not ready.
pub(super) fn push_task(tasks: &mut SlotList<Task>, queue: &mut RunQueue, task: Task)
    requires few { length tasks.old < 256 }
    requires idle { is_ready task.condition ≡ false }
    requires home { task.cpu < length queue.old.accounts.all }
    requires short { task.params.bw ≤ 2 ^ 26 }
    requires absent { IsUnlisted tasks.old task.number }
    requires homed { parts_spec.with_last_cpu queue.old.schedule.places task ≡ task }
    requires counted { IsCounted (length queue.old.accounts.all) queue.old tasks.old }
    ensures tasks { tasks.new ≡ tasks.old ++ task ∷ [] }
    ensures counted { IsCounted (length queue.old.accounts.all) queue.new tasks.new }
    ensures schedule { queue.new.schedule ≡ queue.old.schedule }
{
    queue.accounts.join(&share_of(&task));
    queue.timers.push(due_of(&task));
    tasks.push(task);
}

// Takes the task at a place, which is not ready, off the list. No other task moves, and no due
// time.
fn drop_at(
    tasks: &mut SlotList<Task>,
    queue: &mut RunQueue,
    index: &mut Index,
    number: u32,
    place: usize,
)
    requires at { IsListedAt tasks.old number place }
    requires idle { (d : Task) → is_ready (slice_index_or tasks.old place d).condition ≡ false }
    requires counted { IsCounted (length queue.old.accounts.all) queue.old tasks.old }
    ensures tasks { tasks.new ≡ remove tasks.old place }
    ensures counted { IsCounted (length queue.old.accounts.all) queue.new tasks.new }
    ensures schedule { queue.new.schedule ≡ queue.old.schedule }
    ensures wide { length queue.new.accounts.all ≡ length queue.old.accounts.all }
{
    queue.accounts.part(&share_of(tasks.at(place)));
    tasks.remove(place);
    queue.timers.remove(place);
    index.unlist(number, place);
}

/// Takes the task of a number, which is not ready, off the list.
pub(super) fn drop_number(
    tasks: &mut SlotList<Task>,
    queue: &mut RunQueue,
    index: &mut Index,
    number: u32,
)
    requires idle { All (λ t. t.number ≡ number → is_ready t.condition ≡ false) tasks.old }
    requires counted { IsCounted (length queue.old.accounts.all) queue.old tasks.old }
    ensures tasks { tasks.new ≡ filter (is_other number) tasks.old }
    ensures counted { IsCounted (length queue.old.accounts.all) queue.new tasks.new }
    ensures schedule { queue.new.schedule ≡ queue.old.schedule }
{
    let Some(place) = index.place(tasks, number) else {
        return;
    };
    drop_at(tasks, queue, index, number, place);
}
