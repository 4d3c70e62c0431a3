//! What a state shows to compare it with itself at another time: its tasks, place by place, and who
//! runs on each CPU.

ghost use Rattle.std.specs.Prelude.{◌≡◌, ◌<◌, length, None, slice_index_or};
ghost use Rattle.domain_run.specs.declared.task.Task.{Task};
ghost use Rattle.domain_run.specs.Marks.{IsTaskSeen};

use super::State;
use crate::mark::TaskSeen;

impl State {
    /// The number of listed tasks, also of those that have ended and stay listed until their
    /// zero-lag time.
    pub fn listed(&self) -> usize
        ensures { result ≡ length self.now.tasks }
    {
        self.task_table.len()
    }

    /// What ticks change of the task at a place of the list, from 0, in the order of admission, and
    /// what they do not: its number and its script. The task is charged up to now. It looks at this
    /// task alone, and takes no memory.
    pub fn seen_at(&self, place: usize) -> TaskSeen
        requires { place < length self.now.tasks }
        ensures { (d : Task) → IsTaskSeen result (slice_index_or self.now.tasks place d) }
    {
        self.task_table.task_seen(place)
    }

    /// The number of the task that ran on a CPU in the last tick, if any did.
    pub fn runs_on(&self, cpu: usize) -> Option<u32>
        requires { cpu < self.now.cpus }
        ensures { result ≡ slice_index_or self.now.curr cpu None }
    {
        self.task_table.occupant(cpu)
    }
}
