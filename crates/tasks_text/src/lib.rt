//! Tasks files: the tasks to look for in a recording.
//!
//! Meets the definitions of a tasks file (`specs/Tasks.antt`) and of its first bad line
//! (`specs/BadLine.antt`), with worked rows in `specs/TaskExamples.antt`. To the crates above it
//! promises that [`read_tasks`] accepts exactly the texts of 1 to 256 tasks, and names the first
//! bad line of every other text.
#![tactic(auto)]

mod cut;
mod fault;
mod line;
mod reading;
mod task;

pub use fault::TasksFault;
pub use reading::read_tasks;
pub use task::Task;
