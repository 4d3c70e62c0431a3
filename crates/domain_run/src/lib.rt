//! One root domain: its tasks, one tick of time, and the calls between two ticks.
//!
//! Meets the definitions "Domain state", "Tick", "Calls and replies" and "Run" (`specs/`), over
//! "Name", "Script", "Wake, charge, replenish", "Zero lag", "Sums and rate" and "Choice and
//! placement" of the crates below. To the crates above it promises that [`State`] goes from tick to
//! tick and from call to call exactly as they say.
#![tactic(auto)]

mod buffered;
mod call;
mod calls;
mod charging;
mod happened;
mod index;
mod log;
mod logged_run;
mod mark;
mod numbers;
mod pace;
mod parts;
mod run_queue;
mod running;
mod state;
mod status;
mod sweep;
mod switch;
mod task;
mod task_table;
mod to_event;
mod transition;
mod transition_log;

pub use buffered::Buffered;
pub use call::{Call, Refused, Reply};
pub use happened::{Happened, What};
pub use log::Log;
pub use logged_run::LoggedRun;
pub use mark::{TaskMark, TaskSeen};
pub use no_memory::NoMemory;
pub use pace::Pace;
pub use running::Running;
pub use state::State;
pub use switch::{PrevState, Switch};
pub use task::{Condition, Task, TaskView};
pub use task_script::{Cursor, Event, Name, Phase, Script, Segment};
