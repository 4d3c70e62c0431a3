//! The reader of a recording: text with lines of the kernel's event sched_switch, as ftrace,
//! `trace-cmd report` and `perf script` print them, and as this program's own trace has them.
//!
//! Meets the definitions of a cut (`specs/Cuts.antt`), of a line (`specs/Line.antt`) and of a whole
//! text (`specs/Text.antt`, with worked rows in `specs/Examples.antt`).
#![tactic(auto)]

mod cut;
mod event;
mod fault;
mod line;
mod names;
mod number;
mod reading;
mod step;

pub use counted_io::Counted;
pub use event::{Event, Leaver, Thread, Threads, event_in};
pub use fault::RecordedFault;
pub use line::{Line, Switch, line_of};
pub use names::Names;
pub use reading::read_switches;
pub use step::Step;
