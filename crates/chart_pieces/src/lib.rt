//! The pieces of a chart of a domain's run: where each task ran, wanted a CPU and was throttled,
//! when its jobs were released and due, and when it ended.
//!
//! Meets the definitions of bars (`specs/Bars.antt`), of how a task stands
//! (`specs/TaskStatus.antt`) and of rows (`specs/Rows.antt`), of the part of the run that a window
//! (`specs/Window.antt`) shows. The run is given whole, or streamed piece by piece
//! (`specs/Drawing.antt`). To the crate above it promises that each row is the definition's, of the
//! list of what happened and the switches that it was given; that all that is drawn has a part in
//! the window; and that over a whole run the bars of a task sum to its CPU time in the summary.
#![tactic(auto)]

mod drawing;
mod lines;
mod logging;
mod marks;
mod row;
mod status;
mod stays;
mod window;

pub use domain_run::NoMemory;
pub use drawing::{Drawing, rows_of};
pub use row::{Bar, Gap, Mark, Row, Sign};
pub use status::{Moment, TaskStatus, Turn};
pub use window::{Span, Window};
