//! An advance of a domain that is streamed while it is made.
//!
//! An advance leaves the switches in the state and what happens in a log, until somebody asks for
//! them. Where only the figures of a run are wanted, [`advance_streamed`] goes on piece by piece:
//! an [`Accounting`] takes each piece, and state and log forget it. So it needs as much memory for
//! a long run as for a short one. [`advance_streamed_on`] goes on with a run that was streamed up
//! to here, so calls may come between the advances. [`advance_from_start`] does the same from the
//! start of a run. If a run repeats, [`advance_streamed`] and [`advance_streamed_in_periods`] do
//! not simulate most of its periods: the accounting counts them at once. Meets the definition "An
//! advance that is streamed" (`specs/Streamed.antt`). To the crates above it promises that the
//! accounting took exactly what the whole run has, and that the state is that of the run, but for
//! its switches.
#![tactic(auto)]

mod repeating;
mod streaming;

pub use domain_run::NoMemory;
pub use jump_run::Done;
pub use repeating::{advance_streamed, advance_streamed_in_periods};
pub use run_figures::Accounting;
pub use streaming::{
    advance_from_start, advance_streamed_on, open_streamed, open_streamed_with_jobs, tasks_of,
};
