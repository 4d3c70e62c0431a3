//! The figures of runs, as texts.
//!
//! Meets the definitions of the jobs' text (`specs/Jobs.antt`), of the summary's
//! (`specs/Summary.antt`) and of the promises' (`specs/Promises.antt`), over the columns of a table
//! (`specs/Columns.antt`). To the crates above it promises that [`put_summary`] and
//! [`put_promises`] put exactly that text after what stands before, or that the draft logs at its
//! end that memory was refused; and that [`write_jobs`] writes exactly its text, or the front of it
//! that it reports, and takes no memory.
#![tactic(auto)]

mod columns;
mod jobs;
mod line;
mod names;
mod outgoing;
mod promises;
mod summary;

pub use jobs::{DomainJobs, is_countable, write_jobs};
pub use promises::{PromiseRow, put_promises};
pub use summary::{DomainSummary, put_summary};
