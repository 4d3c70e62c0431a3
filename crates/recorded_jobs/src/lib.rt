//! The jobs of tasks, as a recording of a kernel's scheduler shows them.
//!
//! Meets the definitions of a stretch on a CPU (`specs/Stretches.antt`), of a job
//! (`specs/Jobs.antt`) and of its release (`specs/Releases.antt`), with worked rows in
//! `specs/JobExamples.antt`.
#![tactic(auto)]

mod cutting;
mod finding;
mod job;
mod laws;
mod moment;
mod releasing;
mod stretch;

pub use finding::{Found, jobs_of_tasks};
pub use job::{Job, Release};
pub use laws::work_is_kept;
pub use moment::{Leave, Moment, What};
pub use stretch::Stretch;
