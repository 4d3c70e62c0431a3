//! The figures of a domain's run: the jobs of its tasks, and a summary of each task and each CPU.
//!
//! Meets the definitions of jobs (`specs/Jobs.antt`), of throttling and preemption
//! (`specs/Throttling.antt`), of the time on CPUs (`specs/Stays.antt`) and of the figures
//! (`specs/Figures.antt`), of a run that is given whole or streamed piece by piece
//! (`specs/Accounting.antt`). To the crate above it promises that each figure is the definition's,
//! of all that happened and all switches that it was given, and that nothing overflows; and that
//! [`KeptJobs`] gives back the very jobs that it was given.
#![tactic(auto)]

mod accounting;
mod counting;
mod figures;
mod growing;
mod job;
mod job_codes;
mod kept_jobs;
mod lines;
mod logged;
mod logging;
mod past;
mod places;
mod ran;
mod run;
mod sink;
mod summary;
mod throttle;

pub use accounting::{Accounting, CountsMark, summary_of};
pub use domain_run::NoMemory;
pub use figures::{CpuFigures, Responses, Summary, TaskFigures};
pub use job::Job;
pub use kept_jobs::{JobsLeft, KeptJobs};
pub use lines::jobs_of;
pub use places::Places;
pub use run::{Admitted, Run};
pub use sink::Sink;
