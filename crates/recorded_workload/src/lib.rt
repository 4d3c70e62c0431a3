//! The workload of a recording: its tasks with the scripts of their jobs, as a section of a calls
//! text.
//!
//! Meets the definition of that section (`specs/Workload.antt`, with a worked row in
//! `specs/WorkloadExamples.antt`), of why there is none (`specs/Refusals.antt`), and a law about it
//! (`specs/WorkloadLaws.antt`). To the crates above it promises that the text of every such section
//! is one that `read_calls` reads.
#![tactic(auto)]

mod building;
mod fault;
mod jobs;
mod laws;
mod shape;
mod workload;

pub use fault::WorkloadFault;
pub use laws::delays_reach;
pub use shape::Shape;
pub use workload::{workload_of, workload_text};
