//! The jobs that a recording shows of tasks, as a table.
//!
//! Meets the definition of the table (`specs/Table.antt`, with a worked one in
//! `specs/TableExamples.antt`).
#![tactic(auto)]

mod spread;
mod table;

pub use table::jobs_table;
