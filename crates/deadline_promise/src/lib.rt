//! On one CPU, a task that keeps its budget is never late, whatever the other tasks do.
//!
//! The definitions are in `specs/`: what a task may still take of its CPU (`specs/Reach.antt`), a
//! script that keeps a budget (`specs/KeptBudget.antt`), and the promise with its premises
//! (`specs/Promise.antt`). [`budgets_isolate`] carries the theorem.
#![tactic(auto)]

mod answer;
mod blocks;
mod demand;
mod listed;
mod span;
mod theorem;

pub use answer::{Promise, promise_to};
pub use demand::Demand;
pub use theorem::budgets_isolate;
