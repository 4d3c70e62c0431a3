//! Reclaiming (sched-deadline.rst, "Bandwidth reclaiming"): zero-lag times, the sums of each CPU,
//! and the rate at which a running task uses its budget.
//!
//! Meets the definitions "Zero lag" (`specs/Lag.antt`) and "Sums and rate" (`specs/Sums.antt`,
//! `specs/Accounts.antt`, `specs/Rate.antt`). To the crates above it promises each rule as an
//! equation with its definition, and running sums that are at every time those of the list of tasks
//! that their calls describe, and that never grow: their type keeps the room that they were opened
//! with.
#![tactic(auto)]

mod accounts;
mod rules;
mod share;

pub use accounts::Accounts;
pub use rules::{rate, rate_for, zero_lag};
pub use share::Share;
