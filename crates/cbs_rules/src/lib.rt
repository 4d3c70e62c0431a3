//! The rules of a constant bandwidth server (sched-deadline.rst, "Main algorithm"): wake, charge
//! and replenishment.
//!
//! Meets the definition "Wake, charge, replenish" (`specs/Serving.antt`, over `specs/Budget.antt`).
//! To the crates above it promises each rule as an equation with its definition. Takes no memory.
#![tactic(auto)]

mod rules;
mod server;

pub use rules::{charge, is_throttled, on_wake, replenish};
pub use server::Server;
