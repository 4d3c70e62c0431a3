//! The rt-app profile: a JSON value as numbered tasks with attributes and scripts, or the first
//! fault.
//!
//! Meets the definition "Scenario" (`specs/Scenario.antt`: which tasks a value stands for;
//! `specs/Tests.antt`: which tests it has to pass, in their order; `specs/Keys.antt`: the keys with
//! what they take, as tables). To the crates above it promises that [`parse`] is Ok exactly with
//! the definition's scenario and Err with its first fault, want of memory aside, and that every
//! [`TaskSpec`] and its script are within their limits. [`parse_lent`] promises the same of a tree
//! whose texts lie elsewhere.
#![tactic(auto)]

mod events;
mod fault;
mod flaw;
mod key;
mod numbers;
mod parsing;
mod phases;
mod scenario;
mod script;
mod tasks;
mod threads;
mod value;

pub use fault::ScenarioFault;
pub use parsing::{parse, parse_lent};
pub use scenario::{Scenario, TaskSpec};
