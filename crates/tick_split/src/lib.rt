//! Rates and charges of many running tasks, by one worker or by several, with the same result.
//!
//! Meets the definitions "Plans" (`specs/Planning.antt`), "Charges" (`specs/Charging.antt`) and
//! "Pieces" (`specs/Pieces.antt`). To the crates above it promises that each element of a list
//! becomes exactly what it would alone, whatever the number of workers; that the list is as before
//! where a worker was not started or a growth was refused; and that work in one piece needs
//! neither.
#![tactic(auto)]

mod apart;
mod element;
mod fault;
mod lists;
mod pieces;
mod rules;
mod turn;
mod work;
mod workers;

pub use element::{Plan, Slice};
pub use fault::StartFault;
pub use lists::{charge_all, plan_all};
pub use rules::{charge, plan};
pub use turn::Turn;
