//! When something is next due, by place: a change of one time costs little, and the first of all is
//! known.
//!
//! [`Timers`] are the times of a list, in a timer tree: each inner node of a tree is the least of
//! the four below it (`specs/Timers.antt`). [`OpenCharges`] are who runs on each CPU since when,
//! with the time at which each ends (`specs/OpenCharges.antt`), and [`StaleCharges`] a mark for
//! each CPU whose open charge is not known to be right. To the crate above it promises each call as
//! an equation on the lists of times and of open charges, and that none of them grows: their types
//! keep the room that they were opened with.
#![tactic(auto)]

mod charges;
mod stale;
mod timer_tree;
mod timers;

pub use charges::{Basis, Claim, OpenCharge, OpenCharges, Rating};
pub use stale::{StaleCharges, first_marked};
pub use timers::{NEVER, Timers};
