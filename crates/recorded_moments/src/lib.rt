//! What of a recording counts for tasks: its switches and wakes, in the order of time.
//!
//! Meets the definitions of a moment (`specs/Moments.antt`) and of their order
//! (`specs/Ordered.antt`).
#![tactic(auto)]

mod fault;
mod gathering;
mod ordering;
mod watched;

pub use fault::MomentsFault;
pub use gathering::{Wanted, moments_in};
pub use ordering::put_in_order;
pub use watched::Watched;
