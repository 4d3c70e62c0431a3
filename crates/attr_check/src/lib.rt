//! Attributes of SCHED_DEADLINE tasks: which of them are accepted, and the bandwidth that a task
//! needs.
//!
//! Meets the definitions "Ratio and cap" (`specs/Ratio.antt`) and "Accepted attributes"
//! (`specs/Accepted.antt`). To the crates above it promises that every [`Params`] is ordered
//! (runtime <= deadline <= period <= 2^32 us) and that its bandwidth is the ratio of runtime and
//! period. Takes no memory.
#![tactic(auto)]

mod attr;
mod checking;
mod params;
mod ratio;
mod refusal;

pub use attr::SchedAttr;
pub use checking::check;
pub use limits::UNIT;
pub use params::Params;
pub use ratio::to_ratio;
pub use refusal::AttrRefusal;
