//! Readers and writers whose faults are counted.
//!
//! Meets the definitions of a reader or a writer as calls meet it (`specs/Sides.antt`), of how
//! faults are counted (`specs/Faults.antt`) and of what is asked (`specs/Calls.antt`). To the
//! crates above it promises that [`Counted`] tells faults from success and counts each once, that
//! [`Counted::read_all`] gives all bytes that a reader had left, that [`Counted::write_all`] writes
//! all, or tells exactly how many bytes were taken, and that none asks more or less than it says.
#![tactic(auto)]

mod call;
mod counted;
mod fault;
mod port;

pub use counted::Counted;
pub use fault::ReadFault;
