//! Lists of own entries: each client has a pass, which lists the entries that it made in one spine.
//!
//! Meets the definition "Lists of own entries" (`specs/Lists.antt`, `specs/Listed.antt`,
//! `specs/Kinds.antt`), over the seats of `atomic_table`. To the crates above it promises that
//! [`Spine::append`] adds an entry to the spine and to the pass, and that after [`Spine::agree`] a
//! pass's list is exactly the spine's entries of its client: whoever changes a spine on another way
//! cannot make it agree with the passes. The lists stand in contracts alone; what runs is a count
//! and single loads.
#![tactic(auto)]

mod pass;
mod spine;
mod view;

pub use no_memory::NoMemory;
pub use pass::Pass;
pub use spine::Spine;
