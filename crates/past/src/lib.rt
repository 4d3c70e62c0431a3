//! A list that only contracts see.
//!
//! Meets the definition of its items (`specs/Past.antt`). To the crates above it promises that
//! contracts see in a [`Past`] all that was put into it, in its order. No call takes memory.
#![tactic(auto)]

mod past;

pub use past::Past;
