//! A list of numbers in as few bytes as each of them needs.
//!
//! A number below 128 takes one byte, one below 16384 two, and so on, up to ten. No clause speaks
//! of the bytes. To the crates above it promises each call as an equation on the list
//! ([`PackedNumbers`]). Only [`PackedNumbers::push`] takes memory.
#![tactic(auto)]

mod bytes;
mod reading;

pub use bytes::PackedNumbers;
pub use no_memory::NoMemory;
pub use reading::NumbersLeft;
