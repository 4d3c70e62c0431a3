//! The pure core of the bandwidth words: what a lock-free gate may do to a domain's word, one step
//! after another.
//!
//! Meets the definitions "World step" (`specs/DomainStep.antt`, `specs/WorldStep.antt`) and "Exact
//! word" (`specs/ExactWord.antt`). To the crates above it promises that after every step of every
//! list what is used of a domain's word is exactly the bandwidth of its tickets in hand plus that
//! of its admitted tasks, and at most the cap that the word then carries; that no two live tickets
//! have one id; and that the admitted tasks are those that the changes of the book tell.
#![tactic(auto)]

mod book;
mod domain;
mod domains;
mod step;
mod ticket;
mod world;

pub use book::Change;
pub use limits::UNIT;
pub use no_memory::NoMemory;
pub use step::{Outcome, Step, WIDEST, Word};
pub use world::World;
