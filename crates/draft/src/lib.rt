//! A text under way.
//!
//! Meets the definitions of what was added to a text (`specs/Draft.antt`) and of the columns of a
//! table (`specs/Columns.antt`). To the crates above it promises that what a [`Draft`] gives at its
//! end is all that was put into it, in its order, or an error if memory was refused.
#![tactic(auto)]

mod columns;
mod draft;

pub use columns::{put_column, put_digits, put_number, put_right, put_wide};
pub use draft::Draft;
pub use no_memory::NoMemory;
