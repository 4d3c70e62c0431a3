//! rt-app's dialect of JSON, made into strict JSON.
//!
//! Meets the definition "Dialect of rt-app's files": comments (`specs/Comments.antt`), commas and
//! values (`specs/Filling.antt`), repeated keys (`specs/Repeats.antt`, `specs/Numbers.antt`) and
//! places (`specs/Places.antt`), with worked rows in `specs/Examples.antt`. To the crates above it
//! promises that [`strict_text`] and [`number_keys`] give the texts of the definitions, that a file
//! in JSON is its own strict text, and that each byte of a result is inserted, a space, or the byte
//! of the file at the offset that it leads back to ([`StrictText::origin`]). That offset has a line
//! and a column ([`place_of`]).
#![tactic(auto)]

mod bracket;
mod comments;
mod fault;
mod filling;
mod insertion;
mod keys;
mod numbers;
mod place;
mod repeats;
mod spot;
mod strict;

pub use fault::DialectFault;
pub use insertion::Insertion;
pub use numbers::number_keys;
pub use place::{Place, place_of};
pub use repeats::{Repeat, repeated_keys};
pub use strict::{StrictText, strict_text};
