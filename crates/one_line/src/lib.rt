//! Text on one line, with what a terminal does not show escaped.
//!
//! Meets the definitions of `specs/Shown.antt`. To the crates above it promises that [`put_shown`]
//! and [`put_shown_bytes`] put exactly the shown text into a [`draft::Draft`], whatever characters
//! or bytes it has, and that [`write_shown`] writes the same into a formatter.
#![tactic(auto)]

mod shown;

pub use shown::{put_shown, put_shown_bytes, write_shown};
