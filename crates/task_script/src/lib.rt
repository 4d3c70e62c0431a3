//! What a task is by itself: its name, and the script by which it works and blocks (own; rt-app's
//! phases and loops).
//!
//! Meets the definitions "Name" (`specs/NameView.antt`) and "Script" (`specs/script/`). To the
//! crates above it promises that a [`Name`] and a [`Script`] are within their limits, and that a
//! [`Cursor`], asked at any times, gives what the script gives written out, event by event. Takes
//! memory only to copy a script, to share it, and to lay one of more than one phase out, so that it
//! is read faster. It does without the last two where memory is refused.
#![tactic(auto)]

mod cursor;
mod laid;
mod name;
mod phase;
mod progress;
mod script;
mod steps;

pub use cursor::{Cursor, Place};
pub use name::Name;
pub use phase::{Event, Phase};
pub use script::{Script, Segment};
