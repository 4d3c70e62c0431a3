//! The scripts of tasks whose jobs were recorded.
//!
//! Meets the definition of such a script (`specs/Scripts.antt`, with worked rows in
//! `specs/ScriptExamples.antt`), and two laws about it (`specs/ScriptLaws.antt`).
#![tactic(auto)]

mod events;
mod laws;
mod script;

pub use laws::{releases_are_reached, work_is_written};
pub use script::{are_short, script_of};
