//! Calls with their replies, as a text.
//!
//! [`write_replies`] makes the calls of sections, each section's on a domain of its own, and writes
//! each call with the reply that it gets; [`write_recorded`] writes histories with the replies that
//! they have, and makes no call again. Both meet one definition (`specs/Replies.antt`). To the
//! crate above they promise that a call stands there once, in the order of its section, with the
//! reply of the domain's definition.
#![tactic(auto)]

mod making;
mod recorded;
mod text;
mod writing;

pub use recorded::write_recorded;
pub use writing::write_replies;
