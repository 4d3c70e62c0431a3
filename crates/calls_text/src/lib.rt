//! The calls on domains with their replies, in the order in which they were made, and calls text,
//! in which calls are written.
//!
//! Meets the definitions "Calls text" (`specs/Spelling.antt`: the text of sections;
//! `specs/Limits.antt`: which sections have one; `specs/BadLine.antt`: the first bad line of every
//! other text; `specs/ReadSoFar.antt`, `specs/Reader.antt`: how far it is read;
//! `specs/KeptCall.antt`: its calls in little room; `specs/RoundTrip.antt`: what a written text is
//! read as) and "A client's own calls" (`specs/OwnCalls.antt`). To the crates above it promises
//! that [`read_calls`] accepts exactly the
//! texts of 1 to 8 sections, gives back the very sections, and names the first bad line of every
//! other text, as a [`CallsReader`] does call by call, and that [`write_calls`] writes the one text
//! of its sections, which is read as these again.
#![tactic(auto)]

mod calls_reader;
mod cut;
mod fault;
mod header;
mod kept_call;
mod line_text;
mod number;
mod reading;
mod reused;
mod script_text;
mod section;
mod times;
mod writing;

pub use calls_reader::CallsReader;
pub use domain_run::{Call, NoMemory, Reply};
pub use fault::CallsFault;
pub use kept_call::Kept;
pub use reading::read_calls;
pub use reused::Reused;
pub use section::{Entry, Section};
pub use writing::{put_call, put_domain, write_calls};
