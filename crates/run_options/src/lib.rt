//! What is asked of a run: its options, what is written of it, and the words of a command line that
//! mean them.
//!
//! Which [`Options`] a scenario may be run with is `AreOptions` (`specs/Options.antt`).
//! [`read_options`] meets the definition "Options of a run" (`specs/Words.antt`). To the crates
//! above it promises that the options are those that the words mean, and that each fault is theirs.
//! Nothing here knows of a session or of a run, so that who reads words need not wait for either.
#![tactic(auto)]

mod options;
mod replay_print;
mod words;

pub use chart_pieces::Span;
pub use options::{Options, Print};
pub use replay_print::ReplayPrint;
pub use words::{
    SpanWords, Words, WordsFault, read_limit, read_list, read_options, read_span, read_uncut,
};
