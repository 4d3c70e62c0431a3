//! The command line of the program: its four commands, their options with defaults, limits and
//! help texts, the reading of words by clap, and what the words ask for.
//!
//! [`matches_of`] meets the definitions "Commands" (`specs/Commands.antt`) and "Reading of words"
//! (`specs/Reading.antt`): what it finds is what clap's rules give for these words and this very
//! command, in which each option has its name, its default and its limits, and it refuses words for
//! the reasons of these rules alone. [`task_in`] reads what words mean off these matches. It meets
//! the definitions of what the texts at the options mean (`specs/Found.antt`; of `compare`,
//! `specs/Comparing.antt`; of `import`, `specs/Importing.antt`) and of what is asked for
//! (`specs/Tasks.antt`). [`read_words`] is that of the words of the process, which no contract can
//! name: of it is promised that a run, a replay, a comparison or an import may be made with what it
//! gives. Nothing here reads or writes files, and an error's
//! text is printed by the caller. Nor does anything know of a session, so that this crate is not
//! proved behind one.
#![tactic(auto)]

mod command;
mod comparison;
mod found;
mod importing;
mod reading;
mod texts;
mod words;

pub use command::{
    LAST_MOMENT, LAST_RECORDED, LEAST_SHIFT, MOST_CLIENTS, MOST_CPUS, MOST_SHIFT, MOST_TIME,
    MOST_WORKERS,
};
pub use comparison::{Comparison, Source};
pub use importing::{ImportCommand, ImportPrint, ImportWords};
pub use reading::{matches_of, not_utf8};
pub use words::{Task, Wrong, read_words, task_in};
