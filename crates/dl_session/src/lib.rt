//! What the program does between the bytes that it reads and the bytes that it writes.
//!
//! [`run`] is for scenarios. It meets the definitions "Answers of a scenario"
//! (`specs/ScenarioAnswers.antt`) and "Run of a scenario" (`specs/RunAnswer.antt`). To the crate
//! above it promises the theorem on `run`: `Ok` means that the histories in the report are legal
//! and answer the scenario together with the refusals, and that what was written is the text of
//! their run, and nothing else. Its options, and what the words of a command line mean, are the
//! crate `run_options`'s.
//!
//! [`replay_as`] is for recorded calls, and [`replay`] for their trace. They are the crate
//! `calls_trace`'s, with the faults of a session (`specs/Answer.antt`), and meet its definition of
//! what a replay answers. To the crates above they promise the theorem on `replay`: `Ok` means that
//! what was written is the trace of the runs of the sections that were read, each on a domain of
//! its own, or their calls with the replies, and nothing else; each fault means what it says, and
//! where it is no fault of the writer, nothing was written.
//!
//! [`compare_texts`] is for two traces, and the crate `compare_report`'s; how it ends is a
//! [`ComparisonEnding`] (`specs/Comparing.antt`).
//!
//! What the program says on standard error is [`Ending::text`] or [`ComparisonEnding::text`]
//! (`specs/Ending.antt`, `specs/Lines.antt`): `Ok` means that it is the whole text.
//!
//! A [`Session`] with its [`Client`]s is the crate `session`'s, for whoever wants its calls without
//! texts; [`admit_all`] is its call with the faults of a run.
#![tactic(auto)]

mod admitting;
mod asked;
mod comparing;
mod ending;
mod fault;
mod history_text;
mod played;
mod played_books;
mod printing;
mod promising;
mod putting;
mod replaying;
mod running;
mod streaming;

pub use admitting::admit_all;
pub use calls_trace::{ReplayPrint, Span};
pub use compare_report::{CompareOptions, Tally, compare_texts};
pub use comparing::{ComparisonEnding, TraceNames};
pub use ending::Ending;
pub use fault::{RefusedLine, SessionFault};
pub use replaying::{replay, replay_as};
pub use run_options::{
    SpanWords, Words, WordsFault, read_limit, read_list, read_options, read_span, read_uncut,
};
pub use running::run;
pub use session::{
    AllPass, Answer, Client, Names, Options, Parts, Print, Refusal, Report, Session, Shared,
    Shares, Turnstile,
};
