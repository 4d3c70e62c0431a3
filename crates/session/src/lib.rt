//! A session: one gate with the domains that it admits to, each after a lock of its own, for the
//! calls of many clients.
//!
//! A [`Session`] meets the definitions of which session it is (`specs/SessionId.antt`,
//! `specs/Options.antt`), of the clients that it hands out (`specs/Clients.antt`), of what a
//! [`Client`] is answered and what it leaves in the books (`specs/Asks.antt`; for a task that
//! moves, `specs/Moves.antt`), by the history that the call saw (`specs/Seen.antt`), and of what
//! the session leaves at its end (`specs/Report.antt`). To the crate above it promises: a call
//! leaves exactly its entry, or none; a book's answer is that of a legal history in which the
//! client's entries are its pass; a move leaves a departure in the one book and an arrival in the
//! other, or nothing; an admission is answered EINVAL and EPERM exactly where the definition says;
//! and at the end the histories are legal, and each client's entries in them are what it entered.
//!
//! [`admit_all`] lets many clients admit a scenario's tasks at once, each client in a thread of its
//! own. It meets the definition "Admissions of many clients" (`specs/Admissions.antt`) and
//! promises: each client is back at its place, with exactly its own tasks asked for, in their
//! order; and each task has one lawful answer.
//!
//! [`end_run`] ends a session whose tasks are to run for a duration. It meets the definition "The
//! end of a run" (`specs/RunEnd.antt`) and promises: client 1's advance is the last entry of each
//! book, and nothing else was entered; or a book had no room for it. [`begin_end`] enters these
//! advances before their ticks are made, and makes all room for them (`specs/Begun.antt`). After it
//! nothing is refused: [`finish_end`] makes the ticks that are left and ends the session, and
//! leaves the histories that were begun.
#![tactic(auto)]

mod admitting;
mod begun_run;
mod books;
mod client;
mod closing_session;
mod ending_run;
mod fault;
mod locked_book;
mod moving;
mod names;
mod parts;
mod pool;
mod refusal;
mod report;
mod seen;
mod session;
mod shared;
mod turnstile;

pub use admitting::admit_all;
pub use begun_run::{RunBegun, UnderWay, begin_end, finish_end, shut_end};
pub use chart_pieces::Span;
pub use client::Client;
pub use ending_run::end_run;
pub use fault::{AdmitFault, EndFault};
pub use names::Names;
pub use parts::Parts;
pub use refusal::{Answer, Refusal};
pub use report::{Finished, Report, Wanted};
pub use run_options::{Options, Print};
pub use seen::one_client_sees_all;
pub use session::Session;
pub use shared::{Shared, Shares};
pub use turnstile::{AllPass, Turnstile};
