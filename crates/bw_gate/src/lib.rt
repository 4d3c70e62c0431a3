//! The lock-free gate of the bandwidth words: clients take, regrade and give bandwidth by single
//! atomic steps.
//!
//! Meets the definitions "Word" (`specs/Word.antt`), "Table rule" (`specs/Table.antt`,
//! `specs/Kinds.antt`) and "Answers of the gate" (`specs/Answers.antt`), over the words and seats
//! of `atomic_table`. To the crates above it promises that between any two steps each word carries
//! as used exactly the sum of the bandwidths of its tickets, at most the cap that it then carries,
//! which is the domain's CPUs times a limit; that a refusal rests on a word which this very call
//! found; that [`Gate::give`] always succeeds; and that of a gate which is closed with all its
//! pieces the used parts are the sums of the tickets handed in.
//!
//! `try_take`, `try_regrade`, `try_limit`, `give` and `load` neither wait nor take memory, so no
//! lock can stand round them.
#![tactic(auto)]

mod answer;
mod core_steps;
mod dealing;
mod desk;
mod gate;
mod piece;
mod terms;
mod view;
mod word;

pub use answer::{Limit, Regrade, Take, Words};
pub use core_steps::steps_are_the_cores;
pub use desk::Desk;
pub use gate::{Gate, Mark};
pub use piece::{Blank, Ticket};
pub use terms::Room;
pub use word::{cap_of, used_of};
