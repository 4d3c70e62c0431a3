//! The book of a domain: the calls that were made on it with their replies, in the order in which
//! they were made, and the tickets of its tasks.
//!
//! Meets the definition "A domain's book" (`specs/Book.antt`, `specs/Pieces.antt`,
//! `specs/BookAnswers.antt`, `specs/LimitAnswers.antt`, `specs/MoveAnswers.antt`; at its end
//! `specs/Ending.antt`, `specs/Playing.antt`). To the crates above it promises that a [`Domain`]'s
//! state is the run of its history, in which each client's calls stand once and in their order, and
//! that it holds a ticket for each listed task, of its bandwidth, and gives it back when the task
//! has gone; that an [`EndingBook`] takes or draws its last advance while it makes it, and enters
//! it as the domain would; and that a [`PlayingBook`] enters its last advance before the ticks,
//! makes exactly these piece by piece without memory, with a log of what happens if it is asked
//! for, and is the same book at its end.
//!
//! A history as text is the crate `calls_text`'s; its public names are given out here too.
#![tactic(auto)]

mod book;
mod core_steps;

pub use book::{
    Admit, AdvanceError, Closed, Domain, DrawnAdvance, EndingBook, Full, Limit, Move, MoveFault,
    Pass, PlayingBook, Prepared, StreamedAdvance, move_task, playing_is_advancing, prepare,
};
pub use calls_text::{
    Call, CallsFault, CallsReader, Entry, Kept, NoMemory, Reply, Section, put_call, put_domain,
    read_calls, write_calls,
};
pub use core_steps::books_are_the_cores;
