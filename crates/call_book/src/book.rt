//! The book of one domain: its state, the history that it is the run of, and the tickets of its
//! tasks.

mod domain;
mod ledger;
mod prepared;
mod same;
mod stock;

pub use domain::{
    Admit, AdvanceError, Closed, Domain, DrawnAdvance, EndingBook, Full, Limit, Move, MoveFault,
    PlayingBook, StreamedAdvance, move_task, playing_is_advancing,
};
pub use prepared::{Prepared, prepare};

/// A client's pass: the list of the calls that it made on one domain.
pub type Pass = pass_seats::Pass<calls_text::Entry>;
