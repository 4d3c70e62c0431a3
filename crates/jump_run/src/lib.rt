//! From event to event: many ticks of a domain at once, with the very result of single ticks.
//!
//! Between two events (a replenishment, a zero-lag time, a wake, the end of a task's work, or a
//! budget that is spent) each tick does the same to every task. So [`advance`] begins a tick, ends
//! as many as pass before the next event, and goes on. To the crates above it promises the state
//! that so many ticks of the definition "Tick" of `domain_run` give, switches and all.
#![tactic(auto)]

mod advancing;
mod alone;
mod crew;
mod plan;
mod silent;

pub use advancing::{
    Done, Piece, advance, advance_logged, advance_piece, advance_with, advance_with_logged,
};
pub use silent::Silent;
pub use tick_split::Turn;
