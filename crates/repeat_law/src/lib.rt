//! A run that repeats: after a period a domain is what it was, shifted, and then one period gives
//! all later ones.
//!
//! A shift moves a domain by some microseconds (`specs/Later.antt` and `specs/Shift.antt` of
//! `domain_run`). Its deadlines, zero-lag times, timers and clock are later. Each task has a
//! [`Pace`]:
//!
//! - [`Pace::Plays`]: it asks its script. In a finite script it is some whole rounds further on.
//! - [`Pace::Works`]: its work is longer than the period. Some of it is done.
//! - [`Pace::Rests`]: it waits for a call, and stays as it is.
//!
//! The law of [`repeats_go_on`] says of the definitions:
//!
//! - A shifted domain does what the domain does, later, as long as no last round is reached and no
//!   such work ends.
//! - A domain repeats if two of its states are equal, field by field, up to a shift
//!   (`specs/Repeats.antt`, `Repeats`). Then m periods are the first one, given m times: the
//!   switches, what happens to the tasks, and the state after them.
//! - Whether rounds and work last for m periods can be read from the first state (`LastsFor`). What
//!   comes after them is what came after the first state.
//!
//! [`pace_between`] finds the pace of a task from what was kept of it at two times, and
//! [`periods_left`] says for how many periods it lasts.
#![tactic(auto)]

mod law;
mod mark;
mod periods;

pub use domain_run::{Pace, TaskMark};
pub use law::repeats_go_on;
pub use mark::pace_between;
pub use periods::periods_left;
