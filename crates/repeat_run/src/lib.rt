//! A run that repeats is given again, and not simulated.
//!
//! [`Repeating`] gives the switches of such a run. A caller that wants no switches simulates the
//! run itself: [`Lookout`] says when to look, and [`Sight`] whether the run has come back, and for
//! how many periods it goes on alike.
#![tactic(auto)]

mod closing;
mod law;
mod looking;
mod lookout;
mod phase;
mod repeating;
mod seeing;
mod sight;
mod span;
mod stepping;

pub use lookout::{AfterLook, Lookout};
pub use repeating::Repeating;
pub use sight::Sight;
