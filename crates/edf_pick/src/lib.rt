//! Which ready tasks run, and on which CPU: global EDF (sched-deadline.rst, "Main algorithm"; ties
//! and placement are own).
//!
//! [`Queue`] keeps the ready tasks in the order of the choice, and [`pick`] moves the occupants of
//! the CPUs, a [`Placement`], on by one tick. [`pick`] is the reference: it follows the definition
//! step by step, and the engine calls [`Schedule::pick`]. Both meet the definition "Choice and
//! placement" (`specs/Choice.antt` and `specs/Places.antt` by counting, `specs/Order.antt` for the
//! queue). To the crate above it promises that the occupants of the CPUs are exactly those, for a
//! list in any order too (`proofs/CallerLemmas.antt`), and that neither a queue nor a placement
//! grows: their types keep the room that they were opened with. [`Schedule`] is both as one
//! (`specs/Schedule.antt`): who stays on its CPU is in no queue, so it looks at those who wait
//! alone, and lists the CPUs that another one has (`specs/Moves.antt`). The task that runs on a CPU
//! belongs to it (`specs/Changes.antt`).
#![tactic(auto)]

mod assignments;
mod candidate;
mod choosing;
mod leaving;
mod movers;
mod moves;
mod order;
mod placement;
mod queue;
mod reference;
mod renew;
mod room;
mod running;
mod schedule;
mod settling;
mod single;

pub use candidate::Candidate;
pub use moves::Moved;
pub use placement::Placement;
pub use queue::Queue;
pub use reference::{is_on_cpu, pick};
pub use schedule::Schedule;
