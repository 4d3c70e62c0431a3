//! The trace text: the switches of all domains as lines, in the form in which ftrace prints its
//! event sched_switch. And the events text: the trace, and between its lines those of what happens
//! to the tasks.
//!
//! Meets the definition "Trace text": a line (`specs/Line.antt`) and the whole text of several runs
//! (`specs/Trace.antt`, with worked rows in `specs/Examples.antt`). To the crates above it promises
//! that [`write_trace`] appends exactly that text, or stops at the writer's first fault with the
//! exact number of bytes taken, as [`write_text`] does with a text in memory. [`Counted`] is the
//! crate `counted_io`'s. [`write_slices`] writes the trace of several runs while they are made,
//! slice by slice (`specs/SlicedTrace.antt`), from a type of the caller. `proofs/CallerLemmas.antt`
//! has laws of the text for callers: the trace of one run is its lines as they stand, only the
//! names that occur matter, and what it means that the entries are in order.
//!
//! Meets the definition "Events text" in the same way: a line (`specs/LoggedLine.antt`) and the
//! whole
//! text (`specs/Events.antt`, with worked rows in `specs/EventExamples.antt`), which
//! [`write_events_in`] appends, or stops as [`write_trace`] does. It stands here, since its lines
//! of switches are put together from the texts that are kept for the trace's. Laws for callers are
//! in `proofs/EventLemmas.antt`: where nothing happens it is the trace, its switches stand in the
//! trace's order, and a cut changes nothing of it. [`write_event_slices`] writes the events of runs
//! while they are made (`specs/SlicedEvents.antt`).
#![tactic(auto)]

mod batch;
mod called;
mod event_merge;
mod event_slices;
mod events;
mod fault;
mod heads;
mod lines;
mod logged;
mod logged_lines;
mod logged_merge;
mod merge;
mod piece;
mod putting;
mod ready;
mod run;
mod slices;
mod writing;

pub use counted_io::{Counted, ReadFault};
pub use event_slices::{EventSlices, write_event_slices};
pub use events::write_events_in;
pub use fault::WriteFault;
pub use lines::line;
pub use logged::DomainEvents;
pub use logged_lines::logged_line;
pub use ready::TraceRoom;
pub use run::Run;
pub use slices::{Slices, write_slices, write_slices_apart};
pub use writing::{write_text, write_trace, write_trace_in};
