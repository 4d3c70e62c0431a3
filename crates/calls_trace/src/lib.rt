//! From the calls of several domains to the trace of their runs.
//!
//! [`replay_as`] reads recorded calls and writes the text that is asked for: their trace, their
//! replies, the trace with what happens, the jobs or the figures of what happens, or a chart of a
//! part of their run; [`replay`] writes the trace. They meet the definition of what a replay
//! answers (`specs/Answer.antt`), over the trace of the sections that a calls text spells
//! (`specs/Replay.antt`), what happens in them (`specs/DomainEvents.antt`), and their chart
//! (`specs/Charted.antt`). [`write_streamed_summary`] and [`write_streamed_jobs`] write the
//! summary and the jobs of histories whose runs were streamed as they were made, while their
//! switches were forgotten (`specs/Streamed.antt`); [`write_drawn_chart`] writes the chart of
//! histories whose runs were drawn then. Nothing is run again. To the crate above they promise:
//! `Ok` means that what was written is that text of the runs of the sections, each on a domain of
//! its own, and nothing else; each fault means what it says, and where it is no fault of the
//! writer, nothing was written. A trace goes out while the runs are made, alone or with what
//! happens, so their switches and what happens are not kept. The calls of each section are kept,
//! from its first advance on, until all sections are read. For the summary and the jobs the calls
//! of a section are read whole. An accounting takes their run while it is made, and its switches
//! and what happens in it are not kept: of the jobs only a few bytes each. For a chart all sections
//! are read first, since it may end where the last of the runs does. Then each run is drawn while
//! it is made, and only what is in the window is kept. [`names_of_history`] gives the names to a
//! caller that makes the run of a history while it is written (`specs/HistoryNames.antt`).
//! `proofs/CallerLemmas.antt` has laws for callers: the calls text of histories is read again, and
//! its replay writes the same trace; and the switches of sections are few enough to be written.
#![tactic(auto)]

mod counted_run;
mod drawn_chart;
mod events_so_far;
mod fault;
mod figures;
mod foreseen;
mod foreseen_text;
mod history_names;
mod kept;
mod kept_section;
mod laid_out;
mod named_run;
mod playing;
mod playing_events;
mod playing_so_far;
mod read_runs;
mod read_text;
mod replaying;
mod run_text;
mod sketch;
mod sketched_text;
mod sketching;
mod streamed_jobs;
mod streamed_summary;
mod streaming;
mod summed_run;
mod summing;
mod trace;
mod writing;

pub use chart_pieces::Span;
pub use drawn_chart::write_drawn_chart;
pub use fault::{ReplayFault, TraceFault};
pub use history_names::names_of_history;
pub use replaying::{replay, replay_as};
pub use run_options::ReplayPrint;
pub use streamed_jobs::write_streamed_jobs;
pub use streamed_summary::write_streamed_summary;
