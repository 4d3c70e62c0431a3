//! A recording of a kernel as a workload, from bytes to bytes.
//!
//! Meets the definitions of the text that is written (`specs/Import.antt`), of what an import
//! answers (`specs/Answer.antt`) and of what the program says of it (`specs/Ending.antt`). To the
//! crate above it promises of [`import_recording`]: `Ok` means that what was written is the calls
//! text of the two texts that were read, which is read as that workload, and nothing else; each
//! fault means what it says and is the first, and if it is no fault of the writer, nothing was
//! written. [`import_jobs`] is the same with a table of the jobs (`specs/Jobs.antt`).
#![tactic(auto)]

mod ending;
mod fault;
mod importing;
mod inputs;
mod options;
mod refusing;
mod tabling;

pub use counted_io::Counted;
pub use ending::{ImportEnding, InputNames};
pub use fault::{ImportFault, ImportInput};
pub use importing::import_recording;
pub use options::ImportOptions;
pub use tabling::import_jobs;
