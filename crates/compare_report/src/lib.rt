//! The report of a recorded trace beside the model's, from bytes to bytes, and its lines.
//!
//! Meets the definitions of the lines (`specs/Table.antt`) and of quantiles
//! (`specs/Quantiles.antt`), of what is told of a task (`specs/Rows.antt`, `specs/Findings.antt`),
//! of the first differences (`specs/First.antt`), of the total (`specs/Tally.antt`), of the report
//! of two texts (`specs/Text.antt`, `specs/Report.antt`) and of what a comparison answers
//! (`specs/Answer.antt`). To the crate above it promises of [`compare_texts`]: `Ok` means that what
//! was written is the report of the two texts that were read, and nothing else, and has the total
//! of that report; each fault means what it says and is the first, and where it is no fault of the
//! writer, nothing was written. In a line each value stands in its column, at the right, and a time
//! is written to the microsecond.
#![tactic(auto)]

mod comparing;
mod differing;
mod fault;
mod finding;
mod findings;
mod first;
mod line;
mod options;
mod putting;
mod quantiles;
mod report;
mod row;
mod tally;
mod text;
mod writing;

pub use comparing::compare_texts;
pub use counted_io::Counted;
pub use differing::{put_missing, put_no_difference, put_other};
pub use fault::{CompareFault, Input};
pub use finding::{Finding, Missing};
pub use first::earliest;
pub use line::{Place, Row, Shift, Spread, Stretch};
pub use options::CompareOptions;
pub use quantiles::spread;
pub use tally::{Tally, put_tally, put_total};
pub use writing::{put_cpus, put_header, put_row, put_shift};
