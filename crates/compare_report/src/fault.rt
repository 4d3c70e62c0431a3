//! Why there is no report.

use thiserror::Error;

/// One of the two texts.
#[derive(Clone, Copy, Debug, PartialEq, Eq)]
pub enum Input {
    /// The model's trace.
    Model,
    /// The recording.
    Recorded,
}

/// Why two texts were not compared, or the report was not written whole. Where it is not
/// [`CompareFault::Write`], nothing was written. It is the first fault: the model's text is read to
/// its end before the recorded one.
#[derive(Clone, Copy, Debug, PartialEq, Eq, Error)]
pub enum CompareFault {
    /// A line of sched_switch in none of the three forms.
    #[error("trace line {line}")]
    BadLine {
        /// In which text.
        input: Input,
        /// The first such line, from 1.
        line: u64,
    },
    /// A text without bad lines has no line of sched_switch.
    #[error("no switch")]
    NoSwitch(Input),
    /// The reader of a text failed.
    #[error("read failed")]
    Read(Input),
    /// 2^32 reads of a text met no end (own).
    #[error("read failed")]
    Endless(Input),
    /// The writer failed.
    #[error("write failed after {written}")]
    Write {
        /// How many bytes of the report the writer took before its fault.
        written: u64,
    },
    /// A growth was refused.
    #[error("out of memory")]
    Memory,
}
