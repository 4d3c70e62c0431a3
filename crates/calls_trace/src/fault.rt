//! Why a trace was not written.

use calls_text::CallsFault;
use domain_run::NoMemory;
use thiserror::Error;

/// Why a trace was not written, or not whole.
#[derive(Clone, Copy, Debug, Error)]
pub enum TraceFault {
    /// The writer failed.
    #[error("write failed after {written}")]
    Write {
        /// How many bytes of the trace the writer took before its fault.
        written: u64,
    },
    /// A growth was refused; nothing was written.
    #[error("out of memory")]
    Memory,
}

/// Why a replay ended without its trace. Where it is not [`ReplayFault::Write`], nothing was
/// written.
#[derive(Clone, Copy, Debug, Error)]
pub enum ReplayFault {
    /// 30: the first line, from 1, at which the input stops being a front of whole lines of a calls
    /// text.
    #[error("calls 30 line {0}")]
    Calls(u64),
    /// The reader failed.
    #[error("read failed")]
    Read,
    /// The writer failed.
    #[error("write failed after {written}")]
    Write {
        /// How many bytes of the trace the writer took before its fault.
        written: u64,
    },
    /// A growth was refused.
    #[error("out of memory")]
    Memory,
}

impl From<NoMemory> for TraceFault {
    ghost use Rattle.std.specs.Prelude.{◌≡◌};
    ghost use Rattle.calls_trace.specs.declared.fault.TraceFault.TheVariants.{Memory};

    ghost from_gives = { λ _ fault. fault ≡ Memory };

    fn from(_e: NoMemory) -> TraceFault {
        TraceFault::Memory
    }
}

impl From<TraceFault> for ReplayFault {
    ghost use Rattle.std.specs.Prelude.{◌≡◌};
    ghost use Rattle.calls_trace.specs.Upward.{of_trace};

    ghost from_gives = { λ found fault. fault ≡ of_trace found };

    fn from(found: TraceFault) -> ReplayFault {
        match found {
            TraceFault::Write { written } => ReplayFault::Write { written },
            TraceFault::Memory => ReplayFault::Memory,
        }
    }
}

impl From<CallsFault> for ReplayFault {
    ghost use Rattle.std.specs.Prelude.{◌≡◌};
    ghost use Rattle.calls_trace.specs.Upward.{of_calls};

    ghost from_gives = { λ found fault. fault ≡ of_calls found };

    fn from(found: CallsFault) -> ReplayFault {
        match found {
            CallsFault::BadLine { n } => ReplayFault::Calls(n),
            CallsFault::Memory => ReplayFault::Memory,
        }
    }
}
