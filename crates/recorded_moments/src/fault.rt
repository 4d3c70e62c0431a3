//! Faults of a recording.

use std::alloc::AllocError;
use thiserror::Error;

/// Why a recording has no moments.
#[derive(Clone, Copy, Debug, Error)]
pub enum MomentsFault {
    /// The first line, from 1, that is one of sched_switch or sched_wakeup in none of their forms.
    #[error("trace line {0}")]
    BadLine(u64),
    /// A growth was refused. It may come before any bad line.
    #[error("out of memory")]
    Memory,
}

/// Why a line was not taken.
#[derive(Clone, Copy)]
pub(crate) enum LineError {
    /// It is one of sched_switch or sched_wakeup in none of their forms.
    Bad,
    /// A growth was refused.
    Memory,
}

impl From<AllocError> for LineError {
    ghost use Rattle.std.specs.Prelude.{◌≡◌};
    ghost use Rattle.recorded_moments.specs.declared.fault.LineError.TheVariants.{Memory};

    ghost from_gives = { λ _ e. e ≡ Memory };

    fn from(_e: AllocError) -> LineError {
        LineError::Memory
    }
}
