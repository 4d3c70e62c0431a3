use std::alloc::{AllocError, AllocFailed};
use thiserror::Error;

/// Why a recording was not read.
#[derive(Clone, Copy, Debug, Error)]
pub enum RecordedFault {
    /// The first line, from 1, that is one of sched_switch in none of the three forms.
    #[error("trace line {0}")]
    BadLine(u64),
    /// The reader failed.
    #[error("read failed")]
    Read,
    /// 2^32 reads met no end (own).
    #[error("read failed")]
    Endless,
    /// A growth was refused. It may come before any bad line.
    #[error("out of memory")]
    Memory,
}

/// Why a line was not taken.
#[derive(Clone, Copy)]
pub(crate) enum LineFault {
    /// It is one of sched_switch in none of the three forms.
    Bad,
    /// A growth was refused.
    Memory,
}

impl From<AllocError> for LineFault {
    ghost use Rattle.std.specs.Prelude.{◌≡◌};
    ghost use Rattle.recorded_text.specs.declared.fault.LineFault.TheVariants.{Memory};

    ghost from_gives = { λ _ e. e ≡ Memory };

    fn from(_e: AllocError) -> LineFault {
        LineFault::Memory
    }
}

impl<T: Drop> From<AllocFailed<T>> for LineFault {
    ghost use Rattle.std.specs.Prelude.{◌≡◌};
    ghost use Rattle.recorded_text.specs.declared.fault.LineFault.TheVariants.{Memory};

    ghost from_gives = { λ _ e. e ≡ Memory };

    fn from(_e: AllocFailed<T>) -> LineFault {
        LineFault::Memory
    }
}
