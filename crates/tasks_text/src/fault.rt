//! Faults of a tasks file.

use no_memory::NoMemory;
use std::alloc::{AllocError, AllocFailed};
use thiserror::Error;

/// Why a tasks file was not read.
#[derive(Clone, Copy, Debug, Error)]
pub enum TasksFault {
    /// Line `n`, from 1, is the first at which the text stops being a front of whole lines of a
    /// text that is accepted.
    #[error("tasks line {n}")]
    BadLine { n: u64 },
    /// A growth was refused. It may come before any bad line.
    #[error("out of memory")]
    Memory,
}

/// Why a line was not taken.
#[derive(Clone, Copy)]
pub(crate) enum LineFault {
    /// It is the line of no further task.
    Bad,
    /// A growth was refused.
    Memory,
}

impl From<AllocError> for LineFault {
    ghost use Rattle.std.specs.Prelude.{◌≡◌};
    ghost use Rattle.tasks_text.specs.declared.fault.LineFault.TheVariants.{Memory};

    ghost from_gives = { λ _ e. e ≡ Memory };

    fn from(_e: AllocError) -> LineFault {
        LineFault::Memory
    }
}

impl From<NoMemory> for LineFault {
    ghost use Rattle.std.specs.Prelude.{◌≡◌};
    ghost use Rattle.tasks_text.specs.declared.fault.LineFault.TheVariants.{Memory};

    ghost from_gives = { λ _ e. e ≡ Memory };

    fn from(_e: NoMemory) -> LineFault {
        LineFault::Memory
    }
}

impl<T: Drop> From<AllocFailed<T>> for LineFault {
    ghost use Rattle.std.specs.Prelude.{◌≡◌};
    ghost use Rattle.tasks_text.specs.declared.fault.LineFault.TheVariants.{Memory};

    ghost from_gives = { λ _ e. e ≡ Memory };

    fn from(_e: AllocFailed<T>) -> LineFault {
        LineFault::Memory
    }
}
