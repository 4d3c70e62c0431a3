use std::alloc::{AllocError, AllocFailed};
use std::error::Error;
use std::fmt;

/// Why a calls text was not read. Prints as `bad line 3` or `out of memory`.
#[derive(Clone, Copy, Debug)]
pub enum CallsFault {
    /// 30: line `n`, from 1, is the first at which the text stops being a front of whole lines of a
    /// text that is accepted.
    BadLine { n: u64 },
    /// 31: a growth was refused. It may come before any bad line.
    Memory,
}

impl fmt::Display for CallsFault {
    ghost use Rattle.std.specs.Prelude.{Some};
    ghost use Rattle.calls_text.specs.FaultText.{calls_fault_text};

    ghost output = { λ f. Some (calls_fault_text f) };

    fn fmt<W: fmt::Write>(&self, f: &mut fmt::Formatter<W>) -> fmt::Result {
        match self {
            CallsFault::BadLine { n } => write!(f, "bad line {n}"),
            CallsFault::Memory => f.write_str("out of memory"),
        }
    }
}

impl Error for CallsFault {}

/// Why a part of a line was not read.
#[derive(Clone, Copy)]
pub(crate) enum PartFault {
    /// It is the spelling of nothing.
    Bad,
    /// A growth was refused.
    Memory,
}

impl From<AllocError> for PartFault {
    ghost use Rattle.std.specs.Prelude.{◌≡◌};
    ghost use Rattle.calls_text.specs.declared.fault.PartFault.TheVariants.{Memory};

    ghost from_gives = { λ _ e. e ≡ Memory };

    fn from(_e: AllocError) -> PartFault {
        PartFault::Memory
    }
}

impl<T: Drop> From<AllocFailed<T>> for PartFault {
    ghost use Rattle.std.specs.Prelude.{◌≡◌};
    ghost use Rattle.calls_text.specs.declared.fault.PartFault.TheVariants.{Memory};

    ghost from_gives = { λ _ e. e ≡ Memory };

    fn from(_e: AllocFailed<T>) -> PartFault {
        PartFault::Memory
    }
}
