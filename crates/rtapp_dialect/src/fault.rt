use std::alloc::{AllocError, AllocFailed};
use thiserror::Error;

/// Why a file has no strict text.
#[derive(Clone, Copy, Debug, Error)]
pub enum DialectFault {
    /// A comment `/*` without an end: the offset of its `/`, from 0.
    #[error("comment at {0} has no end")]
    Comment(usize),
    /// A growth was refused. It may come before the other fault.
    #[error("out of memory")]
    Memory,
}

impl From<AllocError> for DialectFault {
    ghost use Rattle.std.specs.Prelude.{◌≡◌};
    ghost use Rattle.rtapp_dialect.specs.declared.fault.DialectFault.TheVariants.{Memory};

    ghost from_gives = { λ _ e. e ≡ Memory };

    fn from(_e: AllocError) -> DialectFault {
        DialectFault::Memory
    }
}

impl<T: Drop> From<AllocFailed<T>> for DialectFault {
    ghost use Rattle.std.specs.Prelude.{◌≡◌};
    ghost use Rattle.rtapp_dialect.specs.declared.fault.DialectFault.TheVariants.{Memory};

    ghost from_gives = { λ _ e. e ≡ Memory };

    fn from(_e: AllocFailed<T>) -> DialectFault {
        DialectFault::Memory
    }
}
