//! Want of memory, as every crate tells it: a growth was refused (ENOMEM 12, errno(3)).
//!
//! To the crates above it promises the text `out of memory`. Takes no memory.
#![tactic(auto)]

use std::alloc::{AllocError, AllocFailed};
use std::error::Error;
use std::fmt;

/// ENOMEM 12: a growth was refused. What stands then is told by each call that answers it. It
/// prints as `out of memory`.
#[derive(Clone, Copy, Debug)]
pub struct NoMemory;

impl fmt::Display for NoMemory {
    ghost use Rattle.std.specs.Prelude.{Some, codes};

    ghost output = { λ _. Some (codes "out of memory") };

    fn fmt<W: fmt::Write>(&self, f: &mut fmt::Formatter<W>) -> fmt::Result {
        f.write_str("out of memory")
    }
}

impl Error for NoMemory {}

impl From<AllocError> for NoMemory {
    fn from(_error: AllocError) -> NoMemory {
        NoMemory
    }
}

impl<T: Drop> From<AllocFailed<T>> for NoMemory {
    fn from(_error: AllocFailed<T>) -> NoMemory {
        NoMemory
    }
}
