use std::alloc::{AllocError, AllocFailed};
use std::error::Error;
use std::fmt;
use std::thread::SpawnError;

/// A worker was not started, or a growth was refused. What the call worked on is as before, and the
/// caller can do it with one worker, which needs neither. It prints as `no worker`.
#[derive(Clone, Copy, Debug)]
pub struct StartFault;

impl fmt::Display for StartFault {
    ghost use Rattle.std.specs.Prelude.{Some, codes};

    ghost output = { λ _. Some (codes "no worker") };

    fn fmt<W: fmt::Write>(&self, f: &mut fmt::Formatter<W>) -> fmt::Result {
        f.write_str("no worker")
    }
}

impl Error for StartFault {}

impl From<AllocError> for StartFault {
    fn from(_error: AllocError) -> StartFault {
        StartFault
    }
}

impl<T: Drop> From<AllocFailed<T>> for StartFault {
    fn from(_error: AllocFailed<T>) -> StartFault {
        StartFault
    }
}

impl<F: Drop> From<SpawnError<F>> for StartFault {
    fn from(_error: SpawnError<F>) -> StartFault {
        StartFault
    }
}
