//! Why a session's admissions, or the end of a run in it, were not made.

use call_book::NoMemory;
use thiserror::Error;

/// Why the clients of a session could not admit their tasks.
#[derive(Clone, Copy, Debug, Error)]
pub enum AdmitFault {
    /// The system started no thread for a client.
    #[error("no thread")]
    Start,
    /// ENOMEM 12: a growth was refused. Nobody had asked then.
    #[error("out of memory")]
    Memory,
}

/// The system started no thread for a client: all that can be logged once the first was started.
#[derive(Clone, Copy)]
pub(crate) struct NotStarted;

impl From<NotStarted> for AdmitFault {
    ghost use Rattle.std.specs.Prelude.{◌≡◌};
    ghost use Rattle.session.specs.declared.fault.AdmitFault.TheVariants.{Start};

    ghost from_gives = { λ _ fault. fault ≡ Start };

    fn from(_e: NotStarted) -> AdmitFault {
        AdmitFault::Start
    }
}

impl From<NoMemory> for AdmitFault {
    ghost use Rattle.std.specs.Prelude.{◌≡◌};
    ghost use Rattle.session.specs.declared.fault.AdmitFault.TheVariants.{Memory};

    ghost from_gives = { λ _ fault. fault ≡ Memory };

    fn from(_e: NoMemory) -> AdmitFault {
        AdmitFault::Memory
    }
}

/// Why a run in a session did not come to its end.
#[derive(Clone, Copy, Debug, Error)]
pub enum EndFault {
    /// 40: the history of a domain had no room for the advance at the end.
    #[error("book full")]
    Full,
    /// ENOMEM 12: a growth was refused.
    #[error("out of memory")]
    Memory,
}

impl From<NoMemory> for EndFault {
    ghost use Rattle.std.specs.Prelude.{◌≡◌};
    ghost use Rattle.session.specs.declared.fault.EndFault.TheVariants.{Memory};

    ghost from_gives = { λ _ fault. fault ≡ Memory };

    fn from(_e: NoMemory) -> EndFault {
        EndFault::Memory
    }
}
