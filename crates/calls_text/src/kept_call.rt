//! A call in little room.

ghost use Rattle.std.specs.Prelude.{◌≡◌};

use crate::fault::PartFault;
use crate::header::is_later;
use domain_run::Call;
use std::alloc::Global;

/// A call in little room, for where there may be many: a short one stands in place, another one in
/// a block of its own.
#[derive(Drop)]
pub enum Kept {
    /// [`Call::Wake`].
    Wake {
        /// The task's number.
        number: u32,
    },
    /// [`Call::Leave`].
    Leave {
        /// The task's number.
        number: u32,
    },
    /// [`Call::Depart`].
    Depart {
        /// The task's number.
        number: u32,
    },
    /// [`Call::Advance`].
    Advance {
        /// How many us.
        ticks: u64,
    },
    /// Any other.
    Long(Box<Call>),
}

impl Kept {
    ghost use Rattle.std.specs.Prelude.{Some};
    ghost use Rattle.calls_text.specs.Spelling as spelling;
    ghost use Rattle.calls_text.specs.KeptCall.{call_kept};
    ghost use Rattle.calls_text.specs.private.Reading.{PartGives};

    /// A call in a block of its own.
    #[inline(always)]
    pub(crate) fn long(alloc: Global, call: Call) -> Result<Kept, PartFault>
        ensures { PartGives call_kept result (Some call) }
    {
        match Box::new(alloc, call) {
            Ok(call) => Ok(Kept::Long(call)),
            Err(refused) => {
                // What is let go of goes by one call, not written out with all that is inside.
                drop(refused);
                Err(PartFault::Memory)
            }
        }
    }

    /// The call.
    pub fn into_call(self) -> Call
        ensures { result ≡ call_kept self }
    {
        match self {
            Kept::Wake { number } => Call::Wake { number },
            Kept::Leave { number } => Call::Leave { number },
            Kept::Depart { number } => Call::Depart { number },
            Kept::Advance { ticks } => Call::Advance { ticks },
            Kept::Long(call) => Box::into_inner(call),
        }
    }

    /// Whether the call is of the second form.
    pub(crate) fn is_later(&self) -> bool
        ensures { result ≡ spelling.is_later (call_kept self.now) }
    {
        match self {
            Kept::Wake { .. } | Kept::Leave { .. } | Kept::Advance { .. } => false,
            Kept::Depart { .. } => true,
            Kept::Long(call) => is_later(call),
        }
    }
}
