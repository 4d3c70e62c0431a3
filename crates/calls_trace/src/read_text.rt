//! The runs of the sections of a calls text, which are made while its trace is written, alone or
//! with what happens.

ghost use Rattle.std.specs.Prelude.{IfErr, IfOk};
ghost use Rattle.calls_text.specs.BadLine.{IsReadFault};
ghost use Rattle.calls_trace.specs.private.ReadText.{ArePlaying};
ghost use Rattle.calls_trace.specs.private.ReadEvents.{AreEventsOf};

use crate::events_so_far::EventsSoFar;
use crate::playing::Playing;
use crate::playing_events::PlayingEvents;
use crate::playing_so_far::PlayingSoFar;
use calls_text::{CallsFault, CallsReader};
use std::alloc::Global;

/// The runs of the sections of a text, each on a domain of its own: the first has the first CPUs of
/// the machine, the second the next ones, and so on. Their calls are made up to the first advance;
/// the others are kept, and made while the switches are written.
pub(crate) fn playing_of_text(alloc: Global, text: &[u8]) -> Result<Vec<Playing>, CallsFault>
    ensures runs { IfOk result (λ v. ArePlaying text.now v.items) }
    ensures fault { IfErr result (IsReadFault text.now) }
{
    let mut reader = CallsReader::open(text)?;
    let Ok(none) = PlayingSoFar::open(alloc) else {
        return Err(CallsFault::Memory);
    };
    none.read_on(alloc, &mut reader)
}

/// As [`playing_of_text`], with what happens.
pub(crate) fn events_of_text(alloc: Global, text: &[u8]) -> Result<Vec<PlayingEvents>, CallsFault>
    ensures runs { IfOk result (λ v. AreEventsOf text.now v.items) }
    ensures fault { IfErr result (IsReadFault text.now) }
{
    let mut reader = CallsReader::open(text)?;
    let Ok(none) = EventsSoFar::open(alloc) else {
        return Err(CallsFault::Memory);
    };
    none.read_on(alloc, &mut reader)
}
