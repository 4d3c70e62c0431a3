//! The runs of the domains of a machine as one trace, alone or with what happens in them, while
//! they are made.

ghost use Rattle.std.specs.Prelude.{◌<◌, ◌≤◌, ◌^◌, IfErr, OnOk, length, map};
ghost use Rattle.counted_io.specs.Sides.{faults_of, side};
ghost use Rattle.switch_text.specs.SlicedEvents.{logged_runs, events_in, logged_runs_text};
ghost use Rattle.switch_text.specs.SlicedTrace.{wholes, all_entries};
ghost use Rattle.switch_text.specs.Trace.{trace_of};
ghost use Rattle.calls_trace.specs.Written.{IsWritten, IsUnwritten};
ghost use Rattle.calls_trace.specs.private.Playing.{sliced_of};
ghost use Rattle.calls_trace.specs.private.PlayingEvents.{sliced_events_of};

use crate::fault::TraceFault;
use crate::playing::Playing;
use crate::playing_events::PlayingEvents;
use domain_run::NoMemory;
use std::alloc::Global;
use std::io::Write;
use switch_text::{Counted, TraceRoom, write_event_slices, write_slices};

// Room for the texts of tasks: in memory, whose want is reported, and not on the stack, whose want
// is not.
fn room_in(alloc: Global) -> Result<TraceRoom, NoMemory> {
    TraceRoom::open(alloc).map_err(|_| NoMemory)
}

/// Writes the trace of runs under way while they are made. What needs memory is made before the
/// first byte.
pub(crate) fn write_played<W: Write>(
    alloc: Global,
    mut playing: Vec<Playing>,
    writer: &mut Counted<W>,
) -> Result<(), TraceFault>
    requires few { length playing.items ≤ 8 }
    requires countable { length (all_entries (wholes (map sliced_of playing.items))) ≤ 2 ^ 54 }
    requires faults { faults_of writer.old < 2 ^ 63 }
    ensures ok { OnOk result (IsWritten (side W.contents writer.old writer.new)
        (trace_of (wholes (map sliced_of playing.items)))) }
    ensures err { IfErr result (IsUnwritten (side W.contents writer.old writer.new)
        (trace_of (wholes (map sliced_of playing.items)))) }
{
    let room = match room_in(alloc) {
        Ok(room) => room,
        Err(error) => {
            drop(playing);
            return Err(error.into());
        }
    };
    let written = write_slices(playing.as_mut_slice(), room, writer);
    drop(playing);
    match written {
        Ok(()) => Ok(()),
        Err(fault) => Err(TraceFault::Write {
            written: fault.written,
        }),
    }
}

/// Writes the trace of runs under way, and between its lines those of what happens, while they are
/// made. What needs memory is made before the first byte.
pub(crate) fn write_played_events<W: Write>(
    alloc: Global,
    mut playing: Vec<PlayingEvents>,
    writer: &mut Counted<W>,
) -> Result<(), TraceFault>
    requires few { length playing.items ≤ 8 }
    requires countable { length (events_in (logged_runs (map sliced_events_of playing.items)))
        < 2 ^ 55 }
    requires faults { faults_of writer.old < 2 ^ 63 }
    ensures ok { OnOk result (IsWritten (side W.contents writer.old writer.new)
        (logged_runs_text (logged_runs (map sliced_events_of playing.items)))) }
    ensures err { IfErr result (IsUnwritten (side W.contents writer.old writer.new)
        (logged_runs_text (logged_runs (map sliced_events_of playing.items)))) }
{
    let room = match room_in(alloc) {
        Ok(room) => room,
        Err(error) => {
            drop(playing);
            return Err(error.into());
        }
    };
    let written = write_event_slices(playing.as_mut_slice(), room, writer);
    drop(playing);
    match written {
        Ok(()) => Ok(()),
        Err(fault) => Err(TraceFault::Write {
            written: fault.written,
        }),
    }
}
