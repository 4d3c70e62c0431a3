//! From a tasks file and a recording to a calls text.

ghost use Rattle.std.specs.Prelude.{◌≡◌, ◌<◌, ◌^◌, OnOk, IfErr};
ghost use Rattle.counted_io.specs.Sides.{faults_of, side};
ghost use Rattle.recorded_workload.specs.Refusals.{IsWorkloadShape};
ghost use Rattle.recording_import.specs.Import.{shape_of};
ghost use Rattle.recording_import.specs.Answer.{import_streams, IsImportWritten, IsImportFault};
ghost use Rattle.recording_import.specs.private.Met.{import_fault_of};

use crate::fault::{ImportFault, ImportInput, TextFault};
use crate::inputs::{moments_from, tasks_from};
use crate::options::ImportOptions;
use crate::refusing::{fault_named, has_switch, text_of};
use counted_io::Counted;
use std::alloc::Global;
use std::io::{Read, Write};

/// A fault of one of the texts.
pub(crate) fn fault_of(input: ImportInput, fault: TextFault) -> ImportFault
    ensures { result ≡ import_fault_of input fault }
{
    match fault {
        TextFault::BadLine(line) => ImportFault::BadLine { input, line },
        TextFault::Read => ImportFault::Read(input),
        TextFault::Memory => ImportFault::Memory,
    }
}

/// Reads a tasks file to its end, then a recording to its end, and writes the calls text of what
/// the recording shows of the tasks: each task with a job is admitted with the script of its jobs,
/// and the domain goes on to the last switch or wake that counts.
///
/// `Ok`: what was written is the calls text of these two texts, and nothing else; `read_calls`
/// reads it.
///
/// # Errors
/// The first that is met. [`ImportFault::BadLine`] and [`ImportFault::Read`] of one of the texts;
/// [`ImportFault::NoSwitch`], [`ImportFault::NoTask`], [`ImportFault::ManyJobs`],
/// [`ImportFault::LongSleep`], [`ImportFault::ManyCpus`], [`ImportFault::LongRecording`], in this
/// order; [`ImportFault::Memory`] if a growth was refused: nothing was written, and of a fault of
/// the tasks file the recording was not read. [`ImportFault::Write`] if the writer failed: it took
/// exactly so many bytes, the front of the text, and not all.
pub fn import_recording<T: Read, R: Read, W: Write>(
    alloc: Global,
    tasks: &mut Counted<T>,
    recorded: &mut Counted<R>,
    writer: &mut Counted<W>,
    options: ImportOptions,
) -> Result<(), ImportFault>
    requires tasks { faults_of tasks.old < 2 ^ 63 }
    requires recorded { faults_of recorded.old < 2 ^ 63 }
    requires writer { faults_of writer.old < 2 ^ 63 }
    requires shape { IsWorkloadShape (shape_of options) }
    ensures ok { OnOk result
        (IsImportWritten options (import_streams (side T.remaining tasks.old tasks.new)
        (side R.remaining recorded.old recorded.new) (side W.contents writer.old writer.new))) }
    ensures err { IfErr result
        (IsImportFault options (import_streams (side T.remaining tasks.old tasks.new)
        (side R.remaining recorded.old recorded.new) (side W.contents writer.old writer.new))) }
{
    let own = match tasks_from(alloc, tasks) {
        Ok(own) => own,
        Err(fault) => return Err(fault_of(ImportInput::Tasks, fault)),
    };
    let moments = match moments_from(alloc, recorded, &options, &own) {
        Ok(moments) => moments,
        Err(fault) => return Err(fault_of(ImportInput::Recorded, fault)),
    };
    if !has_switch(&moments) {
        return Err(ImportFault::NoSwitch);
    }
    let text = match text_of(alloc, &options, &own, &moments) {
        Ok(text) => text,
        Err(refusal) => return Err(fault_named(own, refusal)),
    };
    match writer.write_all(&text) {
        Ok(()) => Ok(()),
        Err(written) => Err(ImportFault::Write { written }),
    }
}
