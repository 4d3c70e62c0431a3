//! From a tasks file and a recording to a table of jobs.

ghost use Rattle.std.specs.Prelude.{◌≡◌, ◌<◌, ◌^◌, IfOk, OnOk, IfErr};
ghost use Rattle.std.specs.List.Sorted.{IsNonDecreasingBy};
ghost use Rattle.counted_io.specs.Sides.{faults_of, side};
ghost use Rattle.recording_import.specs.Answer.{import_streams};
ghost use Rattle.recording_import.specs.Jobs.{table_of, IsTableWritten, IsTableFault};

use crate::fault::{ImportFault, ImportInput};
use crate::importing::fault_of;
use crate::inputs::{moments_from, tasks_from};
use crate::options::ImportOptions;
use crate::refusing::has_switch;
use counted_io::Counted;
use draft::NoMemory;
use recorded_jobs::{Moment, jobs_of_tasks};
use recorded_table::jobs_table;
use std::alloc::Global;
use std::io::{Read, Write};
use tasks_text::Task;

/// The table of what these moments show of tasks.
fn table_of(alloc: Global, tasks: &[Task], moments: &[Moment]) -> Result<Vec<u8>, NoMemory>
    requires { IsNonDecreasingBy (λ m. m.time) moments.now }
    ensures { IfOk result (λ v. v.items ≡ table_of moments.now tasks.now) }
{
    let found = jobs_of_tasks(alloc, moments, tasks.len())?;
    jobs_table(alloc, tasks, &found.jobs)
}

/// Reads a tasks file to its end, then a recording to its end, and writes a table of what the
/// recording shows of each task: how many jobs, and how long they and the times between them are.
///
/// `Ok`: what was written is the table of these two texts, and nothing else.
///
/// # Errors
/// The first that is met. [`ImportFault::BadLine`] and [`ImportFault::Read`] of one of the texts;
/// [`ImportFault::NoSwitch`]; [`ImportFault::Memory`] if a growth was refused: nothing was written,
/// and of a fault of the tasks file the recording was not read. [`ImportFault::Write`] if the
/// writer failed: it took exactly so many bytes, the front of the table, and not all.
pub fn import_jobs<T: Read, R: Read, W: Write>(
    alloc: Global,
    tasks: &mut Counted<T>,
    recorded: &mut Counted<R>,
    writer: &mut Counted<W>,
    options: ImportOptions,
) -> Result<(), ImportFault>
    requires tasks { faults_of tasks.old < 2 ^ 63 }
    requires recorded { faults_of recorded.old < 2 ^ 63 }
    requires writer { faults_of writer.old < 2 ^ 63 }
    ensures ok { OnOk result
        (IsTableWritten options (import_streams (side T.remaining tasks.old tasks.new)
        (side R.remaining recorded.old recorded.new) (side W.contents writer.old writer.new))) }
    ensures err { IfErr result
        (IsTableFault options (import_streams (side T.remaining tasks.old tasks.new)
        (side R.remaining recorded.old recorded.new) (side W.contents writer.old writer.new))) }
{
    let own = match tasks_from(alloc, tasks) {
        Ok(own) => own,
        Err(fault) => return Err(fault_of(ImportInput::Tasks, fault)),
    };
    let moments = match moments_from(alloc, recorded, &options, &own) {
        Ok(moments) => moments,
        Err(fault) => return Err(fault_of(ImportInput::Recorded, fault)),
    };
    if !has_switch(&moments) {
        return Err(ImportFault::NoSwitch);
    }
    let text = match table_of(alloc, &own, &moments) {
        Ok(text) => text,
        Err(_) => return Err(ImportFault::Memory),
    };
    match writer.write_all(&text) {
        Ok(()) => Ok(()),
        Err(written) => Err(ImportFault::Write { written }),
    }
}
