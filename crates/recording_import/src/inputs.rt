//! The two texts, each read to its end.

ghost use Rattle.std.specs.Prelude.{◌≡◌, ◌<◌, ◌^◌, map, IfSome, OnOk, IfOk, IfErr};
ghost use Rattle.std.specs.List.Sorted.{IsNonDecreasingBy};
ghost use Rattle.counted_io.specs.Sides.{faults_of, inner_of, side};
ghost use Rattle.recorded_moments.specs.Moments.{watched_view};
ghost use Rattle.tasks_text.specs.Tasks.{tasks_spelling, IsTaskList};
ghost use Rattle.recording_import.specs.Import.{watched_of, wanted_of, AreRecorded};
ghost use Rattle.recording_import.specs.private.Met.{IsInputFault, IsBadRecording};
ghost use Rattle.recording_import.specs.declared.fault.ImportInput.TheVariants as input;

use crate::fault::TextFault;
use crate::options::ImportOptions;
use counted_io::{Counted, ReadFault};
use recorded_jobs::Moment;
use recorded_moments::{MomentsFault, Wanted, Watched, moments_in, put_in_order};
use std::alloc::{AllocError, Global};
use std::io::Read;
use tasks_text::{Task, TasksFault, read_tasks};

fn wanted_of(options: &ImportOptions) -> Wanted
    ensures { result ≡ wanted_of options.now }
{
    Wanted {
        any_policy: options.any_policy,
        from: options.from,
        to: options.to,
    }
}

/// The thread of a task.
fn watched_of(task: &Task) -> Watched<'_>
    ensures { watched_view result ≡ watched_of task.now }
{
    Watched {
        name: task.name.as_str().as_bytes(),
        pid: task.pid,
    }
}

/// The threads of tasks.
fn all_watched(alloc: Global, tasks: &[Task]) -> Result<Vec<Watched<'_>>, AllocError>
    ensures { IfOk result (λ v. map watched_view v.items ≡ map watched_of tasks.now) }
{
    let mut watched = Vec::new(alloc);
    for task in tasks {
        watched.push(watched_of(task))?;
    }
    Ok(watched)
}

/// Reads a tasks file.
pub(crate) fn tasks_from<R: Read>(
    alloc: Global,
    reader: &mut Counted<R>,
) -> Result<Vec<Task>, TextFault>
    requires { faults_of reader.old < 2 ^ 63 }
    ensures tasks { IfOk result (λ v. IsTaskList v.items) }
    ensures spelled { IfOk result (λ v. IfSome (R.remaining (inner_of reader.old))
        (λ text. text ≡ tasks_spelling v.items)) }
    ensures fine { OnOk result (faults_of reader.new ≡ faults_of reader.old) }
    ensures fault { IfErr result
        (IsInputFault input.Tasks (side R.remaining reader.old reader.new)) }
{
    let text = match reader.read_all(alloc) {
        Ok(text) => text,
        Err(ReadFault::Failed) => return Err(TextFault::Read),
        Err(ReadFault::Memory) => return Err(TextFault::Memory),
    };
    match read_tasks(alloc, &text) {
        Ok(tasks) => Ok(tasks),
        Err(TasksFault::BadLine { n }) => Err(TextFault::BadLine(n)),
        Err(TasksFault::Memory) => Err(TextFault::Memory),
    }
}

/// What of a recording counts for tasks, in the order of time.
fn moments_of(
    alloc: Global,
    options: &ImportOptions,
    tasks: &[Task],
    text: &[u8],
) -> Result<Vec<Moment>, TextFault>
    ensures found { IfOk result (λ v. AreRecorded options.now tasks.now text.now v.items) }
    ensures order { IfOk result (λ v. IsNonDecreasingBy (λ m. m.time) v.items) }
    ensures fault { IfErr result (IsBadRecording text.now) }
{
    let watched = all_watched(alloc, tasks)?;
    let mut moments = match moments_in(alloc, text, &wanted_of(options), &watched) {
        Ok(moments) => moments,
        Err(MomentsFault::BadLine(line)) => return Err(TextFault::BadLine(line)),
        Err(MomentsFault::Memory) => return Err(TextFault::Memory),
    };
    put_in_order(&mut moments)?;
    Ok(moments)
}

/// Reads a recording.
pub(crate) fn moments_from<R: Read>(
    alloc: Global,
    reader: &mut Counted<R>,
    options: &ImportOptions,
    tasks: &[Task],
) -> Result<Vec<Moment>, TextFault>
    requires { faults_of reader.old < 2 ^ 63 }
    ensures recorded { IfOk result (λ v. IfSome (R.remaining (inner_of reader.old))
        (λ text. AreRecorded options.now tasks.now text v.items)) }
    ensures order { IfOk result (λ v. IsNonDecreasingBy (λ m. m.time) v.items) }
    ensures fine { OnOk result (faults_of reader.new ≡ faults_of reader.old) }
    ensures fault { IfErr result
        (IsInputFault input.Recorded (side R.remaining reader.old reader.new)) }
{
    let text = match reader.read_all(alloc) {
        Ok(text) => text,
        Err(ReadFault::Failed) => return Err(TextFault::Read),
        Err(ReadFault::Memory) => return Err(TextFault::Memory),
    };
    moments_of(alloc, options, tasks, &text)
}
