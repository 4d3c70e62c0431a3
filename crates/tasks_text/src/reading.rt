//! The tasks of a text.

ghost use Rattle.std.specs.Prelude.{◌≡◌, ◌++◌, codes, IfOk, IfErr};
ghost use Rattle.tasks_text.specs.Tasks.{has_name, tasks_spelling, IsTaskList};
ghost use Rattle.tasks_text.specs.BadLine.{IsTasksFault};
ghost use Rattle.tasks_text.specs.private.SoFar.{IsOneTaskMore, IsStuck};

use crate::cut::cut;
use crate::fault::{LineFault, TasksFault};
use crate::line::task_of;
use crate::task::Task;
use std::alloc::Global;
use task_script::Name;

/// The most tasks of a text.
const MOST_TASKS: usize = 256;

/// Whether one of these tasks has a name.
fn has_name(name: &Name, tasks: &[Task]) -> bool
    ensures { result ≡ has_name name.now tasks.now }
{
    tasks
        .iter()
        .any(|t| t.name.as_str().as_bytes() == name.as_str().as_bytes())
}

/// Takes the line of one more task off the front of a text. What follows comes back.
fn take_line<'t>(
    alloc: Global,
    tasks: &mut Vec<Task>,
    text: &'t [u8],
) -> Result<&'t [u8], LineFault>
    ensures taken { IfOk result (λ rest.
        IsOneTaskMore tasks.old.items tasks.new.items text.now rest.now) }
    ensures fault { IfErr result (IsStuck tasks.old.items text.now) }
{
    if tasks.len() >= MOST_TASKS {
        return Err(LineFault::Bad);
    }
    let Some((line, rest)) = cut(text, b'\n') else {
        return Err(LineFault::Bad);
    };
    let task = match task_of(alloc, line) {
        Ok(task) => task,
        Err(fault) => return Err(fault),
    };
    if has_name(&task.name, tasks) {
        return Err(LineFault::Bad);
    }
    tasks.push(task)?;
    Ok(rest)
}

/// The tasks of a text without its header.
fn tasks_after_header(alloc: Global, text: &[u8]) -> Result<Vec<Task>, TasksFault>
    ensures found { IfOk result (λ v. IsTaskList v.items
        × (codes "dltasks 1\n" ++ text.now ≡ tasks_spelling v.items)) }
    ensures fault { IfErr result (IsTasksFault (codes "dltasks 1\n" ++ text.now)) }
{
    let mut tasks = Vec::new(alloc);
    let mut rest = text;
    let mut line = 2;
    while !rest.is_empty() {
        match take_line(alloc, &mut tasks, rest) {
            Ok(after) => rest = after,
            Err(LineFault::Bad) => return Err(TasksFault::BadLine { n: line }),
            Err(LineFault::Memory) => return Err(TasksFault::Memory),
        }
        line += 1;
    }
    if tasks.is_empty() {
        Err(TasksFault::BadLine { n: line })
    } else {
        Ok(tasks)
    }
}

/// The 1 to 256 tasks of a tasks file: the line `dltasks 1`, and then a line `name Q D P f` or
/// `name=PID Q D P f` for each, whose fields are spelled as those of an `admit` line of calls text.
/// No name stands twice.
///
/// # Errors
/// [`TasksFault::BadLine`]: the first line, from 1, at which the text stops being a front of whole
/// lines of a text that is read. [`TasksFault::Memory`]: a growth was refused; it may come before
/// any bad line.
pub fn read_tasks(alloc: Global, text: &[u8]) -> Result<Vec<Task>, TasksFault>
    // What is read is spelled so.
    ensures found { IfOk result (λ v. IsTaskList v.items × (text.now ≡ tasks_spelling v.items)) }
    // The line of a fault is the bad one, of a text that is that of no tasks.
    ensures fault { IfErr result (IsTasksFault text.now) }
{
    match text.strip_prefix(b"dltasks 1\n") {
        Some(rest) => tasks_after_header(alloc, rest),
        None => Err(TasksFault::BadLine { n: 1 }),
    }
}
