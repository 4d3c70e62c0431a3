//! The line of a task. Its fields are read as those of an admission in a calls text.

ghost use Rattle.std.specs.Prelude.{◌≡◌, ◌∷◌, not, decimal, IsTrue, ◌↔◌, IfOk, IfErr, MatchResult};
ghost use Rattle.draft.specs.Draft.{Adds};
ghost use Rattle.tasks_text.specs.Tasks.{task_line, pid_text, has_byte, IsTask};
ghost use Rattle.tasks_text.specs.private.Lines.{admission_text, first_entry, admission_of, admission_at, IsAdmissible, AreFieldsOf, numbered_task, unnumbered_task, IsOwnLine, IsTaskWithin, AreTaskFields, IsNoTask};
ghost use Rattle.tasks_text.specs.declared.line.Admission.{Admission};
ghost use Rattle.tasks_text.specs.declared.task.Task.{Task};

use crate::cut::cut;
use crate::fault::LineFault;
use crate::task::Task;
use attr_check::Params;
use calls_text::{Call, CallsFault, Entry, Section, read_calls};
use draft::{Draft, NoMemory};
use std::alloc::{AllocError, Global};
use task_script::Name;

/// What an admission says of a task.
#[derive(Drop)]
pub(crate) struct Admission {
    name: Name,
    params: Params,
    delay: u64,
}

/// A calls text of one admission with these fields.
#[tactic(auto, unfolding(crate::specs::private::Lines::admission_text))]
fn admission_text(
    alloc: Global,
    name: &[u8],
    rest: &[u8],
    delay: &[u8],
) -> Result<Vec<u8>, AllocError>
    ensures { IfOk result (λ v. v.items ≡ admission_text name.now rest.now delay.now) }
{
    let mut text = Vec::from_slice(alloc, b"dlcalls 1\ndomain 1 1048576\nadmit 1 1 ")?;
    text.extend_from_slice(name)?;
    text.push(b' ')?;
    text.extend_from_slice(rest)?;
    text.push(b' ')?;
    text.extend_from_slice(delay)?;
    text.extend_from_slice(b" 1:1{w}\n")?;
    Ok(text)
}

/// The first call of the first section.
fn first_entry(sections: Vec<Section>) -> Option<Entry>
    ensures { result ≡ first_entry sections.items }
{
    match sections.into_iter().next() {
        Some(section) => section.entries.into_iter().next(),
        None => None,
    }
}

fn admission_of(call: Call) -> Option<Admission>
    ensures { result ≡ admission_of call }
{
    match call {
        Call::Admit {
            name,
            params,
            delay,
            ..
        } => Some(Admission {
            name,
            params,
            delay,
        }),
        _ => None,
    }
}

fn admission_in(sections: Vec<Section>) -> Option<Admission>
    ensures { result ≡ admission_at (first_entry sections.items) }
{
    match first_entry(sections) {
        Some(entry) => admission_of(entry.call),
        None => None,
    }
}

/// The admission with these fields.
fn admitted(alloc: Global, name: &[u8], rest: &[u8], delay: &[u8]) -> Result<Admission, LineFault>
    ensures found { IfOk result IsAdmissible }
    ensures only { (a : Admission) → IsAdmissible a → AreFieldsOf a name.now rest.now delay.now
        → MatchResult result (λ b. b ≡ a) (λ e. e ≡ LineFault.Memory) }
{
    let text = admission_text(alloc, name, rest, delay)?;
    match read_calls(alloc, &text) {
        Ok(sections) => match admission_in(sections) {
            Some(admission) => Ok(admission),
            None => Err(LineFault::Bad),
        },
        Err(CallsFault::BadLine { .. }) => Err(LineFault::Bad),
        Err(CallsFault::Memory) => Err(LineFault::Memory),
    }
}

/// Adds `=PID`, if the thread is named by its number.
fn put_pid(out: &mut Draft, pid: Option<u64>)
    ensures { Adds out.old out.new (pid_text pid) }
{
    match pid {
        Some(pid) => {
            out.put(b"=");
            out.put_decimal(pid);
        }
        None => {}
    }
}

/// Adds a space and a number.
fn put_field(out: &mut Draft, n: u64)
    ensures { Adds out.old out.new (32 ∷ decimal n) }
{
    out.put(b" ");
    out.put_decimal(n);
}

/// Adds the line of a task.
fn put_task(out: &mut Draft, task: &Task)
    ensures { Adds out.old out.new (task_line task.now) }
{
    out.put(task.name.as_str().as_bytes());
    put_pid(out, task.pid);
    put_field(out, task.params.runtime);
    put_field(out, task.params.deadline);
    put_field(out, task.params.period);
    out.put(if task.params.reclaim { b" R" } else { b" -" });
}

/// Whether a line is that of a task.
fn is_line_of(alloc: Global, task: &Task, line: &[u8]) -> Result<bool, NoMemory>
    ensures { IfOk result (λ b. IsTrue b ↔ (line.now ≡ task_line task.now)) }
{
    let mut out = Draft::new(alloc);
    put_task(&mut out, task);
    let text = out.into_text()?;
    Ok(line == text.as_slice())
}

/// Whether a name has no `=`.
fn is_plain(name: &Name) -> bool
    ensures { result ≡ not (has_byte 61 name.now) }
{
    !name.as_str().as_bytes().contains(&b'=')
}

/// Whether a line is that of a task, whose name has no `=`.
fn is_own_line(alloc: Global, task: &Task, line: &[u8]) -> Result<bool, NoMemory>
    ensures { IfOk result (λ b. IsTrue b ↔ IsOwnLine task.now line.now) }
{
    if is_plain(&task.name) {
        is_line_of(alloc, task, line)
    } else {
        Ok(false)
    }
}

/// The task of a thread that is named by its number, which stands in place of the delay.
fn numbered(admission: Admission) -> Task
    ensures { result ≡ numbered_task admission }
{
    let Admission {
        name,
        params,
        delay,
    } = admission;
    Task {
        name,
        pid: Some(delay),
        params,
    }
}

fn unnumbered(admission: Admission) -> Task
    ensures { result ≡ unnumbered_task admission }
{
    let Admission { name, params, .. } = admission;
    Task {
        name,
        pid: None,
        params,
    }
}

/// The task whose line has these fields, if an admission may have them.
fn task_by(alloc: Global, first: &[u8], rest: &[u8]) -> Result<Task, LineFault>
    ensures found { IfOk result IsTaskWithin }
    ensures only { (t : Task) → IsTask t → AreTaskFields t first.now rest.now
        → MatchResult result (λ u. u ≡ t) (λ e. e ≡ LineFault.Memory) }
{
    match cut(first, b'=') {
        Some((name, pid)) => match admitted(alloc, name, rest, pid) {
            Ok(admission) => Ok(numbered(admission)),
            Err(fault) => Err(fault),
        },
        None => match admitted(alloc, first, rest, b"0") {
            Ok(admission) => Ok(unnumbered(admission)),
            Err(fault) => Err(fault),
        },
    }
}

/// The task of a line.
pub(crate) fn task_of(alloc: Global, line: &[u8]) -> Result<Task, LineFault>
    ensures found { IfOk result (λ t. IsTask t × (line.now ≡ task_line t)) }
    ensures fault { IfErr result (IsNoTask line.now) }
{
    let Some((first, rest)) = cut(line, b' ') else {
        return Err(LineFault::Bad);
    };
    let task = match task_by(alloc, first, rest) {
        Ok(task) => task,
        Err(fault) => return Err(fault),
    };
    match is_own_line(alloc, &task, line) {
        Ok(true) => Ok(task),
        Ok(false) => Err(LineFault::Bad),
        Err(NoMemory) => Err(LineFault::Memory),
    }
}
