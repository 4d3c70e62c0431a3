//! The jobs of each task, while its entries go by.

ghost use Rattle.std.specs.Prelude.{ℕ, ◌≡◌, ◌-◌, ◌^◌, ◌++◌, IfOk, OnOk, All, Contains, length, map};
ghost use Rattle.std.specs.Option.{option_to_list};
ghost use Rattle.run_figures.specs.Jobs as jobs;
ghost use Rattle.run_figures.specs.Laws as laws;
ghost use Rattle.run_figures.specs.Runs as runs;
ghost use Rattle.run_figures.specs.private.LineView.{JobLineView};
ghost use Rattle.run_figures.specs.private.Lines as lines;

use crate::job::{Job, over_by, under_way};
use crate::kept_jobs::KeptJobs;
use crate::places::Places;
use crate::run::{Admitted, Run};
use domain_run::{Happened, NoMemory};
use std::alloc::Global;
use std::marker::Model;
use std::mem;

/// The jobs of a task while its entries go by.
#[derive(Drop)]
pub(crate) struct Line {
    over: KeptJobs,
    /// The one that is under way.
    job: Option<Job>,
}

impl Model for Line {
    ghost use Rattle.run_figures.specs.private.LineView.{JobLineView};

    ghost Value = { JobLineView };

    ghost view = { λ l. record { number = l.over.number; over = l.over.jobs; job = l.job } };
}

fn push_over(over: &mut KeptJobs, job: Option<Job>) -> Result<(), NoMemory>
    ensures number { OnOk result (over.new.number ≡ over.old.number) }
    ensures jobs { OnOk result (over.new.jobs ≡ over.old.jobs ++ option_to_list job) }
{
    if let Some(job) = job {
        over.push(job)?;
    }
    Ok(())
}

/// What an entry of the task makes of its jobs.
fn log_line(line: &mut Line, happened: &Happened) -> Result<(), NoMemory>
    requires room { lines.IsLineWithin (2 ^ 64 - 2) line.old }
    ensures { OnOk result (line.new ≡ lines.line_after happened.now line.old) }
{
    push_over(&mut line.over, over_by(happened, line.job))?;
    line.job = under_way(happened, line.job);
    Ok(())
}

fn say(table: &mut Vec<Line>, places: &Places, happened: &Happened) -> Result<(), NoMemory>
    requires keyed { map (λ l. l.number) table.old.items ≡ places.now }
    requires room { All (lines.IsLineWithin (2 ^ 64 - 2)) table.old.items }
    ensures { OnOk result (table.new.items
        ≡ map (λ l. lines.line_if l happened.now) table.old.items) }
{
    match places.find(happened.number) {
        None => Ok(()),
        Some(place) => log_line(&mut table[place], happened),
    }
}

/// What happened next makes of the jobs of the tasks.
pub(crate) fn log_lines(
    table: &mut Vec<Line>,
    places: &Places,
    happened: &[Happened],
) -> Result<(), NoMemory>
    requires keyed { map (λ l. l.number) table.old.items ≡ places.now }
    requires room { lines.LinesHaveRoomFor (length happened.now) table.old.items }
    ensures { OnOk result (table.new.items ≡ map (lines.line_all happened.now) table.old.items) }
{
    for entry in happened {
        say(table, places, entry)?;
    }
    Ok(())
}

/// A task of which nothing was logged.
fn no_line(alloc: Global, number: u32) -> Line
    ensures { result ≡ lines.no_line number }
{
    Line {
        over: KeptJobs::new(alloc, number),
        job: None,
    }
}

/// Tasks of which nothing was logged.
pub(crate) fn no_lines(alloc: Global, tasks: &[Admitted]) -> Result<Vec<Line>, NoMemory>
    ensures { IfOk result (λ v. v.items ≡ map (λ t. lines.no_line t.number) tasks.now) }
{
    let mut table = Vec::with_capacity(alloc, tasks.len())?;
    for task in tasks {
        table.push(no_line(alloc, task.number))?;
    }
    Ok(table)
}

/// A task's jobs, with the one that is under way at the end.
fn closed(line: Line) -> Result<KeptJobs, NoMemory>
    ensures { IfOk result (λ t. t ≡ lines.closed_line line) }
{
    let Line { mut over, job } = line;
    // Dropped by one call: its parts would be written out.
    if let Err(error) = push_over(&mut over, job) {
        drop(over);
        return Err(error);
    }
    Ok(over)
}

/// The jobs of these tasks, each from its place in the table, which does not have them then.
pub(crate) fn closed_lines(
    alloc: Global,
    tasks: &[Admitted],
    places: &Places,
    table: &mut Vec<Line>,
) -> Result<Vec<KeptJobs>, NoMemory>
    requires tasks { runs.AreTasks tasks.now }
    requires among { All (λ t. Contains places.now t.number) tasks.now }
    requires as_many { length table.old.items ≡ length places.now }
    ensures { (f : ℕ → JobLineView) → table.old.items ≡ map f places.now
        → IfOk result (λ v. v.items ≡ map (λ t. lines.closed_line (f t.number)) tasks.now) }
{
    let mut all = Vec::with_capacity(alloc, tasks.len())?;
    for task in tasks {
        if let Some(place) = places.find(task.number) {
            let line = mem::replace(&mut table[place], no_line(alloc, task.number));
            all.push(closed(line)?)?;
        }
    }
    Ok(all)
}

/// The jobs of each task, in the order of the tasks. Goes through what happened once.
///
/// # Errors
/// 12 [`NoMemory`]: a growth was refused; nothing is left.
pub fn jobs_of(alloc: Global, run: &Run<'_>) -> Result<Vec<KeptJobs>, NoMemory>
    requires tasks { runs.AreTasks run.now.tasks.now }
    ensures jobs { IfOk result (λ v. v.items
        ≡ map (λ t. jobs.task_jobs run.now.happened.now t.number) run.now.tasks.now) }
    ensures released { IfOk result (λ v. All (laws.AreReleased run.now.happened.now) v.items) }
{
    let places = Places::of(alloc, run.tasks)?;
    let mut table = no_lines(alloc, run.tasks)?;
    log_lines(&mut table, &places, run.happened)?;
    closed_lines(alloc, run.tasks, &places, &mut table)
}
