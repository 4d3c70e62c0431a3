//! The jobs of a task, by its stretches.

ghost use Rattle.std.specs.Prelude.{◌≡◌, ◌≤◌, ◌++◌, length, find, IfOk, OnOk, [], ◌∷◌};
ghost use Rattle.recorded_jobs.specs.Jobs.{is_end_of_task, is_closed, group_start, work_of, job_of, jobs_cut};
ghost use Rattle.recorded_jobs.specs.private.Groups.{group_len, with_work};

use crate::job::Job;
use crate::moment::Leave;
use crate::stretch::Stretch;
use std::alloc::{AllocError, Global};

/// Whether the task wants the CPU no more.
fn is_closed(stretch: &Stretch) -> bool
    ensures { result ≡ is_closed stretch.now }
{
    match stretch.how {
        Leave::Ready => false,
        Leave::Blocked | Leave::Gone => true,
    }
}

fn is_gone(how: Leave) -> bool
    ensures { result ≡ is_end_of_task how }
{
    match how {
        Leave::Gone => true,
        Leave::Ready | Leave::Blocked => false,
    }
}

/// How many stretches the first job has.
fn group_len(stretches: &[Stretch]) -> usize
    ensures value { result ≡ group_len stretches.now }
    ensures within { result ≤ length stretches.now }
{
    for i in 0..stretches.len() {
        if is_closed(&stretches[i]) {
            return i + 1;
        }
    }
    stretches.len()
}

fn group_start(stretches: &[Stretch]) -> u64
    ensures { result ≡ group_start stretches.now }
{
    match stretches {
        [first, ..] => first.start,
        [] => 0,
    }
}

/// How long these stretches are.
fn work_of(stretches: &[Stretch]) -> u128
    ensures { result ≡ work_of stretches.now }
{
    let mut work: u128 = 0;
    for stretch in stretches {
        work += u128::from(stretch.end.saturating_sub(stretch.start));
    }
    work
}

/// The stretch that closes a job.
fn closing(stretches: &[Stretch]) -> Option<Stretch>
    ensures { result ≡ find is_closed stretches.now }
{
    for stretch in stretches {
        if is_closed(stretch) {
            return Some(*stretch);
        }
    }
    None
}

/// The job of these stretches.
fn job_of(stretches: &[Stretch]) -> Job
    ensures { result ≡ job_of stretches.now }
{
    let (end, gone) = match closing(stretches) {
        Some(last) => (Some(last.end), is_gone(last.how)),
        None => (None, false),
    };
    Job {
        start: group_start(stretches),
        work: work_of(stretches),
        end,
        gone,
    }
}

/// Adds a job, if it has work.
fn push_job(jobs: &mut Vec<Job>, job: Job) -> Result<(), AllocError>
    ensures { OnOk result (jobs.new.items ≡ jobs.old.items ++ with_work (job ∷ [])) }
{
    if job.work > 0 {
        jobs.push(job)?;
    }
    Ok(())
}

/// The jobs of a task's stretches, which are in the order of time.
///
/// # Errors
/// A growth was refused.
pub(crate) fn jobs_cut(alloc: Global, stretches: &[Stretch]) -> Result<Vec<Job>, AllocError>
    ensures { IfOk result (λ v. v.items ≡ jobs_cut stretches.now) }
{
    let mut jobs = Vec::new(alloc);
    let mut rest = stretches;
    while !rest.is_empty() {
        let (group, others) = rest.split_at(group_len(rest));
        push_job(&mut jobs, job_of(group))?;
        rest = others;
    }
    Ok(jobs)
}
