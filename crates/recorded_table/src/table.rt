//! The table, row by row.

ghost use Rattle.std.specs.Prelude.{◌≡◌, length, map, IfOk, OnOk};
ghost use Rattle.draft.specs.Draft.{Adds};
ghost use Rattle.recorded_table.specs.Table.{shown_time, works, distances_after, distances, woken_jobs, open_jobs, columns_of_times, jobs_row, jobs_rows, jobs_table};

use crate::spread::{Spread, spread_of};
use draft::{Draft, NoMemory, put_number, put_right};
use recorded_jobs::Release;
use std::alloc::{AllocError, Global};
use tasks_text::Task;

/// The longest time that is shown, in microseconds.
const MOST_SHOWN: u128 = 1_000_000_000_000;

fn shown_time(us: u128) -> u64
    ensures { result ≡ shown_time us }
{
    us.min(MOST_SHOWN) as u64
}

/// The work of each job.
fn works(alloc: Global, jobs: &[Release]) -> Result<Vec<u64>, AllocError>
    ensures { IfOk result (λ v. v.items ≡ works jobs.now) }
{
    let mut works = Vec::new(alloc);
    for release in jobs {
        works.push(shown_time(release.job.work))?;
    }
    Ok(works)
}

/// The times from a release to each that follows.
fn distances_after(alloc: Global, first: u64, others: &[Release]) -> Result<Vec<u64>, AllocError>
    ensures { IfOk result (λ v. v.items ≡ distances_after first others.now) }
{
    let mut distances = Vec::new(alloc);
    let mut before = first;
    for release in others {
        distances.push(shown_time(u128::from(release.time.saturating_sub(before))))?;
        before = release.time;
    }
    Ok(distances)
}

/// The times from one release to the next.
fn distances(alloc: Global, jobs: &[Release]) -> Result<Vec<u64>, AllocError>
    ensures { IfOk result (λ v. v.items ≡ distances jobs.now) }
{
    match jobs {
        [] => Ok(Vec::new(alloc)),
        [first, others @ ..] => distances_after(alloc, first.time, others),
    }
}

fn put_spread(out: &mut Draft, spread: Option<Spread>)
    ensures { Adds out.old out.new (columns_of_times spread) }
{
    match spread {
        None => out.put(b"          -          -          -"),
        Some(spread) => {
            put_number(out, 10, spread.least);
            put_number(out, 10, spread.mean);
            put_number(out, 10, spread.greatest);
        }
    }
}

fn woken_jobs(jobs: &[Release]) -> usize
    ensures { result ≡ woken_jobs jobs.now }
{
    jobs.iter().filter(|r| r.woken).count()
}

fn open_jobs(jobs: &[Release]) -> usize
    ensures { result ≡ open_jobs jobs.now }
{
    jobs.iter().filter(|r| r.job.end.is_none()).count()
}

/// Adds the row of a task.
fn put_row(out: &mut Draft, name: &[u8], jobs: &[Release], worked: &[u64], apart: &[u64])
    requires worked { worked.now ≡ works jobs.now }
    requires apart { apart.now ≡ distances jobs.now }
    ensures { Adds out.old out.new (jobs_row name.now jobs.now) }
{
    put_right(out, 16, name);
    put_number(out, 7, jobs.len() as u64);
    put_number(out, 7, woken_jobs(jobs) as u64);
    put_number(out, 7, open_jobs(jobs) as u64);
    put_spread(out, spread_of(worked));
    put_spread(out, spread_of(apart));
    out.put(b"\n");
}

/// Adds the row of a task, and makes what it shows.
fn put_task(alloc: Global, out: &mut Draft, task: &Task, jobs: &[Release]) -> Result<(), AllocError>
    ensures { OnOk result (Adds out.old out.new (jobs_row task.now.name jobs.now)) }
{
    let worked = works(alloc, jobs)?;
    let apart = distances(alloc, jobs)?;
    put_row(out, task.name.as_str().as_bytes(), jobs, &worked, &apart);
    Ok(())
}

/// Adds a row for each task.
fn put_rows(
    alloc: Global,
    out: &mut Draft,
    tasks: &[Task],
    jobs: &[Vec<Release>],
) -> Result<(), AllocError>
    requires { length jobs.now ≡ length tasks.now }
    ensures { OnOk result (Adds out.old out.new
        (jobs_rows (map (λ t. t.name) tasks.now) (map (λ v. v.items) jobs.now))) }
{
    for n in 0..tasks.len() {
        put_task(alloc, out, &tasks[n], &jobs[n])?;
    }
    Ok(())
}

/// A table of the jobs of tasks, each with the jobs of its number: a header and a row for each
/// task, with its jobs, how many of them a wake line released and how many have no end, and the
/// smallest, the mean and the largest work and distance between releases, in microseconds.
///
/// # Errors
/// 12 [`NoMemory`]: a growth was refused.
pub fn jobs_table(alloc: Global, tasks: &[Task], jobs: &[Vec<Release>]) -> Result<Vec<u8>, NoMemory>
    requires { length jobs.now ≡ length tasks.now }
    ensures { IfOk result (λ v. v.items
        ≡ jobs_table (map (λ t. t.name) tasks.now) (map (λ u. u.items) jobs.now)) }
{
    let mut out = Draft::new(alloc);
    out.put(
        b"#          task    jobs   woken    open   work_min   work_avg   work_max   dist_min   dist_avg   dist_max\n",
    );
    put_rows(alloc, &mut out, tasks, jobs)?;
    out.into_text()
}
