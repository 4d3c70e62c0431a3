//! The events of a task's jobs.

ghost use Rattle.std.specs.Prelude.{◌≡◌, ◌++◌, ◌∷◌, [], true, IfOk, OnOk};
ghost use Rattle.task_script.specs.declared.phase.Event.TheVariants.{Run};
ghost use Rattle.recorded_scripts.specs.Scripts.{work_written, gap_events, events_of_one, events_after, last_events, first_release, last_release, events_of_jobs, is_script_time, is_short_release, are_short};

use recorded_jobs::{Job, Release};
use std::alloc::{AllocError, Global};
use task_script::Event;

/// The longest time of an event, in microseconds. A job without an end works so long.
const MOST: u64 = 1_000_000_000;

/// How long a script works for a job.
fn work_written(job: &Job) -> u128
    ensures { result ≡ work_written job.now }
{
    match job.end {
        None => u128::from(MOST),
        Some(_) => job.work,
    }
}

/// The first release, or 0 if there is none.
pub(crate) fn first_release(releases: &[Release]) -> u64
    ensures { result ≡ first_release releases.now }
{
    match releases.first() {
        Some(release) => release.time,
        None => 0,
    }
}

/// Whether a script may have this time.
fn is_script_time(time: u128) -> bool
    ensures { result ≡ is_script_time time }
{
    1 <= time && time <= u128::from(MOST)
}

/// Whether a job and the time to its release are short enough for a script.
fn is_short(before: u64, release: &Release) -> bool
    ensures { result ≡ is_short_release before release.now }
{
    release.time.saturating_sub(before) <= MOST && is_script_time(work_written(&release.job))
}

/// Whether all are.
pub(crate) fn are_short(releases: &[Release]) -> bool
    ensures { result ≡ are_short releases.now }
{
    let mut before = first_release(releases);
    for release in releases {
        if !is_short(before, release) {
            return false;
        }
        before = release.time;
    }
    true
}

/// Adds the time to a release, unless there is none.
fn push_gap(events: &mut Vec<Event>, gap: u64) -> Result<(), AllocError>
    ensures { OnOk result (events.new.items ≡ events.old.items ++ gap_events gap) }
{
    if gap != 0 {
        events.push(Event::Timer(gap))?;
    }
    Ok(())
}

/// Adds the work of a job.
fn push_work(events: &mut Vec<Event>, job: &Job) -> Result<(), AllocError>
    requires { is_script_time (work_written job.now) ≡ true }
    ensures { OnOk result (events.new.items
        ≡ events.old.items ++ Run (work_written job.now) ∷ []) }
{
    let work = work_written(job) as u64;
    events.push(Event::Run(work))?;
    Ok(())
}

/// Adds the events of a job.
fn push_job(events: &mut Vec<Event>, before: u64, release: &Release) -> Result<(), AllocError>
    requires { is_short_release before release.now ≡ true }
    ensures { OnOk result (events.new.items
        ≡ events.old.items ++ events_of_one before release.now) }
{
    push_gap(events, release.time.saturating_sub(before))?;
    push_work(events, &release.job)?;
    Ok(())
}

/// Adds what a task does after its last job.
fn push_end(events: &mut Vec<Event>, releases: &[Release]) -> Result<(), AllocError>
    ensures { OnOk result (events.new.items
        ≡ events.old.items ++ last_events (last_release releases.now)) }
{
    match releases.last() {
        Some(last) if last.job.end.is_some() && !last.job.gone => {
            events.push(Event::Wait)?;
            Ok(())
        }
        _ => Ok(()),
    }
}

/// The events of each job.
fn events_after(alloc: Global, releases: &[Release]) -> Result<Vec<Event>, AllocError>
    requires { are_short releases.now ≡ true }
    ensures { IfOk result
        (λ v. v.items ≡ events_after (first_release releases.now) releases.now) }
{
    let mut events = Vec::new(alloc);
    let mut before = first_release(releases);
    for release in releases {
        push_job(&mut events, before, release)?;
        before = release.time;
    }
    Ok(events)
}

/// The events of a task with these jobs.
///
/// # Errors
/// A growth was refused.
pub(crate) fn events_of(alloc: Global, releases: &[Release]) -> Result<Vec<Event>, AllocError>
    requires { are_short releases.now ≡ true }
    ensures { IfOk result (λ v. v.items ≡ events_of_jobs releases.now) }
{
    let mut events = events_after(alloc, releases)?;
    push_end(&mut events, releases)?;
    Ok(events)
}
