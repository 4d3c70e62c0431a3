//! The moments of a text.

ghost use Rattle.std.specs.Prelude.{◌≡◌, ◌++◌, map, false, IfOk, IfErr, OnOk};
ghost use Rattle.std.specs.Option.{option_map};
ghost use Rattle.recorded_text.specs.EventViews.{thread_view, leaver_view, threads_view};
ghost use Rattle.recorded_moments.specs.Moments.{watched_view, is_thread, number_of, coming_number, leave_by, leaving_number, leaving_how, switch_what, moments_inside, moments_of_line, is_bad_event_line, AreMomentsOf, IsMomentsFault};
ghost use Rattle.recorded_moments.specs.private.Lines.{IsLineFault};

use crate::fault::{LineError, MomentsFault};
use crate::watched::Watched;
use memchr::memchr;
use recorded_jobs::{Leave, Moment, What};
use recorded_text::{Event, Leaver, Thread, Threads, event_in};
use std::alloc::{AllocError, Global};

/// What of a recording counts.
#[derive(Clone, Copy)]
pub struct Wanted {
    /// Whether a task counts with any priority, and not only with one below 0.
    pub any_policy: bool,
    /// Nothing before this time counts, in microseconds of the recording's clock.
    pub from: u64,
    /// Nothing after this time counts.
    pub to: u64,
}

/// Whether a thread is a task.
fn is_thread(watched: &Watched<'_>, name: &[u8], pid: u64) -> bool
    ensures { result ≡ is_thread (watched_view watched.now) name.now pid }
{
    match watched.pid {
        Some(own) => own == pid,
        None => watched.name == name,
    }
}

/// The number of the first task that a thread is.
fn number_of(tasks: &[Watched<'_>], name: &[u8], pid: u64) -> Option<usize>
    ensures { result ≡ number_of (map watched_view tasks.now) name.now pid }
{
    for i in 0..tasks.len() {
        if is_thread(&tasks[i], name, pid) {
            return Some(i);
        }
    }
    None
}

/// The task that a thread is, if it counts.
fn coming_number(wanted: &Wanted, tasks: &[Watched<'_>], thread: &Thread<'_>) -> Option<usize>
    ensures { result ≡ coming_number wanted.now (map watched_view tasks.now)
        (thread_view thread.now) }
{
    if thread.below || wanted.any_policy {
        number_of(tasks, thread.name, thread.pid)
    } else {
        None
    }
}

/// What the letters of a state say.
fn leave_by(state: &[u8]) -> Leave
    ensures { result ≡ leave_by state.now }
{
    if state == b"R".as_slice() || state == b"R+".as_slice() {
        Leave::Ready
    } else if state == b"X".as_slice() || state == b"Z".as_slice() {
        Leave::Gone
    } else {
        Leave::Blocked
    }
}

fn leaving_number(tasks: &[Watched<'_>], leaver: Option<Leaver<'_>>) -> Option<usize>
    ensures { result ≡ leaving_number (map watched_view tasks.now)
        (option_map leaver_view leaver.entry) }
{
    match leaver {
        Some(leaver) => number_of(tasks, leaver.name, leaver.pid),
        None => None,
    }
}

fn leaving_how(leaver: Option<Leaver<'_>>) -> Leave
    ensures { result ≡ leaving_how (option_map leaver_view leaver.entry) }
{
    match leaver {
        Some(leaver) => leave_by(leaver.state),
        None => Leave::Ready,
    }
}

fn switch_what(wanted: &Wanted, tasks: &[Watched<'_>], threads: Option<Threads<'_>>) -> What
    ensures { result ≡ switch_what wanted.now (map watched_view tasks.now)
        (option_map threads_view threads.entry) }
{
    match threads {
        Some(threads) => What::Switch {
            leaves: leaving_number(tasks, threads.leaves),
            how: leaving_how(threads.leaves),
            comes: coming_number(wanted, tasks, &threads.comes),
        },
        None => What::Switch {
            leaves: None,
            how: Leave::Ready,
            comes: None,
        },
    }
}

/// Adds a moment, if its time counts.
fn push_inside(wanted: &Wanted, moment: Moment, moments: &mut Vec<Moment>) -> Result<(), AllocError>
    ensures { OnOk result (moments.new.items
        ≡ moments.old.items ++ moments_inside wanted.now moment) }
{
    if wanted.from <= moment.time && moment.time <= wanted.to {
        moments.push(moment)?;
    }
    Ok(())
}

/// Adds the moment of a line, if it has one.
fn take_line(
    line: &[u8],
    wanted: &Wanted,
    tasks: &[Watched<'_>],
    moments: &mut Vec<Moment>,
) -> Result<(), LineError>
    ensures added { OnOk result (moments.new.items
        ≡ moments.old.items ++ moments_of_line wanted.now (map watched_view tasks.now) line.now) }
    ensures good { OnOk result (is_bad_event_line line.now ≡ false) }
    ensures bad { IfErr result (λ e. IsLineFault e line.now) }
{
    match event_in(line) {
        Event::Other => Ok(()),
        Event::Bad => Err(LineError::Bad),
        Event::Switch { time, cpu, threads } => {
            let what = switch_what(wanted, tasks, threads);
            push_inside(wanted, Moment { time, cpu, what }, moments)?;
            Ok(())
        }
        Event::Wake { time, thread } => {
            let task = coming_number(wanted, tasks, &thread);
            let what = What::Wake { task };
            push_inside(wanted, Moment { time, cpu: 0, what }, moments)?;
            Ok(())
        }
    }
}

/// The moments of a recording that count for these tasks, in the order of its lines.
///
/// # Errors
/// [`MomentsFault::BadLine`] with the first line of sched_switch or sched_wakeup that has none of
/// their forms; [`MomentsFault::Memory`] if a growth was refused.
pub fn moments_in(
    alloc: Global,
    text: &[u8],
    wanted: &Wanted,
    tasks: &[Watched<'_>],
) -> Result<Vec<Moment>, MomentsFault>
    ensures gathered { IfOk result (λ v.
        AreMomentsOf wanted.now (map watched_view tasks.now) text.now v.items) }
    ensures fault { IfErr result (IsMomentsFault text.now) }
{
    let mut moments = Vec::new(alloc);
    let mut rest = text;
    let mut line = 1;
    while let Some(end) = memchr(b'\n', rest) {
        match take_line(&rest[..end], wanted, tasks, &mut moments) {
            Ok(()) => {}
            Err(LineError::Bad) => return Err(MomentsFault::BadLine(line)),
            Err(LineError::Memory) => return Err(MomentsFault::Memory),
        }
        line += 1;
        rest = &rest[end + 1..];
    }
    match take_line(rest, wanted, tasks, &mut moments) {
        Ok(()) => Ok(moments),
        Err(LineError::Bad) => Err(MomentsFault::BadLine(line)),
        Err(LineError::Memory) => Err(MomentsFault::Memory),
    }
}
