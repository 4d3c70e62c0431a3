//! Stretches of tasks on CPUs, collected from the last moment to the first.

ghost use Rattle.std.specs.Prelude.{◌≡◌, ◌++◌, ◌∷◌, List, None, All, vec_len, IfOk, OnOk};
ghost use Rattle.std.specs.Option.{option_to_list};
ghost use Rattle.recorded_jobs.specs.Stretches.{is_switch, task_coming, leave_at, stretch_to, stretch_at, all_stretches, stretches_of};
ghost use Rattle.recorded_jobs.specs.private.After.{AreStretchesAfter};

use crate::moment::{Leave, Moment, What};
use std::alloc::{AllocError, Global};

/// How many CPUs a machine may have: their numbers have 16 bits.
const CPUS: usize = 65536;

/// A stretch of a task on a CPU.
#[derive(Clone, Copy, Debug)]
pub struct Stretch {
    /// The number of the task.
    pub task: usize,
    pub cpu: u16,
    /// In microseconds of the recording's clock.
    pub start: u64,
    /// In microseconds of the recording's clock.
    pub end: u64,
    /// How the task left; [`Leave::Ready`] leaves the stretch open.
    pub how: Leave,
}

/// Whether a moment is a switch.
pub(crate) fn is_switch(what: &What) -> bool
    ensures { result ≡ is_switch what.now }
{
    match what {
        What::Switch { .. } => true,
        What::Wake { .. } => false,
    }
}

/// The task that a switch brings.
pub(crate) fn task_coming(what: &What) -> Option<usize>
    ensures { result ≡ task_coming what.now }
{
    match what {
        What::Switch { comes, .. } => *comes,
        What::Wake { .. } => None,
    }
}

/// How a task leaves at the next switch on its CPU.
fn leave_at(task: usize, what: &What) -> Leave
    ensures { result ≡ leave_at task what.now }
{
    match what {
        What::Switch {
            leaves: Some(other),
            how,
            ..
        } => { if *other == task { *how } else { Leave::Ready } }
        _ => Leave::Ready,
    }
}

/// The stretch from a switch to a task up to the next switch on that CPU, or to the last moment.
fn stretch_to(last: u64, moment: &Moment, task: usize, next: Option<Moment>) -> Stretch
    ensures { result ≡ stretch_to last moment.now task next }
{
    match next {
        None => Stretch {
            task,
            cpu: moment.cpu,
            start: moment.time,
            end: last,
            how: Leave::Ready,
        },
        Some(n) => Stretch {
            task,
            cpu: moment.cpu,
            start: moment.time,
            end: n.time,
            how: leave_at(task, &n.what),
        },
    }
}

/// The stretch that begins at a moment, if one does.
fn stretch_at(last: u64, moment: &Moment, next: Option<Moment>) -> Option<Stretch>
    ensures { result ≡ stretch_at last moment.now next }
{
    match task_coming(&moment.what) {
        None => None,
        Some(task) => Some(stretch_to(last, moment, task, next)),
    }
}

/// Adds the stretch that begins at a moment, if one does.
fn push_stretch(
    last: u64,
    moment: &Moment,
    next: Option<Moment>,
    stretches: &mut Vec<Stretch>,
) -> Result<(), AllocError>
    ensures { OnOk result (stretches.new.items
        ≡ stretches.old.items ++ option_to_list (stretch_at last moment.now next)) }
{
    match stretch_at(last, moment, next) {
        None => Ok(()),
        Some(stretch) => {
            stretches.push(stretch)?;
            Ok(())
        }
    }
}

/// Takes the moment before those that were taken.
fn take_moment(
    last: u64,
    moment: &Moment,
    next: &mut Vec<Option<Moment>>,
    stretches: &mut Vec<Stretch>,
) -> Result<(), AllocError>
    requires { vec_len next.old ≡ 65536 }
    ensures taken { OnOk result ((rest : List Moment) →
        AreStretchesAfter last next.old.items stretches.old.items rest
        → AreStretchesAfter last next.new.items stretches.new.items (moment.now ∷ rest)) }
    ensures many { vec_len next.new ≡ 65536 }
{
    let cpu = usize::from(moment.cpu);
    push_stretch(last, moment, next[cpu], stretches)?;
    if is_switch(&moment.what) {
        next[cpu] = Some(*moment);
    }
    Ok(())
}

/// No moment for each CPU.
fn no_moments(alloc: Global) -> Result<Vec<Option<Moment>>, AllocError>
    ensures many { IfOk result (λ v. vec_len v ≡ 65536) }
    ensures none { IfOk result (λ v. All (λ m. m ≡ None) v.items) }
{
    let mut moments = Vec::new(alloc);
    for _ in 0..CPUS {
        moments.push(None)?;
    }
    Ok(moments)
}

/// The stretches of all tasks, in the order of the moments at which they begin. One that no switch
/// ends is open, and ends at the time `last`.
///
/// # Errors
/// A growth was refused.
pub(crate) fn stretches_in(
    alloc: Global,
    last: u64,
    moments: &[Moment],
) -> Result<Vec<Stretch>, AllocError>
    ensures { IfOk result (λ v. v.items ≡ all_stretches last moments.now) }
{
    let mut next = no_moments(alloc)?;
    let mut stretches = Vec::new(alloc);
    let mut i = moments.len();
    while i > 0 {
        i -= 1;
        take_moment(last, &moments[i], &mut next, &mut stretches)?;
    }
    stretches.reverse();
    Ok(stretches)
}

/// The stretches of one task.
pub(crate) fn stretches_of(
    alloc: Global,
    task: usize,
    stretches: &[Stretch],
) -> Result<Vec<Stretch>, AllocError>
    ensures { IfOk result (λ v. v.items ≡ stretches_of task stretches.now) }
{
    let mut own = Vec::new(alloc);
    for stretch in stretches {
        if stretch.task == task {
            own.push(*stretch)?;
        }
    }
    Ok(own)
}
