//! The script of a task's jobs.

ghost use Rattle.std.specs.Prelude.{◌≡◌, ◌<◌, ◌++◌, drop, true, Some, length, IfOk, OnOk};
ghost use Rattle.task_script.specs.script.ScriptView.{IsScript, script_of};
ghost use Rattle.recorded_scripts.specs.Scripts.{first_phase, phases_of, script_of_jobs, are_short};

use crate::events::{self, events_of};
use recorded_jobs::Release;
use std::alloc::{AllocError, Global};
use task_script::{Event, Phase, Script};

/// The most phases of a script.
const PHASES: usize = 64;

/// The most events of a phase.
const EVENTS: usize = 64;

/// Whether each job works for at most 10^9 microseconds, and is released at most so long after the
/// one before.
pub fn are_short(releases: &[Release]) -> bool
    ensures { result ≡ are_short releases.now }
{
    events::are_short(releases)
}

/// Takes a phase off the front of these events, if there are any. What is left comes back.
fn take_phase<'a>(
    alloc: Global,
    phases: &mut Vec<Phase>,
    events: &'a [Event],
) -> Result<&'a [Event], AllocError>
    ensures phase { OnOk result (phases.new.items ≡ phases.old.items ++ first_phase events.now) }
    ensures rest { IfOk result (λ rest. rest.now ≡ drop 64 events.now) }
{
    if events.is_empty() {
        return Ok(events);
    }
    let (front, rest) = events.split_at(events.len().min(EVENTS));
    phases.push(Phase {
        count: 1,
        events: Vec::from_slice(alloc, front)?,
    })?;
    Ok(rest)
}

/// The events in phases.
fn phases_of(alloc: Global, events: &[Event]) -> Result<Vec<Phase>, AllocError>
    ensures { IfOk result (λ v. v.items ≡ phases_of 64 events.now) }
{
    let mut phases = Vec::new(alloc);
    let mut rest = events;
    for _ in 0..PHASES {
        rest = take_phase(alloc, &mut phases, rest)?;
    }
    Ok(phases)
}

/// One round of these phases.
fn round_of(phases: Vec<Phase>) -> Script
    requires { IsScript (script_of (Some 1) phases.items) }
    ensures { result ≡ script_of (Some 1) phases.items }
{
    match Script::new(1, phases) {
        Ok(script) => script,
        Err(_) => unreachable!(),
    }
}

/// The script of a task with these jobs: one round, in which it works as in each job, and between
/// two waits for the release of the second. A task of more than 2048 jobs has no room in it.
///
/// # Errors
/// A growth was refused.
pub fn script_of(alloc: Global, releases: &[Release]) -> Result<Script, AllocError>
    requires some { 0 < length releases.now }
    requires short { are_short releases.now ≡ true }
    ensures { IfOk result (λ s. s ≡ script_of_jobs releases.now) }
{
    let events = events_of(alloc, releases)?;
    Ok(round_of(phases_of(alloc, &events)?))
}
