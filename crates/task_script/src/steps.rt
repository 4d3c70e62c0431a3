//! The events of a script one behind the other in one block: a cursor that goes through many phases
//! reads a few bytes for each event, and these lie side by side.

ghost use Rattle.std.specs.Prelude.{◌≡◌, ◌<◌, ◌++◌, IfOk, All, length};
ghost use Rattle.task_script.specs.script.ScriptView.{IsEvent, IsPhase};
ghost use Rattle.task_script.specs.private.Steps.{AreSteps, laps_at, deed_of, micros_of, steps_of_phase};

use crate::phase::{Event, Phase};
use no_memory::NoMemory;
use std::alloc::Global;
use std::marker::Model;

// What an event does. Apart from its microseconds it takes half the bytes.
#[derive(Clone, Copy)]
enum Deed {
    Run,
    Sleep,
    Timer,
    Wait,
}

/// An event of a script, and how many laps its phase has where it is the last of them, else 0.
#[derive(Drop)]
pub(crate) struct Step {
    deed: Deed,
    micros: u32,
    laps: u32,
}

impl Model for Step {
    ghost use Rattle.task_script.specs.private.Steps.{StepView, event_in_step};

    ghost Value = { StepView };

    ghost view = { λ s. record { event = event_in_step s.deed s.micros; laps = s.laps } };
}

#[inline(always)]
fn deed_of(event: &Event) -> Deed
    ensures { result ≡ deed_of event.now }
{
    match event {
        Event::Run(_) => Deed::Run,
        Event::Sleep(_) => Deed::Sleep,
        Event::Timer(_) => Deed::Timer,
        Event::Wait => Deed::Wait,
    }
}

// None of a wait.
#[inline(always)]
fn micros_of(event: &Event) -> u32
    requires { IsEvent event.now }
    ensures { result ≡ micros_of event.now }
{
    match event {
        Event::Run(n) | Event::Sleep(n) | Event::Timer(n) => *n as u32,
        Event::Wait => 0,
    }
}

/// The event of a step.
#[inline(always)]
pub(crate) fn event_of_step(step: &Step) -> Event
    ensures { result ≡ step.now.event }
{
    let micros = step.micros as u64;
    match step.deed {
        Deed::Run => Event::Run(micros),
        Deed::Sleep => Event::Sleep(micros),
        Deed::Timer => Event::Timer(micros),
        Deed::Wait => Event::Wait,
    }
}

/// The laps of a step.
#[inline(always)]
pub(crate) fn laps_of_step(step: &Step) -> u32
    ensures { result ≡ step.now.laps }
{
    step.laps
}

/// How many laps a phase has, at the last of its events; else 0.
#[inline(always)]
pub(crate) fn laps_of(phase: &Phase, event: usize) -> u32
    requires phase { IsPhase phase.now }
    requires within { event < length phase.now.events }
    ensures { result ≡ laps_at phase.now event }
{
    if event + 1 < phase.events.len() {
        0
    } else {
        phase.count as u32
    }
}

#[inline(always)]
fn make_step(event: &Event, laps: u32) -> Step
    requires { IsEvent event.now }
    ensures { result ≡ record { event = event.now; laps = laps } }
{
    Step {
        deed: deed_of(event),
        micros: micros_of(event),
        laps,
    }
}

fn add_phase(steps: &mut Vec<Step>, phase: &Phase) -> Result<(), NoMemory>
    requires phase { IsPhase phase.now }
    ensures { IfOk result (λ _. steps.new.items ≡ steps.old.items
        ++ steps_of_phase phase.now (length phase.now.events)) }
{
    let last = phase.events.len() - 1;
    for event in 0..last {
        steps.push(make_step(&phase.events[event], 0))?;
    }
    steps.push(make_step(&phase.events[last], phase.count as u32))?;
    Ok(())
}

// How many steps there are, to take their memory at once.
fn count(phases: &[Phase]) -> usize {
    let mut count: usize = 0;
    for phase in phases {
        count = count.saturating_add(phase.events.len());
    }
    count
}

fn written(alloc: Global, phases: &[Phase]) -> Result<Vec<Step>, NoMemory>
    requires { All IsPhase phases.now }
    ensures { IfOk result (λ steps. AreSteps phases.now steps.items) }
{
    let mut steps = Vec::with_capacity(alloc, count(phases))?;
    for phase in 0..phases.len() {
        add_phase(&mut steps, &phases[phase])?;
    }
    Ok(steps)
}

/// The steps of more than one phase, where memory allows; else none.
pub(crate) fn of(alloc: Global, phases: &[Phase]) -> Vec<Step>
    requires { All IsPhase phases.now }
    ensures { AreSteps phases.now result.items }
{
    if phases.len() > 1 {
        if let Ok(steps) = written(alloc, phases) {
            return steps;
        }
    }
    Vec::new(alloc)
}
