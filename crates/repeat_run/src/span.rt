//! How far apart two looks are.

use domain_run::State;
use task_script::{Event, Phase};

/// The microseconds of the timers of a phase, or, if it has none, of its work and sleep. If it only
/// works, 0: then its budget alone decides when it repeats.
fn phase_span(phase: &Phase) -> u64 {
    let mut timers: u64 = 0;
    let mut work: u64 = 0;
    let mut sleep: u64 = 0;
    for event in phase.events.iter() {
        match event {
            Event::Timer(n) => timers = timers.saturating_add(*n),
            Event::Run(n) => work = work.saturating_add(*n),
            Event::Sleep(n) => sleep = sleep.saturating_add(*n),
            Event::Wait => {}
        }
    }
    let one = if timers > 0 {
        timers
    } else if sleep > 0 {
        work.saturating_add(sleep)
    } else {
        0
    };
    one.saturating_mul(phase.count)
}

/// The microseconds of a round.
fn round_span(phases: &[Phase]) -> u64 {
    let mut span: u64 = 0;
    for phase in phases.iter() {
        span = span.saturating_add(phase_span(phase));
    }
    span
}

/// The microseconds of a round of the slowest task, and at least its period.
pub(crate) fn span_of(state: &State) -> u64 {
    let mut longest = 1;
    for place in 0..state.listed() {
        let Some(number) = state.number_at(place) else {
            continue;
        };
        let Some((_, params, script)) = state.moving(number) else {
            continue;
        };
        let span = round_span(script.phases()).max(params.period);
        if span > longest {
            longest = span;
        }
    }
    longest
}
