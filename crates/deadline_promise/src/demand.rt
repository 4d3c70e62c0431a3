//! What a script asks for.

ghost use Rattle.std.specs.Prelude.{◌≡◌, ◌≤◌, ◌^◌, All, IfSome, length};
ghost use Rattle.task_script.specs.script.ScriptView.{IsEvent, IsPhase};
ghost use Rattle.deadline_promise.specs.Demand.{IsDemand};
ghost use Rattle.deadline_promise.specs.private.Spans as spans;
ghost use Rattle.limits.specs.Limits.{max_script_number};

use crate::blocks::Blocks;
use crate::span::Span;
use task_script::{Event, Phase, Script};

/// What a script asks for. Times are in microseconds.
#[derive(Clone, Copy)]
pub struct Demand {
    /// The greatest sum of a stretch of work; none if the work never ends.
    pub work_max: Option<u128>,
    /// The least timer or sleep; none if there is neither.
    pub gap_min: Option<u64>,
    /// Whether it blocks by timers alone, or by sleeps alone.
    pub alike: bool,
}

fn span_of_events(events: &[Event]) -> Span
    requires few { length events.now ≤ 64 }
    requires events { All IsEvent events.now }
    ensures span { result ≡ spans.span_of_events events.now }
    ensures small { spans.IsSmallSpan (2 ^ 36) result }
{
    let mut span = Span::empty();
    for i in 0..events.len() {
        span = span.with_event(events[i]);
    }
    span
}

fn span_of_phase(phase: &Phase) -> Span
    requires { IsPhase phase.now }
    ensures span { result ≡ spans.span_of_phase phase.now }
    ensures small { spans.IsSmallSpan (2 ^ 66) result }
{
    span_of_events(&phase.events).times(phase.count)
}

fn span_of_round(phases: &[Phase]) -> Span
    requires few { length phases.now ≤ 64 }
    requires phases { All IsPhase phases.now }
    ensures span { result ≡ spans.span_of_round phases.now }
    ensures small { spans.IsSmallSpan (2 ^ 72) result }
{
    let mut span = Span::empty();
    for i in 0..phases.len() {
        span = span.joined(span_of_phase(&phases[i]));
    }
    span
}

fn rounds_of(script: &Script) -> Option<u64>
    ensures rounds { result ≡ script.now.rounds }
    ensures few { IfSome result (λ n. n ≤ max_script_number) }
{
    // For the prover alone: a look into it brings what its type keeps.
    let _ = script.phases();
    let loops = script.loops();
    if loops < 0 { None } else { Some(loops as u64) }
}

fn work_max(round: Span, rounds: Option<u64>) -> Option<u128>
    requires small { spans.IsSmallSpan (2 ^ 72) round }
    requires few { IfSome rounds (λ n. n ≤ max_script_number) }
    ensures { result ≡ spans.work_max_by rounds round }
{
    match rounds {
        Some(n) => Some(round.times(n).greatest()),
        None if round.free => None,
        None => Some(round.times(2).greatest()),
    }
}

impl Demand {
    /// What a script asks for. Takes no memory.
    pub fn of(script: &Script) -> Demand
        ensures { IsDemand script.now result }
    {
        let phases = script.phases();
        let blocks = Blocks::of_phases(phases);
        Demand {
            work_max: work_max(span_of_round(phases), rounds_of(script)),
            gap_min: blocks.gap,
            alike: blocks.are_alike(),
        }
    }
}
