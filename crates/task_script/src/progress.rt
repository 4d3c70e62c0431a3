//! How far a cursor is in its script, in counters: to find its event, and to go behind it, takes no
//! division and no walk over the phases. Both read the steps of the script, or where there are none
//! the script itself.

ghost use Rattle.std.specs.Prelude.{◌≡◌, ◌+◌, ◌*◌, ◌<◌, ◌≤◌, ◌^◌, All, IsSome, IfSome, length, slice_get, Some};
ghost use Rattle.task_script.specs.script.Later.{place_on};
ghost use Rattle.task_script.specs.script.ScriptView.{IsEvent, IsPhase, IsScript, phase_len, round_len};
ghost use Rattle.task_script.specs.script.Unrolled.{event_at};
ghost use Rattle.task_script.specs.private.Progress as spec;
ghost use Rattle.limits.specs.Limits.{max_script_number};

use crate::phase::{Event, Phase};
use crate::script::Script;
use crate::steps::{event_of_step, laps_of, laps_of_step};

/// What is behind a cursor.
#[derive(Clone, Copy)]
pub(crate) struct Progress {
    /// Rounds; of a script without end none, as each is like the first.
    round: u32,
    /// Phases of this round.
    phase: u32,
    /// Events of a lap each of those phases.
    first: u32,
    /// Laps: so many times the events of this phase.
    lap: u32,
    /// Events of this lap.
    event: u32,
}

/// At the beginning of a script.
#[tactic(auto, using(crate::proofs::Rounds::begins))]
pub(crate) fn begin(script: &Script) -> Progress
    ensures stands { spec.IsProgress script.now result }
    ensures place { spec.progress_place script.now result ≡ 0 }
{
    // For the prover alone: a look into it brings what its type keeps.
    let _ = script.phases();
    Progress {
        round: 0,
        phase: 0,
        first: 0,
        lap: 0,
        event: 0,
    }
}

fn is_over(rounds: Option<u32>, round: u32) -> bool
    ensures { result ≡ spec.is_last_round rounds round }
{
    match rounds {
        None => false,
        Some(n) => n <= round,
    }
}

fn event_in(phase: &Phase, index: usize) -> Event
    requires phase { IsPhase phase.now }
    requires within { index < length phase.now.events }
    ensures value { slice_get phase.now.events index ≡ Some result }
    ensures event { IsEvent result }
{
    phase.events[index]
}

// The event where a cursor stands, of a round that is not over.
#[inline(always)]
fn event_here(script: &Script, progress: Progress) -> Event
    requires stands { spec.IsProgress script.now progress }
    ensures value { spec.IsEventThere script.now progress result }
    ensures event { IsEvent result }
{
    let phases = script.phases();
    let steps = script.steps();
    if steps.is_empty() {
        event_in(&phases[progress.phase as usize], progress.event as usize)
    } else {
        event_of_step(&steps[(progress.first + progress.event) as usize])
    }
}

/// The event where a cursor stands; none behind the last round.
#[inline(always)]
pub(crate) fn event_of(script: &Script, progress: Progress) -> Option<Event>
    requires stands { spec.IsProgress script.now progress }
    ensures value { result ≡ event_at script.now (spec.progress_place script.now progress) }
    ensures within { IsScript script.now }
    ensures event { IfSome result IsEvent }
{
    // For the prover alone: a look into it brings what its type keeps.
    let _ = script.phases();
    if is_over(script.rounds(), progress.round) {
        return None;
    }
    Some(event_here(script, progress))
}

fn next_round(rounds: Option<u32>, round: u32) -> u32
    requires { IfSome rounds (λ n. round < max_script_number) }
    ensures { result ≡ spec.next_round rounds round }
{
    match rounds {
        None => round,
        Some(_) => round + 1,
    }
}

// Behind the last event of a lap, in a phase of so many laps.
#[inline(always)]
fn next_lap(script: &Script, progress: &mut Progress, laps: u32)
    requires stands { spec.IsProgress script.now progress.old }
    requires more { IsSome (event_at script.now (spec.progress_place script.now progress.old)) }
    requires last { spec.IsLastOfLap script.now progress.old laps }
    ensures { spec.IsNextProgress script.now progress.old progress.new }
{
    let phases = script.phases();
    let events = progress.event + 1;
    progress.event = 0;
    progress.lap += 1;
    if progress.lap < laps {
        return;
    }
    progress.lap = 0;
    progress.phase += 1;
    if (progress.phase as usize) < phases.len() {
        progress.first += events;
        return;
    }
    progress.phase = 0;
    progress.first = 0;
    progress.round = next_round(script.rounds(), progress.round);
}

// How many laps its phase has, where a cursor stands at the last event of a lap; else 0.
#[inline(always)]
fn laps_here(script: &Script, progress: Progress) -> u32
    requires stands { spec.IsProgress script.now progress }
    ensures { spec.AreLapsThere script.now progress result }
{
    let phases = script.phases();
    let steps = script.steps();
    if steps.is_empty() {
        laps_of(&phases[progress.phase as usize], progress.event as usize)
    } else {
        laps_of_step(&steps[(progress.first + progress.event) as usize])
    }
}

/// Goes behind the event where a cursor stands.
#[inline(always)]
pub(crate) fn advance(script: &Script, progress: &mut Progress)
    requires stands { spec.IsProgress script.now progress.old }
    requires more { IsSome (event_at script.now (spec.progress_place script.now progress.old)) }
    ensures { spec.IsNextProgress script.now progress.old progress.new }
{
    // For the prover alone: a look into it brings what its type keeps.
    let _ = script.phases();
    let laps = laps_here(script, *progress);
    if laps == 0 {
        progress.event += 1;
        return;
    }
    next_lap(script, progress, laps);
}

impl Progress {
    /// How many rounds are behind.
    pub(crate) fn round(self) -> u64
        ensures { result ≡ self.round }
    {
        self.round as u64
    }
}

// How many places a phase takes.
fn places_of(phase: &Phase) -> u64
    requires { IsPhase phase.now }
    ensures places { result ≡ phase_len phase.now }
    ensures few { result ≤ 2 ^ 40 }
{
    phase.count * phase.events.len() as u64
}

// How many places of a round the first so many phases take.
fn places_before(phases: &[Phase], end: usize) -> u64
    requires phases { All IsPhase phases.now }
    requires within { end ≤ length phases.now }
    requires few { length phases.now ≤ 64 }
    ensures places { result ≡ spec.events_behind phases.now end 0 0 }
    ensures few { result ≤ 2 ^ 46 }
{
    let mut places = 0;
    for index in 0..end {
        places += places_of(&phases[index]);
    }
    places
}

// How many events of its phase are behind a cursor.
fn step_in(phase: &Phase, progress: Progress) -> u64
    requires phase { IsPhase phase.now }
    requires there { spec.IsInPhase phase.now progress }
    ensures step { result ≡ progress.lap * length phase.now.events + progress.event }
    ensures few { result ≤ 2 ^ 46 }
{
    progress.lap as u64 * phase.events.len() as u64 + progress.event as u64
}

/// How many events of its round are behind a cursor.
pub(crate) fn step_of(script: &Script, progress: Progress) -> u64
    requires stands { spec.IsProgress script.now progress }
    ensures step { spec.progress_place script.now progress
        ≡ progress.round * round_len script.now + result }
    ensures within { result < round_len script.now }
{
    let phases = script.phases();
    let at = progress.phase as usize;
    places_before(phases, at) + step_in(&phases[at], progress)
}

/// Goes so many rounds further on, if the script is finite.
pub(crate) fn go_on(script: &Script, progress: &mut Progress, rounds: u64)
    requires stands { spec.IsProgress script.now progress.old }
    requires rounds { 0 < rounds → spec.HasRoundsLeft rounds script.now progress.old }
    ensures stands { spec.IsProgress script.now progress.new }
    ensures place { spec.progress_place script.now progress.new
        ≡ place_on script.now.rounds (rounds * round_len script.now)
        (spec.progress_place script.now progress.old) }
{
    // For the prover alone: a look into it brings what its type keeps.
    let _ = script.phases();
    if script.rounds().is_some() {
        progress.round += rounds as u32;
    }
}
