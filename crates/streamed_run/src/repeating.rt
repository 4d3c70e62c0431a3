//! An advance that is streamed, of which the periods that repeat are counted and not simulated.

ghost use Rattle.std.specs.Prelude.{◌≡◌, ◌<◌, ◌≤◌, ◌+◌, ◌++◌, true, [], IfOk, IfSome, None, OnErr, Some};
ghost use Rattle.domain_run.specs.Happened.{logged_by_ticks};
ghost use Rattle.domain_run.specs.Keys.{AreKept};
ghost use Rattle.domain_run.specs.Passing.{without_switches};
ghost use Rattle.domain_run.specs.Tick.{ticks as ticks_of};
ghost use Rattle.run_figures.specs.Accounting.{with_piece};
ghost use Rattle.streamed_run.specs.Streamed.{nothing_streamed, streamed_after, IsStreamedUpTo};
ghost use Rattle.streamed_run.specs.private.Trail.{IsTrail, KnowsTrail};
ghost use Rattle.limits.specs.Limits.{clock_end};

use crate::streaming::{next_piece, stream};
use domain_run::{Log, NoMemory, State};
use jump_run::Done;
use repeat_run::{AfterLook, Lookout, Sight};
use run_figures::{Accounting, CountsMark};
use std::alloc::Global;

/// In a shorter run no period is looked for, in microseconds.
const LEAST_RUN: u64 = 1_000_000;

/// What was written down of a run, to find a period.
#[derive(Drop)]
struct Trail {
    sight: Sight,
    /// What the accounting had counted; none if nothing is written down.
    counts: Option<CountsMark>,
    /// Ticks since then.
    since: u64,
    /// When to look; none if no period is looked for.
    lookout: Option<Lookout>,
}

/// When to look first, if a run of `n` ticks is long enough.
fn lookout_for(state: &State, n: u64) -> Option<Lookout> {
    if n < LEAST_RUN {
        return None;
    }
    Some(Lookout::begin(state))
}

/// Nothing is written down yet. Takes no memory.
fn open_trail(alloc: Global, state: &State, n: u64) -> Trail
    ensures { result.counts ≡ None }
{
    Trail {
        sight: Sight::new(alloc),
        counts: None,
        since: 0,
        lookout: lookout_for(state, n),
    }
}

/// The ticks up to the next look, of at most `left`.
fn up_to_look(trail: &Trail, left: u64) -> u64
    requires { 0 < left }
    ensures some { 0 < result }
    ensures most { result ≤ left }
{
    let Some(lookout) = &trail.lookout else {
        return left;
    };
    let next = lookout.next();
    if next > 0 && next < left { next } else { left }
}

/// This many ticks more were made, with this many switches.
fn pass(trail: &mut Trail, made: u64, switches: u64)
    ensures counts { IfSome trail.new.counts (λ counts. trail.old.counts ≡ Some counts) }
    ensures since { IfSome trail.new.counts (λ _. trail.new.since ≡ trail.old.since + made) }
    ensures sight { trail.new.sight ≡ trail.old.sight }
{
    if let Some(lookout) = trail.lookout {
        trail.lookout = Some(lookout.passed(made, switches));
    }
    match trail.since.checked_add(made) {
        Some(since) => trail.since = since,
        None => trail.counts = None,
    }
}

/// Writes the domain down, and what was counted so far. Looks no more if memory was refused.
fn write_down(
    alloc: Global,
    state: &State,
    accounting: &Accounting,
    trail: &mut Trail,
    lookout: Lookout,
)
    requires forgotten { state.now.switches ≡ [] }
    requires up_to { IsStreamedUpTo state.now [] accounting.now }
    ensures { KnowsTrail trail.new state.now accounting.now }
{
    // For the prover alone: a look at a state brings what every domain keeps.
    let _ = state.now();
    trail.counts = None;
    trail.lookout = None;
    trail.since = 0;
    if !trail.sight.write(state) {
        return;
    }
    let Ok(counts) = accounting.keep_counts(alloc) else {
        return;
    };
    trail.counts = Some(counts);
    trail.lookout = Some(lookout);
}

/// After a look that found no period: looks on, or no more.
fn look_on(
    alloc: Global,
    state: &State,
    accounting: &Accounting,
    trail: &mut Trail,
    lookout: Lookout,
)
    requires forgotten { state.now.switches ≡ [] }
    requires up_to { IsStreamedUpTo state.now [] accounting.now }
    requires knows { KnowsTrail trail.old state.now accounting.now }
    ensures { KnowsTrail trail.new state.now accounting.now }
{
    match lookout.look_on(state) {
        AfterLook::Later(next) => trail.lookout = Some(next),
        AfterLook::Anew(next) => write_down(alloc, state, accounting, trail, next),
        AfterLook::Over => trail.lookout = None,
    }
}

/// Passes as many periods as go on alike, of at most `left` ticks in all, if the domain has come
/// back to what was written down `since` ticks ago, and so have the counts. Answers the number of
/// ticks that were passed and counted; 0 if there were none, and then nothing has changed.
fn pass_periods(
    state: &mut State,
    left: u64,
    accounting: &mut Accounting,
    sight: &mut Sight,
    counts: &CountsMark,
    since: u64,
) -> u64
    requires early { state.old.time + left ≤ accounting.old.time }
    requires end { accounting.old.time ≤ clock_end }
    requires forgotten { state.old.switches ≡ [] }
    requires some { 0 < since }
    requires trail { IsTrail since sight.old counts.now state.old accounting.old }
    ensures state { state.new ≡ without_switches (ticks_of result state.old) }
    ensures most { result ≤ left }
    ensures streamed { accounting.new ≡ with_piece accounting.old
        (logged_by_ticks result state.old) (ticks_of result state.old).switches }
    ensures seen { sight.new.seen ≡ sight.old.seen }
    ensures running { sight.new.running ≡ sight.old.running }
{
    // For the prover alone: a look at a state brings what every domain keeps.
    let _ = state.now();
    let Some(periods) = sight.find(state, since, left / since) else {
        return 0;
    };
    if !state.has_low_times() || !accounting.stream_again(counts, since, periods) {
        return 0;
    }
    let micros = periods * since;
    state.go_on_by(micros, sight.paces());
    micros
}

/// As [`pass_periods`], from what was written down, if anything was.
fn pass_found(state: &mut State, left: u64, accounting: &mut Accounting, trail: &mut Trail) -> u64
    requires early { state.old.time + left ≤ accounting.old.time }
    requires end { accounting.old.time ≤ clock_end }
    requires forgotten { state.old.switches ≡ [] }
    requires knows { KnowsTrail trail.old state.old accounting.old }
    ensures state { state.new ≡ without_switches (ticks_of result state.old) }
    ensures most { result ≤ left }
    ensures streamed { accounting.new ≡ with_piece accounting.old
        (logged_by_ticks result state.old) (ticks_of result state.old).switches }
    ensures counts { trail.new.counts ≡ trail.old.counts }
    ensures since { trail.new.since ≡ trail.old.since }
    ensures seen { trail.new.sight.seen ≡ trail.old.sight.seen }
    ensures running { trail.new.sight.running ≡ trail.old.sight.running }
{
    let since = trail.since;
    if since == 0 {
        return 0;
    }
    let Some(counts) = &trail.counts else {
        return 0;
    };
    pass_periods(state, left, accounting, &mut trail.sight, counts, since)
}

/// Passes periods, if a look finds some, and else looks on: answers the number of ticks. After 0
/// neither the domain nor the accounting has changed.
fn look(
    alloc: Global,
    state: &mut State,
    left: u64,
    accounting: &mut Accounting,
    trail: &mut Trail,
    lookout: Lookout,
) -> u64
    requires early { state.old.time + left ≤ accounting.old.time }
    requires end { accounting.old.time ≤ clock_end }
    requires forgotten { state.old.switches ≡ [] }
    requires up_to { IsStreamedUpTo state.old [] accounting.old }
    requires knows { KnowsTrail trail.old state.old accounting.old }
    ensures state { state.new ≡ without_switches (ticks_of result state.old) }
    ensures most { result ≤ left }
    ensures streamed { accounting.new ≡ with_piece accounting.old
        (logged_by_ticks result state.old) (ticks_of result state.old).switches }
    ensures knows { KnowsTrail trail.new state.new accounting.new }
{
    if lookout.is_busy() {
        let made = pass_found(state, left, accounting, trail);
        if made > 0 {
            trail.counts = None;
            trail.lookout = lookout_for(state, left - made);
            return made;
        }
    }
    look_on(alloc, state, accounting, trail, lookout);
    0
}

/// The next ticks up to a look, at least one and at most `left`: they are made and streamed. `Err`
/// if a growth was refused before the first; nothing has changed then.
fn stream_piece(
    state: &mut State,
    left: u64,
    log: &mut Log,
    accounting: &mut Accounting,
    trail: &mut Trail,
) -> Result<u64, NoMemory>
    requires some { 0 < left }
    requires early { state.old.time + left ≤ accounting.old.time }
    requires end { accounting.old.time ≤ clock_end }
    requires forgotten { state.old.switches ≡ [] }
    requires wanted { log.old.wanted ≡ true }
    requires empty { log.old.happened ≡ [] }
    requires up_to { IsStreamedUpTo state.old [] accounting.old }
    requires knows { KnowsTrail trail.old state.old accounting.old }
    ensures some { IfOk result (λ made. 0 < made) }
    ensures most { IfOk result (λ made. made ≤ left) }
    ensures state { IfOk result (λ made. state.new ≡ without_switches (ticks_of made state.old)) }
    ensures streamed { IfOk result (λ made. accounting.new ≡ with_piece accounting.old
        (logged_by_ticks made state.old) (ticks_of made state.old).switches) }
    ensures knows { IfOk result (λ _. KnowsTrail trail.new state.new accounting.new) }
    ensures same_state { OnErr result (state.new ≡ state.old) }
    ensures same_streamed { OnErr result (accounting.new ≡ accounting.old) }
    ensures wanted { log.new.wanted ≡ true }
    ensures empty { log.new.happened ≡ [] }
{
    // For the prover alone, here and below: a look at a state brings what every domain keeps.
    let _ = state.now();
    let Ok(made) = next_piece(state, up_to_look(trail, left), log) else {
        return Err(NoMemory);
    };
    let _ = state.now();
    let switches = state.switches().len() as u64;
    stream(state, log, accounting);
    pass(trail, made, switches);
    Ok(made)
}

/// The next ticks, at least one and at most `left`, passed in whole periods if that is possible.
/// `Err` if a growth was refused before the first; nothing has changed then.
fn next_ticks(
    alloc: Global,
    state: &mut State,
    left: u64,
    log: &mut Log,
    accounting: &mut Accounting,
    trail: &mut Trail,
) -> Result<u64, NoMemory>
    requires some { 0 < left }
    requires early { state.old.time + left ≤ accounting.old.time }
    requires end { accounting.old.time ≤ clock_end }
    requires forgotten { state.old.switches ≡ [] }
    requires wanted { log.old.wanted ≡ true }
    requires empty { log.old.happened ≡ [] }
    requires up_to { IsStreamedUpTo state.old [] accounting.old }
    requires knows { KnowsTrail trail.old state.old accounting.old }
    ensures some { IfOk result (λ made. 0 < made) }
    ensures most { IfOk result (λ made. made ≤ left) }
    ensures state { IfOk result (λ made. state.new ≡ without_switches (ticks_of made state.old)) }
    ensures streamed { IfOk result (λ made. accounting.new ≡ with_piece accounting.old
        (logged_by_ticks made state.old) (ticks_of made state.old).switches) }
    ensures knows { IfOk result (λ _. KnowsTrail trail.new state.new accounting.new) }
    ensures same_state { OnErr result (state.new ≡ state.old) }
    ensures same_streamed { OnErr result (accounting.new ≡ accounting.old) }
    ensures wanted { log.new.wanted ≡ true }
    ensures empty { log.new.happened ≡ [] }
{
    if let Some(lookout) = trail.lookout {
        if lookout.next() == 0 {
            let made = look(alloc, state, left, accounting, trail, lookout);
            if made > 0 {
                return Ok(made);
            }
        }
    }
    stream_piece(state, left, log, accounting, trail)
}

/// As [`advance_streamed_on`](crate::advance_streamed_on). If the run repeats, most of its periods
/// are not simulated: the domain is put to their end, and the accounting counts them at once. This
/// takes some memory; where it is refused, all is simulated. A period is looked for in this advance
/// alone, if it is at least a second.
pub fn advance_streamed_in_periods(
    alloc: Global,
    state: &mut State,
    n: u64,
    log: &mut Log,
    accounting: &mut Accounting,
) -> Done
    requires early { state.old.time + n ≤ accounting.old.time }
    requires end { accounting.old.time ≤ clock_end }
    requires wanted { log.old.wanted ≡ true }
    requires up_to { IsStreamedUpTo state.old log.old.happened accounting.old }
    ensures state { state.new ≡ without_switches (ticks_of result.ticks state.old) }
    ensures most { result.ticks ≤ n }
    ensures keys { AreKept state.old.tasks state.new.tasks }
    ensures streamed { accounting.new ≡ with_piece accounting.old
        (log.old.happened ++ logged_by_ticks result.ticks state.old)
        (ticks_of result.ticks state.old).switches }
    ensures wanted { log.new.wanted ≡ true }
    ensures empty { log.new.happened ≡ [] }
    ensures up_to { IsStreamedUpTo state.new log.new.happened accounting.new }
{
    let _ = state.now();
    stream(state, log, accounting);
    let mut trail = open_trail(alloc, state, n);
    let mut ticks = 0;
    'steps: while ticks < n {
        let _ = state.now();
        let Ok(made) = next_ticks(alloc, state, n - ticks, log, accounting, &mut trail) else {
            break;
        };
        ticks += made;
    }
    Done { ticks }
}

/// As [`advance_streamed_in_periods`], of a run of which nothing was streamed yet, with a log of
/// its own: the accounting takes the switches so far, and then what happens in these ticks.
pub fn advance_streamed(
    alloc: Global,
    state: &mut State,
    n: u64,
    accounting: &mut Accounting,
) -> Done
    requires early { state.old.time + n ≤ clock_end }
    requires new { accounting.old ≡ nothing_streamed n state.old }
    ensures state { state.new ≡ without_switches (ticks_of result.ticks state.old) }
    ensures most { result.ticks ≤ n }
    ensures keys { AreKept state.old.tasks state.new.tasks }
    ensures streamed { accounting.new ≡ streamed_after n result.ticks state.old }
{
    let mut log = Log::open(alloc);
    // For the prover alone: a look at a state brings what every domain keeps.
    let _ = state.now();
    advance_streamed_in_periods(alloc, state, n, &mut log, accounting)
}
