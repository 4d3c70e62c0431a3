//! When to look whether a run repeats. What is found here is only a hint: the period is recorded,
//! and compared again, before it is given.

ghost use Rattle.std.specs.Prelude.{◌≡◌, ◌<◌, IsTrue};
ghost use Rattle.repeat_run.specs.Seen.{AreTasksSeen};
ghost use Rattle.repeat_run.specs.private.Knows.{KnowsInPhase};

use crate::phase::{Kept, Phase, Recording, Watch};
use crate::seeing::{paces_to, runs_same, see_all, see_running};
use crate::span::span_of;
use domain_run::State;

/// After this many looks from one time without a period, the search ends.
pub(crate) const MOST_LOOKS: u32 = 4096;

/// The least number of recorded periods in the rest of the run, if that is long enough.
const LEAST_PERIODS: u64 = 16;

/// The least number of switches of a recorded period, if the run is long enough.
const LEAST_SWITCHES: u64 = 2048;

/// The least number of switches for each task.
const SWITCHES_A_TASK: u64 = 16;

/// The most ticks of a recorded period.
const MOST_TICKS: u64 = 1 << 40;

/// Microseconds without a period after which looks are far apart.
const LONG_WATCH: u64 = 1_000_000;

/// The least number of microseconds between looks that are far apart. A shorter fill does not skip
/// zero-lag timers.
const FAR_APART: u64 = 100_000;

/// The first look is one span from now.
pub(crate) fn begin_watch(state: &State) -> Watch {
    let span = span_of(state);
    Watch {
        span,
        next: span,
        since: 0,
        switches: 0,
        looks: 0,
        power: 0,
    }
}

/// The watch after `ticks` ticks, which made `switches` switches.
pub(crate) fn passed(watch: Watch, ticks: u64, switches: u64) -> Watch {
    Watch {
        span: watch.span,
        next: watch.next.saturating_sub(ticks),
        since: watch.since.saturating_add(ticks),
        switches: watch.switches.saturating_add(switches),
        looks: watch.looks,
        power: watch.power,
    }
}

/// The ticks of a period that is worth being given: those since it was all written down, or a
/// multiple that has more switches, of which the run that is left has some.
fn worthy(state: &State, watch: Watch, left: u64) -> u64 {
    let tasks = (state.listed() as u64).saturating_mul(SWITCHES_A_TASK);
    let enough = LEAST_SWITCHES.max(tasks);
    let wanted = if watch.switches == 0 {
        1
    } else {
        (enough / watch.switches).saturating_add(1)
    };
    let fit = if watch.since == 0 {
        1
    } else {
        left / watch.since / LEAST_PERIODS
    };
    watch.since.saturating_mul(wanted.min(fit).max(1))
}

/// Writes all tasks down, and who runs on each CPU. False if memory was refused.
fn write_down(state: &State, kept: &mut Kept) -> bool
    ensures seen { IsTrue result → AreTasksSeen kept.new.seen.items state.now.tasks }
    ensures running { IsTrue result → kept.new.running.items ≡ state.now.curr }
{
    if !see_all(state, &mut kept.seen) {
        return false;
    }
    see_running(state, &mut kept.running)
}

/// Begins to write a period down.
fn begin_recording(state: &State, kept: &mut Kept, micros: u64) -> Phase
    requires some { 0 < micros }
    ensures { KnowsInPhase result kept.new state.now }
{
    // For the prover alone: a look at a state brings what every domain keeps.
    let _ = state.now();
    if !write_down(state, kept) {
        return Phase::Tired;
    }
    kept.period.clear();
    Phase::Recording(Recording { micros, made: 0 })
}

/// Whether each task and each CPU looks as it did when it was written down.
fn looks_same(state: &State, kept: &mut Kept, micros: u64) -> bool {
    if !runs_same(state, &kept.running) {
        return false;
    }
    match paces_to(state, &kept.seen, micros, &mut kept.paces) {
        Some(_) => true,
        None => false,
    }
}

/// The watch up to the next look.
pub(crate) fn look_later(watch: Watch) -> Watch {
    Watch {
        span: watch.span,
        next: watch.span,
        since: watch.since,
        switches: watch.switches,
        looks: watch.looks.saturating_add(1),
        power: watch.power,
    }
}

/// The distance of the next looks: a multiple of the one so far that is far apart, if no period was
/// found for long.
fn next_span(watch: Watch) -> u64 {
    if watch.since < LONG_WATCH {
        return watch.span;
    }
    watch.span.saturating_mul(FAR_APART / watch.span.max(1) + 1)
}

/// The watch from a time at which all was written down, for twice as many looks.
pub(crate) fn look_anew(watch: Watch) -> Watch {
    let span = next_span(watch);
    Watch {
        span,
        next: span,
        since: 0,
        switches: 0,
        looks: 0,
        power: watch.power.saturating_mul(2).max(1),
    }
}

/// Looks on, from this time if there were enough looks from the earlier one.
fn look_on(state: &State, kept: &mut Kept, watch: Watch) -> Phase
    ensures { KnowsInPhase result kept.new state.now }
{
    if watch.power > MOST_LOOKS || state.listed() == 0 {
        return Phase::Tired;
    }
    if watch.looks < watch.power {
        return Phase::Looking(look_later(watch));
    }
    if !write_down(state, kept) {
        return Phase::Tired;
    }
    Phase::Looking(look_anew(watch))
}

/// Looks whether the run has come back to what was written down. `left` ticks are left.
pub(crate) fn look_around(state: &State, kept: &mut Kept, watch: Watch, left: u64) -> Phase
    ensures { KnowsInPhase result kept.new state.now }
{
    if watch.power == 0 || watch.switches == 0 {
        return look_on(state, kept, watch);
    }
    if !looks_same(state, kept, watch.since) {
        return look_on(state, kept, watch);
    }
    let micros = worthy(state, watch, left);
    if micros == 0 || micros > MOST_TICKS {
        return Phase::Tired;
    }
    begin_recording(state, kept, micros)
}
