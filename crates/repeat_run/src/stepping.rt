//! Some ticks of a run, in each phase.

ghost use Rattle.std.specs.Prelude.{◌≡◌, ◌<◌, ◌≤◌, ◌+◌, ◌++◌, drop, length, IsTrue};
ghost use Rattle.domain_run.specs.Tick as tick;
ghost use Rattle.repeat_run.specs.private.Knows.{IsGiving, IsRecorded, KnowsInPhase};
ghost use Rattle.limits.specs.Limits.{clock_end};

use crate::closing::close;
use crate::looking::{begin_watch, look_around, passed};
use crate::phase::{Giving, Kept, Phase, Recording, Watch};
use domain_run::{Buffered, Switch};

/// The least number of switches that wait before an advance stops.
const ENOUGH: usize = 4096;

/// The most switches of a period.
const MOST: usize = 1 << 18;

/// An advance that is shorter is not looked at, in microseconds.
const LEAST_RUN: u64 = 1_000_000;

/// The ticks made, and what is known after them.
#[derive(Clone, Copy)]
pub(crate) struct Made {
    pub(crate) ticks: u64,
    pub(crate) phase: Phase,
}

// Makes at most `n` ticks; at least one, or switches wait.
fn simulate(buffered: &mut Buffered, n: u64) -> u64
    requires { buffered.old.time + n ≤ clock_end }
    ensures made { buffered.new ≡ tick.ticks result buffered.old }
    ensures most { result ≤ n }
    ensures full { 0 < n → result ≡ 0 → 0 < length buffered.new.switches }
{
    n - buffered.fill(n)
}

// At most `next` ticks, and at most those that are left.
fn up_to(next: u64, left: u64) -> u64
    requires { 0 < left }
    ensures some { 0 < result }
    ensures most { result ≤ left }
    ensures next { 0 < next → result ≤ next }
{
    if next > 0 && next < left { next } else { left }
}

// Adds the switches from a place on. False, with nothing added, if there are too many, or memory
// was refused.
fn add_from(period: &mut Vec<Switch>, switches: &[Switch], from: usize) -> bool
    requires { from ≤ length switches.now }
    ensures { IsTrue result → period.new.items ≡ period.old.items ++ drop from switches.now }
{
    let more = &switches[from..];
    if period.len().saturating_add(more.len()) > MOST {
        return false;
    }
    match period.extend_from_slice(more) {
        Ok(()) => true,
        Err(_) => false,
    }
}

// Goes on up to the next look, and looks.
fn look(buffered: &mut Buffered, kept: &mut Kept, watch: Watch, left: u64) -> Made
    requires some { 0 < left }
    requires early { buffered.old.time + left ≤ clock_end }
    ensures made { buffered.new ≡ tick.ticks result.ticks buffered.old }
    ensures most { result.ticks ≤ left }
    ensures full { result.ticks ≡ 0 → 0 < length buffered.new.switches }
    ensures knows { KnowsInPhase result.phase kept.new buffered.new }
{
    let before = buffered.switches().len();
    let ticks = simulate(buffered, up_to(watch.next, left));
    let switches = buffered.switches().len().saturating_sub(before);
    let later = passed(watch, ticks, switches as u64);
    if later.next > 0 {
        return Made {
            ticks,
            phase: Phase::Looking(later),
        };
    }
    Made {
        ticks,
        phase: look_around(buffered.state(), kept, later, left - ticks),
    }
}

// Begins to look, if the run is long enough.
fn begin(buffered: &mut Buffered, kept: &mut Kept, left: u64) -> Made
    requires some { 0 < left }
    requires early { buffered.old.time + left ≤ clock_end }
    ensures made { buffered.new ≡ tick.ticks result.ticks buffered.old }
    ensures most { result.ticks ≤ left }
    ensures full { result.ticks ≡ 0 → 0 < length buffered.new.switches }
    ensures knows { KnowsInPhase result.phase kept.new buffered.new }
{
    if left < LEAST_RUN {
        Made {
            ticks: simulate(buffered, left),
            phase: Phase::Fresh,
        }
    } else {
        let watch = begin_watch(buffered.state());
        look(buffered, kept, watch, left)
    }
}

// Writes the next ticks of a period down.
fn record(buffered: &mut Buffered, kept: &mut Kept, recording: Recording, left: u64) -> Made
    requires some { 0 < left }
    requires early { buffered.old.time + left ≤ clock_end }
    requires inside { recording.made < recording.micros }
    requires knows { IsRecorded recording.made kept.old buffered.old }
    ensures made { buffered.new ≡ tick.ticks result.ticks buffered.old }
    ensures most { result.ticks ≤ left }
    ensures full { result.ticks ≡ 0 → 0 < length buffered.new.switches }
    ensures knows { KnowsInPhase result.phase kept.new buffered.new }
{
    let rest = recording.micros - recording.made;
    let before = buffered.switches().len();
    let ticks = simulate(buffered, up_to(rest, left));
    if !add_from(&mut kept.period, buffered.switches(), before) {
        return Made {
            ticks,
            phase: Phase::Tired,
        };
    }
    let phase = close(
        buffered.state(),
        kept,
        Recording {
            micros: recording.micros,
            made: recording.made + ticks,
        },
    );
    Made { ticks, phase }
}

// Gives the next period.
fn give(buffered: &mut Buffered, kept: &mut Kept, giving: Giving, left: u64) -> Made
    requires some { 0 < left }
    requires early { buffered.old.time + left ≤ clock_end }
    requires knows { IsGiving giving.micros giving.later_by giving.left kept.old buffered.old }
    ensures made { buffered.new ≡ tick.ticks result.ticks buffered.old }
    ensures most { result.ticks ≤ left }
    ensures full { result.ticks ≡ 0 → 0 < length buffered.new.switches }
    ensures knows { KnowsInPhase result.phase kept.new buffered.new }
{
    if giving.left == 0 || left < giving.micros {
        return begin(buffered, kept, left);
    }
    if buffered.switches().len() >= ENOUGH {
        return Made {
            ticks: 0,
            phase: Phase::Giving(giving),
        };
    }
    if !buffered.repeat(giving.micros, &kept.paces, giving.later_by, &kept.period) {
        return Made {
            ticks: simulate(buffered, left),
            phase: Phase::Tired,
        };
    }
    Made {
        ticks: giving.micros,
        phase: Phase::Giving(Giving {
            micros: giving.micros,
            later_by: giving.later_by + giving.micros,
            left: giving.left - 1,
        }),
    }
}

/// Goes on by at most `left` ticks; at least one, or switches wait.
pub(crate) fn go_on(buffered: &mut Buffered, kept: &mut Kept, phase: Phase, left: u64) -> Made
    requires some { 0 < left }
    requires early { buffered.old.time + left ≤ clock_end }
    requires knows { KnowsInPhase phase kept.old buffered.old }
    ensures made { buffered.new ≡ tick.ticks result.ticks buffered.old }
    ensures most { result.ticks ≤ left }
    ensures full { result.ticks ≡ 0 → 0 < length buffered.new.switches }
    ensures knows { KnowsInPhase result.phase kept.new buffered.new }
{
    match phase {
        Phase::Fresh => begin(buffered, kept, left),
        Phase::Tired => Made {
            ticks: simulate(buffered, left),
            phase: Phase::Tired,
        },
        Phase::Looking(watch) => look(buffered, kept, watch, left),
        Phase::Recording(recording) => record(buffered, kept, recording, left),
        Phase::Giving(giving) => give(buffered, kept, giving, left),
    }
}
