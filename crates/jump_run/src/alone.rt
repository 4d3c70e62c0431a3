//! The running tasks planned and charged one after another, by the caller.

ghost use Rattle.std.specs.Prelude.{◌≡◌, ◌<◌, ◌≤◌, ◌^◌, ◌*◌, ◌-◌, ◌-ℤ◌, ◌<ℤ◌, ◌≤ℤ◌, pos, length, take};
ghost use Rattle.domain_run.specs.Jump as jump;
ghost use Rattle.jump_run.specs.Plan.{AreGathered};
ghost use Rattle.limits.specs.Limits.{clock_end};

use crate::plan::{Room, Span};
use domain_run::{Running, State};
use tick_split::{Slice, Turn};

/// What is left of a running task's budget, which is above 0.
fn left_of(runner: &Running) -> u64
    requires lifted { pos 0 <ℤ runner.now.left }
    requires high { runner.now.left ≤ℤ pos (2 ^ 52) }
    ensures left { pos result ≡ runner.now.left }
    ensures some { 0 < result }
    ensures high { result ≤ 2 ^ 52 }
{
    runner.left as u64
}

/// For how many ticks, at most so many, a budget lasts, the last of them included: a division only
/// where it ends before.
fn lasting(left: u64, rate: u64, most: u64) -> u64
    requires left { 0 < left }
    requires slow { rate ≤ 2 ^ 27 }
    requires turns { 0 < rate }
    requires some { 0 < most }
    requires short { most ≤ clock_end }
    ensures some { 0 < result }
    ensures most { result ≤ most }
    ensures lasted { rate * (result - 1) < left }
{
    let used = u128::from(rate) * u128::from(most - 1);
    if used < u128::from(left) {
        return most;
    }
    left.div_ceil(rate)
}

/// What so many ticks of running at a rate leave of a budget.
fn left_after(left: u64, rate: u64, ticks: u64) -> i128
    requires high { left ≤ 2 ^ 52 }
    requires slow { rate ≤ 2 ^ 27 }
    requires short { ticks ≤ clock_end }
    ensures { result ≡ pos left -ℤ pos (rate * ticks) }
{
    let mut slice = Slice {
        left: i128::from(left),
        rate,
        ticks,
    };
    tick_split::charge(&mut slice);
    slice.left
}

/// The piece's turn begins, where there is a piece.
fn begin<G: Turn>(turn: &G, is_piece: bool) {
    if is_piece {
        turn.begin(0);
    }
}

/// The piece's turn has ended, where there is a piece.
fn end<G: Turn>(turn: &G, is_piece: bool) {
    if is_piece {
        turn.end(0);
    }
}

fn gather<G: Turn>(state: &State, most: u64, room: &mut Room, turn: &G) -> Span
    requires begun { jump.IsUnderWay state.now }
    requires some { 0 < most }
    ensures some { 0 < result.ticks }
    ensures most { result.ticks ≤ most }
    ensures quiet { result.ticks ≤ jump.ticks_to_event state.now }
    ensures short { result.ticks ≤ clock_end }
    ensures many { result.count ≡ length (jump.running_numbers state.now.curr) }
    ensures few { result.count ≤ 64 }
    ensures len { length room.new.budgets ≡ 64 }
    ensures each { AreGathered state.now result.ticks result.count room.new.lefts room.new.rates }
{
    let mut ticks = most.min(state.quiet());
    for i in 0..64 {
        let Some(runner) = state.running(i) else {
            return Span { ticks, count: i };
        };
        begin(turn, i == 0);
        let left = left_of(&runner);
        let rate = state.rate(&runner);
        room.lefts[i] = left;
        room.rates[i] = rate;
        ticks = lasting(left, rate, ticks.min(runner.work));
    }
    Span { ticks, count: 64 }
}

/// As many ticks of the tick that has begun and of the next ones as pass before the next event, and
/// at most `most`; and what they leave of the budgets of the running tasks. All of them are one
/// piece, which has its turns.
pub(crate) fn make<G: Turn>(state: &State, most: u64, room: &mut Room, turn: &G) -> Span
    requires begun { jump.IsUnderWay state.now }
    requires some { 0 < most }
    ensures some { 0 < result.ticks }
    ensures most { result.ticks ≤ most }
    ensures quiet { result.ticks ≤ jump.ticks_to_event state.now }
    ensures few { result.count ≤ 64 }
    ensures charged { jump.AreCharged state.now result.ticks
        (take result.count room.new.budgets) }
{
    let span = gather(state, most, room, turn);
    end(turn, span.count > 0);
    begin(turn, span.count > 0);
    for i in 0..span.count {
        room.budgets[i] = left_after(room.lefts[i], room.rates[i], span.ticks);
    }
    end(turn, span.count > 0);
    span
}
