//! From event to event.

ghost use Rattle.std.specs.Prelude.{◌≡◌, [], true, false, ◌<◌, ◌≤◌, ◌+◌, ◌⊎◌, IfOk, OnErr, vec_capacity};
ghost use Rattle.domain_run.specs.Tick.{ticks as ticks_of};
ghost use Rattle.domain_run.specs.Happened.{logged_by_ticks};
ghost use Rattle.domain_run.specs.Keys.{AreKept};
ghost use Rattle.domain_run.specs.Log.{HasLogged};
ghost use Rattle.jump_run.specs.Pieces as piece;
ghost use Rattle.limits.specs.Limits.{clock_end};

use crate::alone;
use crate::crew::{self, Crew, Lists};
use crate::plan::Room;
use domain_run::{Log, NoMemory, State};
use std::alloc::Global;
use std::sync::Wait;
use std::thread::Threads;
use tick_split::Turn;

/// How many ticks an advance made, at most as many as asked; fewer only where a growth was refused.
#[derive(Clone, Copy, PartialEq, Eq)]
pub struct Done {
    pub ticks: u64,
}

/// How many ticks a piece made, and whether a growth was refused, which ended it.
#[derive(Clone, Copy)]
pub struct Piece {
    pub ticks: u64,
    pub is_refused: bool,
}

/// What an advance made that was one piece.
fn made_by(piece: Piece) -> Done
    ensures { result.ticks ≡ piece.ticks }
{
    Done { ticks: piece.ticks }
}

/// One event and the ticks up to the next, which the log records: how many they were. `Err`
/// where room for the event's switches, or in the log, was refused.
fn jump<G: Turn>(
    state: &mut State,
    most: u64,
    room: &mut Room,
    turn: &G,
    log: &mut Log,
) -> Result<u64, NoMemory>
    requires some { 0 < most }
    requires early { state.old.time + most ≤ clock_end }
    ensures some { IfOk result (λ made. 0 < made) }
    ensures most { IfOk result (λ made. made ≤ most) }
    ensures ok { IfOk result (λ made. state.new ≡ ticks_of made state.old) }
    ensures err { OnErr result (state.new ≡ state.old) }
    ensures keys { AreKept state.old.tasks state.new.tasks }
    ensures logged { IfOk result (λ made. HasLogged log.old
        (logged_by_ticks made state.old) log.new) }
    ensures unlogged { OnErr result (HasLogged log.old [] log.new) }
    ensures event { IfOk result (λ _. piece.AddsAnEvent state.old log.old state.new log.new) }
{
    state.begin_logged(log)?;
    let span = alone::make(state, most, room, turn);
    state.finish_logged(span.ticks, &room.budgets[..span.count], log);
    Ok(span.ticks)
}

/// As `jump`, by several workers.
fn jump_with<R: Threads + Wait, G: Turn>(
    crew: &Crew<'_, R, G>,
    state: &mut State,
    most: u64,
    lists: &mut Lists,
    room: &mut Room,
    log: &mut Log,
) -> Result<u64, NoMemory>
    requires some { 0 < most }
    requires early { state.old.time + most ≤ clock_end }
    requires plans { vec_capacity lists.old.plans ≡ 64 }
    requires slices { vec_capacity lists.old.slices ≡ 64 }
    ensures some { IfOk result (λ made. 0 < made) }
    ensures most { IfOk result (λ made. made ≤ most) }
    ensures ok { IfOk result (λ made. state.new ≡ ticks_of made state.old) }
    ensures err { OnErr result (state.new ≡ state.old) }
    ensures keys { AreKept state.old.tasks state.new.tasks }
    ensures logged { IfOk result (λ made. HasLogged log.old
        (logged_by_ticks made state.old) log.new) }
    ensures unlogged { OnErr result (HasLogged log.old [] log.new) }
    ensures plans { vec_capacity lists.new.plans ≡ 64 }
    ensures slices { vec_capacity lists.new.slices ≡ 64 }
{
    state.begin_logged(log)?;
    let span = crew::make(crew, state, most, lists, room);
    state.finish_logged(span.ticks, &room.budgets[..span.count], log);
    Ok(span.ticks)
}

/// Whether the switches of a state, or what a log was logged, are so many by now.
fn has_enough(state: &State, log: &Log, enough: usize) -> bool
    ensures { result ≡ piece.has_enough enough state.now log.now }
{
    state.switches().len() >= enough || log.happened().len() >= enough
}

/// As [`advance_piece`], where each event is made with the turns of one piece.
fn advance_alone<G: Turn>(
    state: &mut State,
    n: u64,
    turn: &G,
    enough: usize,
    log: &mut Log,
) -> Piece
    requires { state.old.time + n ≤ clock_end }
    ensures state { state.new ≡ ticks_of result.ticks state.old }
    ensures most { result.ticks ≤ n }
    ensures keys { AreKept state.old.tasks state.new.tasks }
    ensures logged { HasLogged log.old (logged_by_ticks result.ticks state.old) log.new }
    ensures ended { result.is_refused ≡ false
        → (result.ticks ≡ n) ⊎ (piece.has_enough enough state.new log.new ≡ true) }
    ensures bounded { 0 < result.ticks → piece.IsBounded enough state.new log.new }
{
    let mut room = Room::new();
    let mut ticks = 0;
    'events: while ticks < n && !has_enough(state, log, enough) {
        let Ok(made) = jump(state, n - ticks, &mut room, turn, log) else {
            return Piece {
                ticks,
                is_refused: true,
            };
        };
        ticks += made;
    }
    Piece {
        ticks,
        is_refused: false,
    }
}

/// As [`advance_piece`].
fn leap_piece(state: &mut State, n: u64, enough: usize, log: &mut Log) -> Piece
    requires { state.old.time + n ≤ clock_end }
    ensures state { state.new ≡ ticks_of result.ticks state.old }
    ensures most { result.ticks ≤ n }
    ensures keys { AreKept state.old.tasks state.new.tasks }
    ensures logged { HasLogged log.old (logged_by_ticks result.ticks state.old) log.new }
    ensures ended { result.is_refused ≡ false
        → (result.ticks ≡ n) ⊎ (piece.has_enough enough state.new log.new ≡ true) }
    ensures bounded { 0 < result.ticks → piece.IsBounded enough state.new log.new }
{
    let mut ticks = 0;
    'leaps: while ticks < n && !has_enough(state, log, enough) {
        let Ok(made) = state.leap_logged(n - ticks, enough, log) else {
            return Piece {
                ticks,
                is_refused: true,
            };
        };
        ticks += made;
    }
    Piece {
        ticks,
        is_refused: false,
    }
}

/// As [`advance_logged`], by several workers.
fn advance_by<R: Threads + Wait, G: Turn>(
    crew: &Crew<'_, R, G>,
    state: &mut State,
    n: u64,
    mut lists: Lists,
    log: &mut Log,
) -> Done
    requires early { state.old.time + n ≤ clock_end }
    requires plans { vec_capacity lists.plans ≡ 64 }
    requires slices { vec_capacity lists.slices ≡ 64 }
    ensures state { state.new ≡ ticks_of result.ticks state.old }
    ensures most { result.ticks ≤ n }
    ensures keys { AreKept state.old.tasks state.new.tasks }
    ensures logged { HasLogged log.old (logged_by_ticks result.ticks state.old) log.new }
{
    let mut room = Room::new();
    let mut ticks = 0;
    'events: while ticks < n {
        let Ok(made) = jump_with(crew, state, n - ticks, &mut lists, &mut room, log) else {
            break;
        };
        ticks += made;
    }
    Done { ticks }
}

/// Goes on by so many ticks, from event to event: the state and its switches are exactly those of
/// so many single ticks. Room for the switches of an event is made before the event; where it is
/// refused, the ticks made so far run, and only then are they fewer than asked. Time stays within
/// 2^42 us. Tasks that have left may go off the list; nobody comes, and the others keep number,
/// bandwidth and order.
pub fn advance(state: &mut State, n: u64) -> Done
    requires { state.old.time + n ≤ clock_end }
    ensures state { state.new ≡ ticks_of result.ticks state.old }
    ensures most { result.ticks ≤ n }
    ensures keys { AreKept state.old.tasks state.new.tasks }
{
    let mut ticks = 0;
    'events: while ticks < n {
        let Ok(made) = state.leap(n - ticks) else {
            break;
        };
        ticks += made;
    }
    Done { ticks }
}

/// As [`advance`], and the log records what happens in these ticks, in the order of "Happened".
/// Room for what an event logs is made before the event, as for its switches: where it is refused,
/// the ticks made so far run, and the log has what they log.
pub fn advance_logged(state: &mut State, n: u64, log: &mut Log) -> Done
    requires { state.old.time + n ≤ clock_end }
    ensures state { state.new ≡ ticks_of result.ticks state.old }
    ensures most { result.ticks ≤ n }
    ensures keys { AreKept state.old.tasks state.new.tasks }
    ensures logged { HasLogged log.old (logged_by_ticks result.ticks state.old) log.new }
{
    if !log.is_wanted() {
        return advance(state, n);
    }
    made_by(advance_piece(state, n, usize::MAX, log))
}

/// As [`advance_logged`], but no event more is made once the state has `enough` switches or the log
/// was logged of `enough`, what it has logged before among them: so what both hold stays bounded,
/// however much happens. Unless a growth was refused, it ends there or with all ticks made. Where
/// both have fewer at first, at least one tick is made then.
pub fn advance_piece(state: &mut State, n: u64, enough: usize, log: &mut Log) -> Piece
    requires { state.old.time + n ≤ clock_end }
    ensures state { state.new ≡ ticks_of result.ticks state.old }
    ensures most { result.ticks ≤ n }
    ensures keys { AreKept state.old.tasks state.new.tasks }
    ensures logged { HasLogged log.old (logged_by_ticks result.ticks state.old) log.new }
    ensures ended { result.is_refused ≡ false
        → (result.ticks ≡ n) ⊎ (piece.has_enough enough state.new log.new ≡ true) }
    ensures progress { result.is_refused ≡ false → 0 < n
        → piece.has_enough enough state.old log.old ≡ false → 0 < result.ticks }
    ensures bounded { 0 < result.ticks → piece.IsBounded enough state.new log.new }
{
    leap_piece(state, n, enough, log)
}

/// As [`advance`], by so many workers at most (1 to 8 are meant): before each jump the rates of the
/// running tasks, and when their budgets end, are worked out as [`plan_all`](tick_split::plan_all)
/// does, and at its end they are charged as [`charge_all`](tick_split::charge_all) does, with the
/// turns of their pieces. The number of workers changes no result. Where a worker is not started or
/// a growth is refused, that step is made in one piece, which needs neither; want of memory for the
/// lists that workers share makes all steps so. One worker starts no thread and takes no memory
/// beside that of `advance`.
pub fn advance_with<R: Threads + Wait, G: Turn>(
    rt: &R,
    alloc: Global,
    state: &mut State,
    n: u64,
    workers: usize,
    turn: &G,
) -> Done
    requires workers { 0 < workers }
    requires early { state.old.time + n ≤ clock_end }
    ensures state { state.new ≡ ticks_of result.ticks state.old }
    ensures most { result.ticks ≤ n }
    ensures keys { AreKept state.old.tasks state.new.tasks }
{
    let mut log = state.silent();
    advance_with_logged(rt, alloc, state, n, workers, turn, &mut log)
}

/// As [`advance_with`], and the log records it as by [`advance_logged`]: the number of workers
/// changes nothing that it is logged.
pub fn advance_with_logged<R: Threads + Wait, G: Turn>(
    rt: &R,
    alloc: Global,
    state: &mut State,
    n: u64,
    workers: usize,
    turn: &G,
    log: &mut Log,
) -> Done
    requires workers { 0 < workers }
    requires early { state.old.time + n ≤ clock_end }
    ensures state { state.new ≡ ticks_of result.ticks state.old }
    ensures most { result.ticks ≤ n }
    ensures keys { AreKept state.old.tasks state.new.tasks }
    ensures logged { HasLogged log.old (logged_by_ticks result.ticks state.old) log.new }
{
    let Some(crew) = Crew::of(rt, alloc, workers, turn) else {
        return made_by(advance_alone(state, n, turn, usize::MAX, log));
    };
    let Ok(lists) = crew.lists() else {
        return made_by(advance_alone(state, n, turn, usize::MAX, log));
    };
    advance_by(&crew, state, n, lists, log)
}
