//! Advances by one worker and by several, and that several do not work on one thread.

use super::three;
use crate::seen::InOrder;
use crate::workers::{admit, admitted, forever};
use domain_run::{Event, State};
use jump_run::{Done, Silent, Turn, advance, advance_with};
use std::alloc::Global;
use std::sync::Wait;
use std::test::Fail;
use std::thread::Threads;
use std::time::Clock;

/// So many ticks, by so many workers.
pub(super) fn advanced<R: Threads + Wait, G: Turn>(
    rt: &R,
    alloc: Global,
    state: &mut State,
    ticks: u64,
    workers: usize,
    turn: &G,
) -> Done {
    let left = (1_u64 << 42).saturating_sub(state.now());
    advance_with(rt, alloc, state, ticks.min(left), workers.max(1), turn)
}

/// So many ticks, by leaps.
fn leapt(state: &mut State, ticks: u64) -> Done {
    let left = (1_u64 << 42).saturating_sub(state.now());
    advance(state, ticks.min(left))
}

const FOUR_OF_32_US: [Event; 2] = [Event::Run(4), Event::Timer(32)];

/// An advance of 2100 ticks of two tasks, each admitted at this time, by so many workers, or by
/// leaps where there is none: how many were made, whether the clock says so, and whether there were
/// many events.
fn made_from<R: Threads + Wait>(
    rt: &R,
    alloc: Global,
    start: u64,
    workers: usize,
) -> Result<(u64, bool, bool), Fail> {
    let mut states = admitted(alloc, 2, &[])?;
    let state = &mut states[0];
    advanced(rt, alloc, state, start, 1, &Silent);
    for number in 1..3 {
        let worker = forever((4, 32, 32), &FOUR_OF_32_US);
        admit(alloc, state, number, worker)?;
    }
    let done = match workers {
        0 => leapt(state, 2100),
        _ => advanced(rt, alloc, state, 2100, workers, &Silent),
    };
    let logged = state.now() == start.wrapping_add(done.ticks);
    Ok((done.ticks, logged, state.switches().len() > 200))
}

/// Each advance makes all that it was asked for, also up to the end of time.
#[test]
fn all_ticks_of_a_call(rt: HostRuntime) -> Result<(), Fail> {
    for workers in 0..9 {
        for start in [0, (1 << 42) - 2100] {
            let made = made_from(&rt, rt.alloc(), start, workers)?;
            assert!(rt;
                made == (2100, true, true),
                "{workers} workers from {start}"
            );
        }
    }
    Ok(())
}

/// One jump of two running tasks by two workers, in this order: how often the first piece and the
/// other had their turn, and whether one was late.
fn in_order<R: Threads + Wait + Clock + Sync>(
    rt: &R,
    alloc: Global,
    first: usize,
) -> Result<(usize, usize, bool), Fail> {
    let mut states = admitted(alloc, 2, &three())?;
    let order = InOrder::new(rt, first);
    advanced(rt, alloc, &mut states[0], 4, 2, &order);
    Ok(order.logged())
}

/// all-workers-on-one-thread: in either order of two pieces, who works on the one waits for who
/// works on the other, when the jump is planned and when it is charged.
#[test]
fn two_workers_wait_for_each_other(rt: HostRuntime) -> Result<(), Fail> {
    for first in [0, 1] {
        assert!(rt; in_order(&rt, rt.alloc(), first)? == (2, 2, false));
    }
    Ok(())
}
