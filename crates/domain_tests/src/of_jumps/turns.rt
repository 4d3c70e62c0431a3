//! The turns of an advance: which are taken, in what order, and in whose thread.

use super::by_workers::advanced;
use super::{HALF_OF_8_US, three};
use crate::seen::{Logged, Tally};
use crate::workers::{admitted, forever, single_ticks};
use domain_run::{Event, State};
use jump_run::Silent;
use std::alloc::{AllocError, Global};
use std::sync::Wait;
use std::test::Fail;
use std::thread::Threads;

/// The turns of so many ticks more, by so many workers.
fn turns_of<R: Threads + Wait>(
    rt: &R,
    host: HostRuntime,
    alloc: Global,
    state: &mut State,
    ticks: u64,
    workers: usize,
) -> Logged {
    let tally = Tally::new(host);
    advanced(rt, alloc, state, ticks, workers, &tally);
    tally.logged()
}

/// A jump has the turns of its plans and then those of its charges, also where it is cut short; a
/// jump in which no task runs has none. The tasks run for 4 us in every 8.
#[test]
fn turns_of_one_piece(rt: HostRuntime) -> Result<(), Fail> {
    let alloc = rt.alloc();
    for (tasks, workers) in [(1, 1), (2, 1), (3, 1), (1, 3), (1, 8)] {
        let mut states = admitted(alloc, 3, &three()[..tasks])?;
        for (ticks, order) in [(1, 0x1212), (3, 0x1212), (4, 0), (16, 0x12121212)] {
            let logged = turns_of(&rt, rt, alloc, &mut states[0], ticks, workers);
            assert!(rt;
                logged.order == order,
                "{tasks} tasks, {workers} workers, {ticks} ticks"
            );
        }
    }
    Ok(())
}

const LONG: [Event; 1] = [Event::Run(1000)];

/// Nothing comes due for 1000 us, so that these are one jump.
#[test]
fn one_jump_of_many_ticks(rt: HostRuntime) -> Result<(), Fail> {
    let tasks = [forever((1000, 2000, 2000), &LONG)];
    for workers in [1, 2, 8] {
        let mut states = admitted(rt.alloc(), 1, &tasks)?;
        let logged = turns_of(&rt, rt, rt.alloc(), &mut states[0], 1000, workers);
        assert!(rt; logged.order == 0x1212, "{workers} workers");
    }
    Ok(())
}

/// Each step of one jump of so many running tasks has as many pieces as workers, but no more than
/// tasks. One piece is worked on by the caller itself, and each of several by somebody else.
#[test]
fn pieces_of_each_step(rt: HostRuntime) -> Result<(), Fail> {
    let nine = [forever((4, 8, 8), &HALF_OF_8_US); 9];
    for (tasks, workers, twos, elsewhere) in [
        (1, 8, 0x2, 0),
        (3, 1, 0x2, 0),
        (3, 2, 0x22, 8),
        (3, 3, 0x222, 12),
        (3, 8, 0x222, 12),
        (9, 1, 0x2, 0),
        (9, 3, 0x222, 12),
        (9, 8, 0x22222222, 32),
        (9, 9, 0x222222222, 36),
    ] {
        let mut states = admitted(rt.alloc(), 9, &nine[..tasks])?;
        let logged = turns_of(&rt, rt, rt.alloc(), &mut states[0], 4, workers);
        assert!(rt;
            logged.is(twos, elsewhere),
            "{tasks} tasks, {workers} workers"
        );
    }
    Ok(())
}

/// An empty domain has room for the switches of a tick. With the growth after its opening refused
/// (`rt try --test --fail-alloc 18`) this fails at its assertion, since that growth is the one
/// behind: neither a tick nor one worker asked for any.
#[test]
fn one_worker_takes_no_memory(rt: HostRuntime) -> Result<(), Fail> {
    let mut states = admitted(rt.alloc(), 1, &[])?;
    single_ticks(&mut states[0], 1)?;
    advanced(&rt, rt.alloc(), &mut states[0], 4, 1, &Silent);
    let block: Result<Vec<u8>, AllocError> = Vec::with_capacity(rt.alloc(), 1);
    let has_memory = block.is_ok();
    assert!(rt; has_memory);
    Ok(())
}
