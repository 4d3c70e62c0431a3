//! Jumps, by one worker and by several. Worked rows by one worker are what the built program
//! replays.

mod by_workers;
mod turns;

use crate::switches::have_part;
use crate::workers::{Worker, admitted, forever, single_ticks};
use domain_run::{Event, State};
use jump_run::{Done, advance};
use std::test::Fail;

const HALF_OF_8_US: [Event; 2] = [Event::Run(4), Event::Timer(8)];

fn three<'a>() -> [Worker<'a>; 3] {
    [forever((4, 8, 8), &HALF_OF_8_US); 3]
}

fn are_same(jumping: &State, ticking: &State) -> bool {
    jumping.now() == ticking.now()
        && jumping.sum() == ticking.sum()
        && jumping.switches().len() == ticking.switches().len()
        && have_part(jumping.switches(), 0, ticking.switches())
        && jumping.view(1) == ticking.view(1)
}

/// An advance with many switches, and as many single ticks of the same domain as it made.
///
/// With a growth of the switches refused in the middle (`rt try --test --fail-alloc N`) it is the
/// last assertion that fails: fewer ticks, and exactly so many.
#[test]
fn cut_short_by_memory(rt: HostRuntime) -> Result<(), Fail> {
    let tasks = [forever((2, 8, 8), &[Event::Run(1), Event::Sleep(3)])];
    let mut jumped = admitted(rt.alloc(), 1, &tasks)?;
    let mut ticked = admitted(rt.alloc(), 1, &tasks)?;
    let (jumping, ticking) = (&mut jumped[0], &mut ticked[0]);
    let left = (1_u64 << 42).saturating_sub(jumping.now());
    let done = advance(jumping, 5000_u64.min(left));
    single_ticks(ticking, done.ticks)?;
    assert!(rt; are_same(jumping, ticking));
    assert!(rt; done == Done { ticks: 5000 });
    Ok(())
}
