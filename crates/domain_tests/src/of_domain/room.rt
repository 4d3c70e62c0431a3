//! The calls on a domain take no memory: no room grows, and nothing else is asked for.

use crate::workers::{admitted, forever, name, params, script, single_ticks};
use domain_run::{Event, Reply};
use std::alloc::AllocError;
use std::test::Fail;

/// Each call once, with its answer; task 1 waits, and task 2 runs. Its switch fills the room, so a
/// call that asked for a place more would find none. The room for switches is what it was. The
/// state's other room is kept by its types.
///
/// All that takes memory is made before the calls, in 27 requests, and one request is made behind
/// them. So with the 28th refused (`rt try --test --fail-alloc 28`) the last assertion fails, since
/// that is the one behind: the calls asked for none.
#[test]
fn calls_take_no_memory(rt: HostRuntime) -> Result<(), Fail> {
    let waiting = forever((2, 8, 8), &[Event::Wait]);
    let running = forever((2, 8, 8), &[Event::Run(2), Event::Timer(8)]);
    let given = params(waiting.times)?;
    let mut states = admitted(rt.alloc(), 1, &[waiting, running])?;
    let state = &mut states[0];
    single_ticks(state, 1)?;
    let script = script(rt.alloc(), waiting)?;
    let name = name(rt.alloc())?;
    let before = state.room();
    assert!(rt; state.switches().len() == before);
    assert!(rt; state.admit(3, name, given, 0, script).is_ok());
    let replies = [
        state.regrade(1, given, None),
        state.wake(1),
        state.leave(1),
        state.depart(3),
        state.set_limit(524288, None),
    ];
    let wanted = [
        Reply::Changed,
        Reply::Woken,
        Reply::Left,
        Reply::Departed,
        Reply::Set,
    ];
    assert!(rt; replies == wanted);
    assert!(rt; state.room() == before);
    state.forget_switches();
    assert!(rt; state.room() == before);
    let block: Result<Vec<u8>, AllocError> = Vec::with_capacity(rt.alloc(), 1);
    let has_memory = block.is_ok();
    assert!(rt; has_memory);
    Ok(())
}

/// A domain of three CPUs is opened with room for a switch of each. A tick of an empty one finds
/// it, and takes no more.
#[test]
fn a_tick_takes_room_for_its_switches_alone(rt: HostRuntime) -> Result<(), Fail> {
    let mut states = admitted(rt.alloc(), 3, &[])?;
    let state = &mut states[0];
    for ticks in [1, 8] {
        single_ticks(state, ticks)?;
        assert!(rt; state.room() == 3);
    }
    Ok(())
}
