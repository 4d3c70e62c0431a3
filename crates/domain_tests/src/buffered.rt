//! A domain whose switches wait in a buffer.

ghost use Rattle.std.specs.Prelude.{◌≡◌, IfOk, length};

use crate::switches::have_part;
use crate::workers::{admitted, forever, single_ticks};
use domain_run::{Buffered, Event, NoMemory, State};
use std::alloc::Global;
use std::test::Fail;

/// The domain with a buffer, as a list of one, for the reason for which a test has its domain so.
fn buffered_alone(alloc: Global, state: State) -> Result<Vec<Buffered>, NoMemory>
    ensures { IfOk result (λ buffers. length buffers.items ≡ 1) }
{
    let mut buffers = Vec::new(alloc);
    buffers.push(Buffered::of(state)?)?;
    Ok(buffers)
}

/// An advance stops where the buffer is full, and goes on once the switches that wait are
/// forgotten. They are those of single ticks.
#[test]
fn an_advance_stops_where_the_buffer_is_full(rt: HostRuntime) -> Result<(), Fail> {
    let tasks = [forever((2, 8, 8), &[Event::Run(1), Event::Sleep(3)])];
    let mut ticked = admitted(rt.alloc(), 1, &tasks)?;
    single_ticks(&mut ticked[0], 10000)?;
    let all = ticked[0].switches();
    let state = admitted(rt.alloc(), 1, &tasks)?.pop().unwrap();
    let mut buffers = buffered_alone(rt.alloc(), state)?;
    let buffered = &mut buffers[0];
    let left = (1_u64 << 42).saturating_sub(buffered.state().now());
    let made = buffered.advance(10000_u64.min(left));
    assert!(rt; 0 < made && made < 10000);
    assert!(rt; have_part(all, 0, buffered.switches()));
    let first = buffered.switches().len();
    buffered.forget_switches();
    let left = (1_u64 << 42).saturating_sub(buffered.state().now());
    let more = buffered.advance(10000_u64.saturating_sub(made).min(left));
    assert!(rt; made.saturating_add(more) == 10000);
    assert!(rt; have_part(all, first, buffered.switches()));
    assert!(rt; all.len().saturating_sub(first) == buffered.switches().len());
    Ok(())
}

/// A buffer is filled after the switches that wait. Where the first of them are forgotten, the
/// others stay, and there is room for as many more.
#[test]
fn a_buffer_is_filled_after_what_waits(rt: HostRuntime) -> Result<(), Fail> {
    let tasks = [forever((2, 8, 8), &[Event::Run(1), Event::Sleep(3)])];
    let mut ticked = admitted(rt.alloc(), 1, &tasks)?;
    single_ticks(&mut ticked[0], 10000)?;
    let all = ticked[0].switches();
    let state = admitted(rt.alloc(), 1, &tasks)?.pop().unwrap();
    let mut buffers = buffered_alone(rt.alloc(), state)?;
    let buffered = &mut buffers[0];
    let room = (1_u64 << 42).saturating_sub(buffered.state().now());
    let left = buffered.fill(10000_u64.min(room));
    assert!(rt; 0 < left && left < 10000);
    let first = buffered.switches().len();
    assert!(rt; first > 100 && have_part(all, 0, buffered.switches()));
    buffered.forget_front(100);
    assert!(rt; first.saturating_sub(100) == buffered.switches().len());
    let room = (1_u64 << 42).saturating_sub(buffered.state().now());
    let more = buffered.fill(left.min(room));
    assert!(rt; 0 < more && more < left && have_part(all, 100, buffered.switches()));
    buffered.forget_front(usize::MAX);
    let room = (1_u64 << 42).saturating_sub(buffered.state().now());
    assert!(rt; buffered.fill(more.min(room)) == 0);
    Ok(())
}
