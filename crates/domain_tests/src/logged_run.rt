//! A domain whose switches and what happens wait until they are taken.

ghost use Rattle.std.specs.Prelude.{◌≡◌, IfOk, length};

use crate::switches::have_part;
use crate::workers::{admitted, forever};
use domain_run::{Event, Happened, Log, LoggedRun, NoMemory, State};
use jump_run::advance_logged;
use std::alloc::Global;
use std::test::Fail;

/// The domain with its log, as a list of one, for the reason for which a test has its domain so.
fn logged_alone(alloc: Global, state: State) -> Result<Vec<LoggedRun>, NoMemory>
    ensures { IfOk result (λ logs. length logs.items ≡ 1) }
{
    let mut logs = Vec::new(alloc);
    logs.push(LoggedRun::of(alloc, state)?)?;
    Ok(logs)
}

fn is_same(a: &Happened, b: &Happened) -> bool {
    a.time == b.time && a.number == b.number && a.cpu == b.cpu && a.what.rank() == b.what.rank()
}

/// Whether a part of all that happens, from a place on, is this.
fn has_happened(all: &[Happened], from: usize, part: &[Happened]) -> bool {
    for (a, b) in all.iter().skip(from).zip(part.iter()) {
        if !is_same(a, b) {
            return false;
        }
    }
    part.len() <= all.len().saturating_sub(from)
}

/// A domain is filled after what waits. It stops when its log is full, and goes on once a front of
/// it is forgotten. What it tells is what an advance with memory tells.
#[test]
fn a_log_is_filled_after_what_waits(rt: HostRuntime) -> Result<(), Fail> {
    let tasks = [forever((2, 8, 8), &[Event::Run(1), Event::Sleep(3)])];
    let mut made = admitted(rt.alloc(), 1, &tasks)?;
    let mut log = Log::open(rt.alloc());
    let left = (1_u64 << 42).saturating_sub(made[0].now());
    let _ = advance_logged(&mut made[0], 10000_u64.min(left), &mut log);
    let (all, logged) = (made[0].switches(), log.happened());
    let state = admitted(rt.alloc(), 1, &tasks)?.pop().unwrap();
    let mut logs = logged_alone(rt.alloc(), state)?;
    let logged_run = &mut logs[0];
    let room = (1_u64 << 42).saturating_sub(logged_run.state().now());
    let left = logged_run.fill(10000_u64.min(room));
    assert!(rt; 0 < left && left < 10000);
    let (first, first_logged) = (logged_run.switches().len(), logged_run.logged().len());
    assert!(rt; first > 100 && have_part(all, 0, logged_run.switches()));
    assert!(rt; first_logged > 100 && has_happened(logged, 0, logged_run.logged()));
    logged_run.forget_front(100, 90);
    assert!(rt; first.saturating_sub(100) == logged_run.switches().len());
    assert!(rt; first_logged.saturating_sub(90) == logged_run.logged().len());
    let room = (1_u64 << 42).saturating_sub(logged_run.state().now());
    let more = logged_run.fill(left.min(room));
    assert!(rt; more < left && have_part(all, 100, logged_run.switches()));
    assert!(rt; has_happened(logged, 90, logged_run.logged()));
    logged_run.forget_front(usize::MAX, usize::MAX);
    let room = (1_u64 << 42).saturating_sub(logged_run.state().now());
    assert!(rt; logged_run.fill(more.min(room)) == 0);
    Ok(())
}
