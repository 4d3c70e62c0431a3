//! The tasks of worked rows, as the tests of a domain and of its jumps tell them.
//!
//! A test has its domain as a list of one. What owns a state itself has, at each of its ends, the
//! drop of each of the state's fields in its proof; a list's is one call.

ghost use Rattle.std.specs.Prelude.{◌≡◌, IfOk, length};

use attr_check::{Params, SchedAttr, check};
use domain_run::{Event, Name, NoMemory, Phase, Script, State};
use std::alloc::Global;
use std::test::Fail;

/// A whole CPU, in 1/2^20 of a CPU.
const UNIT: u64 = 1048576;

/// A task of a row: runtime, deadline and period in us, and one phase of events, for ever.
#[derive(Clone, Copy)]
pub(crate) struct Worker<'a> {
    pub(crate) times: (u64, u64, u64),
    pub(crate) events: &'a [Event],
}

pub(crate) fn forever(times: (u64, u64, u64), events: &[Event]) -> Worker<'_> {
    Worker { times, events }
}

pub(crate) fn params(times: (u64, u64, u64)) -> Result<Params, Fail> {
    let (runtime, deadline, period) = times;
    Ok(check(&SchedAttr {
        policy: 6,
        flags: 0,
        runtime: runtime.saturating_mul(1000),
        deadline: deadline.saturating_mul(1000),
        period: period.saturating_mul(1000),
    })?)
}

pub(crate) fn name(alloc: Global) -> Result<Name, Fail> {
    Ok(Name::new(String::from_str(alloc, "T")?)?)
}

pub(crate) fn script(alloc: Global, worker: Worker<'_>) -> Result<Script, Fail> {
    let mut phases = Vec::new(alloc);
    phases.push(Phase {
        count: 1,
        events: worker.events.to_vec(alloc)?,
    })?;
    Ok(Script::new(-1, phases)?)
}

/// Admits a task, where the domain has room for it.
pub(crate) fn admit(
    alloc: Global,
    state: &mut State,
    number: u32,
    worker: Worker<'_>,
) -> Result<(), Fail> {
    let given = params(worker.times)?;
    let name = name(alloc)?;
    let script = script(alloc, worker)?;
    let _ = state.admit(number.clamp(1, 65535), name, given, 0, script);
    Ok(())
}

/// An empty domain of so many CPUs.
fn opened(alloc: Global, cpus: u32) -> Result<Vec<State>, NoMemory>
    ensures { IfOk result (λ states. length states.items ≡ 1) }
{
    let mut states = Vec::new(alloc);
    states.push(State::open(alloc, cpus.clamp(1, 64), UNIT)?)?;
    Ok(states)
}

fn admit_all(alloc: Global, state: &mut State, workers: &[Worker<'_>]) -> Result<(), Fail> {
    let mut number: u32 = 0;
    for worker in workers {
        number = number.saturating_add(1);
        admit(alloc, state, number, *worker)?;
    }
    Ok(())
}

/// A domain of so many CPUs, to which tasks 1, 2, .. are admitted at 0.
pub(crate) fn admitted(alloc: Global, cpus: u32, workers: &[Worker<'_>]) -> Result<Vec<State>, Fail>
    ensures { IfOk result (λ states. length states.items ≡ 1) }
{
    let mut states = opened(alloc, cpus)?;
    admit_all(alloc, &mut states[0], workers)?;
    Ok(states)
}

pub(crate) fn single_ticks(state: &mut State, ticks: u64) -> Result<(), Fail> {
    for _ in 0..ticks {
        if state.now() < 1 << 42 {
            state.tick()?;
        }
    }
    Ok(())
}
