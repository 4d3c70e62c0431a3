//! What a jump needs of the running tasks.

ghost use Rattle.std.specs.Prelude.{◌≡◌, ◌≤◌, ◌^◌, ◌<ℤ◌, ◌≤ℤ◌, pos};
ghost use Rattle.attr_check.specs.ParamsView.{IsOrdered};
ghost use Rattle.jump_run.specs.Plans as plans;

use attr_check::Params;
use domain_run::{Running, State};
use tick_split::Plan;

/// Room for what is gathered of the running tasks, by CPU: what is left of their budgets, their
/// rates, and what is left after the jump. It is made once for all jumps of an advance.
#[derive(Drop)]
pub(crate) struct Room {
    pub(crate) lefts: [u64; 64],
    pub(crate) rates: [u64; 64],
    pub(crate) budgets: [i128; 64],
}

impl Room {
    pub(crate) fn new() -> Room {
        Room {
            lefts: [0; 64],
            rates: [0; 64],
            budgets: [0; 64],
        }
    }
}

/// So many ticks of so many running tasks.
#[derive(Clone, Copy)]
pub(crate) struct Span {
    pub(crate) ticks: u64,
    pub(crate) count: usize,
}

/// A task's parameters, with the order that their type keeps.
fn ordered(params: &Params) -> Params
    ensures value { result ≡ params.now }
    ensures ordered { IsOrdered result }
{
    // For the prover alone: a look at a field brings what the type of parameters keeps.
    let _bw = params.bw;
    *params
}

/// The plan of a running task, which is to be worked out.
pub(crate) fn plan_of(state: &State, runner: &Running) -> Plan
    requires short { runner.now.uinact ≤ 2 ^ 26 }
    requires lifted { pos 0 <ℤ runner.now.left }
    requires high { runner.now.left ≤ℤ pos (2 ^ 52) }
    ensures value { result ≡ plans.plan_of state.now runner.now }
    ensures fit { plans.IsSoundPlan result }
{
    Plan {
        params: ordered(&runner.params),
        uinact: runner.uinact,
        sum: state.sum(),
        cpus: u64::from(state.cpus()),
        limit: state.limit(),
        left: runner.left,
        rate: 0,
        spent: 0,
    }
}
