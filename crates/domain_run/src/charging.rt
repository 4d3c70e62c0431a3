//! What one tick takes of the budgets of the running tasks.

ghost use Rattle.std.specs.Prelude.{◌≡◌, ◌≤◌, ◌^◌, ◌<ℤ◌, ◌≤ℤ◌, ◌-ℤ◌, pos, take};
ghost use Rattle.domain_run.specs.Jump as jump;

use crate::running::Running;
use crate::state::State;

/// What one tick of running at a rate leaves of a budget.
fn left_after(runner: &Running, rate: u64) -> i128
    requires slow { rate ≤ 2 ^ 27 }
    requires lifted { pos 0 <ℤ runner.now.left }
    requires high { runner.now.left ≤ℤ pos (2 ^ 52) }
    ensures { result ≡ runner.now.left -ℤ pos rate }
{
    runner.left - i128::from(rate)
}

/// What one tick leaves of the budgets of the running tasks, by CPU, and how many these are.
pub(crate) fn charge(state: &State, budgets: &mut [i128; 64]) -> usize
    requires { jump.IsUnderWay state.now }
    ensures few { result ≤ 64 }
    ensures charged { jump.AreCharged state.now 1 (take result budgets.new) }
{
    for i in 0..64 {
        let Some(runner) = state.running(i) else {
            return i;
        };
        budgets[i] = left_after(&runner, state.rate(&runner));
    }
    64
}
