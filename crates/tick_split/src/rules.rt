//! One element alone (sched-deadline.rst, "Bandwidth reclaiming").

ghost use Rattle.std.specs.Prelude.{◌≡◌};
ghost use Rattle.tick_split.specs.Planning.{IsPlannable, IsPlanned};
ghost use Rattle.tick_split.specs.Charging.{IsChargeable, charged_slice};
ghost use Rattle.tick_split.specs.private.Planned.{planned};

use crate::element::{Plan, Slice};
use cbs_rules::Server;

/// Sets the rate at which a running task uses its budget up, in 1/2^20, and the first tick, counted
/// from 1, after which nothing is left at that rate; the ranges of [`Plan`] are conditions. Takes
/// no memory and starts no thread.
pub fn plan(plan: &mut Plan)
    requires { IsPlannable plan.old }
    ensures { IsPlanned plan.old plan.new }
{
    work_out(plan);
}

/// As `plan`.
pub(crate) fn work_out(plan: &mut Plan)
    requires { IsPlannable plan.old }
    ensures { plan.new ≡ planned plan.old }
{
    let rate = grub_rules::rate(&plan.params, plan.uinact, plan.sum, plan.cpus, plan.limit);
    plan.rate = rate;
    plan.spent = (plan.left as u64).div_ceil(rate);
}

/// Lowers a running task's budget by its rate for each of its ticks, below zero too; the ranges of
/// [`Slice`] are conditions. Takes no memory and starts no thread.
pub fn charge(slice: &mut Slice)
    requires { IsChargeable slice.old }
    ensures { slice.new ≡ charged_slice slice.old }
{
    let server = Server {
        deadline: None,
        left: slice.left,
    };
    slice.left = cbs_rules::charge(server, slice.rate, slice.ticks).left;
}
