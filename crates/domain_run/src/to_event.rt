//! From the beginning of a tick to the next event, or to where an open charge ends: who runs is
//! charged only there.

ghost use Rattle.std.specs.Prelude.{ℕ, ◌≡◌, ◌<◌, ◌≤◌, ◌+◌, ◌-◌, All, length, map};
ghost use Rattle.attr_check.specs.Ratio.{cap};
ghost use Rattle.std.specs.List.{flat_map};
ghost use Rattle.domain_run.specs.Domain.{IsLimit};
ghost use Rattle.domain_run.specs.Happened.{in_order};
ghost use Rattle.domain_run.specs.Log.{HasRoomToEnd, HasLogged};
ghost use Rattle.domain_run.specs.Sound.{IsSound, HasNoTaskTwice};
ghost use Rattle.domain_run.specs.Tick.{sum_of};
ghost use Rattle.domain_run.specs.private.Expiring.{logged_leapt};
ghost use Rattle.domain_run.specs.private.TaskTable.{HasItsCharge, LastsIf, leapt};
ghost use Rattle.domain_run.specs.private.DeferringTimers.{with_lags, IsBare, leapt_bare};
ghost use Rattle.domain_run.specs.private.RunQueue.{AreHomed};
ghost use Rattle.domain_run.specs.private.Owed.{MayStartOn};
ghost use Rattle.limits.specs.Limits.{clock_end};

use crate::log::Log;
use crate::task_table::{Lags, TaskTable};
use cpu_marks::without;
use due_times::first_marked;

/// The task that runs on each CPU has an open charge there at its rate, and no other task has one.
/// A look at those alone that are stale.
#[inline(always)]
fn charge_all(task_table: &mut TaskTable, limit: u64)
    requires wide { length task_table.old.places ≡ task_table.old.cpus }
    requires cpus { (0 < task_table.old.cpus) × (task_table.old.cpus ≤ 64) }
    requires limit { IsLimit limit }
    requires within { sum_of task_table.old.tasks ≤ cap task_table.old.cpus limit }
    requires homes { All (λ t. t.cpu < task_table.old.cpus) task_table.old.tasks }
    requires may { MayStartOn task_table.old.places task_table.old.tasks }
    ensures cpus { task_table.new.cpus ≡ task_table.old.cpus }
    ensures places { task_table.new.places ≡ task_table.old.places }
    ensures clock { task_table.new.clock ≡ task_table.old.clock }
    ensures tasks { task_table.new.tasks ≡ task_table.old.tasks }
    ensures homed { AreHomed task_table.old.places task_table.old.tasks }
    ensures right { All (HasItsCharge task_table.old.places task_table.old.cpus limit
        task_table.old.tasks
        task_table.new.charges)
        task_table.new.tasks }
{
    let cpus = task_table.occupants().len();
    let mut left = task_table.stale_there(limit);
    let mut cpu = first_marked(left);
    while cpu < cpus {
        task_table.charge_rightly(cpu, limit);
        left = without(left, cpu);
        cpu = first_marked(left);
    }
}

/// Of at most so many ticks from the tick under way on as many as pass up to the first end of an
/// open charge, the last of them included: every task that runs on a CPU has run in each of them,
/// at its rate, and none ends its work or its budget before the last. `time` is the end of the tick
/// under way. The log records what the last of them ends.
pub(crate) fn leap(
    task_table: &mut TaskTable,
    limit: u64,
    most: u64,
    time: u64,
    log: &mut Log,
) -> u64
    requires wide { length task_table.old.places ≡ task_table.old.cpus }
    requires cpus { (0 < task_table.old.cpus) × (task_table.old.cpus ≤ 64) }
    requires limit { IsLimit limit }
    requires within { sum_of task_table.old.tasks ≤ cap task_table.old.cpus limit }
    requires homes { All (λ t. t.cpu < task_table.old.cpus) task_table.old.tasks }
    requires may { MayStartOn task_table.old.places task_table.old.tasks }
    requires apart { HasNoTaskTwice task_table.old.places }
    requires some { 0 < most }
    requires early { time + most ≤ clock_end + 1 }
    requires sound { All (IsSound time) task_table.old.tasks }
    requires room { HasRoomToEnd log.old }
    ensures cpus { task_table.new.cpus ≡ task_table.old.cpus }
    ensures places { task_table.new.places ≡ task_table.old.places }
    ensures some { 0 < result }
    ensures most { result ≤ most }
    ensures lasts { All (LastsIf result task_table.old.places task_table.old.cpus limit
        task_table.old.tasks)
        task_table.old.tasks }
    ensures tasks { task_table.new.tasks ≡ map
        (leapt (time + (result - 1)) result task_table.old.places task_table.old.cpus limit
        task_table.old.tasks)
        task_table.old.tasks }
    ensures sound { All (IsSound (time + (result - 1))) task_table.new.tasks }
    ensures logged { HasLogged log.old (in_order (flat_map
        (logged_leapt (time + (result - 1)) result task_table.old.places task_table.old.cpus limit
        task_table.old.tasks)
        task_table.old.tasks)) log.new }
{
    task_table.wind_back();
    charge_all(task_table, limit);
    let ticks = task_table.ticks_to_end(most);
    task_table.pass(ticks, time + (ticks - 1), log);
    ticks
}

/// As `leap`; the zero-lag times with which tasks stop are deferred. With those that were deferred,
/// whichever have come by then, each task goes the same way.
pub(crate) fn leap_deferring(
    task_table: &mut TaskTable,
    limit: u64,
    most: u64,
    time: u64,
    lags: &mut Lags,
    log: &mut Log,
) -> u64
    requires wide { length task_table.old.places ≡ task_table.old.cpus }
    requires cpus { (0 < task_table.old.cpus) × (task_table.old.cpus ≤ 64) }
    requires limit { IsLimit limit }
    requires within { sum_of task_table.old.tasks ≤ cap task_table.old.cpus limit }
    requires homes { All (λ t. t.cpu < task_table.old.cpus) task_table.old.tasks }
    requires may { MayStartOn task_table.old.places task_table.old.tasks }
    requires apart { HasNoTaskTwice task_table.old.places }
    requires some { 0 < most }
    requires early { time + most ≤ clock_end + 1 }
    requires sound { All (IsSound time) task_table.old.tasks }
    requires bare { All IsBare task_table.old.tasks }
    requires room { HasRoomToEnd log.old }
    ensures cpus { task_table.new.cpus ≡ task_table.old.cpus }
    ensures places { task_table.new.places ≡ task_table.old.places }
    ensures some { 0 < result }
    ensures most { result ≤ most }
    ensures lasts { All (LastsIf result task_table.old.places task_table.old.cpus limit
        task_table.old.tasks)
        task_table.old.tasks }
    ensures tasks { task_table.new.tasks ≡ map
        (leapt_bare (time + (result - 1)) result task_table.old.places task_table.old.cpus limit
        task_table.old.tasks)
        task_table.old.tasks }
    ensures lags { (past : ℕ) → past ≤ time + (result - 1)
        → with_lags past lags.new task_table.new.tasks ≡ map
        (leapt (time + (result - 1)) result task_table.old.places task_table.old.cpus limit
        task_table.old.tasks)
        (with_lags past lags.old task_table.old.tasks) }
    ensures sound { All (IsSound (time + (result - 1))) task_table.new.tasks }
    ensures logged { HasLogged log.old (in_order (flat_map
        (logged_leapt (time + (result - 1)) result task_table.old.places task_table.old.cpus limit
        task_table.old.tasks)
        task_table.old.tasks)) log.new }
{
    task_table.wind_back();
    charge_all(task_table, limit);
    let ticks = task_table.ticks_to_end(most);
    task_table.pass_deferring(ticks, time + (ticks - 1), lags, log);
    ticks
}
