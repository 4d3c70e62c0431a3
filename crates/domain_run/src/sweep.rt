//! The parts of a tick, on all tasks of a domain.

ghost use Rattle.std.specs.Prelude.{◌≡◌, ◌≢◌, ◌<◌, ◌≤◌, ◌^◌, ◌+◌, ◌*◌, map, All, AllPairs, ◌++◌, ◌∷◌, [], false, None, length, slice_index_or, vec_len, vec_capacity};
ghost use Rattle.std.specs.List.{flat_map};
ghost use Rattle.attr_check.specs.Ratio.{cap};
ghost use Rattle.domain_run.specs.declared.task.Task.{Task};
ghost use Rattle.domain_run.specs.Calls.{of_number};
ghost use Rattle.domain_run.specs.Domain.{IsLimit};
ghost use Rattle.domain_run.specs.Log.{LogHasRoom, HasLogged};
ghost use Rattle.domain_run.specs.Parts as parts_spec;
ghost use Rattle.edf_pick.specs.Places as places_spec;
ghost use Rattle.domain_run.specs.Sound.{IsSound, HasNoTaskTwice};
ghost use Rattle.domain_run.specs.Switches as switches_spec;
ghost use Rattle.domain_run.specs.Tick as tick_spec;
ghost use Rattle.domain_run.specs.private.Paying.{MayPayIf, paid};
ghost use Rattle.domain_run.specs.private.Choosing as choosing_spec;
ghost use Rattle.domain_run.specs.private.TaskTable.{task_after, IsWoken, Fits, MayMake};
ghost use Rattle.domain_run.specs.private.Timers.{IsTimerStep};
ghost use Rattle.domain_run.specs.private.Owed.{charge_of_task};
ghost use Rattle.domain_run.specs.private.TransitionLog as transition_log_spec;
ghost use Rattle.limits.specs.Limits.{clock_end, deadline_end};

use crate::log::Log;
use crate::switch::{Switch, switch_of};
use crate::task_table::{Moment, TaskTable};
use crate::transition::Transition;
use crate::transition_log::{self, Before};
use edf_pick::Moved;

/// Changes the task at a place, which has no open charge, and logs what happens by it.
#[inline(never)]
fn log_applied(
    task_table: &mut TaskTable,
    place: usize,
    time: u64,
    transition: &Transition,
    log: &mut Log,
)
    requires there { place < length task_table.old.tasks }
    requires free { (d : Task)
        → charge_of_task task_table.old.charges (slice_index_or task_table.old.tasks place d)
        ≡ None }
    requires early { time < 2 ^ 43 }
    requires narrow { task_table.old.cpus ≤ 64 }
    requires fits { Fits task_table.old.cpus transition.now }
    requires sound { All (IsSound time) task_table.old.tasks }
    requires may { (d : Task) → MayMake time transition.now
        (slice_index_or task_table.old.tasks place d) }
    requires room { LogHasRoom 3 log.old }
    ensures cpus { task_table.new.cpus ≡ task_table.old.cpus }
    ensures places { task_table.new.places ≡ task_table.old.places }
    ensures step { IsTimerStep (task_after time transition.now) place task_table.old.tasks
        task_table.new.tasks }
    ensures sound { All (IsSound time) task_table.new.tasks }
    ensures logged { (d : Task) → HasLogged log.old
        (transition_log_spec.logged_by_transition time transition.now
        (slice_index_or task_table.old.tasks place d))
        log.new }
    ensures room { log.old.room ≤ log.new.room + 3 }
{
    let before = transition_log::look(task_table.at(place), time, transition);
    task_table.apply(place, time, transition);
    let logged = transition_log::seen_later(time, transition, before, task_table.at(place));
    log.push_all(logged);
}

/// Changes the task at a place, and logs what happens by it.
#[inline(always)]
fn apply(
    task_table: &mut TaskTable,
    place: usize,
    time: u64,
    transition: &Transition,
    log: &mut Log,
)
    requires there { place < length task_table.old.tasks }
    requires early { time < 2 ^ 43 }
    requires narrow { task_table.old.cpus ≤ 64 }
    requires fits { Fits task_table.old.cpus transition.now }
    requires sound { All (IsSound time) task_table.old.tasks }
    requires may { (d : Task) → MayMake time transition.now
        (slice_index_or task_table.old.tasks place d) }
    requires room { LogHasRoom 3 log.old }
    ensures cpus { task_table.new.cpus ≡ task_table.old.cpus }
    ensures places { task_table.new.places ≡ task_table.old.places }
    ensures step { IsTimerStep (task_after time transition.now) place task_table.old.tasks
        task_table.new.tasks }
    ensures sound { All (IsSound time) task_table.new.tasks }
    ensures logged { (d : Task) → HasLogged log.old
        (transition_log_spec.logged_by_transition time transition.now
        (slice_index_or task_table.old.tasks place d))
        log.new }
    ensures room { log.old.room ≤ log.new.room + 3 }
{
    if !log.is_wanted() {
        task_table.apply(place, time, transition);
        return;
    }
    // It is charged what it owes before it is looked at.
    let cpu = task_table.cpu_at(place);
    task_table.leave_free(cpu);
    let task = task_table.at(place);
    if transition_log::logs_nothing(task, transition) {
        task_table.apply_charged(place, time, transition);
        return;
    }
    log_applied(task_table, place, time, transition, log);
}

/// Changes the task of a number, where it is listed, and logs it.
#[inline(always)]
fn apply_number(
    task_table: &mut TaskTable,
    number: u32,
    time: u64,
    transition: &Transition,
    log: &mut Log,
)
    requires early { time < 2 ^ 43 }
    requires narrow { task_table.old.cpus ≤ 64 }
    requires fits { Fits task_table.old.cpus transition.now }
    requires sound { All (IsSound time) task_table.old.tasks }
    requires may { All (λ t. t.number ≡ number → MayMake time transition.now t)
        task_table.old.tasks }
    requires room { LogHasRoom 3 log.old }
    ensures cpus { task_table.new.cpus ≡ task_table.old.cpus }
    ensures places { task_table.new.places ≡ task_table.old.places }
    ensures tasks { task_table.new.tasks
        ≡ map (of_number number (task_after time transition.now)) task_table.old.tasks }
    ensures sound { All (IsSound time) task_table.new.tasks }
    ensures logged { HasLogged log.old
        (flat_map (transition_log_spec.logged_of_number number
        (transition_log_spec.logged_by_transition time transition.now))
        task_table.old.tasks) log.new }
    ensures room { log.old.room ≤ log.new.room + 3 }
{
    if let Some(place) = task_table.place(number) {
        apply(task_table, place, time, transition, log);
    }
}

/// Part 1 or 3 of the task at a place, and the log records what happens by it. Neither changes a
/// task with an open charge, so it is looked at as it is stored.
#[inline(never)]
fn log_part(
    task_table: &mut TaskTable,
    place: usize,
    time: u64,
    transition: &Transition,
    log: &mut Log,
)
    requires there { place < length task_table.old.tasks }
    requires early { time < 2 ^ 43 }
    requires narrow { task_table.old.cpus ≤ 64 }
    requires fits { Fits task_table.old.cpus transition.now }
    requires sound { All (IsSound time) task_table.old.tasks }
    requires may { (d : Task) → MayMake time transition.now
        (slice_index_or task_table.old.tasks place d) }
    requires part { (t : Task) → transition_log_spec.is_late_in time transition.now t ≡ false }
    requires room { LogHasRoom 3 log.old }
    ensures cpus { task_table.new.cpus ≡ task_table.old.cpus }
    ensures places { task_table.new.places ≡ task_table.old.places }
    ensures step { IsTimerStep (task_after time transition.now) place task_table.old.tasks
        task_table.new.tasks }
    ensures sound { All (IsSound time) task_table.new.tasks }
    ensures logged { (d : Task) → HasLogged log.old
        (transition_log_spec.logged_by_transition time transition.now
        (slice_index_or task_table.old.tasks place d))
        log.new }
    ensures room { log.old.room ≤ log.new.room + 3 }
{
    let before = Before {
        condition: task_table.condition_at(place),
        is_late: false,
    };
    task_table.apply(place, time, transition);
    let logged = transition_log::seen_later(time, transition, before, task_table.seen_at(place));
    log.push_all(logged);
}

/// Part 1 or 3 of the task at a place. The log records what happens by it.
#[inline(always)]
fn apply_part(
    task_table: &mut TaskTable,
    place: usize,
    time: u64,
    transition: &Transition,
    log: &mut Log,
)
    requires there { place < length task_table.old.tasks }
    requires early { time < 2 ^ 43 }
    requires narrow { task_table.old.cpus ≤ 64 }
    requires fits { Fits task_table.old.cpus transition.now }
    requires sound { All (IsSound time) task_table.old.tasks }
    requires may { (d : Task) → MayMake time transition.now
        (slice_index_or task_table.old.tasks place d) }
    requires part { (t : Task) → transition_log_spec.is_late_in time transition.now t ≡ false }
    requires room { LogHasRoom 3 log.old }
    ensures cpus { task_table.new.cpus ≡ task_table.old.cpus }
    ensures places { task_table.new.places ≡ task_table.old.places }
    ensures step { IsTimerStep (task_after time transition.now) place task_table.old.tasks
        task_table.new.tasks }
    ensures sound { All (IsSound time) task_table.new.tasks }
    ensures logged { (d : Task) → HasLogged log.old
        (transition_log_spec.logged_by_transition time transition.now
        (slice_index_or task_table.old.tasks place d))
        log.new }
    ensures room { log.old.room ≤ log.new.room + 3 }
{
    if !log.is_wanted() {
        task_table.apply(place, time, transition);
        return;
    }
    if !transition_log::may_log(task_table.condition_at(place), time, transition) {
        task_table.apply(place, time, transition);
        return;
    }
    log_part(task_table, place, time, transition, log);
}

/// Parts 1 to 3 of the task at a place, which the log records. Where it goes on then: after the
/// task, or there, where that has left.
#[inline(always)]
fn wake_at(task_table: &mut TaskTable, place: usize, time: u64, log: &mut Log) -> usize
    requires there { place < length task_table.old.tasks }
    requires few { place < 256 }
    requires early { time < clock_end }
    requires narrow { task_table.old.cpus ≤ 64 }
    requires sound { All (IsSound time) task_table.old.tasks }
    requires room { LogHasRoom 6 log.old }
    ensures cpus { task_table.new.cpus ≡ task_table.old.cpus }
    ensures places { task_table.new.places ≡ task_table.old.places }
    ensures woken { IsWoken time place task_table.old.tasks task_table.new.tasks result }
    ensures sound { All (IsSound time) task_table.new.tasks }
    ensures logged { (d : Task) → HasLogged log.old
        (transition_log_spec.logged_of_task time (slice_index_or task_table.old.tasks place d))
        log.new }
    ensures room { log.old.room ≤ log.new.room + 6 }
{
    apply_part(task_table, place, time, &Transition::Replenish, log);
    task_table.apply(place, time, &Transition::Settle);
    if let Some(number) = task_table.left_at(place) {
        task_table.take_off(number, time);
        return place;
    }
    apply_part(task_table, place, time, &Transition::Unblock, log);
    place + 1
}

/// Parts 1 to 3, which the log records, in one walk. It goes from one task that is due to the next.
#[inline(always)]
fn wake_due(task_table: &mut TaskTable, time: u64, log: &mut Log)
    requires early { time < clock_end }
    requires narrow { task_table.old.cpus ≤ 64 }
    requires sound { All (IsSound time) task_table.old.tasks }
    requires room { LogHasRoom (9 * length task_table.old.tasks) log.old }
    ensures cpus { task_table.new.cpus ≡ task_table.old.cpus }
    ensures places { task_table.new.places ≡ task_table.old.places }
    ensures tasks { task_table.new.tasks ≡ tick_spec.prepared time task_table.old.tasks }
    ensures sound { All (IsSound time) task_table.new.tasks }
    ensures logged { HasLogged log.old
        (flat_map (transition_log_spec.logged_of_task time) task_table.old.tasks) log.new }
    ensures room { log.old.room ≤ log.new.room + 9 * length task_table.old.tasks }
{
    let mut place = task_table.next_due(0, time);
    while place < task_table.len() {
        let next = wake_at(task_table, place, time, log);
        place = task_table.next_due(next, time);
    }
}

/// Parts 1 to 3 of the task at a place, without a log. Where it goes on then: after the task, or
/// there, where that has left.
#[inline(always)]
fn wake_silently_at(task_table: &mut TaskTable, place: usize, time: u64) -> usize
    requires there { place < length task_table.old.tasks }
    requires few { place < 256 }
    requires early { time < clock_end }
    requires sound { All (IsSound time) task_table.old.tasks }
    ensures cpus { task_table.new.cpus ≡ task_table.old.cpus }
    ensures places { task_table.new.places ≡ task_table.old.places }
    ensures woken { IsWoken time place task_table.old.tasks task_table.new.tasks result }
    ensures sound { All (IsSound time) task_table.new.tasks }
{
    task_table.apply(place, time, &Transition::Replenish);
    task_table.apply(place, time, &Transition::Settle);
    if let Some(number) = task_table.left_at(place) {
        task_table.take_off(number, time);
        return place;
    }
    task_table.apply(place, time, &Transition::Unblock);
    place + 1
}

/// Parts 1 to 3, without a log, in one walk. It goes from one task that is due to the next.
#[inline(always)]
fn wake_silently(task_table: &mut TaskTable, time: u64)
    requires early { time < clock_end }
    requires sound { All (IsSound time) task_table.old.tasks }
    ensures cpus { task_table.new.cpus ≡ task_table.old.cpus }
    ensures places { task_table.new.places ≡ task_table.old.places }
    ensures tasks { task_table.new.tasks ≡ tick_spec.prepared time task_table.old.tasks }
    ensures sound { All (IsSound time) task_table.new.tasks }
{
    let mut place = task_table.next_due(0, time);
    while place < task_table.len() {
        let next = wake_silently_at(task_table, place, time);
        place = task_table.next_due(next, time);
    }
}

/// Parts 1 to 3, which the log records, task by task. Mostly no task is due, and then they have
/// nothing to do.
#[inline(always)]
fn wake_all(task_table: &mut TaskTable, time: u64, log: &mut Log)
    requires early { time < clock_end }
    requires narrow { task_table.old.cpus ≤ 64 }
    requires sound { All (IsSound time) task_table.old.tasks }
    requires room { LogHasRoom (9 * length task_table.old.tasks) log.old }
    ensures cpus { task_table.new.cpus ≡ task_table.old.cpus }
    ensures places { task_table.new.places ≡ task_table.old.places }
    ensures tasks { task_table.new.tasks ≡ tick_spec.prepared time task_table.old.tasks }
    ensures sound { All (IsSound time) task_table.new.tasks }
    ensures logged { HasLogged log.old
        (flat_map (transition_log_spec.logged_of_task time) task_table.old.tasks) log.new }
    ensures room { log.old.room ≤ log.new.room + 9 * length task_table.old.tasks }
{
    if !task_table.may_be_due(time) {
        return;
    }
    if log.is_wanted() {
        wake_due(task_table, time, log);
    } else {
        wake_silently(task_table, time);
    }
}

/// Part 5 on a CPU that another one has: a switch is added.
#[inline(always)]
fn add_switch(switches: &mut Vec<Switch>, time: u64, task_table: &TaskTable, moved: &Moved)
    requires early { time < deadline_end }
    requires narrow { moved.now.cpu < 256 }
    requires room { vec_len switches.old < vec_capacity switches.old }
    ensures switches { switches.new.items ≡ switches.old.items
        ++ choosing_spec.switch_made time task_table.now.tasks task_table.now.places moved.now ∷
        [] }
    ensures len { vec_len switches.new ≡ vec_len switches.old + 1 }
    ensures room { vec_capacity switches.new ≡ vec_capacity switches.old }
{
    let next = task_table.occupant(moved.cpu);
    let state = task_table.state_of(moved.before);
    switches.push_reserved(switch_of(time, *moved, next, state));
}

/// Part 5: there is a switch for each CPU that the last choice gave to another one.
#[inline(always)]
fn add_switches(switches: &mut Vec<Switch>, time: u64, task_table: &TaskTable)
    requires early { time < deadline_end }
    requires narrow { choosing_spec.AreWithin 64 task_table.now.moves }
    requires room { vec_len switches.old + length task_table.now.moves ≤ vec_capacity switches.old }
    ensures switches { switches.new.items ≡ switches.old.items
        ++ map (choosing_spec.switch_made time task_table.now.tasks task_table.now.places)
        task_table.now.moves }
    ensures room { vec_capacity switches.new ≡ vec_capacity switches.old }
{
    let moves = task_table.moves();
    for i in 0..moves.len() {
        add_switch(switches, time, task_table, &moves[i]);
    }
}

/// Parts 1 to 5: replenishment, zero-lag times, wake-ups, placement and the switches. The log
/// records what happens to the tasks, on the CPUs to which they belong then. Whether a CPU may have
/// another occupant.
#[inline(always)]
pub(crate) fn begin(
    time: u64,
    task_table: &mut TaskTable,
    switches: &mut Vec<Switch>,
    log: &mut Log,
) -> bool
    requires narrow { task_table.old.cpus ≤ 64 }
    requires log { LogHasRoom (9 * length task_table.old.tasks) log.old }
    requires early { time < clock_end }
    requires sound { All (IsSound time) task_table.old.tasks }
    requires cpus { length task_table.old.places ≡ task_table.old.cpus }
    requires apart { HasNoTaskTwice task_table.old.places }
    requires numbered { AllPairs (λ a b. a.number ≢ b.number) task_table.old.tasks }
    requires room { vec_len switches.old + length task_table.old.places
        ≤ vec_capacity switches.old }
    ensures cpus { task_table.new.cpus ≡ task_table.old.cpus }
    ensures tasks { task_table.new.tasks
        ≡ map (parts_spec.with_last_cpu task_table.new.places)
        (tick_spec.prepared time task_table.old.tasks) }
    ensures prepared { All (IsSound time) (tick_spec.prepared time task_table.old.tasks) }
    ensures places { task_table.new.places ≡ places_spec.placed (length task_table.old.places)
        (tick_spec.candidates (tick_spec.prepared time task_table.old.tasks))
        task_table.old.places }
    ensures switches { switches.new.items ≡ switches.old.items
        ++ switches_spec.switches_from time
        (tick_spec.prepared time task_table.old.tasks) 0 task_table.old.places
        task_table.new.places }
    ensures room { vec_capacity switches.new ≡ vec_capacity switches.old }
    ensures none { result ≡ false → task_table.new.places ≡ task_table.old.places }
    ensures logged { HasLogged log.old (transition_log_spec.logged_at_home task_table.new.places
        time task_table.old.tasks)
        log.new }
    ensures log { log.old.room ≤ log.new.room + 9 * length task_table.old.tasks }
{
    let from = log.len();
    wake_all(task_table, time, log);
    task_table.choose();
    add_switches(switches, time, task_table);
    log.go_home(from, task_table.occupants(), task_table);
    !task_table.moves().is_empty()
}

/// As `begin`: who starts on a CPU gets an open charge at once.
#[inline(always)]
pub(crate) fn begin_charging(
    time: u64,
    limit: u64,
    task_table: &mut TaskTable,
    switches: &mut Vec<Switch>,
    log: &mut Log,
) -> bool
    requires narrow { (0 < task_table.old.cpus) × (task_table.old.cpus ≤ 64) }
    requires log { LogHasRoom (9 * length task_table.old.tasks) log.old }
    requires numbered { AllPairs (λ a b. a.number ≢ b.number) task_table.old.tasks }
    requires limit { IsLimit limit }
    requires within { tick_spec.sum_of (tick_spec.prepared time task_table.old.tasks)
        ≤ cap task_table.old.cpus limit }
    requires early { time < clock_end }
    requires sound { All (IsSound time) task_table.old.tasks }
    requires cpus { length task_table.old.places ≡ task_table.old.cpus }
    requires apart { HasNoTaskTwice task_table.old.places }
    requires room { vec_len switches.old + length task_table.old.places
        ≤ vec_capacity switches.old }
    ensures cpus { task_table.new.cpus ≡ task_table.old.cpus }
    ensures tasks { task_table.new.tasks
        ≡ map (parts_spec.with_last_cpu task_table.new.places)
        (tick_spec.prepared time task_table.old.tasks) }
    ensures prepared { All (IsSound time) (tick_spec.prepared time task_table.old.tasks) }
    ensures places { task_table.new.places ≡ places_spec.placed (length task_table.old.places)
        (tick_spec.candidates (tick_spec.prepared time task_table.old.tasks))
        task_table.old.places }
    ensures switches { switches.new.items ≡ switches.old.items
        ++ switches_spec.switches_from time
        (tick_spec.prepared time task_table.old.tasks) 0 task_table.old.places
        task_table.new.places }
    ensures room { vec_capacity switches.new ≡ vec_capacity switches.old }
    ensures none { result ≡ false → task_table.new.places ≡ task_table.old.places }
    ensures logged { HasLogged log.old (transition_log_spec.logged_at_home task_table.new.places
        time task_table.old.tasks)
        log.new }
    ensures log { log.old.room ≤ log.new.room + 9 * length task_table.old.tasks }
{
    let from = log.len();
    wake_all(task_table, time, log);
    task_table.choose_charging(Moment { time, limit }, switches);
    log.go_home(from, task_table.occupants(), task_table);
    let is_same = task_table.moves().is_empty();
    !is_same
}

/// Part 6 of so many ticks at once, up to a time: every running task has its budget, and its work
/// has fallen. The log records what happens to them.
pub(crate) fn pay_all(
    task_table: &mut TaskTable,
    running: &[u32],
    budgets: &[i128],
    ticks: u64,
    time: u64,
    log: &mut Log,
)
    requires early { time < 2 ^ 43 }
    requires narrow { task_table.old.cpus ≤ 64 }
    requires numbered { AllPairs (λ a b. a.number ≢ b.number) task_table.old.tasks }
    requires apart { AllPairs (λ m n. m ≢ n) running.now }
    requires many { length budgets.now ≡ length running.now }
    requires sound { All (IsSound time) task_table.old.tasks }
    requires may { All (MayPayIf running.now ticks budgets.now) task_table.old.tasks }
    requires room { LogHasRoom (3 * length running.now) log.old }
    ensures cpus { task_table.new.cpus ≡ task_table.old.cpus }
    ensures places { task_table.new.places ≡ task_table.old.places }
    ensures tasks { task_table.new.tasks
        ≡ map (paid time running.now ticks budgets.now) task_table.old.tasks }
    ensures sound { All (IsSound time) task_table.new.tasks }
    ensures logged { HasLogged log.old (transition_log_spec.logged_in_pay time running.now ticks
        budgets.now
        task_table.old.tasks) log.new }
{
    let from = log.len();
    for i in 0..running.len() {
        let left = budgets[i];
        apply_number(
            task_table,
            running[i],
            time,
            &Transition::Run { ticks, left },
            log,
        );
    }
    log.put_in_order(from);
}
