//! What happened and who was preempted, logged of all tasks at once.

ghost use Rattle.std.specs.Prelude.{ℕ, ◌≡◌, ◌-◌, ◌+◌, ◌≤◌, ◌^◌, nat_le, IfOk, All, map, length, take, vec_capacity};
ghost use Rattle.std.specs.List.{prefix_len};
ghost use Rattle.run_figures.specs.private.Logging as logging;

use crate::logged::{TaskTally, log_entry, preempted_by, unlogged};
use crate::places::Places;
use crate::run::Admitted;
use domain_run::{Happened, NoMemory, Switch};
use std::alloc::Global;

/// Tells one entry.
fn say(logged: &mut Vec<TaskTally>, places: &Places, happened: &Happened, time: u64)
    requires keyed { map (λ t. t.number) logged.old.items ≡ places.now }
    requires room { All (logging.IsLoggedWithin (2 ^ 64 - 2)) logged.old.items }
    ensures logged { logged.new.items
        ≡ map (λ t. logging.logged_to_task time t happened.now) logged.old.items }
    ensures within { (n : ℕ) → All (logging.IsLoggedWithin n) logged.old.items
        → All (logging.IsLoggedWithin (n + 1)) logged.new.items }
    ensures same_room { vec_capacity logged.new ≡ vec_capacity logged.old }
{
    if let Some(place) = places.find(happened.number) {
        log_entry(&mut logged[place], happened, time);
    }
}

/// Tells what happened up to a time, where the run ends at `end`, and answers how much that is.
pub(crate) fn log_until(
    logged: &mut Vec<TaskTally>,
    places: &Places,
    happened: &[Happened],
    time: u64,
    end: u64,
) -> usize
    requires keyed { map (λ t. t.number) logged.old.items ≡ places.now }
    requires room { logging.HaveRoomFor (length happened.now) logged.old.items }
    ensures logged { logged.new.items
        ≡ map (logging.logged_all end (take result happened.now)) logged.old.items }
    ensures count { result ≡ prefix_len (λ h. nat_le h.time time) happened.now }
    ensures within { (n : ℕ) → All (logging.IsLoggedWithin n) logged.old.items
        → All (logging.IsLoggedWithin (n + result)) logged.new.items }
    ensures same_room { vec_capacity logged.new ≡ vec_capacity logged.old }
{
    let mut count = 0;
    for entry in happened {
        if entry.time > time {
            return count;
        }
        say(logged, places, entry, end);
        count += 1;
    }
    count
}

/// Tells all of this.
pub(crate) fn log_all(logged: &mut Vec<TaskTally>, places: &Places, happened: &[Happened], end: u64)
    requires keyed { map (λ t. t.number) logged.old.items ≡ places.now }
    requires room { logging.HaveRoomFor (length happened.now) logged.old.items }
    ensures logged { logged.new.items ≡ map (logging.logged_all end happened.now) logged.old.items }
    ensures within { (n : ℕ) → All (logging.IsLoggedWithin n) logged.old.items
        → All (logging.IsLoggedWithin (n + length happened.now)) logged.new.items }
    ensures same_room { vec_capacity logged.new ≡ vec_capacity logged.old }
{
    for entry in happened {
        say(logged, places, entry, end);
    }
}

/// Tells a switch.
pub(crate) fn log_switch(logged: &mut Vec<TaskTally>, places: &Places, switch: &Switch)
    requires keyed { map (λ t. t.number) logged.old.items ≡ places.now }
    requires room { All (λ t. t.preempted ≤ 2 ^ 64 - 2) logged.old.items }
    ensures logged { logged.new.items ≡ map (logging.with_preemption switch.now) logged.old.items }
    ensures within { (n : ℕ) → All (logging.IsLoggedWithin n) logged.old.items
        → All (logging.IsLoggedWithin n) logged.new.items }
    ensures same_room { vec_capacity logged.new ≡ vec_capacity logged.old }
{
    let Some(number) = preempted_by(switch) else {
        return;
    };
    if let Some(place) = places.find(number) {
        let throttled = logged[place].throttle.since.is_some();
        if !throttled {
            logged[place].preempted += 1;
        }
    }
}

pub(crate) fn unlogged_all(alloc: Global, tasks: &[Admitted]) -> Result<Vec<TaskTally>, NoMemory>
    ensures { IfOk result (λ v. v.items ≡ map (λ t. logging.nothing_logged t.number) tasks.now) }
{
    match tasks
        .iter()
        .map(|task| unlogged(task.number))
        .collect(alloc)
    {
        Ok(logged) => Ok(logged),
        Err(_) => Err(NoMemory),
    }
}
