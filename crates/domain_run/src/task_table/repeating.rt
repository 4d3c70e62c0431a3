//! The listed tasks go on in time, each at its pace, without being asked: a period of a run is
//! given again.

ghost use Rattle.std.specs.Prelude.{◌≡◌, ◌≤◌, ◌<◌, All, IfSome, IsTrue, is_some, length, slice_index_or};
ghost use Rattle.task_script.specs.script.Later.{HasRounds};
ghost use Rattle.domain_run.specs.declared.task.Task.{Task};
ghost use Rattle.domain_run.specs.Jump.{asks_at};
ghost use Rattle.domain_run.specs.Later as later_spec;
ghost use Rattle.domain_run.specs.Shift.{paced_task, paced_all, MayGo, AllMayGo};
ghost use Rattle.domain_run.specs.LowTimes.{IsLowTime, HasTime};
ghost use Rattle.domain_run.specs.private.RunQueue as spec;
ghost use Rattle.domain_run.specs.private.Owed as waiting;
ghost use Rattle.domain_run.specs.private.Timers.{IsTimerStep};
ghost use Rattle.due_times.specs.OpenCharges as charges_spec;
ghost use Rattle.limits.specs.Limits.{clock_end};

use super::TaskTable;
use super::applying::settle;
use crate::pace::Pace;
use crate::run_queue::RunQueue;
use crate::status::status_of;
use crate::task::{Condition, Task};
use due_times::OpenCharges;
use slot_list::SlotList;

/// Times below this may go on by any number of microseconds of a domain.
const LOW_TIME: u64 = 1 << 48;

fn is_low(time: u64) -> bool
    ensures { IsTrue result → IsLowTime time }
{
    time < LOW_TIME
}

fn is_low_if_any(time: Option<u64>) -> bool
    ensures { IsTrue result → IfSome time IsLowTime }
{
    match time {
        None => true,
        Some(time) => is_low(time),
    }
}

fn asks_in_time(condition: Condition) -> bool
    ensures { IsTrue result → IfSome (asks_at condition) IsLowTime }
{
    match condition {
        Condition::Blocked(until) => is_low(until),
        _ => true,
    }
}

/// Whether all times of a task are low.
fn has_time(task: &Task) -> bool
    ensures { IsTrue result → HasTime task.now }
{
    is_low_if_any(task.server.deadline)
        && asks_in_time(task.condition)
        && is_low_if_any(task.zero_lag)
        && is_low(task.cursor.reference())
}

fn later(time: Option<u64>, micros: u64) -> Option<u64>
    requires time { IfSome time IsLowTime }
    requires micros { micros ≤ clock_end }
    ensures { result ≡ later_spec.later micros time }
{
    match time {
        None => None,
        Some(time) => Some(time + micros),
    }
}

fn later_condition(condition: Condition, micros: u64) -> Condition
    requires asks { IfSome (asks_at condition) IsLowTime }
    requires micros { micros ≤ clock_end }
    ensures { result ≡ later_spec.later_condition micros condition }
{
    match condition {
        Condition::Blocked(until) => Condition::Blocked(until + micros),
        Condition::Ready => Condition::Ready,
        Condition::Throttled => Condition::Throttled,
        Condition::Waiting => Condition::Waiting,
        Condition::Leaving => Condition::Leaving,
    }
}

/// Makes a task later by `micros` microseconds, by `rounds` rounds, and by `worked` of work done.
fn make_later(task: &mut Task, micros: u64, rounds: u64, worked: u64)
    requires time { HasTime task.old }
    requires micros { micros ≤ clock_end }
    requires rounds { 0 < rounds → HasRounds rounds task.old.cursor }
    ensures { task.new ≡ later_spec.later_task micros rounds worked task.old }
{
    task.condition = later_condition(task.condition, micros);
    task.work = task.work.saturating_sub(worked);
    task.zero_lag = later(task.zero_lag, micros);
    task.server.deadline = later(task.server.deadline, micros);
    task.cursor.go_on(rounds, micros);
}

/// A task goes on at a pace.
fn go_on(task: &mut Task, micros: u64, pace: Pace)
    requires time { HasTime task.old }
    requires micros { micros ≤ clock_end }
    requires may { MayGo pace task.old }
    ensures { task.new ≡ paced_task micros pace task.old }
{
    match pace {
        Pace::Rests => {}
        Pace::Plays(rounds) => make_later(task, micros, rounds, 0),
        Pace::Works(worked) => make_later(task, micros, 0, worked),
    }
}

/// A task goes on, as it is once it is charged, and closes its charge. Whether it had one.
fn go_on_one(
    task: &mut Task,
    queue: &mut RunQueue,
    charges: &mut OpenCharges,
    place: usize,
    micros: u64,
    pace: Pace,
) -> bool
    requires narrow { length queue.old.accounts.all ≤ 64 }
    requires micros { micros ≤ clock_end }
    requires waits { waiting.IsOpenIf charges.old.charges task.old }
    requires time { HasTime (waiting.owed charges.old.upto charges.old.charges task.old) }
    requires may { MayGo pace (waiting.owed charges.old.upto charges.old.charges task.old) }
    requires turns { spec.MayApply place
        (waiting.owed charges.old.upto charges.old.charges task.old).number
        (waiting.owed charges.old.upto charges.old.charges task.old).cpu queue.old
        (spec.status_of (waiting.owed charges.old.upto charges.old.charges task.old))
        (spec.status_of
        (paced_task micros pace (waiting.owed charges.old.upto charges.old.charges task.old))) }
    ensures task { task.new
        ≡ paced_task micros pace (waiting.owed charges.old.upto charges.old.charges task.old) }
    ensures turned { spec.IsApplied place
        (waiting.owed charges.old.upto charges.old.charges task.old).number
        (waiting.owed charges.old.upto charges.old.charges task.old).cpu
        (spec.status_of (waiting.owed charges.old.upto charges.old.charges task.old))
        (spec.status_of task.new) queue.old queue.new }
    ensures charges { charges.new ≡ record charges.old {
      charges = charges_spec.without_charge task.old.cpu task.old.number charges.old.charges;
    } }
    ensures was_started { result ≡ is_some (waiting.charge_of_task charges.old.charges task.old) }
{
    let was_started = settle(task, charges);
    let (number, cpu) = (task.number, task.cpu);
    let before = status_of(task);
    go_on(task, micros, pace);
    queue.apply(place, number, cpu, &before, &status_of(task));
    was_started
}

/// The task at a place of the list goes on. Whether it sat.
fn go_on_task(
    tasks: &mut SlotList<Task>,
    queue: &mut RunQueue,
    charges: &mut OpenCharges,
    place: usize,
    micros: u64,
    pace: Pace,
) -> bool
    requires narrow { length queue.old.accounts.all ≤ 64 }
    requires there { place < length tasks.old }
    requires micros { micros ≤ clock_end }
    requires waits { waiting.AreOpen charges.old.charges tasks.old }
    requires time { (d : Task)
        → HasTime (slice_index_or (waiting.owed_all charges.old tasks.old) place d) }
    requires may { (d : Task)
        → MayGo pace (slice_index_or (waiting.owed_all charges.old tasks.old) place d) }
    requires counted { spec.IsCounted (length queue.old.accounts.all) queue.old
        (waiting.owed_all charges.old tasks.old) }
    ensures step { IsTimerStep (paced_task micros pace) place
        (waiting.owed_all charges.old tasks.old)
        (waiting.owed_all charges.new tasks.new) }
    ensures counted { spec.IsCounted (length queue.old.accounts.all) queue.new
        (waiting.owed_all charges.new tasks.new) }
    ensures waits { waiting.AreOpen charges.new.charges tasks.new }
    ensures charges { (d : Task) → charges.new.charges
        ≡ waiting.charges_without (slice_index_or (waiting.owed_all charges.new tasks.new) place d)
        (waiting.charges_without (slice_index_or (waiting.owed_all charges.old tasks.old) place d)
        charges.old.charges) }
    ensures places { queue.new.schedule.places ≡ queue.old.schedule.places }
    ensures wide { length charges.new.charges ≡ length charges.old.charges }
    ensures was_started { (d : Task) → result
        ≡ is_some (waiting.charge_of_task charges.old.charges (slice_index_or tasks.old place d)) }
{
    go_on_one(tasks.at_mut(place), queue, charges, place, micros, pace)
}

impl TaskTable {
    /// Whether all times of all tasks may go on by any number of microseconds of a domain.
    pub(crate) fn has_time(&self) -> bool
        ensures { IsTrue result → All HasTime self.now.tasks }
    {
        for place in 0..self.tasks.len() {
            if !has_time(self.tasks.at(place)) {
                return false;
            }
        }
        true
    }

    /// The task at a place goes on at a pace.
    fn repeat_at(&mut self, place: usize, micros: u64, pace: Pace)
        requires there { place < length self.old.tasks }
        requires micros { micros ≤ clock_end }
        requires time { (d : Task) → HasTime (slice_index_or self.old.tasks place d) }
        requires may { (d : Task) → MayGo pace (slice_index_or self.old.tasks place d) }
        ensures cpus { self.new.cpus ≡ self.old.cpus }
        ensures step { IsTimerStep (paced_task micros pace) place self.old.tasks self.new.tasks }
        ensures places { self.new.places ≡ self.old.places }
    {
        // For the prover alone: a look at the open charges brings that there are at most 64.
        let _ = self.charges.len();
        let cpu = self.tasks.at(place).cpu;
        let was_started = go_on_task(
            &mut self.tasks,
            &mut self.queue,
            &mut self.charges,
            place,
            micros,
            pace,
        );
        self.stale.mark_left(cpu, was_started);
    }

    /// Each task goes on at the pace at its place.
    pub(crate) fn repeat(&mut self, micros: u64, paces: &[Pace])
        requires micros { micros ≤ clock_end }
        requires many { length paces.now ≡ length self.old.tasks }
        requires time { All HasTime self.old.tasks }
        requires may { AllMayGo paces.now self.old.tasks }
        ensures cpus { self.new.cpus ≡ self.old.cpus }
        ensures tasks { self.new.tasks ≡ paced_all micros paces.now self.old.tasks }
        ensures places { self.new.places ≡ self.old.places }
    {
        for place in 0..paces.len() {
            self.repeat_at(place, micros, paces[place]);
        }
    }
}
