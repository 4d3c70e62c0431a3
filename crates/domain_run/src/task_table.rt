//! The listed tasks of a domain, with what is kept of them beside their list: the run queue, and
//! where each number is, and the open charge of each CPU. A task of the list changes at one place,
//! [`TaskTable::apply`], which updates the run queue.
//!
//! A task with an open charge is not charged tick by tick. What callers see is the list with each
//! task charged up to now, whatever is still owed in it.

ghost use Rattle.std.specs.Prelude.{◌≡◌, ◌≢◌, ◌==◌, ◌<◌, ◌≤◌, ◌^◌, ◌+◌, ◌-◌, ◌&&◌, ◌++◌, ◌∷◌, [], not, min, All, AllPairs, IfOk, IfSome, IfNone, true, false, find, map, filter, length, option_map, None, Some, replicate, slice_get, slice_index_or, vec_capacity, vec_len};
ghost use Rattle.attr_check.specs.Ratio.{cap};
ghost use Rattle.domain_run.specs.declared.task.Task.{Task};
ghost use Rattle.domain_run.specs.Conditions.{is_ready, is_leaving};
ghost use Rattle.domain_run.specs.Domain.{IsLimit};
ghost use Rattle.domain_run.specs.Parts.{is_listed, with_last_cpu};
ghost use Rattle.domain_run.specs.Sound.{IsSound, HasNoTaskTwice};
ghost use Rattle.domain_run.specs.Switches.{prev_state_of};
ghost use Rattle.domain_run.specs.Tick as tick;
ghost use Rattle.domain_run.specs.Calls.{of_number, is_other};
ghost use Rattle.domain_run.specs.private.Choosing.{switch_made};
ghost use Rattle.domain_run.specs.private.Index.{IsListedAt, IsUnlisted};
ghost use Rattle.domain_run.specs.Views.{view_of};
ghost use Rattle.domain_run.specs.private.TaskTable.{task_after, deferred_lag, MayMake, Fits, HasLeft, IsSeenAs, runner_in};
ghost use Rattle.domain_run.specs.Log.{LogHasRoom, HasLogged};
ghost use Rattle.domain_run.specs.Marks.{IsTaskSeen};
ghost use Rattle.domain_run.specs.private.RunQueue.{AreHomed};
ghost use Rattle.domain_run.specs.private.TransitionLog.{logged_by_transition};
ghost use Rattle.domain_run.specs.private.Owed.{charge_of_task, MayStartIfReady};
ghost use Rattle.due_times.specs.Timers.{least};
ghost use Rattle.domain_run.specs.private.Timers.{IsTimerStep, AreNotDue, due_of};
ghost use Rattle.edf_pick.specs.Moves.{moved_from};
ghost use Rattle.edf_pick.specs.Places.{placed};
ghost use Rattle.grub_rules.specs.Sums as sums;
ghost use Rattle.limits.specs.Limits.{clock_end, deadline_end};

mod applying;
mod choosing;
mod deferring_timers;
mod extending;
mod lending;
mod listing;
mod open_charging;
mod passing;
mod rating;
mod repeating;
mod starting;

use crate::index::Index;
use crate::log::Log;
use crate::mark::TaskSeen;
use crate::run_queue::RunQueue;
use crate::running::Running;
use crate::switch::{PrevState, Switch};
use crate::task::{Condition, Task, TaskView};
use crate::transition::{self, Transition};
use crate::{parts, transition_log};
pub(crate) use deferring_timers::Lags;
use due_times::{OpenCharges, StaleCharges};
use edf_pick::Moved;
use no_memory::NoMemory;
use slot_list::SlotList;
pub(crate) use starting::Moment;
use std::alloc::Global;
use std::marker::Model;

/// The listed tasks of a domain in the order of their admission, at most 256.
#[derive(Drop)]
pub(crate) struct TaskTable {
    // Tasks with an open charge have not been charged since their open charge says.
    tasks: SlotList<Task>,
    charges: OpenCharges,
    // The running sums of the listed tasks, the ready ones in order, and when each is due.
    queue: RunQueue,
    // Where the tasks of the list are, by their numbers.
    index: Index,
    // Of which CPUs it is not known that the running task has the right open charge there.
    stale: StaleCharges,
}

impl Model for TaskTable {
    ghost use Rattle.std.specs.Prelude.{length};
    ghost use Rattle.domain_run.specs.private.TaskTable.{TaskTableView, IsKept};
    ghost use Rattle.domain_run.specs.private.Owed.{owed_all};

    ghost Value = { TaskTableView };

    ghost view = { λ r. record {
      cpus = length r.queue.accounts.all;
      clock = r.charges.upto;
      charges = r.charges.charges;
      places = r.queue.schedule.places;
      moves = r.queue.schedule.moves;
      tasks = owed_all r.charges r.tasks;
    } };

    ghost invariant = { λ r. IsKept r.queue r.charges r.tasks r.stale };
}

impl TaskTable {
    /// Of no tasks, with room for 256. No other call takes memory.
    pub(crate) fn open(alloc: Global, cpus: usize) -> Result<TaskTable, NoMemory>
        requires some { 0 < cpus }
        requires few { cpus ≤ 64 }
        ensures { IfOk result (λ task_table. task_table ≡ record {
          cpus = cpus;
          clock = 0;
          charges = replicate cpus None;
          places = replicate cpus None;
          moves = [];
          tasks = [];
        }) }
    {
        // For the prover alone: matched, and not handed on by `?`; and what is let go of is dropped
        // by calls, and not field by field.
        let Ok(index) = Index::open(alloc) else {
            return Err(NoMemory);
        };
        let Ok(charges) = OpenCharges::open(alloc, cpus) else {
            drop(index);
            return Err(NoMemory);
        };
        let Ok(tasks) = SlotList::open(alloc) else {
            drop(charges);
            drop(index);
            return Err(NoMemory);
        };
        let Ok(queue) = RunQueue::open(alloc, cpus) else {
            drop(tasks);
            drop(charges);
            drop(index);
            return Err(NoMemory);
        };
        Ok(TaskTable {
            tasks,
            charges,
            queue,
            index,
            stale: StaleCharges::all(),
        })
    }

    /// The number of the task at a place of the list; none past its end.
    pub(crate) fn number_at(&self, place: usize) -> Option<u32>
        ensures { result ≡ option_map (λ t. t.number) (slice_get self.now.tasks place) }
    {
        if place < self.tasks.len() {
            return Some(self.tasks.at(place).number);
        }
        None
    }

    /// How many they are.
    pub(crate) fn len(&self) -> usize
        ensures len { result ≡ length self.now.tasks }
        ensures few { result ≤ 256 }
    {
        self.tasks.len()
    }

    /// The CPU to which the task at a place belongs.
    pub(crate) fn cpu_at(&self, place: usize) -> usize
        requires { place < length self.now.tasks }
        ensures cpu { (d : Task) → result ≡ (slice_index_or self.now.tasks place d).cpu }
        ensures home { result < self.now.cpus }
    {
        self.tasks.at(place).cpu
    }

    /// The task at a place, if it has no open charge. It belongs to a CPU of the domain.
    pub(crate) fn at(&self, place: usize) -> &Task
        requires there { place < length self.now.tasks }
        requires free { (d : Task)
            → charge_of_task self.now.charges (slice_index_or self.now.tasks place d) ≡ None }
        ensures task { (d : Task) → result.now ≡ slice_index_or self.now.tasks place d }
        ensures home { result.now.cpu < self.now.cpus }
    {
        self.tasks.at(place)
    }

    /// The condition of the task at a place.
    pub(crate) fn condition_at(&self, place: usize) -> Condition
        requires { place < length self.now.tasks }
        ensures { (d : Task) → result ≡ (slice_index_or self.now.tasks place d).condition }
    {
        self.tasks.at(place).condition
    }

    /// The task at a place: all of it but for what is left of its budget and its work.
    pub(crate) fn seen_at(&self, place: usize) -> &Task
        requires { place < length self.now.tasks }
        ensures seen { (d : Task)
            → IsSeenAs result.now (Some (slice_index_or self.now.tasks place d)) }
        ensures home { result.now.cpu < self.now.cpus }
    {
        self.tasks.at(place)
    }

    /// The number of the task at a place, where it has left.
    #[inline(always)]
    pub(crate) fn left_at(&self, place: usize) -> Option<u32>
        requires { place < length self.now.tasks }
        ensures number { IfSome result
            (λ n. (d : Task) → n ≡ (slice_index_or self.now.tasks place d).number) }
        ensures left { IfSome result
            (λ n. (d : Task) → is_listed (slice_index_or self.now.tasks place d) ≡ false) }
        ensures stays { IfNone result
            ((d : Task) → is_listed (slice_index_or self.now.tasks place d) ≡ true) }
        ensures numbered { AllPairs (λ a b. a.number ≢ b.number) self.now.tasks }
    {
        let task = self.tasks.at(place);
        if parts::is_listed(task) {
            return None;
        }
        Some(task.number)
    }

    /// The place of the task of a number, where it is listed.
    #[inline(always)]
    pub(crate) fn place(&self, number: u32) -> Option<usize>
        ensures there { IfSome result (IsListedAt self.now.tasks number) }
        ensures absent { IfNone result (IsUnlisted self.now.tasks number) }
        ensures numbered { AllPairs (λ a b. a.number ≢ b.number) self.now.tasks }
    {
        self.index.place(&self.tasks, number)
    }

    /// The task of a number, where it is listed: all of it but for what is left of its budget and
    /// its work.
    pub(crate) fn find(&self, number: u32) -> Option<&Task>
        ensures there { IfSome result
            (λ t. IsSeenAs t.now (find (λ t. t.number == number) self.now.tasks)) }
        ensures absent { IfNone result (find (λ t. t.number == number) self.now.tasks ≡ None) }
        ensures numbered { AllPairs (λ a b. a.number ≢ b.number) self.now.tasks }
    {
        match self.place(number) {
            None => None,
            Some(place) => Some(self.tasks.at(place)),
        }
    }

    /// The task of a number, where it is listed and has not ended: all of it but for what is left
    /// of its budget and its work.
    pub(crate) fn live(&self, number: u32) -> Option<&Task>
        ensures there { IfSome result (λ t. IsSeenAs t.now
            (find (λ t. t.number == number && not (is_leaving t.condition)) self.now.tasks)) }
        ensures absent { IfNone result
            (find (λ t. t.number == number && not (is_leaving t.condition)) self.now.tasks ≡ None) }
    {
        let Some(task) = self.find(number) else {
            return None;
        };
        if task.condition.is_leaving() {
            return None;
        }
        Some(task)
    }

    /// What a caller may see of the task of a number, where it is listed.
    pub(crate) fn view(&self, number: u32) -> Option<TaskView>
        ensures { result ≡ option_map view_of (find (λ t. t.number == number) self.now.tasks) }
    {
        match self.place(number) {
            None => None,
            Some(place) => Some(lending::view_at(self.tasks.at(place), &self.charges)),
        }
    }

    /// What a caller may see of the task at a place, to compare it at another time.
    pub(crate) fn task_seen(&self, place: usize) -> TaskSeen
        requires { place < length self.now.tasks }
        ensures { (d : Task) → IsTaskSeen result (slice_index_or self.now.tasks place d) }
    {
        lending::task_seen_at(self.tasks.at(place), &self.charges)
    }

    /// The task of a number as a jump sees it, where it is listed.
    pub(crate) fn runner(&self, number: u32) -> Option<Running>
        ensures { result ≡ option_map (runner_in self.now.tasks)
            (find (λ t. t.number == number) self.now.tasks) }
    {
        match self.place(number) {
            None => None,
            Some(place) => {
                let task = self.tasks.at(place);
                let uinact = self.uinact(task.cpu);
                Some(lending::runner_at(task, &self.charges, uinact))
            }
        }
    }

    /// The bandwidth of all listed tasks, in 1/2^20 of a CPU.
    pub(crate) fn sum(&self) -> u64
        ensures { result ≡ tick.sum_of self.now.tasks }
    {
        self.queue.accounts.total()
    }

    /// The bandwidth of the inactive tasks of a CPU, in 1/2^20 of a CPU.
    fn uinact(&self, cpu: usize) -> u64
        requires { cpu < self.now.cpus }
        ensures { result ≡ sums.uinact cpu (tick.shares self.now.tasks) }
    {
        self.queue.accounts.uinact(cpu)
    }

    /// The task that runs on each CPU, from CPU 0 on.
    pub(crate) fn occupants(&self) -> &[Option<u32>]
        ensures occupants { result.now ≡ self.now.places }
        ensures few { length self.now.places ≤ 64 }
        ensures homed { AreHomed self.now.places self.now.tasks }
    {
        self.queue.schedule.occupants()
    }

    /// The task that runs on a CPU, if one does.
    #[inline(always)]
    pub(crate) fn occupant(&self, cpu: usize) -> Option<u32>
        ensures { result ≡ slice_index_or self.now.places cpu None }
    {
        choosing::occupant_of(self.queue.schedule.occupants(), cpu)
    }

    /// Part 5: the state in which an occupant leaves its CPU.
    pub(crate) fn state_of(&self, occupant: Option<u32>) -> PrevState
        ensures { result ≡ prev_state_of self.now.tasks occupant }
    {
        choosing::state_of(&self.tasks, &self.index, occupant)
    }

    /// The CPUs that the last choice gave to another one, in their order.
    pub(crate) fn moves(&self) -> &[Moved]
        ensures { result.now ≡ self.now.moves }
    {
        self.queue.schedule.moves()
    }

    /// The first place, from this one on, whose task is due at a time; where there is none, how
    /// many places there are.
    #[inline(always)]
    pub(crate) fn next_due(&self, from: usize, time: u64) -> usize
        requires { from ≤ length self.now.tasks }
        ensures from { from ≤ result }
        ensures most { result ≤ length self.now.tasks }
        ensures others { AreNotDue self.now.tasks time from result }
        ensures numbered { AllPairs (λ a b. a.number ≢ b.number) self.now.tasks }
    {
        self.queue.timers.next_due(from, time)
    }

    /// Whether a task may be due at a time. Where it says no, none is.
    pub(crate) fn may_be_due(&self, time: u64) -> bool
        ensures { result ≡ false → time < least (map due_of self.now.tasks) }
    {
        self.queue.timers.may_be_due(time)
    }

    /// The ticks from a time to the first at which a task is due, at most 2^42 - 1.
    pub(crate) fn ticks_to_due(&self, time: u64) -> u64
        ensures { result ≡ min (least (map due_of self.now.tasks) - time) (clock_end - 1) }
    {
        self.queue.timers.ticks_to_due(time)
    }
}

impl TaskTable {
    /// Changes the task at a place: the one place where a task of the list changes.
    #[inline(always)]
    pub(crate) fn apply(&mut self, place: usize, time: u64, transition: &Transition)
        requires there { place < length self.old.tasks }
        requires fits { Fits self.old.cpus transition.now }
        requires sound { All (IsSound time) self.old.tasks }
        requires may { (d : Task) → MayMake time transition.now
            (slice_index_or self.old.tasks place d) }
        ensures cpus { self.new.cpus ≡ self.old.cpus }
        ensures step { IsTimerStep (task_after time transition.now) place self.old.tasks
            self.new.tasks }
        ensures sound { All (IsSound time) self.new.tasks }
        ensures clock { self.new.clock ≡ self.old.clock }
        ensures places { self.new.places ≡ self.old.places }
        ensures left { HasLeft place self.old self.new }
    {
        if transition::does_nothing(self.tasks.at(place), time, transition) {
            return;
        }
        // For the prover alone: a look at the open charges brings that there are at most 64.
        let _ = self.charges.len();
        let cpu = self.tasks.at(place).cpu;
        let was_started = applying::apply_task(
            &mut self.tasks,
            &mut self.queue,
            &mut self.charges,
            place,
            time,
            transition,
        );
        self.stale.mark_left(cpu, was_started);
    }

    /// As `apply`, of a task whose CPU has no open charge, since it has been charged: nobody looks
    /// for its open charge, and no CPU becomes stale. The zero-lag time that is deferred.
    #[inline(always)]
    pub(crate) fn apply_charged(
        &mut self,
        place: usize,
        time: u64,
        transition: &Transition,
    ) -> Option<u64>
        requires there { place < length self.old.tasks }
        requires free { (d : Task) → slice_index_or self.old.charges
            (slice_index_or self.old.tasks place d).cpu None ≡ None }
        requires fits { Fits self.old.cpus transition.now }
        requires sound { All (IsSound time) self.old.tasks }
        requires may { (d : Task) → MayMake time transition.now
            (slice_index_or self.old.tasks place d) }
        ensures cpus { self.new.cpus ≡ self.old.cpus }
        ensures step { IsTimerStep (task_after time transition.now) place self.old.tasks
            self.new.tasks }
        ensures sound { All (IsSound time) self.new.tasks }
        ensures clock { self.new.clock ≡ self.old.clock }
        ensures places { self.new.places ≡ self.old.places }
        ensures charges { self.new.charges ≡ self.old.charges }
        ensures deferring { (d : Task) → result
            ≡ deferred_lag time transition.now (slice_index_or self.old.tasks place d) }
    {
        // For the prover alone: a look at the open charges brings that there are at most 64.
        let _ = self.charges.len();
        applying::apply_settled(
            self.tasks.at_mut(place),
            &mut self.queue,
            place,
            time,
            transition,
        )
    }

    /// As `apply_logged`, of a log that keeps what it logs.
    #[inline(never)]
    fn apply_logged_run(
        &mut self,
        place: usize,
        time: u64,
        transition: &Transition,
        log: &mut Log,
    ) -> Option<u64>
        requires there { place < length self.old.tasks }
        requires free { (d : Task) → slice_index_or self.old.charges
            (slice_index_or self.old.tasks place d).cpu None ≡ None }
        requires early { time < 2 ^ 43 }
        requires narrow { self.old.cpus ≤ 64 }
        requires fits { Fits self.old.cpus transition.now }
        requires sound { All (IsSound time) self.old.tasks }
        requires may { (d : Task) → MayMake time transition.now
            (slice_index_or self.old.tasks place d) }
        requires room { LogHasRoom 3 log.old }
        ensures cpus { self.new.cpus ≡ self.old.cpus }
        ensures step { IsTimerStep (task_after time transition.now) place self.old.tasks
            self.new.tasks }
        ensures sound { All (IsSound time) self.new.tasks }
        ensures clock { self.new.clock ≡ self.old.clock }
        ensures places { self.new.places ≡ self.old.places }
        ensures charges { self.new.charges ≡ self.old.charges }
        ensures deferring { (d : Task) → result
            ≡ deferred_lag time transition.now (slice_index_or self.old.tasks place d) }
        ensures logged { (d : Task) → HasLogged log.old
            (logged_by_transition time transition.now (slice_index_or self.old.tasks place d))
            log.new }
        ensures room { log.old.room ≤ log.new.room + 3 }
    {
        let before = transition_log::look(self.at(place), time, transition);
        let deferring = self.apply_charged(place, time, transition);
        let logged = transition_log::seen_later(time, transition, before, self.at(place));
        log.push_all(logged);
        deferring
    }

    /// As `apply_charged`, and the log records what the transition logs.
    #[inline(always)]
    pub(super) fn apply_logged(
        &mut self,
        place: usize,
        time: u64,
        transition: &Transition,
        log: &mut Log,
    ) -> Option<u64>
        requires there { place < length self.old.tasks }
        requires free { (d : Task) → slice_index_or self.old.charges
            (slice_index_or self.old.tasks place d).cpu None ≡ None }
        requires early { time < 2 ^ 43 }
        requires narrow { self.old.cpus ≤ 64 }
        requires fits { Fits self.old.cpus transition.now }
        requires sound { All (IsSound time) self.old.tasks }
        requires may { (d : Task) → MayMake time transition.now
            (slice_index_or self.old.tasks place d) }
        requires room { LogHasRoom 3 log.old }
        ensures cpus { self.new.cpus ≡ self.old.cpus }
        ensures step { IsTimerStep (task_after time transition.now) place self.old.tasks
            self.new.tasks }
        ensures sound { All (IsSound time) self.new.tasks }
        ensures clock { self.new.clock ≡ self.old.clock }
        ensures places { self.new.places ≡ self.old.places }
        ensures charges { self.new.charges ≡ self.old.charges }
        ensures deferring { (d : Task) → result
            ≡ deferred_lag time transition.now (slice_index_or self.old.tasks place d) }
        ensures logged { (d : Task) → HasLogged log.old
            (logged_by_transition time transition.now (slice_index_or self.old.tasks place d))
            log.new }
        ensures room { log.old.room ≤ log.new.room + 3 }
    {
        if log.is_wanted() {
            return self.apply_logged_run(place, time, transition, log);
        }
        self.apply_charged(place, time, transition)
    }

    /// Changes the task of a number, where it is listed.
    #[inline(always)]
    pub(crate) fn apply_number(&mut self, number: u32, time: u64, transition: &Transition)
        requires fits { Fits self.old.cpus transition.now }
        requires sound { All (IsSound time) self.old.tasks }
        requires may { All (λ t. t.number ≡ number → MayMake time transition.now t) self.old.tasks }
        ensures cpus { self.new.cpus ≡ self.old.cpus }
        ensures places { self.new.places ≡ self.old.places }
        ensures tasks { self.new.tasks
            ≡ map (of_number number (task_after time transition.now)) self.old.tasks }
        ensures sound { All (IsSound time) self.new.tasks }
    {
        if let Some(place) = self.place(number) {
            self.apply(place, time, transition);
        }
    }

    /// The choice of a tick and its placement, by a look at those who wait alone. The task that
    /// runs on a CPU then belongs to it.
    pub(crate) fn choose(&mut self)
        requires wide { length self.old.places ≡ self.old.cpus }
        requires apart { HasNoTaskTwice self.old.places }
        ensures cpus { self.new.cpus ≡ self.old.cpus }
        ensures places { self.new.places
            ≡ placed (length self.old.places) (tick.candidates self.old.tasks) self.old.places }
        ensures moves { self.new.moves ≡ moved_from 0 self.old.places self.new.places }
        ensures tasks { self.new.tasks ≡ map (with_last_cpu self.new.places) self.old.tasks }
        ensures wide { length self.new.places ≡ length self.old.places }
        ensures apart { HasNoTaskTwice self.new.places }
    {
        self.queue.schedule.pick();
        choosing::home_all(
            &mut self.tasks,
            &mut self.queue.accounts,
            &mut self.charges,
            &self.index,
            &self.queue.schedule,
            &mut self.stale,
        );
    }

    /// As `choose`, and who starts on a CPU gets an open charge at once, at its rate. There is a
    /// switch for each CPU that the choice gave to another one.
    #[inline(always)]
    pub(crate) fn choose_charging(&mut self, moment: Moment, switches: &mut Vec<Switch>)
        requires early { moment.time < deadline_end }
        requires wide { length self.old.places ≡ self.old.cpus }
        requires apart { HasNoTaskTwice self.old.places }
        requires cpus { (0 < self.old.cpus) × (self.old.cpus ≤ 64) }
        requires limit { IsLimit moment.limit }
        requires within { tick.sum_of self.old.tasks ≤ cap self.old.cpus moment.limit }
        requires may { All MayStartIfReady self.old.tasks }
        requires spare { vec_len switches.old + length self.old.places ≤ vec_capacity switches.old }
        ensures cpus { self.new.cpus ≡ self.old.cpus }
        ensures places { self.new.places
            ≡ placed (length self.old.places) (tick.candidates self.old.tasks) self.old.places }
        ensures moves { self.new.moves ≡ moved_from 0 self.old.places self.new.places }
        ensures tasks { self.new.tasks ≡ map (with_last_cpu self.new.places) self.old.tasks }
        ensures wide { length self.new.places ≡ length self.old.places }
        ensures apart { HasNoTaskTwice self.new.places }
        ensures switches { switches.new.items ≡ switches.old.items
            ++ map (switch_made moment.time self.old.tasks self.new.places) self.new.moves }
        ensures spare { vec_capacity switches.new ≡ vec_capacity switches.old }
    {
        self.queue.schedule.pick();
        starting::charge_moved(
            &mut self.tasks,
            &mut self.queue.accounts,
            &mut self.charges,
            &self.index,
            &self.queue.schedule,
            &mut self.stale,
            moment,
            switches,
        );
    }

    /// One task more, which is not ready. Where its number is, is noted.
    pub(crate) fn push(&mut self, task: Task)
        requires few { length self.old.tasks < 256 }
        requires idle { is_ready task.condition ≡ false }
        requires home { task.cpu < self.old.cpus }
        requires short { task.params.bw ≤ 2 ^ 26 }
        requires absent { IsUnlisted self.old.tasks task.number }
        requires homed { with_last_cpu self.old.places task ≡ task }
        ensures cpus { self.new.cpus ≡ self.old.cpus }
        ensures places { self.new.places ≡ self.old.places }
        ensures tasks { self.new.tasks ≡ self.old.tasks ++ task ∷ [] }
    {
        self.index.note(task.number, self.tasks.len());
        self.stale.mark(task.cpu);
        self.charges.leave(task.cpu, task.number);
        listing::push_task(&mut self.tasks, &mut self.queue, task);
    }

    /// The task of a number goes off the list at once.
    pub(crate) fn take_off(&mut self, number: u32, time: u64)
        requires sound { All (IsSound time) self.old.tasks }
        ensures cpus { self.new.cpus ≡ self.old.cpus }
        ensures places { self.new.places ≡ self.old.places }
        ensures tasks { self.new.tasks ≡ filter (is_other number) self.old.tasks }
    {
        self.apply_number(number, time, &Transition::Depart);
        listing::drop_number(&mut self.tasks, &mut self.queue, &mut self.index, number);
        self.stale.mark_rated();
    }
}
