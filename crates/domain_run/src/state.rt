//! A root domain: the state between two ticks, and what changes it.

ghost use Rattle.std.specs.Prelude.{◌≡◌, ◌<◌, ◌≤◌, OnOk, length, IsTrue, IfErr};
ghost use Rattle.domain_run.specs.declared.call.Call.TheVariants as Call;
ghost use Rattle.domain_run.specs.declared.call.Reply.TheVariants as Reply;
ghost use Rattle.domain_run.specs.Views.{view_in};
ghost use Rattle.domain_run.specs.Tick as tick;
ghost use Rattle.domain_run.specs.Calls as calls;
ghost use Rattle.domain_run.specs.Busy.{IfBusy, LacksRoomFor};
ghost use Rattle.domain_run.specs.Sound.{IsDomain};
ghost use Rattle.attr_check.specs.Ratio.{cap};
ghost use Rattle.limits.specs.Limits.{max_script_number, task_number_end};

mod calls;
mod cutting;
mod deferring_timers;
mod going;
mod growing;
mod in_room;
mod jumps;
mod leaping;
mod lending;
mod machine;
mod marks;
mod passing;
mod repeating;
mod ticking;

use crate::call::{Refused, Reply};
use crate::calls::new_task;
use crate::numbers::Numbers;
use crate::switch::Switch;
use crate::task::TaskView;
use crate::task_table::TaskTable;
use attr_check::Params;
use growing::Room;
use std::marker::Model;
use task_script::{Name, Script};

/// A root domain of 1 to 64 CPUs: its tasks, the task that runs on each CPU, and the switches so
/// far.
#[derive(Drop)]
pub struct State {
    cpus: usize,
    limit: u64,
    time: u64,
    task_table: TaskTable,
    used: Numbers,
    switches: Vec<Switch>,
    // For how many switches there is room: what `growing` made, and nobody else.
    room: Room,
    // The tasks that run on the CPUs, one after another, where that is listed: a leap needs no
    // list.
    running: Vec<u32>,
    is_listed: bool,
    // So many leaps more go to each zero-lag time, since a look has shown that they must. It is
    // only a hint.
    wakeful: u32,
}

impl Model for State {
    ghost use Rattle.std.specs.Prelude.{vec_capacity};
    ghost use Rattle.domain_run.specs.Domain.{Domain};
    ghost use Rattle.domain_run.specs.private.RunQueue.{IsState};

    ghost Value = { Domain };

    ghost view = { λ s. record {
      cpus = s.cpus;
      limit = s.limit;
      time = s.time;
      tasks = s.task_table.tasks;
      used = s.used;
      curr = s.task_table.places;
      switches = s.switches.items;
    } };

    ghost invariant = { λ s. IsState
        (record {
          cpus = s.cpus;
          limit = s.limit;
          time = s.time;
          tasks = s.task_table.tasks;
          used =
              s.used;
          curr =
              s.task_table.places;
          switches =
              s.switches.items;
        }) s.task_table.cpus s.is_listed s.running.items (vec_capacity s.running)
        (vec_capacity s.switches) s.room.count };
}

impl State {
    /// Microseconds from the beginning; every call is made at this time.
    pub fn now(&self) -> u64
        ensures time { result ≡ self.now.time }
        ensures domain { IsDomain self.now }
    {
        self.time
    }

    /// The switches so far. They rise strictly by time and then by CPU, are before now and on the
    /// domain's CPUs, and name only tasks that were admitted.
    pub fn switches(&self) -> &[Switch]
        ensures switches { result.now ≡ self.now.switches }
        ensures domain { IsDomain self.now }
    {
        &self.switches
    }

    /// The number of switches that there is room for, those so far among them. Only
    /// [`State::tick`], [`State::begin`] and [`Buffered::repeat`](crate::Buffered::repeat) change
    /// it.
    pub fn room(&self) -> usize
        ensures { length self.now.switches ≤ result }
    {
        self.switches.capacity()
    }

    /// The bandwidth of all listed tasks, in 1/2^20 of a CPU, also of those that have ended and
    /// stay listed until their zero-lag time. It is at most the number of CPUs times the limit.
    pub fn sum(&self) -> u64
        ensures sum { result ≡ tick.sum_of self.now.tasks }
        ensures within { result ≤ cap self.now.cpus self.now.limit }
    {
        self.task_table.sum()
    }

    /// The task of a number, where it is listed.
    pub fn view(&self, number: u32) -> Option<TaskView>
        ensures { result ≡ view_in self.now number }
    {
        self.task_table.view(number)
    }
}

impl State {
    /// The reply that an admission would get, by the tests in their order. Nothing changes. Takes
    /// no memory.
    pub fn admit_reply(&self, number: u32, params: &Params) -> Reply
        requires { number < task_number_end }
        ensures reply { result ≡ calls.admit_reply self.now number params.now }
        ensures busy { IfBusy result (LacksRoomFor self.now params.now.bw) }
    {
        let sum = self.sum();
        if self.task_table.len() >= 256 {
            Reply::Full
        } else if self.used.contains(number) {
            Reply::Twice
        } else if sum + params.bandwidth() > self.cpus as u64 * self.limit {
            Reply::Busy { seen: sum }
        } else {
            Reply::Admitted
        }
    }

    fn list(&mut self, number: u32, name: Name, params: Params, delay: u64, script: Script)
        requires granted { calls.admit_reply self.old number params ≡ Reply.Admitted }
        requires small { number < task_number_end }
        requires delay { delay ≤ max_script_number }
        ensures { self.new ≡ calls.with_task_listed self.old
            (calls.new_task self.old number name params delay script) }
    {
        let task = new_task(number, name, params, self.time + delay, script, self.cpus);
        self.used.insert(number);
        self.task_table.push(task);
    }

    /// Admits a task at the time now: tested in this order, `Full` where 256 tasks are listed,
    /// `Twice` where the number was ever admitted here, `Busy` with the sum of bandwidths where
    /// that sum and the task's bandwidth are above the number of CPUs times the limit; equality is
    /// admitted. An admitted task is listed and starts after the delay, in microseconds. Where it
    /// refuses, nothing has changed, and name and script come back. Takes no memory.
    pub fn admit(
        &mut self,
        number: u32,
        name: Name,
        params: Params,
        delay: u64,
        script: Script,
    ) -> Result<(), Refused>
        requires number { (0 < number) × (number < task_number_end) }
        requires delay { delay ≤ max_script_number }
        ensures domain { self.new
            ≡ calls.after_call self.old (Call.Admit number name params delay script) }
        ensures admitted { OnOk result
            (calls.reply_to self.old (Call.Admit number name params delay script)
            ≡ Reply.Admitted) }
        ensures reply { IfErr result (λ r. r.reply
            ≡ calls.reply_to self.old (Call.Admit number name params delay script)) }
        ensures refused { IfErr result (λ r. IsTrue (calls.is_refusal r.reply)) }
        ensures busy { IfErr result (λ r. IfBusy r.reply (LacksRoomFor self.old params.bw)) }
        ensures back { IfErr result (λ r. (r.name ≡ name) × (r.script ≡ script)) }
    {
        match self.admit_reply(number, &params) {
            Reply::Admitted => {
                self.list(number, name, params, delay, script);
                Ok(())
            }
            reply => Err(Refused {
                reply,
                name,
                script,
            }),
        }
    }
}
