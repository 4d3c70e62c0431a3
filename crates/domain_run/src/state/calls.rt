//! The calls on a listed task: regrade, wake, leave and depart; and the change of the limit.

ghost use Rattle.std.specs.Prelude.{◌≡◌, ◌↔◌, IsTrue, None, IfNone};
ghost use Rattle.domain_run.specs.declared.call.Call.TheVariants as Call;
ghost use Rattle.domain_run.specs.declared.call.Reply.TheVariants as Reply;
ghost use Rattle.domain_run.specs.Calls as calls;
ghost use Rattle.domain_run.specs.Sound.{IsDomain};
ghost use Rattle.domain_run.specs.Busy.{IfBusy, LacksRoomToChange, IsAboveLimit};
ghost use Rattle.domain_run.specs.Domain.{IsLimit};

use super::State;
use crate::call::Reply;
use crate::transition::Transition;
use attr_check::Params;

impl State {
    /// The reply to a regrade, by the tests in their order.
    fn regrade_reply(&self, number: u32, params: &Params, word: Option<u64>) -> Reply
        ensures reply { result
            ≡ calls.regrade_reply self.now params.now word (calls.task_of self.now number) }
        ensures busy { IfNone word
            (IfBusy result (LacksRoomToChange self.now number params.now.bw)) }
    {
        let Some(task) = self.task_table.live(number) else {
            return Reply::NotListed;
        };
        let sum = self.sum();
        if sum.saturating_sub(task.params.bw) + params.bandwidth() > self.cpus as u64 * self.limit {
            return Reply::Busy { seen: sum };
        }
        match word {
            None => Reply::Changed,
            Some(seen) => Reply::Busy { seen },
        }
    }

    /// Whether the domain itself has room for a regrade: [`State::regrade`] then answers
    /// [`Reply::Changed`], unless the bandwidth word refused.
    pub fn may_regrade(&self, number: u32, params: &Params) -> bool
        ensures room { IsTrue result
            ↔ (calls.regrade_reply self.now params.now None (calls.task_of self.now number)
            ≡ Reply.Changed) }
        ensures domain { IsDomain self.now }
    {
        // For the prover alone: a look at the task table brings what its type keeps.
        let _ = &self.task_table;
        self.regrade_reply(number, params, None) == Reply::Changed
    }

    fn transition(&mut self, number: u32, params: &Params)
        requires { calls.regrade_reply self.old params.now None (calls.task_of self.old number)
            ≡ Reply.Changed }
        ensures { self.new
            ≡ calls.with_task_changed self.old number (calls.with_new_params params.now) }
    {
        let transition = Transition::Regrade { params: *params };
        self.task_table.apply_number(number, self.time, &transition);
    }

    /// Gives a listed task new parameters at the time now, at once; its deadline, its budget and a
    /// zero-lag time ahead stay. Tested in this order: [`Reply::NotListed`] where no task of this
    /// number is listed, or it has ended; [`Reply::Busy`] with the sum of bandwidths where that
    /// sum, less the old and with the new bandwidth, is above the number of CPUs times the limit;
    /// `Busy` with the number with which the domain's bandwidth word refused, where `word` says
    /// that it did; else [`Reply::Changed`]. Where it refuses, nothing has changed. Takes no
    /// memory.
    pub fn regrade(&mut self, number: u32, params: Params, word: Option<u64>) -> Reply
        ensures reply { result ≡ calls.reply_to self.old (Call.Regrade number params word) }
        ensures domain { self.new ≡ calls.after_call self.old (Call.Regrade number params word) }
        ensures busy { IfNone word (IfBusy result (LacksRoomToChange self.old number params.bw)) }
    {
        let reply = self.regrade_reply(number, &params, word);
        if reply == Reply::Changed {
            self.transition(number, &params);
        }
        reply
    }

    fn wake_reply(&self, number: u32) -> Reply
        ensures { result ≡ calls.wake_reply (calls.task_of self.now number) }
    {
        match self.task_table.live(number) {
            None => Reply::NotListed,
            Some(task) if task.condition.is_waiting() => Reply::Woken,
            Some(_) => Reply::NotWaiting,
        }
    }

    fn release(&mut self, number: u32)
        requires { calls.wake_reply (calls.task_of self.old number) ≡ Reply.Woken }
        ensures { self.new
            ≡ calls.with_task_changed self.old number (calls.blocked_until self.old.time) }
    {
        self.task_table
            .apply_number(number, self.time, &Transition::Release);
    }

    /// Wakes a task that waits: in the next tick it asks its script. [`Reply::NotListed`] where no
    /// task of this number is listed, or it has ended; [`Reply::NotWaiting`] where it does not
    /// wait; else [`Reply::Woken`]. Where it refuses, nothing has changed. Takes no memory.
    pub fn wake(&mut self, number: u32) -> Reply
        ensures reply { result ≡ calls.reply_to self.old (Call.Wake number) }
        ensures domain { self.new ≡ calls.after_call self.old (Call.Wake number) }
    {
        let reply = self.wake_reply(number);
        if reply == Reply::Woken {
            self.release(number);
        }
        reply
    }

    fn leave_reply(&self, number: u32) -> Reply
        ensures { result ≡ calls.leave_reply (calls.task_of self.now number) }
    {
        match self.task_table.live(number) {
            None => Reply::NotListed,
            Some(_) => Reply::Left,
        }
    }

    fn end(&mut self, number: u32)
        ensures { self.new
            ≡ calls.with_task_changed self.old number (calls.ended_at self.old.time) }
    {
        self.task_table
            .apply_number(number, self.time, &Transition::End);
    }

    /// Ends a task: it stays listed until its zero-lag time, which counts from now where it
    /// contends, and its bandwidth with it. [`Reply::NotListed`] where no task of this number is
    /// listed, or it has ended already; else [`Reply::Left`]. Where it refuses, nothing has
    /// changed. Takes no memory.
    pub fn leave(&mut self, number: u32) -> Reply
        ensures reply { result ≡ calls.reply_to self.old (Call.Leave number) }
        ensures domain { self.new ≡ calls.after_call self.old (Call.Leave number) }
    {
        let reply = self.leave_reply(number);
        if reply == Reply::Left {
            self.end(number);
        }
        reply
    }

    /// The reply to a change of the limit, by the tests in their order.
    fn limit_reply(&self, limit: u64, word: Option<u64>) -> Reply
        requires limit { IsLimit limit }
        ensures reply { result ≡ calls.limit_reply self.now limit word }
        ensures busy { IfNone word (IfBusy result (IsAboveLimit self.now limit)) }
    {
        let sum = self.sum();
        if sum > self.cpus as u64 * limit {
            return Reply::Busy { seen: sum };
        }
        match word {
            None => Reply::Set,
            Some(found) => Reply::Busy { seen: found },
        }
    }

    /// Whether the listed tasks fit below a new limit, 10485 to 1048576 in 1/2^20 of a CPU:
    /// [`State::set_limit`] then answers [`Reply::Set`], unless the bandwidth word refused.
    pub fn may_limit(&self, limit: u64) -> bool
        requires limit { IsLimit limit }
        ensures room { IsTrue result ↔ (calls.limit_reply self.now limit None ≡ Reply.Set) }
        ensures domain { IsDomain self.now }
    {
        // For the prover alone: a look at the task table brings what its type keeps.
        let _ = &self.task_table;
        self.limit_reply(limit, None) == Reply::Set
    }

    /// Changes what the domain may give away of each CPU, 10485 to 1048576 in 1/2^20, at the time
    /// now: admissions, regrades and the rates of tasks that reclaim go by it from the next call or
    /// tick on. Tested in this order: [`Reply::Busy`] with the sum of bandwidths where that sum is
    /// above the number of CPUs times the new limit; `Busy` with the number with which the domain's
    /// bandwidth word refused, where `word` says that it did; else [`Reply::Set`], and equality is
    /// set (as a write to `sched_rt_runtime_us`, sched-deadline.rst). No task changes. Where it
    /// refuses, nothing has changed. Takes no memory.
    pub fn set_limit(&mut self, limit: u64, word: Option<u64>) -> Reply
        requires limit { IsLimit limit }
        ensures reply { result ≡ calls.reply_to self.old (Call.Limit limit word) }
        ensures domain { self.new ≡ calls.after_call self.old (Call.Limit limit word) }
        ensures busy { IfNone word (IfBusy result (IsAboveLimit self.old limit)) }
    {
        let reply = self.limit_reply(limit, word);
        if reply == Reply::Set {
            self.limit = limit;
        }
        reply
    }

    fn depart_reply(&self, number: u32) -> Reply
        ensures { result ≡ calls.depart_reply (calls.task_of self.now number) }
    {
        match self.task_table.live(number) {
            None => Reply::NotListed,
            Some(_) => Reply::Departed,
        }
    }

    fn take_off(&mut self, number: u32)
        ensures { self.new ≡ calls.after_departure self.old number }
    {
        self.task_table.take_off(number, self.time);
    }

    /// Takes a task off the list, for another domain: at once, and its bandwidth and its zero-lag
    /// time with it. [`Reply::NotListed`] where no task of this number is listed, or it has ended;
    /// else [`Reply::Departed`]. Its number is not admitted here again. Where it refuses, nothing
    /// has changed. Takes no memory.
    pub fn depart(&mut self, number: u32) -> Reply
        ensures reply { result ≡ calls.reply_to self.old (Call.Depart number) }
        ensures domain { self.new ≡ calls.after_call self.old (Call.Depart number) }
    {
        let reply = self.depart_reply(number);
        if reply == Reply::Departed {
            self.take_off(number);
        }
        reply
    }
}
