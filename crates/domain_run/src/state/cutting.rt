//! Calls that end a task here, and log that its job is cut.

ghost use Rattle.std.specs.Prelude.{◌≡◌, ◌≤◌};
ghost use Rattle.domain_run.specs.declared.call.Call.TheVariants as Call;
ghost use Rattle.domain_run.specs.Calls as calls;
ghost use Rattle.domain_run.specs.Happened.{logged_by_cut, logged_by_call};
ghost use Rattle.domain_run.specs.Log.{HasLogged, LogHasRoom};
ghost use Rattle.domain_run.specs.private.TransitionLog.{one_of};

use super::State;
use crate::call::Reply;
use crate::happened::Happened;
use crate::log::Log;
use crate::transition_log;

impl State {
    // The entry that says that the job of the task of a number is cut now.
    fn cut_of(&self, number: u32) -> Option<Happened>
        ensures { one_of result ≡ logged_by_cut self.now number }
    {
        match self.task_table.place(number) {
            None => None,
            Some(place) => {
                let cpu = self.task_table.cpu_at(place);
                Some(transition_log::cut(self.time, number, cpu))
            }
        }
    }

    /// As [`State::leave`], and where the task has left, the log records that its job is cut. Takes
    /// no memory: room for one more is there.
    pub fn leave_logged(&mut self, number: u32, log: &mut Log) -> Reply
        requires room { LogHasRoom 1 log.old }
        ensures reply { result ≡ calls.reply_to self.old (Call.Leave number) }
        ensures domain { self.new ≡ calls.after_call self.old (Call.Leave number) }
        ensures logged { HasLogged log.old (logged_by_call self.old (Call.Leave number)) log.new }
        ensures no_more { log.new.room ≤ log.old.room }
    {
        let cut = self.cut_of(number);
        let reply = self.leave(number);
        if reply == Reply::Left {
            log.push(cut);
        }
        reply
    }

    /// As [`State::depart`], and where the task is off the list, the log records that its job is
    /// cut. Takes no memory: room for one more is there.
    pub fn depart_logged(&mut self, number: u32, log: &mut Log) -> Reply
        requires room { LogHasRoom 1 log.old }
        ensures reply { result ≡ calls.reply_to self.old (Call.Depart number) }
        ensures domain { self.new ≡ calls.after_call self.old (Call.Depart number) }
        ensures logged { HasLogged log.old (logged_by_call self.old (Call.Depart number)) log.new }
        ensures no_more { log.new.room ≤ log.old.room }
    {
        let cut = self.cut_of(number);
        let reply = self.depart(number);
        if reply == Reply::Departed {
            log.push(cut);
        }
        reply
    }
}
