//! A domain that goes on without memory: its switches and what happens wait until they are taken.

ghost use Rattle.std.specs.Prelude.{◌≡◌, [], ◌<◌, ◌≤◌, ◌+◌, ◌-◌, ◌++◌, All, drop, length, IfOk, IfErr, IfNone, OnOk, IsTrue};
ghost use Rattle.domain_run.specs.declared.call.Call.TheVariants as Call;
ghost use Rattle.domain_run.specs.declared.call.Reply.TheVariants as Reply;
ghost use Rattle.domain_run.specs.Calls as calls;
ghost use Rattle.domain_run.specs.Coming.{switches_to_come};
ghost use Rattle.domain_run.specs.Busy.{IfBusy, LacksRoomFor, LacksRoomToChange, IsAboveLimit};
ghost use Rattle.domain_run.specs.Domain.{IsLimit};
ghost use Rattle.domain_run.specs.Happened.{logged_by_ticks};
ghost use Rattle.domain_run.specs.Keys.{AreKept};
ghost use Rattle.domain_run.specs.LoggedRun.{IsLoggedUntil, IsLoggedFrom};
ghost use Rattle.domain_run.specs.Passing.{without_front};
ghost use Rattle.domain_run.specs.Sound.{IsDomain};
ghost use Rattle.domain_run.specs.Tick as tick;
ghost use Rattle.limits.specs.Limits.{clock_end, max_script_number, task_number_end};

use crate::call::{Refused, Reply};
use crate::happened::Happened;
use crate::log::Log;
use crate::state::State;
use crate::switch::Switch;
use attr_check::Params;
use no_memory::NoMemory;
use std::alloc::Global;
use std::marker::Model;
use task_script::{Name, Script};

/// The least number of switches, and of entries of the log, that wait before an advance stops. A
/// switch takes 16 bytes and an entry 32, so both buffers have some 280 kB.
const PIECE: usize = 4096;

/// For how many entries of the log there is room before an event is made: 9 for each of 256 tasks,
/// and 3 for each of 64 CPUs.
const EVENT: usize = 2496;

/// A domain whose switches wait in a buffer, and what happens in a log. The room of both is made
/// once, so no call can be refused for want of memory: an advance stops if the buffer or the log is
/// full, and goes on after a front of them was taken and forgotten. In contracts it is its domain,
/// whose switches are those that wait, and what was logged and waits. The log has what happens in
/// advances. What a call logs is a cut: it is not logged, since no line shows it.
#[derive(Drop)]
pub struct LoggedRun {
    state: State,
    log: Log,
}

impl Model for LoggedRun {
    ghost use Rattle.domain_run.specs.LoggedRun.{LoggedRunView};
    ghost use Rattle.domain_run.specs.private.Gathering.{IsGathering};

    ghost Value = { LoggedRunView };

    ghost view = { λ l. record { domain = l.state; logged = l.log.happened } };

    ghost invariant = { λ l. IsGathering l.log };
}

impl LoggedRun {
    /// A domain with a buffer for its switches, those so far among them, and with a log that has
    /// nothing yet. `Err` if the room was refused.
    pub fn of(alloc: Global, state: State) -> Result<LoggedRun, NoMemory>
        ensures domain { IfOk result (λ l. l.domain ≡ state) }
        ensures logged { IfOk result (λ l. l.logged ≡ []) }
    {
        match LoggedRun::try_of(alloc, state) {
            Ok(logged_run) => Ok(logged_run),
            Err(state) => {
                drop(state);
                Err(NoMemory)
            }
        }
    }

    /// As [`LoggedRun::of`], but the state comes back as it was if the room was refused.
    pub fn try_of(alloc: Global, mut state: State) -> Result<LoggedRun, State>
        ensures domain { IfOk result (λ l. l.domain ≡ state) }
        ensures logged { IfOk result (λ l. l.logged ≡ []) }
        ensures err { IfErr result (λ s. s ≡ state) }
    {
        let mut log = Log::open(alloc);
        let Ok(()) = log.make_room(PIECE + EVENT) else {
            return Err(state);
        };
        match state.make_room(PIECE) {
            Ok(()) => Ok(LoggedRun { state, log }),
            Err(_) => Err(state),
        }
    }

    /// The domain, whose switches wait in a buffer no more. What waits in the log is gone. Takes no
    /// memory.
    pub fn into_state(self) -> State
        ensures { result ≡ self.domain }
    {
        let LoggedRun { state, log } = self;
        drop(log);
        state
    }

    /// The domain, to be looked at.
    pub fn state(&self) -> &State
        ensures state { result.now ≡ self.now.domain }
        ensures domain { IsDomain self.now.domain }
    {
        let state = &self.state;
        // For the prover alone: a look at a state brings what every domain keeps.
        let _ = state.now();
        state
    }

    /// The switches that wait. They rise strictly by time and then by CPU, are before now and on
    /// the domain's CPUs, and name only tasks that were admitted.
    pub fn switches(&self) -> &[Switch]
        ensures switches { result.now ≡ self.now.domain.switches }
        ensures domain { IsDomain self.now.domain }
    {
        self.state.switches()
    }

    /// What happened and waits, in the order of "Happened".
    pub fn logged(&self) -> &[Happened]
        ensures { result.now ≡ self.now.logged }
    {
        self.log.happened()
    }

    /// Forgets the first `switches` of the switches that wait and the first `logged` of what was
    /// logged, or all if they are fewer; the others stay, in their order, and there is room for
    /// that many more. Nothing else changes.
    pub fn forget_front(&mut self, switches: usize, logged: usize)
        ensures domain { self.new.domain ≡ without_front switches self.old.domain }
        ensures logged { self.new.logged ≡ drop logged self.old.logged }
    {
        self.state.forget_front(switches);
        self.log.forget_front(logged);
    }

    /// Makes at most `n` ticks, from event to event, until there is no room for the switches of one
    /// more event or for what it logs, and answers how many of them are left. The new switches are
    /// added after those that wait, and so is what happens. If ticks are left, at least one switch
    /// waits or something that happened. So if nothing waited before, at least one tick is made.
    /// All switches still to come are at the domain's time or later; what happens still to come is
    /// later or begins a tick at the domain's time. Time stays within 2^42 us. Tasks that have left
    /// may go off the list; nobody comes, and the others keep number, bandwidth and order.
    pub fn fill(&mut self, n: u64) -> u64
        requires { self.old.domain.time + n ≤ clock_end }
        ensures made { self.new.domain ≡ tick.ticks (n - result) self.old.domain }
        ensures logged { self.new.logged ≡ self.old.logged
            ++ logged_by_ticks (n - result) self.old.domain }
        ensures most { result ≤ n }
        ensures full { 0 < result
            → 0 < length self.new.domain.switches + length self.new.logged }
        ensures more { self.new.domain.switches ++ switches_to_come result self.new.domain
            ≡ self.old.domain.switches ++ switches_to_come n self.old.domain }
        ensures more_logged { self.new.logged ++ logged_by_ticks result self.new.domain
            ≡ self.old.logged ++ logged_by_ticks n self.old.domain }
        ensures later { All (λ s. self.new.domain.time ≤ s.time)
            (switches_to_come result self.new.domain) }
        ensures past { All (IsLoggedUntil self.old.domain.time) self.old.logged
            → All (IsLoggedUntil self.new.domain.time) self.new.logged }
        ensures unlogged { All (IsLoggedFrom self.new.domain.time)
            (logged_by_ticks result self.new.domain) }
        ensures keys { AreKept self.old.domain.tasks self.new.domain.tasks }
    {
        self.state.fill_logged(n, &mut self.log)
    }
}

/// The calls on a domain between two advances, as those of [`State`].
impl LoggedRun {
    /// As [`State::admit`].
    pub fn admit(
        &mut self,
        number: u32,
        name: Name,
        params: Params,
        delay: u64,
        script: Script,
    ) -> Result<(), Refused>
        requires number { (0 < number) × (number < task_number_end) }
        requires delay { delay ≤ max_script_number }
        ensures domain { self.new.domain
            ≡ calls.after_call self.old.domain (Call.Admit number name params delay script) }
        ensures logged { self.new.logged ≡ self.old.logged }
        ensures admitted { OnOk result
            (calls.reply_to self.old.domain (Call.Admit number name params delay script)
            ≡ Reply.Admitted) }
        ensures reply { IfErr result (λ r. r.reply
            ≡ calls.reply_to self.old.domain (Call.Admit number name params delay script)) }
        ensures refused { IfErr result (λ r. IsTrue (calls.is_refusal r.reply)) }
        ensures busy { IfErr result (λ r. IfBusy r.reply (LacksRoomFor self.old.domain params.bw)) }
        ensures back { IfErr result (λ r. (r.name ≡ name) × (r.script ≡ script)) }
    {
        self.state.admit(number, name, params, delay, script)
    }

    /// As [`State::regrade`].
    pub fn regrade(&mut self, number: u32, params: Params, word: Option<u64>) -> Reply
        ensures reply { result
            ≡ calls.reply_to self.old.domain (Call.Regrade number params word) }
        ensures domain { self.new.domain
            ≡ calls.after_call self.old.domain (Call.Regrade number params word) }
        ensures logged { self.new.logged ≡ self.old.logged }
        ensures busy { IfNone word
            (IfBusy result (LacksRoomToChange self.old.domain number params.bw)) }
    {
        self.state.regrade(number, params, word)
    }

    /// As [`State::wake`].
    pub fn wake(&mut self, number: u32) -> Reply
        ensures reply { result ≡ calls.reply_to self.old.domain (Call.Wake number) }
        ensures domain { self.new.domain ≡ calls.after_call self.old.domain (Call.Wake number) }
        ensures logged { self.new.logged ≡ self.old.logged }
    {
        self.state.wake(number)
    }

    /// As [`State::leave`]. The cut is not logged.
    pub fn leave(&mut self, number: u32) -> Reply
        ensures reply { result ≡ calls.reply_to self.old.domain (Call.Leave number) }
        ensures domain { self.new.domain ≡ calls.after_call self.old.domain (Call.Leave number) }
        ensures logged { self.new.logged ≡ self.old.logged }
    {
        self.state.leave(number)
    }

    /// As [`State::set_limit`].
    pub fn set_limit(&mut self, limit: u64, word: Option<u64>) -> Reply
        requires limit { IsLimit limit }
        ensures reply { result ≡ calls.reply_to self.old.domain (Call.Limit limit word) }
        ensures domain { self.new.domain
            ≡ calls.after_call self.old.domain (Call.Limit limit word) }
        ensures logged { self.new.logged ≡ self.old.logged }
        ensures busy { IfNone word (IfBusy result (IsAboveLimit self.old.domain limit)) }
    {
        self.state.set_limit(limit, word)
    }

    /// As [`State::depart`]. The cut is not logged.
    pub fn depart(&mut self, number: u32) -> Reply
        ensures reply { result ≡ calls.reply_to self.old.domain (Call.Depart number) }
        ensures domain { self.new.domain ≡ calls.after_call self.old.domain (Call.Depart number) }
        ensures logged { self.new.logged ≡ self.old.logged }
    {
        self.state.depart(number)
    }
}
