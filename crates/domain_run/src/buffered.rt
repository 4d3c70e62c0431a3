//! A domain that goes on without memory: its switches wait in a buffer until they are taken.

ghost use Rattle.std.specs.Prelude.{◌≡◌, [], ◌<◌, ◌≤◌, ◌+◌, ◌-◌, ◌++◌, All, length, false, IfOk, IfErr, IfNone, OnOk, IsTrue};
ghost use Rattle.domain_run.specs.declared.call.Call.TheVariants as Call;
ghost use Rattle.domain_run.specs.declared.call.Reply.TheVariants as Reply;
ghost use Rattle.domain_run.specs.Calls as calls;
ghost use Rattle.domain_run.specs.Coming.{switches_to_come};
ghost use Rattle.domain_run.specs.Busy.{IfBusy, LacksRoomFor, LacksRoomToChange, IsAboveLimit};
ghost use Rattle.domain_run.specs.Domain.{IsLimit};
ghost use Rattle.domain_run.specs.Keys.{AreKept};
ghost use Rattle.domain_run.specs.Passing.{without_front, without_switches};
ghost use Rattle.domain_run.specs.Shift.{given_again, AllMayGo};
ghost use Rattle.domain_run.specs.Sound.{IsDomain};
ghost use Rattle.domain_run.specs.Tick as tick;
ghost use Rattle.limits.specs.Limits.{clock_end, max_script_number, task_number_end};

use crate::call::{Refused, Reply};
use crate::pace::Pace;
use crate::state::State;
use crate::switch::Switch;
use attr_check::Params;
use no_memory::NoMemory;
use std::marker::Model;
use task_script::{Name, Script};

/// The least number of switches that wait before an advance stops. Each takes 16 bytes, so a buffer
/// has some 64 kB.
const PIECE: usize = 4096;

/// A domain whose switches wait in a buffer, of which the room is made once. Only
/// [`Buffered::repeat`] takes memory, and it may do without. So no call can be refused for want of
/// memory: an advance stops if the buffer is full, and goes on after the waiting switches were
/// taken and forgotten. In contracts it is its domain, whose switches are those that wait.
#[derive(Drop)]
pub struct Buffered {
    state: State,
}

impl Model for Buffered {
    ghost use Rattle.domain_run.specs.Domain.{Domain};

    ghost Value = { Domain };

    ghost view = { λ b. b.state };
}

impl Buffered {
    /// A domain with a buffer for its switches, those so far among them. `Err` where the room was
    /// refused.
    pub fn of(state: State) -> Result<Buffered, NoMemory>
        ensures { IfOk result (λ b. b ≡ state) }
    {
        match Buffered::try_of(state) {
            Ok(buffered) => Ok(buffered),
            Err(state) => {
                drop(state);
                Err(NoMemory)
            }
        }
    }

    /// As [`Buffered::of`], but the state comes back as it was where the room was refused.
    pub fn try_of(mut state: State) -> Result<Buffered, State>
        ensures ok { IfOk result (λ b. b ≡ state) }
        ensures err { IfErr result (λ s. s ≡ state) }
    {
        match state.make_room(PIECE) {
            Ok(()) => Ok(Buffered { state }),
            Err(_) => Err(state),
        }
    }

    /// The domain, whose switches wait in a buffer no more. Takes no memory.
    pub fn into_state(self) -> State
        ensures { result ≡ self }
    {
        let Buffered { state } = self;
        state
    }

    /// The domain, to be looked at.
    pub fn state(&self) -> &State
        ensures state { result.now ≡ self.now }
        ensures domain { IsDomain self.now }
    {
        let state = &self.state;
        // For the prover alone: a look at a state brings what every domain keeps.
        let _ = state.now();
        state
    }

    /// The switches that wait. They rise strictly by time and then by CPU, are before now and on
    /// the domain's CPUs, and name only tasks that were admitted.
    pub fn switches(&self) -> &[Switch]
        ensures switches { result.now ≡ self.now.switches }
        ensures domain { IsDomain self.now }
    {
        self.state.switches()
    }

    /// Forgets the switches that wait: the buffer is free again. Nothing else changes.
    pub fn forget_switches(&mut self)
        ensures { self.new ≡ without_switches self.old }
    {
        self.state.forget_switches();
    }

    /// Forgets the first `count` of the switches that wait, or all if they are fewer; the others
    /// stay, in their order, and the buffer has room for that many more. Nothing else changes.
    pub fn forget_front(&mut self, count: usize)
        ensures { self.new ≡ without_front count self.old }
    {
        self.state.forget_front(count);
    }

    /// Makes at most `n` ticks, from event to event, until the buffer has no room for the switches
    /// of one more event, and answers how many of them are left. The new switches are added after
    /// those that wait. If ticks are left, at least one switch waits. So if none waited before, at
    /// least one tick is made. All switches still to come are at the domain's time or later. Time
    /// stays within 2^42 us. Tasks that have left may go off the list; nobody comes, and the others
    /// keep number, bandwidth and order.
    pub fn fill(&mut self, n: u64) -> u64
        requires { self.old.time + n ≤ clock_end }
        ensures made { self.new ≡ tick.ticks (n - result) self.old }
        ensures most { result ≤ n }
        ensures full { 0 < result → 0 < length self.new.switches }
        ensures more { self.new.switches ++ switches_to_come result self.new
            ≡ self.old.switches ++ switches_to_come n self.old }
        ensures later { All (λ s. self.new.time ≤ s.time) (switches_to_come result self.new) }
        ensures keys { AreKept self.old.tasks self.new.tasks }
    {
        let mut left = n;
        'events: while left > 0 {
            let made = self.state.leap_in_room(left);
            if made == 0 {
                return left;
            }
            left -= made;
        }
        0
    }

    /// Makes `micros` ticks at once, if a period of the run is known that gives them: `paces` says
    /// how each listed task goes on, in the order of the list, and `period` which switches come,
    /// `later_by` microseconds earlier than they do now. Answers whether it made them: it makes
    /// none, and nothing changes, if the room for the switches was refused, or if a time of a task
    /// is 2^48 us or more. Time stays within 2^42 us.
    pub fn repeat(&mut self, micros: u64, paces: &[Pace], later_by: u64, period: &[Switch]) -> bool
        requires many { length paces.now ≡ length self.old.tasks }
        requires early { self.old.time + micros ≤ clock_end }
        requires may { AllMayGo paces.now self.old.tasks }
        requires again { tick.ticks micros self.old
            ≡ given_again micros paces.now later_by period.now self.old }
        ensures made { IsTrue result → self.new ≡ tick.ticks micros self.old }
        ensures not { result ≡ false → self.new ≡ self.old }
    {
        self.state.repeat(micros, paces, later_by, period)
    }

    /// Goes on from event to event, by at most so many ticks, and answers how many they were: the
    /// domain and its switches are exactly those of so many single ticks. It stops early where the
    /// buffer has no room for the switches of one more event; where no switch waits, at least one
    /// tick is made. Time stays within 2^42 us. Tasks that have left may go off the list; nobody
    /// comes, and the others keep number, bandwidth and order.
    pub fn advance(&mut self, n: u64) -> u64
        requires { self.old.time + n ≤ clock_end }
        ensures ticks { self.new ≡ tick.ticks result self.old }
        ensures most { result ≤ n }
        ensures some { self.old.switches ≡ [] → 0 < n → 0 < result }
        ensures keys { AreKept self.old.tasks self.new.tasks }
    {
        n - self.fill(n)
    }
}

/// The calls on a domain between two advances, as those of [`State`].
impl Buffered {
    /// As [`State::admit`].
    pub fn admit(
        &mut self,
        number: u32,
        name: Name,
        params: Params,
        delay: u64,
        script: Script,
    ) -> Result<(), Refused>
        requires number { (0 < number) × (number < task_number_end) }
        requires delay { delay ≤ max_script_number }
        ensures domain { self.new
            ≡ calls.after_call self.old (Call.Admit number name params delay script) }
        ensures admitted { OnOk result
            (calls.reply_to self.old (Call.Admit number name params delay script)
            ≡ Reply.Admitted) }
        ensures reply { IfErr result (λ r. r.reply
            ≡ calls.reply_to self.old (Call.Admit number name params delay script)) }
        ensures refused { IfErr result (λ r. IsTrue (calls.is_refusal r.reply)) }
        ensures busy { IfErr result (λ r. IfBusy r.reply (LacksRoomFor self.old params.bw)) }
        ensures back { IfErr result (λ r. (r.name ≡ name) × (r.script ≡ script)) }
    {
        self.state.admit(number, name, params, delay, script)
    }

    /// As [`State::regrade`].
    pub fn regrade(&mut self, number: u32, params: Params, word: Option<u64>) -> Reply
        ensures reply { result ≡ calls.reply_to self.old (Call.Regrade number params word) }
        ensures domain { self.new ≡ calls.after_call self.old (Call.Regrade number params word) }
        ensures busy { IfNone word (IfBusy result (LacksRoomToChange self.old number params.bw)) }
    {
        self.state.regrade(number, params, word)
    }

    /// As [`State::wake`].
    pub fn wake(&mut self, number: u32) -> Reply
        ensures reply { result ≡ calls.reply_to self.old (Call.Wake number) }
        ensures domain { self.new ≡ calls.after_call self.old (Call.Wake number) }
    {
        self.state.wake(number)
    }

    /// As [`State::leave`].
    pub fn leave(&mut self, number: u32) -> Reply
        ensures reply { result ≡ calls.reply_to self.old (Call.Leave number) }
        ensures domain { self.new ≡ calls.after_call self.old (Call.Leave number) }
    {
        self.state.leave(number)
    }

    /// As [`State::set_limit`].
    pub fn set_limit(&mut self, limit: u64, word: Option<u64>) -> Reply
        requires limit { IsLimit limit }
        ensures reply { result ≡ calls.reply_to self.old (Call.Limit limit word) }
        ensures domain { self.new ≡ calls.after_call self.old (Call.Limit limit word) }
        ensures busy { IfNone word (IfBusy result (IsAboveLimit self.old limit)) }
    {
        self.state.set_limit(limit, word)
    }

    /// As [`State::depart`].
    pub fn depart(&mut self, number: u32) -> Reply
        ensures reply { result ≡ calls.reply_to self.old (Call.Depart number) }
        ensures domain { self.new ≡ calls.after_call self.old (Call.Depart number) }
    {
        self.state.depart(number)
    }
}
