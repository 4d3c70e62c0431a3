//! A domain that goes on without memory, and gives a period of its run again where it repeats.

ghost use Rattle.std.specs.Prelude.{◌≡◌, [], ◌<◌, ◌≤◌, ◌+◌, ◌-◌, ◌++◌, All, length, IfOk, IfErr, IfNone, OnOk, IsTrue};
ghost use Rattle.domain_run.specs.declared.call.Call.TheVariants as Call;
ghost use Rattle.domain_run.specs.declared.call.Reply.TheVariants as Reply;
ghost use Rattle.domain_run.specs.Calls as calls;
ghost use Rattle.domain_run.specs.Coming.{switches_to_come};
ghost use Rattle.domain_run.specs.Busy.{IfBusy, LacksRoomFor, LacksRoomToChange, IsAboveLimit};
ghost use Rattle.domain_run.specs.Domain.{IsLimit};
ghost use Rattle.domain_run.specs.Keys.{AreKept};
ghost use Rattle.domain_run.specs.Passing.{without_front, without_switches};
ghost use Rattle.domain_run.specs.Sound.{IsDomain};
ghost use Rattle.domain_run.specs.Tick as tick;
ghost use Rattle.limits.specs.Limits.{clock_end, max_script_number, task_number_end};

use crate::phase::{Kept, Phase};
use crate::stepping::go_on;
use attr_check::Params;
use domain_run::{Buffered, NoMemory, Refused, Reply, State, Switch};
use std::alloc::Global;
use std::marker::Model;
use task_script::{Name, Script};

/// A domain whose switches wait in a buffer, of which the room is made once. No call on it needs
/// memory, so none can be refused for want of it: an advance stops where the buffer is full, and
/// goes on once the switches that wait were taken and are forgotten. In contracts it is its domain,
/// whose switches are those that wait.
///
/// While its run repeats, it gives the switches of a period again, later, and does not simulate
/// them. For this it takes memory; if that is refused, it simulates all.
#[derive(Drop)]
pub struct Repeating {
    buffered: Buffered,
    phase: Phase,
    kept: Kept,
}

impl Model for Repeating {
    ghost use Rattle.domain_run.specs.Domain.{Domain};
    ghost use Rattle.repeat_run.specs.private.Knows.{KnowsInPhase};

    ghost Value = { Domain };

    ghost view = { λ r. r.buffered };

    ghost invariant = { λ r. KnowsInPhase r.phase r.kept r.buffered };
}

impl Repeating {
    /// A domain with a buffer for its switches, those so far among them. `Err` where the room was
    /// refused.
    pub fn of(alloc: Global, state: State) -> Result<Repeating, NoMemory>
        ensures { IfOk result (λ b. b ≡ state) }
    {
        match Repeating::try_of(alloc, state) {
            Ok(repeating) => Ok(repeating),
            Err(state) => {
                drop(state);
                Err(NoMemory)
            }
        }
    }

    /// As [`Repeating::of`], but the state comes back as it was where the room was refused.
    pub fn try_of(alloc: Global, state: State) -> Result<Repeating, State>
        ensures ok { IfOk result (λ b. b ≡ state) }
        ensures err { IfErr result (λ s. s ≡ state) }
    {
        match Buffered::try_of(state) {
            Ok(buffered) => Ok(Repeating {
                buffered,
                phase: Phase::Fresh,
                kept: Kept {
                    seen: Vec::new(alloc),
                    running: Vec::new(alloc),
                    paces: Vec::new(alloc),
                    period: Vec::new(alloc),
                },
            }),
            Err(state) => Err(state),
        }
    }

    /// The domain, whose switches wait in a buffer no more. Takes no memory.
    pub fn into_state(self) -> State
        ensures { result ≡ self }
    {
        let Repeating {
            buffered,
            phase: _,
            kept,
        } = self;
        drop(kept);
        buffered.into_state()
    }

    /// The domain, to be looked at.
    pub fn state(&self) -> &State
        ensures state { result.now ≡ self.now }
        ensures domain { IsDomain self.now }
    {
        self.buffered.state()
    }

    /// The switches that wait. They rise strictly by time and then by CPU, are before now and on
    /// the domain's CPUs, and name only tasks that were admitted.
    pub fn switches(&self) -> &[Switch]
        ensures switches { result.now ≡ self.now.switches }
        ensures domain { IsDomain self.now }
    {
        self.buffered.switches()
    }

    /// Forgets the switches that wait: the buffer is free again. Nothing else changes.
    pub fn forget_switches(&mut self)
        ensures { self.new ≡ without_switches self.old }
    {
        self.buffered.forget_switches();
    }

    /// Forgets the first `count` of the switches that wait, or all if they are fewer; the others
    /// stay, in their order, and the buffer has room for that many more. Nothing else changes.
    pub fn forget_front(&mut self, count: usize)
        ensures { self.new ≡ without_front count self.old }
    {
        self.buffered.forget_front(count);
    }

    /// Makes at most `n` ticks, from event to event, until the buffer has no room for the switches
    /// of one more event, and answers how many of them are left. The new switches are added after
    /// those that wait. If ticks are left, at least one switch waits. So if none waited before, at
    /// least one tick is made. All switches still to come are at the domain's time or later. Time
    /// stays within 2^42 us. Tasks that have left may go off the list; nobody comes, and the others
    /// keep number, bandwidth and order.
    pub fn fill(&mut self, n: u64) -> u64
        requires { self.old.time + n ≤ clock_end }
        ensures made { self.new ≡ tick.ticks (n - result) self.old }
        ensures most { result ≤ n }
        ensures full { 0 < result → 0 < length self.new.switches }
        ensures more { self.new.switches ++ switches_to_come result self.new
            ≡ self.old.switches ++ switches_to_come n self.old }
        ensures later { All (λ s. self.new.time ≤ s.time) (switches_to_come result self.new) }
        ensures keys { AreKept self.old.tasks self.new.tasks }
    {
        let mut left = n;
        // For the prover alone: a look at a domain brings what every domain keeps.
        let _ = self.buffered.state();
        'steps: while left > 0 {
            let made = self.go(left);
            if made == 0 {
                return left;
            }
            left -= made;
        }
        0
    }

    fn go(&mut self, left: u64) -> u64
        requires some { 0 < left }
        requires early { self.old.time + left ≤ clock_end }
        ensures made { self.new ≡ tick.ticks result self.old }
        ensures most { result ≤ left }
        ensures full { result ≡ 0 → 0 < length self.new.switches }
    {
        let made = go_on(&mut self.buffered, &mut self.kept, self.phase, left);
        self.phase = made.phase;
        made.ticks
    }

    /// Goes on from event to event by at most `n` ticks, and returns the number of ticks made. The
    /// domain and its switches are exactly those of that number of single ticks. It stops early if
    /// the buffer has no room for the switches of one more event. If no switch waits, it makes at
    /// least one tick. Time stays within 2^42 us. Tasks that have left may go off the list; no task
    /// is added, and the others keep number, bandwidth and order.
    pub fn advance(&mut self, n: u64) -> u64
        requires { self.old.time + n ≤ clock_end }
        ensures ticks { self.new ≡ tick.ticks result self.old }
        ensures most { result ≤ n }
        ensures some { self.old.switches ≡ [] → 0 < n → 0 < result }
        ensures keys { AreKept self.old.tasks self.new.tasks }
    {
        n - self.fill(n)
    }
}

/// The calls on a domain between two advances, as those of [`State`].
impl Repeating {
    /// As [`State::admit`].
    pub fn admit(
        &mut self,
        number: u32,
        name: Name,
        params: Params,
        delay: u64,
        script: Script,
    ) -> Result<(), Refused>
        requires number { (0 < number) × (number < task_number_end) }
        requires delay { delay ≤ max_script_number }
        ensures domain { self.new
            ≡ calls.after_call self.old (Call.Admit number name params delay script) }
        ensures admitted { OnOk result
            (calls.reply_to self.old (Call.Admit number name params delay script)
            ≡ Reply.Admitted) }
        ensures reply { IfErr result (λ r. r.reply
            ≡ calls.reply_to self.old (Call.Admit number name params delay script)) }
        ensures refused { IfErr result (λ r. IsTrue (calls.is_refusal r.reply)) }
        ensures busy { IfErr result (λ r. IfBusy r.reply (LacksRoomFor self.old params.bw)) }
        ensures back { IfErr result (λ r. (r.name ≡ name) × (r.script ≡ script)) }
    {
        self.phase = Phase::Fresh;
        self.buffered.admit(number, name, params, delay, script)
    }

    /// As [`State::regrade`].
    pub fn regrade(&mut self, number: u32, params: Params, word: Option<u64>) -> Reply
        ensures reply { result ≡ calls.reply_to self.old (Call.Regrade number params word) }
        ensures domain { self.new ≡ calls.after_call self.old (Call.Regrade number params word) }
        ensures busy { IfNone word (IfBusy result (LacksRoomToChange self.old number params.bw)) }
    {
        self.phase = Phase::Fresh;
        self.buffered.regrade(number, params, word)
    }

    /// As [`State::wake`].
    pub fn wake(&mut self, number: u32) -> Reply
        ensures reply { result ≡ calls.reply_to self.old (Call.Wake number) }
        ensures domain { self.new ≡ calls.after_call self.old (Call.Wake number) }
    {
        self.phase = Phase::Fresh;
        self.buffered.wake(number)
    }

    /// As [`State::leave`].
    pub fn leave(&mut self, number: u32) -> Reply
        ensures reply { result ≡ calls.reply_to self.old (Call.Leave number) }
        ensures domain { self.new ≡ calls.after_call self.old (Call.Leave number) }
    {
        self.phase = Phase::Fresh;
        self.buffered.leave(number)
    }

    /// As [`State::set_limit`].
    pub fn set_limit(&mut self, limit: u64, word: Option<u64>) -> Reply
        requires limit { IsLimit limit }
        ensures reply { result ≡ calls.reply_to self.old (Call.Limit limit word) }
        ensures domain { self.new ≡ calls.after_call self.old (Call.Limit limit word) }
        ensures busy { IfNone word (IfBusy result (IsAboveLimit self.old limit)) }
    {
        self.phase = Phase::Fresh;
        self.buffered.set_limit(limit, word)
    }

    /// As [`State::depart`].
    pub fn depart(&mut self, number: u32) -> Reply
        ensures reply { result ≡ calls.reply_to self.old (Call.Depart number) }
        ensures domain { self.new ≡ calls.after_call self.old (Call.Depart number) }
    {
        self.phase = Phase::Fresh;
        self.buffered.depart(number)
    }
}
