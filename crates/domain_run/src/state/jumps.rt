//! Many ticks at once: a tick begins, and so many end as pass before something else is to be done.

ghost use Rattle.std.specs.Prelude.{◌≡◌, ◌++◌, [], true, false, ◌*◌, ◌<◌, ◌≤◌, ◌^◌, ◌+◌, ◌<ℤ◌, ◌≤ℤ◌, ◌↔◌, pos, OnOk, OnErr, IfSome, IsTrue, is_some, length};
ghost use Rattle.domain_run.specs.Domain.{Domain};
ghost use Rattle.domain_run.specs.Tick as tick;
ghost use Rattle.domain_run.specs.Jump as jump;
ghost use Rattle.domain_run.specs.Sound.{IsDomain};
ghost use Rattle.domain_run.specs.Happened.{logged_by_beginning, logged_by_last_end, logged_by_ticks};
ghost use Rattle.domain_run.specs.Log.{HasLogged, LogHasRoom, HasRoomToEnd};
ghost use Rattle.limits.specs.Limits.{clock_end};

use super::State;
use crate::log::Log;
use crate::running::{Running, are_still_listed, relist, running_at};
use crate::sweep;
use no_memory::NoMemory;

impl State {
    /// As [`State::begin_logged`], in the room that is there: whether there was any for a switch of
    /// each CPU beside those so far. Where there is none, nothing has changed, and nothing is
    /// logged. There is where no switch waits. The tasks that run on the CPUs are not listed where
    /// that has changed. Takes no memory.
    #[inline(always)]
    pub(super) fn begin_in_room(&mut self, log: &mut Log) -> bool
        requires early { self.old.time < clock_end }
        requires log { LogHasRoom (9 * length self.old.tasks + 192) log.old }
        ensures some { self.old.switches ≡ [] → result ≡ true }
        ensures ok { result ≡ true → self.new ≡ jump.under_way self.old }
        ensures begun { result ≡ true → jump.IsUnderWay self.new }
        ensures full { result ≡ false → self.new ≡ self.old }
        ensures domain { IsDomain self.old }
        ensures logged { result ≡ true → HasLogged log.old (logged_by_beginning self.old) log.new }
        ensures room { result ≡ true → HasRoomToEnd log.new }
        ensures unlogged { result ≡ false → log.new ≡ log.old }
    {
        if self.switches.capacity() - self.switches.len() < self.cpus {
            return false;
        }
        let changed = sweep::begin(self.time, &mut self.task_table, &mut self.switches, log);
        self.is_listed = are_still_listed(self.is_listed, changed);
        self.time += 1;
        true
    }

    /// The tasks that run on the CPUs are listed.
    fn list_running(&mut self)
        ensures { self.new ≡ self.old }
    {
        relist(
            &mut self.running,
            self.is_listed,
            self.task_table.occupants(),
        );
        self.is_listed = true;
    }

    /// As [`State::begin`], and the log records what happens by it: replenishments, releases, and
    /// wakes without budget, each on the CPU to which its task belongs once all are placed, in the
    /// order of "Happened". Room for it, and for what the tick's end will log, is made first: on
    /// `Err` nothing has changed, and nothing is logged.
    pub fn begin_logged(&mut self, log: &mut Log) -> Result<(), NoMemory>
        requires { self.old.time < clock_end }
        ensures ok { OnOk result (self.new ≡ jump.under_way self.old) }
        ensures begun { OnOk result (jump.IsUnderWay self.new) }
        ensures err { OnErr result (self.new ≡ self.old) }
        ensures domain { IsDomain self.old }
        ensures logged { OnOk result (HasLogged log.old (logged_by_beginning self.old) log.new) }
        ensures room { OnOk result (HasRoomToEnd log.new) }
        ensures unlogged { OnErr result (HasLogged log.old [] log.new) }
    {
        self.begin_unlisted(log)?;
        self.list_running();
        Ok(())
    }

    /// Begins a tick: throttled tasks whose deadline has come are replenished, zero-lag times that
    /// have come are dropped, blocked tasks whose time has come ask their scripts, the ready tasks
    /// with the earliest deadlines are placed, and the switches are added. The clock is at the end
    /// of this tick then. What is left of it is [`State::finish`], and no other call is to change
    /// the state before it. Room for the switches is made first: on `Err` nothing has changed.
    pub fn begin(&mut self) -> Result<(), NoMemory>
        requires { self.old.time < clock_end }
        ensures ok { OnOk result (self.new ≡ jump.under_way self.old) }
        ensures begun { OnOk result (jump.IsUnderWay self.new) }
        ensures err { OnErr result (self.new ≡ self.old) }
        ensures domain { IsDomain self.old }
    {
        let mut log = self.silent();
        self.begin_logged(&mut log)
    }

    /// The i-th running task of the tick that has begun, by CPU, from 0: it has budget and work
    /// left. None past the last.
    pub fn running(&self, i: usize) -> Option<Running>
        requires { jump.IsUnderWay self.now }
        ensures running { result ≡ jump.running self.now i }
        ensures there { IsTrue (is_some result) ↔
            (i < length (jump.running_numbers self.now.curr)) }
        ensures few { length (jump.running_numbers self.now.curr) ≤ 64 }
        ensures some { IfSome result (λ r. 0 < r.work) }
        ensures lifted { IfSome result (λ r. pos 0 <ℤ r.left) }
        ensures short { IfSome result (λ r. r.uinact ≤ 2 ^ 26) }
        ensures high { IfSome result (λ r. r.left ≤ℤ pos (2 ^ 52)) }
    {
        let places = self.task_table.occupants();
        let Some(number) = running_at(&self.running, self.is_listed, places, i) else {
            return None;
        };
        self.task_table.runner(number)
    }

    /// The rate at which a running task uses its budget up, in 1/2^20: one where it does not
    /// reclaim, else by the GRUB rule, from the sums as they are once all are placed.
    pub fn rate(&self, runner: &Running) -> u64
        requires short { runner.now.uinact ≤ 2 ^ 26 }
        ensures rate { result ≡ jump.rate_for self.now runner.now }
        ensures some { 0 < result }
        ensures slow { result ≤ 2 ^ 27 }
    {
        let sum = self.sum();
        let cpus = u64::from(self.cpus());
        grub_rules::rate(&runner.params, runner.uinact, sum, cpus, self.limit())
    }

    /// The number of ticks from the beginning of the tick that has begun to the next in which
    /// something is to be done before the choice: a task is replenished, its zero-lag time comes,
    /// it asks its script, or it goes off the list. 2^42 where there is none. Until then every tick
    /// does the same to every task, while no work ends and no budget is spent.
    pub fn quiet(&self) -> u64
        ensures quiet { result ≡ jump.ticks_to_event self.now }
        ensures some { 0 < result }
        ensures most { result ≤ clock_end }
    {
        1 + self.task_table.ticks_to_due(self.time)
    }

    /// As [`State::finish`], and the log records what happens at the end of the last of the ticks:
    /// jobs that end, with what is released at once, and budgets that are spent, in the order of
    /// "Happened". The ends of the others and their beginnings log nothing. Takes no memory.
    pub fn finish_logged(&mut self, ticks: u64, budgets: &[i128], log: &mut Log)
        requires begun { jump.IsUnderWay self.old }
        requires some { 0 < ticks }
        requires quiet { ticks ≤ jump.ticks_to_event self.old }
        requires early { self.old.time + ticks ≤ clock_end + 1 }
        requires charged { jump.AreCharged self.old ticks budgets.now }
        requires room { HasRoomToEnd log.old }
        ensures domain { (d : Domain) → self.old ≡ jump.under_way d
            → self.new ≡ tick.ticks ticks d }
        ensures logged { (d : Domain) → self.old ≡ jump.under_way d
            → HasLogged log.old (logged_by_last_end ticks d) log.new }
        ensures quiet { (d : Domain) → self.old ≡ jump.under_way d
            → logged_by_ticks ticks d ≡ logged_by_beginning d ++ logged_by_last_end ticks d }
        ensures switches { self.new.switches ≡ self.old.switches }
    {
        relist(
            &mut self.running,
            self.is_listed,
            self.task_table.occupants(),
        );
        self.is_listed = true;
        let time = self.time + (ticks - 1);
        sweep::pay_all(
            &mut self.task_table,
            &self.running,
            budgets,
            ticks,
            time,
            log,
        );
        self.time = time;
    }

    /// Ends the tick that has begun, and so many ticks in all: every running task has run in each,
    /// and what is left of its budget is given, by CPU. They are at most [`State::quiet`] and at
    /// most the work of each, and no budget is spent before the last of them. The domain is then as
    /// after so many single ticks from where it was before [`State::begin`].
    pub fn finish(&mut self, ticks: u64, budgets: &[i128])
        requires begun { jump.IsUnderWay self.old }
        requires some { 0 < ticks }
        requires quiet { ticks ≤ jump.ticks_to_event self.old }
        requires early { self.old.time + ticks ≤ clock_end + 1 }
        requires charged { jump.AreCharged self.old ticks budgets.now }
        ensures { (d : Domain) → self.old ≡ jump.under_way d → self.new ≡ tick.ticks ticks d }
    {
        let mut log = self.silent();
        self.finish_logged(ticks, budgets, &mut log);
    }

    /// A log that keeps nothing, for calls that need one. Takes no memory.
    pub fn silent(&self) -> Log
        ensures { result.wanted ≡ false }
    {
        Log::silent(*self.switches.allocator())
    }
}
