//! A domain while its ticks are made piece by piece.

ghost use Rattle.std.specs.Prelude.{◌≡◌, ◌<◌, ◌≤◌, ◌+◌, ◌-◌, ◌++◌, [], All, length, IfOk, IfErr};
ghost use Rattle.domain_run.specs.LoggedRun.{IsLoggedUntil, IsLoggedFrom};
ghost use Rattle.domain_run.specs.Sound.{IsDomain};
ghost use Rattle.domain_run.specs.Tick as tick;
ghost use Rattle.limits.specs.Limits.{clock_end};

use domain_run::{Happened, LoggedRun, State};
use repeat_run::Repeating;
use std::alloc::Global;

/// A domain while its ticks are made piece by piece. Its switches wait in a buffer. No call on it
/// is refused for want of memory.
#[derive(Drop)]
pub(super) enum Ticking {
    /// What happens is not logged. While the run repeats, the switches of a period are given again.
    Silent(Repeating),
    /// What happens waits in a log.
    Logs(LoggedRun),
}

/// Makes at most `n` ticks, until the buffer has no room for the switches of one event more. What
/// happens is not kept. How many of the ticks are left.
fn fill_unlogged(logged_run: &mut LoggedRun, n: u64) -> u64
    requires { logged_run.old.domain.time + n ≤ clock_end }
    ensures made { logged_run.new.domain ≡ tick.ticks (n - result) logged_run.old.domain }
    ensures most { result ≤ n }
    ensures full { 0 < result → 0 < length logged_run.new.domain.switches }
    ensures logged { logged_run.new.logged ≡ [] }
{
    let mut left = n;
    forget_logged(logged_run);
    'pieces: while left > 0 {
        left = logged_run.fill(left);
        forget_logged(logged_run);
        if !logged_run.switches().is_empty() {
            return left;
        }
    }
    0
}

/// Forgets all that waits in the log.
fn forget_logged(logged_run: &mut LoggedRun)
    ensures domain { logged_run.new.domain ≡ logged_run.old.domain }
    ensures logged { logged_run.new.logged ≡ [] }
{
    let count = logged_run.logged().len();
    logged_run.forget_front(0, count);
}

impl Ticking {
    ghost use Rattle.std.specs.Prelude.{drop};
    ghost use Rattle.domain_run.specs.Passing.{without_front, without_switches};
    ghost use Rattle.call_book.specs.Playing.{logged_if};
    ghost use Rattle.call_book.specs.private.Ticking.{domain_in, logs_in, waits_in};

    /// A domain with a buffer for its switches, those so far among them, and with an empty log, if
    /// what happens is to be logged.
    ///
    /// # Errors
    /// The state as it was: the room was refused.
    pub(super) fn of(alloc: Global, state: State, logs: bool) -> Result<Ticking, State>
        ensures domain { IfOk result (λ t. domain_in t ≡ state) }
        ensures logs { IfOk result (λ t. logs_in t ≡ logs) }
        ensures logged { IfOk result (λ t. waits_in t ≡ []) }
        ensures err { IfErr result (λ s. s ≡ state) }
    {
        if logs {
            match LoggedRun::try_of(alloc, state) {
                Ok(logged_run) => Ok(Ticking::Logs(logged_run)),
                Err(state) => Err(state),
            }
        } else {
            match Repeating::try_of(alloc, state) {
                Ok(repeating) => Ok(Ticking::Silent(repeating)),
                Err(state) => Err(state),
            }
        }
    }

    /// The domain, whose switches wait in a buffer no more. What waits in the log is gone.
    pub(super) fn into_state(self) -> State
        ensures { result ≡ domain_in self }
    {
        match self {
            Ticking::Silent(repeating) => repeating.into_state(),
            Ticking::Logs(logged_run) => logged_run.into_state(),
        }
    }

    /// The domain, to be looked at.
    pub(super) fn state(&self) -> &State
        ensures state { result.now ≡ domain_in self.now }
        ensures domain { IsDomain (domain_in self.now) }
    {
        match self {
            Ticking::Silent(repeating) => repeating.state(),
            Ticking::Logs(logged_run) => logged_run.state(),
        }
    }

    /// What happened and waits in the log.
    pub(super) fn logged(&self) -> &[Happened]
        ensures { result.now ≡ waits_in self.now }
    {
        match self {
            Ticking::Silent(_) => &[],
            Ticking::Logs(logged_run) => logged_run.logged(),
        }
    }

    /// Forgets the first `count` of the switches that wait, or all if they are fewer.
    pub(super) fn forget_front(&mut self, count: usize)
        ensures domain { domain_in self.new ≡ without_front count (domain_in self.old) }
        ensures logs { logs_in self.new ≡ logs_in self.old }
        ensures logged { waits_in self.new ≡ waits_in self.old }
    {
        match self {
            Ticking::Silent(repeating) => repeating.forget_front(count),
            Ticking::Logs(logged_run) => logged_run.forget_front(count, 0),
        }
    }

    /// Forgets all switches that wait.
    pub(super) fn forget_switches(&mut self)
        ensures domain { domain_in self.new ≡ without_switches (domain_in self.old) }
        ensures logs { logs_in self.new ≡ logs_in self.old }
        ensures logged { waits_in self.new ≡ waits_in self.old }
    {
        match self {
            Ticking::Silent(repeating) => repeating.forget_switches(),
            Ticking::Logs(logged_run) => {
                let count = logged_run.switches().len();
                logged_run.forget_front(count, 0);
            }
        }
    }

    /// Forgets the first `count` of what waits in the log, or all if it is less.
    pub(super) fn forget_logged(&mut self, count: usize)
        ensures domain { domain_in self.new ≡ domain_in self.old }
        ensures logs { logs_in self.new ≡ logs_in self.old }
        ensures logged { waits_in self.new ≡ drop count (waits_in self.old) }
    {
        match self {
            Ticking::Silent(_) => {}
            Ticking::Logs(logged_run) => logged_run.forget_front(0, count),
        }
    }

    /// Makes at most `n` ticks, from event to event, until the buffer has no room for the switches
    /// of one event more: how many of them are left. The new switches are added after those that
    /// wait. What happens is not kept, and what waits in the log is forgotten. If ticks are left,
    /// at least one switch waits.
    pub(super) fn fill(&mut self, n: u64) -> u64
        requires { (domain_in self.old).time + n ≤ clock_end }
        ensures made { domain_in self.new ≡ tick.ticks (n - result) (domain_in self.old) }
        ensures most { result ≤ n }
        ensures full { 0 < result → 0 < length (domain_in self.new).switches }
        ensures logs { logs_in self.new ≡ logs_in self.old }
        ensures logged { waits_in self.new ≡ [] }
    {
        match self {
            Ticking::Silent(repeating) => repeating.fill(n),
            Ticking::Logs(logged_run) => fill_unlogged(logged_run, n),
        }
    }

    /// As [`Ticking::fill`], but what happens is kept if it is logged: it is added after what waits
    /// in the log, and the ticks also stop if the log has no room for what one event more logs. If
    /// ticks are left, at least one switch waits, or something that happened.
    pub(super) fn fill_logged(&mut self, n: u64) -> u64
        requires { (domain_in self.old).time + n ≤ clock_end }
        ensures made { domain_in self.new ≡ tick.ticks (n - result) (domain_in self.old) }
        ensures most { result ≤ n }
        ensures full { 0 < result
            → 0 < length (domain_in self.new).switches + length (waits_in self.new) }
        ensures logs { logs_in self.new ≡ logs_in self.old }
        ensures logged { waits_in self.new
            ++ logged_if (logs_in self.new) result (domain_in self.new)
            ≡ waits_in self.old ++ logged_if (logs_in self.old) n (domain_in self.old) }
        ensures past { All (IsLoggedUntil (domain_in self.old).time) (waits_in self.old)
            → All (IsLoggedUntil (domain_in self.new).time) (waits_in self.new) }
        ensures unlogged { All (IsLoggedFrom (domain_in self.new).time)
            (logged_if (logs_in self.new) result (domain_in self.new)) }
    {
        match self {
            Ticking::Silent(repeating) => repeating.fill(n),
            Ticking::Logs(logged_run) => logged_run.fill(n),
        }
    }
}
