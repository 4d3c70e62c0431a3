//! The switches of a domain: which CPU goes from whom to whom.

ghost use Rattle.std.specs.Prelude.{◌≡◌, ◌+◌, ◌<◌, ◌^◌};
ghost use Rattle.domain_run.specs.Later.{later_switch};
ghost use Rattle.domain_run.specs.Switch.{IsLeftIn};
ghost use Rattle.domain_run.specs.private.Packed as packed;
ghost use Rattle.limits.specs.Limits.{deadline_end};

use edf_pick::Moved;
use std::marker::Model;

// The time of a switch is kept as what is below this, and how many times it goes into it.
const HIGHER: u64 = 1 << 32;

/// What a task was doing when a switch took its CPU away: the event's prev_state. Idle is always
/// [`PrevState::Running`].
#[derive(Clone, Copy)]
pub enum PrevState {
    /// `R`: idle left the CPU.
    Running,
    /// `R+`: the task still wants the CPU: preempted, or throttled.
    Preempted,
    /// `S`: the task sleeps, or waits for a wake call.
    Sleeping,
    /// `X`: the task has ended.
    Dead,
}

// In which state an occupant leaves a CPU, and whether a task comes there or idle. Idle to idle is
// no switch.
#[derive(Clone, Copy)]
enum Handover {
    IdleToIdle,
    IdleToTask,
    PreemptedToIdle,
    PreemptedToTask,
    SleepingToIdle,
    SleepingToTask,
    DeadToIdle,
    DeadToTask,
}

fn handover_of(state: PrevState, next: Option<u32>) -> Handover
    ensures { result ≡ packed.handover_of state next }
{
    match (state, next) {
        (PrevState::Running, None) => Handover::IdleToIdle,
        (PrevState::Running, Some(_)) => Handover::IdleToTask,
        (PrevState::Preempted, None) => Handover::PreemptedToIdle,
        (PrevState::Preempted, Some(_)) => Handover::PreemptedToTask,
        (PrevState::Sleeping, None) => Handover::SleepingToIdle,
        (PrevState::Sleeping, Some(_)) => Handover::SleepingToTask,
        (PrevState::Dead, None) => Handover::DeadToIdle,
        (PrevState::Dead, Some(_)) => Handover::DeadToTask,
    }
}

/// One switch of a CPU from one occupant to another (the event sched_switch), in 16 bytes.
/// Contracts see it as what its calls log.
#[derive(Clone, Copy)]
pub struct Switch {
    // The lower 32 bits of the time; `high` has the 16 above them.
    low: u32,
    // The numbers of who leaves and who comes, 0 for idle.
    leaves: u32,
    comes: u32,
    high: u16,
    on: u8,
    handover: Handover,
}

impl Model for Switch {
    ghost use Rattle.std.specs.Prelude.{◌+◌, ◌*◌, ◌/◌, ◌%◌, ◌^◌};
    ghost use Rattle.domain_run.specs.Switch.{Switch};
    ghost use Rattle.domain_run.specs.private.Packed.{state_in, prev_in, next_in, handover_of, number_or_0, IsPacked, handed_over, lower_of, higher_of};

    ghost Value = { Switch };

    ghost view = { λ s. record {
      time = s.high * 2 ^ 32 + s.low;
      prev = prev_in s.handover s.leaves;
      next = next_in s.handover s.comes;
      cpu = s.on;
      state = state_in s.handover;
    } };

    ghost invariant = { λ s. IsPacked s.handover s.low s.leaves s.comes };

    ghost inverse = { λ v. record {
      low = v.time % 2 ^ 32;
      leaves = number_or_0 v.prev;
      comes = number_or_0 v.next;
      high = v.time / 2 ^ 32;
      on = v.cpu;
      handover = handover_of v.state v.next;
    } };

    ghost inverse_ok = { λ s h i. record {
      low = lower_of s.high s.low h.lower i;
      leaves = h.prev i;
      comes = h.next i;
      high = higher_of s.high s.low h.lower i;
      on = s.on;
      handover = handed_over s.handover s.comes i;
    } };
}

impl Switch {
    /// The switch from the task with the number `prev` to the one with the number `next`, none for
    /// idle, on a CPU of the domain, from 0, below 256, at a time in microseconds, below 2^48. Idle
    /// leaves in the state [`PrevState::Running`], and no task does.
    #[inline(always)]
    pub fn new(
        time: u64,
        prev: Option<u32>,
        next: Option<u32>,
        cpu: u16,
        state: PrevState,
    ) -> Switch
        requires early { time < deadline_end }
        requires narrow { cpu < 256 }
        requires left { IsLeftIn state prev }
        ensures { result ≡ record {
          time = time;
          prev = prev;
          next = next;
          cpu = cpu;
          state = state;
        } }
    {
        Switch {
            low: (time % HIGHER) as u32,
            leaves: prev.unwrap_or(0),
            comes: next.unwrap_or(0),
            high: (time / HIGHER) as u16,
            on: cpu as u8,
            handover: handover_of(state, next),
        }
    }

    /// When, in microseconds.
    #[inline(always)]
    pub fn time(&self) -> u64
        ensures { result ≡ self.now.time }
    {
        u64::from(self.high) * HIGHER + u64::from(self.low)
    }

    /// The same switch `micros` microseconds later, below 2^48.
    #[inline(always)]
    pub fn later(&self, micros: u64) -> Switch
        requires { self.now.time + micros < deadline_end }
        ensures { result ≡ later_switch micros self.now }
    {
        let time = self.time() + micros;
        let low = (time % HIGHER) as u32;
        let high = (time / HIGHER) as u16;
        Switch {
            low,
            leaves: self.leaves,
            comes: self.comes,
            high,
            on: self.on,
            handover: self.handover,
        }
    }

    /// The number of the task that leaves, none for idle.
    #[inline(always)]
    pub fn prev(&self) -> Option<u32>
        ensures { result ≡ self.now.prev }
    {
        match self.handover {
            Handover::IdleToIdle | Handover::IdleToTask => None,
            Handover::PreemptedToIdle
            | Handover::PreemptedToTask
            | Handover::SleepingToIdle
            | Handover::SleepingToTask
            | Handover::DeadToIdle
            | Handover::DeadToTask => Some(self.leaves),
        }
    }

    /// The number of the task that comes, none for idle.
    #[inline(always)]
    pub fn next(&self) -> Option<u32>
        ensures { result ≡ self.now.next }
    {
        match self.handover {
            Handover::IdleToIdle
            | Handover::PreemptedToIdle
            | Handover::SleepingToIdle
            | Handover::DeadToIdle => None,
            Handover::IdleToTask
            | Handover::PreemptedToTask
            | Handover::SleepingToTask
            | Handover::DeadToTask => Some(self.comes),
        }
    }

    /// The CPU of the domain, from 0.
    #[inline(always)]
    pub fn cpu(&self) -> u16
        ensures { result ≡ self.now.cpu }
    {
        u16::from(self.on)
    }

    /// In which state the previous occupant leaves.
    #[inline(always)]
    pub fn state(&self) -> PrevState
        ensures { result ≡ self.now.state }
    {
        match self.handover {
            Handover::IdleToIdle | Handover::IdleToTask => PrevState::Running,
            Handover::PreemptedToIdle | Handover::PreemptedToTask => PrevState::Preempted,
            Handover::SleepingToIdle | Handover::SleepingToTask => PrevState::Sleeping,
            Handover::DeadToIdle | Handover::DeadToTask => PrevState::Dead,
        }
    }
}

/// Part 5: the switch of a CPU that another one has.
#[inline(always)]
pub(crate) fn switch_of(time: u64, moved: Moved, next: Option<u32>, state: PrevState) -> Switch
    requires early { time < deadline_end }
    requires narrow { moved.cpu < 256 }
    requires left { IsLeftIn state moved.before }
    ensures { result ≡ record {
      time = time;
      prev = moved.before;
      next = next;
      cpu = moved.cpu;
      state = state;
    } }
{
    Switch::new(time, moved.before, next, moved.cpu as u16, state)
}
