//! A listed task.

ghost use Rattle.std.specs.Prelude.{◌≡◌};
ghost use Rattle.domain_run.specs.Conditions as conditions;

use attr_check::Params;
use cbs_rules::Server;
use task_script::{Cursor, Name};

/// What a task is doing.
#[derive(Clone, Copy, PartialEq, Eq)]
pub enum Condition {
    /// It contends for a CPU, with budget left.
    Ready,
    /// It contends, with no budget left, until it is replenished at its deadline.
    Throttled,
    /// It asks its script again at this time, in microseconds.
    Blocked(u64),
    /// It waits for a wake call.
    Waiting,
    /// It has ended, and stays listed until its zero-lag time.
    Leaving,
}

impl Condition {
    pub(crate) fn is_ready(self) -> bool
        ensures { result ≡ conditions.is_ready self }
    {
        matches!(self, Condition::Ready)
    }

    pub(crate) fn is_throttled(self) -> bool
        ensures { result ≡ conditions.is_throttled self }
    {
        matches!(self, Condition::Throttled)
    }

    pub(crate) fn is_contending(self) -> bool
        ensures { result ≡ conditions.is_contending self }
    {
        matches!(self, Condition::Ready | Condition::Throttled)
    }

    pub(crate) fn is_waiting(self) -> bool
        ensures { result ≡ conditions.is_waiting self }
    {
        matches!(self, Condition::Waiting)
    }

    pub(crate) fn is_leaving(self) -> bool
        ensures { result ≡ conditions.is_leaving self }
    {
        matches!(self, Condition::Leaving)
    }

    pub(crate) fn is_over(self, time: u64) -> bool
        ensures { result ≡ conditions.is_over time self }
    {
        match self {
            Condition::Blocked(until) => until <= time,
            _ => false,
        }
    }
}

/// A task of a domain. What an event reads comes first, in few lines of the cache; the name, which
/// none reads, at the end.
#[derive(Drop)]
pub struct Task {
    /// 1 to 65535.
    pub number: u32,
    /// The CPU of the domain to which it belongs, from 0.
    pub cpu: usize,
    pub condition: Condition,
    /// Work left in its segment, in microseconds.
    pub work: u64,
    /// Until when its bandwidth stays active though it does not contend, in microseconds.
    pub zero_lag: Option<u64>,
    pub params: Params,
    pub server: Server,
    pub cursor: Cursor,
    pub name: Name,
}

/// What a caller may see of a task.
#[derive(Clone, Copy, PartialEq, Eq)]
pub struct TaskView {
    pub server: Server,
    pub condition: Condition,
    /// Until when its bandwidth stays active though it does not contend, in microseconds.
    pub zero_lag: Option<u64>,
    /// The CPU of the domain to which it belongs, from 0.
    pub cpu: usize,
    pub params: Params,
}
