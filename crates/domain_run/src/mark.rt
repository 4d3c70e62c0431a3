//! What ticks change of a task.

use crate::task::Condition;
use cbs_rules::Server;

/// What ticks change of a task. Its number, parameters, name and script stay the same. Times are in
/// microseconds from the beginning of the domain.
#[derive(Clone, Copy, PartialEq, Eq)]
pub struct TaskMark {
    /// The CPU of the domain to which it belongs, from 0.
    pub cpu: usize,
    pub condition: Condition,
    /// Work left in its segment, in microseconds.
    pub work: u64,
    /// Until when its bandwidth stays active though it does not contend.
    pub zero_lag: Option<u64>,
    pub server: Server,
    /// The round of its script, from 0. In a script without end it is always 0.
    pub round: u64,
    /// The place of its next event in the round, from 0.
    pub step: u64,
    /// From when its timers count.
    pub reference: u64,
}

/// What a caller may see of a task, to compare it with itself at another time.
#[derive(Clone, Copy)]
pub struct TaskSeen {
    /// 1 to 65535.
    pub number: u32,
    pub mark: TaskMark,
    /// The number of rounds of its script; none if that has no end.
    pub rounds: Option<u64>,
    /// Whether its script has a timer.
    pub is_timed: bool,
}
