//! What of a recording counts.

/// How a task left a CPU.
#[derive(Clone, Copy, Debug, PartialEq, Eq)]
pub enum Leave {
    /// It still wants the CPU: the recording has the state `R` or `R+`.
    Ready,
    /// It waits: any other state.
    Blocked,
    /// It ended: the state is `X` or `Z`.
    Gone,
}

/// What happened.
#[derive(Clone, Copy, Debug)]
pub enum What {
    /// One thread left a CPU and another came.
    Switch {
        /// The number of the task that left, if it is one of the tasks.
        leaves: Option<usize>,
        /// How that thread left.
        how: Leave,
        /// The number of the task that came, if it is one of the tasks and counts.
        comes: Option<usize>,
    },
    /// A thread was woken.
    Wake {
        /// The number of the task, if it is one of the tasks and counts.
        task: Option<usize>,
    },
}

/// A switch or a wake of a recording.
#[derive(Clone, Copy, Debug)]
pub struct Moment {
    /// When, in microseconds of the recording's clock.
    pub time: u64,
    /// The CPU of a switch.
    pub cpu: u16,
    pub what: What,
}
