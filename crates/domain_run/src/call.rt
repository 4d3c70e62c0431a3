use attr_check::Params;
use task_script::{Name, Script};

/// A call on a domain, made at its time now, between two ticks.
#[derive(Drop)]
pub enum Call {
    /// Lists a new task, which starts after a delay.
    Admit {
        /// 1 to 65535.
        number: u32,
        name: Name,
        params: Params,
        /// From now to the start of the task, 0 to 10^9 us.
        delay: u64,
        script: Script,
    },
    /// Gives a listed task new parameters.
    Regrade {
        number: u32,
        params: Params,
        /// The number with which the domain's bandwidth word refused, where it did.
        word: Option<u64>,
    },
    /// Wakes a task that waits.
    Wake {
        number: u32,
    },
    /// Ends a task.
    Leave {
        number: u32,
    },
    /// Goes on by so many ticks, 1 to 60000000.
    Advance {
        ticks: u64,
    },
    /// Changes what the domain may give away of each CPU, 10485 to 1048576 in 1/2^20.
    Limit {
        limit: u64,
        /// The number with which the domain's bandwidth word refused, where it did.
        word: Option<u64>,
    },
    /// Takes a task off the list, for another domain.
    Depart {
        number: u32,
    },
    /// Lists a task that comes from another domain: as an admission without a delay.
    Arrive {
        /// 1 to 65535.
        number: u32,
        name: Name,
        params: Params,
        script: Script,
    },
}

/// What a domain answers to a call.
#[derive(Clone, Copy, Debug, PartialEq, Eq)]
pub enum Reply {
    /// The task is listed.
    Admitted,
    /// The task has the new parameters.
    Changed,
    /// The task asks its script in the next tick.
    Woken,
    /// The task has ended.
    Left,
    /// So many ticks were made.
    Done { ticks: u64 },
    /// The limit is the new one.
    Set,
    /// The task is off the list.
    Departed,
    /// 40: 256 tasks are listed.
    Full,
    /// 41: a task of this number was admitted here before.
    Twice,
    /// EBUSY 16: the bandwidth found does not leave enough below the cap, or is above the new one.
    Busy { seen: u64 },
    /// ESRCH 3: no such task is listed, or it has ended.
    NotListed,
    /// 42: the task does not wait.
    NotWaiting,
}

/// A task that was not admitted: why, and what was handed in.
#[derive(Debug, Drop)]
pub struct Refused {
    /// [`Reply::Full`], [`Reply::Twice`] or [`Reply::Busy`].
    pub reply: Reply,
    pub name: Name,
    pub script: Script,
}
