//! What happens to a task in a run, beside the switches (own).

ghost use Rattle.std.specs.Prelude.{◌≡◌};
ghost use Rattle.domain_run.specs.Happened as happened_spec;

/// What happens to a task. Of what happens at one time, this is the order. A deadline is a time in
/// microseconds.
#[derive(Clone, Copy)]
pub enum What {
    /// A tick ends with its job: at the end of its work its script was asked, and passed a sleep, a
    /// timer or a wait, or has ended.
    JobEnds,
    /// A tick ends with its job, and its next one is released at once, since the timer was late. It
    /// is due its relative deadline later.
    NextReleased { deadline: u64 },
    /// A tick ends with its budget, and it is throttled, with this deadline of its server.
    Spent { deadline: u64 },
    /// A call ends it, or takes it to another domain: a job that it has is cut.
    Cut,
    /// A tick begins, and it is throttled no more. Its server has this new deadline.
    Replenished { deadline: u64 },
    /// A tick begins with a job that is released to it. It is due its relative deadline later.
    Released { deadline: u64 },
    /// It wakes so without budget, and is throttled at once, with this deadline of its server.
    WokenSpent { deadline: u64 },
}

impl What {
    /// Its place, 0 to 6, in the order of what happens at one time: what ends a tick comes first,
    /// then the calls between two ticks, then what begins a tick.
    pub fn rank(self) -> u8
        ensures { result ≡ happened_spec.kind_rank self }
    {
        match self {
            What::JobEnds => 0,
            What::NextReleased { .. } => 1,
            What::Spent { .. } => 2,
            What::Cut => 3,
            What::Replenished { .. } => 4,
            What::Released { .. } => 5,
            What::WokenSpent { .. } => 6,
        }
    }
}

/// Something that happens to a task.
#[derive(Clone, Copy)]
pub struct Happened {
    /// When, in microseconds.
    pub time: u64,
    /// What.
    pub what: What,
    /// The number of the task.
    pub number: u32,
    /// The CPU of the domain to which it belongs then, from 0; where a tick begins, once that tick
    /// has placed its tasks.
    pub cpu: u16,
}
