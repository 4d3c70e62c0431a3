//! What is logged of a run.

/// Of the jobs of a task that ended: how long they took from release to end, in microseconds, and
/// how far the end was before the deadline.
#[derive(Clone, Copy)]
pub struct Responses {
    /// The least response.
    pub least: u64,
    /// The mean response, rounded down.
    pub mean: u128,
    /// The greatest response.
    pub most: u64,
    /// The least slack; below 0 where a job ended late.
    pub slack: i128,
}

/// The figures of a task. Times are in microseconds.
#[derive(Clone, Copy)]
pub struct TaskFigures {
    /// 1 to 65535.
    pub number: u32,
    /// Runtime in each period, as it is at the end.
    pub runtime: u64,
    /// Period, as it is at the end.
    pub period: u64,
    /// How many jobs ended.
    pub jobs: u64,
    /// How many ended after their deadline, or were under way after it at the end of the run.
    pub late: u64,
    /// Of the jobs that ended; none where none did.
    pub responses: Option<Responses>,
    /// How often it was throttled.
    pub throttled: u64,
    /// How long it was throttled, up to the end of the run.
    pub throttled_us: u128,
    /// How often a CPU was taken from it while it wanted it and was not throttled.
    pub preempted: u64,
    /// How often it was placed on another CPU than that on which it ran last.
    pub migrated: u64,
    /// Its CPU time: less than 2^108.
    pub cpu_us: u128,
}

/// The figures of a CPU.
#[derive(Clone, Copy)]
pub struct CpuFigures {
    /// How long it had a task, in microseconds: less than 2^108.
    pub busy_us: u128,
    /// How often it switched.
    pub switches: u64,
}

/// The figures of a run.
#[derive(Drop)]
pub struct Summary {
    /// Of the tasks, in the order in which they were given.
    pub tasks: Vec<TaskFigures>,
    /// Of the CPUs of the domain, from 0.
    pub cpus: Vec<CpuFigures>,
}
