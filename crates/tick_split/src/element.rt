use attr_check::Params;

/// A running task before a jump: what its rate depends on, what is left of its budget, and the two
/// numbers that are worked out.
#[derive(Clone, Copy, PartialEq, Eq)]
pub struct Plan {
    /// The task's parameters.
    pub params: Params,
    /// What is inactive on its CPU, in 1/2^20 of a CPU, at most 2^26.
    pub uinact: u64,
    /// The bandwidth of all tasks of the domain, in 1/2^20 of a CPU, at most 2^26.
    pub sum: u64,
    /// The CPUs of the domain, 1 to 64.
    pub cpus: u64,
    /// The domain's limit, in 1/2^20 of a CPU, 10485 to 1048576.
    pub limit: u64,
    /// Budget left, in 1/2^20 us, above 0 and at most 2^63.
    pub left: i128,
    /// Worked out: the rate at which the task uses its budget up, in 1/2^20, at least 1; at most
    /// 2^27 where the domain is within its cap.
    pub rate: u64,
    /// Worked out: the first tick, counted from 1, after which nothing is left at that rate, in
    /// microseconds.
    pub spent: u64,
}

/// A running task at the end of a jump: its budget, and what is to be taken off it.
#[derive(Clone, Copy, PartialEq, Eq)]
pub struct Slice {
    /// Budget left, in 1/2^20 us, within 2^63 either side; the charge lowers it.
    pub left: i128,
    /// The rate at which the task used its budget up, in 1/2^20, at most 2^32.
    pub rate: u64,
    /// How long it ran, in microseconds, at most 2^42.
    pub ticks: u64,
}
