/// A task as the sums of a CPU see it.
#[derive(Clone, Copy, PartialEq, Eq)]
pub struct Share {
    /// The CPU to which the task belongs.
    pub cpu: usize,
    /// Its bandwidth, in 1/2^20 of a CPU.
    pub bw: u64,
    /// Whether it contends or has a zero-lag time ahead.
    pub active: bool,
}
