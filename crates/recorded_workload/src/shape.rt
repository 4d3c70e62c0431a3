//! The domain of a workload.

/// The domain of a workload.
#[derive(Clone, Copy)]
pub struct Shape {
    /// How many CPUs it has, 1 to 64; none for the number of CPUs on which the tasks ran.
    pub cpus: Option<u32>,
    /// What its tasks may take of each CPU, 10485 to 1048576 (1/2^20 of a CPU).
    pub limit: u64,
}
