//! What is asked of an import.

/// What is asked of an import.
#[derive(Clone, Copy)]
pub struct ImportOptions {
    /// CPUs of the domain, 1 to 64; none for the number of CPUs on which the tasks ran.
    pub cpus: Option<u32>,
    /// What the tasks may take of each CPU, 10485 to 1048576 (1/2^20 of a CPU).
    pub limit: u64,
    /// Nothing before this time counts, in microseconds of the recording's clock.
    pub from: u64,
    /// Nothing after this time counts.
    pub to: u64,
    /// Whether a task counts with any priority, and not only with one below 0.
    pub any_policy: bool,
}
