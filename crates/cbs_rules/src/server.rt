/// The server of a task: its scheduling deadline and what is left of its budget.
#[derive(Clone, Copy, PartialEq, Eq)]
pub struct Server {
    /// Scheduling deadline, in microseconds; none before the first wake.
    pub deadline: Option<u64>,
    /// Budget left, in 1/2^20 us; it may have gone below zero.
    pub left: i128,
}
