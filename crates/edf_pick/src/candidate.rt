/// A ready task as the choice sees it.
#[derive(Clone, Copy)]
pub struct Candidate {
    /// Scheduling deadline, in microseconds from the beginning. The earliest goes first.
    pub deadline: u64,
    /// Number of the task. The smallest goes first where deadlines are equal.
    pub number: u32,
    /// The CPU to which the task belongs, from 0 on.
    pub home: u32,
}
