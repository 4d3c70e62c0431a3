/// A stretch of a task on a CPU.
#[derive(Clone, Copy)]
pub struct Run {
    /// When it began, in microseconds.
    pub start: u64,
    /// When it ended, in microseconds.
    pub end: u64,
    /// On which CPU of the machine.
    pub cpu: u16,
}
