//! Jobs of a task.

/// A job: what a task did from one closed stretch to the next.
#[derive(Clone, Copy, Debug)]
pub struct Job {
    /// When its first stretch began, in microseconds of the recording's clock.
    pub start: u64,
    /// How long it ran, in microseconds.
    pub work: u128,
    /// When its last stretch ended, if that is closed.
    pub end: Option<u64>,
    /// Whether the task ended with it.
    pub gone: bool,
}

/// A job and when it was released.
#[derive(Clone, Copy, Debug)]
pub struct Release {
    /// In microseconds of the recording's clock.
    pub time: u64,
    /// Whether a wake line says so.
    pub woken: bool,
    pub job: Job,
}
