/// Runtime, relative deadline and period of a task, in microseconds, as a line has them.
#[derive(Clone, Copy)]
pub(crate) struct Times {
    pub(crate) runtime: u64,
    pub(crate) deadline: u64,
    pub(crate) period: u64,
}
