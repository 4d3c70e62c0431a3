/// A switch of a recording, with the number of the task's name.
#[derive(Clone, Copy)]
pub struct Step {
    /// When, in microseconds of the recording's clock.
    pub time: u64,
    /// On which CPU of the machine.
    pub cpu: u16,
    /// The number of the name of the task that comes, where its priority is below 0.
    pub task: Option<usize>,
}
