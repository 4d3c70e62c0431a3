/// How far the recording's clock is from the model's.
#[derive(Clone, Copy)]
pub struct Shift {
    /// Whether it is behind.
    pub behind: bool,
    /// By how many microseconds.
    pub us: u64,
}

/// How far matched runs were apart, in microseconds.
#[derive(Clone, Copy)]
pub struct Spread {
    /// Half of them at most so far.
    pub half: u64,
    /// 95 of a hundred at most so far.
    pub most: u64,
    /// All at most so far.
    pub max: u64,
}

/// A stretch of time, in microseconds: of the model's clock for a run of the model, of the
/// recording's for a recorded one.
#[derive(Clone, Copy)]
pub struct Stretch {
    /// When it begins.
    pub start: u64,
    /// When it ends.
    pub end: u64,
}

/// What is told of a task.
#[derive(Clone, Copy)]
pub struct Row<'a> {
    /// The task's name.
    pub name: &'a [u8],
    /// How many runs the model has of it.
    pub runs: u64,
    /// How many runs were recorded inside the model's time.
    pub recorded: u128,
    /// How many of them match.
    pub matched: u64,
    /// How far the starts of these are apart.
    pub starts: Option<Spread>,
    /// How far their ends are apart.
    pub ends: Option<Spread>,
    /// The CPU time of the model's runs, in microseconds.
    pub cpu: u128,
    /// The CPU time of the recorded ones.
    pub recorded_cpu: u128,
}

/// A run of a task.
#[derive(Clone, Copy)]
pub struct Place<'a> {
    /// The task's name.
    pub name: &'a [u8],
    /// Which of the task's runs it is, from 0.
    pub number: u64,
    /// From when to when.
    pub run: Stretch,
}
