//! How a task goes on while a run repeats.

/// How a task goes on while a run repeats: what a period does to it.
#[derive(Clone, Copy)]
pub enum Pace {
    /// It waits for a call, and stays as it is.
    Rests,
    /// It plays its script. Its times are a period later. In a finite script it is this many rounds
    /// further on; in one without end, 0.
    Plays(u64),
    /// Its work lasts longer than the period. Its times are a period later, and this many
    /// microseconds of the work are done.
    Works(u64),
}
