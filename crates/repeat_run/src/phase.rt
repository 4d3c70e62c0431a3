//! The phases of a run that looks for a period.

use domain_run::{Pace, Switch, TaskSeen};

/// When to look next. It is only a hint.
#[derive(Clone, Copy)]
pub(crate) struct Watch {
    /// Ticks between two looks.
    pub(crate) span: u64,
    /// Ticks until the next look.
    pub(crate) next: u64,
    /// Ticks and switches since it was all written down.
    pub(crate) since: u64,
    pub(crate) switches: u64,
    /// Looks since then, and at how many of them it is all written down again.
    pub(crate) looks: u32,
    pub(crate) power: u32,
}

/// A period that is being written down.
#[derive(Clone, Copy)]
pub(crate) struct Recording {
    /// Ticks of the period, and how many of them were made.
    pub(crate) micros: u64,
    pub(crate) made: u64,
}

/// A period that is given again.
#[derive(Clone, Copy)]
pub(crate) struct Giving {
    /// Ticks of the period.
    pub(crate) micros: u64,
    /// How much later than the first the next one is.
    pub(crate) later_by: u64,
    /// How many may be given.
    pub(crate) left: u64,
}

/// What is known of the run.
#[derive(Clone, Copy)]
pub(crate) enum Phase {
    /// Nothing: a call came.
    Fresh,
    /// Nothing, and it is not looked for.
    Tired,
    /// It is compared with an earlier time, again and again.
    Looking(Watch),
    /// A time looked like an earlier one; the period after it is written down.
    Recording(Recording),
    /// It repeats.
    Giving(Giving),
}

/// What was written down.
#[derive(Drop)]
pub(crate) struct Kept {
    /// All tasks, and who ran on each CPU.
    pub(crate) seen: Vec<TaskSeen>,
    pub(crate) running: Vec<Option<u32>>,
    /// The pace of each task, and the switches of the period.
    pub(crate) paces: Vec<Pace>,
    pub(crate) period: Vec<Switch>,
}
