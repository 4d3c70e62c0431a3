//! What a task does: events, and phases of them (own; rt-app's phases).

use std::marker::Model;

/// What a task does next in its script.
#[derive(Clone, Copy, Debug, PartialEq, Eq)]
pub enum Event {
    /// So many microseconds of work, 1 to 10^9.
    Run(u64),
    /// Blocks for so many microseconds, 1 to 10^9.
    Sleep(u64),
    /// Blocks until so many microseconds, 1 to 10^9, after the task's timer reference; where that
    /// is past, the reference becomes now and the script goes on.
    Timer(u64),
    /// Waits for a wake call (own).
    Wait,
}

/// Events in order, so many times over.
#[derive(Debug, Drop)]
pub struct Phase {
    /// 1 to 10^9.
    pub count: u64,
    /// 1 to 64.
    pub events: Vec<Event>,
}

impl Model for Phase {
    ghost use Rattle.task_script.specs.script.ScriptView.{PhaseView};

    ghost Value = { PhaseView };

    ghost view = { λ p. record { count = p.count; events = p.events.items } };
}
