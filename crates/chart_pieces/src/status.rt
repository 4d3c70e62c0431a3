//! How a task stands, and what becomes of it.

ghost use Rattle.std.specs.Prelude.{◌≡◌};
ghost use Rattle.chart_pieces.specs.TaskStatus as standings;

use domain_run::{PrevState, What};

/// What a moment is of a task.
#[derive(Clone, Copy)]
pub enum Turn {
    /// Something happens to it.
    Happens(What),
    /// It leaves a CPU in a state.
    Leaves { cpu: u16, state: PrevState },
    /// It comes to a CPU.
    Comes { cpu: u16 },
}

/// A moment of a task.
#[derive(Clone, Copy)]
pub struct Moment {
    /// When, in microseconds.
    pub time: u64,
    /// The number of the task.
    pub number: u32,
    pub turn: Turn,
}

/// How a task stands.
#[derive(Clone, Copy)]
pub struct TaskStatus {
    /// Whether a job of it is under way.
    pub works: bool,
    pub throttled: bool,
    /// Whether it was cut.
    pub cut: bool,
    /// The CPU on which it is.
    pub cpu: Option<u16>,
}

/// Before anything is logged of a task.
pub(crate) fn at_rest() -> TaskStatus
    ensures { result ≡ standings.at_rest }
{
    TaskStatus {
        works: false,
        throttled: false,
        cut: false,
        cpu: None,
    }
}

fn after_logged(status: TaskStatus, what: What) -> TaskStatus
    ensures { result ≡ standings.after_logged what status }
{
    match what {
        What::JobEnds => TaskStatus {
            works: false,
            ..status
        },
        What::Cut => TaskStatus {
            works: false,
            throttled: false,
            cut: true,
            ..status
        },
        What::NextReleased { .. } | What::Released { .. } => TaskStatus {
            works: true,
            ..status
        },
        What::Spent { .. } | What::WokenSpent { .. } => TaskStatus {
            throttled: true,
            ..status
        },
        What::Replenished { .. } => TaskStatus {
            throttled: false,
            ..status
        },
    }
}

fn after_leaving(status: TaskStatus, cpu: u16) -> TaskStatus
    ensures { result ≡ standings.after_leaving cpu status }
{
    match status.cpu {
        Some(on) if on == cpu => TaskStatus {
            cpu: None,
            ..status
        },
        _ => status,
    }
}

/// How a task stands after a moment of it.
pub(crate) fn after(status: TaskStatus, turn: Turn) -> TaskStatus
    ensures { result ≡ standings.after_turn turn status }
{
    match turn {
        Turn::Happens(what) => after_logged(status, what),
        Turn::Leaves { cpu, .. } => after_leaving(status, cpu),
        Turn::Comes { cpu } => TaskStatus {
            cpu: Some(cpu),
            ..status
        },
    }
}

/// Whether it is shown between its bars: throttled, or wanting a CPU, and on none.
pub(crate) fn is_shown(status: &TaskStatus) -> bool
    ensures { result ≡ standings.is_shown status.now }
{
    status.cpu.is_none() && (status.throttled || status.works)
}
