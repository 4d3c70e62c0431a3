//! The marks and the gaps that a moment adds.

ghost use Rattle.std.specs.Prelude.{◌≡◌, ◌++◌, OnOk};
ghost use Rattle.chart_pieces.specs.Rows as rows;

use crate::row::{Gap, Mark, Sign};
use crate::status::{TaskStatus, Turn, is_shown};
use crate::window::Window;
use domain_run::{NoMemory, PrevState, What};

/// What is shown of a task that stood so from one time to another.
pub(crate) fn push_gap(
    gaps: &mut Vec<Gap>,
    window: &Window,
    status: &TaskStatus,
    start: u64,
    stop: u64,
) -> Result<(), NoMemory>
    ensures { OnOk result (gaps.new.items
        ≡ gaps.old.items ++ rows.gap_by window.now status.now start stop) }
{
    if is_shown(status) && window.touches(start, stop) {
        gaps.push(Gap {
            throttled: status.throttled,
            start,
            stop,
        })?;
    }
    Ok(())
}

fn push_mark(marks: &mut Vec<Mark>, window: &Window, sign: Sign, time: u64) -> Result<(), NoMemory>
    ensures { OnOk result (marks.new.items ≡ marks.old.items ++ rows.mark_in window.now sign time) }
{
    if window.holds(time) {
        marks.push(Mark { sign, time })?;
    }
    Ok(())
}

/// A job, at its release and at its deadline.
fn push_job(
    marks: &mut Vec<Mark>,
    window: &Window,
    release: u64,
    deadline: u64,
) -> Result<(), NoMemory>
    ensures { OnOk result (marks.new.items
        ≡ marks.old.items ++ rows.job_marks window.now release deadline) }
{
    push_mark(marks, window, Sign::Released, release)?;
    push_mark(marks, window, Sign::Due, deadline)
}

fn push_logged(
    marks: &mut Vec<Mark>,
    window: &Window,
    time: u64,
    what: What,
) -> Result<(), NoMemory>
    ensures { OnOk result (marks.new.items
        ≡ marks.old.items ++ rows.marks_by_logged window.now time what) }
{
    match what {
        What::NextReleased { deadline } | What::Released { deadline } => {
            push_job(marks, window, time, deadline)
        }
        What::Cut => push_mark(marks, window, Sign::Ended, time),
        What::JobEnds | What::Spent { .. } | What::Replenished { .. } | What::WokenSpent { .. } =>
            Ok(()),
    }
}

fn is_dead(state: PrevState) -> bool
    ensures { result ≡ rows.is_dead state }
{
    match state {
        PrevState::Dead => true,
        PrevState::Running | PrevState::Preempted | PrevState::Sleeping => false,
    }
}

/// The end of a task that leaves its CPU.
fn push_end(
    marks: &mut Vec<Mark>,
    window: &Window,
    status: &TaskStatus,
    time: u64,
    state: PrevState,
) -> Result<(), NoMemory>
    ensures { OnOk result (marks.new.items
        ≡ marks.old.items ++ rows.end_marks window.now status.now time state) }
{
    if is_dead(state) && !status.cut {
        return push_mark(marks, window, Sign::Ended, time);
    }
    Ok(())
}

/// What a moment marks, of a task that stood so before.
pub(crate) fn push_marks(
    marks: &mut Vec<Mark>,
    window: &Window,
    status: &TaskStatus,
    time: u64,
    turn: Turn,
) -> Result<(), NoMemory>
    ensures { OnOk result (marks.new.items
        ≡ marks.old.items ++ rows.marks_by window.now status.now time turn) }
{
    match turn {
        Turn::Happens(what) => push_logged(marks, window, time, what),
        Turn::Leaves { state, .. } => push_end(marks, window, status, time, state),
        Turn::Comes { .. } => Ok(()),
    }
}
