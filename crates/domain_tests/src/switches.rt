//! Whether two runs made the same switches.

use domain_run::{PrevState, Switch};

/// The state in which a task leaves, as the event's prev_state has it.
fn letters(state: PrevState) -> &'static str {
    match state {
        PrevState::Running => "R",
        PrevState::Preempted => "R+",
        PrevState::Sleeping => "S",
        PrevState::Dead => "X",
    }
}

fn is_same(a: &Switch, b: &Switch) -> bool {
    a.time() == b.time()
        && a.cpu() == b.cpu()
        && a.prev() == b.prev()
        && a.next() == b.next()
        && letters(a.state()) == letters(b.state())
}

/// Whether these switches have that part from so many on.
pub(crate) fn have_part(all: &[Switch], from: usize, part: &[Switch]) -> bool {
    for (a, b) in all.iter().skip(from).zip(part.iter()) {
        if !is_same(a, b) {
            return false;
        }
    }
    part.len() <= all.len().saturating_sub(from)
}
