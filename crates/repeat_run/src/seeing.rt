//! What is written down of a domain, and the pace at which each task comes back to it.

ghost use Rattle.std.specs.Prelude.{ℕ, ◌≡◌, ◌<◌, ◌≤◌, IsTrue, IfSome, is_some, length, slice_index_or};
ghost use Rattle.domain_run.specs.Marks.{paced_mark};
ghost use Rattle.repeat_law.specs.Marks.{MayBegin};
ghost use Rattle.repeat_run.specs.Seen.{AllLast, ArePaced, AreTasksSeen, LastsThrough};

use domain_run::{Pace, State, TaskSeen};
use repeat_law::{pace_between, periods_left};

/// Writes down all tasks. False if memory was refused.
pub(crate) fn see_all(state: &State, seen: &mut Vec<TaskSeen>) -> bool
    ensures { IsTrue result → AreTasksSeen seen.new.items state.now.tasks }
{
    seen.clear();
    for place in 0..state.listed() {
        match seen.push(state.seen_at(place)) {
            Ok(()) => {}
            Err(_) => return false,
        }
    }
    true
}

/// Writes down who runs on each CPU. False if memory was refused.
pub(crate) fn see_running(state: &State, running: &mut Vec<Option<u32>>) -> bool
    ensures { IsTrue result → running.new.items ≡ state.now.curr }
{
    running.clear();
    // For the prover alone: a look at a state brings what every domain keeps.
    let _ = state.now();
    for cpu in 0..state.cpus() as usize {
        match running.push(state.runs_on(cpu)) {
            Ok(()) => {}
            Err(_) => return false,
        }
    }
    true
}

/// Whether the same tasks run on the same CPUs.
pub(crate) fn runs_same(state: &State, running: &[Option<u32>]) -> bool
    ensures { IsTrue result → state.now.curr ≡ running.now }
{
    // For the prover alone, as above.
    let _ = state.now();
    if state.cpus() as usize != running.len() {
        return false;
    }
    for cpu in 0..running.len() {
        if state.runs_on(cpu) != running[cpu] {
            return false;
        }
    }
    true
}

/// The pace of a task, and for how many periods it lasts.
#[derive(Clone, Copy)]
pub(crate) struct Way {
    pub(crate) pace: Pace,
    pub(crate) most: u64,
}

/// More periods than a run has.
const MANY: u64 = 1 << 42;

fn least(a: u64, b: u64) -> u64
    ensures first { result ≤ a }
    ensures second { result ≤ b }
{
    if a < b { a } else { b }
}

fn way_between(first: &TaskSeen, after: &TaskSeen, micros: u64) -> Option<Way>
    ensures begins { IfSome result (λ w. MayBegin micros w.pace first.now.mark) }
    ensures paced { IfSome result (λ w. after.now.mark
        ≡ paced_mark (is_some first.now.rounds) first.now.is_timed micros w.pace first.now.mark) }
    ensures lasts { IfSome result
        (λ w. (m : ℕ) → m ≤ w.most → LastsThrough m first.now w.pace) }
{
    match pace_between(
        &first.mark,
        &after.mark,
        micros,
        first.rounds.is_some(),
        first.is_timed,
    ) {
        None => None,
        Some(pace) => match periods_left(&first.mark, pace, first.rounds) {
            None => Some(Way { pace, most: MANY }),
            Some(most) => Some(Way { pace, most }),
        },
    }
}

fn first_at(seen: &[TaskSeen], place: usize) -> TaskSeen
    requires { place < length seen.now }
    ensures { result ≡ slice_index_or seen.now place result }
{
    seen[place]
}

/// Finds the pace at which each task that was seen came to where it is now, `micros` later, and
/// answers for how many periods all of them last. None if there is no such pace for one, if a task
/// has left the list, or if memory was refused.
pub(crate) fn paces_to(
    state: &State,
    seen: &[TaskSeen],
    micros: u64,
    paces: &mut Vec<Pace>,
) -> Option<u64>
    ensures paced { IfSome result
        (λ most. ArePaced micros seen.now state.now.tasks paces.new.items) }
    ensures lasts { IfSome result
        (λ most. (m : ℕ) → m ≤ most → AllLast m seen.now paces.new.items) }
{
    paces.clear();
    if state.listed() != seen.len() {
        return None;
    }
    let mut most = MANY;
    for place in 0..seen.len() {
        let first = first_at(seen, place);
        let now = state.seen_at(place);
        let way = match way_between(&first, &now, micros) {
            Some(way) => way,
            None => return None,
        };
        match paces.push(way.pace) {
            Ok(()) => {}
            Err(_) => return None,
        }
        most = least(most, way.most);
    }
    Some(most)
}
