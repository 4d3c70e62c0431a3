//! The order of the choice: an earlier deadline first, ties by number.

ghost use Rattle.std.specs.Prelude.{ℕ, ◌≡◌, ◌<◌, ◌≤◌, ◌+◌, ◌-◌, ◌*◌, ◌^◌, length, is_some, IfSome, IfNone};
ghost use Rattle.std.specs.List.{prefix_len, remove};
ghost use Rattle.edf_pick.specs.Choice as choice;
ghost use Rattle.edf_pick.specs.Order as order;
ghost use Rattle.edf_pick.specs.private.Search.{IsOneBefore, IsSearched};

use crate::candidate::Candidate;

/// 2 ^ 64, above each number that a task may have.
const NUMBERS: u128 = 1 << 64;

// Deadline and number as one number, in the order of the choice: so that two tasks are compared
// without a branch.
#[inline(always)]
fn key(c: &Candidate) -> u128
    ensures key { result ≡ c.now.deadline * 2 ^ 64 + c.now.number }
    ensures number { c.now.number < 2 ^ 64 }
{
    u128::from(c.deadline) * NUMBERS + u128::from(c.number)
}

pub(crate) fn is_before(a: &Candidate, b: &Candidate) -> bool
    ensures { result ≡ choice.is_before a.now b.now }
{
    key(a) < key(b)
}

pub(crate) fn is_same(a: &Candidate, b: &Candidate) -> bool
    ensures { result ≡ order.is_same a.now b.now }
{
    a.deadline == b.deadline && a.number == b.number
}

// One for the task at a place if it is before c, and none if it is not.
#[inline(always)]
fn one_before(queue: &[Candidate], c: &Candidate, place: usize) -> usize
    requires { place < length queue.now }
    ensures { IsOneBefore c.now queue.now place result }
{
    usize::from(is_before(&queue[place], c))
}

// A look at one task, so many after a place: the place, or this many further on where that task is
// before c.
#[inline(always)]
fn look_at_half(queue: &[Candidate], c: &Candidate, place: usize, half: usize) -> usize
    requires rising { order.IsRising queue.now }
    requires there { place + half < length queue.now }
    ensures { (width : ℕ) → half + half ≤ width → IsSearched c.now queue.now place width
        → IsSearched c.now queue.now result (width - half) }
{
    place + half * one_before(queue, c, place + half)
}

// A look at three tasks at once: one part, two and three parts after a place. The place, or as many
// parts further on as there are of them before c.
#[inline(always)]
fn look_at_parts(queue: &[Candidate], c: &Candidate, place: usize, part: usize) -> usize
    requires rising { order.IsRising queue.now }
    requires there { place + 3 * part < length queue.now }
    ensures { (width : ℕ) → 4 * part ≤ width → IsSearched c.now queue.now place width
        → IsSearched c.now queue.now result (width - 3 * part) }
{
    let first = one_before(queue, c, place + part);
    let second = one_before(queue, c, place + 2 * part);
    let third = one_before(queue, c, place + 3 * part);
    place + part * (first + second + third)
}

/// How many tasks at the front of a queue are before `c`, by a search that takes as many looks in
/// each queue of one length: by fours, and in the end by halves.
pub(crate) fn place_of(queue: &[Candidate], c: &Candidate) -> usize
    requires { order.IsRising queue.now }
    ensures place { result ≡ prefix_len (λ a. choice.is_before a c.now) queue.now }
    ensures bound { result ≤ length queue.now }
{
    let mut width = queue.len();
    if width == 0 {
        return 0;
    }
    let mut place = 0;
    'fours: while width > 3 {
        let part = width / 4;
        place = look_at_parts(queue, c, place, part);
        width -= 3 * part;
    }
    'looks: while width > 1 {
        let half = width / 2;
        place = look_at_half(queue, c, place, half);
        width -= half;
    }
    place + one_before(queue, c, place)
}

/// As `place_of`, with a look at the end first: mostly it is that.
#[inline(always)]
pub(crate) fn place_from_end(queue: &[Candidate], c: &Candidate) -> usize
    requires { order.IsRising queue.now }
    ensures place { result ≡ prefix_len (λ a. choice.is_before a c.now) queue.now }
    ensures bound { result ≤ length queue.now }
{
    let end = queue.len();
    if end == 0 || is_before(&queue[end - 1], c) {
        return end;
    }
    place_of(queue, c)
}

/// Where a queue has the task of the deadline and the number of `c`, by a search.
pub(crate) fn find(queue: &[Candidate], c: &Candidate) -> Option<usize>
    requires { order.IsRising queue.now }
    ensures there { is_some result ≡ order.has_candidate c.now queue.now }
    ensures inside { IfSome result (λ place. place < length queue.now) }
    ensures place { IfSome result (λ place.
        place ≡ prefix_len (λ a. choice.is_before a c.now) queue.now) }
    ensures nowhere { IfNone result (order.without_candidate c.now queue.now ≡ queue.now) }
    ensures at { IfSome result (λ place. order.without_candidate c.now queue.now
        ≡ remove queue.now place) }
{
    let place = place_of(queue, c);
    if place < queue.len() && is_same(&queue[place], c) {
        return Some(place);
    }
    None
}
