//! The ready tasks in the order of the choice.

ghost use Rattle.std.specs.Prelude.{◌≡◌, ◌<◌, ◌≤◌, ◌==◌, ◌∷◌, true, false, [], length, is_some, Contains, IfOk, IfSome};
ghost use Rattle.edf_pick.specs.declared.candidate.Candidate.{Candidate};
ghost use Rattle.edf_pick.specs.Order as order;

use crate::candidate::Candidate;
use crate::order::{find, place_from_end};
use crate::room::Room;
use std::alloc::{AllocError, Global};
use std::marker::Model;

/// The ready tasks of a root domain in the order of the choice: the earliest deadline first
/// (sched-deadline.rst, "Main algorithm"), ties by number (own). It holds at most 256 tasks, no two
/// of one deadline and number, and a queue in another order, or with other room than it was opened
/// with, cannot be built. Contracts see it as the list of its tasks.
#[derive(Drop)]
pub struct Queue {
    room: Room,
}

impl Model for Queue {
    ghost use Rattle.std.specs.Prelude.{List, vec_capacity};
    ghost use Rattle.edf_pick.specs.declared.candidate.Candidate.{Candidate};
    ghost use Rattle.edf_pick.specs.private.Room.{HoldsQueue, tasks_in_room};

    ghost Value = { List Candidate };

    ghost view = { λ q. tasks_in_room q.room };

    ghost invariant = { λ q. HoldsQueue q.room (vec_capacity q.room.tasks) };
}

impl Queue {
    /// An empty queue with room for 256 tasks, and so much more that few of them move where one
    /// comes or goes: no other call takes memory. `Err` where that room was refused.
    pub fn open(alloc: Global) -> Result<Queue, AllocError>
        ensures { IfOk result (λ queue. queue ≡ []) }
    {
        Ok(Queue {
            room: Room::open(alloc)?,
        })
    }

    /// How many tasks there are: at most 256.
    pub fn len(&self) -> usize
        ensures len { result ≡ length self.now }
        ensures few { result ≤ 256 }
    {
        self.room.len()
    }

    /// Whether there is none.
    pub fn is_empty(&self) -> bool
        ensures { result ≡ (length self.now == 0) }
    {
        self.len() == 0
    }

    /// The tasks, each before every later one.
    pub fn as_slice(&self) -> &[Candidate]
        ensures tasks { result.now ≡ self.now }
        ensures rising { order.IsRising self.now }
    {
        self.room.as_slice()
    }

    /// Whether the task of this deadline and number is there. Binary search.
    pub fn contains(&self, c: &Candidate) -> bool
        ensures { result ≡ order.has_candidate c.now self.now }
    {
        find(self.as_slice(), c).is_some()
    }

    /// Takes in a task whose deadline and number are not there, at its place, found by binary
    /// search where it is not the end.
    pub fn insert(&mut self, c: Candidate)
        requires few { length self.old < 256 }
        requires absent { order.has_candidate c self.old ≡ false }
        ensures { self.new ≡ order.with_candidate c self.old }
    {
        let place = place_from_end(self.room.as_slice(), &c);
        self.room.insert(place, c);
    }

    /// Takes out the task of the deadline and the number of `c`, found by binary search, and
    /// answers whether it was there. Its home does not matter. Where it is not there nothing
    /// changes.
    pub fn remove(&mut self, c: &Candidate) -> bool
        ensures removed { self.new ≡ order.without_candidate c.now self.old }
        ensures there { result ≡ order.has_candidate c.now self.old }
    {
        self.take(c).is_some()
    }

    /// As `remove`, and answers the task that was there.
    pub(crate) fn take(&mut self, c: &Candidate) -> Option<Candidate>
        ensures removed { self.new ≡ order.without_candidate c.now self.old }
        ensures there { is_some result ≡ order.has_candidate c.now self.old }
        ensures entry { IfSome result (λ a. Contains self.old a) }
        ensures same { IfSome result (λ a. order.is_same a c.now ≡ true) }
    {
        let Some(place) = find(self.room.as_slice(), c) else {
            return None;
        };
        let entry = self.room.as_slice()[place];
        self.room.remove(place);
        Some(entry)
    }

    /// Takes out the first.
    #[inline(always)]
    pub(crate) fn take_first(&mut self) -> Candidate
        requires { 0 < length self.old }
        ensures first { self.old ≡ result ∷ self.new }
        ensures few { length self.new < 256 }
    {
        let c = self.room.as_slice()[0];
        self.room.remove_first();
        c
    }
}
