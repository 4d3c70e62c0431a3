//! The room in which the tasks of a queue are, one after the other: who comes or goes moves those
//! of the shorter side alone.

ghost use Rattle.std.specs.Prelude.{◌≡◌, ◌<◌, ◌≤◌, ◌+◌, [], IfOk, length, vec_capacity};
ghost use Rattle.std.specs.List.{insert, remove};
ghost use Rattle.edf_pick.specs.private.Room as spec;

use crate::candidate::Candidate;
use std::alloc::{AllocError, Global};

/// So many places there are, four times as many as tasks: so the tasks reach the end seldom, and go
/// to the beginning then.
const PLACES: usize = 1024;

/// The tasks are at the places from `front` up to `end`. What the others hold means nothing.
#[derive(Drop)]
pub(crate) struct Room {
    pub(crate) tasks: Vec<Candidate>,
    pub(crate) front: usize,
    pub(crate) end: usize,
}

// Places that hold nothing of meaning.
fn places(alloc: Global) -> Result<Vec<Candidate>, AllocError>
    ensures full { IfOk result (λ tasks. length tasks.items ≡ 1024) }
    ensures room { IfOk result (λ tasks. vec_capacity tasks ≡ 1024) }
{
    let mut tasks = Vec::with_capacity(alloc, PLACES)?;
    for _ in 0..PLACES {
        tasks.push_reserved(Candidate {
            deadline: 0,
            number: 0,
            home: 0,
        });
    }
    Ok(tasks)
}

impl Room {
    /// It holds no task. No other call takes memory.
    pub(crate) fn open(alloc: Global) -> Result<Room, AllocError>
        ensures is { IfOk result (λ room. spec.IsTaskRoom room) }
        ensures none { IfOk result (λ room. spec.tasks_in_room room ≡ []) }
        ensures capacity { IfOk result (λ room. vec_capacity room.tasks ≡ 1024) }
    {
        Ok(Room {
            tasks: places(alloc)?,
            front: 0,
            end: 0,
        })
    }

    /// How many tasks there are.
    #[inline(always)]
    pub(crate) fn len(&self) -> usize
        requires { spec.IsTaskRoom self.now }
        ensures { result ≡ length (spec.tasks_in_room self.now) }
    {
        self.end - self.front
    }

    /// The tasks in their order.
    #[inline(always)]
    pub(crate) fn as_slice(&self) -> &[Candidate]
        requires { spec.IsTaskRoom self.now }
        ensures { result.now ≡ spec.tasks_in_room self.now }
    {
        &self.tasks[self.front..self.end]
    }

    // Those before the place go down by one.
    #[inline(always)]
    fn insert_below(&mut self, place: usize, task: Candidate)
        requires is { spec.IsTaskRoom self.old }
        requires free { 0 < self.old.front }
        requires there { self.old.front + place ≤ self.old.end }
        ensures is { spec.IsTaskRoom self.new }
        ensures tasks { spec.tasks_in_room self.new
            ≡ insert (spec.tasks_in_room self.old) place task }
        ensures capacity { vec_capacity self.new.tasks ≡ vec_capacity self.old.tasks }
    {
        let at = self.front + place;
        self.tasks.copy_within(self.front..at, self.front - 1);
        self.tasks[at - 1] = task;
        self.front -= 1;
    }

    // Those from the place on go up by one.
    #[inline(always)]
    fn insert_above(&mut self, place: usize, task: Candidate)
        requires is { spec.IsTaskRoom self.old }
        requires free { self.old.end < 1024 }
        requires there { self.old.front + place ≤ self.old.end }
        ensures is { spec.IsTaskRoom self.new }
        ensures tasks { spec.tasks_in_room self.new
            ≡ insert (spec.tasks_in_room self.old) place task }
        ensures capacity { vec_capacity self.new.tasks ≡ vec_capacity self.old.tasks }
    {
        let at = self.front + place;
        self.tasks.copy_within(at..self.end, at + 1);
        self.tasks[at] = task;
        self.end += 1;
    }

    // The tasks go to the beginning.
    #[inline(never)]
    fn rewind(&mut self)
        requires { spec.IsTaskRoom self.old }
        ensures is { spec.IsTaskRoom self.new }
        ensures tasks { spec.tasks_in_room self.new ≡ spec.tasks_in_room self.old }
        ensures end { self.new.end ≡ length (spec.tasks_in_room self.old) }
        ensures capacity { vec_capacity self.new.tasks ≡ vec_capacity self.old.tasks }
    {
        self.tasks.copy_within(self.front..self.end, 0);
        self.end -= self.front;
        self.front = 0;
    }

    // There is a free place after the tasks.
    #[inline(always)]
    fn free_end(&mut self)
        requires is { spec.IsTaskRoom self.old }
        requires few { length (spec.tasks_in_room self.old) < 1024 }
        ensures is { spec.IsTaskRoom self.new }
        ensures tasks { spec.tasks_in_room self.new ≡ spec.tasks_in_room self.old }
        ensures free { self.new.end < 1024 }
        ensures capacity { vec_capacity self.new.tasks ≡ vec_capacity self.old.tasks }
    {
        if self.end == PLACES {
            self.rewind();
        }
    }

    /// One more task at this place.
    #[inline(always)]
    pub(crate) fn insert(&mut self, place: usize, task: Candidate)
        requires is { spec.IsTaskRoom self.old }
        requires few { length (spec.tasks_in_room self.old) < 1024 }
        requires there { place ≤ length (spec.tasks_in_room self.old) }
        ensures is { spec.IsTaskRoom self.new }
        ensures tasks { spec.tasks_in_room self.new
            ≡ insert (spec.tasks_in_room self.old) place task }
        ensures capacity { vec_capacity self.new.tasks ≡ vec_capacity self.old.tasks }
    {
        if self.front > 0 && place < self.len() / 2 {
            self.insert_below(place, task);
            return;
        }
        self.free_end();
        self.insert_above(place, task);
    }

    // Those before the place go up by one.
    #[inline(always)]
    fn remove_below(&mut self, place: usize)
        requires is { spec.IsTaskRoom self.old }
        requires there { self.old.front + place < self.old.end }
        ensures is { spec.IsTaskRoom self.new }
        ensures tasks { spec.tasks_in_room self.new ≡ remove (spec.tasks_in_room self.old) place }
        ensures capacity { vec_capacity self.new.tasks ≡ vec_capacity self.old.tasks }
    {
        let at = self.front + place;
        self.tasks.copy_within(self.front..at, self.front + 1);
        self.front += 1;
    }

    // Those after the place go down by one.
    #[inline(always)]
    fn remove_above(&mut self, place: usize)
        requires is { spec.IsTaskRoom self.old }
        requires there { self.old.front + place < self.old.end }
        ensures is { spec.IsTaskRoom self.new }
        ensures tasks { spec.tasks_in_room self.new ≡ remove (spec.tasks_in_room self.old) place }
        ensures capacity { vec_capacity self.new.tasks ≡ vec_capacity self.old.tasks }
    {
        let at = self.front + place;
        self.tasks.copy_within(at + 1..self.end, at);
        self.end -= 1;
    }

    /// The one at this place is taken out.
    #[inline(always)]
    pub(crate) fn remove(&mut self, place: usize)
        requires is { spec.IsTaskRoom self.old }
        requires there { place < length (spec.tasks_in_room self.old) }
        ensures is { spec.IsTaskRoom self.new }
        ensures tasks { spec.tasks_in_room self.new ≡ remove (spec.tasks_in_room self.old) place }
        ensures capacity { vec_capacity self.new.tasks ≡ vec_capacity self.old.tasks }
    {
        if place < self.len() / 2 {
            self.remove_below(place);
        } else {
            self.remove_above(place);
        }
    }

    /// The first is taken out.
    #[inline(always)]
    pub(crate) fn remove_first(&mut self)
        requires is { spec.IsTaskRoom self.old }
        requires some { 0 < length (spec.tasks_in_room self.old) }
        ensures is { spec.IsTaskRoom self.new }
        ensures tasks { spec.tasks_in_room self.new ≡ remove (spec.tasks_in_room self.old) 0 }
        ensures capacity { vec_capacity self.new.tasks ≡ vec_capacity self.old.tasks }
    {
        self.front += 1;
    }
}
