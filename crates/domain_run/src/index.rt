//! Where in the list of tasks a number is. A listed number has an entry, and the entry has its
//! place. A removal lowers the later places by one, 32 at a step. The place is a hint: a lookup
//! checks it first, and searches the list if it is wrong.

ghost use Rattle.std.specs.Prelude.{◌≡◌, IfOk, IfSome, IfNone, vec_capacity, vec_len};
ghost use Rattle.domain_run.specs.private.Index.{IsListedAt, IsUnlisted};

use crate::task::Task;
use no_memory::NoMemory;
use slot_list::SlotList;
use std::alloc::{AllocError, Global};
use std::marker::Model;

/// So many numbers.
const COUNT: usize = 65536;

/// The most tasks that are listed at once.
const MOST: usize = 256;

/// For each number below 65536 its entry, and the place of each entry. An index of more or fewer
/// numbers or entries, or with room for them, cannot be built.
#[derive(Drop)]
pub(crate) struct Index {
    entries: Vec<u8>,
    places: Vec<u8>,
    // Entries that no listed number has.
    free: Vec<u8>,
}

impl Model for Index {
    ghost use Rattle.std.specs.Prelude.{ℕ, List, vec_capacity};
    ghost use Rattle.domain_run.specs.private.Index.{IsNumberIndex};

    ghost Value = { List ℕ };

    ghost view = { λ i. i.entries.items };

    ghost invariant = { λ i. IsNumberIndex i.entries.items i.places.items i.free.items
        (vec_capacity i.entries) (vec_capacity i.places) (vec_capacity i.free) };
}

// So many zeros, with room for no more.
fn zeros(alloc: Global, count: usize) -> Result<Vec<u8>, AllocError>
    ensures len { IfOk result (λ made. vec_len made ≡ count) }
    ensures room { IfOk result (λ made. vec_capacity made ≡ count) }
{
    let mut made = Vec::with_capacity(alloc, count)?;
    for _ in 0..count {
        made.push_reserved(0);
    }
    Ok(made)
}

// All entries, with room for no more.
fn all_entries(alloc: Global) -> Result<Vec<u8>, AllocError>
    ensures len { IfOk result (λ made. vec_len made ≡ 256) }
    ensures room { IfOk result (λ made. vec_capacity made ≡ 256) }
{
    let mut made = Vec::with_capacity(alloc, MOST)?;
    for entry in 0..MOST {
        made.push_reserved(entry as u8);
    }
    Ok(made)
}

// Lowers the places after one by one. There is no branch, so the compiler makes vector steps of it.
fn close_up(places: &mut Vec<u8>, gone: u8)
    ensures len { vec_len places.new ≡ vec_len places.old }
    ensures room { vec_capacity places.new ≡ vec_capacity places.old }
{
    for place in places.iter_mut() {
        *place -= u8::from(*place > gone);
    }
}

impl Index {
    /// Of no tasks. No other call takes memory.
    pub(crate) fn open(alloc: Global) -> Result<Index, NoMemory> {
        Ok(Index {
            entries: zeros(alloc, COUNT)?,
            places: zeros(alloc, MOST)?,
            free: all_entries(alloc)?,
        })
    }

    // No task has a number from 65536 on, and any entry will do for it.
    fn entry(&self, number: u32) -> u8 {
        self.entries[number as usize % COUNT]
    }

    /// The task of a number has come to a place.
    pub(crate) fn note(&mut self, number: u32, place: usize) {
        let at = number as usize % COUNT;
        if let Some(entry) = self.free.pop() {
            self.entries[at] = entry;
            self.places[usize::from(entry)] = place.min(255) as u8;
        }
    }

    /// The task of a number has gone from a place.
    pub(crate) fn unlist(&mut self, number: u32, place: usize) {
        let entry = self.entry(number);
        if self.free.len() < MOST {
            self.free.push_reserved(entry);
        }
        close_up(&mut self.places, place.min(255) as u8);
    }

    // The place of a number that is listed.
    fn noted_place(&self, number: u32) -> usize {
        usize::from(self.places[usize::from(self.entry(number))])
    }

    /// The place of the task of a number, where it is listed.
    pub(crate) fn place(&self, tasks: &SlotList<Task>, number: u32) -> Option<usize>
        ensures there { IfSome result (IsListedAt tasks.now number) }
        ensures absent { IfNone result (IsUnlisted tasks.now number) }
    {
        let place = self.noted_place(number);
        if place < tasks.len() && tasks.at(place).number == number {
            return Some(place);
        }
        searched(tasks, number)
    }
}

// The same by a look at each task.
fn searched(tasks: &SlotList<Task>, number: u32) -> Option<usize>
    ensures there { IfSome result (IsListedAt tasks.now number) }
    ensures absent { IfNone result (IsUnlisted tasks.now number) }
{
    for place in 0..tasks.len() {
        if tasks.at(place).number == number {
            return Some(place);
        }
    }
    None
}
