//! A list of at most 256 values that stay where they are: a removal moves a byte for each value
//! after it, and none of the values.
//!
//! To the crates above it promises each call as an equation on the list ([`SlotList`]), and that
//! only [`SlotList::open`] takes memory.
#![tactic(auto)]

ghost use Rattle.std.specs.Prelude.{◌≡◌, ◌<◌, ◌≤◌, ◌++◌, ◌∷◌, [], IfOk, length, slice_index_or};
ghost use Rattle.std.specs.List.{remove};
ghost use Rattle.std.specs.Borrow.{sem};

use no_memory::NoMemory;
use std::alloc::Global;
use std::marker::Model;

/// The most values of a list.
const MOST: usize = 256;

/// At most 256 values in their order. What is removed is dropped when another comes into its slot,
/// or with the list.
#[derive(Drop)]
pub struct SlotList<T> {
    slots: Vec<T>,
    // In which slot each value of the list is.
    order: Vec<u8>,
    // The slots of those that were removed.
    free: Vec<u8>,
}

impl<T> Model for SlotList<T> {
    ghost use Rattle.std.specs.Prelude.{List, length, vec_capacity};
    ghost use Rattle.slot_list.specs.private.Slots.{values_at, AreSlots};

    ghost Value = { List T };

    ghost view = { λ l. values_at l.slots.items l.order.items };

    ghost invariant = { λ l. AreSlots (length l.slots.items) l.order.items l.free.items
        (vec_capacity l.slots) (vec_capacity l.order) (vec_capacity l.free) };
}

impl<T> SlotList<T> {
    ghost use Rattle.slot_list.specs.Lending.{lends_value};

    /// How many they are.
    #[inline(always)]
    pub fn len(&self) -> usize
        ensures len { result ≡ length self.now }
        ensures few { result ≤ 256 }
    {
        self.order.len()
    }

    /// The value at a place.
    #[inline(always)]
    pub fn at(&self, place: usize) -> &T
        requires { place < length self.now }
        ensures { result.now ≡ slice_index_or self.now place result.now }
    {
        &self.slots[usize::from(self.order[place])]
    }

    /// The value at a place, to change it.
    #[inline(always)]
    pub fn at_mut(&mut self, place: usize) -> &mut T
        requires { place < length self.old }
        ensures* writes_back { sem 𝓛 (lends_value T.row self.entry place result) }
        ensures value { result.now ≡ slice_index_or self.old place result.now }
    {
        &mut self.slots[usize::from(self.order[place])]
    }
}

impl<T: Drop> SlotList<T> {
    /// Of no values; `NoMemory` where the room for 256 is refused. No other call takes memory.
    pub fn open(alloc: Global) -> Result<SlotList<T>, NoMemory>
        ensures { IfOk result (λ list. list ≡ []) }
    {
        Ok(SlotList {
            slots: Vec::with_capacity(alloc, MOST)?,
            order: Vec::with_capacity(alloc, MOST)?,
            free: Vec::with_capacity(alloc, MOST)?,
        })
    }

    /// One value more, after the others.
    pub fn push(&mut self, value: T)
        requires few { length self.old < 256 }
        ensures { self.new ≡ self.old ++ value ∷ [] }
    {
        match self.free.pop() {
            Some(slot) => {
                self.slots[usize::from(slot)] = value;
                self.order.push_reserved(slot);
            }
            None => {
                self.order.push_reserved(self.slots.len() as u8);
                self.slots.push_reserved(value);
            }
        }
    }

    /// The value at a place goes off the list.
    pub fn remove(&mut self, place: usize)
        requires { place < length self.old }
        ensures { self.new ≡ remove self.old place }
    {
        let slot = self.order.remove(place);
        self.free.push_reserved(slot);
    }
}
