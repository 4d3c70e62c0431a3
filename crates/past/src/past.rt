//! The list, and how it grows.

ghost use Rattle.std.specs.Prelude.{◌≡◌, ◌++◌, ◌∷◌, []};
ghost use Rattle.past.specs.Past.{items_of_past};

use std::mem;
use std::snapshot::Snapshot;

// A list, one by one. It has a mark of how it ends, and no item.
#[cycle(items)]
#[derive(Drop)]
enum Items<T> {
    Nothing,
    One(Snapshot<WithOne<T>>),
}

// One more, and those before it. No value of it is kept: a snapshot has no bytes.
#[cycle(items)]
#[derive(Drop)]
struct WithOne<T> {
    before: Items<T>,
    one: Snapshot<T>,
}

/// A list that only contracts see. Memory has no item of it, and no call takes memory.
#[derive(Drop)]
pub struct Past<T> {
    items: Items<T>,
}

impl<T: Drop> Past<T> {
    /// The empty list.
    pub fn new() -> Past<T>
        ensures { items_of_past result ≡ [] }
    {
        Past {
            items: Items::Nothing,
        }
    }

    /// Adds an item at the end.
    pub fn push(&mut self, one: &T)
        ensures { items_of_past self.new ≡ items_of_past self.old ++ one.now ∷ [] }
    {
        let before = mem::replace(&mut self.items, Items::Nothing);
        let item = WithOne {
            before,
            one: Snapshot::of(one),
        };
        self.items = Items::One(Snapshot::of(&item));
    }

    /// Adds all of these at the end, in this order.
    pub fn extend(&mut self, many: &[T])
        ensures { items_of_past self.new ≡ items_of_past self.old ++ many.now }
    {
        for one in many {
            self.push(one);
        }
    }
}
