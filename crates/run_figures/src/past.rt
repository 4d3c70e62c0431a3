//! A list in proofs alone.

ghost use Rattle.std.specs.Prelude.{ℕ, ◌≡◌, ◌+◌, ◌-◌, ◌*◌, ◌<◌, ◌^◌, ◌++◌, ◌∷◌, [], drop, length};
ghost use Rattle.run_figures.specs.Again.{more_of};
ghost use Rattle.run_figures.specs.private.Past.{items_of};

use std::mem;
use std::snapshot::Snapshot;

// A list, one by one. It has a mark of how it ends, and no element.
#[cycle(items)]
#[derive(Drop)]
enum Items<T> {
    Nothing,
    One(Snapshot<WithOne<T>>),
    Again(Snapshot<WithAgain<T>>),
}

// One more, and those before it. No value of it is kept: a snapshot has no bytes.
#[cycle(items)]
#[derive(Drop)]
struct WithOne<T> {
    before: Items<T>,
    one: Snapshot<T>,
}

// Those before it, and then those of them from a place on, a number of times, each time later than
// the time before. No value of it is kept.
#[cycle(items)]
#[derive(Drop)]
struct WithAgain<T> {
    before: Items<T>,
    from: u64,
    micros: u64,
    periods: u64,
}

/// A list in proofs alone: contracts see all that it has logged, and memory has its length alone.
/// No call takes memory.
#[derive(Drop)]
pub(crate) struct Past<T> {
    items: Items<T>,
    /// The length.
    pub(crate) count: u64,
}

impl<T: Drop> Past<T> {
    /// A list that has nothing yet.
    pub(crate) fn new() -> Past<T>
        ensures none { (later : ℕ → T → T) → items_of later result.items ≡ [] }
        ensures count { result.count ≡ 0 }
    {
        Past {
            items: Items::Nothing,
            count: 0,
        }
    }

    /// It is logged one more.
    fn push(&mut self, one: &T)
        ensures more { (later : ℕ → T → T)
            → items_of later self.new.items ≡ items_of later self.old.items ++ one.now ∷ [] }
        ensures count { self.new.count ≡ self.old.count }
    {
        let before = mem::replace(&mut self.items, Items::Nothing);
        let item = WithOne {
            before,
            one: Snapshot::of(one),
        };
        self.items = Items::One(Snapshot::of(&item));
    }

    /// It logs all of these, in this order.
    pub(crate) fn extend(&mut self, many: &[T])
        requires room { self.old.count + length many.now < 2 ^ 64 }
        ensures more { (later : ℕ → T → T)
            → items_of later self.new.items ≡ items_of later self.old.items ++ many.now }
        ensures count { self.new.count ≡ self.old.count + length many.now }
    {
        self.count += many.len() as u64;
        for one in many {
            self.push(one);
        }
    }

    /// It is logged again, `periods` times, what it has logged from a place on: each time `micros`
    /// later than the time before.
    pub(crate) fn give_again(&mut self, from: u64, micros: u64, periods: u64)
        requires room { self.old.count + periods * (self.old.count - from) < 2 ^ 64 }
        ensures more { (later : ℕ → T → T)
            → items_of later self.new.items ≡ items_of later self.old.items
            ++ more_of later micros periods (drop from (items_of later self.old.items)) }
        ensures count { self.new.count
            ≡ self.old.count + periods * (self.old.count - from) }
    {
        let before = mem::replace(&mut self.items, Items::Nothing);
        let item = WithAgain {
            before,
            from,
            micros,
            periods,
        };
        self.items = Items::Again(Snapshot::of(&item));
        self.count += periods * self.count.saturating_sub(from);
    }
}
