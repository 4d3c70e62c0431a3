//! When something is next to be done to each listed task before the choice. So a tick looks only at
//! the tasks that are due.

ghost use Rattle.std.specs.Prelude.{◌≡◌, ◌<◌, ◌≤◌, ◌+◌, ◌-◌, ◌∷◌, ◌++◌, [], ℕ, All, length, min, false, slice_index_or, slice_set, IfOk, IsTrue, vec_capacity};
ghost use Rattle.std.specs.List.{AllPairs, remove};
ghost use Rattle.due_times.specs.Timers as spec;
ghost use Rattle.due_times.specs.private.Leaves as leaf_spec;
ghost use Rattle.limits.specs.Limits.{clock_end};

pub use crate::timer_tree::NEVER;
use crate::timer_tree::TimerTree;
use no_memory::NoMemory;
use std::alloc::Global;
use std::marker::Model;

/// The most times of a list.
const MOST: usize = 256;

/// For each place of the list of tasks the time at which its task is due, in microseconds. A time
/// keeps its leaf while other tasks go, and the leaves rise with the places.
#[derive(Drop)]
pub struct Timers {
    // The other leaves hold a time that never comes.
    timer_tree: TimerTree,
    // The leaf of each time.
    order: Vec<u16>,
}

impl Model for Timers {
    ghost use Rattle.std.specs.Prelude.{ℕ, List, vec_capacity};
    ghost use Rattle.due_times.specs.Timers.{AreTimers, times_by_place};

    ghost Value = { List ℕ };

    ghost view = { λ t. times_by_place t.timer_tree t.order.items };

    ghost invariant = { λ t. AreTimers t.timer_tree t.order.items (vec_capacity t.order) };
}

// The first place whose leaf is not before this one, by binary search. The place is lower than the
// leaf's number, by at most the number of leaves without a time.
#[inline(never)]
fn searched(order: &[u16], leaf: usize) -> usize
    requires rising { AllPairs (λ a b. a < b) order.now }
    requires few { length order.now ≤ 256 }
    ensures { leaf_spec.IsFirstFrom order.now leaf result }
{
    let count = order.len();
    if count == 0 {
        return 0;
    }
    let gone = usize::from(order[count - 1]).saturating_sub(count - 1);
    let mut low = leaf.saturating_sub(gone).min(count);
    let mut high = leaf.min(count);
    if low < high && usize::from(order[low]) >= leaf {
        return low;
    }
    while low < high {
        let middle = (low + high) / 2;
        if usize::from(order[middle]) < leaf {
            low = middle + 1;
        } else {
            high = middle;
        }
    }
    low
}

// The same. Until an earlier task has gone, the place and the leaf have the same number.
#[inline(always)]
fn first_from(order: &[u16], leaf: usize) -> usize
    requires rising { AllPairs (λ a b. a < b) order.now }
    requires few { length order.now ≤ 256 }
    ensures { leaf_spec.IsFirstFrom order.now leaf result }
{
    if leaf < order.len() && usize::from(order[leaf]) == leaf {
        return leaf;
    }
    searched(order, leaf)
}

// The leaf after those of all times.
fn next_leaf(order: &[u16]) -> usize
    requires rising { AllPairs (λ a b. a < b) order.now }
    ensures following { All (λ leaf. leaf < result) order.now }
    ensures near { (bound : ℕ) → All (λ leaf. leaf < bound) order.now → result ≤ bound }
{
    let count = order.len();
    if count == 0 {
        return 0;
    }
    usize::from(order[count - 1]) + 1
}

// Moves the time at a place to the leaf of that number. The times before it have been moved.
fn pack_at(timer_tree: &mut TimerTree, order: &mut Vec<u16>, place: usize)
    requires kept { spec.AreTimers timer_tree.old order.old.items (vec_capacity order.old) }
    requires there { place < length order.old.items }
    requires packed { leaf_spec.ArePacked order.old.items place }
    ensures kept { spec.AreTimers timer_tree.new order.new.items (vec_capacity order.new) }
    ensures packed { leaf_spec.ArePacked order.new.items (place + 1) }
    ensures times { spec.times_by_place timer_tree.new order.new.items
        ≡ spec.times_by_place timer_tree.old order.old.items }
    ensures count { length order.new.items ≡ length order.old.items }
    ensures leaves { length timer_tree.new ≡ length timer_tree.old }
{
    let leaf = usize::from(order[place]);
    if leaf == place {
        return;
    }
    let time = timer_tree.get(leaf);
    timer_tree.set(leaf, NEVER);
    timer_tree.set(place, time);
    order[place] = place as u16;
}

// Moves each time to the leaf of its place.
fn pack(timer_tree: &mut TimerTree, order: &mut Vec<u16>)
    requires { spec.AreTimers timer_tree.old order.old.items (vec_capacity order.old) }
    ensures kept { spec.AreTimers timer_tree.new order.new.items (vec_capacity order.new) }
    ensures packed { leaf_spec.ArePacked order.new.items (length order.new.items) }
    ensures times { spec.times_by_place timer_tree.new order.new.items
        ≡ spec.times_by_place timer_tree.old order.old.items }
    ensures count { length order.new.items ≡ length order.old.items }
    ensures leaves { length timer_tree.new ≡ length timer_tree.old }
{
    for place in 0..order.len() {
        pack_at(timer_tree, order, place);
    }
}

// Makes room after the leaves of all times. If the list fills more than half of the tree, the tree
// gets four times as many leaves. Else the times are packed, and many removals share that cost.
fn make_room(timer_tree: &mut TimerTree, order: &mut Vec<u16>)
    requires kept { spec.AreTimers timer_tree.old order.old.items (vec_capacity order.old) }
    requires few { length order.old.items < 256 }
    ensures kept { spec.AreTimers timer_tree.new order.new.items (vec_capacity order.new) }
    ensures room { All (λ leaf. leaf + 1 < length timer_tree.new) order.new.items }
    ensures times { spec.times_by_place timer_tree.new order.new.items
        ≡ spec.times_by_place timer_tree.old order.old.items }
    ensures count { length order.new.items ≡ length order.old.items }
{
    if order.len() > timer_tree.len() / 2 {
        timer_tree.widen();
    } else {
        pack(timer_tree, order);
    }
}

// A leaf after those of all times.
fn free_leaf(timer_tree: &mut TimerTree, order: &mut Vec<u16>) -> usize
    requires kept { spec.AreTimers timer_tree.old order.old.items (vec_capacity order.old) }
    requires few { length order.old.items < 256 }
    ensures kept { spec.AreTimers timer_tree.new order.new.items (vec_capacity order.new) }
    ensures following { All (λ leaf. leaf < result) order.new.items }
    ensures there { result < length timer_tree.new }
    ensures times { spec.times_by_place timer_tree.new order.new.items
        ≡ spec.times_by_place timer_tree.old order.old.items }
    ensures count { length order.new.items ≡ length order.old.items }
{
    let leaf = next_leaf(order);
    if leaf < timer_tree.len() {
        return leaf;
    }
    make_room(timer_tree, order);
    next_leaf(order)
}

impl Timers {
    /// Of no tasks. No other call takes memory.
    pub fn open(alloc: Global) -> Result<Timers, NoMemory>
        ensures { IfOk result (λ timers. timers ≡ []) }
    {
        Ok(Timers {
            timer_tree: TimerTree::open(alloc)?,
            order: Vec::with_capacity(alloc, MOST)?,
        })
    }

    // The time at a place.
    #[inline(always)]
    fn get(&self, place: usize) -> u64
        requires { place < length self.now }
        ensures { result ≡ slice_index_or self.now place 0 }
    {
        self.timer_tree.get(usize::from(self.order[place]))
    }

    // A later place. No task from this one up to it is due.
    #[inline(always)]
    fn next_after(&self, place: usize, time: u64) -> usize
        requires there { place < length self.now }
        requires later { time < slice_index_or self.now place 0 }
        ensures next { place < result }
        ensures most { result ≤ length self.now }
        ensures others { spec.AreLater self.now time place result }
    {
        let leaf = self
            .timer_tree
            .following(usize::from(self.order[place]), time);
        first_from(&self.order, leaf)
    }

    /// As `next_due`, by a walk from this place on.
    #[inline(never)]
    fn walk_to_due(&self, from: usize, time: u64) -> usize
        requires { from ≤ length self.now }
        ensures from { from ≤ result }
        ensures most { result ≤ length self.now }
        ensures others { spec.AreLater self.now time from result }
        ensures due { result < length self.now → slice_index_or self.now result 0 ≤ time }
    {
        let mut place = from;
        while place < self.order.len() && self.get(place) > time {
            place = self.next_after(place, time);
        }
        place
    }

    // The first place whose task is due. The first time has come.
    #[inline(always)]
    fn first_due(&self, time: u64) -> usize
        requires { spec.least self.now ≤ time }
        ensures most { result ≤ length self.now }
        ensures others { spec.AreLater self.now time 0 result }
        ensures due { result < length self.now → slice_index_or self.now result 0 ≤ time }
    {
        first_from(&self.order, self.timer_tree.first_come(time))
    }

    /// The first place, from this one on, whose task is due at a time; where there is none, how
    /// many places there are. The first of all is found from the root down, and only where it is
    /// before this place there is a walk.
    #[inline(always)]
    pub fn next_due(&self, from: usize, time: u64) -> usize
        requires { from ≤ length self.now }
        ensures from { from ≤ result }
        ensures most { result ≤ length self.now }
        ensures others { spec.AreLater self.now time from result }
        ensures due { result < length self.now → slice_index_or self.now result 0 ≤ time }
    {
        if self.least() > time {
            return self.order.len();
        }
        let first = self.first_due(time);
        if first >= from {
            return first;
        }
        self.walk_to_due(from, time)
    }

    /// The task at a place is due at another time.
    #[inline(always)]
    pub fn set(&mut self, place: usize, due: u64)
        requires { place < length self.old }
        ensures { self.new ≡ slice_set self.old place due }
    {
        self.timer_tree.set(usize::from(self.order[place]), due);
    }

    /// One task more at the end of the list.
    pub fn push(&mut self, due: u64)
        requires { length self.old < 256 }
        ensures { self.new ≡ self.old ++ due ∷ [] }
    {
        let leaf = free_leaf(&mut self.timer_tree, &mut self.order);
        self.timer_tree.set(leaf, due);
        self.order.push_reserved(leaf as u16);
    }

    /// The task at a place goes off the list. The other times keep their leaves.
    pub fn remove(&mut self, place: usize)
        requires { place < length self.old }
        ensures { self.new ≡ remove self.old place }
    {
        let leaf = self.order.remove(place);
        self.timer_tree.set(usize::from(leaf), NEVER);
    }

    /// Whether a task may be due at a time: the first time has come. Where it says no, none is due.
    pub fn may_be_due(&self, time: u64) -> bool
        ensures later { result ≡ false → time < spec.least self.now }
        ensures come { IsTrue result → spec.least self.now ≤ time }
    {
        self.least() <= time
    }

    /// The first time at which a task is due.
    pub fn least(&self) -> u64
        ensures { result ≡ spec.least self.now }
    {
        self.timer_tree.least()
    }

    /// The ticks from a time to the first at which a task is due, at most 2^42 - 1.
    pub fn ticks_to_due(&self, time: u64) -> u64
        ensures { result ≡ min (spec.least self.now - time) (clock_end - 1) }
    {
        self.least().saturating_sub(time).min((1 << 42) - 1)
    }
}
