//! A timer tree of times: the first of them is known, where one changes at a time.

ghost use Rattle.std.specs.Prelude.{ℕ, All, ◌≡◌, ◌<◌, ◌≤◌, ◌+◌, ◌*◌, ◌/◌, ◌^◌, ◌-◌, ◌++◌, length, slice_index_or, slice_set, replicate, IfNone, IfOk, IfSome, vec_len, vec_capacity};
ghost use Rattle.due_times.specs.Timers.{least, AreLater, IsSize};
ghost use Rattle.due_times.specs.private.TimerTree as spec;

use no_memory::NoMemory;
use std::alloc::Global;
use std::marker::Model;

/// So many nodes at most: 1024 times, and as many for those above them.
const ROOM: usize = 2048;

/// A time that never comes.
pub const NEVER: u64 = u64::MAX;

/// 4, 16, 64, 256 or 1024 times, and above each four of them the least.
#[derive(Drop)]
pub(crate) struct TimerTree {
    nodes: Vec<u64>,
}

impl Model for TimerTree {
    ghost use Rattle.std.specs.Prelude.{ℕ, List, vec_capacity};
    ghost use Rattle.due_times.specs.private.TimerTree.{IsTimerTree, leaves};

    ghost Value = { List ℕ };

    ghost view = { λ t. leaves t.nodes.items };

    ghost invariant = { λ t. IsTimerTree t.nodes.items (vec_capacity t.nodes) };
}

// The least of the four below a node.
#[inline(always)]
fn least_below(nodes: &[u64], at: usize) -> u64
    requires within { 4 * at + 3 < length nodes.now }
    requires few { length nodes.now ≤ 2048 }
    ensures { result ≡ spec.least_below nodes.now at }
{
    let left = nodes[4 * at].min(nodes[4 * at + 1]);
    let right = nodes[4 * at + 2].min(nodes[4 * at + 3]);
    left.min(right)
}

// The least of the four of which one, at this node, has this time.
#[inline(always)]
fn least_beside(nodes: &[u64], at: usize, time: u64) -> u64
    requires fours { length nodes.now ≡ 4 * (length nodes.now / 4) }
    requires there { at < length nodes.now }
    requires time { slice_index_or nodes.now at 0 ≡ time }
    ensures { result ≡ spec.least_below nodes.now (at / 4) }
{
    let others = nodes[at ^ 2].min(nodes[at ^ 3]);
    time.min(nodes[at ^ 1]).min(others)
}

// The node above one that has this time becomes the least of the four below it. That is the answer.
// If the node above was the least already, all nodes are right, and there is no answer.
#[inline(always)]
fn carry(nodes: &mut Vec<u64>, at: usize, time: u64) -> Option<u64>
    requires tree { spec.IsTreeBut (at / 4) nodes.old.items }
    requires inner { 4 ≤ at }
    requires there { at < length nodes.old.items }
    requires time { slice_index_or nodes.old.items at 0 ≡ time }
    ensures tree { IfNone result (spec.IsTimerTreeOf nodes.new.items) }
    ensures but { IfSome result (λ least. spec.IsTreeBut (at / 16) nodes.new.items) }
    ensures time { IfSome result (λ least. slice_index_or nodes.new.items (at / 4) 0 ≡ least) }
    ensures length { length nodes.new.items ≡ length nodes.old.items }
    ensures leaves { spec.leaves nodes.new.items ≡ spec.leaves nodes.old.items }
    ensures room { vec_capacity nodes.new ≡ vec_capacity nodes.old }
{
    let least = least_beside(nodes, at, time);
    if nodes[at / 4] == least {
        return None;
    }
    nodes[at / 4] = least;
    Some(least)
}

// Carries the time of a node up to the root. The climb ends early if a node is right already. Most
// changes of a leaf end at the node above it, so this function is not inlined.
#[inline(never)]
fn climb(nodes: &mut Vec<u64>, from: usize, time: u64)
    requires tree { spec.IsTreeBut (from / 4) nodes.old.items }
    requires there { from < length nodes.old.items }
    requires time { slice_index_or nodes.old.items from 0 ≡ time }
    ensures tree { spec.IsTimerTreeOf nodes.new.items }
    ensures length { length nodes.new.items ≡ length nodes.old.items }
    ensures leaves { spec.leaves nodes.new.items ≡ spec.leaves nodes.old.items }
    ensures room { vec_capacity nodes.new ≡ vec_capacity nodes.old }
{
    let mut at = from;
    let mut least = time;
    while at > 3 {
        let Some(above) = carry(nodes, at, least) else {
            return;
        };
        at /= 4;
        least = above;
    }
}

// How many leaves there are.
#[inline(always)]
fn half_of(nodes: &[u64]) -> usize
    ensures { result ≡ length nodes.now / 2 }
{
    nodes.len() / 2
}

#[inline(always)]
fn set_leaf(nodes: &mut Vec<u64>, leaf: usize, time: u64)
    requires tree { spec.IsTimerTreeOf nodes.old.items }
    requires size { IsSize (length nodes.old.items / 2) }
    requires leaf { leaf < length (spec.leaves nodes.old.items) }
    ensures tree { spec.IsTimerTreeOf nodes.new.items }
    ensures length { length nodes.new.items ≡ length nodes.old.items }
    ensures leaves { spec.leaves nodes.new.items
        ≡ slice_set (spec.leaves nodes.old.items) leaf time }
    ensures room { vec_capacity nodes.new ≡ vec_capacity nodes.old }
{
    let half = half_of(nodes);
    let at = half + leaf;
    nodes[at] = time;
    let Some(of_four) = carry(nodes, at, time) else {
        return;
    };
    climb(nodes, at / 4, of_four);
}

fn root(nodes: &[u64]) -> u64
    requires tree { spec.IsTimerTreeOf nodes.now }
    requires size { IsSize (length nodes.now / 2) }
    ensures { result ≡ least (spec.leaves nodes.now) }
{
    nodes[1]
}

// So many nodes more that never come.
fn add_never(nodes: &mut Vec<u64>, count: usize)
    requires { vec_len nodes.old + count ≤ vec_capacity nodes.old }
    ensures nodes { nodes.new.items ≡ nodes.old.items ++ replicate count (2 ^ 64 - 1) }
    ensures room { vec_capacity nodes.new ≡ vec_capacity nodes.old }
{
    for _ in 0..count {
        nodes.push_reserved(NEVER);
    }
}

// Of eight halves of nodes the second becomes the fifth as well.
fn copy_leaves(nodes: &mut Vec<u64>, half: usize)
    requires { length nodes.old.items ≡ 8 * half }
    ensures length { length nodes.new.items ≡ length nodes.old.items }
    ensures copied { spec.AreCopied nodes.old.items half half nodes.new.items }
    ensures room { vec_capacity nodes.new ≡ vec_capacity nodes.old }
{
    for leaf in 0..half {
        nodes[4 * half + leaf] = nodes[half + leaf];
    }
}

// Each inner node is made the least of the four below it.
fn build(nodes: &mut Vec<u64>)
    requires fours { length nodes.old.items ≡ 4 * (length nodes.old.items / 4) }
    requires few { length nodes.old.items ≤ 2048 }
    ensures tree { spec.IsTimerTreeOf nodes.new.items }
    ensures length { length nodes.new.items ≡ length nodes.old.items }
    ensures leaves { spec.leaves nodes.new.items ≡ spec.leaves nodes.old.items }
    ensures room { vec_capacity nodes.new ≡ vec_capacity nodes.old }
{
    let mut at = nodes.len() / 4;
    while at > 1 {
        at -= 1;
        nodes[at] = least_below(nodes, at);
    }
}

// Four times as many leaves; those that are new never come.
fn widen(nodes: &mut Vec<u64>)
    requires tree { spec.IsTimerTreeOf nodes.old.items }
    requires few { length nodes.old.items ≤ 512 }
    requires room { vec_capacity nodes.old ≡ 2048 }
    ensures tree { spec.IsTimerTreeOf nodes.new.items }
    ensures length { length nodes.new.items ≡ 4 * length nodes.old.items }
    ensures leaves { spec.leaves nodes.new.items
        ≡ spec.leaves nodes.old.items
        ++ replicate (3 * length (spec.leaves nodes.old.items)) (2 ^ 64 - 1) }
    ensures room { vec_capacity nodes.new ≡ vec_capacity nodes.old }
{
    let half = nodes.len() / 2;
    add_never(nodes, 6 * half);
    copy_leaves(nodes, half);
    build(nodes);
}

// The first leaf after the highest node above this one, or itself, that has not come; up to there
// no leaf has.
fn following(nodes: &[u64], from: usize, time: u64) -> usize
    requires tree { spec.IsTimerTreeOf nodes.now }
    requires some { 0 < from }
    requires there { from < length nodes.now }
    requires few { length nodes.now ≤ 2048 }
    requires later { time < slice_index_or nodes.now from 0 }
    ensures next { from < result }
    ensures others { AreLater nodes.now time from result }
{
    let mut at = from;
    let mut span = 1;
    while at > 3 && nodes[at / 4] > time {
        at /= 4;
        span *= 4;
    }
    (at + 1) * span
}

// How many of three times, from the first on, have not come.
#[inline(always)]
fn passed(first: u64, second: u64, third: u64, time: u64) -> usize
    ensures { spec.ArePassed first second third time result }
{
    let past_two = if third > time { 3 } else { 2 };
    let past_one = if second > time { past_two } else { 1 };
    if first > time { past_one } else { 0 }
}

// Of the four below a node the first in which something has come; the last where in none of the
// others.
#[inline(always)]
fn below(nodes: &[u64], at: usize, time: u64) -> usize
    requires tree { spec.IsTimerTreeOf nodes.now }
    requires within { 4 * at + 3 < length nodes.now }
    requires few { length nodes.now ≤ 2048 }
    ensures high { result ≤ 4 * at + 3 }
    ensures down { (level : ℕ) → spec.IsOnWay nodes.now time at (4 ^ (level + 1))
        → spec.IsOnWay nodes.now time result (4 ^ level) }
{
    4 * at + passed(nodes[4 * at], nodes[4 * at + 1], nodes[4 * at + 2], time)
}

// From the root down to the first leaf that has come. The number of steps depends only on the
// number of leaves.
#[inline(always)]
fn first_come(nodes: &[u64], time: u64) -> usize
    requires tree { spec.IsTimerTreeOf nodes.now }
    requires size { IsSize (length nodes.now / 2) }
    requires come { least (spec.leaves nodes.now) ≤ time }
    ensures way { spec.IsOnWay nodes.now time result 1 }
    ensures high { (node : ℕ) → slice_index_or nodes.now node 0 ≤ 2 ^ 64 - 1 }
{
    let mut at = 1;
    let mut span = nodes.len() / 2;
    while span > 1 {
        at = below(nodes, at, time);
        span /= 4;
    }
    at
}

impl TimerTree {
    /// Of four times that never come. No other call takes memory.
    pub(crate) fn open(alloc: Global) -> Result<TimerTree, NoMemory>
        ensures { IfOk result (λ timer_tree. timer_tree ≡ replicate 4 (2 ^ 64 - 1)) }
    {
        let mut nodes = Vec::with_capacity(alloc, ROOM)?;
        add_never(&mut nodes, 8);
        Ok(TimerTree { nodes })
    }

    /// Four times as many; those that are new never come.
    pub(crate) fn widen(&mut self)
        requires { length self.old ≤ 256 }
        ensures { self.new ≡ self.old ++ replicate (3 * length self.old) (2 ^ 64 - 1) }
    {
        widen(&mut self.nodes);
    }

    /// How many times there are.
    pub(crate) fn len(&self) -> usize
        ensures { result ≡ length self.now }
    {
        self.nodes.len() / 2
    }

    /// The time at a place.
    pub(crate) fn get(&self, place: usize) -> u64
        requires { place < length self.now }
        ensures { result ≡ slice_index_or self.now place 0 }
    {
        self.nodes[self.nodes.len() / 2 + place]
    }

    /// Another time at a place.
    #[inline(always)]
    pub(crate) fn set(&mut self, place: usize, time: u64)
        requires { place < length self.old }
        ensures { self.new ≡ slice_set self.old place time }
    {
        set_leaf(&mut self.nodes, place, time);
    }

    /// The first of the times.
    pub(crate) fn least(&self) -> u64
        requires { 0 < length self.now }
        ensures { result ≡ least self.now }
    {
        root(&self.nodes)
    }

    /// The first place whose time has come, where one has.
    #[inline(always)]
    pub(crate) fn first_come(&self, time: u64) -> usize
        requires size { IsSize (length self.now) }
        requires come { least self.now ≤ time }
        ensures within { result < length self.now }
        ensures others { AreLater self.now time 0 result }
        ensures come { slice_index_or self.now result 0 ≤ time }
        ensures high { All (λ t. t ≤ 2 ^ 64 - 1) self.now }
    {
        let half = self.nodes.len() / 2;
        first_come(&self.nodes, time) - half
    }

    /// A place after this one, whose time has not come: where none has come between.
    pub(crate) fn following(&self, place: usize, time: u64) -> usize
        requires there { place < length self.now }
        requires later { time < slice_index_or self.now place 0 }
        ensures next { place < result }
        ensures others { AreLater self.now time place result }
    {
        let half = self.nodes.len() / 2;
        following(&self.nodes, half + place, time) - half
    }
}
