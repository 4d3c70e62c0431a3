//! A log of what happens to the tasks of a domain.

ghost use Rattle.std.specs.Prelude.{◌≡◌, ◌<◌, ◌≤◌, ◌+◌, [], true, false, drop, IsTrue, length, AllPairs, OnOk};
ghost use Rattle.std.specs.Ordering.{is_lt};
ghost use Rattle.domain_run.specs.Happened as happened_spec;
ghost use Rattle.domain_run.specs.Log.{HasLogged, LogHasRoom};
ghost use Rattle.domain_run.specs.private.TransitionLog.{IsApart, InOrderFrom, one_of, all_of_logged};

mod homing;

use crate::happened::Happened;
use crate::transition_log::LogEntries;
use no_memory::NoMemory;
use std::alloc::Global;
use std::cmp::Ordering;
use std::marker::Model;

/// A log of what happens to the tasks of a domain, for the calls of [`State`](crate::State) that
/// write it. One that is wanted appends it to what it has; a silent one keeps nothing and takes no
/// memory. Contracts see it as whether it is wanted, what it has logged, and how much more it takes
/// without memory.
#[derive(Drop)]
pub struct Log {
    wanted: bool,
    happened: Vec<Happened>,
}

impl Model for Log {
    ghost use Rattle.std.specs.Prelude.{◌-◌, vec_len, vec_capacity};
    ghost use Rattle.domain_run.specs.Log.{LogView};

    ghost Value = { LogView };

    ghost view = { λ l. record {
      wanted = l.wanted;
      happened = l.happened.items;
      room = vec_capacity l.happened - vec_len l.happened;
    } };
}

// Whether one comes before another of the same time.
fn is_first(a: &Happened, b: &Happened) -> bool
    ensures { result ≡ happened_spec.is_first a.now b.now }
{
    let (left, right) = (a.what.rank(), b.what.rank());
    left < right || (left == right && (a.cpu < b.cpu || (a.cpu == b.cpu && a.number < b.number)))
}

// How two of one time are in their order. No two are equal in it.
fn order_of(a: &Happened, b: &Happened) -> Ordering
    ensures { is_lt result ≡ happened_spec.is_first a.now b.now }
{
    if is_first(a, b) {
        Ordering::Less
    } else {
        Ordering::Greater
    }
}

// Puts what is logged of one time in its order.
fn put_in_order(logged: &mut [Happened])
    ensures { AllPairs IsApart logged.old → logged.new ≡ happened_spec.in_order logged.old }
{
    logged.sort_unstable_by(|a, b| order_of(a, b));
}

impl Log {
    /// A log that keeps what it logs, and has nothing yet. It takes no memory before the first room
    /// is made.
    pub fn open(alloc: Global) -> Log
        ensures wanted { result.wanted ≡ true }
        ensures empty { result.happened ≡ [] }
    {
        Log {
            wanted: true,
            happened: Vec::new(alloc),
        }
    }

    /// A log that keeps nothing. It never takes memory.
    pub fn silent(alloc: Global) -> Log
        ensures silent { result.wanted ≡ false }
    {
        Log {
            wanted: false,
            happened: Vec::new(alloc),
        }
    }

    /// Whether it keeps what it logs.
    pub fn is_wanted(&self) -> bool
        ensures { result ≡ self.now.wanted }
    {
        self.wanted
    }

    /// What it has logged, in this order.
    pub fn happened(&self) -> &[Happened]
        ensures { result.now ≡ self.now.happened }
    {
        &self.happened
    }

    /// How much that is.
    pub(crate) fn len(&self) -> usize
        ensures { result ≡ length self.now.happened }
    {
        self.happened.len()
    }

    /// Forgets what it has logged, and keeps its room.
    pub fn clear(&mut self)
        ensures wanted { self.new.wanted ≡ self.old.wanted }
        ensures empty { self.new.happened ≡ [] }
        ensures room { self.new.room ≡ self.old.room + length self.old.happened }
    {
        // For the prover alone: a look at the room shows that what is there fits it.
        let _ = self.happened.capacity();
        self.happened.clear();
    }

    /// Forgets the first `count` of what it has logged, or all if that is less, and keeps its room.
    pub fn forget_front(&mut self, count: usize)
        ensures wanted { self.new.wanted ≡ self.old.wanted }
        ensures rest { self.new.happened ≡ drop count self.old.happened }
        ensures room { self.old.room + length self.old.happened
            ≤ self.new.room + length self.new.happened }
    {
        // For the prover alone: a look at the room shows that what is there fits it.
        let _ = self.happened.capacity();
        if count >= self.happened.len() {
            self.happened.clear();
        } else {
            self.happened.drain(..count);
        }
    }

    /// Whether it keeps what it logs and has no room for so much more.
    pub(crate) fn lacks_room(&self, count: usize) -> bool
        ensures lacks { IsTrue result → self.now.room < count }
        ensures has { result ≡ false → LogHasRoom count self.now }
    {
        self.wanted && self.happened.capacity() - self.happened.len() < count
    }

    /// Whether it has room for so much more, or keeps nothing.
    pub(crate) fn has_room(&self, count: usize) -> bool
        ensures { IsTrue result → LogHasRoom count self.now }
    {
        !self.wanted || self.happened.capacity() - self.happened.len() >= count
    }

    /// Room for so much more, where it keeps it; a silent one is as it was. `Err` where a growth
    /// was refused; it has what it had then.
    pub fn make_room(&mut self, more: usize) -> Result<(), NoMemory>
        ensures logged { HasLogged self.old [] self.new }
        ensures ok { OnOk result (LogHasRoom more self.new) }
        ensures silent { self.old.wanted ≡ false → self.new ≡ self.old }
    {
        if self.wanted {
            self.happened.try_reserve(more)?;
        }
        Ok(())
    }

    /// Has one more after all that it has logged.
    pub(crate) fn push(&mut self, one: Option<Happened>)
        requires room { LogHasRoom 1 self.old }
        ensures logged { HasLogged self.old (one_of one) self.new }
        ensures room { self.old.room ≤ self.new.room + 1 }
        ensures no_more { self.new.room ≤ self.old.room }
    {
        if let Some(one) = one
            && self.wanted
        {
            self.happened.push_reserved(one);
        }
    }

    /// Has what a transition of a task logged after all that it has logged.
    pub(crate) fn push_all(&mut self, logged: LogEntries)
        requires room { LogHasRoom 3 self.old }
        ensures logged { HasLogged self.old (all_of_logged logged) self.new }
        ensures room { self.old.room ≤ self.new.room + 3 }
    {
        self.push(logged.first);
        self.push(logged.second);
        self.push(logged.third);
    }

    /// What was logged from this place on is put in its order.
    pub(crate) fn put_in_order(&mut self, from: usize)
        requires from { from ≤ length self.old.happened }
        ensures wanted { self.new.wanted ≡ self.old.wanted }
        ensures order { InOrderFrom from self.old.happened self.new.happened }
        ensures room { self.new.room ≡ self.old.room }
    {
        if from < self.happened.len() {
            put_in_order(&mut self.happened[from..]);
        }
    }
}
