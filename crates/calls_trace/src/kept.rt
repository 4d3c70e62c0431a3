//! Calls that are kept until they are made.

ghost use Rattle.std.specs.Prelude.{◌≡◌, ◌+◌, ◌≤◌, IfOk, OnOk, vec_len, vec_capacity};
ghost use Rattle.std.specs.String.{string_bytes};
ghost use Rattle.calls_trace.specs.private.NameGiven.{name_given};

use crate::named_run::text_of;
use calls_text::{Kept, Reused};
use domain_run::{Call, NoMemory};
use std::alloc::Global;
use std::marker::Model;
use std::vec::IntoIter;

/// The place of a call among others: a short one stands there.
#[derive(Drop)]
enum Place {
    /// [`Call::Wake`].
    Wake {
        /// The task's number.
        number: u32,
    },
    /// [`Call::Leave`].
    Leave {
        /// The task's number.
        number: u32,
    },
    /// [`Call::Depart`].
    Depart {
        /// The task's number.
        number: u32,
    },
    /// [`Call::Advance`].
    Advance {
        /// How many us: at most 60,000,000, which is all that a call may have.
        ticks: u32,
    },
    /// Any other: the next one of those, which stand in a list of their own.
    Long,
}

/// A call, and the text of the name that it gives.
#[derive(Drop)]
struct Spelled {
    call: Call,
    /// The name of the task that comes; empty where none does.
    text: String,
    ghost spelled: { string_bytes text ≡ name_given call },
}

/// The text of the name that a call gives; empty where it gives none.
fn text_given(alloc: Global, call: &Call) -> Result<String, NoMemory>
    ensures { IfOk result (λ text. string_bytes text ≡ name_given call.now) }
{
    match call {
        Call::Admit { name, .. } | Call::Arrive { name, .. } => text_of(alloc, name),
        _ => Ok(String::new(alloc)),
    }
}

/// A call with the text of its name.
fn spelled_of(alloc: Global, call: Call) -> Result<Spelled, NoMemory>
    ensures { IfOk result (λ spelled. spelled.call ≡ call) }
{
    // What is let go of goes by one call: its parts would be written out.
    match text_given(alloc, &call) {
        Ok(text) => Ok(Spelled { call, text }),
        Err(error) => {
            drop(call);
            Err(error)
        }
    }
}

/// Calls that are kept in little room, in their order.
#[derive(Drop)]
pub(crate) struct KeptCalls {
    order: Vec<Place>,
    long: Vec<Spelled>,
}

impl Model for KeptCalls {
    ghost use Rattle.std.specs.Prelude.{◌≡◌, List, length, sum_by};
    ghost use Rattle.domain_run.specs.declared.call.Call.{Call};
    ghost use Rattle.calls_trace.specs.private.LittleRoom.{calls_of_orders, is_long};

    ghost Value = { List Call };

    ghost view = { λ k. calls_of_orders k.order.items k.long.items };

    ghost invariant = { λ k. sum_by is_long k.order.items ≡ length k.long.items };
}

/// Room for one call more that is not short.
fn make_room(order: &mut Vec<Place>, long: &mut Vec<Spelled>) -> Result<(), NoMemory>
    ensures order { order.new.items ≡ order.old.items }
    ensures long { long.new.items ≡ long.old.items }
    ensures order_room { OnOk result (vec_len order.new + 1 ≤ vec_capacity order.new) }
    ensures long_room { OnOk result (vec_len long.new + 1 ≤ vec_capacity long.new) }
{
    order.try_reserve(1)?;
    long.try_reserve(1)?;
    Ok(())
}

impl KeptCalls {
    ghost use Rattle.std.specs.Prelude.{◌≡◌, [], ◌∷◌, ◌++◌, ◌≤◌, true, OnOk, sum_by};
    ghost use Rattle.calls_text.specs.Limits.{IsCall};
    ghost use Rattle.calls_text.specs.KeptCall.{call_kept};
    ghost use Rattle.calls_trace.specs.private.Kept.{room_of};
    ghost use Rattle.calls_trace.specs.private.LittleRoom.{calls_of_orders, is_long};

    /// No call yet.
    pub(crate) fn new(alloc: Global) -> KeptCalls
        ensures { result ≡ [] }
    {
        KeptCalls {
            order: Vec::new(alloc),
            long: Vec::new(alloc),
        }
    }

    /// Whether no call is kept.
    #[inline(always)]
    pub(crate) fn is_empty(&self) -> bool
        ensures { result ≡ true → self.now ≡ [] }
    {
        self.order.is_empty()
    }

    /// One short call more.
    fn push_short(&mut self, place: Place) -> Result<(), NoMemory>
        requires { is_long place ≡ 0 }
        ensures { OnOk result (self.new ≡ self.old ++ calls_of_orders (place ∷ []) []) }
    {
        match self.order.push(place) {
            Ok(()) => {}
            Err(_) => return Err(NoMemory),
        }
        Ok(())
    }

    /// One call more that is not short.
    fn push_long(&mut self, spelled: Spelled) -> Result<(), NoMemory>
        ensures { OnOk result (self.new ≡ self.old ++ spelled.call ∷ []) }
    {
        // What finds no room is let go of by one call: its parts would be written out.
        if let Err(error) = make_room(&mut self.order, &mut self.long) {
            drop(spelled);
            return Err(error);
        }
        self.order.push_reserved(Place::Long);
        self.long.push_reserved(spelled);
        Ok(())
    }

    /// One call more, after the others. The block that it stands in is used again.
    pub(crate) fn push(
        &mut self,
        alloc: Global,
        kept: Kept,
        reused: &mut Reused<'_>,
    ) -> Result<(), NoMemory>
        requires { IsCall (call_kept kept) }
        ensures { OnOk result (self.new ≡ self.old ++ call_kept kept ∷ []) }
    {
        match kept {
            Kept::Wake { number } => self.push_short(Place::Wake { number }),
            Kept::Leave { number } => self.push_short(Place::Leave { number }),
            Kept::Depart { number } => self.push_short(Place::Depart { number }),
            Kept::Advance { ticks } => self.push_short(Place::Advance {
                ticks: ticks as u32,
            }),
            long => self.push_long(spelled_of(alloc, reused.into_call(long))?),
        }
    }

    /// Room for so many names is enough for the calls.
    pub(crate) fn room(&self) -> usize
        ensures { sum_by room_of self.now ≤ result }
    {
        self.long.len()
    }

    /// The calls, to be made from the first one on.
    pub(crate) fn into_left(self, alloc: Global) -> CallsLeft
        ensures { result ≡ self }
    {
        let KeptCalls { order, long } = self;
        CallsLeft {
            alloc,
            order: order.into_iter(),
            long: long.into_iter(),
        }
    }
}

/// Calls that are left to be made.
#[derive(Drop)]
pub(crate) struct CallsLeft {
    alloc: Global,
    order: IntoIter<Place>,
    long: IntoIter<Spelled>,
}

impl Model for CallsLeft {
    ghost use Rattle.std.specs.Prelude.{◌≡◌, List, length, sum_by};
    ghost use Rattle.std.specs.Vec.Iter.{into_iter_items};
    ghost use Rattle.domain_run.specs.declared.call.Call.{Call};
    ghost use Rattle.calls_trace.specs.private.LittleRoom.{calls_of_orders, is_long};

    ghost Value = { List Call };

    ghost view = { λ c. calls_of_orders (into_iter_items c.order) (into_iter_items c.long) };

    ghost invariant = { λ c. sum_by is_long (into_iter_items c.order)
        ≡ length (into_iter_items c.long) };
}

impl CallsLeft {
    ghost use Rattle.std.specs.Prelude.{◌≡◌, [], ◌∷◌, IfSome, MatchOption};

    /// The next call, and the text of the name that it gives; none after the last one.
    #[inline(always)]
    pub(crate) fn next(&mut self) -> Option<(Call, String)>
        ensures next { MatchOption result ((self.old ≡ []) × (self.new ≡ []))
            (λ p. self.old ≡ p.0 ∷ self.new) }
        ensures text { IfSome result (λ p. string_bytes p.1 ≡ name_given p.0) }
    {
        let none = String::new(self.alloc);
        match self.order.next() {
            Some(Place::Wake { number }) => Some((Call::Wake { number }, none)),
            Some(Place::Leave { number }) => Some((Call::Leave { number }, none)),
            Some(Place::Depart { number }) => Some((Call::Depart { number }, none)),
            Some(Place::Advance { ticks }) => {
                let ticks = u64::from(ticks);
                Some((Call::Advance { ticks }, none))
            }
            Some(Place::Long) => match self.long.next() {
                Some(Spelled { call, text }) => Some((call, text)),
                None => None,
            },
            None => None,
        }
    }
}
