ghost use Rattle.std.specs.Prelude.{◌≡◌, ◌<◌, ◌≤◌, ◌+◌, [], ℕ, true, length, slice_get, vec_capacity};
ghost use Rattle.pass_seats.specs.Listed.{opened};

use crate::pass::Pass;
use crate::view::{Agree, Append, Deal, Gather, Listed, Said, View};
use atomic_table::{Badge, Seat, Shared, Table};
use no_memory::NoMemory;
use std::alloc::Global;
use std::marker::{Brand, Model};
use std::mem;

/// A list of entries, each of a client. To a contract it is its identity and the list; no entry is
/// kept when it runs.
#[derive(Drop)]
pub struct Spine<E> {
    table: Table<(), View<E>, u32, Listed, Global>,
    seat: Seat<(), View<E>>,
}

impl<E> Model for Spine<E> {
    ghost use Rattle.std.specs.Prelude.{◌≡◌, [], true};
    ghost use Rattle.pass_seats.specs.Lists.{SpineView};

    ghost Value = { SpineView E };

    ghost view = { λ s. record { spine = s.table.shared.table_id; log = s.seat.me.0.log } };

    ghost invariant = { λ s. (s.table.shared.table_id.words ≡ 1)
        × (s.seat.table_id ≡ s.table.shared.table_id)
        × (s.seat.me ≡ (record { is_spine = true; log = s.seat.me.0.log; passes = [] }, [])) };
}

impl<E> Spine<E> {
    ghost use Rattle.std.specs.Prelude.{◌≡◌, ◌<◌, ◌≤◌, ◌+◌, ◌^◌, ◌++◌, ◌∷◌, [], ℕ, length, slice_get, IfOk};
    ghost use Rattle.pass_seats.specs.Lists.{own};

    /// A spine with no entry, and a pass for each of so many clients, numbered from 1. It is the
    /// one call that takes memory. [`NoMemory`] (ENOMEM 12) where a growth was refused: nothing
    /// stands.
    pub fn open(alloc: Global, clients: u32) -> Result<(Spine<E>, Vec<Pass<E>>), NoMemory>
        ensures spine { IfOk result (λ r. r.0.log ≡ []) }
        ensures count { IfOk result (λ r. length r.1.items ≡ clients) }
        ensures passes { IfOk result (λ r. (k : ℕ) → k < clients →
            slice_get r.1.items k ≡ Some
            (record { spine = r.0.spine; client = k + 1; entries = [] })) }
    {
        let mut passes = Vec::with_capacity(alloc, clients as usize)?;
        let (table, mut seat) = Table::of_words(alloc, &[0], &clients)?;
        deal(&table.shared, &mut seat, &mut passes, clients);
        Ok((Spine { table, seat }, passes))
    }

    /// Adds an entry to both lists: to the spine as one of the pass's client, and to the pass. A
    /// pass is used with its own spine, and has fewer than 2^32 entries.
    pub fn append(&mut self, pass: &mut Pass<E>, entry: &E)
        requires own { pass.old.spine ≡ self.old.spine }
        requires room { length pass.old.entries < 2 ^ 32 }
        ensures spine { self.new ≡ record self.old {
          log = self.old.log ++ (pass.old.client, entry.now) ∷ [];
        } }
        ensures pass { pass.new ≡ record pass.old {
          entries = pass.old.entries ++ entry.now ∷ [];
        } }
    {
        self.append_as::<Brand>(pass, entry);
    }

    // The same, with the entry named by a ghost member, since a step announces no value of a type
    // of the caller's.
    fn append_as<J: Said<E>>(&mut self, pass: &mut Pass<E>, entry: &E)
        requires said { J.said ≡ entry.now ∷ [] }
        requires own { pass.old.spine ≡ self.old.spine }
        requires room { length pass.old.entries < 2 ^ 32 }
        ensures spine { self.new ≡ record self.old {
          log = self.old.log ++ (pass.old.client, entry.now) ∷ [];
        } }
        ensures pass { pass.new ≡ record pass.old {
          entries = pass.old.entries ++ entry.now ∷ [];
        } }
    {
        // For the prover alone: the entry stands in the step that appends it, as a ghost.
        let _ = entry;
        let table = &self.table;
        let seat = mem::replace(&mut pass.badge, Badge::blank()).into_seat::<()>();
        table.shared.join_seat::<Gather>(&mut self.seat, seat);
        table.shared.load::<Append<J>>(&mut self.seat, 0);
        let seat = table.shared.split_seat::<Deal>(&mut self.seat);
        pass.badge = seat.into_badge();
        pass.made += 1;
    }

    /// Compares a pass with its spine, which changes neither: the pass's list is exactly the
    /// spine's entries of its client.
    pub fn agree(&mut self, pass: &mut Pass<E>)
        requires { pass.old.spine ≡ self.old.spine }
        ensures spine { self.new ≡ self.old }
        ensures pass { pass.new ≡ pass.old }
        ensures own { pass.new.entries ≡ own pass.new.client self.new.log }
    {
        let table = &self.table;
        let seat = mem::replace(&mut pass.badge, Badge::blank()).into_seat::<()>();
        table.shared.join_seat::<Gather>(&mut self.seat, seat);
        table.shared.load::<Agree>(&mut self.seat, 0);
        let seat = table.shared.split_seat::<Deal>(&mut self.seat);
        pass.badge = seat.into_badge();
    }
}

// Splits the passes of the clients off the first seat.
fn deal<E>(
    shared: &Shared<(), View<E>, u32, Listed>,
    seat: &mut Seat<(), View<E>>,
    passes: &mut Vec<Pass<E>>,
    clients: u32,
)
    requires words { 0 < shared.now.table_id.words }
    requires seat { (seat.old.table_id ≡ shared.now.table_id)
        × (seat.old.me ≡ (opened clients, [])) }
    requires room { (passes.old.items ≡ []) × (clients ≤ vec_capacity passes.old) }
    ensures seat { (seat.new.table_id ≡ seat.old.table_id)
        × (seat.new.me ≡ (record { is_spine = true; log = []; passes = [] }, [])) }
    ensures count { length passes.new.items ≡ clients }
    ensures passes { (k : ℕ) → k < clients → slice_get passes.new.items k
        ≡ Some (record { spine = shared.now.table_id; client = k + 1; entries = [] }) }
{
    for k in 0..clients {
        let badge = shared.split_seat::<Deal>(seat).into_badge();
        passes.push_reserved(Pass {
            badge,
            client: k + 1,
            made: 0,
        });
    }
}
