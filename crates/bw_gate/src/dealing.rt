ghost use Rattle.std.specs.Prelude.{◌≡◌, ◌<◌, ◌≤◌, ◌+◌, ℕ, [], length, replicate, vec_capacity, slice_index, All};
ghost use Rattle.std.specs.Mem.Slots.{slots_items, slots_len, IsFull};
ghost use Rattle.bw_gate.specs.Pieces.{bw_of_tickets};
ghost use Rattle.bw_gate.specs.Table.{held_by, blank_table};
ghost use Rattle.bw_gate.specs.Word.{used_of as used_part, cap_of as cap_part};

use crate::piece::{Blank, Ticket};
use crate::terms::{DOMAINS, Terms};
use crate::view::{Deal, Exact, Gather, View};
use crate::word::{cap_of, used_of};
use atomic_table::{Closed, Seat, Shared};
use std::alloc::Global;

/// Makes the blanks of a new gate, from the seat that has all of them.
pub(crate) fn deal(
    shared: &Shared<(), View, Terms, Exact>,
    mut seat: Seat<(), View>,
    blanks: &mut Vec<Blank>,
    n: usize,
)
    requires words { 0 < shared.now.table_id.words }
    requires pieces { n ≡ shared.now.key.pieces }
    requires seat { (seat.table_id ≡ shared.now.table_id)
        × (seat.me ≡ (blank_table shared.now.key, [])) }
    requires room { (blanks.old.items ≡ []) × (n ≤ vec_capacity blanks.old) }
    ensures { blanks.new.items ≡ replicate n (record {
      gate = record { table = shared.now.table_id; terms = shared.now.key };
      found = [];
    }) }
{
    while blanks.len() < n {
        let seat = shared.split_seat::<Deal>(&mut seat);
        blanks.push_reserved(Blank { seat, last: 0 });
    }
}

/// Takes blanks in.
pub(crate) fn gather_blanks(
    shared: &Shared<(), View, Terms, Exact>,
    seat: &mut Seat<(), View>,
    mut blanks: Vec<Blank>,
)
    requires words { 0 < shared.now.table_id.words }
    requires seat { (seat.old.table_id ≡ shared.now.table_id)
        × (seat.old.me.1 ≡ []) × (seat.old.me.0.terms ≡ shared.now.key) }
    requires own { All (λ b.
        b.gate ≡ record { table = shared.now.table_id; terms = shared.now.key }) blanks.items }
    ensures seat { (seat.new.table_id ≡ seat.old.table_id) × (seat.new.id ≡ seat.old.id)
        × (seat.new.me.1 ≡ []) × (seat.new.me.0.terms ≡ shared.now.key) }
    ensures held { (d : ℕ) → held_by d seat.new.me.0 ≡ held_by d seat.old.me.0 }
    ensures count { length seat.new.me.0.pieces
        ≡ length seat.old.me.0.pieces + length blanks.items }
{
    while let Some(blank) = blanks.pop() {
        let Blank {
            seat: other,
            last: _,
        } = blank;
        shared.join_seat::<Gather>(seat, other);
    }
}

/// Takes tickets in.
pub(crate) fn gather_tickets(
    shared: &Shared<(), View, Terms, Exact>,
    seat: &mut Seat<(), View>,
    mut tickets: Vec<Ticket>,
)
    requires words { 0 < shared.now.table_id.words }
    requires seat { (seat.old.table_id ≡ shared.now.table_id)
        × (seat.old.me.1 ≡ []) × (seat.old.me.0.terms ≡ shared.now.key) }
    requires own { All (λ t.
        t.gate ≡ record { table = shared.now.table_id; terms = shared.now.key }) tickets.items }
    ensures seat { (seat.new.table_id ≡ seat.old.table_id) × (seat.new.id ≡ seat.old.id)
        × (seat.new.me.1 ≡ []) × (seat.new.me.0.terms ≡ shared.now.key) }
    ensures held { (d : ℕ) → held_by d seat.new.me.0
        ≡ held_by d seat.old.me.0 + bw_of_tickets d tickets.items }
    ensures count { length seat.new.me.0.pieces
        ≡ length seat.old.me.0.pieces + length tickets.items }
{
    while let Some(ticket) = tickets.pop() {
        let Ticket {
            seat: other,
            domain: _,
            bw: _,
            last: _,
        } = ticket;
        shared.join_seat::<Gather>(seat, other);
    }
    tickets.destroy_empty();
}

/// What is used of the words of a closed table, and zeros behind.
pub(crate) fn words_of(closed: &Closed<(), Global>, count: usize) -> [u64; DOMAINS]
    requires full { IsFull closed.now.words }
    requires count { (count ≡ slots_len closed.now.words)
        × (count ≡ length (slots_items closed.now.words)) × (count ≤ 8) }
    ensures { (d : ℕ) →
        slice_index result d ≡ used_part (slice_index (slots_items closed.now.words) d) }
{
    let mut word = [0; DOMAINS];
    for i in 0..count {
        word[i] = used_of(closed.word(i));
    }
    word
}

/// The caps that the words of a closed table carry, and zeros behind.
pub(crate) fn caps_of(closed: &Closed<(), Global>, count: usize) -> [u64; DOMAINS]
    requires full { IsFull closed.now.words }
    requires count { (count ≡ slots_len closed.now.words)
        × (count ≡ length (slots_items closed.now.words)) × (count ≤ 8) }
    ensures { (d : ℕ) →
        slice_index result d ≡ cap_part (slice_index (slots_items closed.now.words) d) }
{
    let mut cap = [0; DOMAINS];
    for i in 0..count {
        cap[i] = cap_of(closed.word(i));
    }
    cap
}
