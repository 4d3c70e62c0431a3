//! The pieces of the gate in a book: a ticket for each listed task, and the blanks of tasks that
//! have gone.

ghost use Rattle.std.specs.Prelude.{◌≡◌, ◌<◌, ◌≤◌, ◌+◌, ◌*◌, ◌^◌, ◌++◌, ◌∷◌, [], length, map, filter, true, All, IfOk, IfSome, IfNone, List, vec_len, vec_capacity, slice_index_or};
ghost use Rattle.std.specs.List.{list_any};
ghost use Rattle.std.specs.Option.{option_to_list};
ghost use Rattle.bw_gate.specs.Pieces.{BlankView, cpus_of};
ghost use Rattle.call_book.specs.Pieces.{IsTicketOf, IsTicketAnswered, AsksTheWord, ArePieces, HoldsTickets, is_held, is_kept, is_gone, AreGiven};
ghost use Rattle.call_book.specs.MoveAnswers.{IsTakenOut};
ghost use Rattle.call_book.specs.declared.book.stock.Held.{Held};
ghost use Rattle.limits.specs.Limits.{unit};

use bw_gate::{Blank, Gate, Mark, Regrade, Ticket, used_of};
use domain_run::{NoMemory, State};
use std::alloc::Global;
use std::marker::Model;
use std::sync::Wait;

/// The most pieces of a book, and the most tasks that a domain lists.
const MOST: usize = 256;

/// A ticket, and the number of the task that it is held for.
pub(crate) struct Held {
    pub(crate) number: u32,
    pub(crate) ticket: Ticket,
}

/// Tickets and blanks of one domain of one gate, 256 together at most.
pub(crate) struct Stock {
    gate: Mark,
    domain: usize,
    held: Vec<Held>,
    blanks: Vec<Blank>,
    // Room for the tickets as they are handed out at the end.
    home: Vec<Ticket>,
}

impl Model for Stock {
    ghost use Rattle.std.specs.Prelude.{vec_capacity};
    ghost use Rattle.call_book.specs.private.Stock.{StockView, IsStock};

    ghost Value = { StockView };

    ghost view = { λ s. record {
      gate = s.gate;
      domain = s.domain;
      tickets = s.held.items;
      blanks = s.blanks.items;
    } };

    ghost invariant = { λ s. IsStock s.gate s.domain s.held.items s.blanks.items s.home.items
        (vec_capacity s.held)
        (vec_capacity s.blanks) (vec_capacity s.home) };
}

impl Stock {
    /// No piece, with room for 256.
    pub(crate) fn open(alloc: Global, gate: &Gate, domain: usize) -> Result<Stock, NoMemory>
        ensures { IfOk result (λ s. s
            ≡ record { gate = gate.now; domain = domain; tickets = []; blanks = [] }) }
    {
        let blanks = Vec::with_capacity(alloc, MOST)?;
        let held = Vec::with_capacity(alloc, MOST)?;
        let Ok(home) = Vec::with_capacity(alloc, MOST) else {
            held.destroy_empty();
            return Err(NoMemory);
        };
        let gate = gate.mark();
        Ok(Stock {
            gate,
            domain,
            held,
            blanks,
            home,
        })
    }

    /// Lets go of a stock without pieces.
    pub(crate) fn destroy(self)
        requires tickets { self.tickets ≡ [] }
        requires blanks { self.blanks ≡ [] }
    {
        let Stock {
            gate: _,
            domain: _,
            held,
            blanks,
            home,
        } = self;
        held.destroy_empty();
        blanks.destroy_empty();
        home.destroy_empty();
    }

    /// Which of the gate's domains it is.
    pub(crate) fn domain(&self) -> usize
        ensures { result ≡ self.now.domain }
    {
        self.domain
    }

    /// Holds a ticket for a task.
    pub(crate) fn hold(&mut self, number: u32, ticket: Ticket)
        requires own { IsTicketOf self.old.gate self.old.domain ticket }
        requires room { length self.old.tickets + length self.old.blanks < 256 }
        ensures { self.new ≡ record self.old {
          tickets = self.old.tickets
              ++ record { number = number; ticket = ticket } ∷ [];
        } }
    {
        self.held.push_reserved(Held { number, ticket });
    }

    /// Hands out a blank, where there is one.
    pub(crate) fn spare(&mut self) -> Option<Blank>
        ensures stock { self.new ≡ record self.old { blanks = self.new.blanks } }
        ensures blank { self.old.blanks ≡ self.new.blanks ++ option_to_list result }
        ensures none { IfNone result (self.old.blanks ≡ []) }
        ensures own { IfSome result (λ b. b.gate ≡ self.old.gate) }
        ensures few { length self.old.tickets + length self.old.blanks ≤ 256 }
    {
        self.blanks.pop()
    }

    /// Keeps a blank.
    pub(crate) fn keep(&mut self, blank: Blank)
        requires own { blank.gate ≡ self.old.gate }
        requires room { length self.old.tickets + length self.old.blanks < 256 }
        ensures { self.new ≡ record self.old { blanks = self.old.blanks ++ blank ∷ [] } }
    {
        self.blanks.push_reserved(blank);
    }

    /// Hands out the ticket of a task, which goes from here.
    pub(crate) fn release(&mut self, number: u32) -> Ticket
        requires held { list_any (is_held number) self.old.tickets ≡ true }
        ensures stock { self.new ≡ record self.old { tickets = self.new.tickets } }
        ensures taken { IsTakenOut number self.old.tickets self.new.tickets result }
        ensures own { IsTicketOf self.old.gate self.old.domain result }
        ensures fewer { length self.new.tickets + length self.new.blanks < 256 }
    {
        take_out(&mut self.held, number)
    }

    /// The ticket of a task asks the gate for another bandwidth: what is used of the word with
    /// which it refused, where it did.
    pub(crate) fn regrade<R: Wait>(
        &mut self,
        rt: &R,
        gate: &Gate,
        number: u32,
        bw: u64,
    ) -> Option<u64>
        requires gate { gate.now ≡ self.old.gate }
        requires bw { bw ≤ 2 ^ 20 }
        requires held { list_any (is_held number) self.old.tickets ≡ true }
        ensures stock { self.new ≡ record self.old { tickets = self.new.tickets } }
        ensures asked { AsksTheWord number bw self.old.tickets self.new.tickets result }
        ensures within { IfSome result
            (λ used. used ≤ cpus_of self.old.gate self.old.domain * unit) }
        ensures own { All (λ h. IsTicketOf self.old.gate self.old.domain h.ticket)
            self.old.tickets }
    {
        regrade_held(rt, gate, &mut self.held, number, bw)
    }

    /// Gives the tickets of tasks that are no longer listed back, and keeps their blanks. The
    /// others are those of the list.
    pub(crate) fn sweep(&mut self, gate: &Gate, state: &State)
        requires gate { gate.now ≡ self.old.gate }
        requires listed { HoldsTickets state.now (filter (is_kept state.now) self.old.tickets) }
        ensures stock { self.new ≡ record self.old {
          tickets = filter (is_kept state.now) self.old.tickets;
          blanks = self.new.blanks;
        } }
        ensures given { (given : List BlankView) × (self.new.blanks ≡ self.old.blanks ++ given)
            × AreGiven (filter (is_gone state.now) self.old.tickets) given }
    {
        sweep_held(gate, state, &mut self.held, &mut self.blanks);
    }

    /// Gives all tickets back.
    pub(crate) fn give_back(self, gate: &Gate)
        requires { gate.now ≡ self.gate }
    {
        let (mut tickets, blanks) = self.into_pieces();
        drop(blanks);
        while let Some(ticket) = tickets.pop() {
            gate.give(ticket);
        }
        tickets.destroy_empty();
    }

    /// The tickets, in the order of the tasks, and the blanks.
    pub(crate) fn into_pieces(self) -> (Vec<Ticket>, Vec<Blank>)
        ensures tickets { result.0.items ≡ map (λ h. h.ticket) self.tickets }
        ensures blanks { result.1.items ≡ self.blanks }
        ensures pieces { ArePieces self.gate self.domain self.tickets self.blanks }
    {
        let Stock {
            gate: _,
            domain: _,
            held,
            blanks,
            mut home,
        } = self;
        let mut rest = held.into_iter();
        while let Some(Held { number: _, ticket }) = rest.next() {
            home.push_reserved(ticket);
        }
        rest.destroy_empty();
        (home, blanks)
    }
}

fn place_of(held: &[Held], number: u32) -> usize
    requires { list_any (is_held number) held.now ≡ true }
    ensures within { result < length held.now }
    ensures there { (d : Held) → (slice_index_or held.now result d).number ≡ number }
{
    for (i, h) in held.iter().enumerate() {
        if h.number == number {
            return i;
        }
    }
    unreachable!()
}

fn take_out(held: &mut Vec<Held>, number: u32) -> Ticket
    requires { list_any (is_held number) held.old.items ≡ true }
    ensures taken { IsTakenOut number held.old.items held.new.items result }
    ensures fewer { length held.old.items ≡ length held.new.items + 1 }
    ensures capacity { vec_capacity held.new ≡ vec_capacity held.old }
{
    let place = place_of(held, number);
    let Held { number: _, ticket } = held.remove(place);
    ticket
}

fn ask<R: Wait>(rt: &R, gate: &Gate, ticket: Ticket, bw: u64) -> (Ticket, Option<u64>)
    requires own { ticket.gate ≡ gate.now }
    requires bw { bw ≤ 2 ^ 20 }
    ensures { IsTicketAnswered ticket bw result.0 result.1 }
{
    match gate.regrade(rt, ticket, bw) {
        Regrade::Changed(ticket) => (ticket, None),
        Regrade::Refused { ticket, seen } => (ticket, Some(used_of(seen))),
        Regrade::Raced {
            ticket,
            expected: _,
            seen: _,
        } => (ticket, None),
    }
}

fn regrade_held<R: Wait>(
    rt: &R,
    gate: &Gate,
    held: &mut Vec<Held>,
    number: u32,
    bw: u64,
) -> Option<u64>
    requires own { All (λ h. h.ticket.gate ≡ gate.now) held.old.items }
    requires bw { bw ≤ 2 ^ 20 }
    requires held { list_any (is_held number) held.old.items ≡ true }
    requires room { vec_len held.old ≤ vec_capacity held.old }
    ensures asked { AsksTheWord number bw held.old.items held.new.items result }
    ensures capacity { vec_capacity held.new ≡ vec_capacity held.old }
{
    let place = place_of(held, number);
    let Held { number: _, ticket } = held.remove(place);
    let (ticket, word) = ask(rt, gate, ticket, bw);
    match held.insert(place, Held { number, ticket }) {
        Ok(()) => word,
        Err(_) => unreachable!(),
    }
}

// One walk, since the tickets stand in the order of the tasks: a ticket stays exactly where the
// task at its place is its own.
fn sweep_held(gate: &Gate, state: &State, held: &mut Vec<Held>, blanks: &mut Vec<Blank>)
    requires own { All (λ h. h.ticket.gate ≡ gate.now) held.old.items }
    requires listed { HoldsTickets state.now (filter (is_kept state.now) held.old.items) }
    requires room { length held.old.items + length blanks.old.items ≤ vec_capacity blanks.old }
    ensures kept { held.new.items ≡ filter (is_kept state.now) held.old.items }
    ensures given { (given : List BlankView) × (blanks.new.items ≡ blanks.old.items ++ given)
        × AreGiven (filter (is_gone state.now) held.old.items) given }
    ensures held_room { vec_capacity held.new ≡ vec_capacity held.old }
    ensures free_room { vec_capacity blanks.new ≡ vec_capacity blanks.old }
{
    let mut place = 0;
    while place < held.len() {
        if state.number_at(place) == Some(held[place].number) {
            place += 1;
        } else {
            let Held { number: _, ticket } = held.remove(place);
            blanks.push_reserved(gate.give(ticket));
        }
    }
}
