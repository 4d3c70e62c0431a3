mod limiting;
mod mark;

use crate::answer::{Regrade, Take, Words};
use crate::dealing::{caps_of, deal, gather_blanks, gather_tickets, words_of};
use crate::desk::Desk;
use crate::piece::{Blank, Ticket};
use crate::terms::{Room, Terms, first_words};
use crate::view;
use crate::view::{Exact, View};
use crate::word::{cap_of, used_of};
use atomic_table::Table;
use bw_world::NoMemory;
pub use mark::Mark;
use std::alloc::Global;
use std::marker::Model;
use std::sync::Wait;

/// The bandwidth words of one to eight root domains, from which many clients take at once, without
/// a lock and without waiting for one another. All bandwidths and words are in 1/2^20 of a CPU.
///
/// A word carries a cap, which is the domain's CPUs times a limit, and what is used of it. To a
/// contract a gate is its identity: which table of words it is, and its terms, the CPUs and the
/// limits that it was opened with and the number of pieces. Between any two steps of any clients
/// the used part of each word is exactly the sum of the bandwidths of the tickets of its domain,
/// and at most the cap that the word then carries; and while no step has set the limit of a domain,
/// its word carries the cap that it was opened with. A piece is used with its own gate.
#[derive(Drop)]
pub struct Gate {
    table: Table<(), View, Terms, Exact, Global>,
    terms: Terms,
}

impl Model for Gate {
    ghost use Rattle.std.specs.Prelude.{◌≡◌, length};
    ghost use Rattle.bw_gate.specs.Pieces.{GateId};
    ghost use Rattle.bw_gate.specs.Terms.{AreTerms};

    ghost Value = { GateId };

    ghost view = { λ g. record { table = g.table.shared.table_id; terms = g.terms } };

    ghost invariant = { λ g. (g.table.shared.key ≡ g.terms)
        × (g.table.shared.table_id.words ≡ length g.terms.cpus)
        × AreTerms g.terms
        × (g.table.shared.table_id.slots ≡ 0) };
}

impl Gate {
    ghost use Rattle.std.specs.Prelude.{◌≡◌, ◌<◌, ◌≤◌, ◌+◌, ◌^◌, [], ℕ, length, replicate, slice_index, All, IfOk};
    ghost use Rattle.limits.specs.Limits.{unit};
    ghost use Rattle.bw_gate.specs.Terms.{AreRooms, terms_of};
    ghost use Rattle.bw_gate.specs.Word.{used_of as used_part, IsCap};
    ghost use Rattle.bw_gate.specs.Pieces.{cpus_of, bw_of_tickets};
    ghost use Rattle.bw_gate.specs.Answers.{IsTryOfTake, IsTryOfRegrade, IsTake, IsRegrade, IsGive, IsLoad};

    /// A gate of one to eight domains, by their rooms, with words that carry the caps of the rooms
    /// and of which nothing is used; and its 1 to 4096 pieces, all of them blanks. It is the one
    /// call of a gate that takes memory. [`NoMemory`] (ENOMEM 12) where a growth was refused:
    /// nothing stands.
    pub fn open(alloc: Global, rooms: &[Room], n: usize) -> Result<(Gate, Vec<Blank>), NoMemory>
        requires { AreRooms rooms.now n }
        ensures gate { IfOk result (λ r. r.0.terms ≡ terms_of rooms.now n) }
        ensures blanks { IfOk result (λ r.
            r.1.items ≡ replicate n (record { gate = r.0; found = [] })) }
    {
        let terms = Terms::new(rooms, n);
        let mut blanks = Vec::with_capacity(alloc, n)?;
        let words = first_words(rooms, n);
        let (table, seat) = Table::of_words(alloc, &words[..rooms.len()], &terms)?;
        deal(&table.shared, seat, &mut blanks, n);
        Ok((Gate { table, terms }, blanks))
    }

    /// Ends a gate, and tells both parts of its words. Each cap is the domain's CPUs times a limit
    /// of 10485 to 1048576; what is used is at most the cap, and has room for the tickets that are
    /// handed in; and where all pieces are handed in, it is exactly the sum of the bandwidths of
    /// that domain's tickets.
    pub fn close(self, blanks: Vec<Blank>, tickets: Vec<Ticket>) -> Words
        requires blanks { All (λ b. b.gate ≡ self) blanks.items }
        requires tickets { All (λ t. t.gate ≡ self) tickets.items }
        ensures count { result.count ≡ length self.terms.cpus }
        ensures behind { (d : ℕ) → length self.terms.cpus ≤ d → slice_index result.word d ≡ 0 }
        ensures room { (d : ℕ) → bw_of_tickets d tickets.items ≤ slice_index result.word d }
        ensures capped { (d : ℕ) → slice_index result.word d ≤ slice_index result.cap d }
        ensures caps { (d : ℕ) → d < length self.terms.cpus
            → IsCap (cpus_of self d) (slice_index result.cap d) }
        ensures caps_behind { (d : ℕ) → length self.terms.cpus ≤ d → slice_index result.cap d ≡ 0 }
        ensures exact { length blanks.items + length tickets.items ≡ self.terms.pieces →
            (d : ℕ) → slice_index result.word d ≡ bw_of_tickets d tickets.items }
    {
        let Gate { table, terms } = self;
        let (_, mut seat) = table.shared.load_new_seat::<view::Come>(0);
        gather_blanks(&table.shared, &mut seat, blanks);
        gather_tickets(&table.shared, &mut seat, tickets);
        let closed = table.close_with(seat);
        let count = terms.count();
        let word = words_of(&closed, count);
        let cap = caps_of(&closed, count);
        closed.free();
        Words { count, word, cap }
    }

    /// How many pieces the gate has, 1 to 4096: blanks and tickets together, those that were
    /// dropped too.
    pub fn pieces(&self) -> usize
        ensures { result ≡ self.now.terms.pieces }
    {
        self.terms.pieces()
    }

    /// The CPUs of a domain, 1 to 64.
    pub fn cpus(&self, domain: usize) -> u64
        requires { domain < length self.now.terms.cpus }
        ensures cpus { result ≡ cpus_of self.now domain }
        ensures one { 1 ≤ result }
        ensures most { result ≤ 64 }
    {
        self.terms.cpus(domain)
    }

    /// One try to take a ticket of so much in a domain: by the piece's seat one load, and then at
    /// most one compare_exchange. The rule is the admission test of sched-deadline.rst, "Bandwidth
    /// management", of the used part and the cap of the word that the load found; as much as the
    /// cap is granted. The contract tells what the piece found; a look at the word that needs no
    /// seat would not show in it.
    ///
    /// [`Take::Refused`] (EBUSY 16) where what is used of that word and `bw` are above its cap:
    /// nothing has changed, and the blank comes back. [`Take::Raced`] where the exchange found
    /// another word than the load, since another client came between: the word is as that one left
    /// it, and the blank comes back. Nothing is claimed of which try wins.
    pub fn try_take(&self, blank: Blank, domain: usize, bw: u64) -> Take
        requires own { blank.gate ≡ self.now }
        requires inside { domain < length self.now.terms.cpus }
        requires one_cpu { bw ≤ unit }
        ensures { IsTryOfTake blank domain bw result }
    {
        let Blank { mut seat, last: _ } = blank;
        let shared = &self.table.shared;
        let seen = shared.load::<view::Load>(&mut seat, domain);
        if used_of(seen) + bw > cap_of(seen) {
            let blank = Blank { seat, last: seen };
            return Take::Refused { blank, seen };
        }
        let found = shared.compare_exchange::<view::Take>(&mut seat, domain, seen, seen + bw);
        if found == seen {
            return Take::Taken(Ticket {
                seat,
                domain,
                bw,
                last: found,
            });
        }
        let blank = Blank { seat, last: found };
        Take::Raced {
            blank,
            expected: seen,
            seen: found,
        }
    }

    /// Repeats [`Gate::try_take`] until it is not raced, and answers as its last try. It may so go
    /// on for as long as other clients come between. The piece has then found the two words of each
    /// raced try, what the last try found and nothing else: meanwhile nothing was taken, and no
    /// refusal was passed over.
    pub fn take<R: Wait>(&self, rt: &R, mut blank: Blank, domain: usize, bw: u64) -> Take
        requires own { blank.gate ≡ self.now }
        requires inside { domain < length self.now.terms.cpus }
        requires one_cpu { bw ≤ unit }
        ensures { IsTake blank domain bw result }
    {
        for _ in rt.forever() {
            match self.try_take(blank, domain, bw) {
                Take::Taken(ticket) => return Take::Taken(ticket),
                Take::Refused { blank, seen } => return Take::Refused { blank, seen },
                Take::Raced {
                    blank: back,
                    expected: _,
                    seen: _,
                } => blank = back,
            }
        }
        unreachable!()
    }

    /// One try to give a ticket another bandwidth, larger or smaller: by the ticket's seat one
    /// load, and then at most one compare_exchange. It answers as [`Gate::try_take`], by the used
    /// part less the ticket's old bandwidth. A ticket that is not [`Regrade::Changed`] keeps its
    /// domain and its bandwidth.
    pub fn try_regrade(&self, mut ticket: Ticket, bw: u64) -> Regrade
        requires own { ticket.gate ≡ self.now }
        requires one_cpu { bw ≤ unit }
        ensures { IsTryOfRegrade ticket bw result }
    {
        let seen = self.load(&mut ticket);
        let domain = ticket.domain;
        if used_of(seen) - ticket.bw + bw > cap_of(seen) {
            return Regrade::Refused { ticket, seen };
        }
        let wanted = seen - ticket.bw + bw;
        let found = self
            .table
            .shared
            .compare_exchange::<view::Regrade>(&mut ticket.seat, domain, seen, wanted);
        ticket.last = found;
        if found == seen {
            ticket.bw = bw;
            return Regrade::Changed(ticket);
        }
        Regrade::Raced {
            ticket,
            expected: seen,
            seen: found,
        }
    }

    /// Repeats [`Gate::try_regrade`] until it is not raced, and answers as its last try. It may so
    /// go on for as long as other clients come between. The ticket has then found the two words of
    /// each raced try, what the last try found and nothing else.
    pub fn regrade<R: Wait>(&self, rt: &R, mut ticket: Ticket, bw: u64) -> Regrade
        requires own { ticket.gate ≡ self.now }
        requires one_cpu { bw ≤ unit }
        ensures { IsRegrade ticket bw result }
    {
        for _ in rt.forever() {
            match self.try_regrade(ticket, bw) {
                Regrade::Changed(ticket) => return Regrade::Changed(ticket),
                Regrade::Refused { ticket, seen } => return Regrade::Refused { ticket, seen },
                Regrade::Raced {
                    ticket: back,
                    expected: _,
                    seen: _,
                } => ticket = back,
            }
        }
        unreachable!()
    }

    /// Gives a ticket's bandwidth back, by one fetch_sub, which always succeeds: the used part
    /// falls by it, and the cap stays. The piece is then a blank, which found the word with the
    /// bandwidth still in its used part.
    pub fn give(&self, ticket: Ticket) -> Blank
        requires { ticket.gate ≡ self.now }
        ensures { IsGive ticket result }
    {
        let Ticket {
            mut seat,
            domain,
            bw,
            last: _,
        } = ticket;
        let found = self
            .table
            .shared
            .fetch_sub::<view::Give>(&mut seat, domain, bw);
        Blank { seat, last: found }
    }

    /// What [`Blank::renew`] asks of the gate.
    pub fn desk(&self) -> Desk<'_>
        ensures { result ≡ self.now }
    {
        Desk {
            shared: &self.table.shared,
        }
    }

    /// The word of a ticket's domain, by one load: what is used of it is at least the ticket's
    /// bandwidth and at most the cap that it carries. Other clients may change it at any time.
    pub fn load(&self, ticket: &mut Ticket) -> u64
        requires { ticket.old.gate ≡ self.now }
        ensures load { IsLoad ticket.old result ticket.new }
        ensures small { used_part result ≤ 2 ^ 26 }
    {
        let domain = ticket.domain;
        let found = self
            .table
            .shared
            .load::<view::Load>(&mut ticket.seat, domain);
        ticket.last = found;
        found
    }
}
