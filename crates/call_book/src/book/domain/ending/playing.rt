//! A book whose last advance is entered first, and made piece by piece then.

ghost use Rattle.std.specs.Prelude.{◌≡◌, ◌<◌, ◌≤◌, ◌↔◌, ◌+◌, [], drop, length, true, All, IfErr, OnOk, OnErr, IfOk, IsTrue};
ghost use Rattle.domain_run.specs.declared.call.Call.TheVariants as Call;
ghost use Rattle.domain_run.specs.declared.call.Reply.TheVariants as Reply;
ghost use Rattle.domain_run.specs.LoggedRun.{IsLoggedUntil, IsLoggedFrom};
ghost use Rattle.domain_run.specs.Passing.{without_front, without_switches};
ghost use Rattle.domain_run.specs.Sound.{IsDomain};
ghost use Rattle.call_book.specs.Playing.{PlayingIsAdvancing};

use super::EndingBook;
use super::ticking::Ticking;
use crate::book::Pass;
use crate::book::domain::{Full, Workers};
use crate::book::ledger::Ledger;
use crate::book::stock::Stock;
use bw_gate::Gate;
use calls_text::Entry;
use domain_run::{Call, Happened, Reply, State};
use std::alloc::Global;
use std::marker::Model;

/// The book of a domain whose last advance is entered first: the reply to an advance does not
/// depend on the ticks. The ticks are made piece by piece then, and their switches wait in a buffer
/// until they are forgotten; so does what happens, in a log, if it is logged. Like an
/// [`EndingBook`] it is neither cloned nor dropped, but finished or shut, since it holds tickets. A
/// thread may fill one book while others fill theirs: they share nothing.
pub struct PlayingBook {
    cpus: u32,
    limit: u64,
    domain: Ticking,
    // How many ticks are still to be made.
    ticks: u64,
    ledger: Ledger,
    stock: Stock,
    workers: Workers,
    left: Option<u64>,
    // No contract sees it: it changes no answer.
    alloc: Global,
}

impl Model for PlayingBook {
    ghost use Rattle.call_book.specs.Playing.{PlayingView};
    ghost use Rattle.call_book.specs.private.Kept.{book_of};
    ghost use Rattle.call_book.specs.private.Played.{IsPlaying};
    ghost use Rattle.call_book.specs.private.Ticking.{domain_in, logs_in, waits_in};

    ghost Value = { PlayingView };

    ghost view = { λ b. record {
      book = book_of b.cpus b.limit b.workers.count b.left b.ledger b.stock;
      at = domain_in b.domain;
      left = b.ticks;
      logs = logs_in b.domain;
      logged = waits_in b.domain;
    } };

    ghost invariant = { λ b. IsPlaying (record {
      book = book_of b.cpus b.limit b.workers.count b.left b.ledger b.stock;
      at = domain_in b.domain;
      left = b.ticks;
      logs = logs_in b.domain;
      logged = waits_in b.domain;
    }) };
}

/// A law: a book whose advance was entered first, and that is finished, is as if all its ticks had
/// been made at once.
pub fn playing_is_advancing()
    ensures law { PlayingIsAdvancing }
{}

impl EndingBook {
    ghost use Rattle.call_book.specs.Playing.{played_from};

    /// The book with a buffer for its switches, those so far among them; and with an empty log, if
    /// what happens is to be logged. Nothing is entered.
    ///
    /// # Errors
    /// The book as it was: the room for the buffer or the log was refused.
    pub fn play(self, logs: bool) -> Result<PlayingBook, EndingBook>
        ensures ok { IfOk result (λ p. p ≡ played_from logs self) }
        ensures err { IfErr result (λ e. e ≡ self) }
    {
        let EndingBook {
            cpus,
            limit,
            state,
            ledger,
            stock,
            workers,
            left,
            alloc,
            streamed,
        } = self;
        // For the prover alone: a look at the state brings what every domain keeps.
        let _ = state.now();
        match Ticking::of(alloc, state, logs) {
            Ok(domain) => Ok(PlayingBook {
                cpus,
                limit,
                domain,
                ticks: 0,
                ledger,
                stock,
                workers,
                left,
                alloc,
            }),
            Err(state) => Err(EndingBook {
                cpus,
                limit,
                state,
                ledger,
                stock,
                workers,
                left,
                alloc,
                streamed,
            }),
        }
    }

    /// Ends a book that is of no use any more: its tickets are given back. Takes no memory.
    pub fn shut(self, gate: &Gate)
        requires { gate.now ≡ self.book.gate }
    {
        let EndingBook {
            cpus: _,
            limit: _,
            state,
            ledger: _,
            stock,
            workers: _,
            left: _,
            alloc: _,
            streamed: _,
        } = self;
        // For the prover alone: dropped by a call, and not field by field.
        drop(state);
        stock.give_back(gate);
    }
}

impl PlayingBook {
    ghost use Rattle.calls_text.specs.Limits.{IsCall};
    ghost use Rattle.call_book.specs.Book.{own_entries, state_of, IsBookHistory, IsPassOf, EntersAlone, IsRefusedFull};
    ghost use Rattle.call_book.specs.Playing.{all_switches, all_logged, switches_ahead, logged_ahead, HasWholeRun, LeadsToRun, IsFurther, IsSweptBook};

    /// Enters an advance of `n` ticks, 1 to 60000000, of which none is made yet. Its reply is that
    /// all are: from here on the history is that of the whole advance. Takes no memory.
    ///
    /// # Errors
    /// [`Full`]: the history is full, and nothing has changed.
    pub fn begin_advance(&mut self, pass: &mut Pass, n: u64) -> Result<(), Full>
        requires made { self.old.left ≡ 0 }
        requires pass { IsPassOf self.old.book pass.old }
        requires call { IsCall (Call.Advance n) }
        ensures entered { OnOk result
            (EntersAlone self.old.book self.new.book pass.old pass.new (Call.Advance n)
            (Reply.Done n)) }
        ensures left { OnOk result (self.new ≡ record self.old { book = self.new.book; left = n }) }
        ensures whole { HasWholeRun self.old → HasWholeRun self.new }
        ensures full { OnErr result (IsRefusedFull self.old.book self.new.book pass.old pass.new) }
        ensures same { OnErr result (self.new ≡ self.old) }
    {
        // For the prover alone: a look at the domain brings what every domain keeps.
        let _ = self.domain.state();
        if self.ledger.is_full() {
            return Err(Full);
        }
        self.ledger
            .enter(pass, Call::Advance { ticks: n }, Reply::Done { ticks: n });
        self.ticks = n;
        Ok(())
    }

    /// Makes ticks of those that are left, until the buffer has no room for the switches of one
    /// event more: `true` if some are left then. The new switches are added after those that wait.
    /// If none waited before, at least one tick is made. Switches still to come are at the domain's
    /// time or later. What happens is not kept, and the log is empty then. Takes no memory, and
    /// needs nothing that others have.
    pub fn fill(&mut self) -> bool
        ensures further { IsFurther self.old self.new }
        ensures switches { all_switches self.new ≡ all_switches self.old }
        ensures later { All (λ s. self.new.at.time ≤ s.time) (switches_ahead self.new) }
        ensures more { IsTrue result ↔ (0 < self.new.left) }
        ensures full { 0 < self.new.left → 0 < length self.new.at.switches }
        ensures some { self.old.at.switches ≡ [] → 0 < self.old.left
            → self.new.left < self.old.left }
        ensures logged { self.new.logged ≡ [] }
    {
        self.ticks = self.domain.fill(self.ticks);
        self.ticks > 0
    }

    /// As [`PlayingBook::fill`], but what happens is kept, if it is logged: it is added after what
    /// waits in the log, and no more ticks are made if the log has no room for what one event more
    /// logs. If ticks are left, something waits in the buffer or in the log. What ends a tick at
    /// the domain's time is logged then, and what begins one at that time is still to be logged.
    /// Takes no memory.
    pub fn fill_logged(&mut self) -> bool
        ensures further { IsFurther self.old self.new }
        ensures switches { all_switches self.new ≡ all_switches self.old }
        ensures logged { all_logged self.new ≡ all_logged self.old }
        ensures later { All (λ s. self.new.at.time ≤ s.time) (switches_ahead self.new) }
        ensures unlogged { All (IsLoggedFrom self.new.at.time) (logged_ahead self.new) }
        ensures more { IsTrue result ↔ (0 < self.new.left) }
        ensures full { 0 < self.new.left
            → 0 < length self.new.at.switches + length self.new.logged }
    {
        self.ticks = self.domain.fill_logged(self.ticks);
        self.ticks > 0
    }

    /// Forgets the first `count` of the switches that wait, or all if they are fewer. Takes no
    /// memory.
    pub fn forget_front(&mut self, count: usize)
        ensures { self.new ≡ record self.old { at = without_front count self.old.at } }
    {
        self.domain.forget_front(count);
    }

    /// Forgets the first `count` of what waits in the log, or all if it is less. Takes no memory.
    pub fn forget_logged(&mut self, count: usize)
        ensures { self.new ≡ record self.old { logged = drop count self.old.logged } }
    {
        self.domain.forget_logged(count);
    }

    /// Makes all ticks that are left. Neither the switches that wait nor those of these ticks are
    /// kept. Takes no memory.
    pub fn make_rest(&mut self)
        ensures book { self.new.book ≡ self.old.book }
        ensures made { self.new.left ≡ 0 }
    {
        self.forget_all();
        'pieces: while self.fill() {
            self.forget_all();
        }
    }

    /// Forgets all switches that wait.
    fn forget_all(&mut self)
        ensures { self.new ≡ record self.old { at = without_switches self.old.at } }
    {
        self.domain.forget_switches();
    }

    /// CPUs of the domain.
    pub fn cpus(&self) -> u32
        ensures cpus { result ≡ self.now.book.cpus }
        ensures same { self.now.at.cpus ≡ self.now.book.cpus }
    {
        self.cpus
    }

    /// The domain as far as it is made, to be looked at; its switches are those that wait.
    pub fn state(&self) -> &State
        ensures state { result.now ≡ self.now.at }
        ensures domain { IsDomain self.now.at }
        ensures leads { LeadsToRun self.now }
        ensures run { self.now.left ≡ 0 → HasWholeRun self.now
            → self.now.at ≡ state_of self.now.book }
    {
        self.domain.state()
    }

    /// What happened and waits in the log; it is logged by now, and no cut is in it.
    pub fn logged(&self) -> &[Happened]
        ensures logged { result.now ≡ self.now.logged }
        ensures until { All (IsLoggedUntil self.now.at.time) self.now.logged }
    {
        self.domain.logged()
    }

    /// How many ticks are still to be made.
    pub fn left(&self) -> u64
        ensures { result ≡ self.now.left }
    {
        self.ticks
    }

    /// The history, which has the advance from its beginning on.
    pub fn entries(&self) -> &[Entry]
        ensures entries { result.now ≡ self.now.book.history }
        ensures history { IsBookHistory self.now.book }
    {
        self.ledger.entries()
    }

    /// Compares a pass with the book, which changes neither: the pass's list is exactly its
    /// client's entries in the history, which is legal.
    pub fn agree(&mut self, pass: &mut Pass)
        requires { pass.old.spine ≡ self.old.book.spine }
        ensures book { self.new ≡ self.old }
        ensures pass { pass.new ≡ pass.old }
        ensures own { pass.new.entries ≡ own_entries pass.new.client self.new.book.history }
        ensures history { IsBookHistory self.new.book }
    {
        self.ledger.agree(pass);
    }

    /// The book after its last tick. The tickets of tasks that went off the list are given back,
    /// and their blanks kept; the switches that wait are forgotten. Takes no memory.
    pub fn finish(self, gate: &Gate) -> EndingBook
        requires gate { gate.now ≡ self.book.gate }
        requires made { self.left ≡ 0 }
        ensures swept { IsSweptBook self.book result.book }
        ensures forgotten { result.streamed ≡ true }
    {
        let PlayingBook {
            cpus,
            limit,
            mut domain,
            ticks: _,
            ledger,
            mut stock,
            workers,
            left,
            alloc,
        } = self;
        domain.forget_switches();
        let state = domain.into_state();
        stock.sweep(gate, &state);
        EndingBook {
            cpus,
            limit,
            state,
            ledger,
            stock,
            workers,
            left,
            alloc,
            streamed: true,
        }
    }

    /// Ends a book that is of no use any more, whatever is left of its advance: its tickets are
    /// given back. Takes no memory.
    pub fn shut(self, gate: &Gate)
        requires { gate.now ≡ self.book.gate }
    {
        let PlayingBook {
            cpus: _,
            limit: _,
            domain,
            ticks: _,
            ledger: _,
            stock,
            workers: _,
            left: _,
            alloc: _,
        } = self;
        // For the prover alone: dropped by a call, and not field by field.
        drop(domain);
        stock.give_back(gate);
    }
}
