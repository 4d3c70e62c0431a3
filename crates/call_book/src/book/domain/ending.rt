//! A book at its end: no call is made on it any more, but one last advance that is streamed, or
//! that is made piece by piece.

ghost use Rattle.std.specs.Prelude.{◌≡◌, ◌≤◌, ◌+◌, [], length, map, true, false, All, IfOk, IfErr, OnErr};
ghost use Rattle.bw_gate.specs.Pieces.{cpus_of};
ghost use Rattle.domain_run.specs.declared.call.Call.TheVariants as Call;
ghost use Rattle.domain_run.specs.declared.call.Reply.TheVariants as Reply;
ghost use Rattle.domain_run.specs.Tick as tick;
ghost use Rattle.domain_run.specs.Domain.{IsLimit};
ghost use Rattle.streamed_run.specs.Streamed.{streamed_of, streamed_after, nothing_streamed};
ghost use Rattle.limits.specs.Limits.{clock_end};

mod drawn;
mod playing;
mod ticking;

use super::{AdvanceError, Closed, Domain};
use crate::book::Pass;
use crate::book::ledger::Ledger;
use crate::book::stock::Stock;
use bw_gate::Gate;
use domain_run::{Call, NoMemory, Reply, State};
pub use drawn::DrawnAdvance;
pub use playing::{PlayingBook, playing_is_advancing};
use std::alloc::Global;
use std::marker::Model;
use streamed_run::{Accounting, advance_streamed, open_streamed, open_streamed_with_jobs};

/// The book of a domain at its end: no call is made on it any more, but one last advance whose run
/// is streamed. Like a [`Domain`] it is neither cloned nor dropped, but closed, since it holds
/// tickets. Contracts see the book, and whether its run was streamed: the switches are forgotten
/// then.
pub struct EndingBook {
    cpus: u32,
    limit: u64,
    state: State,
    ledger: Ledger,
    stock: Stock,
    workers: super::Workers,
    left: Option<u64>,
    // No contract sees it: it changes no answer.
    alloc: Global,
    streamed: bool,
}

impl Model for EndingBook {
    ghost use Rattle.call_book.specs.Ending.{EndingView};
    ghost use Rattle.call_book.specs.private.Ended.{IsEnding};
    ghost use Rattle.call_book.specs.private.Kept.{book_of};

    ghost Value = { EndingView };

    ghost view = { λ b. record {
      book = book_of b.cpus b.limit b.workers.count b.left b.ledger b.stock;
      streamed = b.streamed;
    } };

    ghost invariant = { λ b. IsEnding
        (book_of b.cpus b.limit b.workers.count b.left b.ledger b.stock)
        b.streamed b.state };
}

/// What an advance gives that was streamed.
#[derive(Drop)]
pub struct StreamedAdvance {
    /// How many ticks were made, and entered.
    pub ticks: u64,
    /// What was streamed: all switches of the run, and what happened in this advance.
    pub accounting: Accounting,
}

/// An accounting of the run of a domain that is to end `n` ticks from now. It keeps the jobs of
/// each task too, if `jobs` asks for them.
fn open_accounting(alloc: Global, state: &State, n: u64, jobs: bool) -> Result<Accounting, NoMemory>
    requires { state.now.time + n ≤ clock_end }
    ensures { IfOk result (λ a. a ≡ nothing_streamed n state.now) }
{
    if jobs {
        return open_streamed_with_jobs(alloc, state, n);
    }
    open_streamed(alloc, state, n)
}

impl Domain {
    /// No call is made any more. Takes no memory.
    pub fn end(self) -> EndingBook
        ensures { result ≡ record { book = self; streamed = false } }
    {
        let Domain {
            cpus,
            limit,
            state,
            ledger,
            stock,
            workers,
            left,
            alloc,
        } = self;
        EndingBook {
            cpus,
            limit,
            state,
            ledger,
            stock,
            workers,
            left,
            alloc,
            streamed: false,
        }
    }
}

impl EndingBook {
    ghost use Rattle.calls_text.specs.Limits.{IsCall};
    ghost use Rattle.bw_gate.specs.Pieces.{bw_of_tickets};
    ghost use Rattle.call_book.specs.Pieces.{IsTicketOf, HoldsTickets};
    ghost use Rattle.call_book.specs.Book.{own_entries, state_of, HasItsLimit, IsBookHistory, IsPassOf};
    ghost use Rattle.call_book.specs.BookAnswers.{IsAdvanced, IsNotAdvanced};
    ghost use Rattle.call_book.specs.Ending.{state_left};

    /// Streams the switches of the run, which are forgotten then. Nothing is entered. The
    /// accounting keeps the jobs of each task, if `jobs` asks for them.
    ///
    /// # Errors
    /// 12 [`NoMemory`]: a growth was refused; nothing has changed.
    pub fn stream(&mut self, jobs: bool) -> Result<Accounting, NoMemory>
        requires { self.old.streamed ≡ false }
        ensures ok { IfOk result (λ _. self.new ≡ record self.old { streamed = true }) }
        ensures all { IfOk result (λ a. a ≡ streamed_of (state_of self.old.book) []) }
        ensures err { OnErr result (self.new ≡ self.old) }
    {
        // For the prover alone: a look at the state brings what every domain keeps.
        let _ = self.state.now();
        let mut accounting = open_accounting(self.alloc, &self.state, 0, jobs)?;
        advance_streamed(self.alloc, &mut self.state, 0, &mut accounting);
        self.streamed = true;
        Ok(accounting)
    }

    /// Makes up to `n` ticks, 1 to 60000000, as [`Domain::advance`] does, by one worker; enters how
    /// many were made, fewer only where a growth was refused; and gives back the tickets of tasks
    /// that went off the list. An accounting takes all switches of the run, and what happens in
    /// these ticks, piece by piece; the book keeps neither. The accounting keeps the jobs of each
    /// task, if `jobs` asks for them.
    ///
    /// # Errors
    /// [`AdvanceError::Full`] and [`AdvanceError::Memory`]: no tick was made, and nothing is
    /// entered. Where memory was refused, the switches may be forgotten.
    pub fn advance_streamed(
        &mut self,
        pass: &mut Pass,
        gate: &Gate,
        n: u64,
        jobs: bool,
    ) -> Result<StreamedAdvance, AdvanceError>
        requires unstreamed { self.old.streamed ≡ false }
        requires pass { IsPassOf self.old.book pass.old }
        requires gate { gate.now ≡ self.old.book.gate }
        requires call { IsCall (Call.Advance n) }
        ensures done { IfOk result (λ r. IsAdvanced self.old.book self.new.book pass.old pass.new n
            (Reply.Done r.ticks)) }
        ensures streamed { IfOk result (λ r. r.accounting
            ≡ streamed_after n r.ticks (state_of self.old.book)) }
        ensures forgotten { IfOk result (λ _. self.new.streamed ≡ true) }
        ensures stopped { IfErr result
            (IsNotAdvanced self.old.book self.new.book pass.old pass.new) }
    {
        if self.ledger.is_full() {
            return Err(AdvanceError::Full);
        }
        let Ok(mut accounting) = open_accounting(self.alloc, &self.state, n, jobs) else {
            return Err(AdvanceError::Memory);
        };
        let ticks = advance_streamed(self.alloc, &mut self.state, n, &mut accounting).ticks;
        self.streamed = true;
        if ticks == 0 {
            // By one call, not written out with all that is inside.
            drop(accounting);
            return Err(AdvanceError::Memory);
        }
        self.stock.sweep(gate, &self.state);
        self.ledger
            .enter(pass, Call::Advance { ticks }, Reply::Done { ticks });
        Ok(StreamedAdvance { ticks, accounting })
    }

    /// Compares a pass with the book, which changes neither: the pass's list is exactly its
    /// client's entries.
    pub fn agree(&mut self, pass: &mut Pass)
        requires { pass.old.spine ≡ self.old.book.spine }
        ensures book { self.new ≡ self.old }
        ensures pass { pass.new ≡ pass.old }
        ensures own { pass.new.entries ≡ own_entries pass.new.client self.new.book.history }
    {
        self.ledger.agree(pass);
    }

    /// As [`Domain::close`]; the state is without its switches where its run was streamed.
    pub fn close(self, passes: Vec<Pass>) -> Closed
        requires { All (λ p. p.spine ≡ self.book.spine) passes.items }
        ensures state { result.state ≡ state_left self }
        ensures machine { (result.state.cpus ≡ self.book.cpus) × IsLimit result.state.limit }
        ensures limited { HasItsLimit self.book }
        ensures cpus { cpus_of self.book.gate self.book.domain ≡ self.book.cpus }
        ensures entries { result.entries.items ≡ self.book.history }
        ensures tickets { result.tickets.items ≡ map (λ h. h.ticket) self.book.tickets }
        ensures blanks { result.blanks.items ≡ self.book.blanks }
        ensures history { IsBookHistory self.book }
        ensures own { All (λ p. p.entries ≡ own_entries p.client self.book.history) passes.items }
        ensures held { HoldsTickets result.state self.book.tickets }
        ensures sums { bw_of_tickets self.book.domain result.tickets.items
            ≡ tick.sum_of result.state.tasks }
        ensures homes { All (IsTicketOf self.book.gate self.book.domain) result.tickets.items }
        ensures spare { All (λ b. b.gate ≡ self.book.gate) result.blanks.items }
        ensures few { length result.tickets.items + length result.blanks.items ≤ 256 }
    {
        let EndingBook {
            cpus: _,
            limit: _,
            state,
            mut ledger,
            stock,
            workers: _,
            left: _,
            alloc: _,
            streamed: _,
        } = self;
        ledger.agree_all(passes);
        let (tickets, blanks) = stock.into_pieces();
        Closed {
            state,
            entries: ledger.into_entries(),
            tickets,
            blanks,
        }
    }
}
