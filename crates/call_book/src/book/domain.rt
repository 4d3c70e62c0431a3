//! The book of a domain: what a client does to it under its lock.

ghost use Rattle.std.specs.Prelude.{◌≡◌, ◌<◌, ◌≤◌, ◌+◌, ◌++◌, [], ℕ, length, map, All, IfOk, IfErr, OnErr, IfSome, IfNone, slice_get};
ghost use Rattle.std.specs.Option.{option_to_list};
ghost use Rattle.bw_gate.specs.Pieces.{cpus_of};
ghost use Rattle.domain_run.specs.declared.call.Call.TheVariants as Call;
ghost use Rattle.domain_run.specs.Tick as tick;
ghost use Rattle.domain_run.specs.Domain.{IsLimit};
ghost use Rattle.domain_run.specs.Happened.{logged_by_ticks};
ghost use Rattle.domain_run.specs.Keys.{AreKept};
ghost use Rattle.domain_run.specs.Log.{HasLogged};
ghost use Rattle.call_book.specs.Pieces.{HoldsTickets};
ghost use Rattle.call_book.specs.private.Kept.{IsRegradeAsked, IsLimitAsked};
ghost use Rattle.limits.specs.Limits.{clock_end, max_history};

mod ending;
mod moving;

use crate::book::Pass;
use crate::book::ledger::Ledger;
use crate::book::prepared::{Listing, Prepared};
use crate::book::stock::Stock;
use attr_check::Params;
use bw_gate::{Blank, Gate, Ticket, used_of};
use calls_text::Entry;
use domain_run::{Call, Log, NoMemory, Reply, State};
pub use ending::{DrawnAdvance, EndingBook, PlayingBook, StreamedAdvance, playing_is_advancing};
use jump_run::Silent;
pub use moving::{Move, MoveFault, move_task};
use std::alloc::Global;
use std::error::Error;
use std::fmt;
use std::marker::Model;
use std::sync::Wait;
use std::thread::Threads;

/// How many workers an advance may have: at least one.
#[derive(Clone, Copy)]
struct Workers {
    count: usize,
    ghost some: { 0 < count },
}

/// One root domain with the history of its calls and the tickets of its tasks. It has room for so
/// many calls; it is neither cloned nor dropped, but closed, since it holds tickets.
pub struct Domain {
    cpus: u32,
    // The limit at opening; what holds now is the state's.
    limit: u64,
    state: State,
    ledger: Ledger,
    stock: Stock,
    workers: Workers,
    // The word that the last change of the limit left.
    left: Option<u64>,
    // No contract sees it: it changes no answer.
    alloc: Global,
}

impl Model for Domain {
    ghost use Rattle.call_book.specs.Book.{BookView};
    ghost use Rattle.call_book.specs.private.Kept.{book_of, IsBook};

    ghost Value = { BookView };

    ghost view = { λ b. book_of b.cpus b.limit b.workers.count b.left b.ledger b.stock };

    ghost invariant = { λ b. IsBook
        (book_of b.cpus b.limit b.workers.count b.left b.ledger b.stock) b.state };
}

/// What [`Domain::admit`] answers.
pub enum Admit {
    /// The task is listed, and the domain holds its ticket.
    Admitted {
        /// A kept blank, where there is one: it is the caller's.
        blank: Option<Blank>,
    },
    /// EBUSY 16: the sum of bandwidths found does not leave room for the task. The call stands in
    /// the history.
    Busy {
        /// The ticket, as it was.
        ticket: Ticket,
        /// The sum of bandwidths, in 1/2^20 of a CPU.
        seen: u64,
    },
    /// 40: the history is full, or 256 tasks are listed. Nothing has changed.
    Full {
        /// The ticket, as it was.
        ticket: Ticket,
        /// The admission, as it was.
        prepared: Prepared,
    },
    /// 41: a task of this number was admitted here before. Nothing has changed.
    Twice {
        /// The ticket, as it was.
        ticket: Ticket,
        /// The admission, as it was.
        prepared: Prepared,
    },
}

/// What [`Domain::limit`] answers.
pub enum Limit {
    /// The limit is the new one, in the gate's word and in the domain. The call stands in the
    /// history.
    Set {
        /// The blank, which last found the word that was left.
        blank: Blank,
    },
    /// EBUSY 16: more bandwidth is in use than the CPUs times the new limit, by the domain's own
    /// sum or by the gate's word. Neither has changed. The call stands in the history.
    Busy {
        /// The blank, as it was but for what it found.
        blank: Blank,
        /// The bandwidth in use, in 1/2^20 of a CPU.
        seen: u64,
    },
    /// 40: the history is full. Nothing has changed.
    Full {
        /// The blank, as it was.
        blank: Blank,
    },
}

/// 40: the history is full. Nothing has changed. It prints as `the history is full`.
#[derive(Clone, Copy, Debug)]
pub struct Full;

impl fmt::Display for Full {
    ghost use Rattle.std.specs.Prelude.{Some, codes};

    ghost output = { λ _. Some (codes "the history is full") };

    fn fmt<W: fmt::Write>(&self, f: &mut fmt::Formatter<W>) -> fmt::Result {
        f.write_str("the history is full")
    }
}

impl Error for Full {}

/// Why [`Domain::advance`] made no tick. Nothing has changed. It prints as `the history is full` or
/// `out of memory`.
#[derive(Clone, Copy, Debug)]
pub enum AdvanceError {
    /// 40: the history is full.
    Full,
    /// ENOMEM 12: there was no memory for the first tick.
    Memory,
}

impl fmt::Display for AdvanceError {
    ghost use Rattle.std.specs.Prelude.{Some};
    ghost use Rattle.call_book.specs.FaultText.{advance_text};

    ghost output = { λ e. Some (advance_text e) };

    fn fmt<W: fmt::Write>(&self, f: &mut fmt::Formatter<W>) -> fmt::Result {
        match self {
            AdvanceError::Full => f.write_str("the history is full"),
            AdvanceError::Memory => f.write_str("out of memory"),
        }
    }
}

impl Error for AdvanceError {}

/// What a closed domain leaves.
pub struct Closed {
    /// The state of the domain: the run of the history.
    pub state: State,
    /// The history.
    pub entries: Vec<Entry>,
    /// The tickets of the listed tasks, in the order of their admission.
    pub tickets: Vec<Ticket>,
    /// The blanks that were kept.
    pub blanks: Vec<Blank>,
}

impl Domain {
    ghost use Rattle.calls_text.specs.Limits.{IsCall};
    ghost use Rattle.bw_gate.specs.Pieces.{bw_of_tickets};
    ghost use Rattle.call_book.specs.Pieces.{IsTicketOf, HoldsTickets};
    ghost use Rattle.call_book.specs.Book.{own_entries, state_of, HasItsLimit, IsBookHistory, IsPassOf, EntersAlone, IsRefusedFull};
    ghost use Rattle.call_book.specs.BookAnswers.{IsAdmit, IsRegraded, IsAdvanced, IsNotAdvanced, LogsAdvance};
    ghost use Rattle.call_book.specs.LimitAnswers.{AnswersLimit, blank_of};

    /// An empty book of one of the gate's domains, of its 1 to 64 CPUs, that may give away `limit`
    /// of each (10485 to 1048576 in 1/2^20), with which the domain's word was opened; with a pass
    /// for each of 0 to 64 clients, numbered from 1, and room for 1 to 65536 calls and for 256
    /// tickets and blanks. [`NoMemory`] (ENOMEM 12) where a growth was refused: nothing stands.
    pub fn open(
        alloc: Global,
        gate: &Gate,
        domain: usize,
        cpus: u32,
        limit: u64,
        clients: u32,
        history: usize,
    ) -> Result<(Domain, Vec<Pass>), NoMemory>
        requires cpus { (0 < cpus) × (cpus ≤ 64) }
        requires limit { IsLimit limit }
        requires machine { cpus_of gate.now domain ≡ cpus }
        requires clients { clients ≤ 64 }
        requires history { (0 < history) × (history ≤ max_history) }
        ensures book { IfOk result (λ r. r.0 ≡ record {
          gate = gate.now;
          domain = domain;
          cpus = cpus;
          limit = limit;
          clients = clients;
          spine = r.0.spine;
          room = history;
          history = [];
          tickets = [];
          blanks = [];
          workers = 1;
          left = None;
        }) }
        ensures count { IfOk result (λ r. length r.1.items ≡ clients) }
        ensures passes { IfOk result (λ r. (k : ℕ) → k < clients
            → slice_get r.1.items k
            ≡ Some (record { spine = r.0.spine; client = k + 1; entries = [] })) }
    {
        let (ledger, passes) = Ledger::open(alloc, clients, history)?;
        let stock = Stock::open(alloc, gate, domain)?;
        // The state is made last: it is large, and nothing that is large is let go of here.
        let Ok(state) = State::open(alloc, cpus, limit) else {
            stock.destroy();
            return Err(NoMemory);
        };
        let book = Domain {
            cpus,
            limit,
            state,
            ledger,
            stock,
            alloc,
            workers: Workers { count: 1 },
            left: None,
        };
        Ok((book, passes))
    }

    /// How many workers an advance may have, 1 to 8; 1 where this was never called. They share the
    /// work on the tasks that run, which starts threads and takes memory for each event of an
    /// advance. A thread pays for itself from some thousands of running tasks on, so with fewer for
    /// each worker none is started; 64 CPUs run at most 64. What an advance answers and enters is
    /// the same with every number, also where a worker cannot be started. It is no call of the
    /// history. Takes no memory.
    pub fn set_workers(&mut self, n: usize)
        requires { (1 ≤ n) × (n ≤ 8) }
        ensures { self.new ≡ record self.old { workers = n } }
    {
        self.workers = Workers { count: n };
    }

    /// Admits a task whose bandwidth its ticket has. Tested in this order: the history is full;
    /// then as [`State::admit`](domain_run::State::admit) tests. The book tests the sum of
    /// bandwidths itself, since one ticket says nothing of the others. Takes no memory.
    pub fn admit(&mut self, pass: &mut Pass, prepared: Prepared, ticket: Ticket) -> Admit
        requires pass { IsPassOf self.old pass.old }
        requires ticket { IsTicketOf self.old.gate self.old.domain ticket }
        requires bw { ticket.bw ≡ prepared.params.bw }
        ensures { IsAdmit self.old self.new pass.old pass.new prepared ticket result }
    {
        if self.ledger.is_full() {
            return Admit::Full { ticket, prepared };
        }
        match prepared.list(&mut self.state) {
            Listing::Listed { number, call } => {
                self.ledger.enter(pass, call, Reply::Admitted);
                let blank = self.stock.spare();
                self.stock.hold(number, ticket);
                Admit::Admitted { blank }
            }
            Listing::Busy { seen, call } => {
                self.ledger.enter(pass, call, Reply::Busy { seen });
                Admit::Busy { ticket, seen }
            }
            Listing::Full { prepared } => Admit::Full { ticket, prepared },
            Listing::Twice { prepared } => Admit::Twice { ticket, prepared },
        }
    }

    /// Wakes a task that waits, as [`State::wake`](domain_run::State::wake) does; the reply is
    /// entered, a refusal too. Takes no memory.
    pub fn wake(&mut self, pass: &mut Pass, number: u32) -> Result<Reply, Full>
        requires pass { IsPassOf self.old pass.old }
        requires call { IsCall (Call.Wake number) }
        ensures entered { IfOk result
            (EntersAlone self.old self.new pass.old pass.new (Call.Wake number)) }
        ensures full { IfErr result (λ _. IsRefusedFull self.old self.new pass.old pass.new) }
    {
        if self.ledger.is_full() {
            return Err(Full);
        }
        let reply = self.state.wake(number);
        self.ledger.enter(pass, Call::Wake { number }, reply);
        Ok(reply)
    }

    /// Ends a task, as [`State::leave`](domain_run::State::leave) does; the reply is entered, a
    /// refusal too. Its ticket stays until an advance takes the task off the list. Takes no memory.
    pub fn leave(&mut self, pass: &mut Pass, number: u32) -> Result<Reply, Full>
        requires pass { IsPassOf self.old pass.old }
        requires call { IsCall (Call.Leave number) }
        ensures entered { IfOk result
            (EntersAlone self.old self.new pass.old pass.new (Call.Leave number)) }
        ensures full { IfErr result (λ _. IsRefusedFull self.old self.new pass.old pass.new) }
    {
        if self.ledger.is_full() {
            return Err(Full);
        }
        let reply = self.state.leave(number);
        self.ledger.enter(pass, Call::Leave { number }, reply);
        Ok(reply)
    }

    /// Gives a listed task new parameters, as [`State::regrade`](domain_run::State::regrade) does.
    /// Only where the domain's own test passes, its ticket asks the gate's word, again as long as
    /// other clients come between; where the word refuses, the reply is `Busy` with the number that
    /// the ticket found last, and else the ticket has the new bandwidth. The reply is entered, a
    /// refusal too. Takes no memory.
    pub fn regrade<R: Wait>(
        &mut self,
        rt: &R,
        pass: &mut Pass,
        gate: &Gate,
        number: u32,
        params: Params,
    ) -> Result<Reply, Full>
        requires pass { IsPassOf self.old pass.old }
        requires gate { gate.now ≡ self.old.gate }
        requires call { IsCall (Call.Regrade number params None) }
        ensures entered { IfOk result
            (IsRegraded self.old self.new pass.old pass.new number params) }
        ensures full { IfErr result (λ _. IsRefusedFull self.old self.new pass.old pass.new) }
    {
        if self.ledger.is_full() {
            return Err(Full);
        }
        let word = ask_word(rt, gate, &self.state, &mut self.stock, number, &params);
        let reply = self.state.regrade(number, params, word);
        let call = Call::Regrade {
            number,
            params,
            word,
        };
        self.ledger.enter(pass, call, reply);
        Ok(reply)
    }

    /// Changes what the domain may give away of each CPU, 10485 to 1048576 in 1/2^20, as
    /// [`State::set_limit`](domain_run::State::set_limit) does, in the gate's word too: it stands
    /// for a write to sched_rt_runtime_us (sched-deadline.rst, "System wide settings"). Tested in
    /// this order: the history is full; the sum of bandwidths is above CPUs times the new limit,
    /// and then the word is not asked; more than that is used of the word, which is asked by
    /// [`Gate::limit`](bw_gate::Gate::limit), again as long as other clients come between. Where it
    /// is set, the word carries the new cap and the state has the new limit. The reply is entered,
    /// a refusal too, and the blank comes back in each case. Takes no memory.
    pub fn limit<R: Wait>(
        &mut self,
        rt: &R,
        pass: &mut Pass,
        gate: &Gate,
        blank: Blank,
        limit: u64,
    ) -> Limit
        requires pass { IsPassOf self.old pass.old }
        requires gate { gate.now ≡ self.old.gate }
        requires blank { blank.gate ≡ self.old.gate }
        requires limit { IsLimit limit }
        ensures answer { AnswersLimit self.old self.new pass.old pass.new limit blank result }
        ensures own { (blank_of result).gate ≡ self.old.gate }
    {
        if self.ledger.is_full() {
            return Limit::Full { blank };
        }
        let domain = self.stock.domain();
        let (blank, word) = ask_limit(rt, gate, &self.state, domain, blank, limit);
        let reply = self.state.set_limit(limit, word);
        self.ledger.enter(pass, Call::Limit { limit, word }, reply);
        match reply {
            Reply::Busy { seen } => Limit::Busy { blank, seen },
            _ => {
                self.left = Some(blank.last());
                Limit::Set { blank }
            }
        }
    }

    /// Makes up to `n` ticks, 1 to 60000000, and enters how many were made: fewer only where a
    /// growth was refused. The tickets of tasks that went off the list are given back, and their
    /// blanks kept. It goes from event to event, by as many workers as [`Domain::set_workers`]
    /// said, and waits for them; with one it starts no thread.
    pub fn advance<R: Threads + Wait>(
        &mut self,
        rt: &R,
        pass: &mut Pass,
        gate: &Gate,
        n: u64,
    ) -> Result<Reply, AdvanceError>
        requires pass { IsPassOf self.old pass.old }
        requires gate { gate.now ≡ self.old.gate }
        requires call { IsCall (Call.Advance n) }
        ensures done { IfOk result (IsAdvanced self.old self.new pass.old pass.new n) }
        ensures stopped { IfErr result (IsNotAdvanced self.old self.new pass.old pass.new) }
    {
        let mut log = self.state.silent();
        self.advance_logged(rt, pass, gate, n, &mut log)
    }

    /// As [`Domain::advance`], and the log records what happens in the ticks that were made, in the
    /// order of "Happened". The book keeps no log. Where it refuses, nothing is logged.
    pub fn advance_logged<R: Threads + Wait>(
        &mut self,
        rt: &R,
        pass: &mut Pass,
        gate: &Gate,
        n: u64,
        log: &mut Log,
    ) -> Result<Reply, AdvanceError>
        requires pass { IsPassOf self.old pass.old }
        requires gate { gate.now ≡ self.old.gate }
        requires call { IsCall (Call.Advance n) }
        ensures done { IfOk result (IsAdvanced self.old self.new pass.old pass.new n) }
        ensures stopped { IfErr result (IsNotAdvanced self.old self.new pass.old pass.new) }
        ensures logged { IfOk result (LogsAdvance self.old log.old log.new) }
        ensures unlogged { OnErr result (HasLogged log.old [] log.new) }
    {
        if self.ledger.is_full() {
            return Err(AdvanceError::Full);
        }
        let ticks = make_ticks(rt, self.alloc, &mut self.state, n, self.workers, log);
        if ticks == 0 {
            return Err(AdvanceError::Memory);
        }
        self.stock.sweep(gate, &self.state);
        let reply = Reply::Done { ticks };
        self.ledger.enter(pass, Call::Advance { ticks }, reply);
        Ok(reply)
    }

    /// Hands out a kept blank, where there is one. Takes no memory.
    pub fn spare(&mut self) -> Option<Blank>
        ensures book { self.new ≡ record self.old { blanks = self.new.blanks } }
        ensures blank { self.old.blanks ≡ self.new.blanks ++ option_to_list result }
        ensures none { IfNone result (self.old.blanks ≡ []) }
        ensures own { IfSome result (λ b. b.gate ≡ self.old.gate) }
    {
        self.stock.spare()
    }

    /// Compares a pass with the book, which changes neither: the pass's list is exactly its
    /// client's entries in the history, which is legal.
    pub fn agree(&mut self, pass: &mut Pass)
        requires { pass.old.spine ≡ self.old.spine }
        ensures book { self.new ≡ self.old }
        ensures pass { pass.new ≡ pass.old }
        ensures own { pass.new.entries ≡ own_entries pass.new.client self.new.history }
        ensures history { IsBookHistory self.new }
    {
        self.ledger.agree(pass);
    }

    /// Ends a book: hands out its state, its history and its pieces. Each pass that is handed in is
    /// compared with the history. Takes no memory.
    pub fn close(self, passes: Vec<Pass>) -> Closed
        requires { All (λ p. p.spine ≡ self.spine) passes.items }
        ensures state { result.state ≡ state_of self }
        ensures machine { (result.state.cpus ≡ self.cpus) × IsLimit result.state.limit }
        ensures limited { HasItsLimit self }
        ensures cpus { cpus_of self.gate self.domain ≡ self.cpus }
        ensures entries { result.entries.items ≡ self.history }
        ensures tickets { result.tickets.items ≡ map (λ h. h.ticket) self.tickets }
        ensures blanks { result.blanks.items ≡ self.blanks }
        ensures history { IsBookHistory self }
        ensures own { All (λ p. p.entries ≡ own_entries p.client self.history) passes.items }
        ensures held { HoldsTickets result.state self.tickets }
        ensures sums { bw_of_tickets self.domain result.tickets.items
            ≡ tick.sum_of result.state.tasks }
        ensures homes { All (IsTicketOf self.gate self.domain) result.tickets.items }
        ensures spare { All (λ b. b.gate ≡ self.gate) result.blanks.items }
        ensures few { length result.tickets.items + length result.blanks.items ≤ 256 }
    {
        let Domain {
            cpus: _,
            limit: _,
            state,
            mut ledger,
            stock,
            alloc: _,
            workers: _,
            left: _,
        } = self;
        ledger.agree_all(passes);
        let (tickets, blanks) = stock.into_pieces();
        Closed {
            state,
            entries: ledger.into_entries(),
            tickets,
            blanks,
        }
    }
}

/// Asks the word where the domain's own test passes: the number with which it refused, where it
/// did.
fn ask_word<R: Wait>(
    rt: &R,
    gate: &Gate,
    state: &State,
    stock: &mut Stock,
    number: u32,
    params: &Params,
) -> Option<u64>
    requires gate { gate.now ≡ stock.old.gate }
    requires held { HoldsTickets state.now stock.old.tickets }
    ensures { IsRegradeAsked state.now stock.old stock.new number params.now result }
{
    if !state.may_regrade(number, params) {
        return None;
    }
    stock.regrade(rt, gate, number, params.bandwidth())
}

/// The blank asks the word for a limit where the domain's own test passes: the blank, and the
/// number with which the word refused, where it did.
fn ask_limit<R: Wait>(
    rt: &R,
    gate: &Gate,
    state: &State,
    domain: usize,
    blank: Blank,
    limit: u64,
) -> (Blank, Option<u64>)
    requires own { blank.gate ≡ gate.now }
    requires machine { cpus_of gate.now domain ≡ state.now.cpus }
    requires limit { IsLimit limit }
    ensures { IsLimitAsked state.now gate.now domain limit blank result.0 result.1 }
{
    if !state.may_limit(limit) {
        return (blank, None);
    }
    match gate.limit(rt, blank, domain, limit) {
        bw_gate::Limit::Set(blank) => (blank, None),
        bw_gate::Limit::Refused { blank, seen } => (blank, Some(used_of(seen))),
        bw_gate::Limit::Raced {
            blank,
            expected: _,
            seen: _,
        } => (blank, None),
    }
}

/// The fewest running tasks for which a worker's thread pays: it takes 50 to 100 us to start and to
/// join, and a running task takes some 15 ns to be planned or charged.
const LEAST_PIECE: usize = 4096;

/// How many workers share the work on the tasks that run at once, one a CPU: at most so many, and
/// no more than there are pieces that pay for a thread.
fn sharing(cpus: u32, workers: usize) -> usize
    ensures { 0 < result }
{
    workers.min(cpus as usize / LEAST_PIECE).max(1)
}

/// How many of so many ticks were made, which the log records: fewer only where a growth was
/// refused. One worker is the caller itself, who looks only at what changes where nobody listens.
fn make_ticks<R: Threads + Wait>(
    rt: &R,
    alloc: Global,
    state: &mut State,
    n: u64,
    workers: Workers,
    log: &mut Log,
) -> u64
    requires { state.old.time + n ≤ clock_end }
    ensures most { result ≤ n }
    ensures state { state.new ≡ tick.ticks result state.old }
    ensures keys { AreKept state.old.tasks state.new.tasks }
    ensures logged { HasLogged log.old (logged_by_ticks result state.old) log.new }
{
    let workers = sharing(state.cpus(), workers.count);
    if workers == 1 {
        return jump_run::advance_logged(state, n, log).ticks;
    }
    jump_run::advance_with_logged(rt, alloc, state, n, workers, &Silent, log).ticks
}
