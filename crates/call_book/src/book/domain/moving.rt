//! A task moves from one book to another, under both domains' locks.

ghost use Rattle.std.specs.Prelude.{◌≡◌, ◌↔◌, ◌<◌, ◌++◌, ◌∷◌, [], Some, false, length, IsTrue, IfOk, IfErr, IfSome, IfNone};
ghost use Rattle.std.specs.Option.{option_to_list};
ghost use Rattle.domain_run.specs.declared.call.Call.TheVariants as Call;
ghost use Rattle.domain_run.specs.declared.call.Reply.TheVariants as Reply;
ghost use Rattle.domain_run.specs.Calls.{reply_to};
ghost use Rattle.domain_run.specs.Views.{moving_in};
ghost use Rattle.calls_text.specs.Limits.{IsCall};
ghost use Rattle.call_book.specs.Pieces.{IsTicketOf};
ghost use Rattle.call_book.specs.Book.{state_of, IsFull, IsPassOf, Enters};
ghost use Rattle.call_book.specs.MoveAnswers.{moving_as, arrival, IsTakenOut, IsMove, IsUnprepared};
ghost use Rattle.call_book.specs.private.Moving.{IsMoveVerdict};

use super::Domain;
use crate::book::Pass;
use crate::book::prepared::{Prepared, prepare};
use attr_check::Params;
use bw_gate::{Blank, Ticket};
use domain_run::{Call, NoMemory, Reply};
use std::alloc::Global;
use std::error::Error;
use std::fmt;

/// What [`move_task`] answers.
pub enum Move {
    /// The task is off the list of the one domain and on that of the other, which holds its ticket.
    /// A departure stands in the one history, an arrival in the other.
    Moved {
        /// The ticket with which it was listed.
        ticket: Ticket,
    },
    /// 40: a history is full, or 256 tasks are listed where it comes to. Nothing has changed.
    Full {
        /// The ticket, as it was.
        ticket: Ticket,
        /// The task, as it was prepared.
        prepared: Prepared,
    },
    /// ESRCH 3: no task of this number is listed where it goes from, or it has ended. Nothing has
    /// changed.
    NotListed {
        /// The ticket, as it was.
        ticket: Ticket,
        /// The task, as it was prepared.
        prepared: Prepared,
    },
    /// 43: the task is not as it was prepared: its parameters, its name or its script are others.
    /// Nothing has changed.
    Stale {
        /// The parameters that it has now.
        now: Params,
        /// The ticket, as it was.
        ticket: Ticket,
        /// The task, as it was prepared.
        prepared: Prepared,
    },
    /// 41: a task of this number was admitted before where it comes to. Nothing has changed.
    Twice {
        /// The ticket, as it was.
        ticket: Ticket,
        /// The task, as it was prepared.
        prepared: Prepared,
    },
    /// EBUSY 16: the sum of bandwidths where it comes to leaves no room for it. Nothing has
    /// changed.
    Busy {
        /// The sum of bandwidths, in 1/2^20 of a CPU.
        seen: u64,
        /// The ticket, as it was.
        ticket: Ticket,
        /// The task, as it was prepared.
        prepared: Prepared,
    },
}

/// Why [`Domain::prepare_move`] prepares nothing. Nothing has changed. It prints as `no such task`
/// or `out of memory`.
#[derive(Clone, Copy, Debug)]
pub enum MoveFault {
    /// ESRCH 3: no task of this number is listed, or it has ended.
    NotListed,
    /// ENOMEM 12: there was no memory for the copies.
    Memory,
}

impl fmt::Display for MoveFault {
    ghost use Rattle.std.specs.Prelude.{Some};
    ghost use Rattle.call_book.specs.FaultText.{move_text};

    ghost output = { λ e. Some (move_text e) };

    fn fmt<W: fmt::Write>(&self, f: &mut fmt::Formatter<W>) -> fmt::Result {
        match self {
            MoveFault::NotListed => f.write_str("no such task"),
            MoveFault::Memory => f.write_str("out of memory"),
        }
    }
}

impl Error for MoveFault {}

/// Whether a task moves, and why it does not.
enum Verdict {
    Moves,
    Full,
    NotListed,
    Stale { now: Params },
    Twice,
    Busy { seen: u64 },
}

impl Domain {
    /// Copies of what a task takes along to another domain, in which it begins anew, without a
    /// delay: its name, its parameters and its whole script. [`MoveFault::NotListed`] where no task
    /// of this number, 1 to 65535, is listed, or it has ended; [`MoveFault::Memory`] where a growth
    /// was refused. Nothing changes, and nothing is entered.
    pub fn prepare_move(&self, alloc: Global, number: u32) -> Result<Prepared, MoveFault>
        requires call { IsCall (Call.Depart number) }
        ensures number { IfOk result (λ p. p.number ≡ number) }
        ensures soon { IfOk result (λ p. p.delay ≡ 0) }
        ensures task { IfOk result (λ p. moving_in (state_of self.now) number
            ≡ Some (moving_as p)) }
        ensures fault { IfErr result (IsUnprepared (state_of self.now) number) }
    {
        let Some((name, params, script)) = self.state.moving(number) else {
            return Err(MoveFault::NotListed);
        };
        match prepare(alloc, number, name, *params, 0, script) {
            Ok(prepared) => Ok(prepared),
            Err(NoMemory) => Err(MoveFault::Memory),
        }
    }

    fn has_room(&self) -> bool
        ensures yes { IsTrue result → length self.now.history < self.now.room }
        ensures no { result ≡ false → IsFull self.now }
    {
        !self.ledger.is_full()
    }

    // The task comes: it is listed, its ticket is held, and a kept blank is handed out.
    fn take_in(&mut self, pass: &mut Pass, prepared: Prepared, ticket: Ticket) -> Option<Blank>
        requires pass { IsPassOf self.old pass.old }
        requires ticket { IsTicketOf self.old.gate self.old.domain ticket }
        requires bw { ticket.bw ≡ prepared.params.bw }
        requires soon { prepared.delay ≡ 0 }
        requires free { length self.old.history < self.old.room }
        requires granted { reply_to (state_of self.old) (arrival prepared) ≡ Reply.Admitted }
        ensures came { Enters self.old self.new pass.old pass.new
            (arrival prepared) Reply.Admitted }
        ensures held { self.new.tickets
            ≡ self.old.tickets ++ record { number = prepared.number; ticket = ticket } ∷ [] }
        ensures handed { self.old.blanks ≡ self.new.blanks ++ option_to_list result }
        ensures none { IfNone result (self.old.blanks ≡ []) }
        ensures own { IfSome result (λ b. b.gate ≡ self.old.gate) }
    {
        let (number, call) = prepared.arrive(&mut self.state);
        self.ledger.enter(pass, call, Reply::Admitted);
        let blank = self.stock.spare();
        self.stock.hold(number, ticket);
        blank
    }

    // The task goes: it is off the list, its ticket is handed out, and a blank may be kept.
    fn let_go(&mut self, pass: &mut Pass, number: u32, blank: Option<Blank>) -> Ticket
        requires pass { IsPassOf self.old pass.old }
        requires call { IsCall (Call.Depart number) }
        requires blank { IfSome blank (λ b. b.gate ≡ self.old.gate) }
        requires free { length self.old.history < self.old.room }
        requires listed { reply_to (state_of self.old) (Call.Depart number) ≡ Reply.Departed }
        ensures left { Enters self.old self.new pass.old pass.new
            (Call.Depart number) Reply.Departed }
        ensures taken { IsTakenOut number self.old.tickets self.new.tickets result }
        ensures kept { self.new.blanks ≡ self.old.blanks ++ option_to_list blank }
        ensures own { IsTicketOf self.old.gate self.old.domain result }
        ensures bw { IfSome (moving_in (state_of self.old) number) (λ m. result.bw ≡ m.params.bw) }
    {
        // For the prover alone: a look at the state brings what its type keeps.
        let _ = self.state.now();
        self.state.depart(number);
        self.ledger
            .enter(pass, Call::Depart { number }, Reply::Departed);
        let ticket = self.stock.release(number);
        if let Some(blank) = blank {
            self.stock.keep(blank);
        }
        ticket
    }
}

fn is_full(reply: Reply) -> bool
    ensures { IsTrue result ↔ (reply ≡ Reply.Full) }
{
    matches!(reply, Reply::Full)
}

// Whether a task moves, by the tests in their order.
fn judge(from: &Domain, to: &Domain, prepared: &Prepared) -> Verdict
    ensures { IsMoveVerdict from.now to.now prepared.now result }
{
    let number = prepared.number();
    let reply = to.state.admit_reply(number, prepared.params());
    if !from.has_room() || !to.has_room() || is_full(reply) {
        return Verdict::Full;
    }
    let Some((name, params, script)) = from.state.moving(number) else {
        return Verdict::NotListed;
    };
    if !prepared.is_of(name, params, script) {
        return Verdict::Stale { now: *params };
    }
    match reply {
        Reply::Twice => Verdict::Twice,
        Reply::Busy { seen } => Verdict::Busy { seen },
        _ => Verdict::Moves,
    }
}

/// Moves a task from one book to another of the same gate, with a client's passes of both, a ticket
/// of the other domain that has the task's bandwidth, and what [`Domain::prepare_move`] prepared.
/// Tested in this order: [`Move::Full`] where a history is full or 256 tasks are listed where it
/// comes to; [`Move::NotListed`]; [`Move::Stale`] where the task is not as it was prepared;
/// [`Move::Twice`]; [`Move::Busy`] where the sum of bandwidths there, which the book tests itself,
/// leaves no room. Else a departure is entered in the one book and an arrival in the other: the
/// task is off the one list at once, its zero-lag time with it, and on the other one, where it
/// begins anew; its old ticket comes out, and a blank that the other book keeps goes to this one. A
/// refusal stands in no history and hands back what it was given. Takes no memory.
pub fn move_task(
    from: &mut Domain,
    from_pass: &mut Pass,
    to: &mut Domain,
    to_pass: &mut Pass,
    prepared: Prepared,
    ticket: Ticket,
) -> Move
    requires gate { from.old.gate ≡ to.old.gate }
    requires from_pass { IsPassOf from.old from_pass.old }
    requires to_pass { IsPassOf to.old to_pass.old }
    requires client { from_pass.old.client ≡ to_pass.old.client }
    requires ticket { IsTicketOf to.old.gate to.old.domain ticket }
    requires bw { ticket.bw ≡ prepared.params.bw }
    requires soon { prepared.delay ≡ 0 }
    ensures { IsMove
        (record { from = from.old; out = from_pass.old; to = to.old; into = to_pass.old })
        (record { from = from.new; out = from_pass.new; to = to.new; into = to_pass.new })
        prepared ticket result }
{
    match judge(from, to, &prepared) {
        Verdict::Moves => {
            let number = prepared.number();
            let blank = to.take_in(to_pass, prepared, ticket);
            let ticket = from.let_go(from_pass, number, blank);
            Move::Moved { ticket }
        }
        Verdict::Full => Move::Full { ticket, prepared },
        Verdict::NotListed => Move::NotListed { ticket, prepared },
        Verdict::Stale { now } => Move::Stale {
            now,
            ticket,
            prepared,
        },
        Verdict::Twice => Move::Twice { ticket, prepared },
        Verdict::Busy { seen } => Move::Busy {
            seen,
            ticket,
            prepared,
        },
    }
}
