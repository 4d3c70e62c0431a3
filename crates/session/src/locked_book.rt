//! One domain of a session, after its lock, and what a client may ask of it.

ghost use Rattle.std.specs.Prelude.{◌≡◌, Some, None, IfSome, IsSome, IfOk, IfErr, Ok, Err};
ghost use Rattle.bw_gate.specs.Answers.{IsGive};
ghost use Rattle.domain_run.specs.declared.call.Call.TheVariants as calls;
ghost use Rattle.domain_run.specs.Domain.{IsLimit};
ghost use Rattle.call_book.specs.Book.{IsPassOf, IsMember, admission};
ghost use Rattle.call_book.specs.MoveAnswers.{moving_as};
ghost use Rattle.calls_text.specs.Limits.{IsCall};
ghost use Rattle.call_book.specs.Pieces.{IsTicketOf};
ghost use Rattle.session.specs.SessionId.{IsSession, spine_of};
ghost use Rattle.session.specs.Seen.{RefusalWasSeen};
ghost use Rattle.session.specs.Moves.{WasListed};
ghost use Rattle.session.specs.private.Entering.{IsSessionBook, part_with, IsSeenBook, SameBook, IsAsk, IsGivenBack, NoneIsKept, LeavesNoBlank, IsDone, IsOffered, IsReplied, IsRegradedBy, limit_answer, limit_back, IsLimitedBy, IsAdvancedBy, IsAdmissionAnswered, IsCallAnswered, IsWhyNotMade, IsBookAnswer, WasSeenFor};
ghost use Rattle.session.specs.private.Moving.{IsPassPair, IsMoveAsk, IsUnpreparedAt, IsBooksAnswer, IsWhyNotMoved};

use crate::names::Names;
use crate::refusal::{Answer, Refusal};
use attr_check::Params;
use bw_gate::{Blank, Gate, Ticket};
use call_book::{
    Admit, AdvanceError, Domain, Full, Limit, Move, MoveFault, Pass, Prepared, move_task,
};
use domain_run::Reply;
use std::alloc::Global;
use std::marker::PhantomData;
use std::sync::Wait;
use std::thread::Threads;

/// A call that is to be made on a domain, other than an advance.
pub(crate) enum Ask {
    Admit { prepared: Prepared, ticket: Ticket },
    Regrade { number: u32, params: Params },
    Wake { number: u32 },
    Leave { number: u32 },
    Limit { blank: Blank, limit: u64 },
}

/// What a call came to, and the blank that it left to the client, where it left one.
pub(crate) struct Outcome {
    pub(crate) answer: Answer,
    pub(crate) blank: Option<Blank>,
}

/// The domain of a place in a session.
pub(crate) struct LockedBook<N: Names, const D: usize> {
    pub(crate) domain: Box<Domain>,
    pub(crate) of: PhantomData<N>,
    ghost named: { IsSessionBook N.id D domain.value },
}

/// Gives the ticket of a task that was refused back to the gate, and lets go of what was prepared
/// for the task.
fn give_back(gate: &Gate, ticket: Ticket, prepared: Prepared) -> Blank
    requires { ticket.gate ≡ gate.now }
    ensures { IsGive ticket result }
{
    // For the prover alone: dropped by a call, and not field by field.
    drop(prepared);
    gate.give(ticket)
}

/// Admits a task; where the domain refuses it, the ticket goes back to the gate.
fn admit(
    domain: &mut Domain,
    gate: &Gate,
    pass: &mut Pass,
    prepared: Prepared,
    ticket: Ticket,
) -> Outcome
    requires gate { gate.now ≡ domain.old.gate }
    requires pass { IsPassOf domain.old pass.old }
    requires ticket { IsTicketOf domain.old.gate domain.old.domain ticket }
    requires bw { ticket.bw ≡ prepared.params.bw }
    ensures same { SameBook domain.old domain.new }
    ensures offered { IsOffered domain.old.cpus pass.old pass.new prepared result.answer }
    ensures given { IsGivenBack ticket result.answer result.blank }
    ensures logged { IsAdmissionAnswered domain.old (admission prepared) result.answer }
    ensures own { IfSome result.blank (λ b. b.gate ≡ gate.now) }
{
    match domain.admit(pass, prepared, ticket) {
        Admit::Admitted { blank } => Outcome {
            answer: Ok(Reply::Admitted),
            blank,
        },
        Admit::Busy { ticket, seen } => Outcome {
            answer: Ok(Reply::Busy { seen }),
            blank: Some(gate.give(ticket)),
        },
        Admit::Full { ticket, prepared } => Outcome {
            answer: Err(Refusal::Full),
            blank: Some(give_back(gate, ticket, prepared)),
        },
        Admit::Twice { ticket, prepared } => Outcome {
            answer: Err(Refusal::Twice),
            blank: Some(give_back(gate, ticket, prepared)),
        },
    }
}

/// What a call on a listed task came to: it leaves no blank.
fn outcome_of(made: Result<Reply, Full>) -> Outcome
    ensures ok { IfOk made (λ reply. result.answer ≡ Ok reply) }
    ensures err { IfErr made (λ _. result.answer ≡ Err Refusal.Full) }
    ensures own { result.blank ≡ None }
{
    let answer = match made {
        Ok(reply) => Ok(reply),
        Err(Full) => Err(Refusal::Full),
    };
    Outcome {
        answer,
        blank: None,
    }
}

fn regrade<N: Names, const D: usize, R: Wait>(
    rt: &R,
    domain: &mut Domain,
    gate: &Gate,
    pass: &mut Pass,
    number: u32,
    params: Params,
) -> Outcome
    requires named { IsSessionBook N.id D domain.old }
    requires seen { IsSeenBook domain.old pass.old }
    requires gate { gate.now ≡ domain.old.gate }
    requires pass { IsPassOf domain.old pass.old }
    requires call { IsCall (calls.Regrade number params None) }
    ensures same { SameBook domain.old domain.new }
    ensures replied { IsRegradedBy N.id D pass.old pass.new number params result.answer }
    ensures logged { IsWhyNotMade domain.old result.answer }
    ensures own { result.blank ≡ None }
{
    outcome_of(domain.regrade(rt, pass, gate, number, params))
}

fn wake(domain: &mut Domain, pass: &mut Pass, number: u32) -> Outcome
    requires pass { IsPassOf domain.old pass.old }
    requires call { IsCall (calls.Wake number) }
    ensures same { SameBook domain.old domain.new }
    ensures replied { IsReplied pass.old pass.new (calls.Wake number) result.answer }
    ensures logged { IsCallAnswered domain.old (calls.Wake number) result.answer }
    ensures own { result.blank ≡ None }
{
    outcome_of(domain.wake(pass, number))
}

fn leave(domain: &mut Domain, pass: &mut Pass, number: u32) -> Outcome
    requires pass { IsPassOf domain.old pass.old }
    requires call { IsCall (calls.Leave number) }
    ensures same { SameBook domain.old domain.new }
    ensures replied { IsReplied pass.old pass.new (calls.Leave number) result.answer }
    ensures logged { IsCallAnswered domain.old (calls.Leave number) result.answer }
    ensures own { result.blank ≡ None }
{
    outcome_of(domain.leave(pass, number))
}

/// What a change of the limit came to: it leaves the blank that was handed in.
fn outcome_of_limit(made: Limit) -> Outcome
    ensures answer { result.answer ≡ limit_answer made }
    ensures blank { result.blank ≡ Some (limit_back made) }
{
    let (answer, blank) = match made {
        Limit::Set { blank } => (Ok(Reply::Set), blank),
        Limit::Busy { blank, seen } => (Ok(Reply::Busy { seen }), blank),
        Limit::Full { blank } => (Err(Refusal::Full), blank),
    };
    Outcome {
        answer,
        blank: Some(blank),
    }
}

/// Sets the limit; the blank comes back.
fn set_limit<N: Names, const D: usize, R: Wait>(
    rt: &R,
    domain: &mut Domain,
    gate: &Gate,
    pass: &mut Pass,
    blank: Blank,
    limit: u64,
) -> Outcome
    requires named { IsSessionBook N.id D domain.old }
    requires seen { IsSeenBook domain.old pass.old }
    requires gate { gate.now ≡ domain.old.gate }
    requires pass { IsPassOf domain.old pass.old }
    requires blank { blank.gate ≡ gate.now }
    requires limit { IsLimit limit }
    ensures same { SameBook domain.old domain.new }
    ensures limited { IsLimitedBy N.id D pass.old pass.new blank limit result.answer result.blank }
    ensures logged { IsWhyNotMade domain.old result.answer }
    ensures some { IsSome result.blank }
    ensures own { IfSome result.blank (λ b. b.gate ≡ gate.now) }
{
    outcome_of_limit(domain.limit(rt, pass, gate, blank, limit))
}

/// Makes a call with a client's pass, which agrees with the book.
fn make_seen<N: Names, const D: usize, R: Wait>(
    rt: &R,
    domain: &mut Domain,
    gate: &Gate,
    pass: &mut Pass,
    ask: Ask,
) -> Outcome
    requires named { IsSessionBook N.id D domain.old }
    requires seen { IsSeenBook domain.old pass.old }
    requires gate { gate.now ≡ N.id.gate }
    requires pass { IsPassOf domain.old pass.old }
    requires ask { IsAsk N.id D ask }
    ensures same { SameBook domain.old domain.new }
    ensures done { IsDone N.id D pass.old pass.new ask result.answer result.blank }
    ensures given { NoneIsKept ask result.answer result.blank }
    ensures none { LeavesNoBlank ask result.blank }
    ensures logged { IsBookAnswer domain.old ask result.answer }
    ensures own { IfSome result.blank (λ b. b.gate ≡ N.id.gate) }
{
    match ask {
        Ask::Admit { prepared, ticket } => admit(domain, gate, pass, prepared, ticket),
        Ask::Regrade { number, params } => {
            regrade::<N, D, R>(rt, domain, gate, pass, number, params)
        }
        Ask::Wake { number } => wake(domain, pass, number),
        Ask::Leave { number } => leave(domain, pass, number),
        Ask::Limit { blank, limit } => {
            set_limit::<N, D, R>(rt, domain, gate, pass, blank, limit)
        }
    }
}

/// Moves a task between the books of two domains, and gives the ticket that comes out of it back to
/// the gate: the old one where the task has moved, and else the new one.
fn move_listed<N: Names, const D: usize, const E: usize>(
    from: &mut Domain,
    from_pass: &mut Pass,
    to: &mut Domain,
    to_pass: &mut Pass,
    gate: &Gate,
    prepared: Prepared,
    ticket: Ticket,
) -> (Result<(), Refusal>, Blank)
    requires gate { gate.now ≡ N.id.gate }
    requires from { IsSessionBook N.id D from.old }
    requires to { IsSessionBook N.id E to.old }
    requires from_seen { IsSeenBook from.old from_pass.old }
    requires to_seen { IsSeenBook to.old to_pass.old }
    requires passes { IsPassPair N.id D E
        (record { out = from_pass.old; into = to_pass.old }) }
    requires ask { IsMoveAsk N.id E prepared ticket }
    ensures from { IsSessionBook N.id D from.new }
    ensures to { IsSessionBook N.id E to.new }
    ensures answered { IsBooksAnswer N.id D E
        (record { out = from_pass.old; into = to_pass.old })
        (record { out = from_pass.new; into = to_pass.new })
        prepared ticket result.1 result.0 }
    ensures logged { IsWhyNotMoved from.old to.old prepared result.0 }
    ensures own { result.1.gate ≡ N.id.gate }
{
    match move_task(from, from_pass, to, to_pass, prepared, ticket) {
        Move::Moved { ticket } => (Ok(()), gate.give(ticket)),
        Move::Full { ticket, prepared } => {
            (Err(Refusal::Full), give_back(gate, ticket, prepared))
        }
        Move::NotListed { ticket, prepared } => {
            (Err(Refusal::Esrch), give_back(gate, ticket, prepared))
        }
        Move::Stale {
            now,
            ticket,
            prepared,
        } => (
            Err(Refusal::Stale { now }),
            give_back(gate, ticket, prepared),
        ),
        Move::Twice { ticket, prepared } => {
            (Err(Refusal::Twice), give_back(gate, ticket, prepared))
        }
        Move::Busy {
            seen,
            ticket,
            prepared,
        } => (
            Err(Refusal::Busy { seen }),
            give_back(gate, ticket, prepared),
        ),
    }
}

impl<N: Names, const D: usize> LockedBook<N, D> {
    /// Makes a call with a client's pass. A refusal is logged of the book as it was.
    pub(crate) fn make<R: Wait>(
        &mut self,
        rt: &R,
        gate: &Gate,
        pass: &mut Pass,
        ask: Ask,
    ) -> Outcome
        requires session { IsSession N.id }
        requires gate { gate.now ≡ N.id.gate }
        requires pass { pass.old.spine ≡ spine_of N.id D }
        requires member { IsMember N.id.clients pass.old.client }
        requires ask { IsAsk N.id D ask }
        ensures done { IsDone N.id D pass.old pass.new ask result.answer result.blank }
        ensures given { NoneIsKept ask result.answer result.blank }
        ensures none { LeavesNoBlank ask result.blank }
        ensures logged { IsBookAnswer self.old.domain.value ask result.answer }
        ensures seen { WasSeenFor N.id D (part_with pass.old) ask result.answer }
        ensures own { IfSome result.blank (λ b. b.gate ≡ N.id.gate) }
    {
        let domain = &mut *self.domain;
        domain.agree(pass);
        make_seen::<N, D, R>(rt, domain, gate, pass, ask)
    }

    /// Makes up to so many ticks with a client's pass.
    pub(crate) fn advance<R: Threads + Wait>(
        &mut self,
        rt: &R,
        gate: &Gate,
        pass: &mut Pass,
        ticks: u64,
    ) -> Answer
        requires gate { gate.now ≡ N.id.gate }
        requires pass { pass.old.spine ≡ spine_of N.id D }
        requires member { IsMember N.id.clients pass.old.client }
        requires call { IsCall (calls.Advance ticks) }
        ensures made { IsAdvancedBy pass.old pass.new ticks result }
        ensures logged { IsWhyNotMade self.old.domain.value result }
        ensures seen { RefusalWasSeen N.id D (part_with pass.old) result }
    {
        let domain = &mut *self.domain;
        domain.agree(pass);
        match domain.advance(rt, pass, gate, ticks) {
            Ok(reply) => Ok(reply),
            Err(AdvanceError::Full) => Err(Refusal::Full),
            Err(AdvanceError::Memory) => Err(Refusal::Enomem),
        }
    }

    /// What a task takes along to another domain, as a client sees it.
    pub(crate) fn prepare(
        &mut self,
        alloc: Global,
        pass: &mut Pass,
        number: u32,
    ) -> Result<Prepared, MoveFault>
        requires pass { pass.old.spine ≡ spine_of N.id D }
        requires call { IsCall (calls.Depart number) }
        ensures same { pass.new ≡ pass.old }
        ensures number { IfOk result (λ a. a.number ≡ number) }
        ensures soon { IfOk result (λ a. a.delay ≡ 0) }
        ensures listed { IfOk result
            (λ a. WasListed N.id D number (part_with pass.old) (moving_as a)) }
        ensures fault { IfErr result (IsUnpreparedAt N.id D number (part_with pass.old)) }
    {
        let domain = &mut *self.domain;
        domain.agree(pass);
        domain.prepare_move(alloc, number)
    }

    /// Moves a task to another domain with a client's passes of both. A refusal is logged of both
    /// books as they were.
    pub(crate) fn move_to<const E: usize>(
        &mut self,
        to: &mut LockedBook<N, E>,
        gate: &Gate,
        from_pass: &mut Pass,
        to_pass: &mut Pass,
        prepared: Prepared,
        ticket: Ticket,
    ) -> (Result<(), Refusal>, Blank)
        requires gate { gate.now ≡ N.id.gate }
        requires passes { IsPassPair N.id D E
            (record { out = from_pass.old; into = to_pass.old }) }
        requires ask { IsMoveAsk N.id E prepared ticket }
        ensures answered { IsBooksAnswer N.id D E
            (record { out = from_pass.old; into = to_pass.old })
            (record { out = from_pass.new; into = to_pass.new })
            prepared ticket result.1 result.0 }
        ensures logged { IsWhyNotMoved self.old.domain.value to.old.domain.value prepared
            result.0 }
        ensures own { result.1.gate ≡ N.id.gate }
    {
        let (from, to) = (&mut *self.domain, &mut *to.domain);
        from.agree(from_pass);
        to.agree(to_pass);
        move_listed::<N, D, E>(from, from_pass, to, to_pass, gate, prepared, ticket)
    }
}
