//! A client moves a task from one domain to another.

ghost use Rattle.std.specs.Prelude.{◌≡◌, ◌≢◌, ◌↔◌, Some, IfOk, IfErr, OnOk, IsSome, Err, []};
ghost use Rattle.domain_run.specs.declared.call.Call.TheVariants as calls;
ghost use Rattle.calls_text.specs.Limits.{IsCall};
ghost use Rattle.call_book.specs.MoveAnswers.{moving_as};
ghost use Rattle.session.specs.declared.refusal.Refusal.TheVariants as refusals;
ghost use Rattle.session.specs.SessionId.{IsDomainIndex};
ghost use Rattle.session.specs.Asks.{Makes, part_in, blank_or_new};
ghost use Rattle.session.specs.Moves.{WasListed, HasMoved, IsWhyUnmoved};
ghost use Rattle.session.specs.private.Moving.{IsMoveAsk, AreOfOne, PassesMove, IsMoveFor, IsUnpreparedAt, refusal_by};

use crate::books::at_place;
use crate::client::Client;
use crate::locked_book::LockedBook;
use crate::names::Names;
use crate::refusal::Refusal;
use crate::shared::{Shared, Shares};
use bw_gate::{Blank, Gate, Take, Ticket, used_of};
use call_book::{MoveFault, Pass, Prepared};
use std::alloc::Global;
use std::sync::{Mutex, Wait};

/// Moves a task with two of a client's passes.
fn move_both<N: Names, const D: usize, const E: usize>(
    passes: &mut Vec<Pass>,
    from: &mut LockedBook<N, D>,
    to: &mut LockedBook<N, E>,
    gate: &Gate,
    prepared: Prepared,
    ticket: Ticket,
) -> (Result<(), Refusal>, Blank)
    requires apart { D ≢ E }
    requires gate { gate.now ≡ N.id.gate }
    requires from { IsDomainIndex N.id D }
    requires to { IsDomainIndex N.id E }
    requires passes { AreOfOne N.id passes.old.items }
    requires ask { IsMoveAsk N.id E prepared ticket }
    ensures moved { PassesMove N.id D E passes.old.items passes.new.items
        prepared ticket result.1 result.0 }
    ensures own { result.1.gate ≡ N.id.gate }
{
    if D < E {
        let (low, high) = passes.split_at_mut(E);
        from.move_to(to, gate, &mut low[D], &mut high[0], prepared, ticket)
    } else {
        let (low, high) = passes.split_at_mut(D);
        from.move_to(to, gate, &mut high[0], &mut low[E], prepared, ticket)
    }
}

/// What a client is answered where nothing can be prepared.
fn refusal_of(fault: MoveFault) -> Refusal
    ensures { result ≡ refusal_by fault }
{
    match fault {
        MoveFault::NotListed => Refusal::Esrch,
        MoveFault::Memory => Refusal::Enomem,
    }
}

impl<N: Names> Client<N> {
    /// What a task takes along, under its domain's lock.
    fn prepare_here<const D: usize, R: Wait>(
        &mut self,
        rt: &R,
        alloc: Global,
        book: &Option<Mutex<LockedBook<N, D>>>,
        number: u32,
    ) -> Result<Prepared, MoveFault>
        requires place { IsDomainIndex N.id D }
        requires some { IsSome book.now }
        requires call { IsCall (calls.Depart number) }
        ensures same { self.new ≡ self.old }
        ensures number { IfOk result (λ a. a.number ≡ number) }
        ensures soon { IfOk result (λ a. a.delay ≡ 0) }
        ensures listed { IfOk result
            (λ a. WasListed N.id D number (part_in self.old D) (moving_as a)) }
        ensures fault { IfErr result (IsUnpreparedAt N.id D number (part_in self.old D)) }
    {
        let Some(lock) = book else { unreachable!() };
        let mut named = lock.lock(rt);
        named.prepare(alloc, &mut self.passes[D], number)
    }

    fn prepare_at<R: Wait>(
        &mut self,
        rt: &R,
        alloc: Global,
        shared: &Shared<N>,
        from: usize,
        number: u32,
    ) -> Result<Prepared, MoveFault>
        requires from { IsDomainIndex N.id from }
        requires call { IsCall (calls.Depart number) }
        ensures same { self.new ≡ self.old }
        ensures number { IfOk result (λ a. a.number ≡ number) }
        ensures soon { IfOk result (λ a. a.delay ≡ 0) }
        ensures listed { IfOk result
            (λ a. WasListed N.id from number (part_in self.old from) (moving_as a)) }
        ensures fault { IfErr result (IsUnpreparedAt N.id from number (part_in self.old from)) }
    {
        at_place!(shared.books, from, book => self.prepare_here(rt, alloc, book, number))
    }

    /// Moves a task between two domains whose locks are held.
    fn move_locked<const D: usize, const E: usize>(
        &mut self,
        from: &mut LockedBook<N, D>,
        to: &mut LockedBook<N, E>,
        gate: &Gate,
        prepared: Prepared,
        ticket: Ticket,
    ) -> Result<(), Refusal>
        requires apart { D ≢ E }
        requires gate { gate.now ≡ N.id.gate }
        requires from { IsDomainIndex N.id D }
        requires to { IsDomainIndex N.id E }
        requires ask { IsMoveAsk N.id E prepared ticket }
        ensures { IsMoveFor N.id D E self.old self.new prepared ticket result }
    {
        let (answer, blank) = move_both(&mut self.passes, from, to, gate, prepared, ticket);
        self.hand = Some(blank);
        answer
    }

    /// Moves a task under both domains' locks. The lower domain's is taken first, so that two
    /// clients never wait for one another.
    fn move_between<const D: usize, const E: usize, R: Wait>(
        &mut self,
        rt: &R,
        from: &Mutex<LockedBook<N, D>>,
        to: &Option<Mutex<LockedBook<N, E>>>,
        gate: &Gate,
        prepared: Prepared,
        ticket: Ticket,
    ) -> Result<(), Refusal>
        requires apart { D ≢ E }
        requires some { IsSome to.now }
        requires gate { gate.now ≡ N.id.gate }
        requires from { IsDomainIndex N.id D }
        requires to { IsDomainIndex N.id E }
        requires ask { IsMoveAsk N.id E prepared ticket }
        ensures { IsMoveFor N.id D E self.old self.new prepared ticket result }
    {
        let Some(to) = to else { unreachable!() };
        if D < E {
            let mut out = from.lock(rt);
            let mut into = to.lock(rt);
            self.move_locked(&mut out, &mut into, gate, prepared, ticket)
        } else {
            let mut into = to.lock(rt);
            let mut out = from.lock(rt);
            self.move_locked(&mut out, &mut into, gate, prepared, ticket)
        }
    }

    fn move_from<const D: usize, R: Wait>(
        &mut self,
        rt: &R,
        book: &Option<Mutex<LockedBook<N, D>>>,
        shared: &Shared<N>,
        to: usize,
        prepared: Prepared,
        ticket: Ticket,
    ) -> Result<(), Refusal>
        requires apart { D ≢ to }
        requires some { IsSome book.now }
        requires from { IsDomainIndex N.id D }
        requires to { IsDomainIndex N.id to }
        requires ask { IsMoveAsk N.id to prepared ticket }
        ensures { IsMoveFor N.id D to self.old self.new prepared ticket result }
    {
        let gate = &shared.gate;
        match book {
            Some(lock) => {
                at_place!(shared.books, to, book =>
                    self.move_between(rt, lock, book, gate, prepared, ticket))
            }
            None => unreachable!(),
        }
    }

    fn move_at<R: Wait>(
        &mut self,
        rt: &R,
        shared: &Shared<N>,
        from: usize,
        to: usize,
        prepared: Prepared,
        ticket: Ticket,
    ) -> Result<(), Refusal>
        requires apart { from ≢ to }
        requires from { IsDomainIndex N.id from }
        requires to { IsDomainIndex N.id to }
        requires ask { IsMoveAsk N.id to prepared ticket }
        ensures { IsMoveFor N.id from to self.old self.new prepared ticket result }
    {
        at_place!(shared.books, from, book =>
            self.move_from(rt, book, shared, to, prepared, ticket))
    }

    /// Asks the gate for the bandwidth of a task where it comes to, and then both domains.
    fn submit_move<R: Wait>(
        &mut self,
        rt: &R,
        shared: &Shared<N>,
        from: usize,
        to: usize,
        blank: Blank,
        prepared: Prepared,
    ) -> Result<(), Refusal>
        requires apart { from ≢ to }
        requires from { IsDomainIndex N.id from }
        requires to { IsDomainIndex N.id to }
        requires own { blank.gate ≡ N.id.gate }
        requires soon { prepared.delay ≡ 0 }
        requires listed { WasListed N.id from prepared.number (part_in self.old from)
            (moving_as prepared) }
        ensures moved { OnOk result
            (HasMoved N.id prepared.number from to blank self.old self.new) }
        ensures unmoved { IfErr result (λ _. Makes self.old self.new (λ d. [])) }
        ensures why { IfErr result
            (IsWhyUnmoved N.id self.old prepared.number from to (Some blank) self.new.hand) }
    {
        match shared.gate.take(rt, blank, to, prepared.bw()) {
            Take::Taken(ticket) => self.move_at(rt, shared, from, to, prepared, ticket),
            Take::Refused { blank, seen: word } => {
                // For the prover alone: dropped by a call, and not field by field.
                drop(prepared);
                self.keep(blank);
                Err(Refusal::Busy {
                    seen: used_of(word),
                })
            }
            Take::Raced { .. } => unreachable!(),
        }
    }

    /// Moves a task with a piece that was found for it: where nothing can be prepared, the piece is
    /// in hand again.
    fn move_with<R: Wait>(
        &mut self,
        rt: &R,
        alloc: Global,
        shared: &Shared<N>,
        number: u32,
        from: usize,
        to: usize,
        blank: Blank,
    ) -> Result<(), Refusal>
        requires apart { from ≢ to }
        requires from { IsDomainIndex N.id from }
        requires to { IsDomainIndex N.id to }
        requires call { IsCall (calls.Depart number) }
        requires own { blank.gate ≡ N.id.gate }
        ensures moved { OnOk result (HasMoved N.id number from to blank self.old self.new) }
        ensures unmoved { IfErr result (λ _. Makes self.old self.new (λ d. [])) }
        ensures why { IfErr result
            (IsWhyUnmoved N.id self.old number from to (Some blank) self.new.hand) }
    {
        match self.prepare_at(rt, alloc, shared, from, number) {
            Ok(prepared) => self.submit_move(rt, shared, from, to, blank, prepared),
            Err(fault) => {
                self.keep(blank);
                Err(refusal_of(fault))
            }
        }
    }

    /// Moves a listed task, 1 to 65535, from one domain to another, where it begins anew, without a
    /// delay and with its whole script, in the list of the other domain: a task has its bandwidth
    /// in one root domain, and the other one is asked for room first (sched-deadline.rst, on
    /// exclusive cpusets and root domains; "Bandwidth management"). Tested in this order:
    /// `SameDomain` where both are one; `Full` where there is no blank in the client's hand, in the
    /// pool or in the domain where it comes to; under the lock of the domain that it goes from,
    /// `Esrch` where no such task is listed or it has ended (sched_setattr(2)), and `Enomem` where
    /// there is no memory for copies of its name and script; the gate's word of the other domain,
    /// without a lock, `Busy` (EBUSY, sched_setattr(2)), with what is used of it in 1/2^20 of a
    /// CPU; and then both books, under both locks, as [`call_book::move_task`] tests: `Full`,
    /// `Esrch`, `Stale`, `Twice` and `Busy`, with the sum of bandwidths. Each book has its entry
    /// then, a departure and an arrival, and the bandwidth in the domain that the task left is
    /// given back to the gate. After a refusal nothing stands in a book, nor does a ticket stay
    /// after; the piece is in hand, where there was one. It waits for the gate, as long as other
    /// clients come between, and for the locks of pool and domains, the lower domain's first.
    pub fn move_task<S: Shares<N>, R: Wait>(
        &mut self,
        rt: &R,
        alloc: Global,
        session: &S,
        number: u32,
        from: usize,
        to: usize,
    ) -> Result<(), Refusal>
        requires from { IsDomainIndex N.id from }
        requires to { IsDomainIndex N.id to }
        requires call { IsCall (calls.Depart number) }
        ensures same { (result ≡ Err refusals.SameDomain) ↔ (from ≡ to) }
        ensures moved { OnOk result
            (HasMoved N.id number from to (blank_or_new N.id.gate self.old.hand) self.old
            self.new) }
        ensures unmoved { IfErr result (λ _. Makes self.old self.new (λ d. [])) }
        ensures why { IfErr result
            (IsWhyUnmoved N.id self.old number from to self.old.hand self.new.hand) }
    {
        if from == to {
            return Err(Refusal::SameDomain);
        }
        let shared = session.shares();
        match self.find_blank(rt, shared, to) {
            Some(blank) => self.move_with(rt, alloc, shared, number, from, to, blank),
            None => Err(Refusal::Full),
        }
    }
}
