//! A client: its passes, the piece in its hand, and the calls that it makes.

ghost use Rattle.std.specs.Prelude.{◌≡◌, Bool, Some, None, IfSome, IfNone, IfOk, IfErr, OnOk, OnErr, IsSome, Ok, true, false, [], ◌∷◌, length};
ghost use Rattle.attr_check.specs.Accepted.{accepted, params_of};
ghost use Rattle.domain_run.specs.declared.call.Call.TheVariants as calls;
ghost use Rattle.domain_run.specs.Domain.{IsLimit};
ghost use Rattle.domain_run.specs.Log.{HasLogged};
ghost use Rattle.calls_text.specs.Limits.{IsCall};
ghost use Rattle.call_book.specs.Book.{IsMember, IsFull, admission, own_entries};
ghost use Rattle.call_book.specs.Playing.{HasWholeRun};
ghost use Rattle.session.specs.Begun.{IsUnlogged, LogsItsEnd};
ghost use Rattle.session.specs.SessionId.{IsSession, IsDomainIndex, cpu_set_of, spine_of};
ghost use Rattle.session.specs.Seen.{AnswerWasSeen, EntryWasSeen, RefusalWasSeen};
ghost use Rattle.session.specs.Asks.{Asks, admit_call, client_pass_in, part_in, Makes, made_by, MakesRegrade, MakesLimit, MakesAdvance, RefusesOnlyFull, RefusesOnlyFullOrMemory, IsLastFound, blank_or_new, AsksGate, IsHandAfter};
ghost use Rattle.session.specs.Clients.{IsNew};
ghost use Rattle.session.specs.private.Parts.{IsHand};
ghost use Rattle.session.specs.private.Entering.{IsAdvancedFor, IsAsk, IsDoneFor, IsEntryVerdict, IsSessionBook};
ghost use Rattle.session.specs.RunEnd.{IsRunStopped, logged_at_end};
ghost use Rattle.session.specs.private.Ending.{MakesAll, IsEndBy, IsStreamedOf};

use crate::books::at_place;
use crate::fault::EndFault;
use crate::locked_book::{Ask, LockedBook, Outcome};
use crate::names::Names;
use crate::parts::Hand;
use crate::refusal::{Answer, Refusal};
use crate::shared::{Shared, Shares};
use attr_check::{Params, check};
use bw_gate::{Blank, Gate, Take, used_of};
use call_book::{
    AdvanceError, Domain, DrawnAdvance, EndingBook, Full, NoMemory, Pass, PlayingBook, Prepared,
    StreamedAdvance, prepare,
};
use chart_pieces::{Drawing, Window};
use domain_run::{Log, Reply};
use rtapp_scenario::TaskSpec;
use run_figures::Accounting;
use std::alloc::Global;
use std::marker::{Model, PhantomData};
use std::sync::{Mutex, Wait};
use std::thread::Threads;

/// What was streamed, where all ticks were made.
fn all_streamed(streamed: StreamedAdvance, ticks: u64) -> Result<Accounting, EndFault>
    ensures ok { IfOk result (λ a. (streamed.ticks ≡ ticks) × (a ≡ streamed.accounting)) }
    ensures err { IfErr result (IsRunStopped ⊥) }
{
    if streamed.ticks == ticks {
        Ok(streamed.accounting)
    } else {
        // For the prover alone: dropped by a call, and not field by field.
        drop(streamed.accounting);
        Err(EndFault::Memory)
    }
}

/// What was drawn, if all ticks were made.
fn all_drawn(drawn: DrawnAdvance, ticks: u64) -> Result<Drawing, EndFault>
    ensures ok { IfOk result (λ d. (drawn.ticks ≡ ticks) × (d ≡ drawn.drawing)) }
    ensures err { IfErr result (IsRunStopped ⊥) }
{
    if drawn.ticks == ticks {
        Ok(drawn.drawing)
    } else {
        // For the prover alone: dropped by a call, and not field by field.
        drop(drawn.drawing);
        Err(EndFault::Memory)
    }
}

/// One of the clients of a session. It may be dropped; its pass and its piece are then missing at
/// the session's end. To a contract it is its number, from 1, what it has entered in the book of
/// each domain, and the piece in its hand.
#[derive(Drop)]
pub struct Client<N: Names> {
    number: u32,
    pub(crate) passes: Vec<Pass>,
    pub(crate) hand: Option<Blank>,
    of: PhantomData<N>,
}

impl<N: Names> Model for Client<N> {
    ghost use Rattle.std.specs.Prelude.{map};
    ghost use Rattle.session.specs.Asks.{ClientView};
    ghost use Rattle.session.specs.Clients.{IsNew};
    ghost use Rattle.session.specs.private.Parts.{IsHand};
    ghost use Rattle.session.specs.private.Entering.{IsClientOf};

    ghost Value = { ClientView };

    ghost view = { λ c. record {
      number = c.number;
      passes = map (λ p. p.entries) c.passes.items;
      hand = c.hand;
    } };

    ghost invariant = { λ c. IsClientOf N.id c.number c.passes.items c.hand };
}

impl<N: Names> Client<N> {
    /// The client of a number, which has entered nothing.
    pub(crate) fn new(number: u32, hand: Hand) -> Client<N>
        requires session { IsSession N.id }
        requires member { IsMember N.id.clients number }
        requires hand { IsHand N.id.gate N.id.spines number hand }
        ensures { IsNew N.id number result }
    {
        let Hand { passes, blank } = hand;
        Client {
            number,
            passes,
            hand: blank,
            of: PhantomData,
        }
    }

    /// Its number in the session, 1 to 64.
    pub fn number(&self) -> u32
        ensures { result ≡ self.now.number }
    {
        self.number
    }

    /// Makes a call under a domain's lock.
    fn enter<const D: usize, R: Wait>(
        &mut self,
        rt: &R,
        book: &Option<Mutex<LockedBook<N, D>>>,
        gate: &Gate,
        ask: Ask,
    ) -> Answer
        requires session { IsSession N.id }
        requires gate { gate.now ≡ N.id.gate }
        requires place { IsDomainIndex N.id D }
        requires some { IsSome book.now }
        requires ask { IsAsk N.id D ask }
        ensures { IsDoneFor N.id D self.old self.new ask result }
    {
        let Some(lock) = book else { unreachable!() };
        let mut named = lock.lock(rt);
        let Outcome { answer, blank } = named.make(rt, gate, &mut self.passes[D], ask);
        if let Some(blank) = blank {
            self.hand = Some(blank);
        }
        answer
    }

    /// Advances a domain under its lock.
    fn advance_locked<const D: usize, R: Threads + Wait>(
        &mut self,
        rt: &R,
        book: &Option<Mutex<LockedBook<N, D>>>,
        gate: &Gate,
        ticks: u64,
    ) -> Answer
        requires gate { gate.now ≡ N.id.gate }
        requires place { IsDomainIndex N.id D }
        requires some { IsSome book.now }
        requires call { IsCall (calls.Advance ticks) }
        ensures { IsAdvancedFor N.id D self.old self.new ticks result }
    {
        let Some(lock) = book else { unreachable!() };
        let mut named = lock.lock(rt);
        named.advance(rt, gate, &mut self.passes[D], ticks)
    }

    /// Lets its pass of a place agree with the book of that place, which changes neither.
    pub(crate) fn agree(&mut self, book: &mut EndingBook, place: usize)
        requires place { IsDomainIndex N.id place }
        requires spine { book.old.book.spine ≡ spine_of N.id place }
        ensures book { book.new ≡ book.old }
        ensures same { self.new ≡ self.old }
        ensures own { client_pass_in self.new place
            ≡ own_entries self.new.number book.new.book.history }
    {
        book.agree(&mut self.passes[place]);
    }

    /// The same with a book whose advance is under way.
    pub(crate) fn agree_played(&mut self, book: &mut PlayingBook, place: usize)
        requires place { IsDomainIndex N.id place }
        requires spine { book.old.book.spine ≡ spine_of N.id place }
        ensures book { book.new ≡ book.old }
        ensures same { self.new ≡ self.old }
        ensures own { client_pass_in self.new place
            ≡ own_entries self.new.number book.new.book.history }
    {
        book.agree(&mut self.passes[place]);
    }

    /// Enters an advance of so many ticks in a book, 1 to 60000000, of which none is made yet.
    /// [`Full`] where the book is full: nothing has changed.
    pub(crate) fn begin_book(
        &mut self,
        book: &mut PlayingBook,
        place: usize,
        ticks: u64,
    ) -> Result<(), Full>
        requires named { IsSessionBook N.id place book.old.book }
        requires made { book.old.left ≡ 0 }
        requires call { IsCall (calls.Advance ticks) }
        ensures named { IsSessionBook N.id place book.new.book }
        ensures domains { length self.old.passes ≡ length N.id.cpu_sets }
        ensures made { OnOk result (MakesAll self.old self.new place ticks) }
        ensures ends { OnOk result (IsEndBy self.old.number ticks book.new.book.history) }
        ensures whole { HasWholeRun book.old → HasWholeRun book.new }
        ensures unlogged { (logs : Bool) → IsUnlogged logs book.old → IsUnlogged logs book.new }
        ensures has_logged { OnOk result (HasWholeRun book.old → LogsItsEnd ticks book.new) }
        ensures full { OnErr result (IsFull book.new.book × (self.new ≡ self.old)) }
    {
        // For the prover alone: a look at the domain brings that it is the run of the history.
        let _ = book.state();
        book.begin_advance(&mut self.passes[place], ticks)
    }

    /// Makes exactly so many ticks of a domain that stands after no lock, 1 to 60000000, as one
    /// entry of its book; the log records what happens in them. `Full` where the book is full:
    /// nothing has changed. `Memory` where there was no memory for all ticks: an entry of those
    /// that were made stands, where there were any.
    pub(crate) fn advance_book<R: Threads + Wait>(
        &mut self,
        rt: &R,
        gate: &Gate,
        domain: &mut Domain,
        place: usize,
        ticks: u64,
        log: &mut Log,
    ) -> Result<(), EndFault>
        requires gate { gate.now ≡ N.id.gate }
        requires named { IsSessionBook N.id place domain.old }
        requires call { IsCall (calls.Advance ticks) }
        ensures named { IsSessionBook N.id place domain.new }
        ensures domains { length self.old.passes ≡ length N.id.cpu_sets }
        ensures made { OnOk result (MakesAll self.old self.new place ticks) }
        ensures ends { OnOk result (IsEndBy self.old.number ticks domain.new.history) }
        ensures logged { let logged = logged_at_end ticks domain.new.cpus domain.new.limit
            domain.new.history in
            OnOk result (HasLogged log.old logged log.new) }
        ensures err { IfErr result (IsRunStopped (IsFull domain.new × (self.new ≡ self.old))) }
    {
        match domain.advance_logged(rt, &mut self.passes[place], gate, ticks, log) {
            Ok(Reply::Done { ticks: made }) if made == ticks => Ok(()),
            Err(AdvanceError::Full) => Err(EndFault::Full),
            _ => Err(EndFault::Memory),
        }
    }

    /// As [`Client::advance_book`], of a book at its end: an accounting takes its switches, and
    /// what happens in these ticks, and the book keeps neither. The accounting keeps the jobs of
    /// each task, if `jobs` asks for them.
    pub(crate) fn stream_book(
        &mut self,
        gate: &Gate,
        book: &mut EndingBook,
        place: usize,
        ticks: u64,
        jobs: bool,
    ) -> Result<Accounting, EndFault>
        requires gate { gate.now ≡ N.id.gate }
        requires named { IsSessionBook N.id place book.old.book }
        requires unstreamed { book.old.streamed ≡ false }
        requires call { IsCall (calls.Advance ticks) }
        ensures named { IsSessionBook N.id place book.new.book }
        ensures domains { length self.old.passes ≡ length N.id.cpu_sets }
        ensures made { OnOk result (MakesAll self.old self.new place ticks) }
        ensures ends { OnOk result (IsEndBy self.old.number ticks book.new.book.history) }
        ensures forgotten { OnOk result (book.new.streamed ≡ true) }
        ensures streamed { IfOk result (λ a. IsStreamedOf ticks book.new.book a) }
        ensures err { IfErr result (IsRunStopped (IsFull book.new.book × (self.new ≡ self.old))) }
    {
        match book.advance_streamed(&mut self.passes[place], gate, ticks, jobs) {
            Ok(streamed) => all_streamed(streamed, ticks),
            Err(AdvanceError::Full) => Err(EndFault::Full),
            Err(AdvanceError::Memory) => Err(EndFault::Memory),
        }
    }

    /// As [`Client::advance_book`], of a book at its end: draws its switches, and what happens in
    /// these ticks, in this window. The book keeps neither.
    pub(crate) fn draw_book(
        &mut self,
        gate: &Gate,
        book: &mut EndingBook,
        place: usize,
        ticks: u64,
        window: Window,
    ) -> Result<Drawing, EndFault>
        requires gate { gate.now ≡ N.id.gate }
        requires named { IsSessionBook N.id place book.old.book }
        requires undrawn { book.old.streamed ≡ false }
        requires call { IsCall (calls.Advance ticks) }
        ensures named { IsSessionBook N.id place book.new.book }
        ensures domains { length self.old.passes ≡ length N.id.cpu_sets }
        ensures made { OnOk result (MakesAll self.old self.new place ticks) }
        ensures ends { OnOk result (IsEndBy self.old.number ticks book.new.book.history) }
        ensures forgotten { OnOk result (book.new.streamed ≡ true) }
        ensures window { IfOk result (λ d. d.window ≡ window) }
        ensures drawn { IfOk result (λ d. IsStreamedOf ticks book.new.book d.streamed) }
        ensures err { IfErr result (IsRunStopped (IsFull book.new.book × (self.new ≡ self.old))) }
    {
        match book.advance_drawn(&mut self.passes[place], gate, ticks, window) {
            Ok(drawn) => all_drawn(drawn, ticks),
            Err(AdvanceError::Full) => Err(EndFault::Full),
            Err(AdvanceError::Memory) => Err(EndFault::Memory),
        }
    }

    /// Takes a piece into its hand.
    pub(crate) fn keep(&mut self, blank: Blank)
        requires { blank.gate ≡ N.id.gate }
        ensures { self.new ≡ record self.old { hand = Some blank } }
    {
        self.hand = Some(blank);
    }

    /// The piece in its hand.
    pub(crate) fn into_hand(self) -> Option<Blank>
        ensures own { IfSome result (λ b. b.gate ≡ N.id.gate) }
    {
        let Client {
            number: _,
            passes: _,
            hand,
            of: _,
        } = self;
        hand
    }

    /// Makes a call under the lock of the domain of a place.
    fn enter_at<R: Wait>(&mut self, rt: &R, shared: &Shared<N>, place: usize, ask: Ask) -> Answer
        requires place { IsDomainIndex N.id place }
        requires ask { IsAsk N.id place ask }
        ensures { IsDoneFor N.id place self.old self.new ask result }
    {
        let gate = &shared.gate;
        at_place!(shared.books, place, book => self.enter(rt, book, gate, ask))
    }

    /// A piece for an admission to a domain, a change of its limit, or a task that moves there: the
    /// one in the client's hand, or else one of the pool, or else one that the domain keeps.
    pub(crate) fn find_blank<R: Wait>(
        &mut self,
        rt: &R,
        shared: &Shared<N>,
        place: usize,
    ) -> Option<Blank>
        requires place { IsDomainIndex N.id place }
        ensures same { self.new ≡ record self.old { hand = None } }
        ensures own { IfSome result (λ b. b.gate ≡ N.id.gate) }
        ensures found { IfSome result (λ b. b ≡ blank_or_new N.id.gate self.old.hand) }
        ensures none { IfNone result (self.old.hand ≡ None) }
    {
        match self.hand.take() {
            Some(blank) => Some(blank),
            None => shared.find_blank(rt, place),
        }
    }

    /// Asks the gate for the bandwidth of an admission, and then the domain.
    fn submit<R: Wait>(
        &mut self,
        rt: &R,
        shared: &Shared<N>,
        place: usize,
        blank: Blank,
        prepared: Prepared,
    ) -> Answer
        requires place { IsDomainIndex N.id place }
        requires own { blank.gate ≡ N.id.gate }
        ensures made { Makes self.old self.new (made_by place (admission prepared) result) }
        ensures verdict { IsEntryVerdict (length (cpu_set_of N.id place)) prepared.params.bw
            result }
        ensures last { IsLastFound self.new.hand result }
        ensures gate { AsksGate N.id.gate place prepared.params.bw
            (Some blank) result self.new.hand }
        ensures seen { EntryWasSeen N.id place (part_in self.old place) (admission prepared)
            result self.new.hand }
    {
        match shared.gate.take(rt, blank, place, prepared.bw()) {
            Take::Taken(ticket) => {
                self.enter_at(rt, shared, place, Ask::Admit { prepared, ticket })
            }
            Take::Refused { blank, seen: word } => {
                // For the prover alone: dropped by a call, and not field by field.
                drop(prepared);
                self.keep(blank);
                Err(Refusal::Busy {
                    seen: used_of(word),
                })
            }
            Take::Raced { .. } => unreachable!(),
        }
    }

    /// Admits a task with a piece that was found for it: where there is no memory, the piece is in
    /// hand again.
    fn admit_with<R: Wait>(
        &mut self,
        rt: &R,
        alloc: Global,
        shared: &Shared<N>,
        task: &TaskSpec,
        params: Params,
        place: usize,
        blank: Blank,
    ) -> Answer
        requires place { IsDomainIndex N.id place }
        requires checked { accepted task.now.attr ≡ Ok params }
        requires own { blank.gate ≡ N.id.gate }
        ensures made { Makes self.old self.new (made_by place (admit_call task.now) result) }
        ensures verdict { IsEntryVerdict (length (cpu_set_of N.id place))
            (params_of task.now.attr).bw result }
        ensures last { IsLastFound self.new.hand result }
        ensures gate { AsksGate N.id.gate place (params_of task.now.attr).bw
            (Some blank) result self.new.hand }
        ensures seen { EntryWasSeen N.id place (part_in self.old place) (admit_call task.now)
            result self.new.hand }
    {
        match prepare(
            alloc,
            task.number,
            &task.name,
            params,
            task.delay,
            &task.script,
        ) {
            Ok(prepared) => self.submit(rt, shared, place, blank, prepared),
            Err(NoMemory) => {
                self.keep(blank);
                Err(Refusal::Enomem)
            }
        }
    }

    /// The same with a piece that is to be found.
    fn admit_at<R: Wait>(
        &mut self,
        rt: &R,
        alloc: Global,
        shared: &Shared<N>,
        task: &TaskSpec,
        params: Params,
        place: usize,
    ) -> Answer
        requires place { IsDomainIndex N.id place }
        requires checked { accepted task.now.attr ≡ Ok params }
        ensures made { Makes self.old self.new (made_by place (admit_call task.now) result) }
        ensures verdict { IsEntryVerdict (length (cpu_set_of N.id place))
            (params_of task.now.attr).bw result }
        ensures last { IsLastFound self.new.hand result }
        ensures gate { AsksGate N.id.gate place (params_of task.now.attr).bw
            self.old.hand result self.new.hand }
        ensures seen { EntryWasSeen N.id place (part_in self.old place) (admit_call task.now)
            result self.new.hand }
    {
        match self.find_blank(rt, shared, place) {
            Some(blank) => self.admit_with(rt, alloc, shared, task, params, place, blank),
            None => Err(Refusal::Full),
        }
    }

    /// Admits a task to the domain that has exactly its CPUs, the first where it names none. Tested
    /// in this order: its attributes (EINVAL); its CPUs (EPERM); a blank in the client's hand, in
    /// the pool or in the domain (Full); memory for the admission (ENOMEM); the gate's word,
    /// without the domain's lock (EBUSY); and then the domain's book, under its lock, as
    /// [`Domain::admit`](call_book::Domain::admit) tests. After a refusal the client holds no
    /// ticket. It waits for the gate, as long as other clients come between, and for the locks of
    /// pool and domain.
    pub fn admit<S: Shares<N>, R: Wait>(
        &mut self,
        rt: &R,
        alloc: Global,
        session: &S,
        task: &TaskSpec,
    ) -> Answer
        ensures asked { Asks N.id self.old self.new
            (record { task = task.now; answer = result } ∷ []) }
        ensures last { IsLastFound self.new.hand result }
        ensures hand { IsHandAfter N.id task.now self.old.hand result self.new.hand }
    {
        let shared = session.shares();
        let (params, place) = match shared.goal_of(task) {
            Ok(found) => found,
            Err(refusal) => return Err(refusal),
        };
        self.admit_at(rt, alloc, shared, task, params, place)
    }

    /// Gives a listed task of a domain new parameters, as
    /// [`Domain::regrade`](call_book::Domain::regrade) does. `Full` where the book is full: it
    /// changed nothing and stands nowhere. Every other answer stands in the book.
    pub fn regrade<S: Shares<N>, R: Wait>(
        &mut self,
        rt: &R,
        session: &S,
        domain: usize,
        number: u32,
        params: Params,
    ) -> Answer
        requires domain { IsDomainIndex N.id domain }
        requires call { IsCall (calls.Regrade number params None) }
        ensures made { MakesRegrade N.id self.old self.new domain number params result }
        ensures full { RefusesOnlyFull result }
        ensures hand { self.new.hand ≡ self.old.hand }
        ensures seen { RefusalWasSeen N.id domain (part_in self.old domain) result }
    {
        self.enter_at(
            rt,
            session.shares(),
            domain,
            Ask::Regrade { number, params },
        )
    }

    /// Wakes a task of a domain that waits, as [`Domain::wake`](call_book::Domain::wake) does.
    /// `Full` where the book is full.
    pub fn wake<S: Shares<N>, R: Wait>(
        &mut self,
        rt: &R,
        session: &S,
        domain: usize,
        number: u32,
    ) -> Answer
        requires domain { IsDomainIndex N.id domain }
        requires call { IsCall (calls.Wake number) }
        ensures made { Makes self.old self.new (made_by domain (calls.Wake number) result) }
        ensures full { RefusesOnlyFull result }
        ensures hand { self.new.hand ≡ self.old.hand }
        ensures seen { AnswerWasSeen N.id domain (part_in self.old domain) (calls.Wake number)
            result }
    {
        self.enter_at(rt, session.shares(), domain, Ask::Wake { number })
    }

    /// Ends a task of a domain, as [`Domain::leave`](call_book::Domain::leave) does. `Full` where
    /// the book is full.
    pub fn leave<S: Shares<N>, R: Wait>(
        &mut self,
        rt: &R,
        session: &S,
        domain: usize,
        number: u32,
    ) -> Answer
        requires domain { IsDomainIndex N.id domain }
        requires call { IsCall (calls.Leave number) }
        ensures made { Makes self.old self.new (made_by domain (calls.Leave number) result) }
        ensures full { RefusesOnlyFull result }
        ensures hand { self.new.hand ≡ self.old.hand }
        ensures seen { AnswerWasSeen N.id domain (part_in self.old domain) (calls.Leave number)
            result }
    {
        self.enter_at(rt, session.shares(), domain, Ask::Leave { number })
    }

    /// Sets what a domain may give away of each CPU, 10485 to 1048576 in 1/2^20, as
    /// [`Domain::limit`](call_book::Domain::limit) does: it stands for a write to
    /// sched_rt_runtime_us (sched-deadline.rst, "System wide settings"). The gate's word is asked
    /// by a piece as an admission has it: the one in the client's hand, or else one of the pool, or
    /// else one that the domain keeps. It is in the hand then. `Full` where there is none, or where
    /// the book is full: nothing has changed. `Set` and `Busy` (EBUSY 16, by the sum of bandwidths
    /// or by the word) stand in the book. It waits as an admission does.
    pub fn limit<S: Shares<N>, R: Wait>(
        &mut self,
        rt: &R,
        session: &S,
        domain: usize,
        limit: u64,
    ) -> Answer
        requires domain { IsDomainIndex N.id domain }
        requires limit { IsLimit limit }
        ensures made { MakesLimit N.id self.old self.new domain limit result }
        ensures full { RefusesOnlyFull result }
    {
        let shared = session.shares();
        match self.find_blank(rt, shared, domain) {
            Some(blank) => self.enter_at(rt, shared, domain, Ask::Limit { blank, limit }),
            None => Err(Refusal::Full),
        }
    }

    /// Makes up to `ticks` ticks of a domain, 1 to 60000000, as
    /// [`Domain::advance`](call_book::Domain::advance) does. `Full` where the book is full,
    /// `Enomem` where there was no memory for the first tick: nothing has changed.
    pub fn advance<S: Shares<N>, R: Threads + Wait>(
        &mut self,
        rt: &R,
        session: &S,
        domain: usize,
        ticks: u64,
    ) -> Answer
        requires domain { IsDomainIndex N.id domain }
        requires call { IsCall (calls.Advance ticks) }
        ensures made { MakesAdvance self.old self.new domain ticks result }
        ensures full { RefusesOnlyFullOrMemory result }
        ensures hand { self.new.hand ≡ self.old.hand }
        ensures seen { RefusalWasSeen N.id domain (part_in self.old domain) result }
    {
        let shared = session.shares();
        let gate = &shared.gate;
        at_place!(shared.books, domain, book => self.advance_locked(rt, book, gate, ticks))
    }
}
