//! What a session is opened from: all its growths.

ghost use Rattle.std.specs.Prelude.{◌≡◌, ◌+◌, ◌<◌, ◌≤◌, ℕ, true, List, [], ◌∷◌, ◌++◌, map, length, replicate, is_some, IfOk, OnOk, All, slice_index};
ghost use Rattle.std.specs.List.{range_with_len};
ghost use Rattle.atomic_table.specs.Seated.{TableId};
ghost use Rattle.bw_gate.specs.Pieces.{GateId};
ghost use Rattle.domain_run.specs.Domain.{IsCpus};
ghost use Rattle.run_options.specs.Options.{AreOptions};
ghost use Rattle.session.specs.Options.{IsSessionOf, gate_terms_of};
ghost use Rattle.session.specs.SessionId.{cpu_sets_from};
ghost use Rattle.session.specs.private.Parts.{AreHands, HaveRoom, HaveRoomForOne, AreNewPasses, IsBookOf, AreBooks, AreBlanksOf};

use bw_gate::{Blank, Gate, Room, Ticket};
use call_book::{Closed, Domain, NoMemory, Pass};
use run_options::Options;
use std::alloc::Global;
use std::marker::Model;

/// The pieces of the gate that stand ready for each domain: one for each task that it may list.
pub(crate) const PIECES: usize = 256;

/// A client's passes, one of each domain's book, and its piece.
#[derive(Drop)]
pub(crate) struct Hand {
    pub(crate) passes: Vec<Pass>,
    pub(crate) blank: Option<Blank>,
}

/// A domain that stands apart from what has it, so that a session's type, which has eight of them,
/// stays small. To a contract it is the domain.
pub(crate) struct BoxedDomain {
    pub(crate) domain: Box<Domain>,
}

impl Model for BoxedDomain {
    ghost use Rattle.call_book.specs.Book.{BookView};

    ghost Value = { BookView };

    ghost view = { λ b. b.domain.value };
}

/// What a session is opened from: gate, domains, passes and pieces. It is neither cloned nor
/// dropped, since domains are not. To a contract it is the session's identity.
pub struct Parts {
    pub(crate) gate: Gate,
    pub(crate) cpu_sets: Vec<Vec<u32>>,
    pub(crate) limit: u64,
    pub(crate) history: usize,
    pub(crate) workers: usize,
    pub(crate) books: Vec<BoxedDomain>,
    // Where the domains will stand when their locks are gone.
    pub(crate) room: Vec<Domain>,
    pub(crate) hands: Vec<Option<Hand>>,
    pub(crate) pool: Vec<Blank>,
}

impl Model for Parts {
    ghost use Rattle.std.specs.Prelude.{◌≡◌, ◌≤◌, [], length, map, vec_len, vec_capacity};
    ghost use Rattle.session.specs.SessionId.{SessionId};
    ghost use Rattle.session.specs.private.Parts.{AreParts, id_of};

    ghost Value = { SessionId };

    ghost view = { λ p.
        id_of p.gate p.books.items (map (λ v. v.items) p.cpu_sets.items) p.limit
        (vec_len p.hands) p.history p.workers };

    ghost invariant = { λ p. AreParts
        (id_of p.gate p.books.items (map (λ v. v.items) p.cpu_sets.items) p.limit
        (vec_len p.hands) p.history p.workers)
        p.books.items p.hands.items p.pool.items
        × (p.room.items ≡ [])
        × (length p.books.items ≤ vec_capacity p.room) };
}

/// So many CPUs of the machine from this one on.
fn cpus_from(alloc: Global, base: u32, cpus: u32) -> Result<Vec<u32>, NoMemory>
    requires { base + cpus ≤ 512 }
    ensures { IfOk result (λ v. v.items ≡ range_with_len base cpus) }
{
    let mut set = Vec::with_capacity(alloc, cpus as usize)?;
    for cpu in base..base + cpus {
        set.push_reserved(cpu);
    }
    Ok(set)
}

/// The CPUs of the machine that each domain has.
fn cpu_sets_of(alloc: Global, domains: &Vec<u32>) -> Result<Vec<Vec<u32>>, NoMemory>
    requires few { length domains.now.items ≤ 8 }
    requires cpus { All IsCpus domains.now.items }
    ensures { IfOk result (λ v. map (λ s. s.items) v.items ≡ cpu_sets_from 0 domains.now.items) }
{
    let mut sets = Vec::with_capacity(alloc, domains.len())?;
    let mut base = 0;
    for cpus in domains {
        sets.push_reserved(cpus_from(alloc, base, *cpus)?);
        base += *cpus;
    }
    Ok(sets)
}

/// A gate for these domains, with 256 pieces a domain and one a client.
fn gate_of(alloc: Global, options: &Options) -> Result<(Gate, Vec<Blank>), NoMemory>
    requires { AreOptions options.now }
    ensures terms { IfOk result (λ r. r.0.terms ≡ gate_terms_of options.now) }
    ensures blanks { IfOk result (λ r. AreBlanksOf r.0 r.1.items) }
{
    let count = options.domains.len();
    let mut rooms = [Room { cpus: 1, limit: 0 }; 8];
    for d in 0..count {
        rooms[d] = Room {
            cpus: options.domains[d] as u64,
            limit: options.limit,
        };
    }
    match Gate::open(
        alloc,
        &rooms[..count],
        count * PIECES + options.clients as usize,
    ) {
        Ok(opened) => Ok(opened),
        Err(_) => Err(NoMemory),
    }
}

/// The hands of so many clients, with a piece each and room for a pass of each domain's book.
fn empty_hands(
    alloc: Global,
    clients: u32,
    domains: usize,
    pool: &mut Vec<Blank>,
) -> Result<Vec<Option<Hand>>, NoMemory>
    ensures some { IfOk result (λ v. map is_some v.items ≡ replicate clients true) }
    ensures room { IfOk result (λ v. HaveRoom domains v.items) }
    ensures hands { (gate : GateId) → AreBlanksOf gate pool.old.items
        → IfOk result (λ v. AreHands gate [] v.items) }
    ensures pool { (gate : GateId) → AreBlanksOf gate pool.old.items
        → AreBlanksOf gate pool.new.items }
{
    let mut hands = Vec::with_capacity(alloc, clients as usize)?;
    for _ in 0..clients {
        let passes = Vec::with_capacity(alloc, domains)?;
        let blank = pool.pop();
        hands.push_reserved(Some(Hand { passes, blank }));
    }
    Ok(hands)
}

/// Gives each client its pass of a domain's book.
fn deal(hands: &mut Vec<Option<Hand>>, mut passes: Vec<Pass>)
    requires count { length hands.old.items ≡ length passes.items }
    requires room { HaveRoomForOne hands.old.items }
    ensures some { map is_some hands.new.items ≡ map is_some hands.old.items }
    ensures room { (n : ℕ) → HaveRoom n hands.old.items → HaveRoom n hands.new.items }
    ensures dealt { (gate : GateId) (spines : List TableId) (spine : TableId)
        → AreHands gate spines hands.old.items → AreNewPasses spine passes.items
        → AreHands gate (spines ++ spine ∷ []) hands.new.items }
{
    while let Some(pass) = passes.pop() {
        if let Some(hand) = &mut hands[passes.len()] {
            hand.passes.push_reserved(pass);
        }
    }
}

/// The book of a domain of the gate, and a pass for each client.
fn book_of(
    alloc: Global,
    gate: &Gate,
    options: &Options,
    d: usize,
) -> Result<(BoxedDomain, Vec<Pass>), NoMemory>
    requires options { AreOptions options.now }
    requires gate { gate.now.terms ≡ gate_terms_of options.now }
    requires place { d < length options.now.domains.items }
    ensures book { let o = options.now in
        IfOk result (λ r. IsBookOf gate.now d (slice_index o.domains.items d) o.limit o.clients
        o.history o.workers r.0) }
    ensures count { IfOk result (λ r. length r.1.items ≡ options.now.clients) }
    ensures passes { IfOk result (λ r. AreNewPasses r.0.spine r.1.items) }
{
    let cpus = options.domains[d];
    let (mut domain, passes) = Domain::open(
        alloc,
        gate,
        d,
        cpus,
        options.limit,
        options.clients,
        options.history,
    )?;
    domain.set_workers(options.workers);
    match Box::new(alloc, domain) {
        Ok(domain) => Ok((BoxedDomain { domain }, passes)),
        Err(refused) => {
            shut_one(alloc, gate, refused.value);
            Err(NoMemory)
        }
    }
}

/// The books of the domains, and a pass of each in the clients' hands.
fn books_of(
    alloc: Global,
    gate: &Gate,
    options: &Options,
    hands: &mut Vec<Option<Hand>>,
) -> Result<Vec<BoxedDomain>, NoMemory>
    requires options { AreOptions options.now }
    requires gate { gate.now.terms ≡ gate_terms_of options.now }
    requires hands { AreHands gate.now [] hands.old.items }
    requires some { map is_some hands.old.items ≡ replicate options.now.clients true }
    requires room { HaveRoom (length options.now.domains.items) hands.old.items }
    ensures count { IfOk result (λ v. length v.items ≡ length options.now.domains.items) }
    ensures books { let o = options.now in
        IfOk result (λ v. AreBooks gate.now o.domains.items o.limit o.clients o.history
        o.workers v.items) }
    ensures hands { IfOk result (λ v.
        AreHands gate.now (map (λ b. b.spine) v.items) hands.new.items) }
    ensures some { OnOk result (map is_some hands.new.items ≡ replicate options.now.clients true) }
{
    let count = options.domains.len();
    let mut books = Vec::with_capacity(alloc, count)?;
    for d in 0..count {
        let Ok((book, passes)) = book_of(alloc, gate, options, d) else {
            shut_boxed(alloc, gate, books);
            return Err(NoMemory);
        };
        deal(hands, passes);
        books.push_reserved(book);
    }
    Ok(books)
}

/// Ends books; what tickets they hold go back to the gate.
pub(crate) fn shut(alloc: Global, gate: &Gate, mut books: Vec<Domain>)
    requires { All (λ b. b.gate ≡ gate.now) books.items }
{
    while let Some(domain) = books.pop() {
        shut_one(alloc, gate, domain);
    }
    books.destroy_empty();
}

/// The same of books that stand after no lock yet.
fn shut_boxed(alloc: Global, gate: &Gate, mut books: Vec<BoxedDomain>)
    requires { All (λ b. b.gate ≡ gate.now) books.items }
{
    while let Some(book) = books.pop() {
        let BoxedDomain { domain } = book;
        shut_one(alloc, gate, Box::into_inner(domain));
    }
    books.destroy_empty();
}

/// Ends a book; what tickets it holds go back to the gate.
fn shut_one(alloc: Global, gate: &Gate, domain: Domain)
    requires { domain.gate ≡ gate.now }
{
    let Closed {
        state,
        entries: _,
        tickets,
        blanks: _,
    } = domain.close(Vec::new(alloc));
    // For the prover alone: dropped by a call, and not field by field.
    drop(state);
    give_all(gate, tickets);
}

/// Gives tickets back to the gate.
fn give_all(gate: &Gate, mut tickets: Vec<Ticket>)
    requires { All (λ t. t.gate ≡ gate.now) tickets.items }
{
    while let Some(ticket) = tickets.pop() {
        gate.give(ticket);
    }
    tickets.destroy_empty();
}

impl Parts {
    /// Gate, domains, passes and pieces of a session: 256 pieces a domain, which stand in one pool,
    /// and one a client. It is the only growth of a session apart from those of admissions and
    /// advances. [`NoMemory`] (ENOMEM 12) where a growth was refused: nothing stands.
    pub fn open(alloc: Global, options: &Options) -> Result<Parts, NoMemory>
        requires { AreOptions options.now }
        ensures { IfOk result (IsSessionOf options.now) }
    {
        let cpu_sets = cpu_sets_of(alloc, &options.domains)?;
        let (gate, mut pool) = gate_of(alloc, options)?;
        let mut hands = empty_hands(alloc, options.clients, options.domains.len(), &mut pool)?;
        let books = books_of(alloc, &gate, options, &mut hands)?;
        let count = books.len();
        let Ok(room) = Vec::with_capacity(alloc, count) else {
            shut_boxed(alloc, &gate, books);
            return Err(NoMemory);
        };
        Ok(Parts {
            gate,
            cpu_sets,
            limit: options.limit,
            history: options.history,
            workers: options.workers,
            books,
            room,
            hands,
            pool,
        })
    }
}
