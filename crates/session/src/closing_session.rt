//! The end of a session: its books are closed, and every piece goes home to the gate.

ghost use Rattle.std.specs.Prelude.{◌≡◌, ◌≢◌, ◌+◌, ◌*◌, ◌≤◌, ◌<◌, ℕ, [], length, map, All, IfOk, IfSome, vec_capacity, slice_index};
ghost use Rattle.call_book.specs.Book.{own_entries};
ghost use Rattle.bw_gate.specs.Pieces.{bw_of_tickets};
ghost use Rattle.session.specs.SessionId.{IsSession};
ghost use Rattle.session.specs.Asks.{client_pass_in};
ghost use Rattle.session.specs.Report.{IsHistoryOf, IsSessionReport, sum_left};
ghost use Rattle.session.specs.private.Entering.{IsSessionBook};
ghost use Rattle.session.specs.private.Parts.{AreSessionBooks, AreBlanksOf, AreHands};
ghost use Rattle.session.specs.private.Ending.{books_of, unstreamed_ending};
ghost use Rattle.session.specs.private.Closing.{AreTicketsOf, AreHistories, AreSums, IsClosingRoom, IsEnded, HaveEnded};

use crate::client::Client;
use crate::names::Names;
use crate::parts::{Hand, PIECES};
use crate::refusal::Refusal;
use crate::report::Report;
use bw_gate::{Blank, Gate, Ticket, Words};
use call_book::{Closed, Domain, EndingBook, NoMemory, Section};
use domain_run::State;
use std::alloc::Global;
use std::marker::PhantomData;

/// The pieces that come home, with room for all tickets.
struct Home<N: Names> {
    tickets: Vec<Ticket>,
    blanks: Vec<Blank>,
    of: PhantomData<N>,
    ghost tickets_own: { AreTicketsOf N.id.gate tickets.items },
    ghost blanks_own: { AreBlanksOf N.id.gate blanks.items },
}

/// Adds blanks.
fn pour_blanks<N: Names>(home: &mut Vec<Blank>, mut blanks: Vec<Blank>)
    requires old { AreBlanksOf N.id.gate home.old.items }
    requires own { AreBlanksOf N.id.gate blanks.items }
    ensures { AreBlanksOf N.id.gate home.new.items }
{
    while let Some(blank) = blanks.pop() {
        // There is room for every piece of the gate.
        let _ = home.push(blank);
    }
}

/// Adds tickets, for which there is room.
fn pour_tickets<N: Names>(home: &mut Vec<Ticket>, mut tickets: Vec<Ticket>)
    requires old { AreTicketsOf N.id.gate home.old.items }
    requires own { AreTicketsOf N.id.gate tickets.items }
    requires room { length home.old.items + length tickets.items ≤ vec_capacity home.old }
    ensures own { AreTicketsOf N.id.gate home.new.items }
    ensures count { length home.new.items ≡ length home.old.items + length tickets.items }
    ensures room { vec_capacity home.new ≡ vec_capacity home.old }
    ensures sums { (d : ℕ) →
        bw_of_tickets d home.new.items
        ≡ bw_of_tickets d home.old.items + bw_of_tickets d tickets.items }
{
    while let Some(ticket) = tickets.pop() {
        home.push_reserved(ticket);
    }
    tickets.destroy_empty();
}

/// Lets every client's pass of a place agree with its book, which changes neither.
fn agree_all<N: Names>(book: &mut EndingBook, clients: &mut Vec<Client<N>>, place: usize)
    requires named { IsSessionBook N.id place book.old.book }
    ensures book { book.new ≡ book.old }
    ensures clients { clients.new.items ≡ clients.old.items }
    ensures own { let history = book.new.book.history in
        All (λ c. client_pass_in c place ≡ own_entries c.number history) clients.new.items }
{
    for k in 0..clients.len() {
        clients[k].agree(book, place);
    }
}

/// What a closed book leaves.
struct Ended {
    history: Section,
    state: State,
}

/// Closes a book, which was opened with this limit: its history and its state, and its pieces go
/// home.
fn close_book<N: Names>(
    alloc: Global,
    mut book: EndingBook,
    clients: &mut Vec<Client<N>>,
    place: usize,
    limit: u64,
    home: &mut Home<N>,
) -> Ended
    requires session { IsSession N.id }
    requires limit { limit ≡ N.id.limit }
    requires named { IsSessionBook N.id place book.book }
    requires room { length home.old.tickets.items + 256 ≤ vec_capacity home.old.tickets }
    ensures history { IsHistoryOf N.id place clients.new.items result.history }
    ensures ended { IsEnded book result.history result.state }
    ensures clients { clients.new.items ≡ clients.old.items }
    ensures here { bw_of_tickets place home.new.tickets.items
        ≡ bw_of_tickets place home.old.tickets.items + sum_left result.history }
    ensures elsewhere { (d : ℕ) → d ≢ place →
        bw_of_tickets d home.new.tickets.items ≡ bw_of_tickets d home.old.tickets.items }
    ensures count { length home.new.tickets.items ≤ length home.old.tickets.items + 256 }
    ensures room { vec_capacity home.new.tickets ≡ vec_capacity home.old.tickets }
{
    agree_all(&mut book, clients, place);
    let Closed {
        state,
        entries,
        tickets,
        blanks,
    } = book.close(Vec::new(alloc));
    pour_tickets::<N>(&mut home.tickets, tickets);
    pour_blanks::<N>(&mut home.blanks, blanks);
    let history = Section {
        cpus: state.cpus(),
        limit,
        entries,
    };
    Ended { history, state }
}

/// Closes the books of all domains, in their order.
fn close_all<N: Names>(
    alloc: Global,
    books: Vec<EndingBook>,
    limit: u64,
    clients: &mut Vec<Client<N>>,
    home: &mut Home<N>,
    histories: &mut Vec<Section>,
    states: &mut Vec<State>,
)
    requires session { IsSession N.id }
    requires limit { limit ≡ N.id.limit }
    requires named { AreSessionBooks N.id (books_of books.items) }
    requires count { length books.items ≡ length N.id.cpu_sets }
    requires pieces { home.old.tickets.items ≡ [] }
    requires empty { (histories.old.items ≡ []) × (states.old.items ≡ []) }
    requires room { length N.id.cpu_sets * 256 ≤ vec_capacity home.old.tickets }
    requires sections { length N.id.cpu_sets ≤ vec_capacity histories.old }
    requires machines { length N.id.cpu_sets ≤ vec_capacity states.old }
    ensures clients { clients.new.items ≡ clients.old.items }
    ensures count { length histories.new.items ≡ length N.id.cpu_sets }
    ensures histories { AreHistories N.id clients.old.items histories.new.items }
    ensures sums { AreSums histories.new.items home.new.tickets.items }
    ensures ended { HaveEnded books.items histories.new.items states.new.items }
{
    let mut rest = books.into_iter();
    while let Some(book) = rest.next() {
        let place = histories.len();
        let Ended { history, state } = close_book(alloc, book, clients, place, limit, home);
        histories.push_reserved(history);
        states.push_reserved(state);
    }
    rest.destroy_empty();
}

/// The room that a session's end needs.
pub(crate) struct Room {
    tickets: Vec<Ticket>,
    histories: Vec<Section>,
    states: Vec<State>,
    words: Vec<u64>,
    caps: Vec<u64>,
    refused: Vec<(u32, Refusal)>,
}

impl Room {
    /// Room for the end of so many domains.
    pub(crate) fn open(alloc: Global, domains: usize) -> Result<Room, NoMemory>
        requires { domains ≤ 8 }
        ensures { IfOk result (IsClosingRoom domains) }
    {
        let histories = Vec::with_capacity(alloc, domains)?;
        let states = Vec::with_capacity(alloc, domains)?;
        let words = Vec::with_capacity(alloc, domains)?;
        let caps = Vec::with_capacity(alloc, domains)?;
        let Ok(tickets) = Vec::with_capacity(alloc, domains * PIECES) else {
            return Err(NoMemory);
        };
        Ok(Room {
            tickets,
            histories,
            states,
            words,
            caps,
            refused: Vec::new(alloc),
        })
    }

    /// Lets go of a room that is not used.
    pub(crate) fn destroy(self)
        requires { self.tickets.items ≡ [] }
    {
        let Room {
            tickets,
            histories: _,
            states: _,
            words: _,
            caps: _,
            refused: _,
        } = self;
        tickets.destroy_empty();
    }
}

/// Room for so many books at their end, and for the end itself.
pub(crate) struct Rooms {
    pub(crate) books: Vec<EndingBook>,
    pub(crate) room: Room,
}

impl Rooms {
    /// Room for the end of so many domains.
    pub(crate) fn open(alloc: Global, domains: usize) -> Result<Rooms, NoMemory>
        requires { domains ≤ 8 }
        ensures none { IfOk result (λ r. r.books.items ≡ []) }
        ensures books { IfOk result (λ r. domains ≤ vec_capacity r.books) }
        ensures room { IfOk result (λ r. IsClosingRoom domains r.room) }
    {
        let Ok(books) = Vec::with_capacity(alloc, domains) else {
            return Err(NoMemory);
        };
        let Ok(room) = Room::open(alloc, domains) else {
            books.destroy_empty();
            return Err(NoMemory);
        };
        Ok(Rooms { books, room })
    }
}

/// Adds the piece of a hand, where it has one.
fn pour_piece<N: Names>(home: &mut Vec<Blank>, piece: Option<Blank>)
    requires old { AreBlanksOf N.id.gate home.old.items }
    requires own { IfSome piece (λ b. b.gate ≡ N.id.gate) }
    ensures { AreBlanksOf N.id.gate home.new.items }
{
    if let Some(blank) = piece {
        // There is room for every piece of the gate.
        let _ = home.push(blank);
    }
}

/// Takes the pieces out of the clients' hands.
fn pour_hands<N: Names>(home: &mut Vec<Blank>, mut clients: Vec<Client<N>>)
    requires { AreBlanksOf N.id.gate home.old.items }
    ensures { AreBlanksOf N.id.gate home.new.items }
{
    while let Some(client) = clients.pop() {
        pour_piece::<N>(home, client.into_hand());
    }
}

/// Takes the pieces of the clients that were not handed out.
pub(crate) fn pour_waiting<N: Names>(home: &mut Vec<Blank>, mut hands: Vec<Option<Hand>>)
    requires own { AreBlanksOf N.id.gate home.old.items }
    requires hands { AreHands N.id.gate N.id.spines hands.items }
    ensures { AreBlanksOf N.id.gate home.new.items }
{
    while let Some(hand) = hands.pop() {
        if let Some(hand) = hand {
            let Hand { passes: _, blank } = hand;
            pour_piece::<N>(home, blank);
        }
    }
}

/// The first so many numbers of a row: what is used of the words of a closed gate, or their caps.
fn put_row(row: &[u64; 8], count: usize, numbers: &mut Vec<u64>)
    requires empty { numbers.old.items ≡ [] }
    requires count { count ≤ 8 }
    requires room { count ≤ vec_capacity numbers.old }
    ensures count { length numbers.new.items ≡ count }
    ensures numbers { (d : ℕ) → d < count →
        slice_index numbers.new.items d ≡ slice_index row.now d }
{
    for d in 0..count {
        numbers.push_reserved(row[d]);
    }
}

/// What a closed session leaves, with the state of each domain, in their order.
#[derive(Drop)]
pub(crate) struct Remains {
    pub(crate) report: Report,
    pub(crate) states: Vec<State>,
}

/// Ends books, in their order.
fn end_all(books: Vec<Domain>, ending: &mut Vec<EndingBook>)
    requires empty { ending.old.items ≡ [] }
    requires room { length books.items ≤ vec_capacity ending.old }
    ensures { ending.new.items ≡ map unstreamed_ending books.items }
{
    let mut rest = books.into_iter();
    while let Some(book) = rest.next() {
        ending.push_reserved(book.end());
    }
    rest.destroy_empty();
}

/// A session whose domains stand after no lock any more, with all room that its end needs. It is
/// neither cloned nor dropped, but ended.
pub(crate) struct Unlocked<N: Names> {
    pub(crate) gate: Gate,
    pub(crate) books: Vec<Domain>,
    pub(crate) limit: u64,
    pub(crate) blanks: Vec<Blank>,
    pub(crate) ending: Vec<EndingBook>,
    pub(crate) room: Room,
    pub(crate) of: PhantomData<N>,
    ghost session: { IsSession N.id },
    ghost same_limit: { limit ≡ N.id.limit },
    ghost same_gate: { gate ≡ N.id.gate },
    ghost count: { length books.items ≡ length N.id.cpu_sets },
    ghost named: { AreSessionBooks N.id books.items },
    ghost blanks_own: { AreBlanksOf N.id.gate blanks.items },
    ghost none_ended: { ending.items ≡ [] },
    ghost for_all: { length N.id.cpu_sets ≤ vec_capacity ending },
    ghost enough: { IsClosingRoom (length N.id.cpu_sets) room },
}

impl<N: Names> Unlocked<N> {
    pub(crate) fn new(
        gate: Gate,
        books: Vec<Domain>,
        limit: u64,
        blanks: Vec<Blank>,
        ending: Vec<EndingBook>,
        room: Room,
    ) -> Unlocked<N>
        requires session { IsSession N.id }
        requires limit { limit ≡ N.id.limit }
        requires gate { gate ≡ N.id.gate }
        requires count { length books.items ≡ length N.id.cpu_sets }
        requires named { AreSessionBooks N.id books.items }
        requires blanks { AreBlanksOf N.id.gate blanks.items }
        requires ending { ending.items ≡ [] }
        requires for_all { length N.id.cpu_sets ≤ vec_capacity ending }
        requires room { IsClosingRoom (length N.id.cpu_sets) room }
    {
        Unlocked {
            gate,
            books,
            limit,
            blanks,
            ending,
            room,
            of: PhantomData,
        }
    }

    /// No call is made on any book any more, but one last advance of each that is streamed.
    pub(crate) fn end(self) -> Ending<N>
        ensures { result.books.items ≡ map unstreamed_ending self.books.items }
    {
        let Unlocked {
            gate,
            books,
            limit,
            blanks,
            mut ending,
            room,
            of: _,
        } = self;
        end_all(books, &mut ending);
        Ending {
            gate,
            books: ending,
            limit,
            blanks,
            room,
            of: PhantomData,
        }
    }
}

/// A session whose books are at their end. It is neither cloned nor dropped, but closed.
pub(crate) struct Ending<N: Names> {
    pub(crate) gate: Gate,
    pub(crate) books: Vec<EndingBook>,
    pub(crate) limit: u64,
    pub(crate) blanks: Vec<Blank>,
    pub(crate) room: Room,
    pub(crate) of: PhantomData<N>,
    ghost session: { IsSession N.id },
    ghost same_limit: { limit ≡ N.id.limit },
    ghost same_gate: { gate ≡ N.id.gate },
    ghost count: { length books.items ≡ length N.id.cpu_sets },
    ghost named: { AreSessionBooks N.id (books_of books.items) },
    ghost blanks_own: { AreBlanksOf N.id.gate blanks.items },
    ghost enough: { IsClosingRoom (length N.id.cpu_sets) room },
}

impl<N: Names> Ending<N> {
    /// Closes all books and then the gate.
    pub(crate) fn close(self, alloc: Global, mut clients: Vec<Client<N>>) -> Remains
        ensures report { IsSessionReport N.id clients.items result.report }
        ensures ended { HaveEnded self.books.items result.report.histories.items
            result.states.items }
    {
        let Ending {
            gate,
            books,
            limit,
            blanks,
            room,
            of: _,
        } = self;
        let Room {
            tickets,
            mut histories,
            mut states,
            mut words,
            mut caps,
            refused,
        } = room;
        let mut home = Home {
            tickets,
            blanks,
            of: PhantomData,
        };
        close_all(
            alloc,
            books,
            limit,
            &mut clients,
            &mut home,
            &mut histories,
            &mut states,
        );
        let Home {
            tickets,
            mut blanks,
            of: _,
        } = home;
        pour_hands(&mut blanks, clients);
        let home = blanks.len() + tickets.len();
        let Words { count, word, cap } = gate.close(blanks, tickets);
        put_row(&word, count, &mut words);
        put_row(&cap, count, &mut caps);
        let report = Report {
            histories,
            refused,
            words,
            caps,
            home,
        };
        Remains { report, states }
    }
}
