//! The end of a run of which client 1's advance is entered first: its ticks are made piece by piece
//! then, and nothing is refused any more.

ghost use Rattle.std.specs.Prelude.{◌≡◌, ◌<◌, ◌≤◌, Bool, [], length, map, vec_capacity, All, IfOk, IfErr, OnOk, OnErr};
ghost use Rattle.std.specs.Vec.Iter.{into_iter_items};
ghost use Rattle.session.specs.SessionId.{IsSession};
ghost use Rattle.session.specs.Asks.{Makes};
ghost use Rattle.session.specs.Begun.{played_books, section_of, AreAllMade, AreBookHistories, AreUnlogged, HaveWholeRuns, IsRunBegun, LogTheirEnds};
ghost use Rattle.session.specs.Report.{IsHistoryOf, IsSessionReport};
ghost use Rattle.session.specs.RunEnd.{advance_of, FirstIsOne, IsFullWith, IsRunStopped};
ghost use Rattle.session.specs.private.Begun.{unplayed, without_pieces};
ghost use Rattle.session.specs.private.Closing.{IsClosingRoom};
ghost use Rattle.session.specs.private.Ending.{books_of, AllEnd, IsFullAmong};
ghost use Rattle.session.specs.private.Entering.{IsSessionBook};
ghost use Rattle.session.specs.private.Parts.{AreBlanksOf, AreSessionBooks};
ghost use Rattle.limits.specs.Limits.{max_advance};

use crate::client::Client;
use crate::closing_session::{Ending, Remains, Room, Unlocked};
use crate::fault::EndFault;
use crate::names::Names;
use crate::report::Report;
use crate::session::Session;
use bw_gate::{Blank, Gate};
use call_book::{Domain, EndingBook, Full, NoMemory, PlayingBook};
use std::alloc::Global;
use std::marker::{Model, PhantomData};
use std::snapshot::Snapshot;
use std::vec::IntoIter;

/// What a session keeps apart from its books, while their ticks are made: the gate, the clients,
/// and all room that the end needs. It is neither cloned nor dropped, but finished or shut together
/// with the books. To a contract it is what the clients have entered, and the books as they were
/// begun.
pub struct UnderWay<N: Names> {
    gate: Gate,
    clients: Vec<Client<N>>,
    limit: u64,
    blanks: Vec<Blank>,
    ending: Vec<EndingBook>,
    room: Room,
    begun: Snapshot<Vec<PlayingBook>>,
    of: PhantomData<N>,
    ghost session: { IsSession N.id },
    ghost same_limit: { limit ≡ N.id.limit },
    ghost same_gate: { gate ≡ N.id.gate },
    ghost count: { length begun.value.items ≡ length N.id.cpu_sets },
    ghost named: { AreSessionBooks N.id (played_books begun.value.items) },
    ghost blanks_own: { AreBlanksOf N.id.gate blanks.items },
    ghost none_ended: { ending.items ≡ [] },
    ghost for_all: { length N.id.cpu_sets ≤ vec_capacity ending },
    ghost enough: { IsClosingRoom (length N.id.cpu_sets) room },
}

impl<N: Names> Model for UnderWay<N> {
    ghost use Rattle.session.specs.Begun.{UnderWayView, played_books};

    ghost Value = { UnderWayView };

    ghost view = { λ u. record {
      clients = u.clients.items;
      books = played_books u.begun.value.items;
    } };
}

/// A run that is begun: the book of each domain, in their order, and what the end needs beside
/// them.
pub struct RunBegun<N: Names> {
    pub books: Vec<PlayingBook>,
    pub rest: UnderWay<N>,
}

/// Ends the books that are left of a list; what tickets they hold go back to the gate.
fn shut_rest(gate: &Gate, mut rest: IntoIter<Domain, Global>)
    requires { All (λ b. b.gate ≡ gate.now) (into_iter_items rest) }
{
    while let Some(domain) = rest.next() {
        domain.end().shut(gate);
    }
    rest.destroy_empty();
}

/// Ends books whose ticks are under way; what tickets they hold go back to the gate.
fn shut_books(gate: &Gate, mut books: Vec<PlayingBook>)
    requires { All (λ p. p.book.gate ≡ gate.now) books.items }
{
    while let Some(book) = books.pop() {
        book.shut(gate);
    }
    books.destroy_empty();
}

/// Gives each book its buffer, and a log if what happens is to be logged. If memory is refused, all
/// are shut.
fn play_all(
    alloc: Global,
    gate: &Gate,
    books: Vec<Domain>,
    logs: bool,
) -> Result<Vec<PlayingBook>, NoMemory>
    requires { All (λ b. b.gate ≡ gate.now) books.items }
    ensures { IfOk result (λ playing. playing.items ≡ map (unplayed logs) books.items) }
{
    let Ok(mut playing) = Vec::with_capacity(alloc, books.len()) else {
        shut_rest(gate, books.into_iter());
        return Err(NoMemory);
    };
    let mut rest = books.into_iter();
    while let Some(domain) = rest.next() {
        match domain.end().play(logs) {
            Ok(book) => playing.push_reserved(book),
            Err(book) => {
                book.shut(gate);
                shut_rest(gate, rest);
                shut_books(gate, playing);
                return Err(NoMemory);
            }
        }
    }
    rest.destroy_empty();
    Ok(playing)
}

/// Lets client 1 enter an advance of the whole duration in each book.
fn begin_all<N: Names>(
    books: &mut Vec<PlayingBook>,
    client: &mut Client<N>,
    duration: u64,
) -> Result<(), Full>
    requires named { AreSessionBooks N.id (played_books books.old.items) }
    requires count { length books.old.items ≡ length N.id.cpu_sets }
    requires domains { 0 < length N.id.cpu_sets }
    requires made { AreAllMade books.old.items }
    requires whole { HaveWholeRuns books.old.items }
    requires first { client.old.number ≡ 1 }
    requires some { 0 < duration }
    requires most { duration ≤ max_advance }
    ensures named { AreSessionBooks N.id (played_books books.new.items) }
    ensures count { length books.new.items ≡ length books.old.items }
    ensures made { OnOk result (Makes client.old client.new (λ d. advance_of duration 1)) }
    ensures ends { OnOk result (AllEnd duration (played_books books.new.items)) }
    ensures whole { HaveWholeRuns books.new.items }
    ensures unlogged { (logs : Bool) → AreUnlogged logs books.old.items
        → AreUnlogged logs books.new.items }
    ensures say { OnOk result (LogTheirEnds duration books.new.items) }
    ensures full { OnErr result
        (IsFullAmong duration (played_books books.new.items) client.old client.new) }
{
    for place in 0..books.len() {
        client.begin_book(&mut books[place], place, duration)?;
    }
    Ok(())
}

/// The same, and no call where the duration is 0.
fn begin<N: Names>(
    books: &mut Vec<PlayingBook>,
    client: &mut Client<N>,
    duration: u64,
) -> Result<(), Full>
    requires named { AreSessionBooks N.id (played_books books.old.items) }
    requires count { length books.old.items ≡ length N.id.cpu_sets }
    requires domains { 0 < length N.id.cpu_sets }
    requires made { AreAllMade books.old.items }
    requires whole { HaveWholeRuns books.old.items }
    requires first { client.old.number ≡ 1 }
    requires most { duration ≤ max_advance }
    ensures named { AreSessionBooks N.id (played_books books.new.items) }
    ensures count { length books.new.items ≡ length books.old.items }
    ensures made { OnOk result (Makes client.old client.new (λ d. advance_of duration 1)) }
    ensures ends { OnOk result (AllEnd duration (played_books books.new.items)) }
    ensures whole { HaveWholeRuns books.new.items }
    ensures unlogged { (logs : Bool) → AreUnlogged logs books.old.items
        → AreUnlogged logs books.new.items }
    ensures say { OnOk result (LogTheirEnds duration books.new.items) }
    ensures full { OnErr result
        (IsFullAmong duration (played_books books.new.items) client.old client.new) }
{
    if duration == 0 {
        return Ok(());
    }
    begin_all(books, client, duration)
}

/// Lets every client's pass of a place agree with its book, which changes neither.
fn agree_with<N: Names>(book: &mut PlayingBook, clients: &mut Vec<Client<N>>, place: usize)
    requires session { IsSession N.id }
    requires named { IsSessionBook N.id place book.old.book }
    ensures book { book.new ≡ book.old }
    ensures clients { clients.new.items ≡ clients.old.items }
    ensures history { IsHistoryOf N.id place clients.new.items (section_of book.new.book) }
{
    for k in 0..clients.len() {
        clients[k].agree_played(book, place);
    }
    // For the prover alone: a look at the history brings what every history keeps.
    let _ = book.entries();
}

/// The same of all places.
fn agree_with_all<N: Names>(books: &mut Vec<PlayingBook>, clients: &mut Vec<Client<N>>)
    requires session { IsSession N.id }
    requires named { AreSessionBooks N.id (played_books books.old.items) }
    ensures books { books.new.items ≡ books.old.items }
    ensures clients { clients.new.items ≡ clients.old.items }
    ensures histories { AreBookHistories N.id clients.new.items (played_books books.new.items) }
{
    for place in 0..books.len() {
        agree_with(&mut books[place], clients, place);
    }
}

/// Takes each domain out of its lock, makes all room that the rest of the run needs, and lets
/// client 1 enter an advance of the whole duration, in microseconds, as the last entry of each
/// book; no call is made where the duration is 0. No tick is made yet. Each pass is compared with
/// its book. From here on the histories are those of the whole run, and nothing is refused:
/// [`PlayingBook::fill`] makes ticks whose switches are wanted, [`PlayingBook::fill_logged`] ticks
/// of which also what happens is wanted, if the books have logs, and [`finish_end`] makes those
/// that are left and ends the session. [`shut_end`] ends it at any time, whatever is left.
///
/// # Errors
/// [`EndFault::Full`] where the history of a domain has no room for the advance.
/// [`EndFault::Memory`] where a growth was refused. The session is gone, and no clause says what it
/// left. Its tickets were given back.
pub fn begin_end<N: Names>(
    alloc: Global,
    session: Session<N>,
    mut clients: Vec<Client<N>>,
    duration: u64,
    logs: bool,
) -> Result<RunBegun<N>, EndFault>
    requires some { 0 < length clients.items }
    requires first { FirstIsOne clients.items }
    requires duration { duration ≤ max_advance }
    ensures ok { IfOk result
        (λ r. IsRunBegun N.id duration logs clients.items r.books.items r.rest) }
    ensures err { IfErr result (IsRunStopped (IsFullWith N.id duration clients.items)) }
{
    let Unlocked {
        gate,
        books,
        limit,
        blanks,
        ending,
        room,
        of: _,
    } = session.unlock(alloc)?;
    let Ok(mut books) = play_all(alloc, &gate, books, logs) else {
        ending.destroy_empty();
        room.destroy();
        return Err(EndFault::Memory);
    };
    let begun = begin(&mut books, &mut clients[0], duration);
    agree_with_all(&mut books, &mut clients);
    if begun.is_err() {
        shut_books(&gate, books);
        ending.destroy_empty();
        room.destroy();
        return Err(EndFault::Full);
    }
    let begun = Snapshot::of(&books);
    let rest = UnderWay {
        gate,
        clients,
        limit,
        blanks,
        ending,
        room,
        begun,
        of: PhantomData,
    };
    Ok(RunBegun { books, rest })
}

/// Ends a book; what ticks are left of it are made first, and their switches are not kept.
fn finish_book(gate: &Gate, mut book: PlayingBook) -> EndingBook
    requires { book.book.gate ≡ gate.now }
    ensures { without_pieces result.book ≡ without_pieces book.book }
{
    book.make_rest();
    book.finish(gate)
}

/// Ends books in their order; what ticks are left of them are made first.
fn finish_all(gate: &Gate, books: Vec<PlayingBook>, ending: &mut Vec<EndingBook>)
    requires gate { All (λ p. p.book.gate ≡ gate.now) books.items }
    requires empty { ending.old.items ≡ [] }
    requires room { length books.items ≤ vec_capacity ending.old }
    ensures { map without_pieces (books_of ending.new.items)
        ≡ map without_pieces (played_books books.items) }
{
    let mut rest = books.into_iter();
    while let Some(book) = rest.next() {
        ending.push_reserved(finish_book(gate, book));
    }
    rest.destroy_empty();
}

/// Ends a session. The ticks that are left of its books are made first, and their switches are not
/// kept. The tickets of tasks that went off the lists are given back. Then all books are closed and
/// the pieces go home. It takes no memory.
pub fn finish_end<N: Names>(alloc: Global, books: Vec<PlayingBook>, rest: UnderWay<N>) -> Report
    requires same { played_books books.items ≡ rest.books }
    ensures report { IsSessionReport N.id rest.clients result }
    ensures histories { result.histories.items ≡ map section_of rest.books }
{
    let UnderWay {
        gate,
        clients,
        limit,
        blanks,
        mut ending,
        room,
        begun: _,
        of: _,
    } = rest;
    finish_all(&gate, books, &mut ending);
    let ending: Ending<N> = Ending {
        gate,
        books: ending,
        limit,
        blanks,
        room,
        of: PhantomData,
    };
    let Remains { report, states } = ending.close(alloc, clients);
    // For the prover alone: dropped by a call, and not field by field.
    drop(states);
    report
}

/// Ends a session that is of no use any more, whatever is left of its ticks: what tickets its books
/// hold go back to the gate. It takes no memory.
pub fn shut_end<N: Names>(books: Vec<PlayingBook>, rest: UnderWay<N>)
    requires { played_books books.items ≡ rest.books }
{
    let UnderWay {
        gate,
        clients: _,
        limit: _,
        blanks: _,
        ending,
        room,
        begun: _,
        of: _,
    } = rest;
    shut_books(&gate, books);
    ending.destroy_empty();
    room.destroy();
}
