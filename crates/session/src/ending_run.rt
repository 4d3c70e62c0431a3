//! The end of a run: client 1 advances each domain, and all books are closed.

ghost use Rattle.std.specs.Prelude.{◌≡◌, ◌<◌, ◌≤◌, true, false, [], length, vec_capacity, IfOk, IfErr, OnOk};
ghost use Rattle.session.specs.Asks.{Makes};
ghost use Rattle.session.specs.private.Parts.{AreSessionBooks};
ghost use Rattle.session.specs.private.Ending.{AllEnd, AllLogEnds, AreAllStreamed, AreDrawnEnds, AreEndLogs, AreStreamedEnds, AreOpenLogs, AreLoggedAs, IsFullAmong, books_of};
ghost use Rattle.session.specs.RunEnd.{advance_of, FirstIsOne, IsFinished, IsFullWith, IsLogOf, IsRunStopped};
ghost use Rattle.limits.specs.Limits.{max_advance};

use crate::client::Client;
use crate::closing_session::{Ending, Remains, Unlocked};
use crate::fault::EndFault;
use crate::names::Names;
use crate::report::{Finished, Wanted};
use crate::session::Session;
use bw_gate::Gate;
use call_book::{Domain, EndingBook, NoMemory};
use chart_pieces::{Drawing, Window};
use domain_run::Log;
use run_figures::Accounting;
use std::alloc::Global;
use std::sync::Wait;
use std::thread::Threads;

/// What is kept of the runs of the domains: a log of each, what an accounting of each streamed, or
/// a drawing of each.
#[derive(Drop)]
pub(crate) struct Recorded {
    pub(crate) logs: Vec<Log>,
    pub(crate) streamed: Vec<Accounting>,
    pub(crate) drawn: Vec<Drawing>,
}

/// A log that has nothing yet, and keeps what it logs where that is wanted.
fn open_log(alloc: Global, wanted: bool) -> Log
    ensures { IsLogOf wanted [] result }
{
    if wanted {
        Log::open(alloc)
    } else {
        Log::silent(alloc)
    }
}

/// So many of them: their list takes memory, and they take none yet.
fn open_logs(alloc: Global, count: usize, wanted: bool) -> Result<Vec<Log>, NoMemory>
    ensures { IfOk result (λ logs. AreOpenLogs count wanted logs.items) }
{
    let mut logs = Vec::with_capacity(alloc, count)?;
    for _ in 0..count {
        logs.push_reserved(open_log(alloc, wanted));
    }
    Ok(logs)
}

/// Lets client 1 advance each domain by the whole duration. The log of each records what happens
/// in it.
fn advance_all<N: Names, R: Threads + Wait>(
    rt: &R,
    gate: &Gate,
    books: &mut Vec<Domain>,
    client: &mut Client<N>,
    duration: u64,
    logs: &mut Vec<Log>,
) -> Result<(), EndFault>
    requires gate { gate.now ≡ N.id.gate }
    requires named { AreSessionBooks N.id books.old.items }
    requires count { length books.old.items ≡ length N.id.cpu_sets }
    requires domains { 0 < length N.id.cpu_sets }
    requires first { client.old.number ≡ 1 }
    requires some { 0 < duration }
    requires most { duration ≤ max_advance }
    requires logs { length logs.old.items ≡ length books.old.items }
    ensures named { AreSessionBooks N.id books.new.items }
    ensures count { length books.new.items ≡ length books.old.items }
    ensures made { OnOk result (Makes client.old client.new (λ d. advance_of duration 1)) }
    ensures ends { OnOk result (AllEnd duration books.new.items) }
    ensures logs { length logs.new.items ≡ length logs.old.items }
    ensures logged { OnOk result (AllLogEnds duration books.new.items logs.old.items
        logs.new.items) }
    ensures err { IfErr result (IsRunStopped
        (IsFullAmong duration books.new.items client.old client.new)) }
{
    for place in 0..books.len() {
        let log = &mut logs[place];
        client.advance_book(rt, gate, &mut books[place], place, duration, log)?;
    }
    Ok(())
}

/// The same, with logs that keep what they are logged where that is wanted; and no call where the
/// duration is 0. All room for the logs' list is made before the first call.
fn advance<N: Names, R: Threads + Wait>(
    rt: &R,
    alloc: Global,
    unlocked: &mut Unlocked<N>,
    client: &mut Client<N>,
    duration: u64,
    wanted: bool,
) -> Result<Recorded, EndFault>
    requires first { client.old.number ≡ 1 }
    requires most { duration ≤ max_advance }
    ensures made { OnOk result (Makes client.old client.new (λ d. advance_of duration 1)) }
    ensures ends { OnOk result (AllEnd duration unlocked.new.books.items) }
    ensures logs { let books = unlocked.new.books.items in
        IfOk result (λ t. AreEndLogs wanted duration books t.logs.items) }
    ensures err { let books = unlocked.new.books.items in
        IfErr result (IsRunStopped (IsFullAmong duration books client.old client.new)) }
{
    let mut logs = open_logs(alloc, unlocked.books.len(), wanted)?;
    if duration == 0 {
        return Ok(Recorded {
            logs,
            streamed: Vec::new(alloc),
            drawn: Vec::new(alloc),
        });
    }
    advance_all(
        rt,
        &unlocked.gate,
        &mut unlocked.books,
        client,
        duration,
        &mut logs,
    )?;
    Ok(Recorded {
        logs,
        streamed: Vec::new(alloc),
        drawn: Vec::new(alloc),
    })
}

/// Lets client 1 advance each domain by the whole duration, and an accounting of each take it. It
/// keeps the jobs of each task, if `jobs` asks for them.
fn stream_all<N: Names>(
    gate: &Gate,
    books: &mut Vec<EndingBook>,
    client: &mut Client<N>,
    duration: u64,
    jobs: bool,
    streamed: &mut Vec<Accounting>,
) -> Result<(), EndFault>
    requires gate { gate.now ≡ N.id.gate }
    requires named { AreSessionBooks N.id (books_of books.old.items) }
    requires count { length books.old.items ≡ length N.id.cpu_sets }
    requires unstreamed { AreAllStreamed false books.old.items }
    requires domains { 0 < length N.id.cpu_sets }
    requires first { client.old.number ≡ 1 }
    requires some { 0 < duration }
    requires most { duration ≤ max_advance }
    requires empty { streamed.old.items ≡ [] }
    requires room { length books.old.items ≤ vec_capacity streamed.old }
    ensures named { AreSessionBooks N.id (books_of books.new.items) }
    ensures count { length books.new.items ≡ length books.old.items }
    ensures made { OnOk result (Makes client.old client.new (λ d. advance_of duration 1)) }
    ensures ends { OnOk result (AllEnd duration (books_of books.new.items)) }
    ensures forgotten { OnOk result (AreAllStreamed true books.new.items) }
    ensures streamed { OnOk result
        (AreStreamedEnds duration (books_of books.new.items) streamed.new.items) }
    ensures err { IfErr result
        (IsRunStopped (IsFullAmong duration (books_of books.new.items) client.old client.new)) }
{
    for place in 0..books.len() {
        let accounting = client.stream_book(gate, &mut books[place], place, duration, jobs)?;
        streamed.push_reserved(accounting);
    }
    Ok(())
}

/// Streams to an accounting of each domain the switches of its run. No call is made.
fn stream_still(
    books: &mut Vec<EndingBook>,
    jobs: bool,
    streamed: &mut Vec<Accounting>,
) -> Result<(), NoMemory>
    requires unstreamed { AreAllStreamed false books.old.items }
    requires empty { streamed.old.items ≡ [] }
    requires room { length books.old.items ≤ vec_capacity streamed.old }
    ensures books { books_of books.new.items ≡ books_of books.old.items }
    ensures forgotten { OnOk result (AreAllStreamed true books.new.items) }
    ensures streamed { OnOk result
        (AreStreamedEnds 0 (books_of books.new.items) streamed.new.items) }
{
    for place in 0..books.len() {
        streamed.push_reserved(books[place].stream(jobs)?);
    }
    Ok(())
}

/// The run of each domain is streamed; no call is made where the duration is 0.
fn stream<N: Names>(
    alloc: Global,
    ending: &mut Ending<N>,
    client: &mut Client<N>,
    duration: u64,
    jobs: bool,
) -> Result<Recorded, EndFault>
    requires unstreamed { AreAllStreamed false ending.old.books.items }
    requires first { client.old.number ≡ 1 }
    requires most { duration ≤ max_advance }
    ensures made { OnOk result (Makes client.old client.new (λ d. advance_of duration 1)) }
    ensures ends { OnOk result (AllEnd duration (books_of ending.new.books.items)) }
    ensures forgotten { OnOk result (AreAllStreamed true ending.new.books.items) }
    ensures streamed { let books = books_of ending.new.books.items in
        IfOk result (λ t. AreStreamedEnds duration books t.streamed.items) }
    ensures err { let books = books_of ending.new.books.items in
        IfErr result (IsRunStopped (IsFullAmong duration books client.old client.new)) }
{
    let Ok(mut streamed) = Vec::with_capacity(alloc, ending.books.len()) else {
        return Err(EndFault::Memory);
    };
    if duration == 0 {
        stream_still(&mut ending.books, jobs, &mut streamed)?;
        return Ok(Recorded {
            logs: Vec::new(alloc),
            streamed,
            drawn: Vec::new(alloc),
        });
    }
    stream_all(
        &ending.gate,
        &mut ending.books,
        client,
        duration,
        jobs,
        &mut streamed,
    )?;
    Ok(Recorded {
        logs: Vec::new(alloc),
        streamed,
        drawn: Vec::new(alloc),
    })
}

/// Lets client 1 advance each domain by the whole duration, and draws it in this window.
fn draw_all<N: Names>(
    gate: &Gate,
    books: &mut Vec<EndingBook>,
    client: &mut Client<N>,
    duration: u64,
    window: Window,
    drawn: &mut Vec<Drawing>,
) -> Result<(), EndFault>
    requires gate { gate.now ≡ N.id.gate }
    requires named { AreSessionBooks N.id (books_of books.old.items) }
    requires count { length books.old.items ≡ length N.id.cpu_sets }
    requires undrawn { AreAllStreamed false books.old.items }
    requires domains { 0 < length N.id.cpu_sets }
    requires first { client.old.number ≡ 1 }
    requires some { 0 < duration }
    requires most { duration ≤ max_advance }
    requires empty { drawn.old.items ≡ [] }
    requires room { length books.old.items ≤ vec_capacity drawn.old }
    ensures named { AreSessionBooks N.id (books_of books.new.items) }
    ensures count { length books.new.items ≡ length books.old.items }
    ensures made { OnOk result (Makes client.old client.new (λ d. advance_of duration 1)) }
    ensures ends { OnOk result (AllEnd duration (books_of books.new.items)) }
    ensures forgotten { OnOk result (AreAllStreamed true books.new.items) }
    ensures drawn { OnOk result
        (AreDrawnEnds window duration (books_of books.new.items) drawn.new.items) }
    ensures err { IfErr result
        (IsRunStopped (IsFullAmong duration (books_of books.new.items) client.old client.new)) }
{
    for place in 0..books.len() {
        let drawing = client.draw_book(gate, &mut books[place], place, duration, window)?;
        drawn.push_reserved(drawing);
    }
    Ok(())
}

/// Draws the switches of the run of each domain in this window. No call is made.
fn draw_still(
    books: &mut Vec<EndingBook>,
    window: Window,
    drawn: &mut Vec<Drawing>,
) -> Result<(), NoMemory>
    requires undrawn { AreAllStreamed false books.old.items }
    requires empty { drawn.old.items ≡ [] }
    requires room { length books.old.items ≤ vec_capacity drawn.old }
    ensures books { books_of books.new.items ≡ books_of books.old.items }
    ensures forgotten { OnOk result (AreAllStreamed true books.new.items) }
    ensures drawn { OnOk result
        (AreDrawnEnds window 0 (books_of books.new.items) drawn.new.items) }
{
    for place in 0..books.len() {
        drawn.push_reserved(books[place].draw(window)?);
    }
    Ok(())
}

/// Draws the run of each domain in this window. No call is made if the duration is 0.
fn draw<N: Names>(
    alloc: Global,
    ending: &mut Ending<N>,
    client: &mut Client<N>,
    duration: u64,
    window: Window,
) -> Result<Recorded, EndFault>
    requires undrawn { AreAllStreamed false ending.old.books.items }
    requires first { client.old.number ≡ 1 }
    requires most { duration ≤ max_advance }
    ensures made { OnOk result (Makes client.old client.new (λ d. advance_of duration 1)) }
    ensures ends { OnOk result (AllEnd duration (books_of ending.new.books.items)) }
    ensures forgotten { OnOk result (AreAllStreamed true ending.new.books.items) }
    ensures drawn { let books = books_of ending.new.books.items in
        IfOk result (λ t. AreDrawnEnds window duration books t.drawn.items) }
    ensures err { let books = books_of ending.new.books.items in
        IfErr result (IsRunStopped (IsFullAmong duration books client.old client.new)) }
{
    let Ok(mut drawn) = Vec::with_capacity(alloc, ending.books.len()) else {
        return Err(EndFault::Memory);
    };
    if duration == 0 {
        draw_still(&mut ending.books, window, &mut drawn)?;
        return Ok(Recorded {
            logs: Vec::new(alloc),
            streamed: Vec::new(alloc),
            drawn,
        });
    }
    draw_all(
        &ending.gate,
        &mut ending.books,
        client,
        duration,
        window,
        &mut drawn,
    )?;
    Ok(Recorded {
        logs: Vec::new(alloc),
        streamed: Vec::new(alloc),
        drawn,
    })
}

/// A session whose domains were advanced, and what is logged of it; or why not all were.
struct Advanced<N: Names> {
    ending: Ending<N>,
    logged: Result<Recorded, EndFault>,
}

/// Lets client 1 advance each domain, which a log is logged where that is wanted.
fn advance_logged<N: Names, R: Threads + Wait>(
    rt: &R,
    alloc: Global,
    mut unlocked: Unlocked<N>,
    client: &mut Client<N>,
    duration: u64,
    wanted: bool,
) -> Advanced<N>
    requires first { client.old.number ≡ 1 }
    requires most { duration ≤ max_advance }
    ensures made { OnOk result.logged (Makes client.old client.new (λ d. advance_of duration 1)) }
    ensures ends { OnOk result.logged (AllEnd duration (books_of result.ending.books.items)) }
    ensures unstreamed { AreAllStreamed false result.ending.books.items }
    ensures logs { let books = books_of result.ending.books.items in
        IfOk result.logged (λ t. AreEndLogs wanted duration books t.logs.items) }
    ensures err { let books = books_of result.ending.books.items in
        IfErr result.logged (IsRunStopped (IsFullAmong duration books client.old client.new)) }
{
    let logged = advance(rt, alloc, &mut unlocked, client, duration, wanted);
    let ending = unlocked.end();
    Advanced { ending, logged }
}

/// Lets client 1 advance each domain, which an accounting takes. It keeps the jobs of each task, if
/// `jobs` asks for them.
fn advance_streamed<N: Names>(
    alloc: Global,
    unlocked: Unlocked<N>,
    client: &mut Client<N>,
    duration: u64,
    jobs: bool,
) -> Advanced<N>
    requires first { client.old.number ≡ 1 }
    requires most { duration ≤ max_advance }
    ensures made { OnOk result.logged (Makes client.old client.new (λ d. advance_of duration 1)) }
    ensures ends { OnOk result.logged (AllEnd duration (books_of result.ending.books.items)) }
    ensures streamed { OnOk result.logged (AreAllStreamed true result.ending.books.items) }
    ensures all { let books = books_of result.ending.books.items in
        IfOk result.logged (λ t. AreStreamedEnds duration books t.streamed.items) }
    ensures err { let books = books_of result.ending.books.items in
        IfErr result.logged (IsRunStopped (IsFullAmong duration books client.old client.new)) }
{
    let mut ending = unlocked.end();
    let logged = stream(alloc, &mut ending, client, duration, jobs);
    Advanced { ending, logged }
}

/// Lets client 1 advance each domain, and draws it in this window.
fn advance_drawn<N: Names>(
    alloc: Global,
    unlocked: Unlocked<N>,
    client: &mut Client<N>,
    duration: u64,
    window: Window,
) -> Advanced<N>
    requires first { client.old.number ≡ 1 }
    requires most { duration ≤ max_advance }
    ensures made { OnOk result.logged (Makes client.old client.new (λ d. advance_of duration 1)) }
    ensures ends { OnOk result.logged (AllEnd duration (books_of result.ending.books.items)) }
    ensures forgotten { OnOk result.logged (AreAllStreamed true result.ending.books.items) }
    ensures drawn { let books = books_of result.ending.books.items in
        IfOk result.logged (λ t. AreDrawnEnds window duration books t.drawn.items) }
    ensures err { let books = books_of result.ending.books.items in
        IfErr result.logged (IsRunStopped (IsFullAmong duration books client.old client.new)) }
{
    let mut ending = unlocked.end();
    let logged = draw(alloc, &mut ending, client, duration, window);
    Advanced { ending, logged }
}

/// Lets client 1 advance each domain, and has logged of it what is wanted.
fn advance_as<N: Names, R: Threads + Wait>(
    rt: &R,
    alloc: Global,
    unlocked: Unlocked<N>,
    client: &mut Client<N>,
    duration: u64,
    wanted: Wanted,
) -> Advanced<N>
    requires first { client.old.number ≡ 1 }
    requires most { duration ≤ max_advance }
    ensures made { OnOk result.logged (Makes client.old client.new (λ d. advance_of duration 1)) }
    ensures ends { OnOk result.logged (AllEnd duration (books_of result.ending.books.items)) }
    ensures logged { let books = result.ending.books.items in
        IfOk result.logged (AreLoggedAs duration wanted books) }
    ensures err { let books = books_of result.ending.books.items in
        IfErr result.logged (IsRunStopped (IsFullAmong duration books client.old client.new)) }
{
    match wanted {
        Wanted::Switches => advance_logged(rt, alloc, unlocked, client, duration, false),
        Wanted::Happened => advance_logged(rt, alloc, unlocked, client, duration, true),
        Wanted::Figures => advance_streamed(alloc, unlocked, client, duration, false),
        Wanted::Jobs => advance_streamed(alloc, unlocked, client, duration, true),
        Wanted::Chart(window) => advance_drawn(alloc, unlocked, client, duration, window),
    }
}

/// Takes each domain out of its lock and lets client 1 advance it by the whole duration, in
/// microseconds, as the last entry of its book; no call is made where the duration is 0. Then all
/// books are closed, also where an advance was not made: the pieces go home, and each pass is
/// compared with its book. Where what happens is `wanted`, it stands in the log of each domain, in
/// the order of "Happened", as far as it happened in that advance. If figures or jobs are wanted,
/// an accounting of each domain streamed that, and all switches of its run, while the advance was
/// made: so neither takes memory that grows with the run, but for the jobs, and the states that are
/// left have no switches. The same holds for a chart: each domain is drawn while its advance is
/// made, and the drawing keeps only what is in the window.
///
/// # Errors
/// [`EndFault::Full`] where the history of a domain has no room for the advance.
/// [`EndFault::Memory`] where a growth was refused. The session is gone, and no clause says what it
/// left. Its tickets were given back.
pub fn end_run<N: Names, R: Threads + Wait>(
    rt: &R,
    alloc: Global,
    session: Session<N>,
    mut clients: Vec<Client<N>>,
    duration: u64,
    wanted: Wanted,
) -> Result<Finished, EndFault>
    requires some { 0 < length clients.items }
    requires first { FirstIsOne clients.items }
    requires duration { duration ≤ max_advance }
    ensures ok { IfOk result (IsFinished N.id duration wanted clients.items) }
    ensures err { IfErr result (IsRunStopped (IsFullWith N.id duration clients.items)) }
{
    let unlocked = session.unlock(alloc)?;
    let Advanced { ending, logged } = advance_as(
        rt,
        alloc,
        unlocked,
        &mut clients[0],
        duration,
        wanted,
    );
    let Remains { report, states } = ending.close(alloc, clients);
    let Recorded {
        logs,
        streamed,
        drawn,
    } = logged?;
    Ok(Finished {
        report,
        states,
        logs,
        streamed,
        drawn,
    })
}
