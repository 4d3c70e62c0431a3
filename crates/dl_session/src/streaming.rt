//! A run that is written while it is made: client 1's advance is entered first, and its ticks are
//! made as the text goes out.

ghost use Rattle.std.specs.Prelude.{◌≡◌, ◌<◌, ◌≤◌, ◌^◌, length, map, IfOk, IfErr, OnOk};
ghost use Rattle.counted_io.specs.Sides.{faults_of, side};
ghost use Rattle.session.specs.Begun.{section_of, played_books};
ghost use Rattle.session.specs.Report.{IsSessionReport};
ghost use Rattle.calls_trace.specs.Written.{IsWritten, IsUnwritten};
ghost use Rattle.dl_session.specs.private.Asked.{HaveAsked, IsRunWritten, IsRunUnwritten};
ghost use Rattle.dl_session.specs.private.PlayedBooks.{played_book, played_histories, AreLogging, AreReady, IsRoomFor};
ghost use Rattle.dl_session.specs.private.Streaming.{needs_log, streamed_print, streamed_text, runs_text, AreCountable};
ghost use Rattle.limits.specs.Limits.{max_advance};

use crate::asked::Asked;
use crate::fault::SessionFault;
use crate::played::PlayedRun;
use crate::played_books::{Room, play_books, room_for, take_books};
use call_book::PlayingBook;
use calls_trace::TraceFault;
use session::{Names, Report, RunBegun, begin_end, finish_end, shut_end};
use std::alloc::Global;
use std::io::Write;
use std::thread::Threads;
use switch_text::{Counted, TraceRoom, write_event_slices, write_slices_apart};

/// What is written of a run while it is made.
#[derive(Clone, Copy)]
pub(crate) enum Streaming {
    /// Its trace.
    Trace,
    /// Its trace, and between the lines of it what happens.
    Events,
}

impl Streaming {
    /// Whether what happens is to be logged for it.
    fn needs_log(self) -> bool
        ensures { result ≡ needs_log self }
    {
        match self {
            Streaming::Trace => false,
            Streaming::Events => true,
        }
    }
}

/// Books whose text was written, as far as the writer took it.
struct Sent {
    books: Vec<PlayingBook>,
    written: Result<(), TraceFault>,
}

/// Writes the text of runs while their ticks are made: a trace of up to `workers` of them side by
/// side, and events of one after the other. Takes no memory but this room.
fn write_runs<W: Write, X: Threads + Sync>(
    rt: &X,
    workers: usize,
    streaming: Streaming,
    runs: &mut [PlayedRun],
    texts: TraceRoom,
    writer: &mut Counted<W>,
) -> Result<(), TraceFault>
    requires workers { 0 < workers }
    requires few { length runs.old ≤ 8 }
    requires countable { AreCountable streaming runs.old }
    requires faults { faults_of writer.old < 2 ^ 63 }
    ensures books { map played_book runs.new ≡ map played_book runs.old }
    ensures ok { OnOk result (IsWritten (side W.contents writer.old writer.new)
        (runs_text streaming runs.old)) }
    ensures err { IfErr result (IsUnwritten (side W.contents writer.old writer.new)
        (runs_text streaming runs.old)) }
{
    let written = match streaming {
        Streaming::Trace => write_slices_apart(rt, workers, runs, texts, writer),
        Streaming::Events => write_event_slices(runs, texts, writer),
    };
    match written {
        Ok(()) => Ok(()),
        Err(fault) => Err(TraceFault::Write {
            written: fault.written,
        }),
    }
}

/// Writes the text of books in this room while their ticks are made. Takes no memory.
fn write_in<W: Write, X: Threads + Sync>(
    rt: &X,
    workers: usize,
    streaming: Streaming,
    books: Vec<PlayingBook>,
    room: Room,
    writer: &mut Counted<W>,
) -> Sent
    requires workers { 0 < workers }
    requires ready { AreReady books.items }
    requires logged_run { AreLogging (needs_log streaming) books.items }
    requires room { IsRoomFor books.items room }
    requires faults { faults_of writer.old < 2 ^ 63 }
    ensures books { played_books result.books.items ≡ played_books books.items }
    ensures ok { OnOk result.written (IsWritten (side W.contents writer.old writer.new)
        (streamed_text streaming (played_histories books.items))) }
    ensures err { IfErr result.written (IsUnwritten (side W.contents writer.old writer.new)
        (streamed_text streaming (played_histories books.items))) }
{
    let Room {
        names,
        mut runs,
        books: mut home,
        texts,
    } = room;
    play_books(books, names, &mut runs);
    let written = write_runs(rt, workers, streaming, runs.as_mut_slice(), texts, writer);
    take_books(runs, &mut home);
    Sent {
        books: home,
        written,
    }
}

/// Writes the text of books while their ticks are made. What needs memory is made before the first
/// byte.
fn write_books<W: Write, X: Threads + Sync>(
    rt: &X,
    alloc: Global,
    workers: usize,
    streaming: Streaming,
    books: Vec<PlayingBook>,
    writer: &mut Counted<W>,
) -> Sent
    requires workers { 0 < workers }
    requires ready { AreReady books.items }
    requires logged_run { AreLogging (needs_log streaming) books.items }
    requires faults { faults_of writer.old < 2 ^ 63 }
    ensures books { played_books result.books.items ≡ played_books books.items }
    ensures ok { OnOk result.written (IsWritten (side W.contents writer.old writer.new)
        (streamed_text streaming (played_histories books.items))) }
    ensures err { IfErr result.written (IsUnwritten (side W.contents writer.old writer.new)
        (streamed_text streaming (played_histories books.items))) }
{
    match room_for(alloc, &books) {
        Ok(room) => write_in(rt, workers, streaming, books, room, writer),
        Err(error) => Sent {
            books,
            written: Err(error.into()),
        },
    }
}

/// Writes the text of a run that is begun, and ends its session. If all is written, the books are
/// closed. If not, the session is shut, and its tickets go home.
fn write_begun<N: Names, W: Write, X: Threads + Sync>(
    rt: &X,
    alloc: Global,
    workers: usize,
    streaming: Streaming,
    begun: RunBegun<N>,
    writer: &mut Counted<W>,
) -> Result<Report, TraceFault>
    requires workers { 0 < workers }
    requires ready { AreReady begun.books.items }
    requires logged_run { AreLogging (needs_log streaming) begun.books.items }
    requires same { played_books begun.books.items ≡ begun.rest.books }
    requires faults { faults_of writer.old < 2 ^ 63 }
    ensures report { IfOk result (λ r. IsSessionReport N.id begun.rest.clients r) }
    ensures histories { IfOk result
        (λ r. r.histories.items ≡ map section_of begun.rest.books) }
    ensures ok { OnOk result (IsWritten (side W.contents writer.old writer.new)
        (streamed_text streaming (map section_of begun.rest.books))) }
    ensures err { IfErr result (IsUnwritten (side W.contents writer.old writer.new)
        (streamed_text streaming (map section_of begun.rest.books))) }
{
    let RunBegun { books, rest } = begun;
    let Sent { books, written } = write_books(rt, alloc, workers, streaming, books, writer);
    match written {
        Ok(()) => Ok(finish_end(alloc, books, rest)),
        Err(fault) => {
            shut_end(books, rest);
            Err(fault)
        }
    }
}

/// Lets client 1 enter an advance of the whole duration, in microseconds, as the last entry of each
/// book, and writes the text while its ticks are made; for a trace those of up to `workers` domains
/// side by side. Neither the switches nor what happens is kept.
pub(crate) fn write_streamed<N: Names, W: Write, X: Threads + Sync>(
    rt: &X,
    alloc: Global,
    workers: usize,
    streaming: Streaming,
    asked: Asked<'_, N>,
    duration: u64,
    writer: &mut Counted<W>,
) -> Result<Report, SessionFault>
    requires workers { 0 < workers }
    requires asked { HaveAsked N.id asked.tasks.now asked.clients.items asked.refused.items }
    requires duration { duration ≤ max_advance }
    requires faults { faults_of writer.old < 2 ^ 63 }
    ensures ok { IfOk result (IsRunWritten N.id asked.entry.tasks.now duration
        (streamed_print streaming) (side W.contents writer.old writer.new)) }
    ensures err { IfErr result (IsRunUnwritten N.id asked.entry.tasks.now duration
        (streamed_print streaming) (side W.contents writer.old writer.new)) }
{
    let Asked {
        session,
        clients,
        tasks: _,
        refused,
    } = asked;
    let begun = begin_end(alloc, session, clients, duration, streaming.needs_log())?;
    let mut report = write_begun(rt, alloc, workers, streaming, begun, writer)?;
    report.refused = refused;
    Ok(report)
}
