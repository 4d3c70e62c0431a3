//! The books of a session while their advance is made and written: each book with the names of its
//! tasks, and the CPUs of the machine that are its own.

ghost use Rattle.std.specs.Prelude.{◌≡◌, ◌+◌, ◌<◌, ◌≤◌, IsTrue, false, true, [], length, map, vec_capacity, All, IfOk, IfNone, IfSome};
ghost use Rattle.std.specs.List.{AllZip};
ghost use Rattle.calls_text.specs.Limits.{IsSection};
ghost use Rattle.calls_text.specs.Histories.{IsLegal};
ghost use Rattle.switch_text.specs.Names.{name_of_task, SameNames};
ghost use Rattle.switch_text.specs.Runs.{IsPrintable};
ghost use Rattle.switch_text.specs.SlicedEvents.{is_logged_by, logged_runs, whole_logged_run, without_fronts, IsAllAtHand};
ghost use Rattle.switch_text.specs.SlicedTrace.{whole_of, wholes, without_first};
ghost use Rattle.switch_text.specs.EventLines.{IsLogged};
ghost use Rattle.switch_text.specs.LoggedLine.{has_line};
ghost use Rattle.call_book.specs.Book.{BookView};
ghost use Rattle.call_book.specs.Playing.{HasWholeRun};
ghost use Rattle.calls_trace.specs.Replay.{run_view, runs_from};
ghost use Rattle.calls_trace.specs.DomainEvents.{logged_from};
ghost use Rattle.session.specs.Begun.{section_of, played_books};
ghost use Rattle.dl_session.specs.private.PlayedBooks.{played_slices, played_events, played_book, played_histories, logged_at, IsNamedBook, AreLogging, AreReady, IsRoomFor, LogsAll};

use crate::played::PlayedRun;
use call_book::{NoMemory, PlayingBook};
use calls_trace::names_of_history;
use indexmap::IndexMap;
use std::alloc::Global;
use switch_text::{DomainEvents, EventSlices, Run, Slices, TraceRoom};

impl PlayedRun {
    /// A book, with the CPU of the machine that is its domain's CPU 0.
    fn of(base: u32, names: IndexMap<u32, String>, book: PlayingBook) -> PlayedRun
        requires inside { base + book.book.cpus ≤ 512 }
        requires named { IsNamedBook book.book names }
        requires section { IsSection (section_of book.book) }
        requires unlogged { book.logged ≡ [] }
        requires has_logged { LogsAll book }
        ensures book { played_book result ≡ book.book }
        ensures whole { HasWholeRun book
            → whole_of (played_slices result) ≡ run_view base (section_of book.book) }
        ensures logged { (whole_logged_run (played_events result)).logged
            ≡ logged_at book.logs base (section_of book.book) }
    {
        // For the prover alone: a look at the CPUs and the state brings what every book keeps.
        let _ = book.cpus();
        let _ = book.state();
        PlayedRun { base, names, book }
    }

    /// The book.
    fn into_book(self) -> PlayingBook
        ensures { result.book ≡ played_book self }
    {
        let PlayedRun {
            base: _,
            names: _,
            book,
        } = self;
        book
    }

    /// Makes more switches, until there is room for no more or nothing is left. Up to which time
    /// the run is made then, if anything is left of it.
    fn make_more(&mut self) -> Option<u64>
        ensures whole { whole_of (played_slices self.new) ≡ whole_of (played_slices self.old) }
        ensures none { IfNone result ((played_slices self.new).to_come ≡ []) }
        ensures some { IfSome result (λ _. 0 < length (played_slices self.new).at_hand) }
        ensures past { IfSome result
            (λ time. All (λ s. s.time < time) (played_slices self.new).at_hand) }
        ensures later { IfSome result
            (λ time. All (λ s. time ≤ s.time) (played_slices self.new).to_come) }
        ensures kept { played_book self.new ≡ played_book self.old }
    {
        if !self.book.fill() {
            return None;
        }
        let state = self.book.state();
        Some(state.now())
    }

    /// Makes more switches, and more of what happens, until there is room for no more or nothing is
    /// left. Up to which time the run is made then, if anything is left of it.
    fn make_logged(&mut self) -> Option<u64>
        ensures whole { whole_logged_run (played_events self.new)
            ≡ whole_logged_run (played_events self.old) }
        ensures none { IfNone result (IsAllAtHand (played_events self.new)) }
        ensures some { IfSome result (λ _. 0
            < length (played_events self.new).at_hand + length (played_events self.new).logged) }
        ensures past { IfSome result
            (λ time. All (λ s. s.time < time) (played_events self.new).at_hand) }
        ensures logged { IfSome result
            (λ time. All (λ h. IsTrue (is_logged_by time h)) (played_events self.new).logged) }
        ensures later { IfSome result
            (λ time. All (λ s. time ≤ s.time) (played_events self.new).to_come) }
        ensures unlogged { IfSome result
            (λ time. All (λ h. is_logged_by time h ≡ false) (played_events self.new).to_log) }
        ensures kept { played_book self.new ≡ played_book self.old }
    {
        if !self.book.fill_logged() {
            return None;
        }
        // For the prover alone: a look at what is logged brings that it is logged by now.
        let _ = self.book.logged();
        let state = self.book.state();
        Some(state.now())
    }

    /// Forgets the first `switches` of the switches at hand, and the first `logged` of what is
    /// logged.
    fn forget_fronts(&mut self, switches: usize, logged: usize)
        ensures rest { played_events self.new
            ≡ without_fronts switches logged (played_events self.old) }
        ensures kept { played_book self.new ≡ played_book self.old }
    {
        self.book.forget_front(switches);
        self.book.forget_logged(logged);
    }

    /// Forgets the first `count` of the switches at hand.
    fn forget_first(&mut self, count: usize)
        ensures rest { played_slices self.new ≡ without_first count (played_slices self.old) }
        ensures kept { played_book self.new ≡ played_book self.old }
    {
        self.book.forget_front(count);
    }

    /// The switches at hand, as they are written.
    fn as_written(&self) -> Run<'_>
        ensures run { IsPrintable result }
        ensures base { result.base ≡ self.now.base }
        ensures switches { result.switches.now ≡ self.now.book.at.switches }
        ensures names { All
            (SameNames (name_of_task result.names.now) (name_of_task self.now.names))
            result.switches.now }
    {
        let state = self.book.state();
        Run {
            base: self.base,
            names: &self.names,
            switches: state.switches(),
        }
    }

    /// What is logged, as it is written.
    fn as_logged(&self) -> DomainEvents<'_>
        ensures logged { IsLogged result }
        ensures lines { All (λ h. IsTrue (has_line h.what)) result.happened.now }
        ensures base { result.base ≡ self.now.base }
        ensures happened { result.happened.now ≡ self.now.book.logged }
        ensures names { All
            (λ h. name_of_task result.names.now h.number ≡ name_of_task self.now.names h.number)
            result.happened.now }
    {
        DomainEvents {
            base: self.base,
            names: &self.names,
            happened: self.book.logged(),
        }
    }
}

impl Slices for PlayedRun {
    ghost use Rattle.call_book.specs.Book.{BookView};
    ghost use Rattle.dl_session.specs.private.PlayedBooks.{played_slices, played_book};

    ghost sliced = { played_slices };

    ghost Kept = { BookView };

    ghost kept = { played_book };

    fn fill(&mut self) -> Option<u64> {
        self.make_more()
    }

    fn forget_front(&mut self, count: usize) {
        self.forget_first(count);
    }

    fn slice(&self) -> Run<'_> {
        self.as_written()
    }
}

impl EventSlices for PlayedRun {
    ghost use Rattle.call_book.specs.Book.{BookView};
    ghost use Rattle.dl_session.specs.private.PlayedBooks.{played_events, played_book};

    ghost sliced = { played_events };

    ghost Kept = { BookView };

    ghost kept = { played_book };

    fn fill(&mut self) -> Option<u64> {
        self.make_logged()
    }

    fn forget_front(&mut self, switches: usize, logged: usize) {
        self.forget_fronts(switches, logged);
    }

    fn slice(&self) -> Run<'_> {
        self.as_written()
    }

    fn logged(&self) -> DomainEvents<'_> {
        self.as_logged()
    }
}

/// What books need while they are written: the names of their tasks, room for the books there and
/// back, and room for the texts of tasks.
pub(crate) struct Room {
    pub(crate) names: Vec<IndexMap<u32, String>>,
    pub(crate) runs: Vec<PlayedRun>,
    pub(crate) books: Vec<PlayingBook>,
    pub(crate) texts: TraceRoom,
}

/// The names of the tasks of a book, by number.
fn names_in_book(alloc: Global, book: &PlayingBook) -> Result<IndexMap<u32, String>, NoMemory>
    requires section { IsSection (section_of book.now.book) }
    requires legal { let s = section_of book.now.book in IsLegal s.cpus s.limit s.entries }
    ensures { IfOk result (IsNamedBook book.now.book) }
{
    names_of_history(alloc, book.entries())
}

/// The names of the tasks of each book.
fn names_in_books(
    alloc: Global,
    books: &[PlayingBook],
) -> Result<Vec<IndexMap<u32, String>>, NoMemory>
    requires { AreReady books.now }
    ensures { IfOk result (λ v. AllZip IsNamedBook (played_books books.now) v.items) }
{
    let mut all = Vec::with_capacity(alloc, books.len())?;
    for place in 0..books.len() {
        all.push_reserved(names_in_book(alloc, &books[place])?);
    }
    Ok(all)
}

/// All room that is needed while these books are written.
pub(crate) fn room_for(alloc: Global, books: &[PlayingBook]) -> Result<Room, NoMemory>
    requires { AreReady books.now }
    ensures { IfOk result (IsRoomFor books.now) }
{
    let names = names_in_books(alloc, books)?;
    let Ok(texts) = TraceRoom::open(alloc) else {
        return Err(NoMemory);
    };
    let Ok(runs) = Vec::with_capacity(alloc, books.len()) else {
        return Err(NoMemory);
    };
    let Ok(home) = Vec::with_capacity(alloc, books.len()) else {
        runs.destroy_empty();
        return Err(NoMemory);
    };
    Ok(Room {
        names,
        runs,
        books: home,
        texts,
    })
}

/// Gives each book its names and its CPUs of the machine: the first has the first ones, the second
/// the next ones, and so on.
pub(crate) fn play_books(
    books: Vec<PlayingBook>,
    names: Vec<IndexMap<u32, String>>,
    runs: &mut Vec<PlayedRun>,
)
    requires ready { AreReady books.items }
    requires named { AllZip IsNamedBook (played_books books.items) names.items }
    requires empty { runs.old.items ≡ [] }
    requires room { length books.items ≤ vec_capacity runs.old }
    ensures books { map played_book runs.new.items ≡ played_books books.items }
    ensures whole { wholes (map played_slices runs.new.items)
        ≡ runs_from 0 (played_histories books.items) }
    ensures logged { AreLogging true books.items
        → map (λ r. r.logged) (logged_runs (map played_events runs.new.items))
        ≡ logged_from 0 (played_histories books.items) }
{
    let mut base = 0;
    let mut names = names.into_iter();
    let mut rest = books.into_iter();
    while let Some(book) = rest.next() {
        let cpus = book.cpus();
        let named = names.next().unwrap();
        runs.push_reserved(PlayedRun::of(base, named, book));
        base += cpus;
    }
    rest.destroy_empty();
}

/// Takes the books out of their runs.
pub(crate) fn take_books(runs: Vec<PlayedRun>, books: &mut Vec<PlayingBook>)
    requires empty { books.old.items ≡ [] }
    requires room { length runs.items ≤ vec_capacity books.old }
    ensures { played_books books.new.items ≡ map played_book runs.items }
{
    let mut rest = runs.into_iter();
    while let Some(played) = rest.next() {
        books.push_reserved(played.into_book());
    }
    rest.destroy_empty();
}
