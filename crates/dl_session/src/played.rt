//! A book whose advance is made while its switches, or also what happens, are written.

ghost use Rattle.std.specs.Prelude.{◌+◌, ◌≤◌};
ghost use Rattle.call_book.specs.Playing.{all_logged};
ghost use Rattle.dl_session.specs.private.Named.{AreAllNamed};
ghost use Rattle.dl_session.specs.private.Tellable.{IsTellable};

use call_book::PlayingBook;
use indexmap::IndexMap;

/// The book of a domain whose advance is made while its switches, or also what happens, are
/// written. Like the book it is neither cloned nor dropped.
pub(crate) struct PlayedRun {
    /// The CPU of the machine that is the domain's CPU 0.
    pub(crate) base: u32,
    /// The names of all tasks of the history, by number.
    pub(crate) names: IndexMap<u32, String>,
    pub(crate) book: PlayingBook,
    ghost inside: { base + book.at.cpus ≤ 512 },
    ghost named: { AreAllNamed book.at.used names },
    ghost tellable: { IsTellable base names (all_logged book) },
}
