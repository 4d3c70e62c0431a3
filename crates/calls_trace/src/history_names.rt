//! The names of the tasks of a history, for a caller that makes its run piece by piece.

ghost use Rattle.std.specs.Prelude.{◌≡◌, IfOk};
ghost use Rattle.calls_text.specs.SectionView.{SectionView};
ghost use Rattle.calls_text.specs.Limits.{IsSection};
ghost use Rattle.calls_text.specs.Histories.{IsLegal};
ghost use Rattle.calls_trace.specs.HistoryNames.{AreNamesOf};

use crate::named_run::names_given;
use calls_text::Entry;
use domain_run::NoMemory;
use indexmap::IndexMap;
use std::alloc::Global;

/// The names of the tasks of a history, by number: those that its trace shows. The replies of a
/// legal history give them, so no call is made again.
///
/// # Errors
/// [`NoMemory`] (ENOMEM 12): a growth was refused.
pub fn names_of_history(alloc: Global, entries: &[Entry]) -> Result<IndexMap<u32, String>, NoMemory>
    ensures { (s : SectionView) → s.entries ≡ entries.now → IsSection s
        → IsLegal s.cpus s.limit s.entries → IfOk result (AreNamesOf s) }
{
    names_given(alloc, entries)
}
