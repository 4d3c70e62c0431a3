//! The calls of a section of a calls text, one after the other.

ghost use Rattle.std.specs.Prelude.{◌<◌, ◌≤◌, ℕ, List, Ok, IfOk, IfSome};
ghost use Rattle.calls_text.specs.SectionView.{SectionView};
ghost use Rattle.calls_text.specs.Limits.{IsCall};
ghost use Rattle.calls_text.specs.KeptCall.{IsNextKept, call_kept};
ghost use Rattle.calls_text.specs.Reader.{IsWithin, bytes_left};

use calls_text::{CallsReader, Kept, Reused};
use domain_run::NoMemory;
use std::alloc::Global;

/// The next call of a section; none after its last one.
#[inline(always)]
pub(crate) fn next_of<'t>(
    alloc: Global,
    reader: &mut CallsReader<'t>,
    reused: &mut Reused<'t>,
) -> Result<Option<Kept>, NoMemory>
    ensures next { (text : List ℕ) (before : List SectionView) (section : SectionView)
        → IsWithin text before section reader.old
        → IfOk result (λ found. IsNextKept text before section reader.new (Ok found)) }
    ensures call { IfOk result (λ found. IfSome found (λ kept. IsCall (call_kept kept))) }
    ensures less { IfOk result
        (λ found. IfSome found (λ _. bytes_left reader.new < bytes_left reader.old)) }
    ensures never_more { bytes_left reader.new ≤ bytes_left reader.old }
{
    match reader.next_kept(alloc, reused) {
        Ok(found) => Ok(found),
        Err(_) => Err(NoMemory),
    }
}
