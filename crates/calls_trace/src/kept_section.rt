//! A section that is read whole before its switches are made. The calls before its first advance
//! make none, so they are made as they are read. The others are kept in little room.

ghost use Rattle.std.specs.Prelude.{◌≡◌, ◌≤◌, ℕ, false, List, IfOk, OnOk};
ghost use Rattle.calls_text.specs.SectionView.{SectionView};
ghost use Rattle.calls_text.specs.Limits.{IsCall};
ghost use Rattle.calls_text.specs.KeptCall.{call_kept};
ghost use Rattle.calls_text.specs.Reader.{IsWithin, empty_section, bytes_left};
ghost use Rattle.calls_trace.specs.private.Calls.{ticks_given};
ghost use Rattle.calls_trace.specs.private.Kept.{IsReadSection, KeepsCalls, IsOneMore, IsMadeOrKept};
ghost use Rattle.calls_trace.specs.private.ReadRuns.{IsBegun};

use crate::kept::KeptCalls;
use crate::named_run::RunWithNames;
use crate::read_runs::next_of;
use calls_text::{CallsReader, Kept, Reused};
use domain_run::{Call, NoMemory};
use std::alloc::Global;

/// A domain after the calls before the first advance, and the calls from the advance on.
#[derive(Drop)]
pub(crate) struct KeptSection {
    /// CPUs of the domain.
    pub(crate) cpus: u32,
    pub(crate) run: RunWithNames,
    pub(crate) calls: KeptCalls,
}

/// Whether a call is an advance.
#[inline(always)]
fn is_advance(kept: &Kept) -> bool
    ensures { result ≡ false → ticks_given (call_kept kept.now) ≡ 0 }
{
    match kept {
        Kept::Advance { .. } => true,
        Kept::Long(call) => matches!(**call, Call::Advance { .. }),
        _ => false,
    }
}

impl KeptSection {
    /// One call more: it is made, or kept after an advance.
    #[inline(always)]
    fn take(&mut self, alloc: Global, kept: Kept, reused: &mut Reused<'_>) -> Result<(), NoMemory>
        requires call { IsCall (call_kept kept) }
        requires kept { KeepsCalls self.old }
        ensures one { OnOk result (IsOneMore self.old (call_kept kept) self.new) }
        ensures taken { OnOk result (IsMadeOrKept self.old (call_kept kept) self.new) }
    {
        if self.calls.is_empty() && !is_advance(&kept) {
            self.run.make_kept(alloc, kept, reused)?;
            return Ok(());
        }
        self.calls.push(alloc, kept, reused)?;
        Ok(())
    }
}

/// The section that a reader has begun, of which it has read no call yet.
pub(crate) fn section_read(
    alloc: Global,
    cpus: u32,
    limit: u64,
    reader: &mut CallsReader<'_>,
) -> Result<KeptSection, NoMemory>
    requires begun { IsBegun cpus limit reader.old }
    ensures read { (text : List ℕ) (before : List SectionView)
        → IsWithin text before (empty_section cpus limit) reader.old
        → IfOk result (IsReadSection text before reader.new) }
    ensures never_more { bytes_left reader.new ≤ bytes_left reader.old }
{
    let mut section = KeptSection {
        cpus,
        run: RunWithNames::open(alloc, cpus, limit, false)?,
        calls: KeptCalls::new(alloc),
    };
    let mut reused = Reused::none();
    // Both are let go of by one call: their parts would be written out on each way.
    'calls: while let Some(kept) = match next_of(alloc, reader, &mut reused) {
        Ok(found) => found,
        Err(error) => {
            drop(reused);
            drop(section);
            return Err(error);
        }
    } {
        if let Err(error) = section.take(alloc, kept, &mut reused) {
            drop(reused);
            drop(section);
            return Err(error);
        }
    }
    drop(reused);
    Ok(section)
}
