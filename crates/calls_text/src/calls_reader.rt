//! A calls text that is read call by call.

ghost use Rattle.std.specs.Prelude.{◌≡◌, ◌+◌, ◌-◌, ◌≤◌, ℕ, slice_index, slice_set, IfOk, IfErr};
ghost use Rattle.calls_text.specs.Limits.{IsClient};
ghost use Rattle.calls_text.specs.private.Reading.{PartFails, known_at, IsNext};
ghost use Rattle.calls_text.specs.private.Numbered.{numbered_entry, IsNextNumbered};
ghost use Rattle.limits.specs.Limits.{max_history};

use crate::cut::cut_line;
use crate::fault::{CallsFault, PartFault};
use crate::header::header_of;
use crate::kept_call::Kept;
use crate::line_text::{domain_of, known_call};
use crate::reused::Reused;
use crate::section::Entry;
use std::alloc::Global;
use std::marker::Model;

/// The most calls of a section.
const MOST_CALLS: u64 = 65536;
/// The most sections of a text.
const MOST_SECTIONS: u64 = 8;

/// Counts a call of a client, and answers how many it made before.
fn counted(made: &mut [u64; 64], client: u32) -> u64
    requires client { IsClient client }
    requires few { (k : ℕ) → slice_index made.old k ≤ max_history }
    ensures seq { result ≡ slice_index made.old (client - 1) }
    ensures made { made.new ≡ slice_set made.old (client - 1) (result + 1) }
{
    let place = client as usize - 1;
    let seq = made[place];
    made[place] = seq + 1;
    seq
}

/// A call that was read, its client, and how many calls the client made before it.
#[derive(Drop)]
struct Numbered {
    client: u32,
    seq: u64,
    kept: Kept,
}

impl Numbered {
    ghost use Rattle.calls_text.specs.private.Numbered.{numbered_entry};

    /// The entry of the call.
    fn into_entry(self, reused: &mut Reused<'_>) -> Entry
        ensures { result ≡ numbered_entry self }
    {
        let Numbered { client, seq, kept } = self;
        Entry {
            client,
            seq,
            call: reused.into_call(kept),
            reply: None,
        }
    }
}

/// The call of a line, after so many calls of each client. `later` says whether the header is that
/// of calls of the second form.
#[inline(always)]
fn numbered_of<'t>(
    alloc: Global,
    line: &'t [u8],
    later: bool,
    made: &mut [u64; 64],
    reused: &mut Reused<'t>,
) -> Result<Numbered, PartFault>
    requires { (k : ℕ) → slice_index made.old k ≤ max_history }
    ensures found { IfOk result (λ n. IsNext later line.now made.old (numbered_entry n)) }
    ensures made { IfOk result (λ n. made.new ≡ slice_set made.old (n.client - 1) (n.seq + 1)) }
    ensures kept { IfErr result (λ _. made.new ≡ made.old) }
    ensures fault { IfErr result (λ e. PartFails e (known_at later line.now)) }
{
    let (client, kept) = known_call(alloc, line, later, reused)?;
    Ok(Numbered {
        client,
        seq: counted(made, client),
        kept,
    })
}

/// A calls text that is read call by call, so that each call can be made, and let go, before the
/// next is read: [`CallsReader::next_domain`] begins a section, [`CallsReader::next_entry`] reads
/// its entries, until it answers none, or [`CallsReader::next_kept`] their calls alone. Both take
/// what earlier calls leave to be used again ([`Reused`]). What stands after the last section that
/// was read may still be bad: that a text is one is known where [`CallsReader::next_domain`]
/// answers none.
#[derive(Drop)]
pub struct CallsReader<'t> {
    /// The text after what was read.
    rest: &'t [u8],
    /// Whether the header is that of calls of the second form.
    later: bool,
    /// Whether a call so far is of the second form.
    found_later: bool,
    /// Sections so far.
    sections: u64,
    /// Their lines.
    lines: u64,
    /// Calls of the last of them.
    calls: u64,
    /// How many of these each client made.
    made: [u64; 64],
}

impl<'t> Model for CallsReader<'t> {
    ghost use Rattle.calls_text.specs.Reader.{ReaderView};
    ghost use Rattle.calls_text.specs.private.Counting.{IsCounting};

    ghost Value = { ReaderView };

    ghost view = { λ r. record {
      rest = r.rest.now;
      later = r.later;
      found_later = r.found_later;
      sections = r.sections;
      lines = r.lines;
      calls = r.calls;
      made = r.made;
    } };

    ghost invariant = { λ r. IsCounting r.sections r.lines r.calls r.made };
}

impl<'t> CallsReader<'t> {
    ghost use Rattle.std.specs.Prelude.{◌<◌, [], List, None, length, IfSome};
    ghost use Rattle.calls_text.specs.SectionView.{SectionView};
    ghost use Rattle.calls_text.specs.Limits.{IsCall, IsEntry};
    ghost use Rattle.calls_text.specs.BadLine.{IsReadFault};
    ghost use Rattle.calls_text.specs.Reader.{IsAfter, IsWithin, IsNextDomain, IsNextEntry, AreOthers, bytes_left};
    ghost use Rattle.calls_text.specs.KeptCall.{IsNextKept, call_kept};
    ghost use Rattle.calls_text.specs.private.Reading.{LacksDomain, bad_place, is_stuck, is_whole_text};

    /// A reader after the header of a text.
    ///
    /// # Errors
    /// 30 [`CallsFault::BadLine`] where the text has no header: line 1 is bad.
    pub fn open(text: &'t [u8]) -> Result<CallsReader<'t>, CallsFault>
        // It has read no section.
        ensures following { IfOk result (IsAfter text.now []) }
        ensures fault { IfErr result (IsReadFault text.now) }
    {
        let Some((header, rest)) = cut_line(text) else {
            return Err(CallsFault::BadLine { n: 1 });
        };
        let Some(later) = header_of(header) else {
            return Err(CallsFault::BadLine { n: 1 });
        };
        Ok(CallsReader {
            rest,
            later,
            found_later: false,
            sections: 0,
            lines: 0,
            calls: 0,
            made: [0; 64],
        })
    }

    /// Begins the next section: its CPUs and its limit; none after the last one, where the text is
    /// whole. The entries of the section before it are read, until none came.
    ///
    /// # Errors
    /// As [`read_calls`](crate::read_calls), where no section follows and the text is none that is
    /// read. The reader stays as it was.
    pub fn next_domain(&mut self) -> Result<Option<(u32, u64)>, CallsFault>
        // After sections of a text a section begins, or they are all of it, or it has a bad line.
        ensures next { (text : List ℕ) (done : List SectionView) → IsAfter text done self.old
            → IsNextDomain text done self.new result }
        // Where a section begins, less is left.
        ensures less { IfOk result
            (λ found. IfSome found (λ _. bytes_left self.new < bytes_left self.old)) }
    {
        if self.sections == MOST_SECTIONS {
            return self.end();
        }
        let Some((line, entries)) = cut_line(self.rest) else {
            return self.end();
        };
        match domain_of(line) {
            Ok((cpus, limit)) => {
                self.sections += 1;
                self.lines += 1;
                self.calls = 0;
                self.made = [0; 64];
                self.rest = entries;
                Ok(Some((cpus as u32, limit)))
            }
            Err(PartFault::Bad) => self.end(),
            Err(PartFault::Memory) => Err(CallsFault::Memory),
        }
    }

    /// The next call of the section, as it is numbered; none after its last one.
    #[inline(always)]
    fn next_numbered(
        &mut self,
        alloc: Global,
        reused: &mut Reused<'t>,
    ) -> Result<Option<Numbered>, CallsFault>
        ensures next { (text : List ℕ) (before : List SectionView) (section : SectionView)
            → IsWithin text before section self.old
            → IsNextNumbered text before section self.new result }
        ensures entry { IfOk result (λ found. IfSome found (λ n. IsEntry (numbered_entry n))) }
        ensures fault { IfErr result (λ e. e ≡ CallsFault.Memory) }
        ensures less { IfOk result
            (λ found. IfSome found (λ _. bytes_left self.new < bytes_left self.old)) }
        ensures never_more { bytes_left self.new ≤ bytes_left self.old }
    {
        if self.calls == MOST_CALLS {
            return Ok(None);
        }
        let Some((line, after)) = cut_line(self.rest) else {
            return Ok(None);
        };
        match numbered_of(alloc, line, self.later, &mut self.made, reused) {
            Ok(numbered) => {
                self.calls += 1;
                self.lines += 1;
                self.found_later |= numbered.kept.is_later();
                self.rest = after;
                Ok(Some(numbered))
            }
            Err(PartFault::Bad) => Ok(None),
            Err(PartFault::Memory) => Err(CallsFault::Memory),
        }
    }

    /// The next entry of the section; none after its last one.
    ///
    /// # Errors
    /// 31 [`CallsFault::Memory`]: a growth was refused. The reader stays as it was.
    #[inline(always)]
    pub fn next_entry(
        &mut self,
        alloc: Global,
        reused: &mut Reused<'t>,
    ) -> Result<Option<Entry>, CallsFault>
        // Within a section the entry is its next one, or it is read to its end.
        ensures next { (text : List ℕ) (before : List SectionView) (section : SectionView)
            → IsWithin text before section self.old
            → IsNextEntry text before section self.new result }
        ensures entry { IfOk result (λ found. IfSome found IsEntry) }
        ensures fault { IfErr result (λ e. e ≡ CallsFault.Memory) }
        // Where one was read, less is left.
        ensures less { IfOk result
            (λ found. IfSome found (λ _. bytes_left self.new < bytes_left self.old)) }
        ensures never_more { bytes_left self.new ≤ bytes_left self.old }
    {
        match self.next_numbered(alloc, reused) {
            Ok(Some(numbered)) => Ok(Some(numbered.into_entry(reused))),
            Ok(None) => Ok(None),
            Err(e) => Err(e),
        }
    }

    /// As [`CallsReader::next_entry`], of the call alone, in little room.
    ///
    /// # Errors
    /// 31 [`CallsFault::Memory`]: a growth was refused. The reader stays as it was.
    #[inline(always)]
    pub fn next_kept(
        &mut self,
        alloc: Global,
        reused: &mut Reused<'t>,
    ) -> Result<Option<Kept>, CallsFault>
        // Within a section it is the call of the next entry, or the section is read to its end.
        ensures next { (text : List ℕ) (before : List SectionView) (section : SectionView)
            → IsWithin text before section self.old
            → IsNextKept text before section self.new result }
        ensures call { IfOk result (λ found. IfSome found (λ kept. IsCall (call_kept kept))) }
        ensures fault { IfErr result (λ e. e ≡ CallsFault.Memory) }
        // Where one was read, less is left.
        ensures less { IfOk result
            (λ found. IfSome found (λ _. bytes_left self.new < bytes_left self.old)) }
        ensures never_more { bytes_left self.new ≤ bytes_left self.old }
    {
        match self.next_numbered(alloc, reused) {
            Ok(Some(numbered)) => Ok(Some(numbered.kept)),
            Ok(None) => Ok(None),
            Err(e) => Err(e),
        }
    }

    /// The other entries of the section, to its end.
    ///
    /// # Errors
    /// 31 [`CallsFault::Memory`]: a growth was refused.
    pub(crate) fn entries(&mut self, alloc: Global) -> Result<Vec<Entry>, CallsFault>
        ensures next { (text : List ℕ) (before : List SectionView) (section : SectionView)
            → IsWithin text before section self.old
            → IfOk result (λ others. AreOthers text before section self.new others.items) }
        ensures never_more { bytes_left self.new ≤ bytes_left self.old }
        ensures fault { IfErr result (λ e. e ≡ CallsFault.Memory) }
    {
        let mut entries = Vec::new(alloc);
        let mut reused = Reused::none();
        // What is let go of goes by one call, not written out with all that is inside.
        'entries: loop {
            match self.next_entry(alloc, &mut reused) {
                Ok(Some(entry)) => match entries.push(entry) {
                    Ok(()) => {}
                    Err(refused) => {
                        drop(refused);
                        drop(reused);
                        drop(entries);
                        return Err(CallsFault::Memory);
                    }
                },
                Ok(None) => {
                    drop(reused);
                    return Ok(entries);
                }
                Err(e) => {
                    drop(reused);
                    drop(entries);
                    return Err(e);
                }
            }
        }
    }

    /// Whether the sections so far are all of the text, and what its header says of them.
    fn is_whole(&self) -> bool
        ensures { (text : List ℕ) (done : List SectionView) → IsAfter text done self.now
            → result ≡ is_whole_text self.now.later self.now.rest done }
    {
        self.rest.is_empty() && self.sections > 0 && (!self.later || self.found_later)
    }

    /// Whether the header is that of calls of the second form, these sections have none, and none
    /// can follow.
    fn is_stuck(&self) -> bool
        ensures { (text : List ℕ) (done : List SectionView) → IsAfter text done self.now
            → result ≡ is_stuck self.now.later done }
    {
        self.later
            && !self.found_later
            && self.sections == MOST_SECTIONS
            && self.calls == MOST_CALLS
    }

    /// The first bad line of a text that goes on after these sections, or has none, or none of the
    /// calls that its header tells of.
    fn bad_line(&self) -> u64
        ensures { (text : List ℕ) (done : List SectionView) → IsAfter text done self.now
            → result ≡ bad_place self.now.later done }
    {
        if self.is_stuck() {
            return self.lines + 1;
        }
        self.lines + 2
    }

    /// What is said of a text where no section follows.
    fn end(&self) -> Result<Option<(u32, u64)>, CallsFault>
        ensures next { (text : List ℕ) (done : List SectionView) → IsAfter text done self.now
            → (length done < 8 → LacksDomain self.now.rest)
            → IsNextDomain text done self.now result }
        ensures none { IfOk result (λ found. found ≡ None) }
    {
        if self.is_whole() {
            return Ok(None);
        }
        Err(CallsFault::BadLine { n: self.bad_line() })
    }
}
