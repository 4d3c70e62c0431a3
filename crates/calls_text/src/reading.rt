ghost use Rattle.std.specs.Prelude.{◌≡◌, ℕ, List, IfOk, IfErr, IsErrOf, MatchResult, ◌⊎◌};
ghost use Rattle.calls_text.specs.SectionView.{SectionView};
ghost use Rattle.calls_text.specs.Spelling.{spelling};
ghost use Rattle.calls_text.specs.Limits.{AreRead};
ghost use Rattle.calls_text.specs.BadLine.{IsBadLine, IsReadFault};

use crate::calls_reader::CallsReader;
use crate::fault::CallsFault;
use crate::section::Section;
use std::alloc::Global;

/// The sections that a whole calls text spells.
fn whole_text(alloc: Global, text: &[u8]) -> Result<Vec<Section>, CallsFault>
    ensures found { IfOk result (λ v. AreRead v.items × (text.now ≡ spelling v.items)) }
    ensures fault { IfErr result (IsReadFault text.now) }
{
    let mut reader = CallsReader::open(text)?;
    let mut sections = Vec::new(alloc);
    while let Some((cpus, limit)) = reader.next_domain()? {
        let entries = reader.entries(alloc)?;
        let section = Section {
            cpus,
            limit,
            entries,
        };
        match sections.push(section) {
            Ok(()) => {}
            Err(_) => return Err(CallsFault::Memory),
        }
    }
    Ok(sections)
}

/// The 1 to 8 sections that a calls text spells, in one pass over the text. A text with the header
/// `dlcalls 2` changes the limit of a domain, or has a task that goes to another domain or comes
/// from one; a text with `dlcalls 1` has none of these. Entries have no reply, and in each section
/// each client's are numbered 0, 1, 2, .. in their order.
///
/// # Errors
/// 30 [`CallsFault::BadLine`]: the first line, from 1, at which the text stops being a front of
/// whole lines of a text that is read. 31 [`CallsFault::Memory`]: a growth was refused; it may come
/// before any bad line.
pub fn read_calls(alloc: Global, text: &[u8]) -> Result<Vec<Section>, CallsFault>
    // What is read is spelled so.
    ensures found { IfOk result (λ v. AreRead v.items × (text.now ≡ spelling v.items)) }
    // What is spelled so is read, unless memory runs out.
    ensures only { (sections : List SectionView) → AreRead sections → text.now ≡ spelling sections
        → MatchResult result (λ v. v.items ≡ sections) (λ e. e ≡ CallsFault.Memory) }
    // The line of a fault is the bad one.
    ensures fault { IfErr result (IsReadFault text.now) }
    // A text with a bad line is refused with this line, unless memory runs out.
    ensures bad { (n : ℕ) → IsBadLine text.now n
        → IsErrOf result (CallsFault.BadLine n) ⊎ IsErrOf result CallsFault.Memory }
{
    whole_text(alloc, text)
}
