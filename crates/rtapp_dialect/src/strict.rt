ghost use Rattle.std.specs.Prelude.{◌≡◌, None, length, IfErr, IfOk, OnOk};
ghost use Rattle.rtapp_dialect.specs.Places.{origin_at, KeepsOrBlanks, KeepsOrder, LeadsInto};
ghost use Rattle.rtapp_dialect.specs.Strict.{strict_of, inserted_in, KeepsStrict};
ghost use Rattle.rtapp_dialect.specs.Comments.{IsCommentFault, unended_comment};

use crate::comments::blank_comments;
use crate::fault::DialectFault;
use crate::filling::fill;
use crate::insertion::Insertion;
use std::alloc::Global;

/// The strict text of a file.
#[derive(Drop)]
pub struct StrictText {
    /// The text: what `json_order` may read.
    pub text: Vec<u8>,
    /// Where bytes were inserted to make it, in the order of their places.
    pub insertions: Vec<Insertion>,
}

/// The offset before the insertions that the byte at an offset comes from.
fn origin_of(insertions: &[Insertion], offset: usize) -> usize
    ensures { result ≡ origin_at insertions.now offset }
{
    let mut offset = offset;
    for insertion in insertions {
        if offset < insertion.at {
            return offset;
        }
        if offset - insertion.at < insertion.len {
            return insertion.at;
        }
        offset -= insertion.len;
    }
    offset
}

impl StrictText {
    /// The offset in the file, from 0, of the byte at an offset of the strict text. A byte that was
    /// inserted has the offset of the byte that follows the insertion.
    pub fn origin(&self, offset: usize) -> usize
        ensures { result ≡ origin_at self.now.insertions.items offset }
    {
        origin_of(&self.insertions, offset)
    }
}

/// The strict text of a file in rt-app's dialect: comments are white space, a comma before a
/// closing bracket is a space, and a key without a value has `null`. Other bytes stay as they are,
/// so that what is no JSON otherwise is none in the strict text. A file in strict JSON is its own
/// strict text.
///
/// # Errors
/// [`DialectFault::Comment`]: a comment `/*` has no end. [`DialectFault::Memory`]: a growth was
/// refused.
pub fn strict_text(alloc: Global, file: &[u8]) -> Result<StrictText, DialectFault>
    ensures text { IfOk result (λ s. s.text.items ≡ strict_of file.now) }
    ensures insertions { IfOk result (λ s. s.insertions.items ≡ inserted_in file.now) }
    ensures ended { OnOk result (unended_comment file.now ≡ None) }
    ensures bytes { IfOk result (λ s.
        KeepsOrBlanks file.now s.text.items s.insertions.items) }
    ensures order { IfOk result (λ s. KeepsOrder s.insertions.items) }
    ensures within { IfOk result (λ s.
        LeadsInto s.insertions.items (length s.text.items) (length file.now)) }
    ensures fault { IfErr result (IsCommentFault file.now) }
    ensures strict { KeepsStrict file.now result }
{
    let blanked = blank_comments(alloc, file)?;
    let filled = fill(alloc, &blanked)?;
    Ok(StrictText {
        text: filled.text,
        insertions: filled.insertions,
    })
}
