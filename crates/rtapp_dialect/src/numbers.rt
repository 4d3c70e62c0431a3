//! Repeated keys with numbers.

ghost use Rattle.std.specs.Prelude.{◌≡◌, ◌++◌, ◌∷◌, [], decimal, length, IfOk, OnOk};
ghost use Rattle.rtapp_dialect.specs.Places.{KeepsBytes, KeepsOrder, LeadsInto};
ghost use Rattle.rtapp_dialect.specs.Numbers.{keys_numbered, number_inserted, numbers_inserted, KeepsUnrepeated};
ghost use Rattle.rtapp_dialect.specs.Repeats.{repeats_in, key_span, spelled_at};

use crate::insertion::Insertion;
use crate::keys::{Span, spelled};
use crate::repeats::{Repeat, repeated_keys};
use crate::strict::StrictText;
use itoa::Buffer;
use std::alloc::{AllocError, Global};

/// Puts a number, and gives how many digits it has.
fn put_number(out: &mut Vec<u8>, number: usize) -> Result<usize, AllocError>
    ensures text { OnOk result (out.new.items ≡ out.old.items ++ decimal number) }
    ensures len { IfOk result (λ n. n ≡ length (decimal number)) }
{
    let mut buffer = Buffer::new();
    let digits = buffer.format(number).as_bytes();
    out.extend_from_slice(digits)?;
    Ok(digits.len())
}

/// Puts the text from a place up to a repeated key's closing quote, and its number.
fn put_key(
    out: &mut Vec<u8>,
    insertions: &mut Vec<Insertion>,
    text: &[u8],
    start: usize,
    repeat: Repeat,
) -> Result<(), AllocError>
    ensures text { OnOk result (out.new.items ≡ out.old.items
        ++ (spelled_at text.now (key_span start repeat.at) ++ decimal repeat.earlier)) }
    ensures insertions { OnOk result
        (insertions.new.items ≡ insertions.old.items ++ number_inserted repeat ∷ []) }
{
    let before = Span {
        start,
        end: repeat.at,
    };
    out.extend_from_slice(spelled(text, before))?;
    let len = put_number(out, repeat.earlier)?;
    insertions.push(Insertion { at: repeat.at, len })?;
    Ok(())
}

/// The text with a number at the end of each repeated key: how many earlier keys of its object are
/// spelled as it is. It is meant for what [`strict_text`](crate::strict_text) gives, and offsets of
/// the result lead back to that text. A text that `json_order` reads stays as it is.
///
/// The time grows with the square of the number of keys in an object.
///
/// # Errors
/// [`AllocError`]: a growth was refused.
pub fn number_keys(alloc: Global, text: &[u8]) -> Result<StrictText, AllocError>
    ensures text { IfOk result (λ s. s.text.items ≡ keys_numbered text.now) }
    ensures insertions { IfOk result (λ s. s.insertions.items ≡ numbers_inserted text.now) }
    ensures bytes { IfOk result (λ s.
        KeepsBytes text.now s.text.items s.insertions.items) }
    ensures order { IfOk result (λ s. KeepsOrder s.insertions.items) }
    ensures within { IfOk result (λ s.
        LeadsInto s.insertions.items (length s.text.items) (length text.now)) }
    ensures strict { IfOk result (λ s.
        KeepsUnrepeated text.now s.text.items s.insertions.items) }
    ensures same { repeats_in text.now ≡ [] → IfOk result (λ s. s.text.items ≡ text.now) }
{
    let repeats = repeated_keys(alloc, text)?;
    let mut numbered = Vec::with_capacity(alloc, text.len())?;
    let mut insertions = Vec::new(alloc);
    let mut start = 0;
    for repeat in &repeats {
        put_key(&mut numbered, &mut insertions, text, start, *repeat)?;
        start = repeat.at;
    }
    let rest = Span {
        start,
        end: text.len(),
    };
    numbered.extend_from_slice(spelled(text, rest))?;
    Ok(StrictText {
        text: numbered,
        insertions,
    })
}
