//! Keys that their object has already.

ghost use Rattle.std.specs.Prelude.{◌≡◌, ◌++◌, IfOk, OnOk};
ghost use Rattle.rtapp_dialect.specs.Repeats.{earlier_in, repeat_if, repeats_in, key_span};

use crate::keys::{Keys, is_end_of_key};
use crate::spot::Spot;
use std::alloc::{AllocError, Global};

/// A key that its object has already.
#[derive(Clone, Copy, Debug)]
pub struct Repeat {
    /// The offset of its closing quote, from 0.
    pub at: usize,
    /// How many earlier keys of the object are spelled as it is, at least 1.
    pub earlier: usize,
}

/// How many keys of the innermost object are spelled as the one that ends here, if one does.
fn earlier_if(is_key: bool, keys: &Keys, text: &[u8], at: usize) -> usize
    ensures { repeat_if is_key at result ≡ repeat_if is_key at (earlier_in text.now
        keys.now.marks.items keys.now.keys.items (key_span keys.now.start at)) }
{
    if is_key { keys.earlier(text, at) } else { 0 }
}

/// Adds a key, if it is one and its object has it already.
fn add_repeat(
    repeats: &mut Vec<Repeat>,
    is_key: bool,
    at: usize,
    earlier: usize,
) -> Result<(), AllocError>
    ensures { OnOk result (repeats.new.items ≡ repeats.old.items ++ repeat_if is_key at earlier) }
{
    if is_key && earlier > 0 {
        repeats.push(Repeat { at, earlier })?;
    }
    Ok(())
}

/// The keys of a text without comments that their object has already, in the order of the text. Two
/// keys are the same if they are spelled alike, byte for byte.
///
/// The time grows with the square of the number of keys in an object.
///
/// # Errors
/// [`AllocError`]: a growth was refused.
pub fn repeated_keys(alloc: Global, text: &[u8]) -> Result<Vec<Repeat>, AllocError>
    ensures { IfOk result (λ v. v.items ≡ repeats_in text.now) }
{
    let mut repeats = Vec::new(alloc);
    let mut spot = Spot::new(alloc);
    let mut keys = Keys::new(alloc);
    for (i, byte) in text.iter().enumerate() {
        let is_key = is_end_of_key(spot.quote, spot.last, *byte);
        add_repeat(&mut repeats, is_key, i, earlier_if(is_key, &keys, text, i))?;
        keys.pass(spot.quote, spot.last, *byte, i)?;
        spot.pass(*byte)?;
    }
    Ok(repeats)
}
