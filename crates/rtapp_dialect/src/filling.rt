//! Last commas taken out, and values that were left out put in.

ghost use Rattle.std.specs.Prelude.{◌≡◌, ◌≤◌, ◌<◌, ◌+◌, ◌++◌, drop, length, slice_index, IfOk, OnOk};
ghost use Rattle.rtapp_dialect.specs.Filling.{first_solid, byte_kept, added, inserted_at, values_filled, values_inserted};

use crate::insertion::Insertion;
use crate::spot::{Last, Quote, Spot, begins_member, is_closing, is_white};
use std::alloc::{AllocError, Global};

/// The value of a key that has none.
const ADDED: &[u8] = b":null";

/// A text, and where bytes were inserted to make it.
#[derive(Drop)]
pub(crate) struct Filled {
    /// The text.
    pub(crate) text: Vec<u8>,
    /// The insertions, in the order of their places.
    pub(crate) insertions: Vec<Insertion>,
}

/// The first byte from a place on that is no white space, or 0.
fn solid_from(text: &[u8], start: usize) -> u8
    requires { start ≤ length text.now }
    ensures { result ≡ first_solid (drop start text.now) }
{
    for byte in &text[start..] {
        if !is_white(*byte) {
            return *byte;
        }
    }
    0
}

/// The byte that is written for the byte at a place.
fn kept(quote: Quote, last: Last, text: &[u8], place: usize) -> u8
    requires { place < length text.now }
    ensures { result ≡ byte_kept quote last (slice_index text.now place)
        (first_solid (drop (place + 1) text.now)) }
{
    let byte = text[place];
    match quote {
        Quote::Closed => {
            if byte == b',' && !begins_member(last) && is_closing(solid_from(text, place + 1)) {
                b' '
            } else {
                byte
            }
        }
        Quote::Open => byte,
        Quote::Escaped => byte,
    }
}

/// Adds the value of a key that has none.
fn add_value(
    filled: &mut Vec<u8>,
    insertions: &mut Vec<Insertion>,
    lacks: bool,
    at: usize,
) -> Result<(), AllocError>
    ensures text { OnOk result (filled.new.items ≡ filled.old.items ++ added lacks) }
    ensures insertions { OnOk result
        (insertions.new.items ≡ insertions.old.items ++ inserted_at lacks at) }
{
    if lacks {
        filled.extend_from_slice(ADDED)?;
        insertions.push(Insertion {
            at,
            len: ADDED.len(),
        })?;
    }
    Ok(())
}

/// The text with a space in place of each comma before a closing bracket, and with the value `null`
/// for each key that has none, and the places of these.
pub(crate) fn fill(alloc: Global, text: &[u8]) -> Result<Filled, AllocError>
    ensures text { IfOk result (λ f. f.text.items ≡ values_filled text.now) }
    ensures insertions { IfOk result (λ f. f.insertions.items ≡ values_inserted text.now) }
{
    let mut filled = Vec::with_capacity(alloc, text.len())?;
    let mut insertions = Vec::new(alloc);
    let mut spot = Spot::new(alloc);
    for (i, byte) in text.iter().enumerate() {
        add_value(&mut filled, &mut insertions, spot.lacks_value(*byte), i)?;
        filled.push(kept(spot.quote, spot.last, text, i))?;
        spot.pass(*byte)?;
    }
    Ok(Filled {
        text: filled,
        insertions,
    })
}
