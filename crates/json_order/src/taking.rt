ghost use Rattle.std.specs.Prelude.{◌≡◌, true, ◌≤◌, [], ◌++◌, Some, IfOk, OnOk, IfErr, IfSome, length, take, string_bytes, encode_utf8};
ghost use Rattle.std.specs.Char.{is_ascii_digit};
ghost use Rattle.std.specs.List.{All};
ghost use Rattle.json_order.specs.Lent.{text_bytes};
ghost use Rattle.json_order.specs.declared.fault.JsonKind.TheVariants.{Memory};
ghost use Rattle.json_order.specs.private.AtOnce.{TakesQuoted, MovesPlain, parts_after};
ghost use Rattle.json_order.specs.declared.place.Escape.TheVariants.{Outside};

use crate::escape::escape_of;
use crate::fault::JsonKind;
use crate::lent::LentText;
use crate::number::{is_in_digits, part_step};
use crate::place::Part;
use crate::plain::plain_len;
use std::alloc::Global;

/// Adds one text to another. One byte is copied by a store: its length is a constant there.
#[inline(always)]
fn push_text(text: &mut String, more: &str) -> Result<(), JsonKind>
    ensures ok { OnOk result (string_bytes text.new ≡ string_bytes text.old ++ more.now) }
    ensures err { IfErr result (λ k. k ≡ Memory) }
{
    if more.len() == 1 {
        let (whole, _) = more.split_at(1);
        text.push_str(whole)?;
        return Ok(());
    }
    text.push_str(more)?;
    Ok(())
}

/// Moves the plain characters in front into the text, at once; what stands behind them.
#[inline(always)]
fn move_plain<'a>(text: &mut String, rest: &'a str) -> Result<&'a str, JsonKind>
    ensures ok { IfOk result (λ after. MovesPlain (string_bytes text.old) (string_bytes text.new)
        rest.now after.now) }
    ensures err { IfErr result (λ k. k ≡ Memory) }
{
    let bytes = rest.as_bytes();
    if !bytes.is_empty() && bytes[0] == b'\\' {
        // No byte in front is plain.
        return Ok(rest);
    }
    let (front, after) = rest.split_at(plain_len(bytes));
    push_text(text, front)?;
    Ok(after)
}

/// Takes the plain characters and the whole escapes in front at once; what stands behind them.
fn take_characters<'a>(text: &mut String, rest: &'a str) -> Result<&'a str, JsonKind>
    ensures ok { IfOk result (λ after. TakesQuoted (string_bytes text.old) Outside
        (string_bytes text.new) Outside rest.now after.now) }
    ensures err { IfErr result (λ k. k ≡ Memory) }
{
    let mut chars = rest.chars();
    loop {
        let behind = move_plain(text, chars.as_str())?;
        match escape_of(behind) {
            Some((c, after)) => {
                text.push(c)?;
                chars = after.chars();
            }
            None => return Ok(behind),
        }
    }
}

/// The plain characters in front, and what stands behind them.
#[inline(always)]
fn plain_front<'a>(rest: &'a str) -> (&'a str, &'a str)
    ensures { MovesPlain [] result.0.now rest.now result.1.now }
{
    rest.split_at(plain_len(rest.as_bytes()))
}

/// The text of the plain characters and the whole escapes in front, and what stands behind them. It
/// is copied only if there is an escape.
#[inline(always)]
pub(crate) fn text_of<'a>(alloc: Global, rest: &'a str) -> Result<(LentText<'a>, &'a str), JsonKind>
    ensures ok { IfOk result (λ t. TakesQuoted [] Outside (text_bytes t.0) Outside
        rest.now t.1.now) }
    ensures err { IfErr result (λ k. k ≡ Memory) }
{
    let (front, after) = plain_front(rest);
    let bytes = after.as_bytes();
    if bytes.is_empty() || bytes[0] != b'\\' {
        return Ok((LentText::InPlace(front), after));
    }
    let mut text = String::from_str(alloc, front)?;
    let behind = take_characters(&mut text, after)?;
    Ok((LentText::Copied(text), behind))
}

/// How many digits stand in front.
#[inline(always)]
fn digits_len(bytes: &[u8]) -> usize
    ensures within { result ≤ length bytes.now }
    ensures digits { All (λ b. is_ascii_digit b ≡ true) (take result bytes.now) }
{
    for (i, byte) in bytes.iter().enumerate() {
        if !byte.is_ascii_digit() {
            return i;
        }
    }
    bytes.len()
}

/// How many bytes in front go on with a number, and how far it is read behind them.
#[inline(always)]
pub(crate) fn number_run(bytes: &[u8], part: Part) -> (usize, Part)
    ensures within { result.0 ≤ length bytes.now }
    ensures read { parts_after part (take result.0 bytes.now) ≡ Some result.1 }
{
    let mut read = part;
    let mut len = 0;
    // Most numbers end at a comma.
    'parts: while len < bytes.len() && bytes[len] != b',' {
        match part_step(read, char::from(bytes[len])) {
            Some(next) => read = next,
            None => return (len, read),
        }
        len += 1;
        if is_in_digits(read) {
            len += digits_len(&bytes[len..]);
        }
    }
    (len, read)
}

/// What stands behind this character, where it stands in front.
#[inline(always)]
pub(crate) fn behind_char<'a>(c: char, rest: &'a str) -> Option<&'a str>
    ensures { IfSome result (λ after. rest.now ≡ encode_utf8 c ++ after.now) }
{
    let mut chars = rest.chars();
    let first = chars.next()?;
    if first != c {
        return None;
    }
    Some(chars.as_str())
}
