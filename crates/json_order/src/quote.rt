ghost use Rattle.std.specs.Prelude.{◌≡◌, ◌<◌, ◌≤◌, ◌++◌, ◌⊎◌, Some, Ok, IfOk, OnOk, IfErr, encode_utf8, string_bytes};
ghost use Rattle.std.specs.Char.Utf16.{surrogate_pair_char};
ghost use Rattle.json_order.specs.declared.fault.JsonKind.TheVariants.{Syntax, Memory};
ghost use Rattle.json_order.specs.declared.place.Escape.TheVariants.{Outside, Slash};
ghost use Rattle.json_order.specs.declared.quote.Quote.TheVariants.{Going, Closed};
ghost use Rattle.json_order.specs.Grammar as grammar;
ghost use Rattle.json_order.specs.private.Machine as machine;
ghost use Rattle.json_order.specs.private.Machine.{IsFine, going, digit_quote, hex_step};
ghost use Rattle.json_order.specs.private.Places.{quote_of, Misses};

use crate::fault::JsonKind;
use crate::place::Escape;

/// Whether a string goes on or has ended.
#[derive(Clone, Copy)]
pub(crate) enum Quote {
    Going,
    Closed,
}

/// One more character of a string.
#[inline(always)]
fn spelled(text: &mut String, escape: &mut Escape, c: char) -> Result<(), JsonKind>
    ensures ok { OnOk result (going (string_bytes text.new) escape.new
        ≡ going (string_bytes text.old ++ encode_utf8 c) Outside) }
    ensures err { IfErr result (λ k. k ≡ Memory) }
{
    text.push(c)?;
    *escape = Escape::Outside;
    Ok(())
}

/// What a backslash and this character spell.
pub(crate) fn short_escape(c: char) -> Option<char>
    ensures { result ≡ grammar.short_escape c }
{
    match c {
        '"' => Some('"'),
        '\\' => Some('\\'),
        '/' => Some('/'),
        'b' => Some('\u{8}'),
        'f' => Some('\u{c}'),
        'n' => Some('\n'),
        'r' => Some('\r'),
        't' => Some('\t'),
        _ => None,
    }
}

/// The string with one digit more, or the character that a whole first unit is.
fn first_unit(text: &mut String, escape: &mut Escape, unit: u32) -> Result<(), JsonKind>
    requires unit { (unit < 0xDC00) ⊎ ((0xDFFF < unit) × (unit < 0x1_0000)) }
    ensures ok { OnOk result (machine.first_unit (string_bytes text.old) unit
        ≡ Some (going (string_bytes text.new) escape.new)) }
    ensures err { IfErr result (λ k. k ≡ Memory) }
{
    if unit >= 0xD800 && unit <= 0xDBFF {
        *escape = Escape::High(unit);
        return Ok(());
    }
    match char::from_u32(unit) {
        Some(c) => spelled(text, escape, c),
        None => unreachable!(),
    }
}

/// The character that two units spell.
fn second_unit(text: &mut String, escape: &mut Escape, high: u32, low: u32) -> Result<(), JsonKind>
    requires high { (0xD800 ≤ high) × (high ≤ 0xDBFF) }
    requires low { (0xDC00 ≤ low) × (low ≤ 0xDFFF) }
    ensures ok { OnOk result
        (machine.quote_spelled (string_bytes text.old) (Some (surrogate_pair_char high low))
        ≡ Some (going (string_bytes text.new) escape.new)) }
    ensures err { IfErr result (λ k. k ≡ Memory) }
{
    match char::from_u32(0x10000 + (high - 0xD800) * 0x400 + (low - 0xDC00)) {
        Some(c) => spelled(text, escape, c),
        None => unreachable!(),
    }
}

/// A hexadecimal digit in an escape.
#[inline(always)]
fn digit_step(text: &mut String, escape: &mut Escape, digit: u32) -> Result<(), JsonKind>
    requires digit { digit < 16 }
    requires fine { IsFine escape.old }
    ensures ok { OnOk result (digit_quote (string_bytes text.old) escape.old digit
        ≡ Some (going (string_bytes text.new) escape.new)) }
    ensures err { IfErr result (Misses (digit_quote (string_bytes text.old) escape.old digit)) }
    ensures kept { IfErr result (λ k. k ≡ Syntax → (text.new ≡ text.old) × (escape.new
        ≡ escape.old)) }
{
    match *escape {
        Escape::Unit0 => {
            *escape = Escape::Unit1(digit);
            Ok(())
        }
        Escape::Unit1(v) => {
            let unit = 16 * v + digit;
            if unit >= 0xDC && unit <= 0xDF {
                return Err(JsonKind::Syntax);
            }
            *escape = Escape::Unit2(unit);
            Ok(())
        }
        Escape::Unit2(v) => {
            *escape = Escape::Unit3(16 * v + digit);
            Ok(())
        }
        Escape::Unit3(v) => first_unit(text, escape, 16 * v + digit),
        Escape::Low0(high) => {
            if digit != 0xD {
                return Err(JsonKind::Syntax);
            }
            *escape = Escape::Low1(high);
            Ok(())
        }
        Escape::Low1(high) => {
            let unit = 0xD0 + digit;
            if unit < 0xDC {
                return Err(JsonKind::Syntax);
            }
            *escape = Escape::Low2(high, unit);
            Ok(())
        }
        Escape::Low2(high, v) => {
            *escape = Escape::Low3(high, 16 * v + digit);
            Ok(())
        }
        Escape::Low3(high, v) => second_unit(text, escape, high, 16 * v + digit),
        _ => Err(JsonKind::Syntax),
    }
}

/// A character that has to be a hexadecimal digit.
#[inline(always)]
fn hexed(text: &mut String, escape: &mut Escape, c: char) -> Result<(), JsonKind>
    requires fine { IsFine escape.old }
    ensures ok { OnOk result (hex_step (string_bytes text.old) escape.old c
        ≡ Some (going (string_bytes text.new) escape.new)) }
    ensures err { IfErr result (Misses (hex_step (string_bytes text.old) escape.old c)) }
    ensures kept { IfErr result (λ k. k ≡ Syntax → (text.new ≡ text.old) × (escape.new
        ≡ escape.old)) }
{
    match c.to_digit(16) {
        Some(digit) => digit_step(text, escape, digit),
        None => Err(JsonKind::Syntax),
    }
}

/// A character behind a backslash.
#[inline(always)]
fn slashed(text: &mut String, escape: &mut Escape, c: char) -> Result<(), JsonKind>
    ensures ok { OnOk result (machine.quote_step (string_bytes text.old) Slash c
        ≡ Some (going (string_bytes text.new) escape.new)) }
    ensures err { IfErr result (Misses (machine.quote_step (string_bytes text.old) Slash c)) }
    ensures kept { IfErr result (λ k. k ≡ Syntax → (text.new ≡ text.old) × (escape.new
        ≡ escape.old)) }
{
    if c == 'u' {
        *escape = Escape::Unit0;
        return Ok(());
    }
    match short_escape(c) {
        Some(x) => spelled(text, escape, x),
        None => Err(JsonKind::Syntax),
    }
}

/// The string goes on, with this much of an escape.
#[inline(always)]
fn go_on(escape: &mut Escape, next: Escape) -> Result<Quote, JsonKind>
    ensures { (result ≡ Ok Going) × (escape.new ≡ next) }
{
    *escape = next;
    Ok(Quote::Going)
}

/// The string once c follows, which it takes in place: it goes on or ends. Syntax where no string
/// goes on with c; where memory runs out the string is left as it may be.
#[inline(always)]
pub(crate) fn quote_step(text: &mut String, escape: &mut Escape, c: char) -> Result<Quote, JsonKind>
    requires fine { IsFine escape.old }
    ensures ok { IfOk result (λ q. machine.quote_step (string_bytes text.old) escape.old c
        ≡ Some (quote_of q text.new escape.new)) }
    ensures err { IfErr result (Misses (machine.quote_step (string_bytes text.old) escape.old c)) }
    // A string that is closed, or does not go on, is as it was.
    ensures closed { IfOk result (λ q. q ≡ Closed → (text.new ≡ text.old) × (escape.new
        ≡ escape.old)) }
    ensures kept { IfErr result (λ k. k ≡ Syntax → (text.new ≡ text.old) × (escape.new
        ≡ escape.old)) }
{
    match *escape {
        Escape::Outside => match c {
            '"' => Ok(Quote::Closed),
            '\\' => go_on(escape, Escape::Slash),
            _ if c >= ' ' => {
                spelled(text, escape, c)?;
                Ok(Quote::Going)
            }
            _ => Err(JsonKind::Syntax),
        },
        Escape::Slash => {
            slashed(text, escape, c)?;
            Ok(Quote::Going)
        }
        Escape::High(high) => match c {
            '\\' => go_on(escape, Escape::HighSlash(high)),
            _ => Err(JsonKind::Syntax),
        },
        Escape::HighSlash(high) => match c {
            'u' => go_on(escape, Escape::Low0(high)),
            _ => Err(JsonKind::Syntax),
        },
        Escape::Unit0
        | Escape::Unit1(_)
        | Escape::Unit2(_)
        | Escape::Unit3(_)
        | Escape::Low0(_)
        | Escape::Low1(_)
        | Escape::Low2(_, _)
        | Escape::Low3(_, _) => {
            hexed(text, escape, c)?;
            Ok(Quote::Going)
        }
    }
}
