ghost use Rattle.std.specs.Prelude.{◌≡◌, ◌<◌, ◌≤◌, drop, IfSome, MatchOption};
ghost use Rattle.std.specs.Char.{digit_value};
ghost use Rattle.json_order.specs.Grammar.{IsHex, IsUnit};
ghost use Rattle.json_order.specs.private.AtOnce.{IsEscape, UnitEnds};

use crate::quote::short_escape;

/// The value of a hexadecimal digit.
#[inline(always)]
fn digit_of(byte: u8) -> Option<u32>
    ensures { MatchOption result (16 ≤ digit_value byte) (λ d. (d ≡ digit_value byte) × (d < 16)) }
{
    char::from(byte).to_digit(16)
}

/// The number that four hexadecimal digits in front spell.
#[inline(always)]
fn four_digits(bytes: &[u8]) -> Option<u32>
    ensures digits { IfSome result (λ n. IsHex 4 0 n bytes.now (drop 4 bytes.now)) }
    ensures unit { IfSome result (λ n. n < 0x1_0000) }
{
    if bytes.len() < 4 {
        return None;
    }
    let a = digit_of(bytes[0])?;
    let b = digit_of(bytes[1])?;
    let c = digit_of(bytes[2])?;
    let d = digit_of(bytes[3])?;
    Some(16 * (16 * (16 * a + b) + c) + d)
}

/// The unit of UTF-16 that `\u` and four digits in front spell, and what stands behind them.
#[inline(always)]
fn unit_of<'a>(rest: &'a str) -> Option<(u32, &'a str)>
    ensures spelt { IfSome result (λ u. IsUnit u.0 rest.now u.1.now) }
    ensures unit { IfSome result (λ u. u.0 < 0x1_0000) }
{
    let digits = rest.strip_prefix("\\u")?;
    let unit = four_digits(digits.as_bytes())?;
    let (_, after) = digits.split_at(4);
    Some((unit, after))
}

/// The character of a unit of UTF-16, or of it and the unit that `\u` and four digits in front
/// spell, and what stands behind them. None where the unit needs another one, or stands alone.
#[inline(always)]
fn char_of<'a>(unit: u32, rest: &'a str) -> Option<(char, &'a str)>
    requires { unit < 0x1_0000 }
    ensures { IfSome result (λ c. UnitEnds unit c.0 rest.now c.1.now) }
{
    if unit < 0xD800 || unit > 0xDBFF {
        let c = char::from_u32(unit)?;
        return Some((c, rest));
    }
    let (low, after) = unit_of(rest)?;
    if low < 0xDC00 || low > 0xDFFF {
        return None;
    }
    let c = char::from_u32(0x10000 + (unit - 0xD800) * 0x400 + (low - 0xDC00))?;
    Some((c, after))
}

/// The character that a backslash and another character in front spell, and what stands behind
/// them.
#[inline(always)]
fn short_of<'a>(rest: &'a str) -> Option<(char, &'a str)>
    ensures { IfSome result (λ c. IsEscape c.0 rest.now c.1.now) }
{
    let mut chars = rest.strip_prefix("\\")?.chars();
    let letter = chars.next()?;
    let c = short_escape(letter)?;
    Some((c, chars.as_str()))
}

/// The character that a whole escape in front spells, and what stands behind it.
#[inline(always)]
pub(crate) fn escape_of<'a>(rest: &'a str) -> Option<(char, &'a str)>
    ensures { IfSome result (λ c. IsEscape c.0 rest.now c.1.now) }
{
    let bytes = rest.as_bytes();
    if bytes.is_empty() || bytes[0] != b'\\' {
        return None;
    }
    match unit_of(rest) {
        Some((unit, after)) => char_of(unit, after),
        None => short_of(rest),
    }
}
