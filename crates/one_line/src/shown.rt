//! Characters and bytes, as they are shown.

ghost use Rattle.std.specs.Prelude.{◌≡◌, ◌<◌, ◌++◌, ◌/◌, codes, flat_map};
ghost use Rattle.std.specs.Fmt.{WritesOnOk};
ghost use Rattle.draft.specs.Draft.{Adds};
ghost use Rattle.one_line.specs.Shown.{hex_digit, hex_pair, prints, shown, shown_byte, shown_bytes, shown_character};

use draft::Draft;
use std::{fmt, str};

/// Whether a terminal shows a character as itself: it is no control character, no separator of
/// lines or paragraphs, and no mark that changes the direction of text.
fn is_printed(c: u32) -> bool
    ensures { result ≡ prints c }
{
    !(c < 0x20
        || (0x7f <= c && c <= 0x9f)
        || (0x2028 <= c && c <= 0x202e)
        || (0x2066 <= c && c <= 0x2069))
}

/// A digit to the base 16, in lower case.
fn digit(n: u32) -> u8
    requires { n < 16 }
    ensures { result ≡ hex_digit n }
{
    if n < 10 {
        b'0' + n as u8
    } else {
        b'a' + (n as u8 - 10)
    }
}

fn put_character(out: &mut Draft, c: char)
    ensures { Adds out.old out.new (shown_character c) }
{
    let code = u32::from(c);
    if is_printed(code) {
        out.put(c.encode_utf8(&mut [0; 4]).as_bytes());
    } else {
        let last = [digit(code / 16 % 16), digit(code % 16)];
        let first = [digit(code / 4096 % 16), digit(code / 256 % 16)];
        out.put(b"\\u");
        out.put(&first);
        out.put(&last);
    }
}

/// Puts text behind what stands before, on one line: a character that a terminal does not show as
/// itself is put as `\u` and the four digits of its number.
pub fn put_shown(out: &mut Draft, text: &str)
    ensures { Adds out.old out.new (shown text.now) }
{
    for c in text.chars() {
        put_character(out, c);
    }
}

fn put_byte(out: &mut Draft, byte: u8)
    ensures { Adds out.old out.new (shown_byte byte) }
{
    if 0x20 <= byte && byte < 0x7f {
        out.push(byte);
    } else {
        let code = u32::from(byte);
        let digits = [digit(code / 16), digit(code % 16)];
        out.put(b"\\x");
        out.put(&digits);
    }
}

/// Puts bytes that need not be UTF-8 behind what stands before, on one line: as [`put_shown`] if
/// they are UTF-8, else each byte that is no printed ASCII character as `\x` and its two digits.
pub fn put_shown_bytes(out: &mut Draft, bytes: &[u8])
    ensures { Adds out.old out.new (shown_bytes bytes.now) }
{
    match str::from_utf8(bytes) {
        Ok(text) => put_shown(out, text),
        Err(_) => put_bytes(out, bytes),
    }
}

fn put_bytes(out: &mut Draft, bytes: &[u8])
    ensures { Adds out.old out.new (flat_map shown_byte bytes.now) }
{
    for byte in bytes {
        put_byte(out, *byte);
    }
}

/// Writes `\u` and the four digits of a number below 65536.
fn write_escape<W: fmt::Write>(f: &mut fmt::Formatter<W>, code: u32) -> fmt::Result
    requires { code < 65536 }
    ensures { WritesOnOk W.write_str_gives f.old result
        (codes "\\u" ++ (hex_pair (code / 256) ++ hex_pair code)) f.new }
{
    let first = code / 256;
    let last = code % 256;
    write!(f, "\\u{first:02x}{last:02x}")
}

fn write_character<W: fmt::Write>(f: &mut fmt::Formatter<W>, c: char) -> fmt::Result
    ensures { WritesOnOk W.write_str_gives f.old result (shown_character c) f.new }
{
    let code = u32::from(c);
    if is_printed(code) {
        f.write_char(c)
    } else {
        write_escape(f, code)
    }
}

/// Writes text as [`put_shown`] puts it.
///
/// # Errors
/// [`fmt::Error`]: what it is written to refused a part of it.
pub fn write_shown<W: fmt::Write>(f: &mut fmt::Formatter<W>, text: &str) -> fmt::Result
    ensures { WritesOnOk W.write_str_gives f.old result (shown text.now) f.new }
{
    for c in text.chars() {
        write_character(f, c)?;
    }
    Ok(())
}
