//! Texts put behind what stands before.

ghost use Rattle.std.specs.Prelude.{◌≤◌};
ghost use Rattle.run_figures.specs.Lines.{digits_in};
ghost use Rattle.draft.specs.Draft.{Adds};
ghost use Rattle.chart.specs.Escape as escapes;
ghost use Rattle.chart.specs.Seconds as times;
ghost use Rattle.chart.specs.Pieces as pieces;

use draft::Draft;
use itoa::Buffer;

/// A text with a number behind it.
pub(crate) fn put_with(out: &mut Draft, text: &[u8], n: u64)
    ensures { Adds out.old out.new (pieces.text_with_number text.now n) }
{
    out.put(text);
    out.put_decimal(n);
}

// ---- names

fn put_byte(out: &mut Draft, byte: u8)
    ensures { Adds out.old out.new (escapes.reference byte) }
{
    match byte {
        b'&' => out.put(b"&amp;"),
        b'<' => out.put(b"&lt;"),
        b'>' => out.put(b"&gt;"),
        b'"' => out.put(b"&quot;"),
        _ => out.push(byte),
    }
}

/// A name, as it may stand between tags.
pub(crate) fn put_escaped(out: &mut Draft, text: &[u8])
    ensures text { Adds out.old out.new (escapes.escaped text.now) }
    ensures plain { escapes.IsEscaped (escapes.escaped text.now) }
{
    for byte in text {
        put_byte(out, *byte);
    }
}

// ---- times

/// A number in at least so many digits.
fn put_digits(out: &mut Draft, width: usize, n: u64)
    requires { width ≤ 15 }
    ensures { Adds out.old out.new (digits_in width n) }
{
    let mut buffer = Buffer::new();
    let digits = buffer.format(n).as_bytes();
    out.fill(b'0', width.saturating_sub(digits.len()));
    out.put(digits);
}

/// A number in so many digits, without the zeros at its end.
fn put_shortened(out: &mut Draft, digits: usize, n: u64)
    requires { digits ≤ 15 }
    ensures { Adds out.old out.new (times.shortened digits n) }
{
    let mut left = digits;
    let mut n = n;
    while left > 0 {
        if n % 10 != 0 {
            put_digits(out, left, n);
            return;
        }
        left -= 1;
        n /= 10;
    }
}

/// What stands behind the whole number, of which there are at most so many digits.
fn put_fraction(out: &mut Draft, digits: usize, n: u64)
    requires { digits ≤ 15 }
    ensures { Adds out.old out.new (times.fraction digits n) }
{
    if n == 0 {
        return;
    }
    out.put(b".");
    put_shortened(out, digits, n);
}

/// A second, in microseconds.
pub(crate) const SECOND: u64 = 1_000_000;

/// A millisecond, in microseconds.
const MILLI: u64 = 1000;

/// A time in seconds.
pub(crate) fn put_seconds(out: &mut Draft, time: u64)
    ensures { Adds out.old out.new (times.seconds time) }
{
    out.put_decimal(time / SECOND);
    put_fraction(out, 6, time % SECOND);
}

/// A time in milliseconds.
pub(crate) fn put_millis(out: &mut Draft, time: u64)
    ensures { Adds out.old out.new (times.millis time) }
{
    out.put_decimal(time / MILLI);
    put_fraction(out, 3, time % MILLI);
}

/// From one time to another.
pub(crate) fn put_times(out: &mut Draft, start: u64, stop: u64)
    ensures { Adds out.old out.new (pieces.times start stop) }
{
    put_seconds(out, start);
    out.put(b" to ");
    put_seconds(out, stop);
    out.put(b" s");
}
