//! Columns of a table.

ghost use Rattle.std.specs.Prelude.{◌<◌, ◌^◌, decimal};
ghost use Rattle.draft.specs.Columns.{right, column, zeros_right};
ghost use Rattle.draft.specs.Draft.{Adds};

use crate::draft::Draft;
use itoa::Buffer;

/// Adds a text at the right of a column. A wider text is added whole.
pub fn put_right(out: &mut Draft, width: usize, text: &[u8])
    requires { width < 2 ^ 32 }
    ensures { Adds out.old out.new (right width text.now) }
{
    out.fill(b' ', width.saturating_sub(text.len()));
    out.put(text);
}

/// Adds a space, and a text at the right of a column.
pub fn put_column(out: &mut Draft, width: usize, text: &[u8])
    requires { width < 2 ^ 32 }
    ensures { Adds out.old out.new (column width text.now) }
{
    out.put(b" ");
    put_right(out, width, text);
}

/// Adds a space, and a number at the right of a column.
pub fn put_number(out: &mut Draft, width: usize, n: u64)
    requires { width < 2 ^ 32 }
    ensures { Adds out.old out.new (column width (decimal n)) }
{
    let mut buffer = Buffer::new();
    put_column(out, width, buffer.format(n).as_bytes());
}

/// Adds a space, and a number of up to 128 bits at the right of a column.
pub fn put_wide(out: &mut Draft, width: usize, n: u128)
    requires { width < 2 ^ 32 }
    ensures { Adds out.old out.new (column width (decimal n)) }
{
    let mut buffer = Buffer::new();
    put_column(out, width, buffer.format(n).as_bytes());
}

/// Adds a number in at least `width` digits, with leading zeros.
pub fn put_digits(out: &mut Draft, width: usize, n: u64)
    requires { width < 2 ^ 32 }
    ensures { Adds out.old out.new (zeros_right width (decimal n)) }
{
    let mut buffer = Buffer::new();
    let digits = buffer.format(n).as_bytes();
    out.fill(b'0', width.saturating_sub(digits.len()));
    out.put(digits);
}
