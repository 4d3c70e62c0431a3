//! Columns put after what stands before.

ghost use Rattle.std.specs.Prelude.{◌≡◌, ◌<◌, ◌≤◌, ◌^◌, codes};
ghost use Rattle.std.specs.Fmt.{signed_decimal};
ghost use Rattle.figure_text.specs.Columns as columns;
ghost use Rattle.draft.specs.Columns.{column};
ghost use Rattle.draft.specs.Draft.{Adds};

use draft::Draft;
pub(crate) use draft::{put_column, put_digits, put_number, put_right, put_wide};
use itoa::Buffer;

/// A space, and a number at the right of a column. It may be below 0.
pub(crate) fn put_signed(out: &mut Draft, width: usize, n: i128)
    requires { width ≤ 15 }
    ensures { Adds out.old out.new (column width (signed_decimal n)) }
{
    let mut buffer = Buffer::new();
    put_column(out, width, buffer.format(n).as_bytes());
}

/// A space, and a dash at the right of a column.
pub(crate) fn put_dash(out: &mut Draft, width: usize)
    requires { width ≤ 15 }
    ensures { Adds out.old out.new (column width (codes "-")) }
{
    put_column(out, width, b"-");
}

/// The number that is shown for a task.
pub(crate) fn put_pid(out: &mut Draft, number: u32)
    ensures { Adds out.old out.new (column 6 (columns.pid number)) }
{
    put_number(out, 6, 1000 + u64::from(number));
}

/// A part of a whole, in hundredths of a per cent.
fn hundredths(part: u128, whole: u64) -> u128
    requires { part < 2 ^ 108 }
    ensures { result ≡ columns.hundredths part whole }
{
    if whole == 0 {
        return 0;
    }
    part * 10000 / u128::from(whole)
}

/// Hundredths of a per cent in a column of seven.
fn put_per_cent(out: &mut Draft, n: u128)
    ensures { Adds out.old out.new (columns.per_cent n) }
{
    put_wide(out, 4, n / 100);
    out.put(b".");
    put_digits(out, 2, (n % 100) as u64);
}

/// A part of a whole in a column of seven.
pub(crate) fn put_share(out: &mut Draft, part: u128, whole: u64)
    requires { part < 2 ^ 108 }
    ensures { Adds out.old out.new (columns.share part whole) }
{
    put_per_cent(out, hundredths(part, whole));
}
