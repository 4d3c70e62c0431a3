//! Numbers and times of the table.

ghost use Rattle.std.specs.Prelude.{decimal};
ghost use Rattle.compare_report.specs.Table.{seconds_text};
ghost use Rattle.draft.specs.Draft.{Adds};

use draft::{Draft, put_digits};
use itoa::Buffer;

pub(crate) fn put_count(out: &mut Draft, n: u128)
    ensures { Adds out.old out.new (decimal n) }
{
    let mut buffer = Buffer::new();
    out.put(buffer.format(n).as_bytes());
}

/// Microseconds as seconds.
pub(crate) fn put_seconds(out: &mut Draft, us: u64)
    ensures { Adds out.old out.new (seconds_text us) }
{
    out.put_decimal(us / 1000000);
    out.put(b".");
    put_digits(out, 6, us % 1000000);
}
