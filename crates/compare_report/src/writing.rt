//! The lines of the table.

ghost use Rattle.std.specs.Prelude.{◌≤◌};
ghost use Rattle.compare_report.specs.Table.{run_columns, cpus_line, table_header, row_line, shift_line, spread_columns, cpu_columns};
ghost use Rattle.draft.specs.Columns.{right};
ghost use Rattle.draft.specs.Draft.{Adds};
ghost use Rattle.one_line.specs.Shown.{shown_bytes};

use crate::line::{Row, Shift, Spread};
use crate::putting::{put_count, put_seconds};
use draft::{Draft, put_column, put_number, put_right, put_wide};
use one_line::put_shown_bytes;
use std::alloc::Global;

/// Puts the line of the shift behind a text: `shift 1705.992138 s`.
pub fn put_shift(out: &mut Draft, shift: Shift)
    ensures { Adds out.old out.new (shift_line shift) }
{
    out.put(b"shift ");
    out.put(if shift.behind { b"-" } else { b"" });
    put_seconds(out, shift.us);
    out.put(b" s\n");
}

/// Puts the header of the table behind a text.
pub fn put_header(out: &mut Draft)
    ensures { Adds out.old out.new table_header }
{
    out.put(
        b"#          task   runs recorded matched  start_p50 start_p95 start_max   end_p50   end_p95   end_max    cpu_us rec_cpu_us\n",
    );
}

/// Three columns, the first so wide.
fn put_spread(out: &mut Draft, width: usize, spread: Option<Spread>)
    requires { width ≤ 15 }
    ensures { Adds out.old out.new (spread_columns width spread) }
{
    let Some(spread) = spread else {
        put_column(out, width, b"-");
        put_column(out, 9, b"-");
        put_column(out, 9, b"-");
        return;
    };
    put_number(out, width, spread.half);
    put_number(out, 9, spread.most);
    put_number(out, 9, spread.max);
}

fn put_counts(out: &mut Draft, row: &Row<'_>)
    ensures { Adds out.old out.new (run_columns row.now) }
{
    put_number(out, 6, row.runs);
    put_wide(out, 8, row.recorded);
    put_number(out, 7, row.matched);
}

fn put_times(out: &mut Draft, row: &Row<'_>)
    ensures { Adds out.old out.new (cpu_columns row.now) }
{
    put_wide(out, 9, row.cpu);
    put_wide(out, 10, row.recorded_cpu);
}

/// A name at the right of its column, on one line.
fn put_name(alloc: Global, out: &mut Draft, name: &[u8])
    ensures { Adds out.old out.new (right 15 (shown_bytes name.now)) }
{
    let mut shown = Draft::new(alloc);
    put_shown_bytes(&mut shown, name);
    match shown.into_text() {
        Ok(text) => put_right(out, 15, text.as_slice()),
        Err(_) => out.refuse(),
    }
}

/// Puts the line of a task behind a text. What a terminal does not show of its name is escaped.
pub fn put_row(alloc: Global, out: &mut Draft, row: &Row<'_>)
    ensures { Adds out.old out.new (row_line row.now) }
{
    put_name(alloc, out, row.name);
    put_counts(out, row);
    put_spread(out, 10, row.starts);
    put_spread(out, 9, row.ends);
    put_times(out, row);
    out.put(b"\n");
}

/// Puts the line behind a text that says how many of the matched runs were on the same CPU.
pub fn put_cpus(out: &mut Draft, same: u128, matched: u128)
    ensures { Adds out.old out.new (cpus_line same matched) }
{
    out.put(b"same cpu ");
    put_count(out, same);
    out.put(b" of ");
    put_count(out, matched);
    out.put(b"\n");
}
