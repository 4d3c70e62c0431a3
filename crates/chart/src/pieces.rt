//! The elements of a row: its band and name, the lines between its bars, and its bars.

ghost use Rattle.std.specs.Prelude.{◌≡◌, ◌+◌, ◌<◌, ◌≤◌, ◌^◌, flat_map};
ghost use Rattle.draft.specs.Draft.{Adds};
ghost use Rattle.chart_pieces.specs.Bars as chart_bars;
ghost use Rattle.chart.specs.Pieces as pieces;
ghost use Rattle.chart.specs.Rows.{chart_row_view_of};
ghost use Rattle.chart.specs.private.Sheets.{IsSheet};

use crate::colours::fill_of;
use crate::row::ChartRow;
use crate::sheet::{PLOT_TOP, Sheet};
use crate::texts::{put_escaped, put_times, put_with};
use chart_pieces::{Bar, Gap, Sign};
use draft::Draft;

/// The beginning of a text at a place.
pub(crate) fn put_text_at(out: &mut Draft, x: u64, y: u64)
    ensures { Adds out.old out.new (pieces.text_at x y) }
{
    put_with(out, b"<text x=\"", x);
    put_with(out, b"\" y=\"", y);
}

// ---- lines and marks

fn put_class(out: &mut Draft, class: &[u8])
    ensures { Adds out.old out.new (pieces.class_begins class.now) }
{
    out.put(b"<path class=\"");
    out.put(class);
}

/// The path of a class, to where it begins.
fn put_path_begins(out: &mut Draft, class: &[u8], x: u64, y: u64)
    ensures { Adds out.old out.new (pieces.path_begins class.now x y) }
{
    put_class(out, class);
    put_with(out, b"\" d=\"M", x);
    put_with(out, b" ", y);
}

/// The path of a class that begins at a place and goes on so: a sign of the plot or of the legend.
pub(crate) fn put_path_at(out: &mut Draft, class: &[u8], x: u64, y: u64, path: &[u8])
    ensures { Adds out.old out.new (pieces.path_at class.now x y path.now) }
{
    put_path_begins(out, class, x, y);
    out.put(path);
}

pub(crate) fn line_class(throttled: bool) -> &'static [u8]
    ensures { result.now ≡ pieces.line_class throttled }
{
    if throttled {
        return b"t";
    }
    b"w"
}

pub(crate) fn mark_class(sign: Sign) -> &'static [u8]
    ensures { result.now ≡ pieces.mark_class sign }
{
    match sign {
        Sign::Released => b"r",
        Sign::Due => b"d",
        Sign::Ended => b"x",
    }
}

pub(crate) fn mark_path(sign: Sign) -> &'static [u8]
    ensures { result.now ≡ pieces.mark_path sign }
{
    match sign {
        Sign::Released => b"v-8m-3 4l3 -4l3 4",
        Sign::Due => b"v8m-3 -4l3 4l3 -4",
        Sign::Ended => b"v14",
    }
}

// ---- what a pointer shows

/// Ends a tag, and begins a title with a name.
pub(crate) fn put_title(out: &mut Draft, name: &[u8])
    ensures { Adds out.old out.new (pieces.title_begins name.now) }
{
    out.put(b"\"><title>");
    put_escaped(out, name);
}

// ---- names

fn put_band_box(out: &mut Draft, sheet: &Sheet, place: u64)
    requires sheet { IsSheet sheet.now }
    requires place { place ≤ 2 ^ 32 }
    ensures { Adds out.old out.new (pieces.band_box sheet.now place) }
{
    put_with(out, b"<rect x=\"0\" y=\"", PLOT_TOP + sheet.row_top(place));
    put_with(out, b"\" width=\"1170\" height=\"", sheet.size.height);
    out.put(b"\" fill=\"#f4f4f4\"/>\n");
}

/// Every second row has a band.
fn put_band(out: &mut Draft, sheet: &Sheet, place: u64)
    requires sheet { IsSheet sheet.now }
    requires place { place ≤ 2 ^ 32 }
    ensures { Adds out.old out.new (pieces.band sheet.now place) }
{
    if place % 2 == 0 {
        put_band_box(out, sheet, place);
        return;
    }
}

fn put_name_size(out: &mut Draft, sheet: &Sheet)
    ensures { Adds out.old out.new (pieces.name_size sheet.now) }
{
    if sheet.is_tall() {
        return;
    }
    out.put(b" font-size=\"10\"");
}

fn put_name_begins(out: &mut Draft, sheet: &Sheet, place: u64)
    requires sheet { IsSheet sheet.now }
    requires place { place ≤ 2 ^ 32 }
    ensures { Adds out.old out.new (pieces.name_begins sheet.now place) }
{
    put_with(
        out,
        b"<text x=\"142\" y=\"",
        PLOT_TOP + (sheet.row_top(place) + sheet.size.foot),
    );
    out.put(b"\" text-anchor=\"end\"");
    put_name_size(out, sheet);
}

fn put_named(out: &mut Draft, name: &[u8])
    ensures { Adds out.old out.new (pieces.name_in_text name.now) }
{
    out.put(b">");
    put_escaped(out, name);
    out.put(b"</text>\n");
}

fn put_name_text(out: &mut Draft, sheet: &Sheet, place: u64, name: &[u8])
    requires sheet { IsSheet sheet.now }
    requires place { place ≤ 2 ^ 32 }
    ensures { Adds out.old out.new (pieces.name_text sheet.now place name.now) }
{
    put_name_begins(out, sheet, place);
    put_named(out, name);
}

/// Whether its name is written.
fn is_named(sheet: &Sheet, place: u64) -> bool
    ensures { result ≡ pieces.is_named sheet.now place }
{
    if sheet.rows <= 96 {
        return true;
    }
    place % 4 == 0
}

/// The band and the name of a row.
pub(crate) fn put_name_lines(out: &mut Draft, sheet: &Sheet, place: u64, row: &ChartRow<'_>)
    requires sheet { IsSheet sheet.now }
    requires place { place ≤ 2 ^ 32 }
    ensures { Adds out.old out.new (pieces.name_lines sheet.now place (chart_row_view_of row.now)) }
{
    put_band(out, sheet, place);
    if is_named(sheet, place) {
        put_name_text(out, sheet, place, row.name);
        return;
    }
}

// ---- between bars

fn gap_word(gap: &Gap) -> &'static [u8]
    ensures { result.now ≡ pieces.gap_word gap.now }
{
    if gap.throttled {
        return b" is throttled: ";
    }
    b" wants a CPU: "
}

fn put_gap_said(out: &mut Draft, gap: &Gap)
    ensures { Adds out.old out.new (pieces.gap_said gap.now) }
{
    out.put(gap_word(gap));
    put_times(out, gap.start, gap.stop);
}

fn put_gap_shape(out: &mut Draft, sheet: &Sheet, place: u64, gap: &Gap)
    requires sheet { IsSheet sheet.now }
    requires place { place ≤ 2 ^ 32 }
    ensures { Adds out.old out.new (pieces.gap_shape sheet.now place gap.now) }
{
    put_path_begins(
        out,
        line_class(gap.throttled),
        gap.start,
        sheet.row_top(place) + sheet.size.middle,
    );
    put_with(out, b"H", gap.stop);
}

fn put_gap_title(out: &mut Draft, name: &[u8], gap: &Gap)
    ensures { Adds out.old out.new (pieces.gap_title name.now gap.now) }
{
    put_title(out, name);
    put_gap_said(out, gap);
    out.put(b"</title></path>\n");
}

/// A line between bars.
fn put_gap(out: &mut Draft, sheet: &Sheet, place: u64, name: &[u8], gap: &Gap)
    requires sheet { IsSheet sheet.now }
    requires place { place ≤ 2 ^ 32 }
    ensures { Adds out.old out.new (pieces.gap_line sheet.now place name.now gap.now) }
{
    put_gap_shape(out, sheet, place, gap);
    put_gap_title(out, name, gap);
}

// ---- bars

/// How long a bar is.
pub(crate) fn us(bar: &Bar) -> u64
    ensures { result ≡ chart_bars.us bar.now }
{
    bar.stop.saturating_sub(bar.start)
}

fn put_bar_box(out: &mut Draft, sheet: &Sheet, place: u64, bar: &Bar)
    requires sheet { IsSheet sheet.now }
    requires place { place ≤ 2 ^ 32 }
    ensures { Adds out.old out.new (pieces.bar_box sheet.now place bar.now) }
{
    put_with(out, b"<rect class=\"b\" x=\"", bar.start);
    put_with(out, b"\" y=\"", sheet.row_top(place) + sheet.size.bar_top);
    put_with(out, b"\" width=\"", us(bar));
    put_with(out, b"\" height=\"", sheet.size.bar_height);
}

/// The CPU of the machine.
pub(crate) fn cpu_of(base: u32, bar: &Bar) -> u64
    ensures cpu { result ≡ base + bar.now.cpu }
    ensures small { result < 2 ^ 33 }
{
    // Read, so that its range is known.
    let cpu = bar.cpu;
    u64::from(base) + u64::from(cpu)
}

fn put_bar_said(out: &mut Draft, base: u32, bar: &Bar)
    ensures { Adds out.old out.new (pieces.bar_said base bar.now) }
{
    put_with(out, b" on CPU ", cpu_of(base, bar));
    out.put(b": ");
    put_times(out, bar.start, bar.stop);
    put_with(out, b", ", us(bar));
    out.put(b" us");
}

fn put_bar_fill(out: &mut Draft, sheet: &Sheet, base: u32, bar: &Bar)
    ensures { Adds out.old out.new (pieces.bar_fill sheet.now base bar.now) }
{
    out.put(b"\" fill=\"");
    out.put(fill_of(sheet.cpus, cpu_of(base, bar)));
}

fn put_bar_shape(out: &mut Draft, sheet: &Sheet, place: u64, base: u32, bar: &Bar)
    requires sheet { IsSheet sheet.now }
    requires place { place ≤ 2 ^ 32 }
    ensures { Adds out.old out.new (pieces.bar_shape sheet.now place base bar.now) }
{
    put_bar_box(out, sheet, place, bar);
    put_bar_fill(out, sheet, base, bar);
}

fn put_bar_title(out: &mut Draft, row: &ChartRow<'_>, bar: &Bar)
    ensures { Adds out.old out.new (pieces.bar_title (chart_row_view_of row.now) bar.now) }
{
    put_title(out, row.name);
    put_bar_said(out, row.base, bar);
    out.put(b"</title></rect>\n");
}

/// A bar.
fn put_bar(out: &mut Draft, sheet: &Sheet, place: u64, row: &ChartRow<'_>, bar: &Bar)
    requires sheet { IsSheet sheet.now }
    requires place { place ≤ 2 ^ 32 }
    ensures { Adds out.old out.new
        (pieces.bar_line sheet.now place (chart_row_view_of row.now) bar.now) }
{
    put_bar_shape(out, sheet, place, row.base, bar);
    put_bar_title(out, row, bar);
}

fn put_gaps(out: &mut Draft, sheet: &Sheet, place: u64, name: &[u8], gaps: &[Gap])
    requires sheet { IsSheet sheet.now }
    requires place { place ≤ 2 ^ 32 }
    ensures { Adds out.old out.new (flat_map (pieces.gap_line sheet.now place name.now) gaps.now) }
{
    for gap in gaps {
        put_gap(out, sheet, place, name, gap);
    }
}

fn put_bars(out: &mut Draft, sheet: &Sheet, place: u64, row: &ChartRow<'_>, bars: &[Bar])
    requires sheet { IsSheet sheet.now }
    requires place { place ≤ 2 ^ 32 }
    ensures { Adds out.old out.new
        (flat_map (pieces.bar_line sheet.now place (chart_row_view_of row.now)) bars.now) }
{
    for bar in bars {
        put_bar(out, sheet, place, row, bar);
    }
}

/// What stands of a row inside the plot: the lines, and over them the bars.
pub(crate) fn put_row_lines(out: &mut Draft, sheet: &Sheet, place: u64, row: &ChartRow<'_>)
    requires sheet { IsSheet sheet.now }
    requires place { place ≤ 2 ^ 32 }
    ensures { Adds out.old out.new (pieces.row_lines sheet.now place (chart_row_view_of row.now)) }
{
    let drawn = row.row;
    put_gaps(out, sheet, place, row.name, &drawn.gaps);
    put_bars(out, sheet, place, row, &drawn.bars);
}
