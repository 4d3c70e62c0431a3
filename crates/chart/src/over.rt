//! What stands over the plot: the numbers of CPUs in bars, and the marks.

ghost use Rattle.std.specs.Prelude.{◌≡◌, ◌<◌, ◌≤◌, ◌^◌, All, flat_map};
ghost use Rattle.draft.specs.Draft.{Adds};
ghost use Rattle.chart.specs.Pieces as pieces;
ghost use Rattle.chart.specs.Rows.{chart_row_view_of};
ghost use Rattle.chart.specs.private.Sheets.{IsSheet};

use crate::colours::ink_of;
use crate::pieces::{cpu_of, mark_class, mark_path, put_path_at, put_text_at, put_title};
use crate::row::ChartRow;
use crate::sheet::{PLOT_TOP, Sheet};
use crate::texts::{put_seconds, put_with};
use chart_pieces::{Bar, Mark, Sign};
use draft::Draft;

// ---- numbers of CPUs

fn seen_from(sheet: &Sheet, bar: &Bar) -> u64
    requires sheet { IsSheet sheet.now }
    requires start { bar.now.start < sheet.now.window.to }
    ensures seen { result ≡ pieces.seen_from sheet.now bar.now }
    ensures small { result ≤ 2 ^ 42 }
{
    bar.start.max(sheet.window.from)
}

fn seen_to(sheet: &Sheet, bar: &Bar) -> u64
    requires sheet { IsSheet sheet.now }
    ensures seen { result ≡ pieces.seen_to sheet.now bar.now }
    ensures small { result ≤ 2 ^ 42 }
{
    bar.stop.min(sheet.window.to)
}

/// How wide a bar has to be for its number.
fn number_width(cpu: u64) -> u64
    ensures { result ≡ pieces.number_width cpu }
{
    if cpu < 10 {
        return 16;
    }
    if cpu < 100 {
        return 22;
    }
    28
}

/// How wide the part of a bar is that is seen.
fn seen_width(sheet: &Sheet, bar: &Bar) -> u64
    requires sheet { IsSheet sheet.now }
    requires start { bar.now.start < sheet.now.window.to }
    ensures { result ≡ pieces.seen_width sheet.now bar.now }
{
    sheet.pixels(seen_to(sheet, bar).saturating_sub(seen_from(sheet, bar)))
}

fn has_number(sheet: &Sheet, base: u32, bar: &Bar) -> bool
    requires sheet { IsSheet sheet.now }
    requires start { bar.now.start < sheet.now.window.to }
    ensures { result ≡ pieces.has_number sheet.now base bar.now }
{
    sheet.is_tall() && 1 < sheet.cpus && number_width(cpu_of(base, bar)) <= seen_width(sheet, bar)
}

fn put_number_place(out: &mut Draft, sheet: &Sheet, place: u64, bar: &Bar)
    requires sheet { IsSheet sheet.now }
    requires place { place ≤ 2 ^ 32 }
    requires start { bar.now.start < sheet.now.window.to }
    ensures { Adds out.old out.new (pieces.number_place sheet.now place bar.now) }
{
    let middle = (seen_from(sheet, bar) + seen_to(sheet, bar)) / 2;
    put_text_at(
        out,
        sheet.pixel_of(middle),
        PLOT_TOP + (sheet.row_top(place) + sheet.size.foot),
    );
}

/// The colour of a number on that of a CPU.
pub(crate) fn put_number_ink(out: &mut Draft, sheet: &Sheet, cpu: u64)
    requires cpu { cpu < 2 ^ 40 }
    ensures { Adds out.old out.new (pieces.number_ink sheet.now cpu) }
{
    out.put(b"\" text-anchor=\"middle\" font-size=\"11\" fill=\"");
    out.put(ink_of(sheet.cpus, cpu));
}

fn put_number_end(out: &mut Draft, cpu: u64)
    ensures { Adds out.old out.new (pieces.number_end cpu) }
{
    put_with(out, b"\" pointer-events=\"none\">", cpu);
    out.put(b"</text>\n");
}

fn put_number_text(out: &mut Draft, sheet: &Sheet, place: u64, base: u32, bar: &Bar)
    requires sheet { IsSheet sheet.now }
    requires place { place ≤ 2 ^ 32 }
    requires start { bar.now.start < sheet.now.window.to }
    ensures { Adds out.old out.new (pieces.number_text sheet.now place base bar.now) }
{
    put_number_place(out, sheet, place, bar);
    put_number_ink(out, sheet, cpu_of(base, bar));
    put_number_end(out, cpu_of(base, bar));
}

/// The number of a CPU in a bar that is wide enough.
fn put_number(out: &mut Draft, sheet: &Sheet, place: u64, base: u32, bar: &Bar)
    requires sheet { IsSheet sheet.now }
    requires place { place ≤ 2 ^ 32 }
    requires start { bar.now.start < sheet.now.window.to }
    ensures { Adds out.old out.new (pieces.number_line sheet.now place base bar.now) }
{
    if has_number(sheet, base, bar) {
        put_number_text(out, sheet, place, base, bar);
        return;
    }
}

fn put_numbers(out: &mut Draft, sheet: &Sheet, place: u64, base: u32, bars: &[Bar])
    requires sheet { IsSheet sheet.now }
    requires place { place ≤ 2 ^ 32 }
    requires starts { All (λ b. b.start < sheet.now.window.to) bars.now }
    ensures { Adds out.old out.new (flat_map (pieces.number_line sheet.now place base) bars.now) }
{
    for bar in bars {
        put_number(out, sheet, place, base, bar);
    }
}

// ---- marks

fn mark_top(sign: Sign) -> u64
    ensures top { result ≡ pieces.mark_top sign }
    ensures small { result ≤ 24 }
{
    match sign {
        Sign::Released => 10,
        Sign::Due => 24,
        Sign::Ended => 10,
    }
}

fn mark_word(sign: Sign) -> &'static [u8]
    ensures { result.now ≡ pieces.mark_word sign }
{
    match sign {
        Sign::Released => b" is released at ",
        Sign::Due => b" is due at ",
        Sign::Ended => b" ended at ",
    }
}

fn put_mark_shape(out: &mut Draft, sheet: &Sheet, place: u64, mark: &Mark)
    requires sheet { IsSheet sheet.now }
    requires place { place ≤ 2 ^ 32 }
    requires time { mark.now.time ≤ sheet.now.window.to }
    ensures { Adds out.old out.new (pieces.mark_shape sheet.now place mark.now) }
{
    put_path_at(
        out,
        mark_class(mark.sign),
        sheet.pixel_of(mark.time),
        PLOT_TOP + (sheet.row_top(place) + mark_top(mark.sign)),
        mark_path(mark.sign),
    );
}

fn put_mark_said(out: &mut Draft, mark: &Mark)
    ensures { Adds out.old out.new (pieces.mark_said mark.now) }
{
    out.put(mark_word(mark.sign));
    put_seconds(out, mark.time);
    out.put(b" s");
}

fn put_mark_title(out: &mut Draft, name: &[u8], mark: &Mark)
    ensures { Adds out.old out.new (pieces.mark_title name.now mark.now) }
{
    put_title(out, name);
    put_mark_said(out, mark);
    out.put(b"</title></path>\n");
}

fn put_mark(out: &mut Draft, sheet: &Sheet, place: u64, name: &[u8], mark: &Mark)
    requires sheet { IsSheet sheet.now }
    requires place { place ≤ 2 ^ 32 }
    requires time { mark.now.time ≤ sheet.now.window.to }
    ensures { Adds out.old out.new (pieces.mark_line sheet.now place name.now mark.now) }
{
    put_mark_shape(out, sheet, place, mark);
    put_mark_title(out, name, mark);
}

fn put_marks(out: &mut Draft, sheet: &Sheet, place: u64, name: &[u8], marks: &[Mark])
    requires sheet { IsSheet sheet.now }
    requires place { place ≤ 2 ^ 32 }
    requires times { All (λ m. m.time ≤ sheet.now.window.to) marks.now }
    ensures { Adds out.old out.new
        (flat_map (pieces.mark_line sheet.now place name.now) marks.now) }
{
    for mark in marks {
        put_mark(out, sheet, place, name, mark);
    }
}

fn has_marks(sheet: &Sheet, row: &ChartRow<'_>) -> bool
    ensures { result ≡ pieces.has_marks sheet.now (chart_row_view_of row.now) }
{
    let drawn = row.row;
    sheet.is_tall() && drawn.marks.len() <= 170
}

fn put_mark_lines(out: &mut Draft, sheet: &Sheet, place: u64, row: &ChartRow<'_>)
    requires sheet { IsSheet sheet.now }
    requires place { place ≤ 2 ^ 32 }
    requires times { All (λ m. m.time ≤ sheet.now.window.to) row.now.row.now.marks }
    ensures { Adds out.old out.new (pieces.mark_lines sheet.now place (chart_row_view_of row.now)) }
{
    if has_marks(sheet, row) {
        let drawn = row.row;
        put_marks(out, sheet, place, row.name, &drawn.marks);
        return;
    }
}

/// What stands of a row over the plot.
pub(crate) fn put_over_lines(out: &mut Draft, sheet: &Sheet, place: u64, row: &ChartRow<'_>)
    requires sheet { IsSheet sheet.now }
    requires place { place ≤ 2 ^ 32 }
    requires starts { All (λ b. b.start < sheet.now.window.to) row.now.row.now.bars }
    requires times { All (λ m. m.time ≤ sheet.now.window.to) row.now.row.now.marks }
    ensures { Adds out.old out.new (pieces.over_lines sheet.now place (chart_row_view_of row.now)) }
{
    let drawn = row.row;
    put_numbers(out, sheet, place, row.base, &drawn.bars);
    put_mark_lines(out, sheet, place, row);
}
