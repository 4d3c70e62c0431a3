//! The legend, below the plot.

ghost use Rattle.std.specs.Prelude.{◌≡◌, ◌<◌, ◌≤◌, ◌^◌, All, length};
ghost use Rattle.run_figures.specs.Lines.{numbered_lines};
ghost use Rattle.draft.specs.Draft.{Adds};
ghost use Rattle.chart.specs.Legend as legends;
ghost use Rattle.chart.specs.private.Sheets.{IsSheet};

use crate::colours::{fill_of, legend_cpus};
use crate::over::put_number_ink;
use crate::pieces::{line_class, mark_class, mark_path, put_path_at, put_text_at};
use crate::sheet::Sheet;
use crate::texts::put_with;
use chart_pieces::Sign;
use draft::{Draft, NoMemory};
use std::alloc::Global;

// ---- colours

fn colour_left(place: u64) -> u64
    requires { place ≤ 8 }
    ensures left { result ≡ legends.colour_left place }
    ensures small { result ≤ 1000 }
{
    150 + place * 28
}

fn put_colour_place(out: &mut Draft, sheet: &Sheet, place: u64)
    requires sheet { IsSheet sheet.now }
    requires place { place ≤ 8 }
    ensures { Adds out.old out.new (legends.colour_place sheet.now place) }
{
    put_with(out, b"<rect x=\"", colour_left(place));
    put_with(out, b"\" y=\"", sheet.plot_end() + 32);
}

fn put_colour_fill(out: &mut Draft, sheet: &Sheet, cpu: u64)
    requires cpu { cpu < 2 ^ 40 }
    ensures { Adds out.old out.new (legends.colour_fill sheet.now cpu) }
{
    out.put(b"\" width=\"22\" height=\"14\" fill=\"");
    out.put(fill_of(sheet.cpus, cpu));
    out.put(b"\"/>");
}

fn put_colour_end(out: &mut Draft, cpu: u64)
    ensures { Adds out.old out.new (legends.colour_end cpu) }
{
    put_with(out, b"\">", cpu);
    out.put(b"</text>\n");
}

fn put_colour_number(out: &mut Draft, sheet: &Sheet, place: u64, cpu: u64)
    requires sheet { IsSheet sheet.now }
    requires place { place ≤ 8 }
    requires cpu { cpu < 2 ^ 40 }
    ensures { Adds out.old out.new (legends.colour_number sheet.now place cpu) }
{
    put_text_at(out, colour_left(place) + 11, sheet.plot_end() + 43);
    put_number_ink(out, sheet, cpu);
    put_colour_end(out, cpu);
}

/// A box in the CPU's colour, and its number in it.
fn put_colour(out: &mut Draft, sheet: &Sheet, place: u64, cpu: u64)
    requires sheet { IsSheet sheet.now }
    requires place { place ≤ 8 }
    requires cpu { cpu < 2 ^ 40 }
    ensures { Adds out.old out.new (legends.colour_line sheet.now place cpu) }
{
    put_colour_place(out, sheet, place);
    put_colour_fill(out, sheet, cpu);
    put_colour_number(out, sheet, place, cpu);
}

fn put_boxes(out: &mut Draft, sheet: &Sheet, cpus: &[u64])
    requires sheet { IsSheet sheet.now }
    requires few { length cpus.now ≤ 8 }
    requires small { All (λ c. c < 2 ^ 40) cpus.now }
    ensures { Adds out.old out.new (numbered_lines (legends.colour_line sheet.now) 0 cpus.now) }
{
    for (place, cpu) in cpus.iter().enumerate() {
        put_colour(out, sheet, place as u64, *cpu);
    }
}

fn put_colour_title(out: &mut Draft, sheet: &Sheet)
    requires sheet { IsSheet sheet.now }
    ensures { Adds out.old out.new (legends.colour_title sheet.now) }
{
    put_with(out, b"<text x=\"142\" y=\"", sheet.plot_end() + 43);
    out.put(b"\" text-anchor=\"end\" font-size=\"11\">CPU</text>\n");
}

fn put_colours(out: &mut Draft, sheet: &Sheet, cpus: &[u64])
    requires sheet { IsSheet sheet.now }
    requires few { length cpus.now ≤ 8 }
    requires small { All (λ c. c < 2 ^ 40) cpus.now }
    ensures { Adds out.old out.new (legends.colours sheet.now cpus.now) }
{
    put_colour_title(out, sheet);
    put_boxes(out, sheet, cpus);
}

// ---- signs

fn put_sign(out: &mut Draft, class: &[u8], left: u64, top: u64, path: &[u8])
    ensures { Adds out.old out.new (legends.sign_at class.now left top path.now) }
{
    put_path_at(out, class, left, top, path);
    out.put(b"\"/>");
}

/// What a sign means, beside it.
fn put_meaning(out: &mut Draft, sheet: &Sheet, left: u64, word: &[u8])
    requires sheet { IsSheet sheet.now }
    ensures { Adds out.old out.new (legends.meaning sheet.now left word.now) }
{
    put_text_at(out, left, sheet.plot_end() + 43);
    out.put(b"\" font-size=\"11\">");
    out.put(word);
    out.put(b"</text>\n");
}

fn line_meaning(throttled: bool) -> &'static [u8]
    ensures { result.now ≡ legends.line_meaning throttled }
{
    if throttled {
        return b"throttled";
    }
    b"wants a CPU"
}

/// A line, and beside it its meaning.
fn put_line_sign(out: &mut Draft, sheet: &Sheet, left: u64, throttled: bool)
    requires sheet { IsSheet sheet.now }
    requires left { left ≤ 2000 }
    ensures { Adds out.old out.new (legends.line_sign sheet.now left throttled) }
{
    put_sign(
        out,
        line_class(throttled),
        left,
        sheet.plot_end() + 39,
        b"h30",
    );
    put_meaning(out, sheet, left + 36, line_meaning(throttled));
}

fn put_line_signs(out: &mut Draft, sheet: &Sheet, left: u64)
    requires sheet { IsSheet sheet.now }
    requires left { left ≤ 1000 }
    ensures { Adds out.old out.new (legends.line_signs sheet.now left) }
{
    put_line_sign(out, sheet, left, false);
    put_line_sign(out, sheet, left + 176, true);
}

/// How far below the plot a mark begins.
fn sign_top(sign: Sign) -> u64
    ensures top { result ≡ legends.sign_top sign }
    ensures small { result ≤ 100 }
{
    match sign {
        Sign::Released => 44,
        Sign::Due => 36,
        Sign::Ended => 32,
    }
}

/// How far from where it begins its meaning is.
fn sign_indent(sign: Sign) -> u64
    ensures indent { result ≡ legends.sign_indent sign }
    ensures small { result ≤ 100 }
{
    match sign {
        Sign::Released | Sign::Due => 10,
        Sign::Ended => 8,
    }
}

fn mark_meaning(sign: Sign) -> &'static [u8]
    ensures { result.now ≡ legends.mark_meaning sign }
{
    match sign {
        Sign::Released => b"released",
        Sign::Due => b"due",
        Sign::Ended => b"ended",
    }
}

/// A mark, and beside it its meaning.
fn put_mark_sign(out: &mut Draft, sheet: &Sheet, left: u64, sign: Sign)
    requires sheet { IsSheet sheet.now }
    requires left { left ≤ 2000 }
    ensures { Adds out.old out.new (legends.mark_sign sheet.now left sign) }
{
    put_sign(
        out,
        mark_class(sign),
        left,
        sheet.plot_end() + sign_top(sign),
        mark_path(sign),
    );
    put_meaning(out, sheet, left + sign_indent(sign), mark_meaning(sign));
}

fn put_mark_signs(out: &mut Draft, sheet: &Sheet, left: u64)
    requires sheet { IsSheet sheet.now }
    requires left { left ≤ 1000 }
    ensures { Adds out.old out.new (legends.mark_signs sheet.now left) }
{
    put_mark_sign(out, sheet, left + 330, Sign::Released);
    put_mark_sign(out, sheet, left + 446, Sign::Due);
    put_mark_sign(out, sheet, left + 506, Sign::Ended);
}

fn put_signs(out: &mut Draft, sheet: &Sheet, left: u64)
    requires sheet { IsSheet sheet.now }
    requires left { left ≤ 1000 }
    ensures { Adds out.old out.new (legends.signs sheet.now left) }
{
    put_line_signs(out, sheet, left);
    put_mark_signs(out, sheet, left);
}

// ---- all

fn put_legend_of(out: &mut Draft, sheet: &Sheet, cpus: &[u64])
    requires sheet { IsSheet sheet.now }
    requires few { length cpus.now ≤ 8 }
    requires small { All (λ c. c < 2 ^ 40) cpus.now }
    ensures { Adds out.old out.new (legends.legend_of sheet.now cpus.now) }
{
    put_colours(out, sheet, cpus);
    put_signs(out, sheet, 170 + cpus.len() as u64 * 28);
}

/// The legend.
pub(crate) fn put_legend(out: &mut Draft, alloc: Global, sheet: &Sheet)
    requires sheet { IsSheet sheet.now }
    requires cpus { sheet.now.cpus ≤ 512 }
    ensures { Adds out.old out.new (legends.legend sheet.now) }
{
    match legend_cpus(alloc, sheet.cpus) {
        Ok(cpus) => put_legend_of(out, sheet, &cpus),
        Err(NoMemory) => out.refuse(),
    }
}
