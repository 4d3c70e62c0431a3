//! The whole chart.

ghost use Rattle.std.specs.Prelude.{◌≡◌, ◌≤◌, ◌^◌, All, length, map, flat_map};
ghost use Rattle.run_figures.specs.Lines.{numbered_lines};
ghost use Rattle.draft.specs.Draft.{Adds};
ghost use Rattle.chart_pieces.specs.Window.{IsWindow};
ghost use Rattle.chart.specs.Chart as charts;
ghost use Rattle.chart.specs.Pieces as pieces;
ghost use Rattle.chart.specs.Rows.{chart_row_view_of, IsDrawn};
ghost use Rattle.chart.specs.private.Sheets.{IsSheet};

use crate::axis::{put_axis_time, ticks_of, unit_name};
use crate::legend::put_legend;
use crate::over::put_over_lines;
use crate::pieces::{put_name_lines, put_row_lines, put_text_at};
use crate::row::ChartRow;
use crate::sheet::{LABEL_FOOT, Sheet, sheet_of};
use crate::texts::{put_times, put_with};
use chart_pieces::Window;
use draft::{Draft, NoMemory};
use std::alloc::Global;

// ---- the head

fn chart_height(sheet: &Sheet) -> u64
    requires { IsSheet sheet.now }
    ensures { result ≡ charts.chart_height sheet.now }
{
    sheet.plot_end() + 62
}

fn put_opening(out: &mut Draft, sheet: &Sheet)
    requires sheet { IsSheet sheet.now }
    ensures { Adds out.old out.new (charts.opening sheet.now) }
{
    put_with(
        out,
        b"<svg xmlns=\"http://www.w3.org/2000/svg\" viewBox=\"0 0 1200 ",
        chart_height(sheet),
    );
    out.put(
        b"\" width=\"100%\" role=\"img\" \
          font-family=\"DejaVu Sans, Verdana, sans-serif\" font-size=\"12\">\n",
    );
}

fn put_counts(out: &mut Draft, sheet: &Sheet)
    ensures { Adds out.old out.new (charts.counts sheet.now) }
{
    put_with(out, b"<title>Which task ran where: ", sheet.rows);
    put_with(out, b" tasks on ", sheet.cpus);
}

fn put_span(out: &mut Draft, sheet: &Sheet)
    ensures { Adds out.old out.new (charts.span sheet.now) }
{
    out.put(b" CPUs, ");
    put_times(out, sheet.window.from, sheet.window.to);
    out.put(b"</title>\n");
}

fn put_chart_title(out: &mut Draft, sheet: &Sheet)
    ensures { Adds out.old out.new (charts.chart_title sheet.now) }
{
    put_counts(out, sheet);
    put_span(out, sheet);
}

/// How the elements look.
fn style() -> &'static [u8]
    ensures { result.now ≡ charts.style }
{
    b"<style>.b{stroke:#333;stroke-width:.75}\
      .b,.g,.w,.t,.x,.r,.d{vector-effect:non-scaling-stroke}\
      .g{stroke:#bbb}.w{stroke:#555;stroke-width:1.5}\
      .t{stroke:#b00000;stroke-width:2.5;stroke-dasharray:3 3}.x{stroke:#000;stroke-width:2}\
      .r{stroke:#000;fill:none}.d{stroke:#b00000;fill:none}\
      rect.b:hover{stroke:#000;stroke-width:2.5}\
      @media(max-width:700px){text{font-size:18px}text[text-anchor=end]{font-size:15px}}\
      @media print{.g{stroke:#888}}@page{size:landscape;margin:10mm}</style>\n"
}

fn put_background(out: &mut Draft, sheet: &Sheet)
    requires sheet { IsSheet sheet.now }
    ensures { Adds out.old out.new (charts.background sheet.now) }
{
    put_with(out, b"<rect width=\"1200\" height=\"", chart_height(sheet));
    out.put(b"\" fill=\"#fff\"/>\n");
}

fn put_head(out: &mut Draft, sheet: &Sheet)
    requires sheet { IsSheet sheet.now }
    ensures { Adds out.old out.new (charts.head sheet.now) }
{
    put_opening(out, sheet);
    put_chart_title(out, sheet);
    out.put(style());
    put_background(out, sheet);
}

// ---- the plot

fn put_names(out: &mut Draft, sheet: &Sheet, rows: &[ChartRow<'_>])
    requires sheet { IsSheet sheet.now }
    requires few { length rows.now ≤ 2 ^ 20 }
    ensures { Adds out.old out.new
        (numbered_lines (pieces.name_lines sheet.now) 0 (map chart_row_view_of rows.now)) }
{
    for (place, row) in rows.iter().enumerate() {
        put_name_lines(out, sheet, place as u64, row);
    }
}

fn put_plot_size(out: &mut Draft, sheet: &Sheet)
    requires sheet { IsSheet sheet.now }
    ensures { Adds out.old out.new (charts.plot_size sheet.now) }
{
    put_with(
        out,
        b"<svg x=\"150\" y=\"15\" width=\"1020\" height=\"",
        sheet.plot_height(),
    );
}

fn put_plot_view(out: &mut Draft, sheet: &Sheet)
    requires sheet { IsSheet sheet.now }
    ensures { Adds out.old out.new (charts.plot_view sheet.now) }
{
    put_with(out, b"\" viewBox=\"", sheet.window.from);
    put_with(out, b" 0 ", sheet.window.to - sheet.window.from);
    put_with(out, b" ", sheet.plot_height());
    out.put(b"\" preserveAspectRatio=\"none\">\n");
}

fn put_plot_opening(out: &mut Draft, sheet: &Sheet)
    requires sheet { IsSheet sheet.now }
    ensures { Adds out.old out.new (charts.plot_opening sheet.now) }
{
    put_plot_size(out, sheet);
    put_plot_view(out, sheet);
}

fn put_grid_line(out: &mut Draft, sheet: &Sheet, time: u64)
    requires sheet { IsSheet sheet.now }
    ensures { Adds out.old out.new (charts.grid_line sheet.now time) }
{
    put_with(out, b"<path class=\"g\" d=\"M", time);
    put_with(out, b" 0V", sheet.plot_height());
    out.put(b"\"/>\n");
}

fn put_grid(out: &mut Draft, sheet: &Sheet, ticks: &[u64])
    requires sheet { IsSheet sheet.now }
    ensures { Adds out.old out.new (flat_map (charts.grid_line sheet.now) ticks.now) }
{
    for time in ticks {
        put_grid_line(out, sheet, *time);
    }
}

fn put_rows(out: &mut Draft, sheet: &Sheet, rows: &[ChartRow<'_>])
    requires sheet { IsSheet sheet.now }
    requires few { length rows.now ≤ 2 ^ 20 }
    ensures { Adds out.old out.new
        (numbered_lines (pieces.row_lines sheet.now) 0 (map chart_row_view_of rows.now)) }
{
    for (place, row) in rows.iter().enumerate() {
        put_row_lines(out, sheet, place as u64, row);
    }
}

fn put_plot(out: &mut Draft, sheet: &Sheet, ticks: &[u64], rows: &[ChartRow<'_>])
    requires sheet { IsSheet sheet.now }
    requires few { length rows.now ≤ 2 ^ 20 }
    ensures { Adds out.old out.new
        (charts.plot sheet.now ticks.now (map chart_row_view_of rows.now)) }
{
    put_plot_opening(out, sheet);
    put_grid(out, sheet, ticks);
    put_rows(out, sheet, rows);
    out.put(b"</svg>\n");
}

// ---- over the plot

fn put_over(out: &mut Draft, sheet: &Sheet, rows: &[ChartRow<'_>])
    requires sheet { IsSheet sheet.now }
    requires few { length rows.now ≤ 2 ^ 20 }
    requires drawn { All (IsDrawn sheet.now.window) rows.now }
    ensures { Adds out.old out.new
        (numbered_lines (pieces.over_lines sheet.now) 0 (map chart_row_view_of rows.now)) }
{
    for (place, row) in rows.iter().enumerate() {
        put_over_lines(out, sheet, place as u64, row);
    }
}

// ---- the axis

fn put_label(out: &mut Draft, sheet: &Sheet, top: u64, time: u64)
    requires sheet { IsSheet sheet.now }
    requires time { time ≤ 2 ^ 42 }
    ensures { Adds out.old out.new (charts.label sheet.now top time) }
{
    put_text_at(out, sheet.pixel_of(time), top);
    out.put(b"\" text-anchor=\"middle\" font-size=\"11\" fill=\"#333\">");
    put_axis_time(out, &sheet.window, time);
    out.put(b"</text>\n");
}

/// A label above the plot, and one below it.
fn put_labels(out: &mut Draft, sheet: &Sheet, time: u64)
    requires sheet { IsSheet sheet.now }
    requires time { time ≤ 2 ^ 42 }
    ensures { Adds out.old out.new (charts.labels sheet.now time) }
{
    put_label(out, sheet, LABEL_FOOT, time);
    put_label(out, sheet, sheet.plot_end() + 16, time);
}

fn put_all_labels(out: &mut Draft, sheet: &Sheet, ticks: &[u64])
    requires sheet { IsSheet sheet.now }
    requires early { All (λ t. t ≤ 2 ^ 42) ticks.now }
    ensures { Adds out.old out.new (flat_map (charts.labels sheet.now) ticks.now) }
{
    for time in ticks {
        put_labels(out, sheet, *time);
    }
}

/// The unit of the axis.
fn put_axis_name(out: &mut Draft, sheet: &Sheet)
    requires sheet { IsSheet sheet.now }
    ensures { Adds out.old out.new (charts.axis_name sheet.now) }
{
    put_text_at(out, 142, LABEL_FOOT);
    out.put(b"\" text-anchor=\"end\" font-size=\"11\" fill=\"#333\">time in ");
    out.put(unit_name(&sheet.window));
    out.put(b"</text>\n");
}

fn put_axis(out: &mut Draft, sheet: &Sheet, ticks: &[u64])
    requires sheet { IsSheet sheet.now }
    requires early { All (λ t. t ≤ 2 ^ 42) ticks.now }
    ensures { Adds out.old out.new (charts.axis sheet.now ticks.now) }
{
    put_all_labels(out, sheet, ticks);
    put_axis_name(out, sheet);
}

// ---- all

fn put_upper(out: &mut Draft, sheet: &Sheet, ticks: &[u64], rows: &[ChartRow<'_>])
    requires sheet { IsSheet sheet.now }
    requires few { length rows.now ≤ 2 ^ 20 }
    ensures { Adds out.old out.new
        (charts.upper sheet.now ticks.now (map chart_row_view_of rows.now)) }
{
    put_head(out, sheet);
    put_names(out, sheet, rows);
    put_plot(out, sheet, ticks, rows);
}

fn put_lower(out: &mut Draft, alloc: Global, sheet: &Sheet, ticks: &[u64], rows: &[ChartRow<'_>])
    requires sheet { IsSheet sheet.now }
    requires cpus { sheet.now.cpus ≤ 512 }
    requires few { length rows.now ≤ 2 ^ 20 }
    requires early { All (λ t. t ≤ 2 ^ 42) ticks.now }
    requires drawn { All (IsDrawn sheet.now.window) rows.now }
    ensures { Adds out.old out.new
        (charts.lower sheet.now ticks.now (map chart_row_view_of rows.now)) }
{
    put_over(out, sheet, rows);
    put_axis(out, sheet, ticks);
    put_legend(out, alloc, sheet);
    out.put(b"</svg>\n");
}

fn put_chart_of(out: &mut Draft, alloc: Global, sheet: &Sheet, ticks: &[u64], rows: &[ChartRow<'_>])
    requires sheet { IsSheet sheet.now }
    requires cpus { sheet.now.cpus ≤ 512 }
    requires few { length rows.now ≤ 2 ^ 20 }
    requires early { All (λ t. t ≤ 2 ^ 42) ticks.now }
    requires drawn { All (IsDrawn sheet.now.window) rows.now }
    ensures { Adds out.old out.new
        (charts.chart_of sheet.now ticks.now (map chart_row_view_of rows.now)) }
{
    put_upper(out, sheet, ticks, rows);
    put_lower(out, alloc, sheet, ticks, rows);
}

/// Puts the chart of a window behind a text: one SVG file of at most 2^20 rows, of a machine of at
/// most 512 CPUs. Costs what the window's bars, gaps and marks cost.
pub fn put_chart(out: &mut Draft, alloc: Global, window: Window, cpus: u64, rows: &[ChartRow<'_>])
    requires window { IsWindow window }
    requires cpus { cpus ≤ 512 }
    requires few { length rows.now ≤ 2 ^ 20 }
    requires drawn { All (IsDrawn window) rows.now }
    ensures { Adds out.old out.new
        (charts.chart_text window cpus (map chart_row_view_of rows.now)) }
{
    match ticks_of(alloc, &window) {
        Ok(ticks) => {
            let sheet = sheet_of(window, cpus, rows.len() as u64);
            put_chart_of(out, alloc, &sheet, &ticks, rows);
        }
        Err(NoMemory) => out.refuse(),
    }
}
