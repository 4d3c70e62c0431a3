//! The chart of the runs of the sections of a calls text, which are drawn while they are made.

ghost use Rattle.std.specs.Prelude.{◌≡◌, ◌<◌, ◌≤◌, ◌^◌, All, IfErr, IfOk, OnOk, length, map};
ghost use Rattle.counted_io.specs.Sides.{faults_of, side};
ghost use Rattle.chart_pieces.specs.declared.window.Window.{Window as WindowView};
ghost use Rattle.chart_pieces.specs.Window.{IsWindow};
ghost use Rattle.chart.specs.Rows as charts;
ghost use Rattle.calls_trace.specs.Written.{IsWritten, IsUnwritten};
ghost use Rattle.calls_trace.specs.private.Sketched.{IsReadyToRun, ahead_as, chart_ahead, chart_sketched, charted_from, cpus_sketched, sketch_ahead, sketch_as};

use crate::fault::TraceFault;
use crate::figures::write_whole;
use crate::foreseen_text::{ForeseenSection, end_of};
use crate::sketch::Sketch;
use crate::sketching::sketch_out;
use chart::{ChartRow, put_chart};
use chart_pieces::{Span, Window};
use domain_run::NoMemory;
use draft::Draft;
use std::alloc::Global;
use std::io::Write;
use switch_text::Counted;

/// Makes the calls of a section: what is drawn of its run.
fn sketch_section(
    alloc: Global,
    window: Window,
    section: ForeseenSection,
) -> Result<Sketch, NoMemory>
    requires ready { IsReadyToRun section }
    ensures drawn { IfOk result (λ s. sketch_as s ≡ sketch_ahead window (ahead_as section)) }
    ensures window { IfOk result (λ s. s.window ≡ window) }
{
    let ForeseenSection {
        cpus,
        limit,
        foreseen,
    } = section;
    sketch_out(alloc, window, cpus, limit, foreseen)
}

/// Makes the calls of each section: what is drawn of their runs.
fn all_sketched(
    alloc: Global,
    window: Window,
    sections: Vec<ForeseenSection>,
) -> Result<Vec<Sketch>, NoMemory>
    requires ready { All IsReadyToRun sections.items }
    ensures drawn { IfOk result (λ v. map sketch_as v.items
        ≡ map (λ f. sketch_ahead window (ahead_as f)) sections.items) }
    ensures window { IfOk result (λ v. All (λ s. s.window ≡ window) v.items) }
{
    let mut all = Vec::with_capacity(alloc, sections.len())?;
    let mut rest = sections.into_iter();
    while let Some(section) = rest.next() {
        all.push_reserved(sketch_section(alloc, window, section)?);
    }
    Ok(all)
}

/// The rows of all runs, by domain, by task.
fn all_rows<'a>(alloc: Global, sketches: &'a [Sketch]) -> Result<Vec<ChartRow<'a>>, NoMemory>
    requires few { length sketches.now ≤ 8 }
    ensures rows { IfOk result (λ v. map charts.chart_row_view_of v.items
        ≡ charted_from 0 (map sketch_as sketches.now)) }
    ensures drawn { (w : WindowView) → All (λ s. s.window ≡ w) sketches.now
        → IfOk result (λ v. All (charts.IsDrawn w) v.items) }
    ensures few { IfOk result (λ v. length v.items ≤ 2 ^ 20) }
{
    let mut all = Vec::new(alloc);
    let mut base = 0;
    for one in sketches {
        one.push_rows(&mut all, base)?;
        base += one.cpus;
    }
    Ok(all)
}

/// How many CPUs the machine has.
fn cpus_of(sketches: &[Sketch]) -> u64
    requires few { length sketches.now ≤ 8 }
    ensures cpus { result ≡ cpus_sketched (map sketch_as sketches.now) }
    ensures few { result ≤ 512 }
{
    let mut cpus = 0;
    for one in sketches {
        cpus += u64::from(one.cpus);
    }
    cpus
}

/// The chart of what is drawn in this window.
pub(crate) fn drawn_text(
    alloc: Global,
    window: Window,
    sketches: &[Sketch],
) -> Result<Vec<u8>, NoMemory>
    requires few { length sketches.now ≤ 8 }
    requires sound { IsWindow window }
    requires window { All (λ s. s.window ≡ window) sketches.now }
    ensures { IfOk result (λ v. v.items ≡ chart_sketched window (map sketch_as sketches.now)) }
{
    let rows = all_rows(alloc, sketches)?;
    let mut text = Draft::new(alloc);
    put_chart(&mut text, alloc, window, cpus_of(sketches), &rows);
    text.into_text()
}

/// The chart of a part of the runs of sections. It shows all of them up to the time at which the
/// last one ends, if no end is asked for.
fn sketched_text(
    alloc: Global,
    span: Span,
    sections: Vec<ForeseenSection>,
) -> Result<Vec<u8>, NoMemory>
    requires few { length sections.items ≤ 8 }
    requires ready { All IsReadyToRun sections.items }
    ensures { IfOk result (λ v. v.items ≡ chart_ahead span (map ahead_as sections.items)) }
{
    let window = span.window(end_of(&sections));
    let sketches = all_sketched(alloc, window, sections)?;
    drawn_text(alloc, window, &sketches)
}

/// Makes the calls of sections, and writes the chart of a part of their runs.
pub(crate) fn write_sketched<W: Write>(
    alloc: Global,
    span: Span,
    sections: Vec<ForeseenSection>,
    writer: &mut Counted<W>,
) -> Result<(), TraceFault>
    requires few { length sections.items ≤ 8 }
    requires ready { All IsReadyToRun sections.items }
    requires faults { faults_of writer.old < 2 ^ 63 }
    ensures ok { OnOk result (IsWritten (side W.contents writer.old writer.new)
        (chart_ahead span (map ahead_as sections.items))) }
    ensures err { IfErr result (IsUnwritten (side W.contents writer.old writer.new)
        (chart_ahead span (map ahead_as sections.items))) }
{
    let text = sketched_text(alloc, span, sections)?;
    write_whole(&text, writer)
}
