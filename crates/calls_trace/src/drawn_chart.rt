//! The chart of histories whose runs were drawn while they were made.

ghost use Rattle.std.specs.Prelude.{◌≡◌, ◌<◌, ◌≤◌, ◌^◌, All, IfErr, IfOk, List, OnOk, length, map};
ghost use Rattle.domain_run.specs.Passing.{without_switches};
ghost use Rattle.counted_io.specs.Sides.{faults_of, side};
ghost use Rattle.calls_text.specs.Histories.{AreLegal, IsLegal};
ghost use Rattle.chart_pieces.specs.RowView.{RowView};
ghost use Rattle.chart_pieces.specs.Window.{IsWindow};
ghost use Rattle.calls_trace.specs.Charted.{chart_in};
ghost use Rattle.calls_trace.specs.Streamed.{AreDrawings, AreRunsButSwitches, section_streamed};
ghost use Rattle.calls_trace.specs.DomainEvents.{domain_of};
ghost use Rattle.calls_trace.specs.Written.{IsUnwritten, IsWritten};
ghost use Rattle.calls_trace.specs.private.Sketched.{ahead_in, row_in, sketch_ahead, sketch_as};
ghost use Rattle.limits.specs.Limits.{max_history};

use crate::fault::TraceFault;
use crate::figures::write_whole;
use crate::named_run::names_of;
use crate::sketch::Sketch;
use crate::sketched_text::drawn_text;
use calls_text::Section;
use chart_pieces::{Drawing, Window};
use domain_run::{NoMemory, State};
use std::alloc::Global;
use std::io::Write;
use switch_text::Counted;

/// The places of this number of rows: all of them, in their order.
fn places_up_to(alloc: Global, count: usize) -> Result<Vec<usize>, NoMemory>
    ensures inside { IfOk result (λ v. All (λ i. i < count) v.items) }
    ensures many { IfOk result (λ v. length v.items ≡ count) }
    ensures all { (rows : List RowView) → length rows ≡ count
        → IfOk result (λ v. map (row_in rows) v.items ≡ rows) }
{
    let mut places = Vec::with_capacity(alloc, count)?;
    for place in 0..count {
        places.push_reserved(place);
    }
    Ok(places)
}

/// The places of the rows of all tasks that were ever admitted.
fn places_of_all(alloc: Global, state: &State) -> Result<Vec<usize>, NoMemory>
    ensures inside { IfOk result (λ v. All (λ i. i < length state.now.used) v.items) }
    ensures few { IfOk result (λ v. length v.items ≤ max_history) }
    ensures all { (rows : List RowView) → length rows ≡ length state.now.used
        → IfOk result (λ v. map (row_in rows) v.items ≡ rows) }
{
    let numbers = state.numbers(alloc)?;
    places_up_to(alloc, numbers.len())
}

/// What is drawn in this window of the run of a history.
fn sketch_of(
    alloc: Global,
    window: Window,
    history: &Section,
    state: &State,
    drawing: Drawing,
) -> Result<Sketch, NoMemory>
    requires legal { IsLegal history.now.cpus history.now.limit history.now.entries }
    requires state { without_switches state.now ≡ without_switches (domain_of history.now) }
    requires same_window { drawing.window ≡ window }
    requires whole { drawing.streamed ≡ section_streamed history.now }
    ensures drawn { IfOk result (λ s. sketch_as s ≡ sketch_ahead window (ahead_in history.now)) }
    ensures window { IfOk result (λ s. s.window ≡ window) }
{
    let rows = drawing.rows(alloc)?;
    // What is dropped goes by one call: its parts would be written out on each way.
    let places = match places_of_all(alloc, state) {
        Ok(places) => places,
        Err(error) => {
            drop(rows);
            return Err(error);
        }
    };
    match names_of(alloc, history) {
        Ok(names) => Ok(Sketch::of_rows(window, names, state.cpus(), rows, places)),
        Err(error) => {
            drop(places);
            drop(rows);
            Err(error)
        }
    }
}

/// What is drawn in this window of the run of each history.
fn sketches_of(
    alloc: Global,
    window: Window,
    histories: &[Section],
    states: &[State],
    drawings: Vec<Drawing>,
) -> Result<Vec<Sketch>, NoMemory>
    requires legal { AreLegal histories.now }
    requires count { length states.now ≡ length histories.now }
    requires runs { AreRunsButSwitches histories.now states.now }
    requires drawn { AreDrawings window histories.now drawings.items }
    ensures drawn { IfOk result (λ v. map sketch_as v.items
        ≡ map (λ s. sketch_ahead window (ahead_in s)) histories.now) }
    ensures window { IfOk result (λ v. All (λ s. s.window ≡ window) v.items) }
{
    let mut all = Vec::with_capacity(alloc, histories.len())?;
    let mut rest = drawings.into_iter();
    let mut place = 0;
    while let Some(drawing) = rest.next() {
        let one = sketch_of(alloc, window, &histories[place], &states[place], drawing)?;
        all.push_reserved(one);
        place += 1;
    }
    Ok(all)
}

/// The chart of what was drawn of the runs of histories.
fn chart_of_drawings(
    alloc: Global,
    window: Window,
    histories: &[Section],
    states: &[State],
    drawings: Vec<Drawing>,
) -> Result<Vec<u8>, NoMemory>
    requires few { length histories.now ≤ 8 }
    requires count { length states.now ≡ length histories.now }
    requires legal { AreLegal histories.now }
    requires sound { IsWindow window }
    requires runs { AreRunsButSwitches histories.now states.now }
    requires drawn { AreDrawings window histories.now drawings.items }
    ensures { IfOk result (λ v. v.items ≡ chart_in window histories.now) }
{
    let sketches = sketches_of(alloc, window, histories, states, drawings)?;
    drawn_text(alloc, window, &sketches)
}

/// Writes the chart of a part of the runs of 1 to 8 histories, the part in this window: the text
/// that a replay of their calls text writes for [`ReplayPrint::Chart`](crate::ReplayPrint::Chart).
/// There is a drawing of each run in this window, from its beginning to its end. The states are
/// those that the histories led to. Their switches are not used, so a state may have forgotten
/// them. Nothing is run again, and no memory is taken once the first byte is written.
///
/// # Errors
/// [`TraceFault::Memory`]: a growth was refused, now or while a run was drawn, and nothing was
/// written. [`TraceFault::Write`]: the writer failed; it took `written` bytes, the front of the
/// text, and not all.
pub fn write_drawn_chart<W: Write>(
    alloc: Global,
    window: Window,
    histories: &[Section],
    states: &[State],
    drawings: Vec<Drawing>,
    writer: &mut Counted<W>,
) -> Result<(), TraceFault>
    requires few { length histories.now ≤ 8 }
    requires count { length states.now ≡ length histories.now }
    requires legal { AreLegal histories.now }
    requires sound { IsWindow window }
    requires runs { AreRunsButSwitches histories.now states.now }
    requires drawn { AreDrawings window histories.now drawings.items }
    requires faults { faults_of writer.old < 2 ^ 63 }
    ensures ok { OnOk result (IsWritten (side W.contents writer.old writer.new)
        (chart_in window histories.now)) }
    ensures err { IfErr result (IsUnwritten (side W.contents writer.old writer.new)
        (chart_in window histories.now)) }
{
    let text = chart_of_drawings(alloc, window, histories, states, drawings)?;
    write_whole(&text, writer)
}
