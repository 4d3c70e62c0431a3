//! A task while its switches and its moments go by.

ghost use Rattle.std.specs.Prelude.{◌≡◌, ◌≢◌, IfOk, OnOk, IfSome, IfNone, All, map};
ghost use Rattle.chart_pieces.specs.private.Lines as lines;

use crate::marks::{push_gap, push_marks};
use crate::row::{Bar, Gap, Mark, Row};
use crate::status::{Moment, TaskStatus, after, at_rest};
use crate::window::Window;
use domain_run::{NoMemory, Switch};
use run_figures::{Admitted, Places};
use std::alloc::Global;
use std::marker::Model;

/// A task while its switches and its moments go by.
#[derive(Drop)]
pub(crate) struct Line {
    number: u32,
    /// Its bars so far. One that goes on lasts to the end of the run.
    bars: Vec<Bar>,
    status: TaskStatus,
    /// Since when it stands so.
    since: u64,
    gaps: Vec<Gap>,
    marks: Vec<Mark>,
}

impl Model for Line {
    ghost use Rattle.chart_pieces.specs.private.LineView.{ChartLineView};

    ghost Value = { ChartLineView };

    ghost view = { λ l. record {
      number = l.number;
      bars = l.bars.items;
      status = l.status;
      since = l.since;
      gaps = l.gaps.items;
      marks = l.marks.items;
    } };
}

/// One line for each task.
pub(crate) fn no_lines(alloc: Global, tasks: &[Admitted]) -> Result<Vec<Line>, NoMemory>
    ensures { IfOk result (λ v. v.items ≡ map (λ t. lines.line_without_bars t.number) tasks.now) }
{
    let mut table = Vec::with_capacity(alloc, tasks.len())?;
    for task in tasks {
        table.push(Line {
            number: task.number,
            bars: Vec::new(alloc),
            status: at_rest(),
            since: 0,
            gaps: Vec::new(alloc),
            marks: Vec::new(alloc),
        })?;
    }
    Ok(table)
}

// ---- bars

/// One more bar, from a switch to the end of the run.
fn push_bar(line: &mut Line, window: &Window, switch: &Switch, end: u64) -> Result<(), NoMemory>
    ensures { OnOk result (line.new ≡ lines.with_bar window.now switch.now end line.old) }
{
    if window.touches(switch.time(), end) {
        line.bars.push(Bar {
            cpu: switch.cpu(),
            start: switch.time(),
            stop: end,
        })?;
    }
    Ok(())
}

/// One more bar of the task that comes by a switch, to the end of the run.
pub(crate) fn put_bar(
    table: &mut Vec<Line>,
    places: &Places,
    window: &Window,
    switch: &Switch,
    end: u64,
) -> Result<(), NoMemory>
    requires keyed { map (λ l. l.number) table.old.items ≡ places.now }
    ensures { OnOk result (table.new.items ≡ map
        (lines.with_bar_of switch.now.next window.now switch.now end) table.old.items) }
{
    let Some(number) = switch.next() else {
        return Ok(());
    };
    match places.find(number) {
        None => Ok(()),
        Some(place) => push_bar(&mut table[place], window, switch, end),
    }
}

/// The place of the last bar on a CPU.
fn last_on(bars: &[Bar], cpu: u16) -> Option<usize>
    ensures found { IfSome result (lines.IsLastOn bars.now cpu) }
    ensures absent { IfNone result (All (λ b. b.cpu ≢ cpu) bars.now) }
{
    let mut left = bars.len();
    while left > 0 {
        left -= 1;
        if bars[left].cpu == cpu {
            return Some(left);
        }
    }
    None
}

/// Stops the last bar on the CPU of a switch, and takes it out if it has no part in the window.
fn stop_bar(bars: &mut Vec<Bar>, window: &Window, switch: &Switch)
    requires drawn { lines.AreDrawn window.now switch.now.time bars.old.items }
    ensures { bars.new.items ≡ lines.bars_stopped window.now switch.now bars.old.items }
{
    let Some(place) = last_on(bars, switch.cpu()) else {
        return;
    };
    let bar = bars[place];
    let stop = bar.stop.min(switch.time());
    if window.touches(bar.start, stop) {
        bars[place] = Bar { stop, ..bar };
    } else {
        bars.remove(place);
    }
}

fn stop_line(line: &mut Line, window: &Window, switch: &Switch)
    requires drawn { lines.AreDrawn window.now switch.now.time line.old.bars }
    ensures { line.new ≡ lines.with_stop window.now switch.now line.old }
{
    stop_bar(&mut line.bars, window, switch);
}

/// Stops the bar of the task that had the CPU up to a switch.
pub(crate) fn put_stop(
    table: &mut Vec<Line>,
    places: &Places,
    window: &Window,
    switch: &Switch,
    holder: Option<u32>,
)
    requires keyed { map (λ l. l.number) table.old.items ≡ places.now }
    requires drawn { All (λ l. lines.AreDrawn window.now switch.now.time l.bars) table.old.items }
    ensures { table.new.items
        ≡ map (lines.with_stop_of holder window.now switch.now) table.old.items }
{
    let Some(number) = holder else {
        return;
    };
    if let Some(place) = places.find(number) {
        stop_line(&mut table[place], window, switch);
    }
}

// ---- moments

/// What a moment of the task makes of its line.
fn log_line(line: &mut Line, window: &Window, moment: &Moment) -> Result<(), NoMemory>
    ensures { OnOk result (line.new ≡ lines.bars_after window.now moment.now line.old) }
{
    push_gap(
        &mut line.gaps,
        window,
        &line.status,
        line.since,
        moment.time,
    )?;
    push_marks(
        &mut line.marks,
        window,
        &line.status,
        moment.time,
        moment.turn,
    )?;
    line.status = after(line.status, moment.turn);
    line.since = moment.time;
    Ok(())
}

/// Tells a moment.
pub(crate) fn say(
    table: &mut Vec<Line>,
    places: &Places,
    window: &Window,
    moment: &Moment,
) -> Result<(), NoMemory>
    requires keyed { map (λ l. l.number) table.old.items ≡ places.now }
    ensures { OnOk result (table.new.items
        ≡ map (λ l. lines.bars_if window.now l moment.now) table.old.items) }
{
    match places.find(moment.number) {
        None => Ok(()),
        Some(place) => log_line(&mut table[place], window, moment),
    }
}

// ---- rows

/// The row of a task, where the run ends at this time.
pub(crate) fn closed(line: Line, window: &Window, time: u64) -> Result<Row, NoMemory>
    ensures { IfOk result (λ r. r ≡ lines.row_by window.now time line) }
{
    let Line {
        number,
        bars,
        status,
        since,
        mut gaps,
        marks,
    } = line;
    push_gap(&mut gaps, window, &status, since, time)?;
    Ok(Row {
        number,
        bars,
        gaps,
        marks,
    })
}
