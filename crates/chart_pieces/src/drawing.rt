//! The rows of a run that is streamed piece by piece.

ghost use Rattle.std.specs.Prelude.{◌≡◌, [], IfOk, List, All, map};
ghost use Rattle.run_figures.specs.Accounting.{IsNextPiece, streamed_run};
ghost use Rattle.run_figures.specs.Runs.{AreTasks, IsBoundedRun, run_view_of};
ghost use Rattle.run_figures.specs.declared.run.Admitted.{Admitted as AdmittedView};
ghost use Rattle.chart_pieces.specs.Drawing.{drawn_on};
ghost use Rattle.chart_pieces.specs.Laws as laws;
ghost use Rattle.chart_pieces.specs.Rows as rows;
ghost use Rattle.chart_pieces.specs.Window.{IsWhole};
ghost use Rattle.chart_pieces.specs.private.Keeping as keeping;
ghost use Rattle.chart_pieces.specs.private.Lines as lines;

use crate::lines::{Line, closed};
use crate::logging::log_moments;
use crate::row::Row;
use crate::stays::{Table, put_switch};
use crate::window::Window;
use domain_run::{Happened, NoMemory, Switch};
use past::Past;
use run_figures::{Admitted, Places, Run, Sink};
use std::alloc::Global;
use std::marker::Model;
use std::mem;

/// What was streamed of a run. What happened and the switches stand in proofs alone.
#[derive(Drop)]
struct Streamed {
    cpus: u32,
    /// The time at its end.
    time: u64,
    happened: Past<Happened>,
    switches: Past<Switch>,
}

/// What is drawn of a run while it is streamed, piece by piece. It keeps what has a part in the
/// window, how each task stands, and which task has each CPU. Contracts see the window, how many
/// CPUs the run has, when it will end, the numbers of its tasks, and all that was streamed.
#[derive(Drop)]
pub struct Drawing {
    window: Window,
    streamed: Streamed,
    places: Places,
    /// `Err` once a growth was refused.
    table: Result<Table, NoMemory>,
}

impl Model for Drawing {
    ghost use Rattle.std.specs.Prelude.{IfOk};
    ghost use Rattle.chart_pieces.specs.Drawing.{DrawingView};
    ghost use Rattle.chart_pieces.specs.private.Keeping.{IsDrawingKept, drawing_view_of};

    ghost Value = { DrawingView };

    ghost view = { λ d. drawing_view_of d.window d.streamed d.places };

    ghost invariant = { λ d. IfOk d.table (λ t. IsDrawingKept
        (drawing_view_of d.window d.streamed d.places) t.lines.items t.holders.items) };
}

/// Takes one piece more: first the moments of its tasks, then its bars.
fn stream_piece(
    mut table: Table,
    window: &Window,
    places: &Places,
    streamed: &Streamed,
    happened: &[Happened],
    switches: &[Switch],
) -> Result<Table, NoMemory>
    requires drawn { keeping.IsDrawingKept
        (keeping.drawing_view_of window.now streamed.now places.now) table.lines.items
        table.holders.items }
    requires next { IsNextPiece
        (keeping.drawing_view_of window.now streamed.now places.now).streamed happened.now
        switches.now }
    ensures { IfOk result (λ t. keeping.IsDrawingKept
        (drawn_on (keeping.drawing_view_of window.now streamed.now places.now) happened.now
        switches.now) t.lines.items t.holders.items) }
{
    log_moments(&mut table.lines, places, window, happened, switches)?;
    for switch in switches {
        put_switch(&mut table, places, window, streamed.time, switch)?;
    }
    Ok(table)
}

/// The rows of all lines, in their order.
fn rows_by(
    alloc: Global,
    mut table: Vec<Line>,
    window: &Window,
    end: u64,
) -> Result<Vec<Row>, NoMemory>
    ensures { IfOk result (λ v. v.items ≡ map (lines.row_by window.now end) table.items) }
{
    let mut all = Vec::with_capacity(alloc, table.len())?;
    table.reverse();
    while let Some(line) = table.pop() {
        all.push(closed(line, window, end)?)?;
    }
    Ok(all)
}

impl Drawing {
    /// Of a run of which nothing was streamed yet: its domain has this many CPUs, it will end at
    /// this time, in microseconds, and these are its tasks.
    ///
    /// # Errors
    /// 12 [`NoMemory`]: a growth was refused; nothing is left.
    pub fn open(
        alloc: Global,
        window: Window,
        cpus: u32,
        time: u64,
        tasks: &[Admitted],
    ) -> Result<Drawing, NoMemory>
        requires tasks { AreTasks tasks.now }
        ensures { IfOk result (λ d. d ≡ record {
          window = window;
          streamed = record {
            cpus = cpus;
            time = time;
            tasks = map (λ t. t.number) tasks.now;
            happened = [];
            switches = [];
          };
        }) }
    {
        let places = Places::of(alloc, tasks)?;
        let table = Table::open(alloc, cpus, tasks)?;
        Ok(Drawing {
            window,
            streamed: Streamed {
                cpus,
                time,
                happened: Past::new(),
                switches: Past::new(),
            },
            places,
            table: Ok(table),
        })
    }

    /// Takes the next piece: what happened and the switches, both in their order. It takes memory
    /// only for what has a part in the window. If a growth is refused, the drawing gives up what it
    /// has, and `rows` fails.
    ///
    /// A run is cut into pieces between two ticks: what was streamed is not later than the switches
    /// of this piece, and what happens in this piece is later than the switches that were streamed.
    pub fn stream(&mut self, happened: &[Happened], switches: &[Switch])
        requires next { IsNextPiece self.old.streamed happened.now switches.now }
        ensures { self.new ≡ drawn_on self.old happened.now switches.now }
    {
        self.table = match mem::replace(&mut self.table, Err(NoMemory)) {
            Ok(table) => stream_piece(
                table,
                &self.window,
                &self.places,
                &self.streamed,
                happened,
                switches,
            ),
            Err(NoMemory) => Err(NoMemory),
        };
        self.streamed.happened.extend(happened);
        self.streamed.switches.extend(switches);
    }

    /// What is drawn in the window of each task of the run that was streamed, in the order of the
    /// tasks.
    ///
    /// # Errors
    /// 12 [`NoMemory`]: a growth was refused, now or while the run was streamed; nothing is left.
    pub fn rows(self, alloc: Global) -> Result<Vec<Row>, NoMemory>
        ensures rows { (tasks : List AdmittedView) → map (λ t. t.number) tasks ≡ self.streamed.tasks
            → IfOk result (λ v. v.items
            ≡ rows.rows_of self.window (streamed_run self.streamed tasks)) }
        ensures seen { IfOk result (λ v. All (laws.AreSeen self.window) v.items) }
        ensures full { (tasks : List AdmittedView)
            → IfOk result (λ v. IsWhole self.window self.streamed.time
            → All (laws.BarsAreAllCpuTime (streamed_run self.streamed tasks)) v.items) }
    {
        let Drawing {
            window,
            streamed,
            table,
            ..
        } = self;
        rows_by(alloc, table?.lines, &window, streamed.time)
    }
}

impl Sink for Drawing {
    ghost use Rattle.chart_pieces.specs.declared.window.Window.{Window as WindowView};

    ghost streamed = { λ d. d.streamed };

    ghost Kept = { WindowView };

    ghost kept = { λ d. d.window };

    fn stream(&mut self, happened: &[Happened], switches: &[Switch]) {
        Drawing::stream(self, happened, switches);
    }
}

/// What is drawn in a window of each task of a run, in the order of the tasks. Goes once through
/// what happened, and twice through the switches.
///
/// # Errors
/// 12 [`NoMemory`]: a growth was refused; nothing is left.
pub fn rows_of(alloc: Global, run: &Run<'_>, window: Window) -> Result<Vec<Row>, NoMemory>
    requires run { IsBoundedRun (run_view_of run.now) }
    ensures rows { IfOk result (λ v. v.items ≡ rows.rows_of window (run_view_of run.now)) }
    ensures seen { IfOk result (λ v. All (laws.AreSeen window) v.items) }
    ensures full { IfOk result (λ v. IsWhole window run.now.time
        → All (laws.BarsAreAllCpuTime (run_view_of run.now)) v.items) }
{
    let mut drawing = Drawing::open(alloc, window, run.cpus, run.time, run.tasks)?;
    drawing.stream(run.happened, run.switches);
    drawing.rows(alloc)
}
