//! What is drawn of a run that was drawn while it was made, and the rows of a chart.

ghost use Rattle.std.specs.Prelude.{◌≡◌, ◌<◌, ◌≤◌, ◌++◌, ◌+◌, All, OnOk, length, map};
ghost use Rattle.chart_pieces.specs.Laws.{AreSeen};
ghost use Rattle.chart.specs.Rows as charts;
ghost use Rattle.switch_text.specs.Names.{name_of_task};
ghost use Rattle.calls_trace.specs.Charted.{chart_row_of};
ghost use Rattle.limits.specs.Limits.{max_history};

use crate::named_run::RunWithNames;
use chart::ChartRow;
use chart_pieces::{Row, Window};
use domain_run::NoMemory;
use indexmap::IndexMap;

/// The name of a number; empty where it has none.
fn name_of(names: &IndexMap<u32, String>, number: u32) -> &[u8]
    ensures { result.now ≡ name_of_task names.now number }
{
    match names.get(&number) {
        Some(name) => name.as_bytes(),
        None => b"",
    }
}

/// What is drawn of a run in a window, and the names of its tasks. The run itself is not kept.
#[derive(Drop)]
pub(crate) struct Sketch {
    names: IndexMap<u32, String>,
    pub(crate) cpus: u32,
    window: Window,
    /// Of all tasks that the calls asked to admit.
    rows: Vec<Row>,
    /// The places of the rows of those that were admitted, by number.
    places: Vec<usize>,
    ghost inside: { All (λ i. i < length rows.items) places.items },
    ghost seen: { All (AreSeen window) rows.items },
    ghost few: { length places.items ≤ max_history },
    ghost machine: { cpus ≤ 64 },
}

impl Sketch {
    ghost use Rattle.calls_trace.specs.private.Sketched.{row_in, sketch_as};

    /// Of this run, with the rows of all tasks that its calls asked to admit, and the places of
    /// those that were admitted.
    pub(crate) fn of(
        window: Window,
        run: RunWithNames,
        rows: Vec<Row>,
        places: Vec<usize>,
    ) -> Sketch
        requires inside { All (λ i. i < length rows.items) places.items }
        requires seen { All (AreSeen window) rows.items }
        requires few { length places.items ≤ max_history }
        ensures drawn { sketch_as result ≡ record {
          names = name_of_task run.names;
          cpus = run.state.cpus;
          rows = map (row_in rows.items) places.items;
        } }
        ensures window { result.window ≡ window }
    {
        let cpus = run.state.cpus();
        let RunWithNames {
            state,
            names,
            given,
            log,
        } = run;
        drop(state);
        drop(given);
        drop(log);
        Sketch {
            names,
            cpus,
            window,
            rows,
            places,
        }
    }

    /// Of tasks with these names on this number of CPUs, with the rows of all of them, and the
    /// places of those to chart.
    pub(crate) fn of_rows(
        window: Window,
        names: IndexMap<u32, String>,
        cpus: u32,
        rows: Vec<Row>,
        places: Vec<usize>,
    ) -> Sketch
        requires inside { All (λ i. i < length rows.items) places.items }
        requires seen { All (AreSeen window) rows.items }
        requires few { length places.items ≤ max_history }
        requires machine { cpus ≤ 64 }
        ensures drawn { sketch_as result ≡ record {
          names = name_of_task names;
          cpus = cpus;
          rows = map (row_in rows.items) places.items;
        } }
        ensures window { result.window ≡ window }
    {
        Sketch {
            names,
            cpus,
            window,
            rows,
            places,
        }
    }

    /// The row in a place, as it is charted where CPU 0 of its domain is this CPU of the machine.
    fn charted(&self, base: u32, place: usize) -> ChartRow<'_>
        requires inside { place < length self.now.rows.items }
        ensures row { charts.chart_row_view_of result ≡ chart_row_of (name_of_task self.now.names)
            base (row_in self.now.rows.items place) }
        ensures drawn { charts.IsDrawn self.now.window result }
    {
        let row = &self.rows[place];
        ChartRow {
            name: name_of(&self.names, row.number),
            base,
            row,
        }
    }

    /// Puts the rows of the tasks that were admitted after those of the runs before it.
    pub(crate) fn push_rows<'a>(
        &'a self,
        all: &mut Vec<ChartRow<'a>>,
        base: u32,
    ) -> Result<(), NoMemory>
        ensures rows { OnOk result (map charts.chart_row_view_of all.new.items
            ≡ map charts.chart_row_view_of all.old.items
            ++ map (chart_row_of (name_of_task self.now.names) base) (sketch_as self.now).rows) }
        ensures drawn { All (charts.IsDrawn self.now.window) all.old.items
            → OnOk result (All (charts.IsDrawn self.now.window) all.new.items) }
        ensures few { OnOk result (length all.new.items ≤ length all.old.items + max_history) }
    {
        all.try_reserve(self.places.len())?;
        for place in &self.places {
            all.push_reserved(self.charted(base, *place));
        }
        Ok(())
    }
}
