//! The sizes of the chart.

ghost use Rattle.std.specs.Prelude.{◌≡◌, ◌<◌, ◌≤◌, ◌^◌};
ghost use Rattle.chart_pieces.specs.Window.{IsWindow};
ghost use Rattle.chart.specs.Sizes as sizes;
ghost use Rattle.chart.specs.private.Sheets as sheets;

use chart_pieces::Window;

/// Where the plot begins, in pixels.
pub(crate) const PLOT_TOP: u64 = 15;

/// The foot of the times above the plot, in pixels.
pub(crate) const LABEL_FOOT: u64 = 11;

/// The sizes of a row, in pixels.
#[derive(Clone, Copy)]
pub struct RowSize {
    /// From one row to the next.
    pub height: u64,
    /// From the top of the row to that of its bars.
    pub bar_top: u64,
    pub bar_height: u64,
    /// From the top of the row to the line between its bars.
    pub middle: u64,
    /// From the top of the row to the foot of its name.
    pub foot: u64,
}

/// What all parts of a chart need to know.
#[derive(Clone, Copy)]
pub struct Sheet {
    /// The part of the run that is drawn.
    pub window: Window,
    /// How many CPUs the machine has.
    pub cpus: u64,
    /// How many rows there are.
    pub rows: u64,
    pub size: RowSize,
}

fn size_of(rows: u64) -> RowSize
    ensures { result ≡ sizes.size_of rows }
{
    if rows <= 24 {
        return RowSize {
            height: 34,
            bar_top: 10,
            bar_height: 14,
            middle: 17,
            foot: 21,
        };
    }
    if rows <= 96 {
        return RowSize {
            height: 12,
            bar_top: 2,
            bar_height: 8,
            middle: 6,
            foot: 9,
        };
    }
    RowSize {
        height: 8,
        bar_top: 1,
        bar_height: 6,
        middle: 4,
        foot: 8,
    }
}

pub(crate) fn sheet_of(window: Window, cpus: u64, rows: u64) -> Sheet
    requires window { IsWindow window }
    requires rows { rows ≤ 2 ^ 32 }
    ensures sheet { result ≡ sizes.sheet_of window cpus rows }
    ensures fits { sheets.IsSheet result }
{
    Sheet {
        window,
        cpus,
        rows,
        size: size_of(rows),
    }
}

impl Sheet {
    pub(crate) fn is_tall(&self) -> bool
        ensures { result ≡ sizes.is_tall self.now }
    {
        self.rows <= 24
    }

    pub(crate) fn plot_height(&self) -> u64
        requires { sheets.IsSheet self.now }
        ensures height { result ≡ sizes.plot_height self.now }
        ensures small { result ≤ 2 ^ 38 }
    {
        self.rows * self.size.height
    }

    /// Where a row begins inside the plot.
    pub(crate) fn row_top(&self, place: u64) -> u64
        requires sheet { sheets.IsSheet self.now }
        requires place { place ≤ 2 ^ 32 }
        ensures top { result ≡ sizes.row_top self.now place }
        ensures small { result ≤ 2 ^ 38 }
    {
        place * self.size.height
    }

    /// Where the plot ends.
    pub(crate) fn plot_end(&self) -> u64
        requires { sheets.IsSheet self.now }
        ensures end { result ≡ sizes.plot_end self.now }
        ensures small { result ≤ 2 ^ 39 }
    {
        PLOT_TOP + self.plot_height()
    }

    /// A length of time in pixels.
    pub(crate) fn pixels(&self, us: u64) -> u64
        requires sheet { sheets.IsSheet self.now }
        requires us { us < 2 ^ 50 }
        ensures pixels { result ≡ sizes.pixels self.now us }
    {
        us * 1020 / (self.window.to - self.window.from)
    }

    /// The place of a time in pixels.
    pub(crate) fn pixel_of(&self, time: u64) -> u64
        requires sheet { sheets.IsSheet self.now }
        requires time { time < 2 ^ 50 }
        ensures { result ≡ sizes.pixel_of self.now time }
    {
        150 + self.pixels(time.saturating_sub(self.window.from))
    }
}
