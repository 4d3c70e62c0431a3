//! The part of a run that is drawn.

ghost use Rattle.std.specs.Prelude.{◌≡◌};
ghost use Rattle.chart_pieces.specs.Window as windows;
ghost use Rattle.chart_pieces.specs.Window.{IsWindow};

/// The part of a run that is drawn. Times are in microseconds.
#[derive(Clone, Copy)]
pub struct Window {
    /// Where it begins.
    pub from: u64,
    /// Where it ends: at most 2^42, and after its beginning.
    pub to: u64,
}

impl Window {
    /// Whether a part of what lasts from one time to another is in it.
    pub(crate) fn touches(&self, start: u64, stop: u64) -> bool
        ensures { result ≡ windows.touches self.now start stop }
    {
        start < stop && start < self.to && self.from < stop
    }

    /// Whether a time is in it.
    pub(crate) fn holds(&self, time: u64) -> bool
        ensures { result ≡ windows.holds self.now time }
    {
        self.from <= time && time <= self.to
    }
}

/// Which part of a run is asked for. Times are in microseconds.
#[derive(Clone, Copy)]
pub struct Span {
    /// Where it begins.
    pub from: u64,
    /// Where it ends; the end of the run, where none is given.
    pub to: Option<u64>,
}

/// The last time that can be drawn.
const MOST_TIME: u64 = 1 << 42;

impl Span {
    /// The window that shows it of a run that ends at this time: at least one microsecond, and
    /// nothing after 2^42 us.
    pub fn window(&self, end: u64) -> Window
        ensures window { result ≡ windows.window_of self.now end }
        ensures sound { IsWindow result }
    {
        let from = self.from.min(MOST_TIME - 1);
        let to = match self.to {
            Some(to) => to,
            None => end,
        };
        Window {
            from,
            to: to.min(MOST_TIME).max(from + 1),
        }
    }
}
