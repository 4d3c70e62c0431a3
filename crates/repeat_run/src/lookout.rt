//! When to look whether a run repeats, for a caller that simulates the run itself.

use crate::looking::{MOST_LOOKS, begin_watch, look_anew, look_later, passed};
use crate::phase::Watch;
use domain_run::State;

/// When to look whether a run repeats. All that it answers is a hint: a caller that follows it
/// finds most periods soon, and spends little on a run that does not repeat.
#[derive(Clone, Copy)]
pub struct Lookout {
    watch: Watch,
}

/// What to do after a look that found no period.
#[derive(Clone, Copy)]
pub enum AfterLook {
    /// Look again later.
    Later(Lookout),
    /// Write the domain down, and look again later.
    Anew(Lookout),
    /// Look no more.
    Over,
}

impl Lookout {
    /// Begins: the first look is a round of the slowest task from now.
    pub fn begin(state: &State) -> Lookout {
        Lookout {
            watch: begin_watch(state),
        }
    }

    /// The ticks until the next look; 0 if it is due.
    pub fn next(&self) -> u64 {
        self.watch.next
    }

    /// After `ticks` ticks, which made `switches` switches.
    pub fn passed(self, ticks: u64, switches: u64) -> Lookout {
        Lookout {
            watch: passed(self.watch, ticks, switches),
        }
    }

    /// Whether anything happened since the domain was last written down.
    pub fn is_busy(&self) -> bool {
        self.watch.switches > 0
    }

    /// What to do after a look that found no period: the domain is written down after 1, 2, 4 and
    /// so on looks, and after some thousand looks the search is over.
    pub fn look_on(self, state: &State) -> AfterLook {
        let watch = self.watch;
        if watch.power > MOST_LOOKS || state.listed() == 0 {
            AfterLook::Over
        } else if watch.looks < watch.power {
            AfterLook::Later(Lookout {
                watch: look_later(watch),
            })
        } else {
            AfterLook::Anew(Lookout {
                watch: look_anew(watch),
            })
        }
    }
}
