//! The end of a period that was written down.

ghost use Rattle.std.specs.Prelude.{◌<◌, ◌≤◌};
ghost use Rattle.repeat_run.specs.private.Knows.{IsRecorded, KnowsInPhase};

use crate::law::found_gives;
use crate::phase::{Giving, Kept, Phase, Recording};
use crate::seeing::{paces_to, runs_same};
use domain_run::State;

/// Compares the end of the period with its beginning.
fn compare(state: &State, kept: &mut Kept, micros: u64) -> Phase
    requires some { 0 < micros }
    requires knows { IsRecorded micros kept.old state.now }
    ensures { KnowsInPhase result kept.new state.now }
{
    found_gives();
    if !runs_same(state, &kept.running) {
        return Phase::Tired;
    }
    let Some(most) = paces_to(state, &kept.seen, micros, &mut kept.paces) else {
        return Phase::Tired;
    };
    if most == 0 {
        return Phase::Tired;
    }
    Phase::Giving(Giving {
        micros,
        later_by: micros,
        left: most - 1,
    })
}

/// Goes on writing the period down, or begins to give it if that was all of it.
pub(crate) fn close(state: &State, kept: &mut Kept, recording: Recording) -> Phase
    requires some { 0 < recording.micros }
    requires most { recording.made ≤ recording.micros }
    requires knows { IsRecorded recording.made kept.old state.now }
    ensures { KnowsInPhase result kept.new state.now }
{
    if recording.made < recording.micros {
        Phase::Recording(recording)
    } else {
        compare(state, kept, recording.micros)
    }
}
