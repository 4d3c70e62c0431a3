//! What a worker does with each element of its piece, and what it promises of them all.

ghost use Rattle.std.specs.Prelude.{◌≡◌, map};
ghost use Rattle.tick_split.specs.Planning.{IsPlannable};
ghost use Rattle.tick_split.specs.Charging.{IsChargeable, charged_slice};
ghost use Rattle.tick_split.specs.private.Planned.{planned};

use crate::element::{Plan, Slice};
use crate::rules;
use std::snapshot::Snapshot;
use std::thread::Promise;

/// Work on one element.
pub(crate) trait Work: Copy + Send {
    ghost ready: { Self → Type 0 };

    ghost done: { Self → Self };

    fn work(&mut self)
        requires { ready self.old }
        ensures { self.new ≡ done self.old };
}

impl Work for Plan {
    ghost ready = { IsPlannable };

    ghost done = { planned };

    fn work(&mut self) {
        rules::work_out(self);
    }
}

impl Work for Slice {
    ghost ready = { IsChargeable };

    ghost done = { charged_slice };

    fn work(&mut self) {
        rules::charge(self);
    }
}

/// The promise of a worker that was given this piece: the piece comes back with each element worked
/// on.
#[derive(Drop)]
pub(crate) struct Worked<W>(pub(crate) Snapshot<Vec<W>>);

impl<W: Work> Promise<Vec<W>> for Worked<W> {
    ghost kept_by = { λ p r. r.items ≡ map W.done p.0.value.items };
}
