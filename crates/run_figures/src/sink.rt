//! What takes a run while it is made.

ghost use Rattle.std.specs.Prelude.{◌≡◌};
ghost use Rattle.run_figures.specs.Accounting.{AccountingView, IsNextPiece, with_piece};

use crate::accounting::Accounting;
use domain_run::{Happened, Switch};

/// What takes the run of a domain piece by piece: what happens and the switches, both in their
/// order.
pub trait Sink {
    /// The run, as far as it was streamed.
    ghost streamed: { Self → AccountingView };

    /// What no piece changes, such as the part of the run that is asked for.
    ghost Kept: { Type 0 } = { Unit {0} };

    ghost kept: { Self → Kept };

    /// Takes the next piece. It cannot fail: if memory is refused, what was asked for is refused at
    /// the end.
    fn stream(&mut self, happened: &[Happened], switches: &[Switch])
        requires next { IsNextPiece (streamed self.old) happened.now switches.now }
        ensures streamed { streamed self.new
            ≡ with_piece (streamed self.old) happened.now switches.now }
        ensures kept { kept self.new ≡ kept self.old };
}

impl Sink for Accounting {
    ghost streamed = { λ a. a };

    ghost kept = { λ _. tt };

    fn stream(&mut self, happened: &[Happened], switches: &[Switch]) {
        Accounting::stream(self, happened, switches);
    }
}
