//! What was compared, and what follows of it.

ghost use Rattle.repeat_run.specs.Gives.{FoundGivesLaw};
ghost use Rattle.repeat_run.specs.Sight.{FoundGoesOnLaw};

use repeat_law::repeats_go_on;

/// It does nothing; its contract is the law: what was found by a comparison may be given again.
pub(crate) fn found_gives()
    ensures { FoundGivesLaw }
{
    repeats_go_on();
}

/// It does nothing; its contract is the law: after what was found by a comparison, many periods may
/// be passed at once.
pub(crate) fn found_goes_on()
    ensures { FoundGoesOnLaw }
{
    repeats_go_on();
}
