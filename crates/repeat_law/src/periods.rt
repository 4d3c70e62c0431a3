//! For how many periods the rounds and the work of a task last.

ghost use Rattle.std.specs.Prelude.{ℕ, ◌≡◌, ◌*◌, ◌-◌, ◌≤◌, ◌↔◌};
ghost use Rattle.repeat_law.specs.Marks.{HasPeriods, IsAtMost, begun_round};

use domain_run::{Pace, TaskMark};

// How often a part fits into a total; none if any number of them does.
fn times_within(total: u64, part: u64) -> Option<u64>
    ensures { (m : ℕ) → IsAtMost result m ↔ (m * part ≤ total) }
{
    if part == 0 { None } else { Some(total / part) }
}

// How many whole rounds are ahead.
fn rounds_ahead(mark: &TaskMark, rounds: u64) -> u64
    ensures { result ≡ rounds - mark.now.round - begun_round mark.now.step }
{
    let left = rounds.saturating_sub(mark.round);
    if mark.step > 0 {
        left.saturating_sub(1)
    } else {
        left
    }
}

/// For how many periods a task may go on at a pace from a mark, so that no last round of its script
/// is reached and no work ends. None says that it may go on for any number of periods. `rounds` is
/// the number of rounds of its script, none if that has no end.
pub fn periods_left(mark: &TaskMark, pace: Pace, rounds: Option<u64>) -> Option<u64>
    ensures { (m : ℕ) → IsAtMost result m ↔ HasPeriods rounds m pace mark.now }
{
    match pace {
        Pace::Rests => None,
        Pace::Plays(each) => match rounds {
            Some(rounds) => times_within(rounds_ahead(mark, rounds), each),
            None => None,
        },
        Pace::Works(each) => times_within(mark.work.saturating_sub(1), each),
    }
}
