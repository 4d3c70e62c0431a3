ghost use Rattle.std.specs.Prelude.{◌≡◌};
ghost use Rattle.json_order.specs.private.AtOnce as at_once;
ghost use Rattle.json_order.specs.private.Machine as machine;

use crate::place::Part;

/// How far a number is read once it goes on with c, none where it does not.
#[inline(always)]
pub(crate) fn part_step(part: Part, c: char) -> Option<Part>
    ensures { result ≡ machine.part_step part c }
{
    match part {
        Part::Minus => match c {
            '0' => Some(Part::Zero),
            '1'..='9' => Some(Part::Whole),
            _ => None,
        },
        Part::Zero => match c {
            '.' => Some(Part::Dot),
            'e' | 'E' => Some(Part::Mark),
            _ => None,
        },
        Part::Whole => match c {
            '0'..='9' => Some(Part::Whole),
            '.' => Some(Part::Dot),
            'e' | 'E' => Some(Part::Mark),
            _ => None,
        },
        Part::Fraction => match c {
            '0'..='9' => Some(Part::Fraction),
            'e' | 'E' => Some(Part::Mark),
            _ => None,
        },
        Part::Mark => match c {
            '0'..='9' => Some(Part::Exponent),
            '+' | '-' => Some(Part::Sign),
            _ => None,
        },
        Part::Dot => c.is_ascii_digit().then_some(Part::Fraction),
        Part::Sign | Part::Exponent => c.is_ascii_digit().then_some(Part::Exponent),
    }
}

/// Digits go on with a number that is read so far, and leave it there.
#[inline(always)]
pub(crate) fn is_in_digits(part: Part) -> bool
    ensures { result ≡ at_once.is_in_digits part }
{
    matches!(part, Part::Whole | Part::Fraction | Part::Exponent)
}

/// A number may end here.
pub(crate) fn is_done(part: Part) -> bool
    ensures { result ≡ machine.is_done part }
{
    matches!(
        part,
        Part::Zero | Part::Whole | Part::Fraction | Part::Exponent
    )
}
