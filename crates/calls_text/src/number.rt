ghost use Rattle.std.specs.Prelude.{◌≡◌, ℕ, ◌<◌, ◌≤◌, List, IfOk, IfErr, MatchResult};
ghost use Rattle.calls_text.specs.private.Reading.{PartGives, NoDigit, IsFirstNumber, digits_front, number_within_at};

use crate::fault::PartFault;

/// The number that digits spell, up to `most`: `first` is that of the digits so far, and more may
/// stand at the front of the text. And what follows the last of them.
#[inline(always)]
fn digits_on(first: u64, text: &[u8], most: u64) -> Result<(u64, &[u8]), PartFault>
    requires small { most < 1000000000000000000 }
    requires within { first ≤ most }
    ensures front { IfOk result (λ p. (p.0, p.1.now) ≡ digits_front first text.now) }
    ensures high { IfOk result (λ p. p.0 ≤ most) }
    ensures above { IfErr result (λ _. most < (digits_front first text.now).0) }
{
    let mut n = first;
    for (i, b) in text.iter().enumerate() {
        if !b.is_ascii_digit() {
            return Ok((n, &text[i..]));
        }
        n = n * 10 + u64::from(*b - b'0');
        if n > most {
            return Err(PartFault::Bad);
        }
    }
    Ok((n, &text[text.len()..]))
}

/// The number at the front of a text, from `least` to `most`, and what follows its last digit. A
/// zero in front is a number of its own.
pub(crate) fn number_first(text: &[u8], least: u64, most: u64) -> Result<(u64, &[u8]), PartFault>
    requires { most < 1000000000000000000 }
    ensures spelled { IfOk result (λ p. IsFirstNumber least most text.now p.0 p.1.now) }
    ensures found { (n : ℕ) (rest : List ℕ) → IsFirstNumber least most text.now n rest
        → NoDigit rest → MatchResult result (λ p. (p.0 ≡ n) × (p.1.now ≡ rest)) (λ _. ⊥) }
{
    match text {
        [b'0', rest @ ..] if least == 0 => Ok((0, rest)),
        [b'1'..=b'9', rest @ ..] => {
            let first = u64::from(text[0] - b'0');
            if first > most {
                return Err(PartFault::Bad);
            }
            let (n, rest) = digits_on(first, rest, most)?;
            if n < least {
                return Err(PartFault::Bad);
            }
            Ok((n, rest))
        }
        _ => Err(PartFault::Bad),
    }
}

/// The number that a text spells, from `least` to `most`.
#[tactic(auto, unfolding(crate::specs::private::Reading::number_within_at))]
pub(crate) fn number_within(text: &[u8], least: u64, most: u64) -> Result<u64, PartFault>
    requires { most < 1000000000000000000 }
    ensures gives { PartGives (λ n. n) result (number_within_at least most text.now) }
    ensures within { IfOk result (λ n. (least ≤ n) × (n ≤ most)) }
{
    match number_first(text, least, most)? {
        (n, []) => Ok(n),
        _ => Err(PartFault::Bad),
    }
}
