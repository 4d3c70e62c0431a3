//! Numbers in a text.

ghost use Rattle.std.specs.Prelude.{◌≡◌, ◌<◌, ◌^◌, IfSome};
ghost use Rattle.recorded_text.specs.Line.{number_of_digits};

/// The number that 1 to 18 digits spell, zeros in front too.
#[tactic(auto, unfolding(crate::specs::Line::number_of_digits))]
pub(crate) fn number(text: &[u8]) -> Option<u64>
    ensures value { result ≡ number_of_digits text.now }
    ensures small { IfSome result (λ n. n < 10 ^ 18) }
{
    if text.is_empty() || text.len() > 18 {
        return None;
    }
    let mut n: u64 = 0;
    for b in text {
        if !b.is_ascii_digit() {
            return None;
        }
        n = n * 10 + u64::from(*b - b'0');
    }
    Some(n)
}
