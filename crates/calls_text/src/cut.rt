ghost use Rattle.std.specs.Prelude.{◌≡◌, ℕ, List, ◌++◌, MatchOption};
ghost use Rattle.std.specs.Option.{option_map};
ghost use Rattle.calls_text.specs.private.Reading.{cut_at};

use memchr::memchr;

/// What stands before and after the first byte of this code, or nothing where there is none.
pub(crate) fn cut(text: &[u8], at: u8) -> Option<(&[u8], &[u8])>
    ensures { option_map (λ p. (p.0.now, p.1.now)) result ≡ cut_at at text.now }
{
    for (i, b) in text.iter().enumerate() {
        if *b == at {
            return Some((&text[..i], &text[i + 1..]));
        }
    }
    None
}

/// As `cut`. It searches by many bytes at a time, for a byte that may be far after.
#[inline(always)]
pub(crate) fn cut_far(text: &[u8], at: u8) -> Option<(&[u8], &[u8])>
    ensures { option_map (λ p. (p.0.now, p.1.now)) result ≡ cut_at at text.now }
{
    match memchr(at, text) {
        Some(i) => Some((&text[..i], &text[i + 1..])),
        None => None,
    }
}

/// The first line, without its line break, and what follows, or nothing where no line ends.
#[inline(always)]
pub(crate) fn cut_line(text: &[u8]) -> Option<(&[u8], &[u8])>
    ensures { option_map (λ p. (p.0.now, p.1.now)) result ≡ cut_at 10 text.now }
{
    cut_far(text, b'\n')
}

/// What follows these bytes at the front of a text, or nothing where it does not begin with them.
#[inline(always)]
pub(crate) fn following<'t>(front: &[u8], text: &'t [u8]) -> Option<&'t [u8]>
    ensures { MatchOption result ((rest : List ℕ) → text.now ≡ front.now ++ rest → ⊥)
        (λ rest. text.now ≡ front.now ++ rest.now) }
{
    if text.len() < front.len() {
        return None;
    }
    for (i, b) in front.iter().enumerate() {
        if text[i] != *b {
            return None;
        }
    }
    Some(&text[front.len()..])
}
