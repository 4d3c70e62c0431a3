//! Cutting a text at a byte.

ghost use Rattle.std.specs.Prelude.{◌≡◌, ◌++◌, ◌∷◌, MatchOption};
ghost use Rattle.tasks_text.specs.private.Lines.{LacksByte};

use memchr::memchr;

/// What precedes the first such byte, and what follows it.
pub(crate) fn cut(text: &[u8], at: u8) -> Option<(&[u8], &[u8])>
    ensures { MatchOption result (LacksByte at text.now)
        (λ p. LacksByte at p.0.now × (text.now ≡ p.0.now ++ at ∷ p.1.now)) }
{
    match memchr(at, text) {
        Some(i) => Some((&text[..i], &text[i + 1..])),
        None => None,
    }
}
