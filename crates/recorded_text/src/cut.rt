//! Cutting a text at a mark.

ghost use Rattle.std.specs.Prelude.{◌≡◌, ◌<◌, length};
ghost use Rattle.std.specs.Option.{option_map};
ghost use Rattle.recorded_text.specs.Cuts.{first_cut, last_cut, end_trimmed, last_word, cut_front};
ghost use Rattle.recorded_text.specs.Threads.{start_trimmed, front_word};

use memchr::memmem;

/// What stands before and behind the first place of a mark, or nothing where it does not stand
/// there.
pub(crate) fn cut_first<'a>(text: &'a [u8], mark: &[u8]) -> Option<(&'a [u8], &'a [u8])>
    requires { 0 < length mark.now }
    ensures { option_map (λ p. (p.0.now, p.1.now)) result ≡ first_cut mark.now text.now }
{
    match memmem::find(text, mark) {
        Some(i) => Some((&text[..i], &text[i + mark.len()..])),
        None => None,
    }
}

/// What stands before and behind the last place of a mark.
pub(crate) fn cut_last<'a>(text: &'a [u8], mark: &[u8]) -> Option<(&'a [u8], &'a [u8])>
    requires { 0 < length mark.now }
    ensures { option_map (λ p. (p.0.now, p.1.now)) result ≡ last_cut mark.now text.now }
{
    match memmem::rfind(text, mark) {
        Some(i) => Some((&text[..i], &text[i + mark.len()..])),
        None => None,
    }
}

/// Without the white space at its end.
pub(crate) fn trimmed(text: &[u8]) -> &[u8]
    ensures { result.now ≡ end_trimmed text.now }
{
    text.trim_ascii_end()
}

/// What stands before the last word and its space, and the word: what stands behind the last space,
/// once white space at the end is gone.
#[tactic(auto, unfolding(crate::specs::Cuts::last_word))]
pub(crate) fn word_at_end(text: &[u8]) -> (&[u8], &[u8])
    ensures { (result.0.now, result.1.now) ≡ last_word text.now }
{
    let text = trimmed(text);
    match cut_last(text, b" ") {
        Some(parts) => parts,
        None => (&[], text),
    }
}

/// What follows a mark that stands at the front.
#[tactic(auto, unfolding(crate::specs::Cuts::cut_front))]
pub(crate) fn rest_behind<'a>(text: &'a [u8], mark: &[u8]) -> Option<&'a [u8]>
    ensures { option_map (λ r. r.now) result ≡ cut_front mark.now text.now }
{
    if text.starts_with(mark) {
        Some(&text[mark.len()..])
    } else {
        None
    }
}

/// Without the white space at its start.
pub(crate) fn trimmed_start(text: &[u8]) -> &[u8]
    ensures { result.now ≡ start_trimmed text.now }
{
    text.trim_ascii_start()
}

/// What precedes the first space, or all.
#[tactic(auto, unfolding(crate::specs::Threads::front_word))]
pub(crate) fn word_at_start(text: &[u8]) -> &[u8]
    ensures { result.now ≡ front_word text.now }
{
    match cut_first(text, b" ") {
        Some((word, _)) => word,
        None => trimmed(text),
    }
}
