//! The header of a text, which says whether it has calls of the second form: changes of a limit,
//! and tasks that go to another domain or come from one.

ghost use Rattle.std.specs.Prelude.{◌≡◌};
ghost use Rattle.calls_text.specs.private.Reading.{header_at};
ghost use Rattle.calls_text.specs.Spelling.{is_later, some_later, has_later};

use crate::section::{Entry, Section};
use domain_run::Call;

/// Whether a call is of the second form.
pub(crate) fn is_later(call: &Call) -> bool
    ensures { result ≡ is_later call.now }
{
    matches!(
        call,
        Call::Limit { .. } | Call::Depart { .. } | Call::Arrive { .. }
    )
}

/// Whether one of these calls is.
fn some_later(entries: &[Entry]) -> bool
    ensures { result ≡ some_later entries.now }
{
    entries.iter().any(|e| is_later(&e.call))
}

/// Whether a call of these sections is.
pub(crate) fn has_later(sections: &[Section]) -> bool
    ensures { result ≡ has_later sections.now }
{
    sections.iter().any(|s| some_later(&s.entries))
}

/// Whether a text with this first line has calls of the second form, or nothing where it is no
/// header.
#[tactic(auto, unfolding(crate::specs::private::Reading::header_at))]
pub(crate) fn header_of(line: &[u8]) -> Option<bool>
    ensures { result ≡ header_at line.now }
{
    if line == b"dlcalls 1".as_slice() {
        return Some(false);
    }
    if line == b"dlcalls 2".as_slice() {
        return Some(true);
    }
    None
}
