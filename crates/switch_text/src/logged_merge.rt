//! What of all that happens in several domains comes next.

ghost use Rattle.std.specs.Prelude.{◌≡◌, ◌<◌, ◌≤◌, ◌^◌, length, slice_index_or, All, IfSome, IsTrue, ◌↔◌};
ghost use Rattle.switch_text.specs.Events.{comes_before};
ghost use Rattle.switch_text.specs.EventLines.{IsLogged};
ghost use Rattle.switch_text.specs.private.LoggedMerging.{IsLoggedFound, IsShown, is_better_logged, next_logged_event};

use crate::logged::DomainEvents;
use crate::logged_lines::has_a_line;
use domain_run::Happened;

/// What happens next in a domain, and which of the domains it is.
#[derive(Clone, Copy)]
pub(crate) struct NextLogged<'a, 'b> {
    /// The place of the domain among those logged of.
    pub(crate) index: usize,
    pub(crate) logged: &'a DomainEvents<'b>,
    pub(crate) happened: &'b Happened,
}

/// Of two of one time, whether the first comes before the second.
fn is_first_at_time(a: &NextLogged<'_, '_>, b: &NextLogged<'_, '_>) -> bool
    requires first { IsShown a.now }
    requires second { IsShown b.now }
    requires time { a.now.happened.now.time ≡ b.now.happened.now.time }
    ensures { result ≡ comes_before (next_logged_event a.now) (next_logged_event b.now) }
{
    let place = a.happened.what.rank();
    let other = b.happened.what.rank();
    let cpu = a.logged.base + u32::from(a.happened.cpu);
    let other_cpu = b.logged.base + u32::from(b.happened.cpu);
    place < other
        || (place == other
            && (cpu < other_cpu || (cpu == other_cpu && a.happened.number < b.happened.number)))
}

/// Whether it comes before the best so far.
fn is_before_best(next: &NextLogged<'_, '_>, best: &Option<NextLogged<'_, '_>>) -> bool
    requires next { IsShown next.now }
    requires best { IfSome best.now IsShown }
    ensures { result ≡ is_better_logged next.now best.now }
{
    match best {
        None => true,
        Some(best) => {
            let time = next.happened.time;
            let best_time = best.happened.time;
            time < best_time || (time == best_time && is_first_at_time(next, best))
        }
    }
}

/// Whether anything stands at a place of what happens in a domain.
fn is_left(logged: &DomainEvents<'_>, place: usize) -> bool
    ensures inside { IsTrue result ↔ (place < length logged.now.happened.now) }
    ensures counted { length logged.now.happened.now < 2 ^ 64 }
{
    place < logged.happened.len()
}

/// What stands at a place of what happens in a domain.
fn next_in<'a, 'b>(logged: &'a DomainEvents<'b>, index: usize, place: usize) -> NextLogged<'a, 'b>
    requires { place < length logged.now.happened.now }
    ensures index { result.index ≡ index }
    ensures logged { result.logged.now ≡ logged.now }
    ensures happened { result.happened.now
        ≡ slice_index_or logged.now.happened.now place result.happened.now }
{
    NextLogged {
        index,
        logged,
        happened: &logged.happened[place],
    }
}

/// What happens next by time, by what it is, by CPU of the machine and by number, where each domain
/// goes on from its place, or none where nothing is left. Where a cut stands at a place, which has
/// no line, it is given at once.
pub(crate) fn next_logged<'a, 'b>(
    logged: &'a [DomainEvents<'b>],
    places: &[usize; 8],
) -> Option<NextLogged<'a, 'b>>
    requires few { length logged.now ≤ 8 }
    requires logged { All IsLogged logged.now }
    ensures { IsLoggedFound logged.now places.now result }
{
    let mut best = None;
    for (i, domain) in logged.iter().enumerate() {
        let place = places[i];
        if is_left(domain, place) {
            let next = next_in(domain, i, place);
            if !has_a_line(next.happened.what) {
                return Some(next);
            }
            if is_before_best(&next, &best) {
                best = Some(next);
            }
        }
    }
    best
}
