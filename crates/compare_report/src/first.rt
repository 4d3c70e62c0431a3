//! The earliest of some times.

ghost use Rattle.std.specs.Prelude.{◌<◌, ◌+◌, length};
ghost use Rattle.compare_report.specs.First.{IsFirstStart};
ghost use Rattle.compare_report.specs.private.SoFar.{IsFirstSoFar};

/// The earliest of the times up to a place and at it, from that of those before it.
fn next(starts: &[Option<u64>], place: usize, found: Option<(usize, u64)>) -> Option<(usize, u64)>
    requires there { place < length starts.now }
    requires found { IsFirstSoFar starts.now place found }
    ensures { IsFirstSoFar starts.now (place + 1) result }
{
    let Some(at) = starts[place] else {
        return found;
    };
    match found {
        None => Some((place, at)),
        Some((before, least)) => {
            if least <= at {
                Some((before, least))
            } else {
                Some((place, at))
            }
        }
    }
}

/// Of times, one for each task and of some none, the place of the earliest; of equals the first.
pub fn earliest(starts: &[Option<u64>]) -> Option<usize>
    ensures { IsFirstStart starts.now result }
{
    let mut found = None;
    for place in 0..starts.len() {
        found = next(starts, place, found);
    }
    match found {
        Some((place, _)) => Some(place),
        None => None,
    }
}
