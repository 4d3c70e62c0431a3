ghost use Rattle.std.specs.Prelude.{◌≡◌, ◌≤◌, ℕ, List, [], ◌∷◌, ◌++◌, length, IfOk, IfErr, MatchResult};
ghost use Rattle.std.specs.Option.{option_map};
ghost use Rattle.calls_text.specs.declared.fault.PartFault.TheVariants as PartFault;
ghost use Rattle.task_script.specs.script.Segments.{rounds_of, IsLoops};
ghost use Rattle.calls_text.specs.private.Reading.{PartGives, NoDigit, IsFirstEvent, event_first_at, events_at, phase_at, phase_first_at, phases_at, rounds_at, script_at};

use crate::cut::{cut, cut_far};
use crate::fault::PartFault;
use crate::number::{number_first, number_within};
use domain_run::{Event, Phase, Script};
use std::alloc::Global;

/// The most microseconds of an event, the most repetitions of a phase, and the most rounds of a
/// script.
const MOST: u64 = 1_000_000_000;
/// The most events of a phase, and the most phases of a script.
const MOST_ITEMS: u64 = 64;
/// Room for so many events, and so many phases, is taken at first where there are more than one:
/// most have no more.
const ROOM: usize = 2;
/// The most events after the first ones.
const MOST_MORE: usize = 62;
/// Commas are counted in pieces of so many bytes.
const PIECE: usize = 255;

/// `rN`, `sN`, `tN` or `w` at the front of a text, and what follows.
#[inline(always)]
fn event_of(text: &[u8]) -> Result<(Event, &[u8]), PartFault>
    ensures spelled { IfOk result (λ p. IsFirstEvent text.now p.0 p.1.now) }
    ensures found { (e : Event) (rest : List ℕ) → IsFirstEvent text.now e rest → NoDigit rest
        → MatchResult result (λ p. (p.0 ≡ e) × (p.1.now ≡ rest)) (λ _. ⊥) }
{
    let [letter, after @ ..] = text else {
        return Err(PartFault::Bad);
    };
    if *letter == b'w' {
        return Ok((Event::Wait, after));
    }
    let (n, rest) = number_first(after, 1, MOST)?;
    match *letter {
        b'r' => Ok((Event::Run(n), rest)),
        b's' => Ok((Event::Sleep(n), rest)),
        b't' => Ok((Event::Timer(n), rest)),
        _ => Err(PartFault::Bad),
    }
}

/// An event, and what follows the comma after it.
fn event_first(text: &[u8]) -> Result<(Event, Option<&[u8]>), PartFault>
    ensures { PartGives (λ p. (p.0, option_map (λ r. r.now) p.1)) result (event_first_at text.now) }
{
    match event_of(text)? {
        (event, []) => Ok((event, None)),
        (event, [b',', after @ ..]) => Ok((event, Some(after))),
        _ => Err(PartFault::Bad),
    }
}

/// One phase more; of one alone the list takes no more memory than for it.
#[inline(always)]
fn add(phases: &mut Vec<Phase>, phase: Phase, is_last: bool) -> Result<(), PartFault>
    ensures items { IfOk result (λ _. phases.new.items ≡ phases.old.items ++ phase ∷ []) }
    ensures fault { IfErr result (λ e. e ≡ PartFault.Memory) }
{
    if phases.is_empty() {
        phases.try_reserve_exact(if is_last { 1 } else { ROOM })?;
    }
    phases.push(phase)?;
    Ok(())
}

/// The number of commas in a short text.
fn few_commas(text: &[u8]) -> u8
    requires { length text.now ≤ 255 }
{
    let mut count: u8 = 0;
    for b in text {
        count += u8::from(*b == b',');
    }
    count
}

/// The number of commas in a text, up to the most events that may follow. They are counted in short
/// pieces: such a count fits into a byte, so many bytes are counted at a time.
fn commas(text: &[u8]) -> usize
    ensures { result ≤ 62 }
{
    let mut count: usize = 0;
    let mut rest = text;
    while rest.len() > PIECE {
        let (piece, following) = rest.split_at(PIECE);
        count = count.saturating_add(usize::from(few_commas(piece)));
        rest = following;
    }
    count
        .saturating_add(usize::from(few_commas(rest)))
        .min(MOST_MORE)
}

/// Room for the events from the third on: one, and those after it. Room for a long phase is made
/// once.
#[inline(never)]
fn make_room(events: &mut Vec<Event>, following: Option<&[u8]>) -> Result<(), PartFault>
    ensures items { IfOk result (λ _. events.new.items ≡ events.old.items) }
    ensures fault { IfErr result (λ e. e ≡ PartFault.Memory) }
{
    let others = match following {
        Some(text) => 1 + commas(text),
        None => 0,
    };
    events.try_reserve_exact(1 + others)?;
    Ok(())
}

/// One event more, with others after it or none.
#[inline(always)]
fn put(events: &mut Vec<Event>, event: Event, following: Option<&[u8]>) -> Result<(), PartFault>
    ensures items { IfOk result (λ _. events.new.items ≡ events.old.items ++ event ∷ []) }
    ensures fault { IfErr result (λ e. e ≡ PartFault.Memory) }
{
    if events.len() == events.capacity() {
        if events.is_empty() {
            events.try_reserve_exact(if following.is_none() { 1 } else { ROOM })?;
        } else {
            make_room(events, following)?;
        }
    }
    events.push(event)?;
    Ok(())
}

/// 1 to 64 events, with commas between them.
#[inline(never)]
fn events_of(alloc: Global, text: &[u8]) -> Result<Vec<Event>, PartFault>
    ensures { PartGives (λ v. v.items) result (events_at text.now) }
{
    let mut events = Vec::new(alloc);
    let mut rest = text;
    for _ in 0..MOST_ITEMS {
        let (event, after) = event_first(rest)?;
        put(&mut events, event, after)?;
        match after {
            None => return Ok(events),
            Some(after) => rest = after,
        }
    }
    Err(PartFault::Bad)
}

/// A count and its events, without the brace at the end.
#[tactic(auto, unfolding(crate::specs::private::Reading::phase_at))]
fn phase_of(alloc: Global, text: &[u8]) -> Result<Phase, PartFault>
    ensures { PartGives (λ p. p) result (phase_at text.now) }
{
    let Some((count, events)) = cut(text, b'{') else {
        return Err(PartFault::Bad);
    };
    let count = number_within(count, 1, MOST)?;
    let events = events_of(alloc, events)?;
    Ok(Phase { count, events })
}

/// A phase, and what follows the brace after it.
#[tactic(auto, unfolding(crate::specs::private::Reading::phase_first_at))]
fn phase_first(alloc: Global, text: &[u8]) -> Result<(Phase, Option<&[u8]>), PartFault>
    ensures { PartGives (λ p. (p.0, option_map (λ r. r.now) p.1)) result (phase_first_at text.now) }
{
    let Some((phase, after)) = cut_far(text, b'}') else {
        return Err(PartFault::Bad);
    };
    let phase = phase_of(alloc, phase)?;
    if after.is_empty() {
        Ok((phase, None))
    } else {
        Ok((phase, Some(after)))
    }
}

/// 1 to 64 phases, each with a brace at its end.
fn phases_of(alloc: Global, text: &[u8]) -> Result<Vec<Phase>, PartFault>
    ensures { PartGives (λ v. v.items) result (phases_at text.now) }
{
    let mut phases = Vec::new(alloc);
    let mut rest = text;
    for _ in 0..MOST_ITEMS {
        // What is let go of goes by one call, not written out with all that is inside.
        let (phase, after) = match phase_first(alloc, rest) {
            Ok(found) => found,
            Err(e) => {
                drop(phases);
                return Err(e);
            }
        };
        if let Err(e) = add(&mut phases, phase, after.is_none()) {
            drop(phases);
            return Err(e);
        }
        match after {
            None => return Ok(phases),
            Some(after) => rest = after,
        }
    }
    drop(phases);
    Err(PartFault::Bad)
}

/// The loop count of a script: -1, or 1 to 10^9.
#[tactic(auto, unfolding(crate::specs::private::Reading::rounds_at))]
fn loops_of(text: &[u8]) -> Result<i64, PartFault>
    ensures gives { PartGives rounds_of result (rounds_at text.now) }
    ensures within { IfOk result IsLoops }
{
    if text == b"-1".as_slice() {
        return Ok(-1);
    }
    Ok(number_within(text, 1, MOST)? as i64)
}

/// The script that a text spells.
#[tactic(auto, unfolding(crate::specs::private::Reading::script_at))]
pub(crate) fn script_of(alloc: Global, text: &[u8]) -> Result<Script, PartFault>
    ensures { PartGives (λ s. s) result (script_at text.now) }
{
    let Some((loops, phases)) = cut(text, b':') else {
        return Err(PartFault::Bad);
    };
    let loops = loops_of(loops)?;
    let phases = phases_of(alloc, phases)?;
    match Script::new(loops, phases) {
        Ok(script) => Ok(script),
        Err(_) => Err(PartFault::Bad),
    }
}
