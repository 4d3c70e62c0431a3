ghost use Rattle.std.specs.Prelude.{◌≡◌, ℕ, ◌<◌, ◌≤◌, List, ◌++◌, IfOk, MatchOption};
ghost use Rattle.calls_text.specs.private.Reading.{PartGives, field_at, name_at, times_at, AreTimes, flag_at, flagged_at, params_at, plan_at, newcomer_at, admit_at, arrive_at, seen_at, answer_at, regrade_at, numbered_at, change_at, limit_at, word_spelled, front_of, worded_at, called_at, call_at, known_at, domain_at};
ghost use Rattle.calls_text.specs.KeptCall.{call_kept};
ghost use Rattle.limits.specs.Limits.{max_advance};

use crate::cut::{cut, following};
use crate::fault::PartFault;
use crate::kept_call::Kept;
use crate::number::{number_first, number_within};
use crate::reused::Reused;
use crate::times::Times;
use attr_check::{Params, SchedAttr, check};
use domain_run::{Call, Name, Script};
use std::alloc::Global;

/// The greatest number of a client.
const MOST_CLIENT: u64 = 64;
/// The greatest number of a task.
const MOST_NUMBER: u64 = 65535;
/// The most microseconds of a period.
const MOST_TIME: u64 = 1 << 32;
/// The most microseconds from an admission to the start of the task.
const MOST_DELAY: u64 = 1_000_000_000;
/// The most ticks of one call.
const MOST_TICKS: u64 = 60_000_000;
/// The most that a bandwidth word holds: 64 whole CPUs, in 1/2^20.
const MOST_WORD: u64 = 1 << 26;
/// The most CPUs of a domain.
const MOST_CPUS: u64 = 64;
/// 1 % of a CPU, in 1/2^20.
const LEAST_LIMIT: u64 = 10485;
/// A whole CPU, in 1/2^20.
const MOST_LIMIT: u64 = 1_048_576;

/// A number up to the next space, from `least` to `most`, and what follows.
#[tactic(auto, unfolding(crate::specs::private::Reading::field_at))]
fn field(text: &[u8], least: u64, most: u64) -> Result<(u64, &[u8]), PartFault>
    requires { most < 1000000000000000000 }
    ensures gives { PartGives (λ p. (p.0, p.1.now)) result (field_at least most text.now) }
    ensures within { IfOk result (λ p. (least ≤ p.0) × (p.0 ≤ most)) }
{
    match number_first(text, least, most)? {
        (n, [b' ', rest @ ..]) => Ok((n, rest)),
        _ => Err(PartFault::Bad),
    }
}

/// The name that a text is.
#[tactic(auto, unfolding(crate::specs::private::Reading::name_at))]
fn name_of(alloc: Global, text: &[u8]) -> Result<Name, PartFault>
    ensures { PartGives (λ n. n) result (name_at text.now) }
{
    if text.len() > 15 {
        return Err(PartFault::Bad);
    }
    let Ok(text) = str::from_utf8(text) else {
        return Err(PartFault::Bad);
    };
    match Name::new(String::from_str(alloc, text)?) {
        Ok(name) => Ok(name),
        Err(_) => Err(PartFault::Bad),
    }
}

/// Q, D and P, each up to the next space, and what follows.
#[inline(always)]
#[tactic(auto, unfolding(crate::specs::private::Reading::times_at))]
fn times_of(text: &[u8]) -> Result<(Times, &[u8]), PartFault>
    ensures gives { PartGives (λ p. (p.0, p.1.now)) result (times_at text.now) }
    ensures within { IfOk result (λ p. AreTimes p.0) }
{
    let (runtime, rest) = field(text, 1, MOST_TIME)?;
    let (deadline, rest) = field(rest, 1, MOST_TIME)?;
    let (period, rest) = field(rest, 1, MOST_TIME)?;
    let times = Times {
        runtime,
        deadline,
        period,
    };
    Ok((times, rest))
}

/// Whether a task with this flag reclaims: `R` says so, and `-` that it does not.
#[tactic(auto, unfolding(crate::specs::private::Reading::flag_at))]
fn reclaim_of(flag: &[u8]) -> Result<bool, PartFault>
    ensures { PartGives (λ b. b) result (flag_at flag.now) }
{
    if flag == b"R".as_slice() {
        return Ok(true);
    }
    if flag == b"-".as_slice() {
        return Ok(false);
    }
    Err(PartFault::Bad)
}

/// The same of the flag up to the next space, and what follows.
fn reclaim_first(text: &[u8]) -> Result<(bool, &[u8]), PartFault>
    ensures { PartGives (λ p. (p.0, p.1.now)) result (flagged_at text.now) }
{
    if let Some(rest) = following(b"R ".as_slice(), text) {
        return Ok((true, rest));
    }
    if let Some(rest) = following(b"- ".as_slice(), text) {
        return Ok((false, rest));
    }
    Err(PartFault::Bad)
}

/// The parameters that these times give to a task that reclaims or does not.
#[tactic(auto, unfolding(crate::specs::private::Reading::params_at))]
fn params_of(times: Times, reclaim: bool) -> Result<Params, PartFault>
    requires { AreTimes times }
    ensures { PartGives (λ p. p) result (params_at times reclaim) }
{
    let attr = SchedAttr {
        policy: 6,
        flags: if reclaim { 2 } else { 0 },
        runtime: times.runtime * 1000,
        deadline: times.deadline * 1000,
        period: times.period * 1000,
    };
    match check(&attr) {
        Ok(params) => Ok(params),
        Err(_) => Err(PartFault::Bad),
    }
}

/// The delay and the script of an admission.
#[tactic(auto, unfolding(crate::specs::private::Reading::plan_at))]
fn plan_of<'t>(
    alloc: Global,
    text: &'t [u8],
    reused: &mut Reused<'t>,
) -> Result<(u64, Script), PartFault>
    ensures { PartGives (λ p. p) result (plan_at text.now) }
{
    let (delay, rest) = field(text, 0, MOST_DELAY)?;
    let script = reused.script_of(alloc, rest)?;
    Ok((delay, script))
}

/// A task that comes: what an `admit` line and an `arrive` line begin with.
pub(crate) struct Newcomer {
    pub(crate) number: u32,
    pub(crate) name: Name,
    pub(crate) params: Params,
}

/// The number, the name and the parameters of a task that comes, and what follows.
#[inline(always)]
#[tactic(auto, unfolding(crate::specs::private::Reading::newcomer_at))]
fn newcomer_of(alloc: Global, text: &[u8]) -> Result<(Newcomer, &[u8]), PartFault>
    ensures { PartGives (λ p. (p.0, p.1.now)) result (newcomer_at text.now) }
{
    let (number, rest) = field(text, 1, MOST_NUMBER)?;
    let Some((name, rest)) = cut(rest, b' ') else {
        return Err(PartFault::Bad);
    };
    let (times, rest) = times_of(rest)?;
    let (reclaim, rest) = reclaim_first(rest)?;
    let params = params_of(times, reclaim)?;
    // The name comes last: it takes memory, and so there is none to let go of on the ways before.
    let name = name_of(alloc, name)?;
    let newcomer = Newcomer {
        number: number as u32,
        name,
        params,
    };
    Ok((newcomer, rest))
}

/// What follows the client in an `admit` line.
#[inline(never)]
#[tactic(auto, unfolding(crate::specs::private::Reading::admit_at))]
fn admit_of<'t>(alloc: Global, text: &'t [u8], reused: &mut Reused<'t>) -> Result<Kept, PartFault>
    ensures { PartGives call_kept result (admit_at text.now) }
{
    let (newcomer, rest) = newcomer_of(alloc, text)?;
    let Newcomer {
        number,
        name,
        params,
    } = newcomer;
    let (delay, script) = plan_of(alloc, rest, reused)?;
    let call = Call::Admit {
        number,
        name,
        params,
        delay,
        script,
    };
    reused.long(alloc, call)
}

/// What follows the client in an `arrive` line.
#[inline(never)]
#[tactic(auto, unfolding(crate::specs::private::Reading::arrive_at))]
fn arrive_of<'t>(alloc: Global, text: &'t [u8], reused: &mut Reused<'t>) -> Result<Kept, PartFault>
    ensures { PartGives call_kept result (arrive_at text.now) }
{
    let (newcomer, rest) = newcomer_of(alloc, text)?;
    let Newcomer {
        number,
        name,
        params,
    } = newcomer;
    let script = reused.script_of(alloc, rest)?;
    let call = Call::Arrive {
        number,
        name,
        params,
        script,
    };
    reused.long(alloc, call)
}

/// The number with which the bandwidth word refused, from what stands after the flag of a `regrade`
/// line, and after the limit of a `limit` line.
fn seen_of(text: &[u8]) -> Result<u64, PartFault>
    ensures { PartGives (λ n. n) result (seen_at text.now) }
{
    match following(b"busy ".as_slice(), text) {
        Some(digits) => number_within(digits, 0, MOST_WORD),
        None => Err(PartFault::Bad),
    }
}

/// Whether the task of a `regrade` line reclaims, and with what the bandwidth word refused, where
/// it did.
#[tactic(auto, unfolding(crate::specs::private::Reading::answer_at))]
fn answer_of(text: &[u8]) -> Result<(bool, Option<u64>), PartFault>
    ensures { PartGives (λ p. p) result (answer_at text.now) }
{
    if text.len() == 1 {
        let reclaim = reclaim_of(text)?;
        return Ok((reclaim, None));
    }
    let (reclaim, rest) = reclaim_first(text)?;
    let seen = seen_of(rest)?;
    Ok((reclaim, Some(seen)))
}

/// What follows the client in a `regrade` line.
#[inline(never)]
#[tactic(auto, unfolding(crate::specs::private::Reading::regrade_at))]
fn regrade_of(alloc: Global, text: &[u8], reused: &mut Reused<'_>) -> Result<Kept, PartFault>
    ensures { PartGives call_kept result (regrade_at text.now) }
{
    let (number, rest) = field(text, 1, MOST_NUMBER)?;
    let (times, rest) = times_of(rest)?;
    let (reclaim, word) = answer_of(rest)?;
    let params = params_of(times, reclaim)?;
    let call = Call::Regrade {
        number: number as u32,
        params,
        word,
    };
    reused.long(alloc, call)
}

/// What follows the client in a `wake` line.
#[tactic(auto, unfolding(crate::specs::private::Reading::numbered_at))]
fn wake_of(text: &[u8]) -> Result<Kept, PartFault>
    ensures { PartGives call_kept result (numbered_at 65535 (λ n. Call.Wake n) text.now) }
{
    let number = number_within(text, 1, MOST_NUMBER)? as u32;
    Ok(Kept::Wake { number })
}

/// What follows the client in a `leave` line.
#[tactic(auto, unfolding(crate::specs::private::Reading::numbered_at))]
fn leave_of(text: &[u8]) -> Result<Kept, PartFault>
    ensures { PartGives call_kept result (numbered_at 65535 (λ n. Call.Leave n) text.now) }
{
    let number = number_within(text, 1, MOST_NUMBER)? as u32;
    Ok(Kept::Leave { number })
}

/// What follows the client in a `depart` line.
#[tactic(auto, unfolding(crate::specs::private::Reading::numbered_at))]
fn depart_of(text: &[u8]) -> Result<Kept, PartFault>
    ensures { PartGives call_kept result (numbered_at 65535 (λ n. Call.Depart n) text.now) }
{
    let number = number_within(text, 1, MOST_NUMBER)? as u32;
    Ok(Kept::Depart { number })
}

/// What follows the client in an `advance` line.
#[tactic(auto, unfolding(crate::specs::private::Reading::numbered_at))]
fn advance_of(text: &[u8]) -> Result<Kept, PartFault>
    ensures { PartGives call_kept result (numbered_at max_advance (λ n. Call.Advance n) text.now) }
{
    let ticks = number_within(text, 1, MOST_TICKS)?;
    Ok(Kept::Advance { ticks })
}

/// A new limit, and with what the bandwidth word refused it, where it did.
#[tactic(auto, unfolding(crate::specs::private::Reading::change_at))]
fn change_of(text: &[u8]) -> Result<(u64, Option<u64>), PartFault>
    ensures { PartGives (λ p. p) result (change_at text.now) }
{
    let Some((limit, rest)) = cut(text, b' ') else {
        let limit = number_within(text, LEAST_LIMIT, MOST_LIMIT)?;
        return Ok((limit, None));
    };
    let limit = number_within(limit, LEAST_LIMIT, MOST_LIMIT)?;
    let seen = seen_of(rest)?;
    Ok((limit, Some(seen)))
}

/// What follows the client in a `limit` line.
#[inline(never)]
#[tactic(auto, unfolding(crate::specs::private::Reading::limit_at))]
fn limit_of(alloc: Global, text: &[u8], reused: &mut Reused<'_>) -> Result<Kept, PartFault>
    ensures { PartGives call_kept result (limit_at text.now) }
{
    let (limit, word) = change_of(text)?;
    reused.long(alloc, Call::Limit { limit, word })
}

/// The word at the front of a call's line.
#[derive(Clone, Copy)]
enum Word {
    Admit,
    Regrade,
    Wake,
    Leave,
    Advance,
    Limit,
    Depart,
    Arrive,
}

/// The word at the front of a line, and what follows the space after it. Words that stand in most
/// lines are looked for first.
#[inline(always)]
fn word_first(line: &[u8]) -> Option<(Word, &[u8])>
    ensures { MatchOption result
        ((word : Word) (rest : List ℕ) → line.now ≡ front_of word ++ rest → ⊥)
        (λ p. line.now ≡ front_of p.0 ++ p.1.now) }
{
    if let Some(rest) = following(b"wake ".as_slice(), line) {
        return Some((Word::Wake, rest));
    }
    if let Some(rest) = following(b"advance ".as_slice(), line) {
        return Some((Word::Advance, rest));
    }
    if let Some(rest) = following(b"admit ".as_slice(), line) {
        return Some((Word::Admit, rest));
    }
    if let Some(rest) = following(b"leave ".as_slice(), line) {
        return Some((Word::Leave, rest));
    }
    if let Some(rest) = following(b"regrade ".as_slice(), line) {
        return Some((Word::Regrade, rest));
    }
    if let Some(rest) = following(b"limit ".as_slice(), line) {
        return Some((Word::Limit, rest));
    }
    if let Some(rest) = following(b"depart ".as_slice(), line) {
        return Some((Word::Depart, rest));
    }
    if let Some(rest) = following(b"arrive ".as_slice(), line) {
        return Some((Word::Arrive, rest));
    }
    None
}

/// What follows the client in a line of this word.
#[inline(always)]
#[tactic(auto, unfolding(crate::specs::private::Reading::worded_at))]
fn worded<'t>(
    alloc: Global,
    word: Word,
    text: &'t [u8],
    reused: &mut Reused<'t>,
) -> Result<Kept, PartFault>
    ensures { PartGives call_kept result (worded_at (word_spelled word) text.now) }
{
    match word {
        Word::Admit => admit_of(alloc, text, reused),
        Word::Regrade => regrade_of(alloc, text, reused),
        Word::Wake => wake_of(text),
        Word::Leave => leave_of(text),
        Word::Advance => advance_of(text),
        Word::Limit => limit_of(alloc, text, reused),
        Word::Depart => depart_of(text),
        Word::Arrive => arrive_of(alloc, text, reused),
    }
}

/// The client and the call that stand after this word and its space.
#[inline(always)]
fn called<'t>(
    alloc: Global,
    word: Word,
    text: &'t [u8],
    reused: &mut Reused<'t>,
) -> Result<(u32, Kept), PartFault>
    ensures gives { PartGives (λ p. (p.0, call_kept p.1)) result
        (called_at (word_spelled word) text.now) }
    ensures within { IfOk result (λ p. (1 ≤ p.0) × (p.0 ≤ 64)) }
{
    let (client, rest) = field(text, 1, MOST_CLIENT)?;
    let kept = worded(alloc, word, rest, reused)?;
    Ok((client as u32, kept))
}

/// The client and the call that a line spells.
#[inline(always)]
fn kept_of<'t>(
    alloc: Global,
    line: &'t [u8],
    reused: &mut Reused<'t>,
) -> Result<(u32, Kept), PartFault>
    ensures gives { PartGives (λ p. (p.0, call_kept p.1)) result (call_at line.now) }
    ensures within { IfOk result (λ p. (1 ≤ p.0) × (p.0 ≤ 64)) }
{
    match word_first(line) {
        Some((word, rest)) => called(alloc, word, rest, reused),
        None => Err(PartFault::Bad),
    }
}

/// The client and the call that a line spells, after a header that has calls of the second form or
/// has none.
#[inline(always)]
#[tactic(auto, unfolding(crate::specs::private::Reading::known_at))]
pub(crate) fn known_call<'t>(
    alloc: Global,
    line: &'t [u8],
    later: bool,
    reused: &mut Reused<'t>,
) -> Result<(u32, Kept), PartFault>
    ensures gives { PartGives (λ p. (p.0, call_kept p.1)) result (known_at later line.now) }
    ensures within { IfOk result (λ p. (1 ≤ p.0) × (p.0 ≤ 64)) }
{
    let (client, kept) = kept_of(alloc, line, reused)?;
    if kept.is_later() && !later {
        return Err(PartFault::Bad);
    }
    Ok((client, kept))
}

/// The CPUs and the limit of the domain that a section's line spells.
#[tactic(auto, unfolding(crate::specs::private::Reading::domain_at))]
pub(crate) fn domain_of(line: &[u8]) -> Result<(u64, u64), PartFault>
    ensures gives { PartGives (λ p. p) result (domain_at line.now) }
    ensures within { IfOk result (λ p. p.0 ≤ 64) }
{
    let Some((word, rest)) = cut(line, b' ') else {
        return Err(PartFault::Bad);
    };
    let (cpus, rest) = field(rest, 1, MOST_CPUS)?;
    let limit = number_within(rest, LEAST_LIMIT, MOST_LIMIT)?;
    if word != b"domain".as_slice() {
        return Err(PartFault::Bad);
    }
    Ok((cpus, limit))
}
