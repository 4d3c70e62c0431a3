//! A line of a recording.

ghost use Rattle.std.specs.Prelude.{◌≡◌, ◌<◌, ◌^◌, IfSome};
ghost use Rattle.std.specs.Option.{option_map};
ghost use Rattle.recorded_text.specs.Line.{micros_at, time_at, bracketed_at, cpu_at, cpu_before, below_at, coming_name, named_at, short_at, next_at, without_colon, event_and_rest, timed_at, headed_at, line_at};
ghost use Rattle.recorded_text.specs.Views.{line_view, HasSmallTime};

use crate::cut::{cut_first, cut_last, rest_behind, trimmed, word_at_end};
use crate::number::number;

/// Seconds are below this, about 34,000 years (own).
const SECONDS: u64 = 1 << 40;

/// A switch, as a line of a recording tells it.
#[derive(Clone, Copy)]
pub struct Switch<'a> {
    /// When, in microseconds of the recording's clock.
    pub time: u64,
    /// On which CPU of the machine.
    pub cpu: u16,
    /// The name of the task that comes, where its priority is below 0, else nothing.
    pub next: Option<&'a [u8]>,
}

/// What a line of a recording is.
#[derive(Clone, Copy)]
pub enum Line<'a> {
    /// A line of another event, or of none.
    Other,
    /// A line of sched_switch that has none of the three forms.
    Bad,
    /// A switch.
    Seen(Switch<'a>),
}

/// Microseconds: six digits, or nine of which the last three are cut off.
#[tactic(auto, unfolding(crate::specs::Line::micros_at))]
fn micros(text: &[u8]) -> Option<u64>
    ensures value { result ≡ micros_at text.now }
    ensures small { IfSome result (λ n. n < 10 ^ 18) }
{
    if text.len() == 6 {
        number(text)
    } else if text.len() == 9 {
        match number(text) {
            Some(n) => Some(n / 1000),
            None => None,
        }
    } else {
        None
    }
}

/// A time in microseconds.
#[tactic(auto, unfolding(crate::specs::Line::time_at))]
pub(crate) fn time_of(text: &[u8]) -> Option<u64>
    ensures value { result ≡ time_at text.now }
    ensures small { IfSome result (λ t. t < 2 ^ 61) }
{
    let (seconds, fraction) = cut_first(text, b".")?;
    let seconds = number(seconds)?;
    let fraction = micros(fraction)?;
    if seconds < SECONDS {
        Some(seconds * 1_000_000 + fraction)
    } else {
        None
    }
}

/// What stands in brackets.
#[tactic(auto, unfolding(crate::specs::Line::bracketed_at))]
pub(crate) fn bracketed(text: &[u8]) -> Option<&[u8]>
    ensures { option_map (λ r. r.now) result ≡ bracketed_at text.now }
{
    if text.len() >= 2 && text[0] == b'[' && text[text.len() - 1] == b']' {
        Some(&text[1..text.len() - 1])
    } else {
        None
    }
}

/// The CPU of a word.
#[tactic(auto, unfolding(crate::specs::Line::cpu_at))]
fn cpu_of(word: &[u8]) -> Option<u16>
    ensures { result ≡ cpu_at word.now }
{
    let inner = bracketed(word)?;
    let n = number(inner)?;
    if n < 65536 { Some(n as u16) } else { None }
}

/// The CPU before the time.
#[tactic(auto, unfolding(crate::specs::Line::cpu_before))]
fn last_cpu(front: &[u8]) -> Option<u16>
    ensures { result ≡ cpu_before front.now }
{
    let (before, word) = word_at_end(front);
    match cpu_of(word) {
        Some(cpu) => Some(cpu),
        None => {
            let (_, word) = word_at_end(before);
            cpu_of(word)
        }
    }
}

/// Whether a priority is below 0.
#[tactic(auto, unfolding(crate::specs::Line::below_at))]
pub(crate) fn is_below(text: &[u8]) -> Option<bool>
    ensures { result ≡ below_at text.now }
{
    match rest_behind(text, b"-") {
        Some(digits) => match number(digits) {
            Some(n) => Some(n > 0),
            None => None,
        },
        None => match number(text) {
            Some(_) => Some(false),
            None => None,
        },
    }
}

fn name_if(below: bool, name: &[u8]) -> Option<&[u8]>
    ensures { option_map (λ r. r.now) result ≡ coming_name below name.now }
{
    if below { Some(name) } else { None }
}

/// Who comes, in the long form.
#[tactic(auto, unfolding(crate::specs::Line::named_at))]
fn named<'a>(front: &'a [u8], prio: &[u8]) -> Option<Option<&'a [u8]>>
    ensures { option_map (λ o. option_map (λ r. r.now) o) result ≡ named_at front.now prio.now }
{
    let below = is_below(prio)?;
    let (front, word) = word_at_end(front);
    let pid = rest_behind(word, b"next_pid=")?;
    number(pid)?;
    let (_, name) = cut_last(front, b" ==> next_comm=")?;
    Some(name_if(below, name))
}

/// Who comes, in the short form.
#[tactic(auto, unfolding(crate::specs::Line::short_at))]
fn short<'a>(front: &'a [u8], prio: &[u8]) -> Option<Option<&'a [u8]>>
    ensures { option_map (λ o. option_map (λ r. r.now) o) result ≡ short_at front.now prio.now }
{
    let below = is_below(prio)?;
    let (front, pid) = cut_last(front, b":")?;
    number(pid)?;
    let (_, name) = cut_last(front, b" ==> ")?;
    Some(name_if(below, name))
}

/// Who comes.
#[tactic(auto, unfolding(crate::specs::Line::next_at))]
fn next_of(tail: &[u8]) -> Option<Option<&[u8]>>
    ensures { option_map (λ o. option_map (λ r. r.now) o) result ≡ next_at tail.now }
{
    let (front, word) = word_at_end(tail);
    match rest_behind(word, b"next_prio=") {
        Some(prio) => named(front, prio),
        None => {
            let prio = bracketed(word)?;
            short(front, prio)
        }
    }
}

/// What stands before the colon at the end.
#[tactic(auto, unfolding(crate::specs::Line::without_colon))]
pub(crate) fn up_to_colon(text: &[u8]) -> Option<&[u8]>
    ensures { option_map (λ r. r.now) result ≡ without_colon text.now }
{
    let (head, rest) = cut_last(trimmed(text), b":")?;
    if rest.is_empty() { Some(head) } else { None }
}

/// What stands before the event, and its fields, by the mark of `perf script` or that of ftrace,
/// whichever comes first.
#[tactic(auto, unfolding(crate::specs::Line::event_and_rest, crate::specs::Line::by_first_mark))]
pub(crate) fn event_of(line: &[u8]) -> Option<(&[u8], &[u8])>
    ensures { option_map (λ p. (p.0.now, p.1.now)) result ≡ event_and_rest line.now }
{
    let by_ftrace = cut_first(line, b": sched_switch: ");
    let Some((before, tail)) = cut_first(line, b"sched:sched_switch: ") else {
        return by_ftrace;
    };
    match by_ftrace {
        Some((head, rest)) if head.len() < before.len() => Some((head, rest)),
        _ => match up_to_colon(before) {
            Some(head) => Some((head, tail)),
            None => None,
        },
    }
}

#[tactic(auto, unfolding(crate::specs::Line::timed_at))]
fn timed<'a>(time: u64, front: &[u8], tail: &'a [u8]) -> Line<'a>
    requires { time < 2 ^ 61 }
    ensures value { line_view result ≡ timed_at time front.now tail.now }
    ensures small { HasSmallTime result }
{
    match last_cpu(front) {
        None => Line::Bad,
        Some(cpu) => match next_of(tail) {
            None => Line::Bad,
            Some(next) => Line::Seen(Switch { time, cpu, next }),
        },
    }
}

#[tactic(auto, unfolding(crate::specs::Line::headed_at))]
fn headed<'a>(head: &[u8], tail: &'a [u8]) -> Line<'a>
    ensures value { line_view result ≡ headed_at head.now tail.now }
    ensures small { HasSmallTime result }
{
    let (front, word) = word_at_end(head);
    match time_of(word) {
        Some(time) => timed(time, front, tail),
        None => Line::Other,
    }
}

/// What a line is, without the LF at its end: a switch, as ftrace, `trace-cmd report` and
/// `perf script` print the event sched_switch, with or without the column of flags; a line of
/// sched_switch that has none of these forms; or another line. A sched_switch line is one that has
/// a time before the event's name. The time is below 2^61. Takes no memory.
#[tactic(auto, unfolding(crate::specs::Line::line_at))]
pub fn line_of(line: &[u8]) -> Line<'_>
    ensures value { line_view result ≡ line_at line.now }
    ensures small { HasSmallTime result }
{
    match event_of(line) {
        Some((head, tail)) => headed(head, tail),
        None => Line::Other,
    }
}
