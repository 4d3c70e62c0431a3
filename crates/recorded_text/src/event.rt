//! The threads that a line of a recording speaks of.

ghost use Rattle.std.specs.Prelude.{◌≡◌};
ghost use Rattle.std.specs.Option.{option_map};
ghost use Rattle.recorded_text.specs.Threads.{named_leaver, short_leaver, named_threads, short_threads, threads_at, below_of_32, success_at, without_success, named_woken, short_woken, woken_for, woken_on, woken_by_fields, wake_and_rest, headed_wake, wake_in_line, threads_in_line, event_in_line};
ghost use Rattle.recorded_text.specs.EventViews.{thread_view, leaver_view, threads_view, event_view, IsSmallEvent};

use crate::cut::{cut_first, cut_last, rest_behind, trimmed_start, word_at_end, word_at_start};
use crate::line::{Line, bracketed, event_of, is_below, line_of, time_of, up_to_colon};
use crate::number::number;

/// A thread of a recording.
#[derive(Clone, Copy)]
pub struct Thread<'a> {
    pub name: &'a [u8],
    pub pid: u64,
    /// Whether its priority is below 0.
    pub below: bool,
}

/// A thread that leaves a CPU.
#[derive(Clone, Copy)]
pub struct Leaver<'a> {
    pub name: &'a [u8],
    pub pid: u64,
    /// The letters of its state.
    pub state: &'a [u8],
}

/// The threads of a switch.
#[derive(Clone, Copy)]
pub struct Threads<'a> {
    /// Who leaves, if the line says so.
    pub leaves: Option<Leaver<'a>>,
    pub comes: Thread<'a>,
}

/// What a line of a recording tells of switches and wakes.
#[derive(Clone, Copy)]
pub enum Event<'a> {
    /// A line of another event, or of none.
    Other,
    /// A line of sched_switch or sched_wakeup that has none of the three forms.
    Bad,
    /// A switch, its time in microseconds of the recording's clock, and its CPU.
    Switch {
        time: u64,
        cpu: u16,
        threads: Option<Threads<'a>>,
    },
    /// A wake, and its time in microseconds of the recording's clock.
    Wake {
        time: u64,
        thread: Thread<'a>,
    },
}

/// Who leaves, in the long form.
#[tactic(auto, unfolding(crate::specs::Threads::named_leaver))]
fn named_leaver(text: &[u8]) -> Option<Leaver<'_>>
    ensures { option_map leaver_view result ≡ named_leaver text.now }
{
    let (front, word) = word_at_end(text);
    let state = rest_behind(word, b"prev_state=")?;
    let (front, word) = word_at_end(front);
    rest_behind(word, b"prev_prio=")?;
    let (front, word) = word_at_end(front);
    let pid = number(rest_behind(word, b"prev_pid=")?)?;
    let (_, name) = cut_first(front, b"prev_comm=")?;
    Some(Leaver { name, pid, state })
}

/// Who leaves, in the short form.
#[tactic(auto, unfolding(crate::specs::Threads::short_leaver))]
fn short_leaver(text: &[u8]) -> Option<Leaver<'_>>
    ensures { option_map leaver_view result ≡ short_leaver text.now }
{
    let (front, state) = word_at_end(text);
    let (front, word) = word_at_end(front);
    bracketed(word)?;
    let (name, pid) = cut_last(front, b":")?;
    let pid = number(pid)?;
    Some(Leaver {
        name: trimmed_start(name),
        pid,
        state,
    })
}

/// The threads of a switch, in the long form.
#[tactic(auto, unfolding(crate::specs::Threads::named_threads))]
fn named_threads<'a>(front: &'a [u8], prio: &[u8]) -> Option<Threads<'a>>
    ensures { option_map threads_view result ≡ named_threads front.now prio.now }
{
    let below = is_below(prio)?;
    let (front, word) = word_at_end(front);
    let pid = number(rest_behind(word, b"next_pid=")?)?;
    let (before, name) = cut_last(front, b" ==> next_comm=")?;
    Some(Threads {
        leaves: named_leaver(before),
        comes: Thread { name, pid, below },
    })
}

/// The threads of a switch, in the short form.
#[tactic(auto, unfolding(crate::specs::Threads::short_threads))]
fn short_threads<'a>(front: &'a [u8], prio: &[u8]) -> Option<Threads<'a>>
    ensures { option_map threads_view result ≡ short_threads front.now prio.now }
{
    let below = is_below(prio)?;
    let (front, pid) = cut_last(front, b":")?;
    let pid = number(pid)?;
    let (before, name) = cut_last(front, b" ==> ")?;
    Some(Threads {
        leaves: short_leaver(before),
        comes: Thread { name, pid, below },
    })
}

/// The threads of a switch.
#[tactic(auto, unfolding(crate::specs::Threads::threads_at))]
fn threads_of(tail: &[u8]) -> Option<Threads<'_>>
    ensures { option_map threads_view result ≡ threads_at tail.now }
{
    let (front, word) = word_at_end(tail);
    match rest_behind(word, b"next_prio=") {
        Some(prio) => named_threads(front, prio),
        None => {
            let prio = bracketed(word)?;
            short_threads(front, prio)
        }
    }
}

/// Whether a priority is below 0, as a signed number or as one of 32 bits.
#[tactic(auto, unfolding(crate::specs::Threads::below_of_32))]
fn is_below_of_32(text: &[u8]) -> Option<bool>
    ensures { result ≡ below_of_32 text.now }
{
    match rest_behind(text, b"-") {
        Some(digits) => match number(digits) {
            Some(n) => Some(n > 0),
            None => None,
        },
        None => match number(text) {
            Some(n) => Some(n >= 2_147_483_648),
            None => None,
        },
    }
}

/// The number of a field `success=1`.
fn success(word: &[u8]) -> Option<u64>
    ensures { result ≡ success_at word.now }
{
    let digits = rest_behind(word, b"success=")?;
    number(digits)
}

/// Without a field `success=1` at the end.
#[tactic(auto, unfolding(crate::specs::Threads::without_success))]
fn without_success(text: &[u8]) -> &[u8]
    ensures { result.now ≡ without_success text.now }
{
    let (front, word) = word_at_end(text);
    match success(word) {
        Some(_) => front,
        None => text,
    }
}

/// Who is woken, in the long form.
#[tactic(auto, unfolding(crate::specs::Threads::named_woken))]
fn named_woken(text: &[u8]) -> Option<Thread<'_>>
    ensures { option_map thread_view result ≡ named_woken text.now }
{
    let (front, word) = word_at_end(text);
    let below = is_below_of_32(rest_behind(word, b"prio=")?)?;
    let (front, word) = word_at_end(front);
    let pid = number(rest_behind(word, b"pid=")?)?;
    let (_, name) = cut_first(front, b"comm=")?;
    Some(Thread { name, pid, below })
}

/// Who is woken, in the short form.
#[tactic(auto, unfolding(crate::specs::Threads::short_woken))]
fn short_woken(text: &[u8]) -> Option<Thread<'_>>
    ensures { option_map thread_view result ≡ short_woken text.now }
{
    let (front, word) = word_at_end(text);
    let below = is_below_of_32(bracketed(word)?)?;
    let (name, pid) = cut_last(front, b":")?;
    let pid = number(pid)?;
    Some(Thread {
        name: trimmed_start(name),
        pid,
        below,
    })
}

/// Who is woken, in the long form with its CPU.
#[tactic(auto, unfolding(crate::specs::Threads::woken_for))]
fn woken_for<'a>(front: &'a [u8], digits: &[u8]) -> Option<Thread<'a>>
    ensures { option_map thread_view result ≡ woken_for front.now digits.now }
{
    number(digits)?;
    named_woken(without_success(front))
}

/// Who is woken, in the short form with its CPU.
#[tactic(auto, unfolding(crate::specs::Threads::woken_on))]
fn woken_on(tail: &[u8]) -> Option<Thread<'_>>
    ensures { option_map thread_view result ≡ woken_on tail.now }
{
    let (front, after) = cut_last(tail, b" CPU:")?;
    number(word_at_start(after))?;
    short_woken(without_success(front))
}

/// Who is woken.
#[tactic(auto, unfolding(crate::specs::Threads::woken_by_fields))]
fn woken_of(tail: &[u8]) -> Option<Thread<'_>>
    ensures { option_map thread_view result ≡ woken_by_fields tail.now }
{
    let (front, word) = word_at_end(tail);
    match rest_behind(word, b"target_cpu=") {
        Some(digits) => woken_for(front, digits),
        None => woken_on(tail),
    }
}

/// What precedes a wake, and its fields, by the mark of `perf script` or that of ftrace, whichever
/// comes first.
#[tactic(auto, unfolding(crate::specs::Threads::wake_and_rest, crate::specs::Line::by_first_mark))]
fn wake_of(line: &[u8]) -> Option<(&[u8], &[u8])>
    ensures { option_map (λ p. (p.0.now, p.1.now)) result ≡ wake_and_rest line.now }
{
    let by_ftrace = cut_first(line, b": sched_wakeup: ");
    let Some((before, tail)) = cut_first(line, b"sched:sched_wakeup: ") else {
        return by_ftrace;
    };
    match by_ftrace {
        Some((head, rest)) if head.len() < before.len() => Some((head, rest)),
        _ => match up_to_colon(before) {
            Some(head) => Some((head, tail)),
            None => None,
        },
    }
}

#[tactic(auto, unfolding(crate::specs::Threads::headed_wake))]
fn headed_wake<'a>(head: &[u8], tail: &'a [u8]) -> Event<'a>
    ensures value { event_view result ≡ headed_wake head.now tail.now }
    ensures small { IsSmallEvent result }
{
    let (_, word) = word_at_end(head);
    match time_of(word) {
        None => Event::Other,
        Some(time) => match woken_of(tail) {
            Some(thread) => Event::Wake { time, thread },
            None => Event::Bad,
        },
    }
}

#[tactic(auto, unfolding(crate::specs::Threads::wake_in_line))]
fn wake_in_line(line: &[u8]) -> Event<'_>
    ensures value { event_view result ≡ wake_in_line line.now }
    ensures small { IsSmallEvent result }
{
    match wake_of(line) {
        Some((head, tail)) => headed_wake(head, tail),
        None => Event::Other,
    }
}

#[tactic(auto, unfolding(crate::specs::Threads::threads_in_line))]
fn threads_in_line(line: &[u8]) -> Option<Threads<'_>>
    ensures { option_map threads_view result ≡ threads_in_line line.now }
{
    let (_, tail) = event_of(line)?;
    threads_of(tail)
}

/// What a line tells, without the LF at its end: a switch, as [`line_of`] reads it, with its
/// threads; or a wake. A switch is bad if it is bad there. A wake is a line of sched_wakeup with a
/// time before the event's name, as ftrace, `trace-cmd report` or `perf script` print it. The time
/// is below 2^61. Takes no memory.
#[tactic(auto, unfolding(crate::specs::Threads::event_in_line))]
pub fn event_in(line: &[u8]) -> Event<'_>
    ensures value { event_view result ≡ event_in_line line.now }
    ensures small { IsSmallEvent result }
{
    match line_of(line) {
        Line::Other => wake_in_line(line),
        Line::Bad => Event::Bad,
        Line::Seen(switch) => Event::Switch {
            time: switch.time,
            cpu: switch.cpu,
            threads: threads_in_line(line),
        },
    }
}
