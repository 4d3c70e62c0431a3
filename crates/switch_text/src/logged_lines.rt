//! The line of what happens to a task, put together piece by piece.

ghost use Rattle.std.specs.Prelude.{◌≡◌, ◌+◌, ◌<◌, ◌≤◌, ◌++◌, length, take, IsTrue};
ghost use Rattle.switch_text.specs.Names.{name_of_task, HasName};
ghost use Rattle.switch_text.specs.Line.{digits_in};
ghost use Rattle.switch_text.specs.LoggedLine.{has_line, stands_in_front, event_name, seconds_part, target_part, deadline_part, last_fields, event_fields, logged_line_of};
ghost use Rattle.switch_text.specs.EventLines.{HasLoggedLine};

use crate::called::{name_of, pid_for, pid_piece, title_piece};
use crate::lines::{put_cpu, put_micros, put_second, put_task, two_digits};
use crate::putting::{put, put_decimal};
use domain_run::{Happened, What};
use indexmap::IndexMap;

/// Whether it has a line: a cut has none.
pub(crate) fn has_a_line(what: What) -> bool
    ensures { result ≡ has_line what }
{
    !matches!(what, What::Cut)
}

/// The task in front of the line, or idle.
fn in_front(what: What, number: u32) -> Option<u32>
    ensures { result ≡ stands_in_front what number }
{
    match what {
        What::JobEnds | What::NextReleased { .. } | What::Spent { .. } => Some(number),
        What::Cut | What::Replenished { .. } | What::Released { .. } | What::WokenSpent { .. } => {
            None
        }
    }
}

/// The event's name, and what stands before the name of the task.
fn name_of_event(what: What) -> &'static [u8]
    ensures text { result.now ≡ event_name what }
    ensures short { length result.now ≤ 21 }
{
    match what {
        What::JobEnds => b": dl_job_end: comm=",
        What::NextReleased { .. } | What::Released { .. } => b": sched_wakeup: comm=",
        What::Spent { .. } | What::WokenSpent { .. } => b": dl_throttle: comm=",
        What::Replenished { .. } => b": dl_replenish: comm=",
        What::Cut => b"",
    }
}

/// The three digits of a number below 1000.
fn put_three(out: &mut [u8], at: usize, n: u64) -> usize
    requires small { n < 1000 }
    requires room { at + 3 ≤ length out.old }
    ensures place { result ≡ at + 3 }
    ensures text { take result out.new ≡ take at out.old ++ digits_in 3 n }
{
    let at = put(out, at, &[b'0' + (n / 100) as u8]);
    put(out, at, &two_digits(n % 100))
}

/// A time in the event's fields: seconds, and microseconds.
#[tactic(auto, unfolding(crate::specs::LoggedLine::seconds_part))]
fn put_seconds(out: &mut [u8], at: usize, time: u64) -> usize
    requires { at + 21 ≤ length out.old }
    ensures place { result ≡ at + length (seconds_part time) }
    ensures short { result ≤ at + 21 }
    ensures text { take result out.new ≡ take at out.old ++ seconds_part time }
{
    let at = put_decimal(out, at, time / 1_000_000);
    let at = put(out, at, b".");
    put_micros(out, at, time % 1_000_000)
}

/// The priority of a task that wakes, and the CPU of the machine to which it belongs.
#[tactic(auto, unfolding(crate::specs::LoggedLine::target_part))]
fn put_target(out: &mut [u8], at: usize, cpu: u32) -> usize
    requires small { cpu < 512 }
    requires room { at + 23 ≤ length out.old }
    ensures place { result ≡ at + length (target_part cpu) }
    ensures short { result ≤ at + 23 }
    ensures text { take result out.new ≡ take at out.old ++ target_part cpu }
{
    let at = put(out, at, b" prio=-1 target_cpu=");
    put_three(out, at, u64::from(cpu))
}

/// The deadline of a server.
#[tactic(auto, unfolding(crate::specs::LoggedLine::deadline_part))]
fn put_deadline(out: &mut [u8], at: usize, deadline: u64) -> usize
    requires { at + 31 ≤ length out.old }
    ensures place { result ≡ at + length (deadline_part deadline) }
    ensures short { result ≤ at + 31 }
    ensures text { take result out.new ≡ take at out.old ++ deadline_part deadline }
{
    let at = put(out, at, b" deadline=");
    put_seconds(out, at, deadline)
}

/// The last fields of the event.
fn put_last(out: &mut [u8], at: usize, cpu: u32, what: What) -> usize
    requires small { cpu < 512 }
    requires room { at + 31 ≤ length out.old }
    ensures place { result ≡ at + length (last_fields cpu what) }
    ensures short { result ≤ at + 31 }
    ensures text { take result out.new ≡ take at out.old ++ last_fields cpu what }
{
    match what {
        What::JobEnds | What::Cut => at,
        What::NextReleased { .. } | What::Released { .. } => put_target(out, at, cpu),
        What::Spent { deadline } | What::WokenSpent { deadline } | What::Replenished { deadline } =>
            put_deadline(out, at, deadline),
    }
}

/// The event and its fields, up to the end of the line.
#[tactic(auto, unfolding(crate::specs::LoggedLine::event_fields))]
fn put_fields(
    out: &mut [u8],
    at: usize,
    names: &IndexMap<u32, String>,
    cpu: u32,
    number: u32,
    what: What,
) -> usize
    requires small { cpu < 512 }
    requires name { HasName names.now number }
    requires room { at + 83 ≤ length out.old }
    ensures place { result ≡ at + length (event_fields (name_of_task names.now) cpu number what) }
    ensures short { result ≤ at + 83 }
    ensures text { take result out.new ≡ take at out.old
        ++ event_fields (name_of_task names.now) cpu number what }
{
    let at = put(out, at, name_of_event(what));
    let at = put(out, at, name_of(names, number).as_bytes());
    let at = put(out, at, b" pid=");
    let at = put_decimal(out, at, pid_for(Some(number)));
    let at = put_last(out, at, cpu, what);
    put(out, at, b"\n")
}

/// Writes the line of what happens to a task to the front of the buffer, its LF included, and gives
/// the line's length, at most 256 bytes (ftrace's event sched_wakeup; the other events, widths and
/// prefix are this project's own). What stands after the line is left open. Takes no memory.
///
/// `base` is the CPU of the machine that is the domain's CPU 0; `names` has the tasks' names by
/// number. The caller sees to it that it is no cut, which has no line, that its time is below 2^42
/// us and its CPU of the machine below 512, and that the task has a name of 1 to 15 bytes.
pub fn logged_line(
    happened: &Happened,
    base: u32,
    names: &IndexMap<u32, String>,
    out: &mut [u8; 256],
) -> usize
    requires some { IsTrue (has_line happened.now.what) }
    requires line { HasLoggedLine names.now base happened.now }
    ensures len { result ≡ length (logged_line_of (name_of_task names.now) base happened.now) }
    ensures short { result ≤ 256 }
    ensures text { take result out.new ≡ logged_line_of (name_of_task names.now) base happened.now }
{
    let cpu = base + u32::from(happened.cpu);
    let front = in_front(happened.what, happened.number);
    let at = put_task(out, 0, &title_piece(names, front), &pid_piece(front));
    let at = put_cpu(out, at, cpu);
    let at = put_second(out, at, happened.time / 1_000_000);
    let at = put_micros(out, at, happened.time % 1_000_000);
    put_fields(out, at, names, cpu, happened.number, happened.what)
}
