//! The line of a switch, put together piece by piece.

ghost use Rattle.std.specs.Prelude.{◌≡◌, ◌+◌, ◌<◌, ◌≤◌, ◌++◌, length, take};
ghost use Rattle.switch_text.specs.Names.{name_of_task, HasLine};
ghost use Rattle.draft.specs.Columns.{right};
ghost use Rattle.switch_text.specs.Line.{padded_right, digits_in, prio_of, letters_of, cpu_part, switch_line};
ghost use Rattle.switch_text.specs.private.Parts.{second_part, event_part, task_text, leaving_text, state_part, coming_text};
ghost use Rattle.switch_text.specs.private.Pieces.{short_text_of};

use crate::called::{decimal_piece, spell};
use crate::piece::ShortPiece;
use crate::putting::put;
use domain_run::{PrevState, Switch};
use indexmap::IndexMap;

/// With spaces before it, where it is shorter than the width.
#[inline(always)]
fn put_right(out: &mut [u8], at: usize, width: usize, text: &ShortPiece) -> usize
    requires width { width ≤ 16 }
    requires room { at + 48 ≤ length out.old }
    ensures place { result ≡ at + length (right width (short_text_of text.now)) }
    ensures text { take result out.new
        ≡ take at out.old ++ right width (short_text_of text.now) }
{
    let at = ShortPiece::spaces(width.saturating_sub(text.len())).put(out, at);
    text.put(out, at)
}

/// With spaces after it, where it is shorter than the width.
#[inline(always)]
fn put_left(out: &mut [u8], at: usize, width: usize, text: &ShortPiece) -> usize
    requires width { width ≤ 16 }
    requires room { at + length (short_text_of text.now) + 32 ≤ length out.old }
    ensures place { result ≡ at + length (padded_right width (short_text_of text.now)) }
    ensures text { take result out.new
        ≡ take at out.old ++ padded_right width (short_text_of text.now) }
{
    let at = text.put(out, at);
    ShortPiece::spaces(width.saturating_sub(text.len())).put(out, at)
}

/// The two digits of each number below 100.
static PAIRS: [[u8; 2]; 100] = [
    *b"00", *b"01", *b"02", *b"03", *b"04", *b"05", *b"06", *b"07", *b"08", *b"09", *b"10", *b"11",
    *b"12", *b"13", *b"14", *b"15", *b"16", *b"17", *b"18", *b"19", *b"20", *b"21", *b"22", *b"23",
    *b"24", *b"25", *b"26", *b"27", *b"28", *b"29", *b"30", *b"31", *b"32", *b"33", *b"34", *b"35",
    *b"36", *b"37", *b"38", *b"39", *b"40", *b"41", *b"42", *b"43", *b"44", *b"45", *b"46", *b"47",
    *b"48", *b"49", *b"50", *b"51", *b"52", *b"53", *b"54", *b"55", *b"56", *b"57", *b"58", *b"59",
    *b"60", *b"61", *b"62", *b"63", *b"64", *b"65", *b"66", *b"67", *b"68", *b"69", *b"70", *b"71",
    *b"72", *b"73", *b"74", *b"75", *b"76", *b"77", *b"78", *b"79", *b"80", *b"81", *b"82", *b"83",
    *b"84", *b"85", *b"86", *b"87", *b"88", *b"89", *b"90", *b"91", *b"92", *b"93", *b"94", *b"95",
    *b"96", *b"97", *b"98", *b"99",
];

/// The two digits of a number below 100.
#[inline(always)]
pub(crate) fn two_digits(n: u64) -> [u8; 2]
    requires { n < 100 }
    ensures { result ≡ digits_in 2 n }
{
    PAIRS[n as usize]
}

/// The six digits of a number below a million.
#[inline(always)]
pub(crate) fn put_micros(out: &mut [u8], at: usize, n: u64) -> usize
    requires small { n < 1000000 }
    requires room { at + 6 ≤ length out.old }
    ensures place { result ≡ at + 6 }
    ensures text { take result out.new ≡ take at out.old ++ digits_in 6 n }
{
    let low = n % 10_000;
    let at = put(out, at, &two_digits(n / 10_000));
    let at = put(out, at, &two_digits(low / 100));
    put(out, at, &two_digits(low % 100))
}

/// What ftrace shows as the priority: -1 for a deadline task, 120 for idle.
fn prio(task: Option<u32>) -> &'static [u8]
    ensures text { result.now ≡ prio_of task }
    ensures short { length result.now ≤ 3 }
{
    match task {
        None => b"120",
        Some(_) => b"-1",
    }
}

/// The letters of prev_state.
fn letters(state: PrevState) -> &'static [u8]
    ensures { result.now ≡ letters_of state }
{
    match state {
        PrevState::Running => b"R",
        PrevState::Preempted => b"R+",
        PrevState::Sleeping => b"S",
        PrevState::Dead => b"X",
    }
}

/// Whose place is taken, by the name in front of a line and the number.
#[inline(always)]
#[tactic(auto, unfolding(crate::specs::private::Parts::task_text))]
pub(crate) fn put_task(out: &mut [u8], at: usize, title: &ShortPiece, pid: &ShortPiece) -> usize
    requires title { length (short_text_of title.now) ≤ 16 }
    requires pid { length (short_text_of pid.now) ≤ 10 }
    requires room { at + 64 ≤ length out.old }
    ensures place { result
        ≡ at + length (task_text (short_text_of title.now) (short_text_of pid.now)) }
    ensures short { result ≤ at + 27 }
    ensures text { take result out.new
        ≡ take at out.old ++ task_text (short_text_of title.now) (short_text_of pid.now) }
{
    let at = put_right(out, at, 16, title);
    let at = put(out, at, b"-");
    put_left(out, at, 7, pid)
}

/// On which CPU of the machine.
#[inline(always)]
#[tactic(auto, unfolding(crate::specs::Line::cpu_part))]
pub(crate) fn put_cpu(out: &mut [u8], at: usize, cpu: u32) -> usize
    requires small { cpu < 512 }
    requires room { at + 13 ≤ length out.old }
    ensures place { result ≡ at + 13 }
    ensures long { length (cpu_part cpu) ≡ 13 }
    ensures text { take result out.new ≡ take at out.old ++ cpu_part cpu }
{
    let n = u64::from(cpu);
    let at = put(out, at, b" [");
    let at = put(out, at, &[b'0' + (n / 100) as u8]);
    let at = put(out, at, &two_digits(n % 100));
    put(out, at, b"] d..2. ")
}

/// The second, and the point after it.
pub(crate) fn put_second(out: &mut [u8], at: usize, second: u64) -> usize
    requires small { second < 10000000 }
    requires room { at + 48 ≤ length out.old }
    ensures place { result ≡ at + length (second_part second) }
    ensures short { result ≤ at + 8 }
    ensures text { take result out.new ≡ take at out.old ++ second_part second }
{
    let at = put_right(out, at, 5, &decimal_piece(second));
    put(out, at, b".")
}

/// The event's name, and what stands before the name of who leaves.
#[inline(always)]
#[tactic(auto, unfolding(crate::specs::private::Parts::event_part))]
pub(crate) fn put_event(out: &mut [u8], at: usize) -> usize
    requires { at + 26 ≤ length out.old }
    ensures place { result ≡ at + 26 }
    ensures text { take result out.new ≡ take at out.old ++ event_part }
{
    put(out, at, b": sched_switch: prev_comm=")
}

/// The event's fields of who leaves, from the name up to the state.
#[inline(always)]
#[tactic(auto, unfolding(crate::specs::private::Parts::leaving_text))]
pub(crate) fn put_leaving(
    out: &mut [u8],
    at: usize,
    comm: &ShortPiece,
    pid: &ShortPiece,
    prev: Option<u32>,
) -> usize
    requires comm { length (short_text_of comm.now) ≤ 15 }
    requires pid { length (short_text_of pid.now) ≤ 10 }
    requires room { at + 64 ≤ length out.old }
    ensures place { result
        ≡ at + length (leaving_text (short_text_of comm.now) (short_text_of pid.now) prev) }
    ensures short { result ≤ at + 61 }
    ensures text { take result out.new
        ≡ take at out.old ++ leaving_text (short_text_of comm.now) (short_text_of pid.now) prev }
{
    let at = comm.put(out, at);
    let at = put(out, at, b" prev_pid=");
    let at = pid.put(out, at);
    let at = put(out, at, b" prev_prio=");
    let at = put(out, at, prio(prev));
    put(out, at, b" prev_state=")
}

/// The state in which a task leaves, and what stands before the name of who comes.
pub(crate) fn put_state(out: &mut [u8], at: usize, state: PrevState) -> usize
    requires { at + length (state_part state) ≤ length out.old }
    ensures place { result ≡ at + length (state_part state) }
    ensures text { take result out.new ≡ take at out.old ++ state_part state }
{
    let at = put(out, at, letters(state));
    put(out, at, b" ==> next_comm=")
}

/// The event's fields of who comes, from the name to the end of the line.
#[inline(always)]
#[tactic(auto, unfolding(crate::specs::private::Parts::coming_text))]
pub(crate) fn put_coming(
    out: &mut [u8],
    at: usize,
    comm: &ShortPiece,
    pid: &ShortPiece,
    next: Option<u32>,
) -> usize
    requires comm { length (short_text_of comm.now) ≤ 15 }
    requires pid { length (short_text_of pid.now) ≤ 10 }
    requires room { at + 64 ≤ length out.old }
    ensures place { result
        ≡ at + length (coming_text (short_text_of comm.now) (short_text_of pid.now) next) }
    ensures short { result ≤ at + 50 }
    ensures text { take result out.new
        ≡ take at out.old ++ coming_text (short_text_of comm.now) (short_text_of pid.now) next }
{
    let at = comm.put(out, at);
    let at = put(out, at, b" next_pid=");
    let at = pid.put(out, at);
    let at = put(out, at, b" next_prio=");
    let at = put(out, at, prio(next));
    put(out, at, b"\n")
}

/// Writes the line of a switch to the front of the buffer, its LF included, and gives the line's
/// length, at most 256 bytes (ftrace's event sched_switch; widths, prefix and the letters of the
/// states are this project's own). What stands after the line is left open. Takes no memory.
///
/// `base` is the CPU of the machine that is the domain's CPU 0; `names` has the tasks' names by
/// number. The caller sees to it that the switch's time is below 2^42 us and its CPU of the machine
/// below 512, and that each task of the switch has a name of 1 to 15 bytes.
pub fn line(switch: &Switch, base: u32, names: &IndexMap<u32, String>, out: &mut [u8; 256]) -> usize
    requires { HasLine names.now base switch.now }
    ensures len { result ≡ length (switch_line (name_of_task names.now) base switch.now) }
    ensures short { result ≤ 256 }
    ensures text { take result out.new ≡ switch_line (name_of_task names.now) base switch.now }
{
    let time = switch.time();
    let leaves = switch.prev();
    let comes = switch.next();
    let cpu = base + u32::from(switch.cpu());
    let prev = spell(names, cpu, leaves);
    let next = spell(names, cpu, comes);
    let at = put_task(out, 0, &prev.title, &prev.pid);
    let at = put_cpu(out, at, cpu);
    let at = put_second(out, at, time / 1_000_000);
    let at = put_micros(out, at, time % 1_000_000);
    let at = put_event(out, at);
    let at = put_leaving(out, at, &prev.comm, &prev.pid, leaves);
    let at = put_state(out, at, switch.state());
    put_coming(out, at, &next.comm, &next.pid, comes)
}
