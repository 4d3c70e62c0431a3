//! How a task, or the idle task of a CPU, is called in lines.

ghost use Rattle.std.specs.Prelude.{◌≡◌, ◌++◌, ◌<◌, ◌≤◌, ◌^◌, codes, decimal, length, IfSome};
ghost use Rattle.switch_text.specs.Names.{name_of_task, HasName};
ghost use Rattle.switch_text.specs.Line.{pid_of, title_of};
ghost use Rattle.switch_text.specs.private.Called.{IsCalled};
ghost use Rattle.switch_text.specs.private.Pieces.{short_text_of};

use crate::piece::ShortPiece;
use crate::putting::{put, put_decimal};
use indexmap::IndexMap;
use itoa::Buffer;

/// Who leaves or comes, as lines call it.
#[derive(Clone, Copy)]
pub(crate) struct Called {
    /// In front of a line.
    pub(crate) title: ShortPiece,
    /// In the event's fields.
    pub(crate) comm: ShortPiece,
    /// The number that the trace shows.
    pub(crate) pid: ShortPiece,
}

pub(crate) fn name_of(names: &IndexMap<u32, String>, number: u32) -> &str
    requires { HasName names.now number }
    ensures { result.now ≡ name_of_task names.now number }
{
    names.get(&number).unwrap().as_str()
}

/// The number that the trace shows: 1000 above the task's own (own), 0 for idle.
pub(crate) fn pid_for(task: Option<u32>) -> u64
    ensures value { result ≡ pid_of task }
    ensures small { result < 2 ^ 33 }
{
    match task {
        None => 0,
        Some(number) => 1000 + u64::from(number),
    }
}

/// A number in decimal.
pub(crate) fn decimal_piece(n: u64) -> ShortPiece
    ensures { short_text_of result ≡ decimal n }
{
    let mut buffer = Buffer::new();
    ShortPiece::of(buffer.format(n).as_bytes())
}

/// The number of a task that the trace shows.
#[inline(always)]
pub(crate) fn pid_piece(task: Option<u32>) -> ShortPiece
    ensures text { short_text_of result ≡ decimal (pid_of task) }
    ensures short { length (short_text_of result) ≤ 10 }
{
    decimal_piece(pid_for(task))
}

/// The name of the idle task of a CPU of the machine.
fn idle_comm(cpu: u32) -> ShortPiece
    requires { cpu < 512 }
    ensures text { short_text_of result ≡ codes "swapper/" ++ decimal cpu }
    ensures short { length (short_text_of result) ≤ 15 }
{
    let mut text = [0u8; 64];
    let at = put(&mut text, 0, b"swapper/");
    let len = put_decimal(&mut text, at, u64::from(cpu));
    ShortPiece::front(&text, len)
}

/// The name of a task.
fn name_piece(names: &IndexMap<u32, String>, number: u32) -> ShortPiece
    requires { HasName names.now number }
    ensures text { short_text_of result ≡ name_of_task names.now number }
    ensures short { length (short_text_of result) ≤ 15 }
{
    ShortPiece::of(name_of(names, number).as_bytes())
}

/// The name in front of a line.
pub(crate) fn title_piece(names: &IndexMap<u32, String>, task: Option<u32>) -> ShortPiece
    requires { IfSome task (HasName names.now) }
    ensures text { short_text_of result ≡ title_of (name_of_task names.now) task }
    ensures short { length (short_text_of result) ≤ 15 }
{
    match task {
        None => ShortPiece::of(b"<idle>"),
        Some(number) => name_piece(names, number),
    }
}

/// How lines call a task, or the idle task of a CPU of the machine.
pub(crate) fn spell(names: &IndexMap<u32, String>, cpu: u32, task: Option<u32>) -> Called
    requires cpu { cpu < 512 }
    requires name { IfSome task (HasName names.now) }
    ensures { IsCalled (name_of_task names.now) cpu task result }
{
    let title = title_piece(names, task);
    let comm = match task {
        None => idle_comm(cpu),
        Some(_) => title,
    };
    Called {
        title,
        comm,
        pid: pid_piece(task),
    }
}
