//! The part of a line that has a fixed room.

ghost use Rattle.std.specs.Prelude.{◌≡◌, ◌+◌, ◌≤◌, [], ◌++◌, length, codes, decimal, replicate};
ghost use Rattle.std.specs.Fmt.{signed_decimal};
ghost use Rattle.draft.specs.Columns.{right, column};
ghost use Rattle.figure_text.specs.Jobs.{end_columns};
ghost use Rattle.figure_text.specs.private.JobLine.{after_name};

use itoa::Buffer;
use run_figures::Job;
use std::marker::Model;

/// How many bytes a line has room for.
const SIZE: usize = 512;

/// Up to 15 spaces.
pub(crate) fn spaces(count: usize) -> &'static [u8]
    requires { count ≤ 15 }
    ensures { result.now ≡ replicate count 32 }
{
    &b"               "[..count]
}

/// Columns of a line.
#[derive(Drop)]
pub(crate) struct Line {
    bytes: [u8; SIZE],
    len: usize,
}

impl Model for Line {
    ghost use Rattle.std.specs.Prelude.{ℕ, List, take, ◌≤◌};

    ghost Value = { List ℕ };

    ghost view = { λ l. take l.len l.bytes };

    ghost invariant = { λ l. l.len ≤ 512 };
}

impl Line {
    fn new() -> Line
        ensures { result ≡ [] }
    {
        Line {
            bytes: [0; SIZE],
            len: 0,
        }
    }

    pub(crate) fn as_slice(&self) -> &[u8]
        ensures { result.now ≡ self.now }
    {
        &self.bytes[..self.len]
    }

    fn append(&mut self, text: &[u8])
        requires { length self.old + length text.now ≤ SIZE }
        ensures { self.new ≡ self.old ++ text.now }
    {
        let end = self.len + text.len();
        self.bytes[self.len..end].copy_from_slice(text);
        self.len = end;
    }

    /// A text at the right of a column.
    fn append_right(&mut self, width: usize, text: &[u8])
        requires width { width ≤ 15 }
        requires text { length text.now ≤ 40 }
        requires room { length self.old + 55 ≤ SIZE }
        ensures text { self.new ≡ self.old ++ right width text.now }
        ensures short { length self.new ≤ length self.old + 55 }
    {
        self.append(spaces(width.saturating_sub(text.len())));
        self.append(text);
    }

    /// A space, and a text at the right of a column.
    fn append_column(&mut self, width: usize, text: &[u8])
        requires width { width ≤ 15 }
        requires text { length text.now ≤ 40 }
        requires room { length self.old + 56 ≤ SIZE }
        ensures text { self.new ≡ self.old ++ column width text.now }
        ensures short { length self.new ≤ length self.old + 56 }
    {
        self.append(b" ");
        self.append_right(width, text);
    }

    /// A space, and a number at the right of a column.
    fn append_number(&mut self, width: usize, n: u64)
        requires width { width ≤ 15 }
        requires room { length self.old + 56 ≤ SIZE }
        ensures text { self.new ≡ self.old ++ column width (decimal n) }
        ensures short { length self.new ≤ length self.old + 56 }
    {
        let mut buffer = Buffer::new();
        self.append_column(width, buffer.format(n).as_bytes());
    }

    /// The same of a number that may be below 0.
    fn append_signed(&mut self, width: usize, n: i128)
        requires width { width ≤ 15 }
        requires room { length self.old + 56 ≤ SIZE }
        ensures text { self.new ≡ self.old ++ column width (signed_decimal n) }
        ensures short { length self.new ≤ length self.old + 56 }
    {
        let mut buffer = Buffer::new();
        self.append_column(width, buffer.format(n).as_bytes());
    }

    /// A space, and a dash at the right of a column.
    fn append_dash(&mut self, width: usize)
        requires width { width ≤ 15 }
        requires room { length self.old + 56 ≤ SIZE }
        ensures text { self.new ≡ self.old ++ column width (codes "-") }
        ensures short { length self.new ≤ length self.old + 56 }
    {
        self.append_column(width, b"-");
    }

    /// The columns of a job's end.
    fn append_end(&mut self, job: &Job)
        requires room { length self.old + 168 ≤ SIZE }
        ensures text { self.new ≡ self.old ++ end_columns job.now job.now.ended }
        ensures short { length self.new ≤ length self.old + 168 }
    {
        match job.ended {
            None => {
                self.append_dash(11);
                self.append_dash(11);
                self.append_dash(11);
            }
            Some(end) => {
                self.append_number(11, end);
                self.append_number(11, end.saturating_sub(job.release));
                self.append_signed(11, i128::from(job.deadline) - i128::from(end));
            }
        }
    }
}

/// The line of a job after the name of its task.
pub(crate) fn after_name(number: u32, place: u64, job: &Job) -> Line
    ensures { result ≡ after_name number place job.now }
{
    let mut line = Line::new();
    line.append_number(6, 1000 + u64::from(number));
    line.append_number(6, place);
    line.append_number(11, job.release);
    line.append_end(job);
    line.append_number(9, job.throttled);
    line.append(b"\n");
    line
}
