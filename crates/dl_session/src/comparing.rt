//! How a comparison of two traces ends.

ghost use Rattle.std.specs.Prelude.{◌≡◌, ◌++◌, IfOk, codes, decimal};
ghost use Rattle.std.specs.Fmt.{WritesOnOk};
ghost use Rattle.draft.specs.Draft.{Adds};
ghost use Rattle.one_line.specs.Shown.{shown};
ghost use Rattle.dl_session.specs.Comparing.{input_name, compare_status, compare_text, few_text, comparison_status, comparison_text, end_of_tally, IsEndOfComparison};
ghost use Rattle.dl_session.specs.Ending.{as_line};

use crate::putting::{put_counted, put_named};
use compare_report::{CompareFault, Input, Tally, put_tally};
use draft::{Draft, NoMemory};
use one_line::write_shown;
use std::alloc::Global;
use std::fmt;

/// The names of two traces, as they are logged: those of files, or `standard input`.
#[derive(Clone, Copy)]
pub struct TraceNames<'a> {
    pub model: &'a str,
    pub recorded: &'a str,
}

impl<'a> TraceNames<'a> {
    /// The name of one of the two.
    fn of(&self, input: Input) -> &'a str
        ensures { result.now ≡ input_name self.now input }
    {
        match input {
            Input::Model => self.model,
            Input::Recorded => self.recorded,
        }
    }
}

/// How a comparison ends: what it says on standard error, which is its text, and its exit status.
#[derive(Clone, Copy)]
pub enum ComparisonEnding<'a> {
    /// The report was written.
    Done,
    /// The report was written, and fewer runs matched than were asked for.
    FewMatch(Tally),
    /// Both traces are standard input, which is for one of them.
    BothStdin,
    /// The file of this name was not opened, and nothing was read.
    NotOpened(&'a str),
    /// There is no report, or only its front: this fault was met, with traces of these names.
    Fault(CompareFault, TraceNames<'a>),
}

impl<'a> ComparisonEnding<'a> {
    /// The end of a comparison, which says nothing, or that fewer than so many per cent of the
    /// model's runs matched, or the line of its fault.
    pub fn of(
        ended: Result<Tally, CompareFault>,
        fail_under: Option<u8>,
        names: &TraceNames<'a>,
    ) -> ComparisonEnding<'a>
        ensures { IsEndOfComparison ended fail_under names.now result }
    {
        match ended {
            Ok(tally) => end_of_tally(tally, fail_under),
            Err(fault) => ComparisonEnding::Fault(fault, *names),
        }
    }

    /// The exit status of the program: 0 where the report was written, 1 for a trace that is none,
    /// 2 where both are standard input, 3 where a file was not opened or reading or writing failed,
    /// 4 for want of memory, 5 where it was written and fewer runs matched than were asked for.
    pub fn status(&self) -> u8
        ensures { result ≡ comparison_status self.now }
    {
        match self {
            ComparisonEnding::Done => 0,
            ComparisonEnding::FewMatch(_) => 5,
            ComparisonEnding::BothStdin => 2,
            ComparisonEnding::NotOpened(_) => 3,
            ComparisonEnding::Fault(fault, _) => status_of(*fault),
        }
    }

    /// What the program says on standard error: nothing, or a line that ends with an LF. It is what
    /// this displays.
    ///
    /// # Errors
    /// 12 [`NoMemory`]: a growth was refused.
    pub fn text(&self, alloc: Global) -> Result<Vec<u8>, NoMemory>
        ensures { IfOk result (λ v. v.items ≡ comparison_text self.now) }
    {
        let mut out = Draft::new(alloc);
        put_ending(&mut out, self);
        out.into_text()
    }
}

/// The end of a comparison whose report has this total.
fn end_of_tally<'a>(tally: Tally, fail_under: Option<u8>) -> ComparisonEnding<'a>
    ensures { result ≡ end_of_tally fail_under tally }
{
    match fail_under {
        Some(percent) if tally.is_under(percent) => ComparisonEnding::FewMatch(tally),
        _ => ComparisonEnding::Done,
    }
}

fn status_of(fault: CompareFault) -> u8
    ensures { result ≡ compare_status fault }
{
    match fault {
        CompareFault::BadLine { .. } | CompareFault::NoSwitch(_) => 1,
        CompareFault::Read(_) | CompareFault::Endless(_) | CompareFault::Write { .. } => 3,
        CompareFault::Memory => 4,
    }
}

fn put_bad_line(out: &mut Draft, line: u64, name: &str)
    ensures { Adds out.old out.new
        (codes "trace line " ++ (decimal line ++ (codes " in " ++ shown name.now))) }
{
    put_counted(out, b"trace line ", line);
    put_named(out, b" in ", name);
}

/// The text of a fault, without the program's name and the LF.
fn put_fault(out: &mut Draft, fault: CompareFault, names: &TraceNames<'_>)
    ensures { Adds out.old out.new (compare_text fault names.now) }
{
    match fault {
        CompareFault::BadLine { input, line } => put_bad_line(out, line, names.of(input)),
        CompareFault::NoSwitch(input) => put_named(out, b"no switch in ", names.of(input)),
        CompareFault::Read(input) | CompareFault::Endless(input) => {
            put_named(out, b"read failed in ", names.of(input));
        }
        CompareFault::Write { written } => put_counted(out, b"write failed after ", written),
        CompareFault::Memory => out.put(b"out of memory"),
    }
}

fn put_fault_line(out: &mut Draft, fault: CompareFault, names: &TraceNames<'_>)
    ensures { Adds out.old out.new (as_line (codes "dlsim: " ++ compare_text fault names.now)) }
{
    out.put(b"dlsim: ");
    put_fault(out, fault, names);
    out.put(b"\n");
}

fn put_few(out: &mut Draft, tally: Tally)
    ensures { Adds out.old out.new (as_line (codes "dlsim: " ++ few_text tally)) }
{
    out.put(b"dlsim: ");
    put_tally(out, tally);
    out.put(b" match\n");
}

fn put_not_opened(out: &mut Draft, name: &str)
    ensures { Adds out.old out.new (as_line (codes "dlsim: cannot open " ++ shown name.now)) }
{
    put_named(out, b"dlsim: cannot open ", name);
    out.put(b"\n");
}

fn put_ending(out: &mut Draft, ending: &ComparisonEnding<'_>)
    ensures { Adds out.old out.new (comparison_text ending.now) }
{
    match ending {
        ComparisonEnding::Done => {}
        ComparisonEnding::FewMatch(tally) => put_few(out, *tally),
        ComparisonEnding::BothStdin => out.put(b"dlsim: both traces are standard input\n"),
        ComparisonEnding::NotOpened(name) => put_not_opened(out, name),
        ComparisonEnding::Fault(fault, names) => put_fault_line(out, *fault, names),
    }
}

/// Writes words, and after them a name on one line.
fn write_named<W: fmt::Write>(f: &mut fmt::Formatter<W>, words: &str, name: &str) -> fmt::Result
    ensures { WritesOnOk W.write_str_gives f.old result
        (words.now ++ shown name.now) f.new }
{
    f.write_str(words)?;
    write_shown(f, name)
}

/// Writes the line of a fault, without the program's name and the LF.
fn write_fault<W: fmt::Write>(
    f: &mut fmt::Formatter<W>,
    fault: CompareFault,
    names: &TraceNames<'_>,
) -> fmt::Result
    ensures { WritesOnOk W.write_str_gives f.old result (compare_text fault names.now) f.new }
{
    match fault {
        CompareFault::BadLine { input, line } => {
            write!(f, "trace line {line} in ")?;
            write_shown(f, names.of(input))
        }
        CompareFault::NoSwitch(input) => write_named(f, "no switch in ", names.of(input)),
        CompareFault::Read(input) | CompareFault::Endless(input) => {
            write_named(f, "read failed in ", names.of(input))
        }
        CompareFault::Write { written } => write!(f, "write failed after {written}"),
        CompareFault::Memory => f.write_str("out of memory"),
    }
}

/// Writes how many of the model's runs match.
fn write_few<W: fmt::Write>(f: &mut fmt::Formatter<W>, tally: Tally) -> fmt::Result
    ensures { WritesOnOk W.write_str_gives f.old result (few_text tally) f.new }
{
    let Tally { runs, matched } = tally;
    write!(f, "{matched} of {runs} runs match")
}

/// The text, for want of memory. The line ends with an LF.
impl fmt::Display for ComparisonEnding<'_> {
    ghost use Rattle.std.specs.Prelude.{Some};
    ghost use Rattle.dl_session.specs.Comparing.{comparison_text};

    ghost output = { λ ending. Some (comparison_text ending) };

    fn fmt<W: fmt::Write>(&self, f: &mut fmt::Formatter<W>) -> fmt::Result {
        match self {
            ComparisonEnding::Done => Ok(()),
            ComparisonEnding::FewMatch(tally) => {
                f.write_str("dlsim: ")?;
                write_few(f, *tally)?;
                f.write_str("\n")
            }
            ComparisonEnding::BothStdin => f.write_str("dlsim: both traces are standard input\n"),
            ComparisonEnding::NotOpened(name) => {
                write_named(f, "dlsim: cannot open ", name)?;
                f.write_str("\n")
            }
            ComparisonEnding::Fault(fault, names) => {
                f.write_str("dlsim: ")?;
                write_fault(f, *fault, names)?;
                f.write_str("\n")
            }
        }
    }
}
