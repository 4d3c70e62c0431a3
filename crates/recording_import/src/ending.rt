//! How an import ends.

ghost use Rattle.std.specs.Prelude.{◌≡◌, ◌++◌, IfOk, codes, decimal};
ghost use Rattle.std.specs.Fmt.{WritesOnOk};
ghost use Rattle.draft.specs.Draft.{Adds};
ghost use Rattle.one_line.specs.Shown.{shown};
ghost use Rattle.recording_import.specs.Ending.{import_input_name, line_words, import_text, as_import_line, import_end_text, import_fault_status, import_end_status, IsEndOfImport};

use crate::fault::{ImportFault, ImportInput};
use draft::{Draft, NoMemory};
use one_line::{put_shown, write_shown};
use std::alloc::Global;
use std::fmt;
use task_script::Name;

/// The names of the two texts, as they are told: those of files, or `standard input`.
#[derive(Clone, Copy)]
pub struct InputNames<'a> {
    pub tasks: &'a str,
    pub recorded: &'a str,
}

impl<'a> InputNames<'a> {
    /// The name of one of the two.
    fn of(&self, input: ImportInput) -> &'a str
        ensures { result.now ≡ import_input_name self.now input }
    {
        match input {
            ImportInput::Tasks => self.tasks,
            ImportInput::Recorded => self.recorded,
        }
    }
}

/// How an import ends: what it says on standard error, which is its text, and its exit status.
#[derive(Drop)]
pub enum ImportEnding<'a> {
    /// The calls text was written.
    Done,
    /// Both inputs are standard input, which is for one of them.
    BothStdin,
    /// The file of this name was not opened, and nothing was read.
    NotOpened(&'a str),
    /// Nothing was written, or only a front of the text: this fault was met, with inputs of these
    /// names.
    Fault(ImportFault, InputNames<'a>),
}

impl<'a> ImportEnding<'a> {
    /// The end of an import, which says nothing, or the line of its fault.
    pub fn of(ended: Result<(), ImportFault>, names: &InputNames<'a>) -> ImportEnding<'a>
        ensures { IsEndOfImport ended names.now result }
    {
        match ended {
            Ok(()) => ImportEnding::Done,
            Err(fault) => ImportEnding::Fault(fault, *names),
        }
    }

    /// The exit status of the program: 0 if the calls text was written, 1 for a text that is none
    /// or has no workload, 2 if both inputs are standard input, 3 if a file was not opened or
    /// reading or writing failed, 4 for want of memory.
    pub fn status(&self) -> u8
        ensures { result ≡ import_end_status self.now }
    {
        match self {
            ImportEnding::Done => 0,
            ImportEnding::BothStdin => 2,
            ImportEnding::NotOpened(_) => 3,
            ImportEnding::Fault(fault, _) => status_of(fault),
        }
    }

    /// What the program says on standard error: nothing, or a line that ends with an LF. It is what
    /// this displays.
    ///
    /// # Errors
    /// 12 [`NoMemory`]: a growth was refused.
    pub fn text(&self, alloc: Global) -> Result<Vec<u8>, NoMemory>
        ensures { IfOk result (λ v. v.items ≡ import_end_text self.now) }
    {
        let mut out = Draft::new(alloc);
        put_ending(&mut out, self);
        out.into_text()
    }
}

fn status_of(fault: &ImportFault) -> u8
    ensures { result ≡ import_fault_status fault.now }
{
    match fault {
        ImportFault::BadLine { .. }
        | ImportFault::NoSwitch
        | ImportFault::NoTask
        | ImportFault::ManyJobs { .. }
        | ImportFault::LongSleep { .. }
        | ImportFault::ManyCpus { .. }
        | ImportFault::LongRecording => 1,
        ImportFault::Read(_) | ImportFault::Write { .. } => 3,
        ImportFault::Memory => 4,
    }
}

/// Words, and behind them a name on one line.
fn put_named(out: &mut Draft, words: &[u8], name: &str)
    ensures { Adds out.old out.new (words.now ++ shown name.now) }
{
    out.put(words);
    put_shown(out, name);
}

fn words_of(input: ImportInput) -> &'static str
    ensures { result.now ≡ line_words input }
{
    match input {
        ImportInput::Tasks => "tasks line ",
        ImportInput::Recorded => "trace line ",
    }
}

fn put_bad_line(out: &mut Draft, input: ImportInput, line: u64, name: &str)
    ensures { Adds out.old out.new
        (line_words input ++ (decimal line ++ (codes " in " ++ shown name.now))) }
{
    out.put(words_of(input).as_bytes());
    out.put_decimal(line);
    put_named(out, b" in ", name);
}

fn put_no_task(out: &mut Draft, names: &InputNames<'_>)
    ensures { Adds out.old out.new (import_text ImportFault.NoTask names.now) }
{
    put_named(out, b"no task of ", names.tasks);
    put_named(out, b" in ", names.recorded);
}

fn put_many_jobs(out: &mut Draft, name: &Name, jobs: usize)
    ensures { Adds out.old out.new
        (codes "task " ++ (name.now ++ (codes " has " ++ (decimal jobs ++ codes " jobs")))) }
{
    out.put(b"task ");
    out.put(name.as_str().as_bytes());
    out.put(b" has ");
    out.put_decimal(jobs as u64);
    out.put(b" jobs");
}

fn put_long_sleep(out: &mut Draft, name: &Name)
    ensures { Adds out.old out.new (codes "task " ++ (name.now ++ codes " sleeps too long")) }
{
    out.put(b"task ");
    out.put(name.as_str().as_bytes());
    out.put(b" sleeps too long");
}

/// The text of a fault, without the program's name and the LF.
fn put_fault(out: &mut Draft, fault: &ImportFault, names: &InputNames<'_>)
    ensures { Adds out.old out.new (import_text fault.now names.now) }
{
    match fault {
        ImportFault::BadLine { input, line } => {
            put_bad_line(out, *input, *line, names.of(*input));
        }
        ImportFault::NoSwitch => put_named(out, b"no switch in ", names.recorded),
        ImportFault::NoTask => put_no_task(out, names),
        ImportFault::ManyJobs { name, jobs } => put_many_jobs(out, name, *jobs),
        ImportFault::LongSleep { name } => put_long_sleep(out, name),
        ImportFault::ManyCpus { cpus } => {
            out.put_decimal(*cpus as u64);
            out.put(b" CPUs");
        }
        ImportFault::LongRecording => {
            put_named(out, b"more than 45 days in ", names.recorded);
        }
        ImportFault::Read(input) => put_named(out, b"read failed in ", names.of(*input)),
        ImportFault::Write { written } => {
            out.put(b"write failed after ");
            out.put_decimal(*written as u64);
        }
        ImportFault::Memory => out.put(b"out of memory"),
    }
}

fn put_fault_line(out: &mut Draft, fault: &ImportFault, names: &InputNames<'_>)
    ensures { Adds out.old out.new (as_import_line (codes "dlsim: " ++ import_text fault.now names.now)) }
{
    out.put(b"dlsim: ");
    put_fault(out, fault, names);
    out.put(b"\n");
}

fn put_not_opened(out: &mut Draft, name: &str)
    ensures { Adds out.old out.new (as_import_line (codes "dlsim: cannot open " ++ shown name.now)) }
{
    put_named(out, b"dlsim: cannot open ", name);
    out.put(b"\n");
}

fn put_ending(out: &mut Draft, ending: &ImportEnding<'_>)
    ensures { Adds out.old out.new (import_end_text ending.now) }
{
    match ending {
        ImportEnding::Done => {}
        ImportEnding::BothStdin => out.put(b"dlsim: both inputs are standard input\n"),
        ImportEnding::NotOpened(name) => put_not_opened(out, name),
        ImportEnding::Fault(fault, names) => put_fault_line(out, fault, names),
    }
}

/// Writes words, and behind them a name on one line.
fn write_named<W: fmt::Write>(f: &mut fmt::Formatter<W>, words: &str, name: &str) -> fmt::Result
    ensures { WritesOnOk W.write_str_gives f.old result
        (words.now ++ shown name.now) f.new }
{
    f.write_str(words)?;
    write_shown(f, name)
}

/// Writes the line of a fault, without the program's name and the LF.
fn write_fault<W: fmt::Write>(
    f: &mut fmt::Formatter<W>,
    fault: &ImportFault,
    names: &InputNames<'_>,
) -> fmt::Result
    ensures { WritesOnOk W.write_str_gives f.old result (import_text fault.now names.now) f.new }
{
    match fault {
        ImportFault::BadLine { input, line } => {
            f.write_str(words_of(*input))?;
            write!(f, "{line} in ")?;
            write_shown(f, names.of(*input))
        }
        ImportFault::NoSwitch => write_named(f, "no switch in ", names.recorded),
        ImportFault::NoTask => {
            write_named(f, "no task of ", names.tasks)?;
            write_named(f, " in ", names.recorded)
        }
        ImportFault::ManyJobs { name, jobs } => {
            f.write_str("task ")?;
            f.write_str(name.as_str())?;
            write!(f, " has {jobs} jobs")
        }
        ImportFault::LongSleep { name } => {
            f.write_str("task ")?;
            f.write_str(name.as_str())?;
            f.write_str(" sleeps too long")
        }
        ImportFault::ManyCpus { cpus } => write!(f, "{cpus} CPUs"),
        ImportFault::LongRecording => write_named(f, "more than 45 days in ", names.recorded),
        ImportFault::Read(input) => write_named(f, "read failed in ", names.of(*input)),
        ImportFault::Write { written } => write!(f, "write failed after {written}"),
        ImportFault::Memory => f.write_str("out of memory"),
    }
}

/// The text, for want of memory. The line ends with an LF.
impl fmt::Display for ImportEnding<'_> {
    ghost use Rattle.std.specs.Prelude.{Some};
    ghost use Rattle.recording_import.specs.Ending.{import_end_text};

    ghost output = { λ ending. Some (import_end_text ending) };

    fn fmt<W: fmt::Write>(&self, f: &mut fmt::Formatter<W>) -> fmt::Result {
        match self {
            ImportEnding::Done => Ok(()),
            ImportEnding::BothStdin => f.write_str("dlsim: both inputs are standard input\n"),
            ImportEnding::NotOpened(name) => {
                write_named(f, "dlsim: cannot open ", name)?;
                f.write_str("\n")
            }
            ImportEnding::Fault(fault, names) => {
                f.write_str("dlsim: ")?;
                write_fault(f, fault, names)?;
                f.write_str("\n")
            }
        }
    }
}
