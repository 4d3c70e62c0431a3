ghost use Rattle.std.specs.Prelude.{◌≡◌, ◌++◌, IfOk, codes};
ghost use Rattle.std.specs.Fmt.{WritesOnOk};
ghost use Rattle.std.specs.List.{flat_map};
ghost use Rattle.draft.specs.Draft.{Adds};
ghost use Rattle.run_options.specs.Words.{words_text};
ghost use Rattle.dl_session.specs.Lines.{fault_text};
ghost use Rattle.dl_session.specs.Ending.{as_line, refused_task_line, IsEndOfRun, IsEndOfReplay, ending_status, ending_text};

use crate::fault::{RefusedLine, SessionFault};
use crate::putting::{put_fault, put_refused_task, put_words};
use draft::{Draft, NoMemory};
use run_options::WordsFault;
use session::{Refusal, Report};
use std::alloc::Global;
use std::fmt;

/// How the program ends: what it says on standard error, which is its text, and its exit status.
#[derive(Clone, Copy)]
pub enum Ending<'a> {
    /// The text was written; these tasks were refused, each with its number.
    Done(&'a [(u32, Refusal)]),
    /// There is no text, or only its front: reading, running or writing ended with this fault.
    Fault(&'a SessionFault),
    /// The words of the command line mean no options.
    Words(WordsFault),
}

impl<'a> Ending<'a> {
    /// The end of a run: a line for each refused task in the order of the report, or the line of
    /// the fault.
    pub fn of_run(ended: &'a Result<Report, SessionFault>) -> Ending<'a>
        ensures { IsEndOfRun ended.now result }
    {
        match ended {
            Ok(report) => Ending::Done(&report.refused),
            Err(fault) => Ending::Fault(fault),
        }
    }

    /// The end of a replay, which says nothing, or the line of its fault.
    pub fn of_replay(ended: &'a Result<(), SessionFault>) -> Ending<'a>
        ensures { IsEndOfReplay ended.now result }
    {
        match ended {
            Ok(()) => Ending::Done(&[]),
            Err(fault) => Ending::Fault(fault),
        }
    }

    /// The exit status of the program: 0 where the text was written, tasks refused or not; else
    /// that of the fault, 1 to 4.
    pub fn status(&self) -> u8
        ensures { result ≡ ending_status self.now }
    {
        match self {
            Ending::Done(_) => 0,
            Ending::Fault(fault) => fault.status(),
            Ending::Words(fault) => fault.status(),
        }
    }

    /// What the program says on standard error: a line for each refused task, or the line of the
    /// fault; each ends with an LF. It is what this displays.
    ///
    /// # Errors
    /// 12 [`NoMemory`]: a growth was refused.
    pub fn text(&self, alloc: Global) -> Result<Vec<u8>, NoMemory>
        ensures { IfOk result (λ v. v.items ≡ ending_text self.now) }
    {
        let mut out = Draft::new(alloc);
        put_ending(&mut out, self);
        out.into_text()
    }
}

/// A line for each refused task, in their order.
fn put_refused(out: &mut Draft, refused: &[(u32, Refusal)])
    ensures { Adds out.old out.new (flat_map refused_task_line refused.now) }
{
    for (number, refusal) in refused.iter() {
        put_refused_task(out, *number, *refusal);
    }
}

fn put_fault_line(out: &mut Draft, fault: &SessionFault)
    ensures { Adds out.old out.new (as_line (codes "dlsim: " ++ fault_text fault.now)) }
{
    out.put(b"dlsim: ");
    put_fault(out, fault);
    out.put(b"\n");
}

fn put_words_line(out: &mut Draft, fault: WordsFault)
    ensures { Adds out.old out.new (as_line (codes "dlsim: " ++ words_text fault)) }
{
    out.put(b"dlsim: ");
    put_words(out, fault);
    out.put(b"\n");
}

fn put_ending(out: &mut Draft, ending: &Ending<'_>)
    ensures { Adds out.old out.new (ending_text ending.now) }
{
    match ending {
        Ending::Done(refused) => put_refused(out, refused),
        Ending::Fault(fault) => put_fault_line(out, fault),
        Ending::Words(fault) => put_words_line(out, *fault),
    }
}

/// Writes a line for each refused task, in their order.
fn write_refused<W: fmt::Write>(
    f: &mut fmt::Formatter<W>,
    refused: &[(u32, Refusal)],
) -> fmt::Result
    ensures { WritesOnOk W.write_str_gives f.old result (flat_map refused_task_line refused.now)
        f.new }
{
    for (number, refusal) in refused.iter() {
        let line = RefusedLine {
            number: *number,
            refusal: *refusal,
        };
        writeln!(f, "{line}")?;
    }
    Ok(())
}

/// The text, for want of memory. Each line ends with an LF.
impl fmt::Display for Ending<'_> {
    ghost use Rattle.std.specs.Prelude.{Some};
    ghost use Rattle.dl_session.specs.Ending.{ending_text};

    ghost output = { λ ending. Some (ending_text ending) };

    fn fmt<W: fmt::Write>(&self, f: &mut fmt::Formatter<W>) -> fmt::Result {
        match self {
            Ending::Done(refused) => write_refused(f, refused),
            Ending::Fault(fault) => writeln!(f, "dlsim: {fault}"),
            Ending::Words(fault) => writeln!(f, "dlsim: {fault}"),
        }
    }
}
