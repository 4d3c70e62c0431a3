//! dlsim: a model of SCHED_DEADLINE that writes of a scenario, or of recorded calls, the switches
//! as a trace, also with what happens between them, the jobs, a summary, or the calls with their
//! replies; that compares a trace with a recorded one; and that makes calls of a recording.
//!
//! The program has its words read (`command_line`), and calls [`dl_session::run`] or
//! [`dl_session::replay_as`] with standard input and standard output, or
//! [`dl_session::compare_texts`], [`recording_import::import_recording`] or
//! [`recording_import::import_jobs`] with two files or one, and standard input. What it says on
//! standard error then, and its exit status, are those of the [`Ending`], the [`ComparisonEnding`]
//! or the [`ImportEnding`].
#![tactic(auto)]

ghost use Rattle.command_line.specs.Importing.{IsImportable};

use clap::error::ErrorKind as ClapKind;
use command_line::{Comparison, ImportCommand, ImportPrint, Source, Task, Wrong, read_words};
use dl_session::{
    AllPass, ComparisonEnding, Ending, TraceNames, WordsFault, compare_texts, replay_as, run,
};
use recording_import::{ImportEnding, InputNames, import_jobs, import_recording};
use std::fs::{self, File};
use std::io::{self, ErrorKind, Read, Stdin};
use std::process::ExitCode;
use switch_text::Counted;

/// Says on standard error what there is to say of this end, and ends with its status. Without
/// memory for its text the end displays itself.
fn end_with(rt: &HostRuntime, ending: &Ending<'_>) -> ExitCode {
    let _ = match ending.text(rt.alloc()) {
        Ok(text) => rt.stderr().write_all(&text),
        Err(_) => eprint!(rt; "{ending}"),
    };
    ExitCode::from(ending.status())
}

/// The same of the end of a comparison.
fn end_comparison(rt: &HostRuntime, ending: &ComparisonEnding<'_>) -> ExitCode {
    let _ = match ending.text(rt.alloc()) {
        Ok(text) => rt.stderr().write_all(&text),
        Err(_) => eprint!(rt; "{ending}"),
    };
    ExitCode::from(ending.status())
}

/// The same of the end of an import.
fn end_import(rt: &HostRuntime, ending: &ImportEnding<'_>) -> ExitCode {
    let _ = match ending.text(rt.alloc()) {
        Ok(text) => rt.stderr().write_all(&text),
        Err(_) => eprint!(rt; "{ending}"),
    };
    ExitCode::from(ending.status())
}

/// Standard input as it was before a file was opened. One that could not be read then fails in each
/// read: a file that was opened later may have the number of a closed standard input.
#[derive(Drop)]
struct Given {
    stdin: Stdin,
    is_open: bool,
}

impl Given {
    /// Asks standard input for no bytes.
    fn new(mut stdin: Stdin) -> Given {
        let is_open = stdin.read(&mut []).is_ok();
        Given { stdin, is_open }
    }
}

impl Read for Given {
    fn read(&mut self, buf: &mut [u8]) -> io::Result<usize> {
        if self.is_open {
            self.stdin.read(buf)
        } else {
            Err(io::Error::from(ErrorKind::Other))
        }
    }
}

/// Opens a trace's file, or tells that it was not opened.
fn open_trace(rt: &HostRuntime, name: &str) -> Result<File, ExitCode> {
    fs::open(rt, name).map_err(|_| end_comparison(rt, &ComparisonEnding::NotOpened(name)))
}

/// Opens a file of an import, or says that it was not opened.
fn open_input(rt: &HostRuntime, name: &str) -> Result<File, ExitCode> {
    fs::open(rt, name).map_err(|_| end_import(rt, &ImportEnding::NotOpened(name)))
}

/// How a source is called where something is told of it.
fn name_of(source: &Source) -> &str {
    match source {
        Source::Stdin => "standard input",
        Source::File(name) => name,
    }
}

/// Compares what two readers give, and writes the report to standard output.
fn compare_readers<M: Read + Drop, R: Read + Drop>(
    rt: &HostRuntime,
    model: M,
    recorded: R,
    comparison: &Comparison,
) -> ExitCode {
    let names = TraceNames {
        model: name_of(&comparison.model),
        recorded: name_of(&comparison.recorded),
    };
    let mut model = Counted::new(model);
    let mut recorded = Counted::new(recorded);
    let mut writer = Counted::new(rt.stdout());
    let options = comparison.options;
    let ended = compare_texts(rt.alloc(), &mut model, &mut recorded, &mut writer, options);
    let fail_under = comparison.fail_under;
    end_comparison(rt, &ComparisonEnding::of(ended, fail_under, &names))
}

/// Compares two traces; both files are opened before either is read, and standard input is looked
/// at before a file is opened.
fn compare(rt: &HostRuntime, comparison: &Comparison) -> Result<ExitCode, ExitCode> {
    match (&comparison.model, &comparison.recorded) {
        (Source::File(model), Source::File(recorded)) => {
            let model = open_trace(rt, model)?;
            Ok(compare_readers(rt, model, open_trace(rt, recorded)?, comparison))
        }
        (Source::File(model), Source::Stdin) => {
            let recorded = Given::new(rt.stdin());
            let model = open_trace(rt, model)?;
            Ok(compare_readers(rt, model, recorded, comparison))
        }
        (Source::Stdin, Source::File(recorded)) => {
            let model = Given::new(rt.stdin());
            let recorded = open_trace(rt, recorded)?;
            Ok(compare_readers(rt, model, recorded, comparison))
        }
        (Source::Stdin, Source::Stdin) => { Ok(end_comparison(rt, &ComparisonEnding::BothStdin)) }
    }
}

/// Imports what two readers give, and writes what is asked for to standard output.
fn import_readers<T: Read + Drop, R: Read + Drop>(
    rt: &HostRuntime,
    tasks: T,
    recorded: R,
    import: &ImportCommand,
) -> ExitCode
    requires { IsImportable import.now.options }
{
    let names = InputNames {
        tasks: name_of(&import.tasks),
        recorded: name_of(&import.recorded),
    };
    let alloc = rt.alloc();
    let mut tasks = Counted::new(tasks);
    let mut recorded = Counted::new(recorded);
    let mut writer = Counted::new(rt.stdout());
    let options = import.options;
    let ended = match import.print {
        ImportPrint::Calls => {
            import_recording(alloc, &mut tasks, &mut recorded, &mut writer, options)
        }
        ImportPrint::Jobs => import_jobs(alloc, &mut tasks, &mut recorded, &mut writer, options),
    };
    end_import(rt, &ImportEnding::of(ended, &names))
}

/// Imports a recording; both files are opened before either is read, and standard input is looked
/// at before a file is opened.
fn import(rt: &HostRuntime, import: &ImportCommand) -> Result<ExitCode, ExitCode>
    requires { IsImportable import.now.options }
{
    match (&import.tasks, &import.recorded) {
        (Source::File(tasks), Source::File(recorded)) => {
            let tasks = open_input(rt, tasks)?;
            Ok(import_readers(rt, tasks, open_input(rt, recorded)?, import))
        }
        (Source::File(tasks), Source::Stdin) => {
            let recorded = Given::new(rt.stdin());
            let tasks = open_input(rt, tasks)?;
            Ok(import_readers(rt, tasks, recorded, import))
        }
        (Source::Stdin, Source::File(recorded)) => {
            let tasks = Given::new(rt.stdin());
            let recorded = open_input(rt, recorded)?;
            Ok(import_readers(rt, tasks, recorded, import))
        }
        (Source::Stdin, Source::Stdin) => Ok(end_import(rt, &ImportEnding::BothStdin)),
    }
}

/// Tells what is wrong with the words. What clap has to say of `--help` goes to standard output,
/// with status 0.
fn refuse(rt: &HostRuntime, wrong: &Wrong) -> ExitCode {
    match wrong {
        Wrong::Options(fault) => end_with(rt, &Ending::Words(*fault)),
        Wrong::BothStdin => end_comparison(rt, &ComparisonEnding::BothStdin),
        Wrong::OneInput => end_import(rt, &ImportEnding::BothStdin),
        Wrong::Clap(error) if error.kind() == ClapKind::OutOfMemory => {
            end_with(rt, &Ending::Words(WordsFault::Memory))
        }
        Wrong::Clap(error) => {
            let _ = error.print(rt);
            ExitCode::from(error.exit_code() as u8)
        }
    }
}

fn main(rt: HostRuntime) -> ExitCode {
    let alloc = rt.alloc();
    let task = match read_words(&rt) {
        Ok(task) => task,
        Err(wrong) => return refuse(&rt, &wrong),
    };
    let mut reader = Counted::new(rt.stdin());
    let mut writer = Counted::new(rt.stdout());
    match task {
        Task::Replay(print) => {
            let ended = replay_as(alloc, &mut reader, &mut writer, print);
            end_with(&rt, &Ending::of_replay(&ended))
        }
        Task::Run(options) => {
            let ended = run(&rt, alloc, &mut reader, &mut writer, &options, &AllPass);
            end_with(&rt, &Ending::of_run(&ended))
        }
        Task::Compare(comparison) => match compare(&rt, &comparison) {
            Ok(status) | Err(status) => status,
        },
        Task::Import(command) => match import(&rt, &command) {
            Ok(status) | Err(status) => status,
        },
    }
}
