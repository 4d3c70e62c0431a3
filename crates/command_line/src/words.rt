//! What the words of the command line ask for.

ghost use Rattle.std.specs.Prelude.{◌<◌, ◌≤◌, IfErr, IfOk, map, string_bytes};
ghost use Rattle.clap.specs.Words.{found_of, rows_of, subcommand_name_of, subcommand_rows_of};
ghost use Rattle.run_options.specs.Options.{AreOptions};
ghost use Rattle.command_line.specs.Found.{AreFound, AreMeantBy, AreSpanWordsAt, IsCutFault, IsFaultOfRows, IsPrintAt, IsReplayPrintAt};
ghost use Rattle.command_line.specs.Tasks.{IsAsked, IsAskedBy, IsComparisonBy, IsComparisonRefusedBy, IsFit, IsImportBy, IsImportRefusedBy, IsMeant, IsRefusedBy, IsReplayBy, IsReplayRefusedBy, IsRunBy, IsRunRefusedBy, IsTaskOf};

use crate::command::{MOST_CLIENTS, MOST_TIME, MOST_WORKERS};
use crate::comparison::{Comparison, comparison_of, shares_stdin};
use crate::found::{number, read_at, text_of};
use crate::importing::{ImportCommand, import_of, shares_input};
use crate::reading::{matches_of, not_utf8};
use clap::{ArgMatches, Error};
use run_options::{
    Options, Print, ReplayPrint, SpanWords, Words, WordsFault, read_options, read_span, read_uncut,
};
use std::alloc::{AllocError, Global};
use std::env::{self, Env};
use std::io;

/// What the words ask for.
#[derive(Drop)]
pub enum Task {
    /// `replay`, and what it is to write.
    Replay(ReplayPrint),
    /// `run`, with its options.
    Run(Options),
    /// `compare`, with its traces and numbers.
    Compare(Comparison),
    /// `import`, with its files and options.
    Import(ImportCommand),
}

/// What is wrong with the words.
#[derive(Drop)]
pub enum Wrong {
    /// What clap has to say, of `--help` too.
    Clap(Error),
    /// The words at the options of `run`, `replay` or `import` mean nothing, or found no memory.
    Options(WordsFault),
    /// Both traces of `compare` are standard input.
    BothStdin,
    /// Both files of `import` are standard input.
    OneInput,
}

impl From<Error> for Wrong {
    ghost use Rattle.std.specs.Prelude.{◌≡◌};
    ghost use Rattle.command_line.specs.declared.words.Wrong.TheVariants.{Clap};

    ghost from_gives = { λ error wrong. wrong ≡ Clap error };

    fn from(error: Error) -> Wrong {
        Wrong::Clap(error)
    }
}

impl From<AllocError> for Wrong {
    fn from(error: AllocError) -> Wrong {
        Wrong::Clap(Error::from(error))
    }
}

impl From<WordsFault> for Wrong {
    ghost use Rattle.std.specs.Prelude.{◌≡◌};
    ghost use Rattle.command_line.specs.declared.words.Wrong.TheVariants as wrong;

    ghost from_gives = { λ fault given. given ≡ wrong.Options fault };

    fn from(fault: WordsFault) -> Wrong {
        Wrong::Options(fault)
    }
}

/// The words that say which part of the run is drawn.
fn span_words_of(found: &ArgMatches<'_>) -> SpanWords
    ensures { AreSpanWordsAt (rows_of (found_of found.now)) result }
{
    SpanWords {
        from: read_at(found, "from"),
        to: read_at(found, "to"),
    }
}

/// What is printed of a run: what the text at `print` asks for. Where it asks for nothing, which
/// clap does not let come, the trace.
///
/// # Errors
/// [`WordsFault::Window`] where a chart's part does not begin before it ends;
/// [`WordsFault::NoChart`] where a part is asked for, and no chart.
fn print_of(found: &ArgMatches<'_>) -> Result<Print, WordsFault>
    ensures print { IfOk result (IsPrintAt (rows_of (found_of found.now))) }
    ensures refused { IfErr result (IsCutFault (rows_of (found_of found.now))) }
{
    let words = span_words_of(found);
    let text = text_of(found, "print");
    if text == "chart" {
        return Ok(Print::Chart(read_span(words)?));
    }
    read_uncut(words)?;
    Ok(match text {
        "calls" => Print::Calls,
        "replies" => Print::Replies,
        "events" => Print::Events,
        "jobs" => Print::Jobs,
        "summary" => Print::Summary,
        "promises" => Print::Promises,
        _ => Print::Trace,
    })
}

/// The same of a replay.
///
/// # Errors
/// Those of [`print_of`].
fn replay_print_of(found: &ArgMatches<'_>) -> Result<ReplayPrint, WordsFault>
    ensures print { IfOk result (IsReplayPrintAt (rows_of (found_of found.now))) }
    ensures refused { IfErr result (IsCutFault (rows_of (found_of found.now))) }
{
    let words = span_words_of(found);
    let text = text_of(found, "print");
    if text == "chart" {
        return Ok(ReplayPrint::Chart(read_span(words)?));
    }
    read_uncut(words)?;
    Ok(match text {
        "replies" => ReplayPrint::Replies,
        "events" => ReplayPrint::Events,
        "jobs" => ReplayPrint::Jobs,
        "summary" => ReplayPrint::Summary,
        _ => ReplayPrint::Trace,
    })
}

/// The words of a run, each by its option.
///
/// # Errors
/// Those of [`print_of`].
fn words_of<'a>(found: &ArgMatches<'a>) -> Result<Words<'a>, WordsFault>
    ensures found { IfOk result (AreFound (rows_of (found_of found.now))) }
    ensures clients { IfOk result (λ words. (0 < words.clients) × (words.clients ≤ 64)) }
    ensures workers { IfOk result (λ words. (0 < words.workers) × (words.workers ≤ 8)) }
    ensures refused { IfErr result (IsCutFault (rows_of (found_of found.now))) }
{
    let print = print_of(found)?;
    Ok(Words {
        domains: text_of(found, "domains"),
        rt_runtime: number(found, "rt-runtime", MOST_TIME),
        rt_period: number(found, "rt-period", MOST_TIME),
        clients: number(found, "clients", MOST_CLIENTS) as u32,
        workers: number(found, "workers", MOST_WORKERS) as usize,
        reclaim: found.get_flag("reclaim"),
        print,
    })
}

/// The options of a run: what the words at each option mean.
///
/// # Errors
/// In the order of the tests: those of [`print_of`], [`WordsFault::List`] where the text at
/// `--domains` is no list of domains, [`WordsFault::Limit`] where `--rt-runtime` and `--rt-period`
/// give no limit. [`WordsFault::Memory`] where a growth was refused, before either of the last two.
fn options_of(alloc: Global, found: &ArgMatches<'_>) -> Result<Options, WordsFault>
    ensures sound { IfOk result AreOptions }
    ensures meant { IfOk result (AreMeantBy (rows_of (found_of found.now))) }
    ensures refused { IfErr result (IsFaultOfRows (rows_of (found_of found.now))) }
{
    let words = words_of(found)?;
    read_options(alloc, &words)
}

/// A run, with what the words at its options mean.
///
/// # Errors
/// [`Wrong::Options`] with those of [`options_of`].
fn run_of(alloc: Global, found: &ArgMatches<'_>) -> Result<Task, Wrong>
    ensures fit { IfOk result IsFit }
    ensures meant { IfOk result (IsRunBy (rows_of (found_of found.now))) }
    ensures refused { IfErr result (IsRunRefusedBy (rows_of (found_of found.now))) }
{
    match options_of(alloc, found) {
        Ok(options) => Ok(Task::Run(options)),
        Err(fault) => Err(Wrong::Options(fault)),
    }
}

/// A replay, with what the words at its options mean.
///
/// # Errors
/// [`Wrong::Options`] with those of [`replay_print_of`].
fn replay_of(found: &ArgMatches<'_>) -> Result<Task, Wrong>
    ensures fit { IfOk result IsFit }
    ensures meant { IfOk result (IsReplayBy (rows_of (found_of found.now))) }
    ensures refused { IfErr result (IsReplayRefusedBy (rows_of (found_of found.now))) }
{
    match replay_print_of(found) {
        Ok(print) => Ok(Task::Replay(print)),
        Err(fault) => Err(Wrong::Options(fault)),
    }
}

/// A comparison, with what the words at its options mean.
///
/// # Errors
/// [`Wrong::Options`] with [`WordsFault::Memory`] where a growth was refused; [`Wrong::BothStdin`]
/// where both traces are standard input.
fn compare_of(alloc: Global, found: &ArgMatches<'_>) -> Result<Task, Wrong>
    ensures fit { IfOk result IsFit }
    ensures meant { IfOk result (IsComparisonBy (rows_of (found_of found.now))) }
    ensures refused { IfErr result (IsComparisonRefusedBy (rows_of (found_of found.now))) }
{
    let Ok(comparison) = comparison_of(alloc, found) else {
        return Err(Wrong::Options(WordsFault::Memory));
    };
    if shares_stdin(&comparison) {
        Err(Wrong::BothStdin)
    } else {
        Ok(Task::Compare(comparison))
    }
}

/// An import, with what the words at its options mean.
///
/// # Errors
/// [`Wrong::Options`] with those of [`import_of`]; [`Wrong::OneInput`] if both files are standard
/// input.
fn import_in(alloc: Global, found: &ArgMatches<'_>) -> Result<Task, Wrong>
    ensures fit { IfOk result IsFit }
    ensures meant { IfOk result (IsImportBy (rows_of (found_of found.now))) }
    ensures refused { IfErr result (IsImportRefusedBy (rows_of (found_of found.now))) }
{
    match import_of(alloc, found) {
        Err(fault) => Err(Wrong::Options(fault)),
        Ok(import) => {
            if shares_input(&import) {
                Err(Wrong::OneInput)
            } else {
                Ok(Task::Import(import))
            }
        }
    }
}

/// What the matches ask for: `run` with its options, `compare` with its traces and numbers,
/// `import` with its files and options, or `replay` with what it prints.
///
/// # Errors
/// Those of [`run_of`], [`compare_of`], [`import_in`] and [`replay_of`].
fn task_of(alloc: Global, matches: &ArgMatches<'_>) -> Result<Task, Wrong>
    ensures fit { IfOk result IsFit }
    ensures named { IfOk result (IsTaskOf (subcommand_name_of matches.now)) }
    ensures meant { IfOk result (IsMeant (subcommand_rows_of matches.now)) }
    ensures refused { IfErr result (IsRefusedBy (subcommand_rows_of matches.now)) }
{
    if let Some(found) = matches.subcommand_matches("run") {
        return run_of(alloc, found);
    }
    if let Some(found) = matches.subcommand_matches("compare") {
        return compare_of(alloc, found);
    }
    if let Some(found) = matches.subcommand_matches("import") {
        return import_in(alloc, found);
    }
    match matches.subcommand_matches("replay") {
        Some(found) => replay_of(found),
        // There is no other command.
        None => Ok(Task::Replay(ReplayPrint::Trace)),
    }
}

/// What words ask for, of which the first is the program's name; or what is wrong with them: first
/// what clap says of them, then of `run` and `replay` the part that a chart shows, of `run` the
/// list of domains and the limit, of `compare` that standard input is for one of its traces, of
/// `import` the part that counts, the limit, and that standard input is for one of its files.
///
/// # Errors
/// [`Wrong::Clap`]: what clap says, also where it is asked for help. Then those of [`task_of`].
pub fn task_in(alloc: Global, words: &[String]) -> Result<Task, Wrong>
    ensures fit { IfOk result IsFit }
    ensures asked { IsAskedBy (map string_bytes words.now) result }
{
    let matches = matches_of(alloc, words)?;
    task_of(alloc, &matches)
}

/// What the words of this process ask for, or what is wrong with them ([`task_in`]); a word that is
/// not UTF-8 is refused before any other is read. No contract can name the words of a process: the
/// clause says that there are words which ask for the task.
///
/// # Errors
/// Those of [`task_in`]; `OutOfMemory` of [`Wrong::Clap`] or [`WordsFault::Memory`] where the words
/// themselves found no memory.
pub fn read_words(rt: &(impl Env + Alloc<A = Global>)) -> Result<Task, Wrong>
    ensures fit { IfOk result IsFit }
    ensures asked { IfOk result IsAsked }
{
    let alloc = rt.alloc();
    let words: Vec<String> = match env::args(rt) {
        Ok(words) => words.collect(alloc)?,
        Err(error) if error.kind() == io::ErrorKind::InvalidData => {
            return Err(Wrong::Clap(not_utf8(alloc)?));
        }
        Err(_) => return Err(Wrong::Options(WordsFault::Memory)),
    };
    task_in(alloc, &words)
}
