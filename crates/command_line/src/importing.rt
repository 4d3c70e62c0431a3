//! What the words of `import` ask for.

ghost use Rattle.std.specs.Prelude.{◌≡◌, ◌<◌, ◌≤◌, IfErr, IfOk, IfSome, option_map};
ghost use Rattle.clap.specs.Words.{found_of, rows_of};
ghost use Rattle.command_line.specs.Importing.{AreImportOptions, AreImportOptionsAt, AreImportWordsAt, IsImportAt, IsImportFaultAt, IsImportPrintAt, IsImportWordsFault, IsImportable, cpus_in_range, shares_input};

use crate::command::{MOST_CPUS, MOST_TIME};
use crate::comparison::{Source, source_of};
use crate::found::{number, read_at, text_of};
use clap::ArgMatches;
use recording_import::ImportOptions;
use run_options::{WordsFault, read_limit};
use std::alloc::Global;

/// What is written of an import.
#[derive(Clone, Copy)]
pub enum ImportPrint {
    /// The calls text of the workload.
    Calls,
    /// A table of the jobs that were found.
    Jobs,
}

/// What is imported, and how.
#[derive(Drop)]
pub struct ImportCommand {
    /// Where the tasks file comes from.
    pub tasks: Source,
    /// Where the recording comes from.
    pub recorded: Source,
    /// How it is imported.
    pub options: ImportOptions,
    /// What is written.
    pub print: ImportPrint,
}

/// The words at the options of `import`. Times are in microseconds.
#[derive(Clone, Copy)]
pub struct ImportWords {
    /// CPUs of the domain, if that is said.
    pub cpus: Option<u64>,
    /// What deadline tasks may take of each CPU in `rt_period`.
    pub rt_runtime: u64,
    /// See `rt_runtime`.
    pub rt_period: u64,
    /// The first time of the recording that counts, if that is said.
    pub from: Option<u64>,
    /// The last one, if that is said.
    pub to: Option<u64>,
    /// Whether a task counts with any priority.
    pub any_policy: bool,
}

/// The words at the options of `import`, each by its option.
fn words_of(found: &ArgMatches<'_>) -> ImportWords
    ensures { AreImportWordsAt (rows_of (found_of found.now)) result }
{
    ImportWords {
        cpus: read_at(found, "cpus"),
        rt_runtime: number(found, "rt-runtime", MOST_TIME),
        rt_period: number(found, "rt-period", MOST_TIME),
        from: read_at(found, "from"),
        to: read_at(found, "to"),
        any_policy: found.get_flag("any-policy"),
    }
}

/// From 1 to 64. Clap has tested it.
fn cpus_in_range(cpus: u64) -> u32
    ensures value { result ≡ cpus_in_range cpus }
    ensures some { 0 < result }
    ensures most { result ≤ 64 }
{
    cpus.clamp(1, MOST_CPUS) as u32
}

/// A number of CPUs, from 1 to 64, if there is one.
fn cpus_of(cpus: Option<u64>) -> Option<u32>
    ensures value { result ≡ option_map cpus_in_range cpus }
    ensures some { IfSome result (λ n. 0 < n) }
    ensures most { IfSome result (λ n. n ≤ 64) }
{
    match cpus {
        None => None,
        Some(cpus) => Some(cpus_in_range(cpus)),
    }
}

/// The options that the words mean.
///
/// # Errors
/// In the order of the tests: [`WordsFault::Window`], what counts does not begin before it ends;
/// [`WordsFault::Limit`], `rt_runtime` and `rt_period` give no limit.
fn options_of(words: ImportWords) -> Result<ImportOptions, WordsFault>
    ensures fit { IfOk result IsImportable }
    ensures meant { IfOk result (AreImportOptions words) }
    ensures refused { IfErr result (IsImportWordsFault words) }
{
    let from = words.from.unwrap_or(0);
    let to = words.to.unwrap_or(u64::MAX);
    if to <= from {
        return Err(WordsFault::Window);
    }
    let Some(limit) = read_limit(words.rt_runtime, words.rt_period) else {
        return Err(WordsFault::Limit);
    };
    Ok(ImportOptions {
        cpus: cpus_of(words.cpus),
        limit,
        from,
        to,
        any_policy: words.any_policy,
    })
}

/// The options at the options of `import`.
///
/// # Errors
/// Those of [`options_of`].
fn options_at(found: &ArgMatches<'_>) -> Result<ImportOptions, WordsFault>
    ensures fit { IfOk result IsImportable }
    ensures meant { IfOk result (AreImportOptionsAt (rows_of (found_of found.now))) }
    ensures refused { IfErr result (IsImportFaultAt (rows_of (found_of found.now))) }
{
    options_of(words_of(found))
}

/// What is written: the table if the text at `print` is `jobs`, else the calls.
fn print_of(found: &ArgMatches<'_>) -> ImportPrint
    ensures { IsImportPrintAt (rows_of (found_of found.now)) result }
{
    if text_of(found, "print") == "jobs" {
        ImportPrint::Jobs
    } else {
        ImportPrint::Calls
    }
}

/// What the words of `import` ask for.
///
/// # Errors
/// Those of [`options_of`], then [`WordsFault::Memory`]: a growth was refused.
pub(crate) fn import_of(alloc: Global, found: &ArgMatches<'_>) -> Result<ImportCommand, WordsFault>
    ensures fit { IfOk result (λ i. IsImportable i.options) }
    ensures found { IfOk result (IsImportAt (rows_of (found_of found.now))) }
    ensures refused { IfErr result (IsImportFaultAt (rows_of (found_of found.now))) }
{
    let options = options_at(found)?;
    Ok(ImportCommand {
        tasks: source_of(alloc, text_of(found, "TASKS"))?,
        recorded: source_of(alloc, text_of(found, "RECORDED"))?,
        options,
        print: print_of(found),
    })
}

/// Whether both files are standard input, which is for one of them.
pub(crate) fn shares_input(import: &ImportCommand) -> bool
    ensures { result ≡ shares_input import.now }
{
    matches!(import.tasks, Source::Stdin) && matches!(import.recorded, Source::Stdin)
}
