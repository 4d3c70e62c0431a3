//! The command, as clap wants it.

ghost use Rattle.std.specs.Prelude.{◌≡◌, ◌<◌, ◌+◌, [], ◌∷◌, IfOk, OnOk, Some, false, fold, map, vec_capacity, vec_len};
ghost use Rattle.clap.specs.declared.builder.command.Command.{Command};
ghost use Rattle.clap.specs.Words.{new_app, rule_of, with_rule};
ghost use Rattle.command_line.specs.Commands.{AreTexts, IsCompare, IsImport, IsProgram, IsReplay, IsRunCommand, compare_options, file, flag, import_options, import_texts, option, replay_options, replay_texts, run_options, run_texts, tested_option};
ghost use Rattle.command_line.specs.private.Made.{AddsOne, AreInTurn, IsChoiceMade, IsOption, names_of_choices, of_choice};

use crate::texts::{
    ABOUT, ABOUT_END, ANY_POLICY_HELP, CLIENTS_HELP, COMPARE_ABOUT, COMPARE_END, COUNTS_FROM_HELP,
    COUNTS_TO_HELP, CPUS_HELP, DOMAINS_HELP, FAIL_UNDER_HELP, FROM_HELP, IMPORT_ABOUT,
    IMPORT_CPUS_HELP, IMPORT_END, MODEL_HELP, NOISE_HELP, PERIOD_HELP, PRINT_HELP, RECLAIM_HELP,
    RECORDED_HELP, REPLAY_ABOUT, REPLAY_END, RUN_ABOUT, RUN_END, RUNTIME_HELP, SHIFT_HELP,
    TASKS_HELP, TO_HELP, WITHIN_HELP, WORKERS_HELP,
};
use clap::builder::ValueParser;
use clap::{Arg, ArgAction, Command};
use std::alloc::{AllocError, Global};

/// The most microseconds that `--rt-runtime` and `--rt-period` take.
pub const MOST_TIME: u64 = 1000000000;

/// The last microsecond of a run that `--from` and `--to` can name: 2^42.
pub const LAST_MOMENT: u64 = 1 << 42;

/// The least and the most microseconds that `--shift` takes: 2^60 to either side.
pub const LEAST_SHIFT: i64 = -(1 << 60);

/// See [`LEAST_SHIFT`].
pub const MOST_SHIFT: i64 = 1 << 60;

/// The last microsecond of a recording's clock that `--from` and `--to` of `import` can name: 2^60.
pub const LAST_RECORDED: u64 = 1 << 60;

/// How many per cent of the runs `--fail-under` may ask for.
pub const MOST_PERCENT: u64 = 100;

/// How many CPUs a domain may have.
pub const MOST_CPUS: u64 = 64;

/// How many clients may admit tasks.
pub const MOST_CLIENTS: u64 = 64;

/// How many workers may compute a domain.
pub const MOST_WORKERS: u64 = 8;

const RUN_TEXTS: [&str; 8] = [
    "trace", "calls", "replies", "events", "jobs", "summary", "promises", "chart",
];

const REPLAY_TEXTS: [&str; 6] = ["trace", "replies", "events", "jobs", "summary", "chart"];

const IMPORT_TEXTS: [&str; 2] = ["calls", "jobs"];

/// What a command may be told: its name, then the word that help has for its value, its default and
/// its test, as far as it has them, and its help.
#[derive(Clone, Copy)]
enum Choice<'a> {
    /// An option with a default, whose value is any text.
    Open(&'a str, &'a str, &'a str, &'a str),
    /// An option with a default, whose value passes a test.
    Checked(&'a str, &'a str, &'a str, ValueParser<'a>, &'a str),
    /// An option with no default, whose value passes a test.
    Tested(&'a str, &'a str, ValueParser<'a>, &'a str),
    /// A flag.
    Flag(&'a str, &'a str),
    /// A file, named by its place among the words.
    File(&'a str, &'a str),
}

/// Microseconds.
const A_TIME: ValueParser<'static> = ValueParser::Unsigned(0, MOST_TIME);

/// Microseconds, which are not none.
const A_LIMIT: ValueParser<'static> = ValueParser::Unsigned(1, MOST_TIME);

/// A time of the run.
const A_MOMENT: ValueParser<'static> = ValueParser::Unsigned(0, LAST_MOMENT);

/// A time of a recording's clock.
const RECORDED_MOMENT: ValueParser<'static> = ValueParser::Unsigned(0, LAST_RECORDED);

// The lists are in the order of the help. They and the long texts are no constants, which would be
// written out, for the prover, wherever they are named.
static RUN_CHOICES: [Choice<'static>; 9] = [
    Choice::Open("domains", "LIST", "1", DOMAINS_HELP),
    Choice::Checked("rt-runtime", "N", "950000", A_LIMIT, RUNTIME_HELP),
    Choice::Checked("rt-period", "N", "1000000", A_LIMIT, PERIOD_HELP),
    Choice::Checked(
        "clients",
        "N",
        "1",
        ValueParser::Unsigned(1, MOST_CLIENTS),
        CLIENTS_HELP,
    ),
    Choice::Checked(
        "workers",
        "N",
        "1",
        ValueParser::Unsigned(1, MOST_WORKERS),
        WORKERS_HELP,
    ),
    Choice::Flag("reclaim", RECLAIM_HELP),
    Choice::Checked(
        "print",
        "TEXT",
        "trace",
        ValueParser::Names(&RUN_TEXTS),
        PRINT_HELP,
    ),
    Choice::Tested("from", "US", A_MOMENT, FROM_HELP),
    Choice::Tested("to", "US", A_MOMENT, TO_HELP),
];

static REPLAY_CHOICES: [Choice<'static>; 3] = [
    Choice::Checked(
        "print",
        "TEXT",
        "trace",
        ValueParser::Names(&REPLAY_TEXTS),
        PRINT_HELP,
    ),
    Choice::Tested("from", "US", A_MOMENT, FROM_HELP),
    Choice::Tested("to", "US", A_MOMENT, TO_HELP),
];

static COMPARE_CHOICES: [Choice<'static>; 7] = [
    Choice::File("MODEL", MODEL_HELP),
    Choice::File("RECORDED", RECORDED_HELP),
    Choice::Checked("within", "US", "1000", A_TIME, WITHIN_HELP),
    Choice::Tested("noise", "US", A_TIME, NOISE_HELP),
    Choice::Tested(
        "shift",
        "US",
        ValueParser::Signed(LEAST_SHIFT, MOST_SHIFT),
        SHIFT_HELP,
    ),
    Choice::Flag("cpus", CPUS_HELP),
    Choice::Tested(
        "fail-under",
        "PCT",
        ValueParser::Unsigned(0, MOST_PERCENT),
        FAIL_UNDER_HELP,
    ),
];

static IMPORT_CHOICES: [Choice<'static>; 9] = [
    Choice::File("TASKS", TASKS_HELP),
    Choice::File("RECORDED", RECORDED_HELP),
    Choice::Tested(
        "cpus",
        "M",
        ValueParser::Unsigned(1, MOST_CPUS),
        IMPORT_CPUS_HELP,
    ),
    Choice::Checked("rt-runtime", "N", "950000", A_LIMIT, RUNTIME_HELP),
    Choice::Checked("rt-period", "N", "1000000", A_LIMIT, PERIOD_HELP),
    Choice::Tested("from", "US", RECORDED_MOMENT, COUNTS_FROM_HELP),
    Choice::Tested("to", "US", RECORDED_MOMENT, COUNTS_TO_HELP),
    Choice::Flag("any-policy", ANY_POLICY_HELP),
    Choice::Checked(
        "print",
        "TEXT",
        "calls",
        ValueParser::Names(&IMPORT_TEXTS),
        PRINT_HELP,
    ),
];

/// An option with one value, which has a default.
fn option<'a>(
    alloc: Global,
    name: &'a str,
    value: &'a str,
    default: &'a str,
    help: &'a str,
) -> Arg<'a>
    ensures rule { rule_of result ≡ option name.now default.now }
    ensures local { result.global ≡ false }
{
    Arg::new(alloc, name)
        .long(name)
        .value_name(value)
        .default_value(default)
        .help(help)
}

/// An option whose value passes a test, and which has a default.
fn checked<'a>(
    alloc: Global,
    name: &'a str,
    value: &'a str,
    default: &'a str,
    test: ValueParser<'a>,
    help: &'a str,
) -> Arg<'a>
    ensures rule { rule_of result
        ≡ record (option name.now default.now) { parser = Some test.entry } }
    ensures local { result.global ≡ false }
{
    option(alloc, name, value, default, help).value_parser(test)
}

/// A flag, which takes no value.
fn flag<'a>(alloc: Global, name: &'a str, help: &'a str) -> Arg<'a>
    ensures rule { rule_of result ≡ flag name.now }
    ensures local { result.global ≡ false }
{
    Arg::new(alloc, name)
        .long(name)
        .action(ArgAction::SetTrue)
        .help(help)
}

/// A file, named by its place among the words.
fn file<'a>(alloc: Global, name: &'a str, help: &'a str) -> Arg<'a>
    ensures rule { rule_of result ≡ file name.now }
    ensures local { result.global ≡ false }
{
    Arg::new(alloc, name)
        .value_name(name)
        .required(true)
        .help(help)
}

/// An option whose value passes a test, and which has no default.
fn tested<'a>(
    alloc: Global,
    name: &'a str,
    value: &'a str,
    test: ValueParser<'a>,
    help: &'a str,
) -> Arg<'a>
    ensures rule { rule_of result ≡ tested_option name.now test.entry }
    ensures local { result.global ≡ false }
{
    Arg::new(alloc, name)
        .long(name)
        .value_name(value)
        .help(help)
        .value_parser(test)
}

/// An option, a flag or a file, as clap wants it.
fn made<'a>(alloc: Global, choice: &Choice<'a>) -> Arg<'a>
    ensures { IsOption result (of_choice choice.now) }
{
    match *choice {
        Choice::Open(name, value, default, help) => option(alloc, name, value, default, help),
        Choice::Checked(name, value, default, test, help) => {
            checked(alloc, name, value, default, test, help)
        }
        Choice::Tested(name, value, test, help) => tested(alloc, name, value, test, help),
        Choice::Flag(name, help) => flag(alloc, name, help),
        Choice::File(name, help) => file(alloc, name, help),
    }
}

/// What a command may be told, as clap wants it.
fn all_made<'a>(alloc: Global, choices: &[Choice<'a>]) -> Result<Vec<Arg<'a>>, AllocError>
    ensures { IfOk result (λ all. AreInTurn IsOption all.items (map of_choice choices.now)) }
{
    let mut all = Vec::with_capacity(alloc, choices.len())?;
    for choice in choices {
        all.push_reserved(made(alloc, choice));
    }
    Ok(all)
}

/// What `run` may be told.
fn run_choices() -> &'static [Choice<'static>]
    ensures texts { AreTexts run_texts (names_of_choices result.now) }
    ensures rules { map of_choice result.now ≡ run_options (names_of_choices result.now) }
{
    &RUN_CHOICES
}

/// What `replay` may be told.
fn replay_choices() -> &'static [Choice<'static>]
    ensures texts { AreTexts replay_texts (names_of_choices result.now) }
    ensures rules { map of_choice result.now ≡ replay_options (names_of_choices result.now) }
{
    &REPLAY_CHOICES
}

/// What `compare` may be told.
fn compare_choices() -> &'static [Choice<'static>]
    ensures { map of_choice result.now ≡ compare_options }
{
    &COMPARE_CHOICES
}

/// What `import` may be told.
fn import_choices() -> &'static [Choice<'static>]
    ensures texts { AreTexts import_texts (names_of_choices result.now) }
    ensures rules { map of_choice result.now ≡ import_options (names_of_choices result.now) }
{
    &IMPORT_CHOICES
}

/// Adds a command with what help says of it, and with what it may be told.
fn add_command<'a>(
    alloc: Global,
    commands: &mut Vec<Command<'a>>,
    name: &'a str,
    about: &'a str,
    end: &'a str,
    choices: &[Choice<'a>],
) -> Result<(), AllocError>
    requires room { vec_len commands.old < vec_capacity commands.old }
    ensures added { OnOk result (AddsOne
        (λ made. IsChoiceMade made (fold with_rule (new_app name.now) (map of_choice choices.now)))
        commands.old.items commands.new.items) }
    ensures len { OnOk result (vec_len commands.new ≡ vec_len commands.old + 1) }
    ensures capacity { vec_capacity commands.new ≡ vec_capacity commands.old }
{
    let options = all_made(alloc, choices)?;
    let command = Command::new(alloc, name)
        .about(about)
        .after_help(end)
        .args(options)?;
    commands.push_reserved(command);
    Ok(())
}

/// The four commands, in the order of the help.
fn subcommands<'a>(alloc: Global) -> Result<Vec<Command<'a>>, AllocError>
    ensures { IfOk result
        (λ made. (run replay compare import : Command) × IsRunCommand run × IsReplay replay
        × IsCompare compare × IsImport import
        × (made.items ≡ run ∷ replay ∷ compare ∷ import ∷ [])) }
{
    let mut all = Vec::with_capacity(alloc, 4)?;
    add_command(alloc, &mut all, "run", RUN_ABOUT, RUN_END, run_choices())?;
    add_command(
        alloc,
        &mut all,
        "replay",
        REPLAY_ABOUT,
        REPLAY_END,
        replay_choices(),
    )?;
    add_command(
        alloc,
        &mut all,
        "compare",
        COMPARE_ABOUT,
        COMPARE_END,
        compare_choices(),
    )?;
    add_command(
        alloc,
        &mut all,
        "import",
        IMPORT_ABOUT,
        IMPORT_END,
        import_choices(),
    )?;
    Ok(all)
}

/// The whole command. It is finished before anything is asked of it, as clap wants it.
pub(crate) fn program<'a>(alloc: Global) -> Result<Command<'a>, AllocError>
    ensures { IfOk result IsProgram }
{
    let commands = subcommands(alloc)?;
    Command::new(alloc, "dlsim")
        .about(ABOUT)
        .after_help(ABOUT_END)
        .subcommand_required(true)
        .subcommands(commands)?
        .bin_name("dlsim")
}
