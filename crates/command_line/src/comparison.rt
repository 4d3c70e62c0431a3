//! What the words of `compare` ask for.

ghost use Rattle.std.specs.Prelude.{◌≡◌, ◌≤◌, IfOk, IfSome, codes};
ghost use Rattle.clap.specs.Words.{found_of, rows_of};
ghost use Rattle.command_line.specs.Comparing.{AreFit, AreOptionsAt, IsComparisonAt, IsOptionalAt, IsPercentAt, IsShiftWord, IsShiftAt, IsSignedAt, IsSource, IsTimeAt, cut, in_hundred, shares_stdin};

use crate::command::{LEAST_SHIFT, MOST_PERCENT, MOST_SHIFT, MOST_TIME};
use crate::found::{read_at, text_of};
use clap::ArgMatches;
use compare_report::CompareOptions;
use std::alloc::{AllocError, Global};

/// Where a trace, or a tasks file, comes from.
#[derive(Drop)]
pub enum Source {
    /// Standard input.
    Stdin,
    /// The file of this name.
    File(String),
}

/// What is compared with what, and how.
#[derive(Drop)]
pub struct Comparison {
    /// Where the model's trace comes from.
    pub model: Source,
    /// Where the recording comes from.
    pub recorded: Source,
    /// How they are compared. Its times are at most 10^9 us, and its shift is within 2^60 us.
    pub options: CompareOptions,
    /// How many per cent of the model's runs have to match, at most 100, where it is asked for.
    pub fail_under: Option<u8>,
}

/// The source that a text names: standard input where it is `-`.
///
/// # Errors
/// A growth was refused.
pub(crate) fn source_of(alloc: Global, text: &str) -> Result<Source, AllocError>
    ensures { IfOk result (IsSource text.now) }
{
    if text == "-" {
        Ok(Source::Stdin)
    } else {
        Ok(Source::File(String::from_str(alloc, text)?))
    }
}

/// The number at an option that may be below zero, where it has one.
fn signed_at(found: &ArgMatches<'_>, name: &str) -> Option<i64>
    ensures { IsSignedAt (rows_of (found_of found.now)) name.now result }
{
    found.get_one::<i64>(name)
}

/// At most 10^9.
fn cut(us: u64) -> u32
    ensures value { result ≡ cut us }
    ensures most { result ≤ 1000000000 }
{
    us.min(MOST_TIME) as u32
}

/// The number at `within`, at most 10^9. Clap has tested it, and knows its default.
fn within_of(found: &ArgMatches<'_>) -> u32
    ensures most { result ≤ 1000000000 }
    ensures found { IsTimeAt (rows_of (found_of found.now)) (codes "within") result }
{
    cut(read_at(found, "within").unwrap_or(1000))
}

/// The number at `noise`, at most 10^9, where it is there.
fn noise_of(found: &ArgMatches<'_>) -> Option<u32>
    ensures most { IfSome result (λ us. us ≤ 1000000000) }
    ensures found { IsOptionalAt (rows_of (found_of found.now)) (codes "noise") result }
{
    match read_at(found, "noise") {
        None => None,
        Some(us) => Some(cut(us)),
    }
}

/// The number at `shift`, within 2^60 to either side, where it is there.
fn shift_of(found: &ArgMatches<'_>) -> Option<i64>
    ensures within { IfSome result IsShiftWord }
    ensures found { IsShiftAt (rows_of (found_of found.now)) (codes "shift") result }
{
    match signed_at(found, "shift") {
        None => None,
        Some(us) => Some(us.clamp(LEAST_SHIFT, MOST_SHIFT)),
    }
}

/// At most 100.
fn in_hundred(percent: u64) -> u8
    ensures { result ≡ in_hundred percent }
{
    percent.min(MOST_PERCENT) as u8
}

/// The number at `fail-under`, at most 100, where it is there.
fn fail_under_of(found: &ArgMatches<'_>) -> Option<u8>
    ensures { IsPercentAt (rows_of (found_of found.now)) (codes "fail-under") result }
{
    match read_at(found, "fail-under") {
        None => None,
        Some(percent) => Some(in_hundred(percent)),
    }
}

/// The numbers and the flag of [`CompareOptions`] at the options of `compare`.
fn options_of(found: &ArgMatches<'_>) -> CompareOptions
    ensures fit { AreFit result }
    ensures found { AreOptionsAt (rows_of (found_of found.now)) result }
{
    CompareOptions {
        within: within_of(found),
        noise: noise_of(found),
        shift: shift_of(found),
        cpus: found.get_flag("cpus"),
    }
}

/// What the words of `compare` ask for.
///
/// # Errors
/// A growth was refused.
pub(crate) fn comparison_of(alloc: Global, found: &ArgMatches<'_>) -> Result<Comparison, AllocError>
    ensures fit { IfOk result (λ c. AreFit c.options) }
    ensures found { IfOk result (IsComparisonAt (rows_of (found_of found.now))) }
{
    Ok(Comparison {
        model: source_of(alloc, text_of(found, "MODEL"))?,
        recorded: source_of(alloc, text_of(found, "RECORDED"))?,
        options: options_of(found),
        fail_under: fail_under_of(found),
    })
}

/// Whether both traces are standard input, which is for one of them.
pub(crate) fn shares_stdin(comparison: &Comparison) -> bool
    ensures { result ≡ shares_stdin comparison.now }
{
    matches!(comparison.model, Source::Stdin) && matches!(comparison.recorded, Source::Stdin)
}
