//! The reading of words.

ghost use Rattle.std.specs.Prelude.{◌≡◌, IfOk, map, string_bytes};
ghost use Rattle.clap.specs.Words.{kind_of};
ghost use Rattle.clap.specs.declared.error.kind.ErrorKind.TheVariants.{InvalidValue};
ghost use Rattle.command_line.specs.Reading.{HasTextsOfReplay, HasTextsOfRun, ReadsWords};

use crate::command::program;
use clap::error::ErrorKind;
use clap::{ArgMatches, Error};
use std::alloc::{AllocError, Global};

/// What clap finds in the words of a command line, of which the first is the program's name: the
/// command that they name, `run` or `replay`, and for each of its options its text, or its default
/// where the words have none.
///
/// # Errors
/// What clap has to say: of a word that it does not know or an option that is there twice, lacks
/// its value or has one that it does not take; of no command; of `--help` and `help`, which are
/// errors too; [`ErrorKind::OutOfMemory`] where a growth was refused.
pub fn matches_of<'a>(alloc: Global, words: &'a [String]) -> Result<ArgMatches<'a>, Error>
    ensures reading { ReadsWords (map string_bytes words.now) result }
    ensures texts { IfOk result HasTextsOfRun }
    ensures replay_texts { IfOk result HasTextsOfReplay }
{
    program(alloc)?.try_get_matches_from(words)
}

/// What clap has to say where a word is not UTF-8, with status 2.
///
/// # Errors
/// A growth was refused.
pub fn not_utf8(alloc: Global) -> Result<Error, AllocError>
    ensures { IfOk result (λ error. kind_of error ≡ InvalidValue) }
{
    let message = "invalid UTF-8 was detected in one or more arguments";
    program(alloc)?.error(ErrorKind::InvalidValue, message)
}
