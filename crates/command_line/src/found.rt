//! What clap has found at an option.

ghost use Rattle.std.specs.Prelude.{◌<◌, ◌≤◌};
ghost use Rattle.clap.specs.Words.{found_of, rows_of};
ghost use Rattle.command_line.specs.Found.{IsNumberAt, IsReadAt, IsTextAt};

use clap::ArgMatches;

/// The number at an option, from 1 on. Clap has tested it, and knows its default.
pub(crate) fn number(found: &ArgMatches<'_>, name: &str, most: u64) -> u64
    requires { 1 ≤ most }
    ensures some { 0 < result }
    ensures most { result ≤ most }
    ensures found { IsNumberAt (rows_of (found_of found.now)) name.now most result }
{
    found.get_one::<u64>(name).unwrap_or(1).clamp(1, most)
}

/// The number at an option, where it has one.
pub(crate) fn read_at(found: &ArgMatches<'_>, name: &str) -> Option<u64>
    ensures { IsReadAt (rows_of (found_of found.now)) name.now result }
{
    found.get_one::<u64>(name)
}

/// The text at an option; the empty text where it has none, which clap does not let come.
pub(crate) fn text_of<'a>(found: &ArgMatches<'a>, name: &str) -> &'a str
    ensures { IsTextAt (rows_of (found_of found.now)) name.now result.now }
{
    match found.get_str(name) {
        Some(text) => text,
        None => "",
    }
}
