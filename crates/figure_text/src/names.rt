//! The names of tasks.

ghost use Rattle.std.specs.Prelude.{◌≡◌};
ghost use Rattle.switch_text.specs.Names.{name_of_task};

use indexmap::IndexMap;

/// The name of a number; empty where it has none.
pub(crate) fn name_of(names: &IndexMap<u32, String>, number: u32) -> &[u8]
    ensures { result.now ≡ name_of_task names.now number }
{
    match names.get(&number) {
        Some(name) => name.as_bytes(),
        None => b"",
    }
}
