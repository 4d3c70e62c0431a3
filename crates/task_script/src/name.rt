ghost use Rattle.std.specs.Prelude.{◌≡◌, IsOk, IsTrue, All, ◌↔◌, MatchResult};
ghost use Rattle.std.specs.String.{string_bytes};
ghost use Rattle.task_script.specs.NameView.{IsName, IsNameByte};

use std::marker::Model;

/// The name of a task: 1 to 15 bytes of codes 0x21 to 0x7e, as the kernel's comm without spaces
/// (own).
#[derive(Debug, Drop)]
pub struct Name {
    text: String,
}

impl Model for Name {
    ghost use Rattle.std.specs.Prelude.{ℕ, List};
    ghost use Rattle.std.specs.String.{string_bytes};
    ghost use Rattle.task_script.specs.NameView.{IsName};

    ghost Value = { List ℕ };

    ghost view = { λ n. string_bytes n.text };

    ghost invariant = { λ n. IsName (string_bytes n.text) };
}

fn all_name_bytes(bytes: &[u8]) -> bool
    ensures { IsTrue result ↔ All IsNameByte bytes.now }
{
    bytes.iter().all(|b| *b >= 0x21 && *b <= 0x7e)
}

fn is_name(bytes: &[u8]) -> bool
    ensures { IsTrue result ↔ IsName bytes.now }
{
    !bytes.is_empty() && bytes.len() <= 15 && all_name_bytes(bytes)
}

impl Name {
    /// The text as a name, or the text back where it is not 1 to 15 bytes of codes 0x21 to 0x7e.
    /// Takes no memory.
    pub fn new(text: String) -> Result<Name, String>
        ensures named { IsOk result ↔ IsName (string_bytes text) }
        ensures value { MatchResult result
            (λ name. name ≡ string_bytes text) (λ back. back ≡ text) }
    {
        if is_name(text.as_bytes()) {
            Ok(Name { text })
        } else {
            Err(text)
        }
    }

    /// The bytes of the name.
    pub fn as_str(&self) -> &str
        ensures text { result.now ≡ self.now }
        ensures name { IsName self.now }
    {
        self.text.as_str()
    }
}
