//! Names of tasks, numbered as they come.

ghost use Rattle.std.specs.Prelude.{◌≡◌, [], length, slice_get, IfOk, OnOk, OnErr};
ghost use Rattle.std.specs.Option.{option_map};
ghost use Rattle.recorded_text.specs.Names.{Grows, names_with};

use indexmap::IndexSet;
use std::alloc::{AllocError, Global};
use std::marker::Model;

/// Names of tasks, each once, in the order in which they first came (own).
#[derive(Drop)]
pub struct Names {
    set: IndexSet<Vec<u8>>,
}

impl Model for Names {
    ghost use Rattle.std.specs.Prelude.{ℕ, List, map};
    ghost use Rattle.recorded_text.specs.Names.{Differ};

    ghost Value = { List (List ℕ) };

    ghost view = { λ n. map (λ v. v.items) n.set.keys };

    ghost invariant = { λ n. Differ (map (λ v. v.items) n.set.keys) };
}

impl Names {
    /// No names. Takes no memory.
    pub fn new(alloc: Global) -> Names
        ensures { result ≡ [] }
    {
        Names {
            set: IndexSet::new(alloc),
        }
    }

    /// How many names there are.
    pub fn len(&self) -> usize
        ensures { result ≡ length self.now }
    {
        self.set.len()
    }

    /// The name of a number.
    pub fn get(&self, number: usize) -> Option<&[u8]>
        ensures { option_map (λ r. r.now) result ≡ slice_get self.now number }
    {
        match self.set.get_index(number) {
            Some(name) => Some(name.as_slice()),
            None => None,
        }
    }

    /// The number of a name, which is added behind the others where it is new.
    ///
    /// # Errors
    /// Where a growth was refused; then nothing has changed.
    pub fn number_of(&mut self, alloc: Global, name: &[u8]) -> Result<usize, AllocError>
        ensures found { IfOk result (λ i. slice_get self.new i ≡ Some name.now) }
        ensures called { OnOk result (self.new ≡ names_with self.old name.now) }
        ensures grows { Grows self.old self.new }
        ensures err { OnErr result (self.new ≡ self.old) }
    {
        match self.set.get_index_of(name) {
            Some(number) => Ok(number),
            None => {
                let name = Vec::from_slice(alloc, name)?;
                let (number, _) = self.set.insert_full(name)?;
                Ok(number)
            }
        }
    }
}
