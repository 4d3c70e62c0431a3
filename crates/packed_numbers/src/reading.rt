//! The numbers of a list, one after the other.

ghost use Rattle.std.specs.Prelude.{◌≡◌};
ghost use Rattle.packed_numbers.specs.private.Groups.{read_of, IsReadWhole};

use std::marker::Model;

/// The numbers of a [`PackedNumbers`](crate::PackedNumbers) that are left to be read. Contracts see
/// them as a list.
#[derive(Drop)]
pub struct NumbersLeft<'a> {
    bytes: &'a [u8],
}

impl<'a> Model for NumbersLeft<'a> {
    ghost use Rattle.std.specs.Prelude.{ℕ, List};
    ghost use Rattle.packed_numbers.specs.private.Groups.{read_of, IsReadWhole};

    ghost Value = { List ℕ };

    ghost view = { λ n. (read_of n.bytes.now).numbers };

    ghost invariant = { λ n. IsReadWhole (read_of n.bytes.now) };
}

impl<'a> NumbersLeft<'a> {
    ghost use Rattle.std.specs.Prelude.{◌≡◌, ◌<◌, ◌^◌, ◌∷◌, [], length, MatchOption};

    /// Those of these bytes.
    pub(crate) fn of(bytes: &'a [u8]) -> NumbersLeft<'a>
        requires { IsReadWhole (read_of bytes.now) }
        ensures numbers { result ≡ (read_of bytes.now).numbers }
        ensures countable { length result < 2 ^ 64 }
    {
        NumbersLeft { bytes }
    }

    /// The next one; none after the last.
    pub fn next(&mut self) -> Option<u64>
        ensures { MatchOption result ((self.old ≡ []) × (self.new ≡ []))
            (λ n. self.old ≡ n ∷ self.new) }
    {
        let bytes = self.bytes;
        let mut part: u64 = 0;
        for (at, byte) in bytes.iter().enumerate() {
            if *byte < 128 {
                self.bytes = &bytes[at + 1..];
                return Some(part * 128 + u64::from(*byte));
            }
            part = part * 128 + u64::from(*byte - 128);
        }
        None
    }
}
