ghost use Rattle.std.specs.Prelude.{◌≡◌};
ghost use Rattle.json_order.specs.declared.fault.JsonKind.TheVariants.{Memory};
ghost use Rattle.json_order.specs.Fault.{kind_number};

use std::alloc::{AllocError, AllocFailed};
use std::error::Error;
use std::fmt;

/// What is wrong with an input. The kinds have the numbers 10 to 15, in this order.
#[derive(Clone, Copy, Debug)]
pub enum JsonKind {
    /// 10: a byte after which no accepted text goes on, and none of the kinds below.
    Syntax,
    /// 11: the input ends, and accepted texts go on.
    End,
    /// 12: a `[` or `{` that opens a seventeenth list or object inside of the others.
    Depth,
    /// 13: the quote that closes a key which its object has already.
    Duplicate,
    /// 14: a byte that is no part of a well-formed character.
    Utf8,
    /// 15: a growth was refused.
    Memory,
}

impl JsonKind {
    /// The kind's number, 10 to 15.
    pub fn number(self) -> u32
        ensures { result ≡ kind_number self }
    {
        match self {
            JsonKind::Syntax => 10,
            JsonKind::End => 11,
            JsonKind::Depth => 12,
            JsonKind::Duplicate => 13,
            JsonKind::Utf8 => 14,
            JsonKind::Memory => 15,
        }
    }
}

impl From<AllocError> for JsonKind {
    ghost from_gives = { λ _ k. k ≡ Memory };

    fn from(_e: AllocError) -> JsonKind {
        JsonKind::Memory
    }
}

impl<T: Drop> From<AllocFailed<T>> for JsonKind {
    ghost from_gives = { λ _ k. k ≡ Memory };

    fn from(_e: AllocFailed<T>) -> JsonKind {
        JsonKind::Memory
    }
}

/// The fault of an input: its kind, and the place of the byte at which it shows, from 0. It prints
/// as `json 13 at 14`.
#[derive(Clone, Copy, Debug)]
pub struct JsonFault {
    /// For Syntax, Depth, Duplicate and Utf8 the place of the faulting byte; for End the length of
    /// the input; for Memory 0.
    pub at: usize,
    /// What is wrong there.
    pub kind: JsonKind,
}

impl fmt::Display for JsonFault {
    ghost use Rattle.std.specs.Prelude.{Some, codes, decimal, ◌++◌};

    ghost output = { λ e. Some (codes "json "
        ++ (decimal (kind_number e.kind) ++ (codes " at " ++ decimal e.at))) };

    fn fmt<W: fmt::Write>(&self, f: &mut fmt::Formatter<W>) -> fmt::Result {
        let number = self.kind.number();
        let at = self.at;
        write!(f, "json {number} at {at}")
    }
}

impl Error for JsonFault {}
