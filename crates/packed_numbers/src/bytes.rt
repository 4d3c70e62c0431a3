//! The list and its bytes.

ghost use Rattle.std.specs.Prelude.{◌≡◌, ◌+◌, ◌*◌, ◌<◌, ◌≤◌, ◌^◌, [], ◌∷◌, ◌++◌, length, vec_len, vec_capacity};
ghost use Rattle.packed_numbers.specs.private.Groups.{read_of, IsReadWhole};

use crate::reading::NumbersLeft;
use no_memory::NoMemory;
use std::alloc::Global;
use std::marker::Model;

/// So many groups of 7 bits has a number at most.
const MOST: usize = 10;

/// Numbers below 2^64 in their order. Contracts see them as a list.
#[derive(Drop)]
pub struct PackedNumbers {
    bytes: Vec<u8>,
}

impl Model for PackedNumbers {
    ghost use Rattle.std.specs.Prelude.{ℕ, List};
    ghost use Rattle.packed_numbers.specs.private.Groups.{read_of, IsReadWhole};

    ghost Value = { List ℕ };

    ghost view = { λ p. (read_of p.bytes.items).numbers };

    ghost invariant = { λ p. IsReadWhole (read_of p.bytes.items) };
}

/// Puts the groups of a number, the highest first, to be followed by its last one.
fn put_front(bytes: &mut Vec<u8>, part: u64, most: usize)
    requires room { vec_len bytes.old + most ≤ vec_capacity bytes.old }
    requires small { part < 128 ^ most }
    requires whole { (read_of bytes.old.items).part ≡ 0 }
    ensures numbers { (read_of bytes.new.items).numbers ≡ (read_of bytes.old.items).numbers }
    ensures part { (read_of bytes.new.items).part ≡ part }
    ensures few { vec_len bytes.new ≤ vec_len bytes.old + most }
    ensures same_room { vec_capacity bytes.new ≡ vec_capacity bytes.old }
{
    if part == 0 {
        return;
    }
    put_front(bytes, part / 128, most - 1);
    bytes.push_reserved(128 + (part % 128) as u8);
}

/// Puts a number.
fn put(bytes: &mut Vec<u8>, number: u64)
    requires room { vec_len bytes.old + 10 ≤ vec_capacity bytes.old }
    requires whole { (read_of bytes.old.items).part ≡ 0 }
    ensures numbers { (read_of bytes.new.items).numbers
        ≡ (read_of bytes.old.items).numbers ++ number ∷ [] }
    ensures whole { (read_of bytes.new.items).part ≡ 0 }
    ensures few { vec_len bytes.new ≤ vec_len bytes.old + 10 }
    ensures same_room { vec_capacity bytes.new ≡ vec_capacity bytes.old }
{
    put_front(bytes, number / 128, MOST - 1);
    bytes.push_reserved((number % 128) as u8);
}

/// Puts all of these numbers.
fn put_all(bytes: &mut Vec<u8>, numbers: &[u64])
    requires room { vec_len bytes.old + 10 * length numbers.now ≤ vec_capacity bytes.old }
    requires whole { IsReadWhole (read_of bytes.old.items) }
    ensures numbers { (read_of bytes.new.items).numbers
        ≡ (read_of bytes.old.items).numbers ++ numbers.now }
    ensures whole { IsReadWhole (read_of bytes.new.items) }
{
    for number in numbers {
        put(bytes, *number);
    }
}

impl PackedNumbers {
    ghost use Rattle.std.specs.Prelude.{◌≡◌, ◌<◌, ◌≤◌, ◌^◌, [], ◌∷◌, ◌++◌, length, OnOk, OnErr};

    /// No number yet. Takes no memory.
    pub fn new(alloc: Global) -> PackedNumbers
        ensures { result ≡ [] }
    {
        PackedNumbers {
            bytes: Vec::new(alloc),
        }
    }

    /// Appends a number.
    ///
    /// # Errors
    /// 12 [`NoMemory`]: a growth was refused; the list is as it was.
    pub fn push(&mut self, number: u64) -> Result<(), NoMemory>
        ensures ok { OnOk result (self.new ≡ self.old ++ number ∷ []) }
        ensures err { OnErr result (self.new ≡ self.old) }
    {
        self.bytes.try_reserve(MOST)?;
        put(&mut self.bytes, number);
        Ok(())
    }

    /// Appends these numbers, at most 16, all or none.
    ///
    /// # Errors
    /// 12 [`NoMemory`]: a growth was refused; the list is as it was.
    pub fn push_all(&mut self, numbers: &[u64]) -> Result<(), NoMemory>
        requires few { length numbers.now ≤ 16 }
        ensures ok { OnOk result (self.new ≡ self.old ++ numbers.now) }
        ensures err { OnErr result (self.new ≡ self.old) }
    {
        self.bytes.try_reserve(MOST * numbers.len())?;
        put_all(&mut self.bytes, numbers);
        Ok(())
    }

    /// The numbers, to be read from the first one on.
    pub fn left(&self) -> NumbersLeft<'_>
        ensures numbers { result ≡ self.now }
        ensures countable { length result < 2 ^ 64 }
    {
        NumbersLeft::of(&self.bytes)
    }
}
