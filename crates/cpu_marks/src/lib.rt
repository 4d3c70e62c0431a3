//! A word with a mark, a set bit, for each of 64 places, as one for each CPU of a domain.
//!
//! To the crates above it promises what each call does to the bit of every place. Takes no memory.
#![tactic(auto)]

ghost use Rattle.std.specs.Prelude.{ℕ, ◌≡◌, ◌≢◌, ◌<◌, ◌≤◌, ◌==◌};
ghost use Rattle.std.specs.Int.{bit_at};

/// With a mark at this place.
pub fn with(marks: u64, place: usize) -> u64
    requires { place < 64 }
    ensures marked { bit_at result place ≡ 1 }
    ensures others { (i : ℕ) → i ≢ place → bit_at result i ≡ bit_at marks i }
{
    marks | (1 << place)
}

/// Without the mark at this place.
pub fn without(marks: u64, place: usize) -> u64
    requires { place < 64 }
    ensures bare { bit_at result place ≡ 0 }
    ensures others { (i : ℕ) → i ≢ place → bit_at result i ≡ bit_at marks i }
    ensures fewer { bit_at marks place ≡ 1 → result < marks }
{
    marks & !(1 << place)
}

/// Whether there is a mark at this place.
#[inline(always)]
pub fn has(marks: u64, place: usize) -> bool
    requires { place < 64 }
    ensures { result ≡ (bit_at marks place == 1) }
{
    (marks >> place) & 1 == 1
}

/// Those of one word that the other one has not.
pub fn beyond(marks: u64, others: u64) -> u64
    ensures here { (i : ℕ) → bit_at result i ≡ 1 → bit_at marks i ≡ 1 }
    ensures only { (i : ℕ) → bit_at result i ≡ 1 → bit_at others i ≡ 0 }
    ensures bare { (i : ℕ) → bit_at result i ≡ 0 → bit_at others i ≡ 0 → bit_at marks i ≡ 0 }
{
    marks & !others
}

/// The marks of two words.
pub fn both(a: u64, b: u64) -> u64
    ensures first { (i : ℕ) → bit_at result i ≡ 0 → bit_at a i ≡ 0 }
    ensures second { (i : ℕ) → bit_at result i ≡ 0 → bit_at b i ≡ 0 }
    ensures only { (i : ℕ) → bit_at a i ≡ 0 → bit_at b i ≡ 0 → bit_at result i ≡ 0 }
{
    a | b
}

/// The first place with a mark.
pub fn first(marks: u64) -> usize
    requires { 0 < marks }
    ensures within { result < 64 }
    ensures marked { bit_at marks result ≡ 1 }
    ensures lowest { (i : ℕ) → i < result → bit_at marks i ≡ 0 }
{
    marks.trailing_zeros() as usize
}

/// The first place without a mark, 64 where each has one.
pub fn first_bare(marks: u64) -> usize
    ensures within { result ≤ 64 }
    ensures bare { result < 64 → bit_at marks result ≡ 0 }
    ensures lowest { (i : ℕ) → i < result → bit_at marks i ≡ 1 }
{
    marks.trailing_ones() as usize
}
