//! The numbers ever admitted: a mark for each, so that the test is one look.

ghost use Rattle.std.specs.Prelude.{◌≡◌, ◌≢◌, ℕ, ◌<◌, ◌==◌, false, List, [], All, AllPairs, IfOk, replicate, vec_len, vec_capacity};
ghost use Rattle.std.specs.List.{list_any};
ghost use Rattle.domain_run.specs.Calls.{with_number};
ghost use Rattle.limits.specs.Limits.{task_number_end};

use no_memory::NoMemory;
use std::alloc::{AllocError, Global};
use std::marker::Model;

const COUNT: usize = 65536;

/// A set of numbers below 65536. One with room for more or fewer marks cannot be built.
#[derive(Drop)]
pub(crate) struct Numbers {
    marks: Vec<bool>,
}

impl Model for Numbers {
    ghost use Rattle.std.specs.Prelude.{ℕ, List, vec_len, vec_capacity};
    ghost use Rattle.domain_run.specs.private.Numbers.{numbers_marked, AreNumberMarks};

    ghost Value = { List ℕ };

    ghost view = { λ n. numbers_marked 0 n.marks.items };

    ghost invariant = { λ n. AreNumberMarks (vec_len n.marks) (vec_capacity n.marks) };
}

// So many places without a mark, with room for no more.
fn no_marks(alloc: Global, count: usize) -> Result<Vec<bool>, AllocError>
    ensures marks { IfOk result (λ marks. marks.items ≡ replicate count false) }
    ensures len { IfOk result (λ marks. vec_len marks ≡ count) }
    ensures room { IfOk result (λ marks. vec_capacity marks ≡ count) }
{
    let mut marks = Vec::with_capacity(alloc, count)?;
    for _ in 0..count {
        marks.push_reserved(false);
    }
    Ok(marks)
}

impl Numbers {
    /// No number. No other call takes memory.
    pub(crate) fn open(alloc: Global) -> Result<Numbers, NoMemory>
        ensures { IfOk result (λ n. n ≡ []) }
    {
        // For the prover alone: matched, and not handed on by `?`.
        let Ok(marks) = no_marks(alloc, COUNT) else {
            return Err(NoMemory);
        };
        Ok(Numbers { marks })
    }

    /// Whether the number is one of them.
    pub(crate) fn contains(&self, number: u32) -> bool
        requires { number < task_number_end }
        ensures { result ≡ list_any (λ n. n == number) self.now }
    {
        self.marks[number as usize]
    }

    /// Takes a number in that is not there.
    pub(crate) fn insert(&mut self, number: u32)
        requires small { number < task_number_end }
        requires absent { list_any (λ n. n == number) self.old ≡ false }
        ensures { self.new ≡ with_number number self.old }
    {
        self.marks[number as usize] = true;
    }

    /// All of them, in rising order.
    pub(crate) fn list(&self, alloc: Global) -> Result<Vec<u32>, NoMemory>
        ensures all { IfOk result (λ v. v.items ≡ self.now) }
        ensures small { IfOk result (λ v. All (λ n. n < task_number_end) v.items) }
        ensures apart { IfOk result (λ v. AllPairs (λ a b. a ≢ b) v.items) }
    {
        let mut numbers = Vec::new(alloc);
        for number in 0..self.marks.len() {
            if self.marks[number] {
                numbers.push(number as u32)?;
            }
        }
        Ok(numbers)
    }
}
