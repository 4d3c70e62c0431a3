//! Where a task stands, by its number.

ghost use Rattle.std.specs.Prelude.{◌≡◌, ◌≢◌, ◌<◌, IfOk, IfSome, IfNone, All, AllPairs, length, map};
ghost use Rattle.run_figures.specs.Places as places;
ghost use Rattle.run_figures.specs.Runs.{AreTasks};
ghost use Rattle.limits.specs.Limits.{task_number_end};

use crate::run::Admitted;
use domain_run::NoMemory;
use std::alloc::Global;
use std::marker::Model;

/// The numbers of tasks in their order, and where each stands: found without a walk. Contracts see
/// the numbers.
#[derive(Drop)]
pub struct Places {
    numbers: Vec<u32>,
    /// Of each number below 65536: 0 where it stands nowhere, and else its place and one.
    codes: Vec<usize>,
}

impl Model for Places {
    ghost use Rattle.std.specs.Prelude.{ℕ, List};
    ghost use Rattle.run_figures.specs.Places.{AreIndexed};

    ghost Value = { List ℕ };

    ghost view = { λ p. p.numbers.items };

    ghost invariant = { λ p. AreIndexed p.numbers.items p.codes.items };
}

fn numbers_of(alloc: Global, tasks: &[Admitted]) -> Result<Vec<u32>, NoMemory>
    ensures { IfOk result (λ v. v.items ≡ map (λ t. t.number) tasks.now) }
{
    match tasks.iter().map(|task| task.number).collect(alloc) {
        Ok(numbers) => Ok(numbers),
        Err(_) => Err(NoMemory),
    }
}

/// The index of numbers below 65536.
fn index_of(alloc: Global, numbers: &[u32]) -> Result<Vec<usize>, NoMemory>
    requires small { All (λ n. n < task_number_end) numbers.now }
    ensures { IfOk result (λ v. places.IsIndex numbers.now (length numbers.now) v.items) }
{
    let mut codes = Vec::new(alloc);
    codes.resize(65536, 0)?;
    for (place, number) in numbers.iter().enumerate() {
        codes[*number as usize] = place + 1;
    }
    Ok(codes)
}

impl Places {
    /// The places of tasks, by their numbers.
    ///
    /// # Errors
    /// 12 [`NoMemory`]: a growth was refused; nothing is left.
    pub fn of(alloc: Global, tasks: &[Admitted]) -> Result<Places, NoMemory>
        requires { AreTasks tasks.now }
        ensures { IfOk result (λ p. p ≡ map (λ t. t.number) tasks.now) }
    {
        let numbers = numbers_of(alloc, tasks)?;
        let codes = index_of(alloc, &numbers)?;
        Ok(Places { numbers, codes })
    }

    /// The place of a number among the tasks, where it is one of theirs. Takes no memory.
    pub fn find(&self, number: u32) -> Option<usize>
        ensures found { IfSome result (places.IsAt self.now number) }
        ensures absent { IfNone result (places.IsAbsent self.now number) }
        ensures apart { AllPairs (λ a b. a ≢ b) self.now }
    {
        match self.codes.get(number as usize) {
            None | Some(0) => None,
            Some(code) => Some(*code - 1),
        }
    }
}
