//! What a state lends of a listed task: its name, its script and its number, and what it takes
//! along to another domain.

ghost use Rattle.std.specs.Prelude.{◌≡◌, ◌≢◌, ◌<◌, All, AllPairs, IfOk, IfSome, option_map};
ghost use Rattle.std.specs.Option.{option_copied};
ghost use Rattle.attr_check.specs.ParamsView.{IsOrdered};
ghost use Rattle.task_script.specs.NameView.{IsName};
ghost use Rattle.task_script.specs.script.ScriptView.{IsScript};
ghost use Rattle.domain_run.specs.Views.{name_in, script_in, number_in, moving_of, moving_in};
ghost use Rattle.limits.specs.Limits.{task_number_end};

use super::State;
use crate::task::Task;
use attr_check::Params;
use no_memory::NoMemory;
use std::alloc::Global;
use task_script::{Name, Script};

fn runtime_of(params: &Params) -> u64
    ensures { IsOrdered params.now }
{
    params.runtime
}

// What a task takes along, each within its limits.
fn taken_along(task: &Task) -> (&Name, &Params, &Script)
    ensures moving { record { name = result.0.now; params = result.1.now; script = result.2.now }
        ≡ moving_of task.now }
    ensures name { IsName task.now.name }
    ensures params { IsOrdered task.now.params }
    ensures script { IsScript task.now.cursor.script }
{
    let name = &task.name;
    let params = &task.params;
    let script = task.cursor.script();
    // For the prover alone: a look into each brings what its type keeps.
    let _ = name.as_str();
    let _ = runtime_of(params);
    let _ = script.phases();
    (name, params, script)
}

impl State {
    /// The name of the task of a number, where it is listed. Takes no memory.
    pub fn name(&self, number: u32) -> Option<&Name>
        ensures { option_copied result ≡ name_in self.now number }
    {
        match self.task_table.find(number) {
            None => None,
            Some(task) => Some(&task.name),
        }
    }

    /// The script of the task of a number, where it is listed: the whole script that was admitted,
    /// however far the task has come in it. Takes no memory.
    pub fn script(&self, number: u32) -> Option<&Script>
        ensures { option_copied result ≡ script_in self.now number }
    {
        match self.task_table.find(number) {
            None => None,
            Some(task) => Some(task.cursor.script()),
        }
    }

    /// What the task of a number takes along to another domain, where it is listed and has not
    /// ended: its name, its parameters as they now are, and its whole script. Takes no memory.
    pub fn moving(&self, number: u32) -> Option<(&Name, &Params, &Script)>
        ensures moving { option_map
            (λ m. record { name = m.0.now; params = m.1.now; script = m.2.now }) result
            ≡ moving_in self.now number }
        ensures within { IfSome result
            (λ m. IsName m.0.now × IsOrdered m.1.now × IsScript m.2.now) }
    {
        match self.task_table.live(number) {
            None => None,
            Some(task) => Some(taken_along(task)),
        }
    }

    /// The number of the task at a place of the list, from 0, in the order of admission; none past
    /// its end. It looks at this place alone, and takes no memory.
    pub fn number_at(&self, place: usize) -> Option<u32>
        ensures { result ≡ number_in self.now place }
    {
        self.task_table.number_at(place)
    }

    /// The numbers ever admitted, in rising order.
    ///
    /// # Errors
    /// 12 [`NoMemory`]: a growth was refused.
    pub fn numbers(&self, alloc: Global) -> Result<Vec<u32>, NoMemory>
        ensures used { IfOk result (λ numbers. numbers.items ≡ self.now.used) }
        ensures small { IfOk result (λ numbers. All (λ n. n < task_number_end) numbers.items) }
        ensures apart { IfOk result (λ numbers. AllPairs (λ a b. a ≢ b) numbers.items) }
    {
        self.used.list(alloc)
    }
}
