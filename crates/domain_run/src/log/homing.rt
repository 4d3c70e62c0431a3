//! What a log has goes home: to the CPUs where its tasks run once all are placed.

ghost use Rattle.std.specs.Prelude.{◌≡◌, ◌<◌, ◌≤◌, length, position, map, AllPairs, IfSome};
ghost use Rattle.edf_pick.specs.Places.{is_task};
ghost use Rattle.domain_run.specs.Happened as happened_spec;
ghost use Rattle.domain_run.specs.Sound.{occupant, HasNoTaskTwice as IsPlacedOnce};
ghost use Rattle.domain_run.specs.private.RunQueue.{AreHomed};
ghost use Rattle.domain_run.specs.private.TransitionLog.{IsApart, GoHome};

use super::{Log, put_in_order};
use crate::happened::Happened;
use crate::task_table::TaskTable;

// The CPU on which a task runs, if it runs on one, looked for on each.
fn cpu_among(number: u32, places: &[Option<u32>]) -> Option<usize>
    ensures cpu { result ≡ position (is_task number) places.now }
    ensures within { IfSome result (λ cpu. cpu < length places.now) }
{
    places.iter().position(|occupant| *occupant == Some(number))
}

fn has_cpu_on(number: u32, places: &[Option<u32>], cpu: usize) -> bool
    requires { cpu < length places.now }
    ensures { result ≡ is_task number (occupant places.now cpu) }
{
    places[cpu] == Some(number)
}

// The CPU on which a task runs, if it runs on one. One that is listed belongs to it.
fn cpu_of(number: u32, places: &[Option<u32>], task_table: &TaskTable) -> Option<usize>
    requires wide { length places.now ≡ task_table.now.cpus }
    requires apart { IsPlacedOnce places.now }
    requires homed { AreHomed places.now task_table.now.tasks }
    ensures cpu { result ≡ position (is_task number) places.now }
    ensures within { IfSome result (λ cpu. cpu < length places.now) }
{
    let Some(place) = task_table.place(number) else {
        return cpu_among(number, places);
    };
    let cpu = task_table.cpu_at(place);
    if has_cpu_on(number, places, cpu) {
        Some(cpu)
    } else {
        None
    }
}

// One on the CPU where its task runs, if it runs on one.
fn at_home(one: &Happened, places: &[Option<u32>], task_table: &TaskTable) -> Happened
    requires narrow { length places.now ≤ 64 }
    requires wide { length places.now ≡ task_table.now.cpus }
    requires apart { IsPlacedOnce places.now }
    requires homed { AreHomed places.now task_table.now.tasks }
    ensures { result ≡ happened_spec.with_its_cpu places.now one.now }
{
    match cpu_of(one.number, places, task_table) {
        Some(cpu) => Happened {
            cpu: cpu as u16,
            ..*one
        },
        None => *one,
    }
}

// Each on the CPU where its task runs, if it runs on one.
fn all_home(logged: &mut [Happened], places: &[Option<u32>], task_table: &TaskTable)
    requires narrow { length places.now ≤ 64 }
    requires wide { length places.now ≡ task_table.now.cpus }
    requires apart { IsPlacedOnce places.now }
    requires homed { AreHomed places.now task_table.now.tasks }
    ensures { logged.new ≡ map (happened_spec.with_its_cpu places.now) logged.old }
{
    for one in logged.iter_mut() {
        *one = at_home(one, places, task_table);
    }
}

// Each on the CPU where its task runs, if it runs on one, and in its order by those.
#[inline(never)]
fn all_home_in_order(logged: &mut [Happened], places: &[Option<u32>], task_table: &TaskTable)
    requires narrow { length places.now ≤ 64 }
    requires wide { length places.now ≡ task_table.now.cpus }
    requires apart { IsPlacedOnce places.now }
    requires homed { AreHomed places.now task_table.now.tasks }
    ensures { AllPairs IsApart logged.old
        → logged.new ≡ happened_spec.in_order
        (map (happened_spec.with_its_cpu places.now) logged.old) }
{
    all_home(logged, places, task_table);
    put_in_order(logged);
}

impl Log {
    /// What was logged from this place on is logged on the CPUs where its tasks run now, those that
    /// run on one, and is put in its order by those.
    #[inline(always)]
    pub(crate) fn go_home(&mut self, from: usize, places: &[Option<u32>], task_table: &TaskTable)
        requires from { from ≤ length self.old.happened }
        requires narrow { length places.now ≤ 64 }
        requires wide { length places.now ≡ task_table.now.cpus }
        requires apart { IsPlacedOnce places.now }
        requires homed { AreHomed places.now task_table.now.tasks }
        ensures wanted { self.new.wanted ≡ self.old.wanted }
        ensures home { GoHome places.now from self.old.happened self.new.happened }
        ensures room { self.new.room ≡ self.old.room }
    {
        if from < self.happened.len() {
            all_home_in_order(&mut self.happened[from..], places, task_table);
        }
    }
}
