//! The time on CPUs, logged from the first switch to the last. Who has a CPU is logged as if it
//! kept it to the end of the run; the rest is taken back at the switch by which it leaves.

ghost use Rattle.std.specs.Prelude.{◌≡◌, ◌-◌, ◌*◌, ◌<◌, ◌≤◌, ◌^◌, IfOk, All, map, length, slice_index_or, vec_capacity};
ghost use Rattle.std.specs.List.{range_with_len};
ghost use Rattle.run_figures.specs.private.Running as running;

use crate::places::Places;
use crate::run::Admitted;
use domain_run::{NoMemory, Switch};
use std::alloc::Global;

/// What is logged of a task up to a switch.
#[derive(Clone, Copy)]
pub(crate) struct Ran {
    /// The task's number.
    pub(crate) number: u32,
    /// Its CPU time.
    pub(crate) cpu_us: u128,
    /// How often it was placed on another CPU than before.
    pub(crate) migrated: u64,
    /// The CPU on which it was placed last.
    pub(crate) last: Option<u16>,
}

/// What is logged of a CPU up to a switch.
#[derive(Clone, Copy)]
pub(crate) struct Cpu {
    pub(crate) cpu: u16,
    pub(crate) busy_us: u128,
    pub(crate) switches: u64,
    /// The task that has it.
    pub(crate) task: Option<u32>,
}

/// How often it migrates by a placement.
fn moves_to(last: Option<u16>, cpu: u16) -> u64
    ensures moves { result ≡ running.moves_to cpu last }
    ensures few { result ≤ 1 }
{
    match last {
        Some(last) if cpu != last => 1,
        _ => 0,
    }
}

/// One more stay on a CPU.
fn add_stay(ran: &mut Ran, cpu: u16, us: u64)
    requires time { ran.old.cpu_us ≤ (2 ^ 64 - 2) * 2 ^ 64 }
    requires moves { ran.old.migrated ≤ 2 ^ 64 - 2 }
    ensures { ran.new ≡ running.with_stay cpu us ran.old }
{
    ran.cpu_us += u128::from(us);
    ran.migrated += moves_to(ran.last, cpu);
    ran.last = Some(cpu);
}

/// Without the rest of its last stay.
fn drop_rest(ran: &mut Ran, us: u64)
    ensures { ran.new ≡ running.without_rest us ran.old }
{
    ran.cpu_us = ran.cpu_us.saturating_sub(u128::from(us));
}

/// How long a CPU is busy with a task, or with none.
fn busy_with(task: Option<u32>, us: u64) -> u64
    ensures { result ≡ running.busy_if task us }
{
    match task {
        None => 0,
        Some(_) => us,
    }
}

/// One more switch, `us` microseconds before the end.
fn add_switch(cpu: &mut Cpu, switch: &Switch, us: u64)
    requires time { cpu.old.busy_us ≤ (2 ^ 64 - 2) * 2 ^ 64 }
    requires count { cpu.old.switches ≤ 2 ^ 64 - 2 }
    ensures { cpu.new ≡ running.with_switch switch.now us cpu.old }
{
    let busy_us = cpu.busy_us + u128::from(busy_with(switch.next(), us));
    cpu.busy_us = busy_us.saturating_sub(u128::from(busy_with(cpu.task, us)));
    cpu.switches += 1;
    cpu.task = switch.next();
}

/// With a stay of the task that comes by a switch after.
fn put_stay(table: &mut Vec<Ran>, places: &Places, switch: &Switch, us: u64)
    requires keyed { map (λ r. r.number) table.old.items ≡ places.now }
    requires time { All (λ r. r.cpu_us ≤ (2 ^ 64 - 2) * 2 ^ 64) table.old.items }
    requires moves { All (λ r. r.migrated ≤ 2 ^ 64 - 2) table.old.items }
    ensures stay { table.new.items
        ≡ map (running.with_stay_of switch.now.next switch.now.cpu us) table.old.items }
    ensures same_room { vec_capacity table.new ≡ vec_capacity table.old }
{
    let Some(number) = switch.next() else {
        return;
    };
    if let Some(place) = places.find(number) {
        add_stay(&mut table[place], switch.cpu(), us);
    }
}

/// Without the rest of the last stay of the task that had a CPU.
fn take_rest(table: &mut Vec<Ran>, places: &Places, task: Option<u32>, us: u64)
    requires keyed { map (λ r. r.number) table.old.items ≡ places.now }
    ensures rest { table.new.items ≡ map (running.without_rest_of task us) table.old.items }
    ensures same_room { vec_capacity table.new ≡ vec_capacity table.old }
{
    let Some(number) = task else {
        return;
    };
    if let Some(place) = places.find(number) {
        drop_rest(&mut table[place], us);
    }
}

/// What is logged of tasks and of CPUs.
#[derive(Drop)]
pub(crate) struct Tables {
    pub(crate) tasks: Vec<Ran>,
    pub(crate) cpus: Vec<Cpu>,
}

fn none_ran(alloc: Global, tasks: &[Admitted]) -> Result<Vec<Ran>, NoMemory>
    ensures { IfOk result (λ v. v.items ≡ map (λ t. running.not_run t.number) tasks.now) }
{
    match tasks
        .iter()
        .map(|task| Ran {
            number: task.number,
            cpu_us: 0,
            migrated: 0,
            last: None,
        })
        .collect(alloc)
    {
        Ok(ran) => Ok(ran),
        Err(_) => Err(NoMemory),
    }
}

fn idle_cpus(alloc: Global, cpus: u32) -> Result<Vec<Cpu>, NoMemory>
    requires few { cpus ≤ 64 }
    ensures { IfOk result (λ v. v.items ≡ map running.idle (range_with_len 0 cpus)) }
{
    match (0..cpus as u16)
        .map(|cpu| Cpu {
            cpu,
            busy_us: 0,
            switches: 0,
            task: None,
        })
        .collect(alloc)
    {
        Ok(cpus) => Ok(cpus),
        Err(_) => Err(NoMemory),
    }
}

impl Tables {
    /// Before the first switch.
    pub(crate) fn open(alloc: Global, cpus: u32, tasks: &[Admitted]) -> Result<Tables, NoMemory>
        requires few { cpus ≤ 64 }
        ensures tasks { IfOk result (λ t. t.tasks.items
            ≡ map (λ a. running.not_run a.number) tasks.now) }
        ensures cpus { IfOk result (λ t. t.cpus.items ≡ map running.idle (range_with_len 0 cpus)) }
    {
        Ok(Tables {
            tasks: none_ran(alloc, tasks)?,
            cpus: idle_cpus(alloc, cpus)?,
        })
    }
}

/// With a switch after those before it, where the run ends at this time.
pub(crate) fn put_switch(tables: &mut Tables, places: &Places, switch: &Switch, end: u64)
    requires keyed { map (λ r. r.number) tables.old.tasks.items ≡ places.now }
    requires cpu { map (λ c. c.cpu) tables.old.cpus.items
        ≡ range_with_len 0 (length tables.old.cpus.items) }
    requires inside { switch.now.cpu < length tables.old.cpus.items }
    requires time { All (λ r. r.cpu_us ≤ (2 ^ 64 - 2) * 2 ^ 64) tables.old.tasks.items }
    requires moves { All (λ r. r.migrated ≤ 2 ^ 64 - 2) tables.old.tasks.items }
    requires busy { All (λ c. c.busy_us ≤ (2 ^ 64 - 2) * 2 ^ 64) tables.old.cpus.items }
    requires count { All (λ c. c.switches ≤ 2 ^ 64 - 2) tables.old.cpus.items }
    ensures tasks { (d : Cpu) → tables.new.tasks.items ≡ map
        (running.without_rest_of (slice_index_or tables.old.cpus.items switch.now.cpu d).task
        (end - switch.now.time))
        (map (running.with_stay_of switch.now.next switch.now.cpu (end - switch.now.time))
        tables.old.tasks.items) }
    ensures cpus { tables.new.cpus.items
        ≡ map (running.with_switch_on switch.now (end - switch.now.time)) tables.old.cpus.items }
    ensures same_tasks_room { vec_capacity tables.new.tasks ≡ vec_capacity tables.old.tasks }
    ensures same_cpus_room { vec_capacity tables.new.cpus ≡ vec_capacity tables.old.cpus }
{
    let cpu = switch.cpu() as usize;
    let task = tables.cpus[cpu].task;
    let rest = end.saturating_sub(switch.time());
    put_stay(&mut tables.tasks, places, switch, rest);
    take_rest(&mut tables.tasks, places, task, rest);
    add_switch(&mut tables.cpus[cpu], switch, rest);
}
