ghost use Rattle.std.specs.Prelude.{◌≡◌, ◌==◌, ◌≤◌, ◌<◌, ◌+◌, ◌++◌, ℕ, take, [], map, length, if◌then◌else◌, true, None, codes, decimal, All, IfOk, IfErr, OnOk, string_bytes, unwrap_or};
ghost use Rattle.json_order.specs.Lent.{lent_json};
ghost use Rattle.std.specs.Option.{option_map};
ghost use Rattle.task_script.specs.NameView.{IsName, IsNameByte};
ghost use Rattle.rtapp_scenario.specs.Values.{Member, natural_within, member_of, members_of, members};
ghost use Rattle.rtapp_scenario.specs.Faults.{first_fault_in};
ghost use Rattle.rtapp_scenario.specs.Keys.{numbers_in};
ghost use Rattle.rtapp_scenario.specs.Threads.{cpus};
ghost use Rattle.rtapp_scenario.specs.Threads as of;
ghost use Rattle.rtapp_scenario.specs.private.Shapes.{IsShape, FitsTask};
ghost use Rattle.rtapp_scenario.specs.Tests.{is_name, own_fault, members_fault, thread_fault};
ghost use Rattle.rtapp_scenario.specs.Scenario.{task_name, attr, task_at, thread_tasks, tasks_from};
ghost use Rattle.rtapp_scenario.specs.ScenarioView.{IsTaskSpec, AreCpus};
ghost use Rattle.rtapp_scenario.specs.FaultText.{IsFaultTold};

use crate::fault::{ScenarioFault, fault_of};
use crate::numbers::{deadline, delay, instances, period, runtime};
use crate::scenario::TaskSpec;
use crate::script::script_of;
use crate::threads::{check_beside, check_thread, thread_ref};
use crate::value::{at, list, members, natural_within};
use attr_check::SchedAttr;
use json_order::{LentMember, LentTree};
use std::alloc::{AllocError, Global};
use std::fmt::Write;
use task_script::{Name, Script};

/// The most bytes of a task's name.
const MOST_NAME: usize = 15;

fn long_name(alloc: Global, name: &str, instances: u64, k: u64) -> Result<String, AllocError>
    ensures { IfOk result (λ s. string_bytes s
        ≡ (if instances == 1 then name.now else name.now ++ (codes "-" ++ decimal k))) }
{
    if instances == 1 {
        return String::from_str(alloc, name);
    }
    format!(in alloc; "{name}-{k}")
}

fn short_name(text: String) -> Name
    requires bytes { All IsNameByte (string_bytes text) }
    requires some { 0 < length (string_bytes text) }
    ensures value { result ≡ take 15 (string_bytes text) }
    ensures named { IsName result }
{
    let mut text = text;
    text.truncate(MOST_NAME);
    match Name::new(text) {
        Ok(name) => name,
        Err(_) => unreachable!(),
    }
}

/// The name of the k-th of so many tasks of a thread.
fn task_name(alloc: Global, name: &str, instances: u64, k: u64) -> Result<Name, AllocError>
    requires { is_name name.now ≡ true }
    ensures value { IfOk result (λ n. n ≡ task_name name.now instances k) }
    ensures named { IfOk result IsName }
{
    Ok(short_name(long_name(alloc, name, instances, k)?))
}

fn numbers_of(alloc: Global, items: &[LentTree<'_>]) -> Result<Vec<u32>, AllocError>
    ensures value { IfOk result (λ v. v.items ≡ numbers_in (map lent_json items.now)) }
    ensures placed { IfOk result (λ v. All (λ cpu. cpu ≤ 511) v.items) }
{
    let mut numbers = Vec::with_capacity(alloc, items.len())?;
    for item in items {
        numbers.push(number_of(item))?;
    }
    Ok(numbers)
}

/// The number of a CPU.
fn number_of(item: &LentTree<'_>) -> u32
    ensures value { result ≡ unwrap_or (natural_within 0 511 (lent_json item.now)) 0 }
    ensures placed { result ≤ 511 }
{
    match natural_within(item, 0, 511) {
        Some(n) => n as u32,
        None => 0,
    }
}

fn cpus_of(alloc: Global, members: &[LentMember<'_>]) -> Result<Option<Vec<u32>>, AllocError>
    ensures value { IfOk result (λ o. option_map (λ v. v.items) o ≡ cpus (members_of members.now)) }
    ensures placed { IfOk result (λ o. AreCpus (option_map (λ v. v.items) o)) }
{
    let Some(value) = at("cpus", members) else {
        return Ok(None);
    };
    match list(value) {
        Some(items) => Ok(Some(numbers_of(alloc, items)?)),
        None => Ok(None),
    }
}

fn attr_of(members: &[LentMember<'_>]) -> SchedAttr
    ensures { result ≡ attr (members_of members.now) }
{
    let runtime = runtime(members);
    let period = period(runtime, members);
    SchedAttr {
        policy: 6,
        flags: 0,
        runtime: runtime * 1000,
        deadline: deadline(period, members) * 1000,
        period: period * 1000,
    }
}

/// What all tasks of a thread have alike, read once. Their scripts share one block.
#[derive(Drop)]
struct Shape {
    attr: SchedAttr,
    cpus: Option<Vec<u32>>,
    delay: u64,
    script: Script,
}

fn shape_of(alloc: Global, members: &[LentMember<'_>]) -> Result<Shape, AllocError>
    requires { members_fault (members_of members.now) ≡ None }
    ensures is { IfOk result (IsShape (members_of members.now)) }
    ensures fits { IfOk result FitsTask }
{
    Ok(Shape {
        attr: attr_of(members),
        cpus: cpus_of(alloc, members)?,
        delay: delay(members),
        script: script_of(alloc, members)?,
    })
}

fn copy_of_cpus(alloc: Global, cpus: &Option<Vec<u32>>) -> Result<Option<Vec<u32>>, AllocError>
    ensures { IfOk result (λ o. option_map (λ v. v.items) o
        ≡ option_map (λ v. v.items) cpus.now) }
{
    match cpus {
        Some(cpus) => Ok(Some(Vec::from_slice(alloc, cpus)?)),
        None => Ok(None),
    }
}

fn copy_of_script(alloc: Global, script: &Script) -> Result<Script, AllocError>
    ensures { IfOk result (λ s. s ≡ script.now) }
{
    match script.copy(alloc) {
        Ok(script) => Ok(script),
        Err(_) => Err(AllocError),
    }
}

/// A task of a thread.
#[tactic(auto, unfolding(crate::specs::Scenario::task_at))]
fn task_of(alloc: Global, shape: &Shape, name: Name, number: u64) -> Result<TaskSpec, AllocError>
    requires fits { FitsTask shape.now }
    requires named { IsName name }
    requires some { 1 ≤ number }
    requires most { number ≤ 256 }
    ensures value { (thread : Member) (k : ℕ) → IsShape (members thread.value) shape.now
        → name ≡ task_name thread.key (of.instances (members thread.value)) k
        → IfOk result (λ t. t ≡ task_at thread number k) }
    ensures limits { IfOk result IsTaskSpec }
{
    Ok(TaskSpec {
        number: number as u32,
        name,
        attr: shape.attr,
        cpus: copy_of_cpus(alloc, &shape.cpus)?,
        delay: shape.delay,
        script: copy_of_script(alloc, &shape.script)?,
    })
}

/// The tasks of a thread of so many instances, behind so many others.
#[tactic(auto, unfolding(crate::specs::Scenario::thread_tasks))]
fn add_thread(
    alloc: Global,
    thread: &LentMember<'_>,
    instances: u64,
    others: u64,
    tasks: &mut Vec<TaskSpec>,
) -> Result<(), AllocError>
    requires passed { own_fault (member_of thread.now) ≡ None }
    requires instances { instances ≡ of.instances (members (member_of thread.now).value) }
    requires most { others + instances ≤ 256 }
    ensures made { OnOk result (tasks.new.items
        ≡ tasks.old.items ++ thread_tasks (others + 1) (member_of thread.now)) }
    ensures limits { OnOk result (All IsTaskSpec tasks.old.items → All IsTaskSpec tasks.new.items) }
{
    let shape = shape_of(alloc, members(&thread.1))?;
    for k in 0..instances {
        let name = task_name(alloc, thread.0.as_str(), instances, k)?;
        tasks.push(task_of(alloc, &shape, name, others + 1 + k)?)?;
    }
    Ok(())
}

/// The tasks of threads, or the first fault.
pub(crate) fn tasks_of(
    alloc: Global,
    threads: &[LentMember<'_>],
) -> Result<Vec<TaskSpec>, ScenarioFault>
    ensures passed { OnOk result (first_fault_in thread_fault [] (members_of threads.now) ≡ None) }
    ensures found { IfOk result (λ v. v.items ≡ tasks_from 1 (members_of threads.now)) }
    ensures limits { IfOk result (λ v. All IsTaskSpec v.items) }
    ensures fault { IfErr result
        (IsFaultTold (first_fault_in thread_fault [] (members_of threads.now))) }
{
    let mut tasks = Vec::new(alloc);
    let mut refs = Vec::new(alloc);
    let mut others = 0;
    for thread in threads {
        let members = members(&thread.1);
        let own_ref = thread_ref(members);
        if let Err(flaw) = check_thread(own_ref, thread) {
            return Err(fault_of(alloc, flaw));
        }
        let instances = instances(members);
        if let Err(flaw) = check_beside(&refs, others, instances, own_ref) {
            return Err(fault_of(alloc, flaw));
        }
        add_thread(alloc, thread, instances, others, &mut tasks)?;
        refs.push(own_ref)?;
        others += instances;
    }
    Ok(tasks)
}
