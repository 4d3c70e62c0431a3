ghost use Rattle.std.specs.Prelude.{◌≡◌, ◌≤◌, Ok, IfOk, IfErr, IfSome, All, length, map};
ghost use Rattle.std.specs.List.{range_with_len};
ghost use Rattle.json_order.specs.Lent.{lent_json};
ghost use Rattle.json_order.specs.Seen.{json_of};
ghost use Rattle.rtapp_scenario.specs.Values.{member_of, members_of, members, members_at};
ghost use Rattle.rtapp_scenario.specs.Faults.{first};
ghost use Rattle.rtapp_scenario.specs.Tests.{duration_of, root_member_fault};
ghost use Rattle.rtapp_scenario.specs.Scenario.{parsed};
ghost use Rattle.rtapp_scenario.specs.ScenarioView.{IsTaskSpec};
ghost use Rattle.rtapp_scenario.specs.FaultText.{flaw_of, IsScenarioFault};
ghost use Rattle.limits.specs.Limits.{max_advance};

use crate::fault::{ScenarioFault, fault_of};
use crate::flaw::Flaw;
use crate::scenario::Scenario;
use crate::tasks::tasks_of;
use crate::value::{at, is, members, natural_within, no_members};
use json_order::{LentMember, LentTree, Tree, lend};
use std::alloc::Global;

/// The most seconds of a run.
const MOST_SECONDS: u64 = 60;

/// The members of the object at a key.
fn members_at<'a, 'b>(key: &str, members: &'a [LentMember<'b>]) -> &'a [LentMember<'b>]
    ensures { members_of result.now ≡ members_at key.now (members_of members.now) }
{
    let Some(value) = at(key, members) else {
        return no_members();
    };
    crate::value::members(value)
}

/// The seconds of a run, none where they are not 0 to 60.
fn duration_of(root: &LentTree<'_>) -> Option<u64>
    ensures value { result ≡ duration_of (lent_json root.now) }
    ensures most { IfSome result (λ seconds. seconds ≤ 60) }
{
    natural_within(
        at("duration", members_at("global", members(root)))?,
        0,
        MOST_SECONDS,
    )
}

fn check_root_member<'a>(member: &'a LentMember<'_>) -> Result<(), Flaw<'a>>
    ensures { flaw_of result ≡ root_member_fault (member_of member.now) }
{
    if is(member.0.as_str(), "tasks") || is(member.0.as_str(), "global") {
        return Ok(());
    }
    Err(Flaw::Unsupported(member.0.as_str()))
}

fn check_root_members<'a>(members: &'a [LentMember<'_>]) -> Result<(), Flaw<'a>>
    ensures { flaw_of result ≡ first (map root_member_fault (members_of members.now)) }
{
    for member in members {
        check_root_member(member)?;
    }
    Ok(())
}

/// The scenario of a JSON value as [`parse`] has it, of a tree whose texts lie elsewhere.
///
/// Memory is taken for the tasks alone, and for the key of a fault.
///
/// # Errors
/// The first test that fails, as [`ScenarioFault`] has them. [`ScenarioFault::Memory`] may come
/// before any other.
pub fn parse_lent(alloc: Global, tree: &LentTree<'_>) -> Result<Scenario, ScenarioFault>
    // Ok exactly with the scenario that the value stands for,
    ensures found { IfOk result (λ scenario. parsed (lent_json tree.now) ≡ Ok scenario) }
    // and Err with its first fault, unless memory runs out.
    ensures fault { IfErr result (IsScenarioFault (parsed (lent_json tree.now))) }
    // Tasks are numbered 1, 2, .. in text order, at most 256, and each is within its limits.
    ensures numbered { IfOk result (λ scenario.
        map (λ t. t.number) scenario.tasks ≡ range_with_len 1 (length scenario.tasks)) }
    ensures few { IfOk result (λ scenario. length scenario.tasks ≤ 256) }
    ensures limits { IfOk result (λ scenario. All IsTaskSpec scenario.tasks) }
    ensures short { IfOk result (λ scenario. scenario.duration_us ≤ max_advance) }
{
    let threads = members_at("tasks", members(tree));
    if threads.is_empty() {
        return Err(ScenarioFault::NoTasks);
    }
    let Some(seconds) = duration_of(tree) else {
        return Err(ScenarioFault::Duration);
    };
    if let Err(flaw) = check_root_members(members(tree)) {
        return Err(fault_of(alloc, flaw));
    }
    let tasks = tasks_of(alloc, threads)?;
    Ok(Scenario {
        duration_us: seconds * 1_000_000,
        tasks,
    })
}

/// The scenario of a JSON value by the rt-app profile, which the page on formats has: the keys with
/// their ranges and defaults, and the order of the tests (rt-app's JSON keys; ranges, defaults,
/// names of instances and limits are own). The tasks are numbered 1, 2, .. in text order, each
/// thread as many as its `instance` says.
///
/// Memory is taken for the tasks, for the key of a fault, and for the lists and objects of a tree
/// whose texts lie in this one.
///
/// # Errors
/// The first test that fails, as [`ScenarioFault`] has them. [`ScenarioFault::Memory`] may come
/// before any other.
pub fn parse(alloc: Global, tree: &Tree) -> Result<Scenario, ScenarioFault>
    // Ok exactly with the scenario that the value stands for,
    ensures found { IfOk result (λ scenario. parsed (json_of tree.now) ≡ Ok scenario) }
    // and Err with its first fault, unless memory runs out.
    ensures fault { IfErr result (IsScenarioFault (parsed (json_of tree.now))) }
    // Tasks are numbered 1, 2, .. in text order, at most 256, and each is within its limits.
    ensures numbered { IfOk result (λ scenario.
        map (λ t. t.number) scenario.tasks ≡ range_with_len 1 (length scenario.tasks)) }
    ensures few { IfOk result (λ scenario. length scenario.tasks ≤ 256) }
    ensures limits { IfOk result (λ scenario. All IsTaskSpec scenario.tasks) }
    ensures short { IfOk result (λ scenario. scenario.duration_us ≤ max_advance) }
{
    let lent = lend(alloc, tree)?;
    parse_lent(alloc, &lent)
}
