ghost use Rattle.std.specs.Prelude.{◌≡◌, ◌≤◌, None, IfOk, IfSome, map};
ghost use Rattle.std.specs.List.{filter_map};
ghost use Rattle.task_script.specs.script.ScriptView.{IsScript, script_of as script_from};
ghost use Rattle.task_script.specs.script.Segments.{rounds_of, IsLoops};
ghost use Rattle.rtapp_scenario.specs.Values.{members_of};
ghost use Rattle.rtapp_scenario.specs.Threads.{event_of_member};
ghost use Rattle.rtapp_scenario.specs.Tests.{members_fault};
ghost use Rattle.rtapp_scenario.specs.Scenario.{phase_of, member_phase, phases, script};
ghost use Rattle.limits.specs.Limits.{max_script_number};

use crate::numbers::{count, rounds};
use crate::threads::event_at;
use crate::value::{at, members};
use json_order::LentMember;
use std::alloc::{AllocError, Global};
use task_script::{Event, Phase, Script};

fn events_of(alloc: Global, members: &[LentMember<'_>]) -> Result<Vec<Event>, AllocError>
    ensures { IfOk result (λ v. v.items ≡ filter_map event_of_member (members_of members.now)) }
{
    let mut events = Vec::with_capacity(alloc, members.len())?;
    for member in members {
        if let Some(event) = event_at(member) {
            events.push(event)?;
        }
    }
    Ok(events)
}

#[tactic(auto, unfolding(crate::specs::Scenario::phase_of))]
fn phase_of(alloc: Global, count: u64, members: &[LentMember<'_>]) -> Result<Phase, AllocError>
    ensures { IfOk result (λ p. p ≡ phase_of count (members_of members.now)) }
{
    let events = events_of(alloc, members)?;
    Ok(Phase { count, events })
}

fn phases_in(alloc: Global, phases: &[LentMember<'_>]) -> Result<Vec<Phase>, AllocError>
    ensures { IfOk result (λ v. v.items ≡ map member_phase (members_of phases.now)) }
{
    let mut made = Vec::with_capacity(alloc, phases.len())?;
    for phase in phases {
        let members = members(&phase.1);
        made.push(phase_of(alloc, count(members), members)?)?;
    }
    Ok(made)
}

fn phases_of(alloc: Global, members: &[LentMember<'_>]) -> Result<Vec<Phase>, AllocError>
    ensures { IfOk result (λ v. v.items ≡ phases (members_of members.now)) }
{
    if let Some(phases) = at("phases", members) {
        return phases_in(alloc, crate::value::members(phases));
    }
    let mut made = Vec::with_capacity(alloc, 1)?;
    made.push(phase_of(alloc, 1, members)?)?;
    Ok(made)
}

/// The number of rounds as a script takes it: -1 for no end.
fn loops(rounds: Option<u64>) -> i64
    requires { IfSome rounds (λ n. (1 ≤ n) × (n ≤ max_script_number)) }
    ensures value { rounds_of result ≡ rounds }
    ensures within { IsLoops result }
{
    match rounds {
        Some(n) => n as i64,
        None => -1,
    }
}

fn made(loops: i64, phases: Vec<Phase>) -> Script
    requires loops { IsLoops loops }
    requires within { IsScript (script_from (rounds_of loops) phases.items) }
    ensures value { result ≡ script_from (rounds_of loops) phases.items }
    ensures within { IsScript result }
{
    match Script::new(loops, phases) {
        Ok(script) => script,
        Err(_) => unreachable!(),
    }
}

/// The script of a thread that passed its tests, to share.
#[tactic(auto, unfolding(crate::specs::Scenario::script))]
pub(crate) fn script_of(alloc: Global, members: &[LentMember<'_>]) -> Result<Script, AllocError>
    requires { members_fault (members_of members.now) ≡ None }
    ensures value { IfOk result (λ s. s ≡ script (members_of members.now)) }
    ensures within { IfOk result IsScript }
{
    let phases = phases_of(alloc, members)?;
    Ok(made(loops(rounds(members)), phases).share(alloc))
}
