ghost use Rattle.std.specs.Prelude.{◌≡◌, ◌≤◌, ◌+◌, List, [], ◌∷◌, map, count_by, IfOk};
ghost use Rattle.rtapp_scenario.specs.Values.{Member, member_of, members_of};
ghost use Rattle.rtapp_scenario.specs.Faults.{first_fault_in, first};
ghost use Rattle.rtapp_scenario.specs.Keys.{is_event};
ghost use Rattle.rtapp_scenario.specs.Tests.{phase_member_fault, phase_fault, phases_fault};
ghost use Rattle.rtapp_scenario.specs.FaultText.{flaw_of, ref_seen};

use crate::events::{MOST_ITEMS, check_event};
use crate::flaw::Flaw;
use crate::key::{check_phase_key, kind};
use crate::value::object;
use json_order::LentMember;

/// A member of a phase behind so many events; how many there are with it.
#[tactic(auto, unfolding(crate::specs::Tests::phase_member_fault))]
fn check_phase_member<'a>(
    first_ref: Option<&str>,
    events: usize,
    member: &'a LentMember<'_>,
) -> Result<usize, Flaw<'a>>
    requires { events ≤ 64 }
    ensures fault { (before : List Member) → count_by is_event before ≡ events
        → flaw_of result
        ≡ phase_member_fault (ref_seen first_ref.entry) before (member_of member.now) }
    ensures count { IfOk result (λ n. n ≡ events + count_by is_event (member_of member.now ∷ [])) }
    ensures few { IfOk result (λ n. n ≤ 64) }
{
    let Some(kind) = kind(member.0.as_str()) else {
        check_phase_key(member)?;
        return Ok(events);
    };
    check_event(first_ref, events, kind, member)?;
    Ok(events + 1)
}

fn check_phase_members<'a>(
    first_ref: Option<&str>,
    members: &'a [LentMember<'_>],
) -> Result<(), Flaw<'a>>
    ensures { flaw_of result
        ≡ first_fault_in (phase_member_fault (ref_seen first_ref.entry)) []
        (members_of members.now) }
{
    let mut events = 0;
    for member in members {
        events = check_phase_member(first_ref, events, member)?;
    }
    Ok(())
}

#[tactic(auto, unfolding(crate::specs::Tests::phase_fault))]
fn check_phase<'a>(first_ref: Option<&str>, phase: &'a LentMember<'_>) -> Result<(), Flaw<'a>>
    ensures { flaw_of result ≡ phase_fault (ref_seen first_ref.entry) (member_of phase.now) }
{
    match object(&phase.1) {
        Some(members) => check_phase_members(first_ref, members),
        None => Err(Flaw::Value(phase.0.as_str())),
    }
}

fn check_each_phase<'a>(
    first_ref: Option<&str>,
    phases: &'a [LentMember<'_>],
) -> Result<(), Flaw<'a>>
    ensures { flaw_of result
        ≡ first (map (phase_fault (ref_seen first_ref.entry)) (members_of phases.now)) }
{
    for phase in phases {
        check_phase(first_ref, phase)?;
    }
    Ok(())
}

/// The phases of a thread.
#[tactic(auto, unfolding(crate::specs::Tests::phases_fault))]
pub(crate) fn check_phases<'a>(
    first_ref: Option<&str>,
    member: &'a LentMember<'_>,
) -> Result<(), Flaw<'a>>
    ensures { flaw_of result ≡ phases_fault (ref_seen first_ref.entry) (member_of member.now) }
{
    let Some(phases) = object(&member.1) else {
        return Err(Flaw::Value(member.0.as_str()));
    };
    if phases.is_empty() {
        return Err(Flaw::Value(member.0.as_str()));
    }
    if phases.len() > MOST_ITEMS {
        return Err(Flaw::TooMany);
    }
    check_each_phase(first_ref, phases)
}
