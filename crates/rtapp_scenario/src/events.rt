ghost use Rattle.std.specs.Prelude.{◌≡◌, ◌<◌, List, [], count_by, Some, OnOk};
ghost use Rattle.rtapp_scenario.specs.Values.{Member, member_of, members_of, object_of};
ghost use Rattle.rtapp_scenario.specs.Faults.{first_fault_in};
ghost use Rattle.rtapp_scenario.specs.Keys.{kind_of, is_event};
ghost use Rattle.rtapp_scenario.specs.Tests.{other_ref, timer_member_fault, timer_fault, event_value_fault, event_fault};
ghost use Rattle.rtapp_scenario.specs.FaultText.{flaw_of, ref_seen};

use crate::flaw::Flaw;
use crate::key::{
    EventKind, MOST, check_timer_key, check_timer_missing, is_text, is_whole, unless,
};
use crate::value::{is, object};
use json_order::LentMember;

/// The most events of a phase, and the most phases of a thread.
pub(crate) const MOST_ITEMS: usize = 64;

/// A timer's `ref` is that of the thread's first timer.
#[tactic(auto, unfolding(crate::specs::Keys::takes))]
fn check_ref<'a>(first_ref: Option<&str>, member: &'a LentMember<'_>) -> Result<(), Flaw<'a>>
    ensures { flaw_of result ≡ other_ref (ref_seen first_ref.entry) (member_of member.now) }
{
    let Some(first_ref) = first_ref else {
        return Ok(());
    };
    if !is(member.0.as_str(), "ref") {
        return Ok(());
    }
    unless(is_text(&member.1, first_ref), Flaw::Unsupported("ref"))
}

fn check_timer_member<'a>(
    first_ref: Option<&str>,
    member: &'a LentMember<'_>,
) -> Result<(), Flaw<'a>>
    ensures { flaw_of result
        ≡ timer_member_fault (ref_seen first_ref.entry) [] (member_of member.now) }
{
    check_timer_key(member)?;
    check_ref(first_ref, member)
}

fn check_timer_members<'a>(
    first_ref: Option<&str>,
    members: &'a [LentMember<'_>],
) -> Result<(), Flaw<'a>>
    ensures { flaw_of result
        ≡ first_fault_in (timer_member_fault (ref_seen first_ref.entry)) []
        (members_of members.now) }
{
    for member in members {
        check_timer_member(first_ref, member)?;
    }
    Ok(())
}

// Apart, as timers are rare beside other events.
#[inline(never)]
fn check_timer<'a>(first_ref: Option<&str>, member: &'a LentMember<'_>) -> Result<(), Flaw<'a>>
    ensures { flaw_of result ≡ timer_fault (ref_seen first_ref.entry)
        (object_of (member_of member.now).value) (member_of member.now) }
{
    let Some(members) = object(&member.1) else {
        return Err(Flaw::Value(member.0.as_str()));
    };
    check_timer_members(first_ref, members)?;
    check_timer_missing(members)
}

/// The value of an event of this kind.
#[inline(always)]
#[tactic(auto, unfolding(crate::specs::Tests::event_value_fault, crate::specs::Keys::takes))]
fn check_event_value<'a>(
    first_ref: Option<&str>,
    kind: EventKind,
    member: &'a LentMember<'_>,
) -> Result<(), Flaw<'a>>
    ensures { flaw_of result
        ≡ event_value_fault (ref_seen first_ref.entry) (Some kind) (member_of member.now) }
{
    match kind {
        EventKind::Run | EventKind::Sleep => unless(
            is_whole(&member.1, 0, MOST),
            Flaw::Value(member.0.as_str()),
        ),
        EventKind::Timer => check_timer(first_ref, member),
    }
}

/// An event behind so many of its phase or thread, those of 0 us too.
#[inline(always)]
#[tactic(auto, unfolding(crate::specs::Tests::event_fault))]
pub(crate) fn check_event<'a>(
    first_ref: Option<&str>,
    events: usize,
    kind: EventKind,
    member: &'a LentMember<'_>,
) -> Result<(), Flaw<'a>>
    requires { kind_of (member_of member.now).key ≡ Some kind }
    ensures fault { (before : List Member) → count_by is_event before ≡ events
        → flaw_of result
        ≡ event_fault (ref_seen first_ref.entry) before (member_of member.now) }
    ensures few { OnOk result (events < 64) }
{
    if events >= MOST_ITEMS {
        return Err(Flaw::TooMany);
    }
    check_event_value(first_ref, kind, member)
}
