ghost use Rattle.std.specs.Prelude.{◌≡◌, ◌+◌, ◌≤◌, ◌&&◌, nat_le, List, [], ◌∷◌, ◌++◌, map, not, IfOk, OnOk};
ghost use Rattle.std.specs.List.{list_any, list_all};
ghost use Rattle.json_order.specs.Lent.{lent_json};
ghost use Rattle.rtapp_scenario.specs.Values.{Member, member_of, members_of, members};
ghost use Rattle.rtapp_scenario.specs.Faults.{first_fault_in, first};
ghost use Rattle.rtapp_scenario.specs.Keys.{is_text};
ghost use Rattle.rtapp_scenario.specs.Threads.{timer_at, first_timer_in, timer_of, thread_ref, ref_of, has_event, event_of, event_of_member};
ghost use Rattle.rtapp_scenario.specs.Threads as of;
ghost use Rattle.rtapp_scenario.specs.private.Before.{IsBefore};
ghost use Rattle.rtapp_scenario.specs.Tests.{thread_member_fault, is_idle, is_name, is_shared, beside_fault, members_fault, own_fault};
ghost use Rattle.rtapp_scenario.specs.FaultText.{flaw_of, ref_seen, tree_seen};

use crate::events::check_event;
use crate::flaw::Flaw;
use crate::key::{
    EventKind, MOST, MOST_TASKS, check_thread_key, check_thread_missing, is_timer, kind, unless,
};
use crate::phases::check_phases;
use crate::value::{at, is, members, natural_within, object, text};
use json_order::{LentMember, LentTree};
use task_script::Event;

/// The value of a member that is a timer.
#[tactic(auto, unfolding(crate::specs::Threads::timer_at))]
fn timer_at<'a, 'b>(member: &'a LentMember<'b>) -> Option<&'a LentTree<'b>>
    ensures { tree_seen result ≡ timer_at (member_of member.now) }
{
    if is_timer(member.0.as_str()) {
        Some(&member.1)
    } else {
        None
    }
}

fn first_timer_in<'a, 'b>(members: &'a [LentMember<'b>]) -> Option<&'a LentTree<'b>>
    ensures { tree_seen result ≡ first_timer_in (members_of members.now) }
{
    for member in members {
        if let Some(timer) = timer_at(member) {
            return Some(timer);
        }
    }
    None
}

fn first_timer_of_phases<'a, 'b>(phases: &'a [LentMember<'b>]) -> Option<&'a LentTree<'b>>
    ensures { tree_seen result
        ≡ first (map (λ phase. first_timer_in (members phase.value)) (members_of phases.now)) }
{
    for phase in phases {
        if let Some(timer) = first_timer_in(members(&phase.1)) {
            return Some(timer);
        }
    }
    None
}

/// The first timer of `phases`, or of a member of the thread's own.
#[tactic(auto, unfolding(crate::specs::Threads::timer_of))]
fn timer_of<'a, 'b>(member: &'a LentMember<'b>) -> Option<&'a LentTree<'b>>
    ensures { tree_seen result ≡ timer_of (member_of member.now) }
{
    if is(member.0.as_str(), "phases") {
        return first_timer_of_phases(members(&member.1));
    }
    timer_at(member)
}

fn first_timer<'a, 'b>(members: &'a [LentMember<'b>]) -> Option<&'a LentTree<'b>>
    ensures { tree_seen result ≡ first (map timer_of (members_of members.now)) }
{
    for member in members {
        if let Some(timer) = timer_of(member) {
            return Some(timer);
        }
    }
    None
}

fn ref_of<'a>(timer: &'a LentTree<'_>) -> Option<&'a str>
    ensures { ref_seen result ≡ ref_of (lent_json timer.now) }
{
    text(at("ref", members(timer))?)
}

/// The `ref` of a thread's first timer, in text order.
#[tactic(auto, unfolding(crate::specs::Threads::thread_ref))]
pub(crate) fn thread_ref<'a>(members: &'a [LentMember<'_>]) -> Option<&'a str>
    ensures { ref_seen result ≡ thread_ref (members_of members.now) }
{
    ref_of(first_timer(members)?)
}

// Apart, as timers are rare beside other events.
#[inline(never)]
fn timer_event(value: &LentTree<'_>) -> Option<Event>
    ensures { result ≡ event_of (Some EventKind.Timer) (lent_json value.now) }
{
    let period = at("period", members(value))?;
    Some(Event::Timer(natural_within(period, 1, MOST)?))
}

/// The event of a member, none for one of 0 us.
#[inline(always)]
#[tactic(auto, unfolding(crate::specs::Threads::event_of_member))]
pub(crate) fn event_at(member: &LentMember<'_>) -> Option<Event>
    ensures { result ≡ event_of_member (member_of member.now) }
{
    let value = &member.1;
    match kind(member.0.as_str())? {
        EventKind::Run => Some(Event::Run(natural_within(value, 1, MOST)?)),
        EventKind::Sleep => Some(Event::Sleep(natural_within(value, 1, MOST)?)),
        EventKind::Timer => timer_event(value),
    }
}

fn has_event(members: &[LentMember<'_>]) -> bool
    ensures { result ≡ has_event (members_of members.now) }
{
    for member in members {
        if event_at(member).is_some() {
            return true;
        }
    }
    false
}

fn is_idle_phases(phases: &[LentMember<'_>]) -> bool
    ensures { result
        ≡ list_any (λ phase. not (has_event phase))
        (map (λ phase. members phase.value) (members_of phases.now)) }
{
    phases.iter().any(|p| !has_event(members(&p.1)))
}

/// A phase has no event left.
fn is_idle(members: &[LentMember<'_>]) -> bool
    ensures { result ≡ is_idle (members_of members.now) }
{
    match at("phases", members) {
        Some(phases) => is_idle_phases(crate::value::members(phases)),
        None => !has_event(members),
    }
}

/// What members of a thread are before another one.
#[derive(Clone, Copy)]
struct Before {
    /// How many are events.
    events: usize,
    /// `phases` is among them.
    phases: bool,
}

/// A member of a thread behind others; what there is before the next.
#[tactic(auto, unfolding(crate::specs::Tests::thread_member_fault))]
fn check_member<'a>(
    first_ref: Option<&str>,
    before: Before,
    member: &'a LentMember<'_>,
) -> Result<Before, Flaw<'a>>
    requires { before.events ≤ 64 }
    ensures fault { (ms : List Member) → IsBefore ms before
        → flaw_of result
        ≡ thread_member_fault (ref_seen first_ref.entry) ms (member_of member.now) }
    ensures after { (ms : List Member) → IsBefore ms before
        → IfOk result (IsBefore (ms ++ member_of member.now ∷ [])) }
    ensures few { IfOk result (λ b. b.events ≤ 64) }
{
    let Before { events, phases } = before;
    if is(member.0.as_str(), "phases") {
        if events > 0 {
            return Err(Flaw::Unsupported(member.0.as_str()));
        }
        check_phases(first_ref, member)?;
        return Ok(Before {
            events,
            phases: true,
        });
    }
    let Some(kind) = kind(member.0.as_str()) else {
        check_thread_key(member)?;
        return Ok(before);
    };
    if phases {
        return Err(Flaw::Unsupported(member.0.as_str()));
    }
    check_event(first_ref, events, kind, member)?;
    Ok(Before {
        events: events + 1,
        phases,
    })
}

fn check_members<'a>(first_ref: Option<&str>, members: &'a [LentMember<'_>]) -> Result<(), Flaw<'a>>
    ensures { flaw_of result
        ≡ first_fault_in (thread_member_fault (ref_seen first_ref.entry)) []
        (members_of members.now) }
{
    let mut before = Before {
        events: 0,
        phases: false,
    };
    for member in members {
        before = check_member(first_ref, before, member)?;
    }
    Ok(())
}

fn are_name_bytes(bytes: &[u8]) -> bool
    ensures { result ≡ list_all (λ b. nat_le 33 b && nat_le b 126) bytes.now }
{
    bytes.iter().all(|b| *b >= 0x21 && *b <= 0x7e)
}

fn is_name(bytes: &[u8]) -> bool
    ensures { result ≡ is_name bytes.now }
{
    !bytes.is_empty() && bytes.len() <= 64 && are_name_bytes(bytes)
}

/// The members of a thread, what is missing, and a phase that is idle.
#[tactic(auto, unfolding(crate::specs::Tests::members_fault))]
fn check_object<'a>(first_ref: Option<&str>, members: &'a [LentMember<'_>]) -> Result<(), Flaw<'a>>
    requires { ref_seen first_ref ≡ thread_ref (members_of members.now) }
    ensures { flaw_of result ≡ members_fault (members_of members.now) }
{
    check_members(first_ref, members)?;
    check_thread_missing(members)?;
    unless(!is_idle(members), Flaw::Idle)
}

/// A thread by itself, with the `ref` of its timers: its name, its members in text order, and what
/// is missing.
#[tactic(auto, unfolding(crate::specs::Tests::own_fault))]
pub(crate) fn check_thread<'a>(
    first_ref: Option<&str>,
    thread: &'a LentMember<'_>,
) -> Result<(), Flaw<'a>>
    requires { ref_seen first_ref ≡ thread_ref (members (member_of thread.now).value) }
    ensures { flaw_of result ≡ own_fault (member_of thread.now) }
{
    if !is_name(thread.0.as_str().as_bytes()) {
        return Err(Flaw::Name);
    }
    match object(&thread.1) {
        Some(members) => check_object(first_ref, members),
        None => Err(Flaw::Value(thread.0.as_str())),
    }
}

/// Several tasks would use this `ref`, which is not `unique`: those of the thread, or also those of
/// a thread before it.
#[tactic(auto, unfolding(crate::specs::Tests::is_shared, crate::specs::Keys::takes))]
fn is_shared(refs: &[Option<&str>], tasks: u64, own: Option<&str>) -> bool
    ensures { result ≡ is_shared (map ref_seen refs.now) tasks (ref_seen own.entry) }
{
    let Some(own) = own else {
        return false;
    };
    if is(own, "unique") {
        return false;
    }
    tasks > 1 || is_among(refs, own)
}

fn is_ref(other: Option<&str>, own: &str) -> bool
    ensures { result ≡ is_text own.now (ref_seen other.entry) }
{
    match other {
        Some(other) => is(other, own),
        None => false,
    }
}

fn is_among(refs: &[Option<&str>], own: &str) -> bool
    ensures { result ≡ list_any (is_text own.now) (map ref_seen refs.now) }
{
    refs.iter().any(|other| is_ref(*other, own))
}

/// A thread of so many instances and this `ref` beside those before it, of which the refs and the
/// number of tasks are given.
#[tactic(auto, unfolding(crate::specs::Tests::beside_fault))]
pub(crate) fn check_beside<'a>(
    refs: &[Option<&str>],
    tasks: u64,
    instances: u64,
    own: Option<&str>,
) -> Result<(), Flaw<'a>>
    requires tasks { tasks ≤ 256 }
    requires instances { instances ≤ 256 }
    ensures flaw { (ms : List Member) → instances ≡ of.instances ms
        → ref_seen own.entry ≡ thread_ref ms
        → flaw_of result ≡ beside_fault (map ref_seen refs.now) tasks ms }
    ensures most { OnOk result (tasks + instances ≤ 256) }
{
    if is_shared(refs, instances, own) {
        return Err(Flaw::Unsupported("ref"));
    }
    unless(tasks + instances <= MOST_TASKS, Flaw::TooMany)
}
