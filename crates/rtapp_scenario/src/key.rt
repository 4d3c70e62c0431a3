ghost use Rattle.std.specs.Prelude.{◌≡◌, Some, None, if◌then◌else◌, [], map};
ghost use Rattle.json_order.specs.Lent.{lent_json};
ghost use Rattle.rtapp_scenario.specs.Values.{member_of, members_of, has};
ghost use Rattle.rtapp_scenario.specs.Keys.{takes, whole, loops, this_text, any_text, cpu_list, are_cpus, thread_keys, phase_keys, timer_keys, key_fault, missing_fault, kind_of, begins_with};
ghost use Rattle.rtapp_scenario.specs.Threads.{is_timer};
ghost use Rattle.rtapp_scenario.specs.Keys.{cpus_after};
ghost use Rattle.rtapp_scenario.specs.private.Marks.{AreMarks};
ghost use Rattle.rtapp_scenario.specs.FaultText.{flaw_of, flaw_seen};
ghost use Rattle.rtapp_scenario.specs.Faults.{unless};

use crate::flaw::Flaw;
use crate::value::{are_digits, at, is, list, natural_within, number, text};
use json_order::{LentMember, LentTree};

/// What an event's key begins with.
#[derive(Clone, Copy)]
pub(crate) enum EventKind {
    /// `run`
    Run,
    /// `sleep`
    Sleep,
    /// `timer`
    Timer,
}

/// The most microseconds of an event or a delay, and the most rounds or repetitions.
pub(crate) const MOST: u64 = 1_000_000_000;
/// The most microseconds of a runtime, deadline or period.
pub(crate) const MOST_TIME: u64 = 9_000_000_000_000_000;
/// The most instances of a thread, and tasks of a scenario.
pub(crate) const MOST_TASKS: u64 = 256;

fn begins(word: &str, key: &str) -> bool
    ensures { result ≡ begins_with word.now key.now }
{
    match key.as_bytes().strip_prefix(word.as_bytes()) {
        Some(digits) => are_digits(digits),
        None => false,
    }
}

// The kind, where the key begins with its word.
#[inline(always)]
fn begun(word: &str, kind: EventKind, key: &str) -> Option<EventKind>
    ensures { result ≡ (if begins_with word.now key.now then Some kind else None) }
{
    if begins(word, key) { Some(kind) } else { None }
}

/// Which event a key is of; none where it is another key.
#[inline(always)]
#[tactic(auto, unfolding(crate::specs::Keys::kind_of))]
pub(crate) fn kind(key: &str) -> Option<EventKind>
    ensures { result ≡ kind_of key.now }
{
    match key.as_bytes().first() {
        Some(b'r') => begun("run", EventKind::Run, key),
        Some(b's') => begun("sleep", EventKind::Sleep, key),
        Some(b't') => begun("timer", EventKind::Timer, key),
        _ => None,
    }
}

/// The key is of a timer.
#[tactic(auto, unfolding(crate::specs::Keys::kind_of))]
pub(crate) fn is_timer(key: &str) -> bool
    ensures { result ≡ is_timer (kind_of key.now) }
{
    match key.as_bytes().first() {
        Some(b't') => begins("timer", key),
        _ => false,
    }
}

pub(crate) fn has(key: &str, members: &[LentMember<'_>]) -> bool
    ensures { result ≡ has key.now (members_of members.now) }
{
    at(key, members).is_some()
}

#[tactic(auto, unfolding(crate::specs::Keys::takes))]
pub(crate) fn is_whole(tree: &LentTree<'_>, least: u64, most: u64) -> bool
    ensures { result ≡ takes (whole least most) (lent_json tree.now) }
{
    natural_within(tree, least, most).is_some()
}

#[tactic(auto, unfolding(crate::specs::Keys::takes))]
fn is_loops(tree: &LentTree<'_>) -> bool
    ensures { result ≡ takes loops (lent_json tree.now) }
{
    if let Some(text) = number(tree)
        && is(text, "-1")
    {
        return true;
    }
    natural_within(tree, 1, MOST).is_some()
}

#[tactic(auto, unfolding(crate::specs::Keys::takes))]
pub(crate) fn is_text(tree: &LentTree<'_>, word: &str) -> bool
    ensures { result ≡ takes (this_text word.now) (lent_json tree.now) }
{
    match text(tree) {
        Some(text) => is(text, word),
        None => false,
    }
}

#[tactic(auto, unfolding(crate::specs::Keys::takes))]
fn is_any_text(tree: &LentTree<'_>) -> bool
    ensures { result ≡ takes any_text (lent_json tree.now) }
{
    text(tree).is_some()
}

/// Each item is a whole number 0 to 511 that does not stand before it. The marks are of numbers
/// that stood before.
fn are_new_cpus(items: &[LentTree<'_>], seen: &mut [bool; 512]) -> bool
    requires { AreMarks seen.old [] }
    ensures { result ≡ cpus_after [] (map lent_json items.now) }
{
    for item in items {
        let Some(n) = natural_within(item, 0, 511) else {
            return false;
        };
        if seen[n as usize] {
            return false;
        }
        seen[n as usize] = true;
    }
    true
}

/// The list is of one or more different whole numbers 0 to 511.
#[tactic(auto, unfolding(crate::specs::Keys::are_cpus))]
fn are_cpus(items: &[LentTree<'_>]) -> bool
    ensures { result ≡ are_cpus (map lent_json items.now) }
{
    if items.is_empty() {
        return false;
    }
    let mut seen = [false; 512];
    are_new_cpus(items, &mut seen)
}

#[tactic(auto, unfolding(crate::specs::Keys::takes))]
fn is_cpu_list(tree: &LentTree<'_>) -> bool
    ensures { result ≡ takes cpu_list (lent_json tree.now) }
{
    match list(tree) {
        Some(items) => are_cpus(items),
        None => false,
    }
}

/// A fault where the test fails.
pub(crate) fn unless<'a>(passes: bool, flaw: Flaw<'a>) -> Result<(), Flaw<'a>>
    ensures { flaw_of result ≡ unless passes (flaw_seen flaw.entry) }
{
    if passes { Ok(()) } else { Err(flaw) }
}

/// A member of a timer by the table: `ref`, `period` and `mode`.
#[tactic(auto, unfolding(crate::specs::Keys::key_fault))]
pub(crate) fn check_timer_key<'a>(member: &'a LentMember<'_>) -> Result<(), Flaw<'a>>
    ensures { flaw_of result ≡ key_fault timer_keys (member_of member.now) }
{
    let key = member.0.as_str();
    let value = &member.1;
    if is(key, "ref") {
        return unless(is_any_text(value), Flaw::Value("ref"));
    }
    if is(key, "period") {
        return unless(is_whole(value, 1, MOST), Flaw::Value("period"));
    }
    if is(key, "mode") {
        return unless(is_text(value, "relative"), Flaw::Unsupported("mode"));
    }
    Err(Flaw::Unsupported(key))
}

/// What a timer lacks: `ref`, then `period`.
#[tactic(auto, unfolding(crate::specs::Keys::missing_fault))]
pub(crate) fn check_timer_missing<'a>(members: &'a [LentMember<'_>]) -> Result<(), Flaw<'a>>
    ensures { flaw_of result ≡ missing_fault timer_keys (members_of members.now) }
{
    unless(has("ref", members), Flaw::Value("ref"))?;
    unless(has("period", members), Flaw::Value("period"))
}

/// A member of a phase that is no event, by the table: `loop`.
#[tactic(auto, unfolding(crate::specs::Keys::key_fault))]
pub(crate) fn check_phase_key<'a>(member: &'a LentMember<'_>) -> Result<(), Flaw<'a>>
    ensures { flaw_of result ≡ key_fault phase_keys (member_of member.now) }
{
    let key = member.0.as_str();
    if is(key, "loop") {
        return unless(is_whole(&member.1, 1, MOST), Flaw::Value("loop"));
    }
    Err(Flaw::Unsupported(key))
}

/// A member of a thread that is neither `phases` nor an event, by the table.
#[tactic(auto, unfolding(crate::specs::Keys::key_fault, crate::specs::Keys::takes))]
pub(crate) fn check_thread_key<'a>(member: &'a LentMember<'_>) -> Result<(), Flaw<'a>>
    ensures { flaw_of result ≡ key_fault thread_keys (member_of member.now) }
{
    let key = member.0.as_str();
    let value = &member.1;
    if is(key, "instance") {
        return unless(is_whole(value, 1, MOST_TASKS), Flaw::Value("instance"));
    }
    if is(key, "loop") {
        return unless(is_loops(value), Flaw::Value("loop"));
    }
    if is(key, "delay") {
        return unless(is_whole(value, 0, MOST), Flaw::Value("delay"));
    }
    if is(key, "policy") {
        return unless(is_text(value, "SCHED_DEADLINE"), Flaw::Policy);
    }
    if is(key, "priority") {
        return Ok(());
    }
    if is(key, "dl-runtime") {
        return unless(is_whole(value, 0, MOST_TIME), Flaw::Value("dl-runtime"));
    }
    if is(key, "dl-period") {
        return unless(is_whole(value, 0, MOST_TIME), Flaw::Value("dl-period"));
    }
    if is(key, "dl-deadline") {
        return unless(is_whole(value, 0, MOST_TIME), Flaw::Value("dl-deadline"));
    }
    if is(key, "cpus") {
        return unless(is_cpu_list(value), Flaw::Value("cpus"));
    }
    Err(Flaw::Unsupported(key))
}

/// What a thread lacks: `policy`, then `dl-runtime`.
#[tactic(auto, unfolding(crate::specs::Keys::missing_fault))]
pub(crate) fn check_thread_missing<'a>(members: &'a [LentMember<'_>]) -> Result<(), Flaw<'a>>
    ensures { flaw_of result ≡ missing_fault thread_keys (members_of members.now) }
{
    unless(has("policy", members), Flaw::Policy)?;
    unless(has("dl-runtime", members), Flaw::Value("dl-runtime"))
}
