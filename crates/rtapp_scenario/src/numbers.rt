ghost use Rattle.std.specs.Prelude.{◌≡◌, ◌≤◌, IfSome};
ghost use Rattle.rtapp_scenario.specs.Values.{members_of};
ghost use Rattle.rtapp_scenario.specs.Threads.{number_at, instances, delay, runtime, rounds, count};
ghost use Rattle.rtapp_scenario.specs.Threads as of;
ghost use Rattle.limits.specs.Limits.{max_script_number};

use crate::key::{MOST, MOST_TASKS, MOST_TIME};
use crate::value::{at, natural_within};
use json_order::LentMember;

/// The number at a key, from the least to the most; else the default.
#[tactic(auto, unfolding(crate::specs::Threads::number_at))]
fn number_at(key: &str, least: u64, most: u64, default: u64, members: &[LentMember<'_>]) -> u64
    requires least { least ≤ default }
    requires most { default ≤ most }
    ensures value { result ≡ number_at key.now least most default (members_of members.now) }
    ensures least { least ≤ result }
    ensures most { result ≤ most }
{
    let Some(value) = at(key, members) else {
        return default;
    };
    match natural_within(value, least, most) {
        Some(n) => n,
        None => default,
    }
}

/// How many tasks a thread is.
pub(crate) fn instances(members: &[LentMember<'_>]) -> u64
    ensures value { result ≡ instances (members_of members.now) }
    ensures some { 1 ≤ result }
    ensures most { result ≤ 256 }
{
    number_at("instance", 1, MOST_TASKS, 1, members)
}

/// Microseconds from the admission to the start.
pub(crate) fn delay(members: &[LentMember<'_>]) -> u64
    ensures value { result ≡ delay (members_of members.now) }
    ensures most { result ≤ max_script_number }
{
    number_at("delay", 0, MOST, 0, members)
}

/// Microseconds.
pub(crate) fn runtime(members: &[LentMember<'_>]) -> u64
    ensures value { result ≡ runtime (members_of members.now) }
    ensures most { result ≤ 9000000000000000 }
{
    number_at("dl-runtime", 0, MOST_TIME, 0, members)
}

/// Microseconds; by default the runtime, which is given.
pub(crate) fn period(runtime: u64, members: &[LentMember<'_>]) -> u64
    requires runtime { runtime ≡ of.runtime (members_of members.now) }
    requires most { runtime ≤ 9000000000000000 }
    ensures value { result ≡ of.period (members_of members.now) }
    ensures most { result ≤ 9000000000000000 }
{
    number_at("dl-period", 0, MOST_TIME, runtime, members)
}

/// Microseconds; by default the period, which is given.
pub(crate) fn deadline(period: u64, members: &[LentMember<'_>]) -> u64
    requires period { period ≡ of.period (members_of members.now) }
    requires most { period ≤ 9000000000000000 }
    ensures value { result ≡ of.deadline (members_of members.now) }
    ensures most { result ≤ 9000000000000000 }
{
    number_at("dl-deadline", 0, MOST_TIME, period, members)
}

/// Rounds over the phases; none for no end.
pub(crate) fn rounds(members: &[LentMember<'_>]) -> Option<u64>
    ensures value { result ≡ rounds (members_of members.now) }
    ensures within { IfSome result (λ n. (1 ≤ n) × (n ≤ max_script_number)) }
{
    natural_within(at("loop", members)?, 1, MOST)
}

/// Repetitions of a phase.
pub(crate) fn count(members: &[LentMember<'_>]) -> u64
    ensures value { result ≡ count (members_of members.now) }
    ensures some { 1 ≤ result }
    ensures most { result ≤ max_script_number }
{
    number_at("loop", 1, MOST, 1, members)
}
