//! Zero-lag times and the reclaiming rate (sched-deadline.rst, "Bandwidth reclaiming").

ghost use Rattle.std.specs.Prelude.{◌≡◌, ◌<◌, ◌≤◌, ◌^◌, ◌*◌, ◌/◌, pos, ◌≤ℤ◌};
ghost use Rattle.attr_check.specs.Ratio.{cap};
ghost use Rattle.cbs_rules.specs.Budget.{above_zero, budget};
ghost use Rattle.grub_rules.specs.Lag as lag;
ghost use Rattle.grub_rules.specs.Rate as rates;
ghost use Rattle.limits.specs.Limits.{least_limit, unit};

use attr_check::{Params, UNIT};
use cbs_rules::Server;

/// A quotient, by a division of 64 bits where that does.
fn divided(number: u128, by: u64) -> u128
    requires { 0 < by }
    ensures { result ≡ number / by }
{
    if number <= u128::from(u64::MAX) {
        return u128::from(number as u64 / by);
    }
    number / u128::from(by)
}

/// What is left to each CPU of a sum: a shift where their number is a power of two.
pub(crate) fn on_each(sum: u64, cpus: u64) -> u64
    requires { 0 < cpus }
    ensures { result ≡ sum / cpus }
{
    match cpus {
        1 => sum,
        2 => sum / 2,
        4 => sum / 4,
        8 => sum / 8,
        16 => sum / 16,
        32 => sum / 32,
        64 => sum / 64,
        _ => sum / cpus,
    }
}

/// The limit of the kernel's default, 95 hundredths of a CPU, in 1/2^20 (sched-deadline.rst,
/// "Bandwidth management").
const DEFAULT_LIMIT: u64 = 996_147;

/// A bandwidth as a share of a limit, in 1/2^20, rounded up: where the limit is a whole CPU it is
/// the bandwidth itself, and a division by the default, which is known, is a multiplication.
fn share_of(bw: u64, limit: u64) -> u64
    requires bw { bw ≤ 2 ^ 26 }
    requires limit { (0 < limit) × (limit ≤ unit) }
    ensures { result ≡ rates.div_up (bw * unit) limit }
{
    match limit {
        UNIT => bw,
        DEFAULT_LIMIT => (bw * UNIT + DEFAULT_LIMIT - 1) / DEFAULT_LIMIT,
        _ => (bw * UNIT + limit - 1) / limit,
    }
}

/// What is left of a budget; nothing where it has gone below zero.
fn left_of(server: &Server) -> u128
    requires high { server.now.left ≤ℤ pos (2 ^ 63) }
    ensures value { result ≡ above_zero server.now.left }
    ensures most { result ≤ 2 ^ 63 }
{
    if server.left > 0 {
        server.left as u128
    } else {
        0
    }
}

/// How long before its deadline a server would be in step with the fluid schedule, in microseconds.
/// First by the unit, which is a shift, so that a short division is left.
fn lag_of(server: &Server, params: &Params) -> u128
    requires high { server.now.left ≤ℤ pos (2 ^ 63) }
    ensures { result ≡ above_zero server.now.left * params.now.period / budget params.now }
{
    let area = left_of(server) * u128::from(params.period);
    divided(area / u128::from(UNIT), params.runtime)
}

/// The zero-lag time of a task that stops contending at this time, in microseconds: until then its
/// bandwidth stays active. None where it is inactive at once. Takes no memory.
pub fn zero_lag(server: &Server, params: &Params, time: u64) -> Option<u64>
    requires { server.now.left ≤ℤ pos (2 ^ 63) }
    ensures { result ≡ lag.zero_lag params.now time server.now }
{
    let deadline = server.deadline?;
    let lag = lag_of(server, params);
    let zero = u128::from(deadline).saturating_sub(lag) as u64;
    if zero <= time { None } else { Some(zero) }
}

/// The rate of a task that is charged for so much bandwidth, in 1/2^20, rounded up. Takes no
/// memory.
pub fn rate_for(bw: u64, limit: u64) -> u64
    requires bw { bw ≤ 2 ^ 26 }
    requires limit { (least_limit ≤ limit) × (limit ≤ unit) }
    ensures value { result ≡ rates.rate_charged bw limit }
    ensures some { 0 < result }
    ensures slow { bw ≤ 2 ^ 20 → result ≤ 2 ^ 27 }
    ensures most { result ≤ 2 ^ 33 }
{
    share_of(bw, limit).max(1)
}

/// The rate at which a running task uses its budget up, in 1/2^20: one where it does not reclaim,
/// else its share of the domain's limit, where what is inactive on its CPU and what the domain
/// could still give away count as free. `sum` is the bandwidth of all tasks of the domain, `uinact`
/// what is inactive on the task's CPU. Takes no memory.
pub fn rate(params: &Params, uinact: u64, sum: u64, cpus: u64, limit: u64) -> u64
    requires uinact { uinact ≤ 2 ^ 26 }
    requires sum { sum ≤ 2 ^ 26 }
    requires cpus { (0 < cpus) × (cpus ≤ 64) }
    requires limit { (least_limit ≤ limit) × (limit ≤ unit) }
    ensures value { result ≡ rates.rate params.now uinact sum cpus limit }
    ensures some { 0 < result }
    ensures slow { sum ≤ cap cpus limit → result ≤ 2 ^ 27 }
    ensures most { result ≤ 2 ^ 33 }
{
    if !params.reclaim {
        return UNIT;
    }
    // Umax - Uextra: what the tasks of the domain have of each CPU
    let used = on_each(sum, cpus);
    let taken = params.bw.max(used.saturating_sub(uinact));
    rate_for(taken, limit)
}
