//! The rules of a constant bandwidth server (sched-deadline.rst, "Main algorithm").

ghost use Rattle.std.specs.Prelude.{◌≡◌, ◌<◌, ◌≤◌, ◌^◌, ◌+◌, ◌*◌, pos, neg_ℤ, ◌≤ℤ◌, ◌<ℤ◌, ◌+ℤ◌, ◌/◌, IsSome, IsSomeAnd, IfSome};
ghost use Rattle.std.specs.Option.{option_map};
ghost use Rattle.cbs_rules.specs.Serving.{renewed, overflows, woken, charged, is_spent, replenished};
ghost use Rattle.attr_check.specs.ParamsView.{IsOrdered};
ghost use Rattle.cbs_rules.specs.Budget.{budget, below_zero};
ghost use Rattle.limits.specs.Limits.{clock_end, deadline_end};

use crate::server::Server;
use attr_check::{Params, UNIT};

fn budget_of(params: &Params) -> u64
    ensures value { result ≡ budget params.now }
    ensures some { 2 ^ 20 ≤ result }
    ensures most { result ≤ 2 ^ 52 }
    ensures ordered { IsOrdered params.now }
{
    params.runtime * UNIT
}

fn renew(params: &Params, time: u64) -> Server
    requires { time < deadline_end }
    ensures value { result ≡ renewed params.now time }
    ensures ordered { IsOrdered params.now }
{
    Server {
        deadline: Some(time + params.deadline),
        left: i128::from(budget_of(params)),
    }
}

fn is_outlived_at(params: &Params, time: u64, deadline: u64, left: i128) -> bool
    requires early { (time < deadline_end) × (deadline < deadline_end) }
    requires high { left ≤ℤ pos (2 ^ 63) }
    requires low { neg_ℤ (pos (2 ^ 63)) ≤ℤ left }
    ensures value { result ≡ overflows params.now time deadline left }
    ensures ordered { IsOrdered params.now }
{
    let budget = i128::from(budget_of(params));
    if deadline < time {
        return true;
    }
    let share = budget * i128::from(deadline - time);
    share < left * i128::from(params.period)
}

/// Deadline and budget after a wake at this time, in microseconds: new ones where there is no
/// deadline, where it has passed, or where what is left would be more than the task's share until
/// then (strictly); else they stay. Takes no memory.
pub fn on_wake(server: Server, params: &Params, time: u64) -> Server
    requires early { time < deadline_end }
    requires near { IfSome server.deadline (λ d. d < deadline_end) }
    requires high { server.left ≤ℤ pos (2 ^ 63) }
    requires low { neg_ℤ (pos (2 ^ 63)) ≤ℤ server.left }
    ensures value { result ≡ woken params.now time server }
    ensures dated { IsSome result.deadline }
    ensures ordered { IsOrdered params.now }
{
    match server.deadline {
        None => renew(params, time),
        Some(deadline) => {
            if is_outlived_at(params, time, deadline, server.left) {
                renew(params, time)
            } else {
                server
            }
        }
    }
}

/// The server after so many ticks of running at a rate in 1/2^20: its budget is less by `rate *
/// ticks`. Takes no memory.
pub fn charge(server: Server, rate: u64, ticks: u64) -> Server
    requires slow { rate ≤ 2 ^ 32 }
    requires few { ticks ≤ clock_end }
    requires low { neg_ℤ (pos (2 ^ 63)) ≤ℤ server.left }
    requires high { server.left ≤ℤ pos (2 ^ 63) }
    ensures { result ≡ charged rate ticks server }
{
    Server {
        deadline: server.deadline,
        left: server.left - i128::from(rate) * i128::from(ticks),
    }
}

/// Whether nothing is left of the budget, which the definitions call spent (`is_spent`): a task
/// that contends is then throttled.
pub fn is_throttled(server: &Server) -> bool
    ensures { result ≡ is_spent server.now }
{
    server.left <= 0
}

fn postponements(budget: u64, server: &Server) -> u64
    requires some { 2 ^ 20 ≤ budget }
    requires spent { server.now.left ≤ℤ pos 0 }
    requires low { neg_ℤ (pos (2 ^ 32)) ≤ℤ server.now.left }
    ensures value { result ≡ below_zero server.now.left / budget + 1 }
    ensures few { result ≤ 2 ^ 13 }
{
    let missing = (-server.left) as u64;
    if missing < budget {
        return 1;
    }
    missing / budget + 1
}

fn postpone(server: Server, params: &Params, times: u64) -> Server
    requires few { times ≤ 2 ^ 13 }
    requires near { IfSome server.deadline (λ d. d < deadline_end) }
    requires spent { server.left ≤ℤ pos 0 }
    requires low { neg_ℤ (pos (2 ^ 32)) ≤ℤ server.left }
    ensures deadline { result.deadline
        ≡ option_map (λ d. d + times * params.now.period) server.deadline }
    ensures left { result.left ≡ server.left +ℤ pos (times * budget params.now) }
{
    let deadline = match server.deadline {
        None => None,
        Some(deadline) => Some(deadline + times * params.period),
    };
    let budget = budget_of(params);
    Server {
        deadline,
        left: server.left + i128::from(times) * i128::from(budget),
    }
}

/// Replenishes a spent server: its deadline is put off by a period and it gets a whole budget,
/// again and again while nothing is left, by one division. Takes no memory.
pub fn replenish(server: Server, params: &Params) -> Server
    requires dated { IsSome server.deadline }
    requires near { IfSome server.deadline (λ d. d < deadline_end) }
    requires spent { server.left ≤ℤ pos 0 }
    requires low { neg_ℤ (pos (2 ^ 32)) ≤ℤ server.left }
    ensures value { result ≡ replenished params.now server }
    ensures lifted { pos 0 <ℤ result.left }
    ensures high { result.left ≤ℤ pos (2 ^ 52) }
    ensures near { IsSomeAnd result.deadline (λ d. IfSome server.deadline (λ c. d ≤ c + 2 ^ 45)) }
{
    let times = postponements(budget_of(params), &server);
    postpone(server, params, times)
}
