//! The answer for a task of a domain.

ghost use Rattle.std.specs.Prelude.{◌≡◌};
ghost use Rattle.deadline_promise.specs.Answer as spec;

use crate::demand::Demand;
use crate::listed::Listed;
use attr_check::Params;
use domain_run::State;

/// That a task is never late, or the first reason why that is not promised.
#[derive(Clone, Copy)]
pub enum Promise {
    /// No job of it is late, in a run of any length, whatever the other tasks do.
    NeverLate,
    /// It was not admitted.
    Refused,
    /// Its domain has more than one CPU.
    SeveralCpus,
    /// A task of its domain reclaims.
    Reclaiming,
    /// A task of its domain has a deadline below its period.
    ShortDeadline,
    /// The limit and one part of 2^20 for each task of its domain are above the whole.
    FullLimit,
    /// A stretch of its work is above its runtime.
    OverBudget,
    /// A timer or a sleep of it is below its period.
    NearReleases,
    /// It blocks by timers and sleeps, or waits for calls.
    MixedWaits,
}

fn is_over_budget(runtime: u64, work_max: Option<u128>) -> bool
    ensures { result ≡ spec.is_over_budget runtime work_max }
{
    match work_max {
        None => true,
        Some(work) => work > runtime as u128,
    }
}

fn is_near(period: u64, gap_min: Option<u64>) -> bool
    ensures { result ≡ spec.releases_near period gap_min }
{
    match gap_min {
        None => false,
        Some(gap) => gap < period,
    }
}

fn by_demand(params: Params, demand: Demand) -> Promise
    ensures { result ≡ spec.promise_by_demand params demand }
{
    if is_over_budget(params.runtime, demand.work_max) {
        Promise::OverBudget
    } else if is_near(params.period, demand.gap_min) {
        Promise::NearReleases
    } else if demand.alike {
        Promise::NeverLate
    } else {
        Promise::MixedWaits
    }
}

fn promise_in(state: &State, params: Params, demand: Demand) -> Promise
    ensures { result ≡ spec.promise_in state.now params demand }
{
    let listed = Listed::of(state);
    if state.cpus() > 1 {
        Promise::SeveralCpus
    } else if listed.reclaims {
        Promise::Reclaiming
    } else if listed.short {
        Promise::ShortDeadline
    } else if state.limit() + listed.count > 1048576 {
        Promise::FullLimit
    } else {
        by_demand(params, demand)
    }
}

/// The answer for the task of a number, whose script asks for this. Takes no memory.
pub fn promise_to(state: &State, number: u32, demand: Demand) -> Promise
    ensures { result ≡ spec.promise_to state.now number demand }
{
    match state.view(number) {
        None => Promise::Refused,
        Some(view) => promise_in(state, view.params, demand),
    }
}
