//! How long a charge may stay open, at which rate, and what its open charge owes.

ghost use Rattle.std.specs.Prelude.{◌≡◌, ◌<◌, ◌≤◌, ◌^◌, ◌*◌, ◌-◌, IfSome, None, Some, false, max, pos, true};
ghost use Rattle.domain_run.specs.Domain.{IsLimit};
ghost use Rattle.due_times.specs.OpenCharges.{IsAhead, IsOn};
ghost use Rattle.domain_run.specs.private.Owed as spec;
ghost use Rattle.limits.specs.Limits.{unit};

use crate::task::Task;
use crate::task_table::applying::charge;
use attr_check::UNIT;
use due_times::{Basis, Claim, OpenCharge, Rating};

/// A task is charged what the open charge of a CPU owes, where it belongs to that.
pub(super) fn charge_on(task: &mut Task, cpu: usize, open_charge: OpenCharge, upto: u64)
    requires ahead { IsAhead upto open_charge }
    requires waits { task.old.cpu ≡ cpu → spec.IsOpen open_charge task.old }
    ensures { task.new ≡ spec.charged_on cpu upto open_charge task.old }
{
    if task.cpu == cpu {
        charge(task, open_charge, upto);
    }
}

/// What is left of the budget of a task, which is above 0.
pub(super) fn left_in(task: &Task) -> u64
    requires { spec.MayStart task.now }
    ensures left { pos result ≡ task.now.server.left }
    ensures some { 0 < result }
    ensures high { result ≤ 2 ^ 52 }
{
    task.server.left as u64
}

/// For how many ticks a budget lasts at the rate one, the last of them included: a shift, and no
/// division.
#[inline(always)]
fn lasting_at_one(left: u64) -> u64
    requires left { 0 < left }
    requires high { left ≤ 2 ^ 52 }
    ensures some { 0 < result }
    ensures most { result ≤ left }
    ensures lasted { unit * (result - 1) < left }
{
    (left + (UNIT - 1)) / UNIT
}

/// For how many ticks a budget lasts at a rate, the last of them included, or for some of them: at
/// a rate of at most one it lasts as long as at one, which is a shift. That does where no more
/// ticks are wanted, and where it lasts for long: the open charge is made anew when they have
/// passed.
#[inline(always)]
pub(super) fn lasting(left: u64, rate: u64, wanted: u64) -> u64
    requires left { 0 < left }
    requires high { left ≤ 2 ^ 52 }
    requires turns { 0 < rate }
    ensures some { 0 < result }
    ensures most { result ≤ left }
    ensures lasted { rate * (result - 1) < left }
{
    if rate <= UNIT {
        let at_one = lasting_at_one(left);
        if wanted <= at_one || rate == UNIT || left > u64::from(u32::MAX) {
            return at_one;
        }
    }
    left.div_ceil(rate)
}

/// The rate of a task that does not reclaim: one on every basis.
#[inline(always)]
pub(super) fn rated_at_one(task: &Task) -> Rating
    requires { task.now.params.reclaim ≡ false }
    ensures rate { result.rate ≡ unit }
    ensures claim { result.claim ≡ None }
    ensures rated { spec.IsRatedBy result.claim result.rate task.now }
{
    Rating {
        rate: UNIT,
        claim: None,
    }
}

/// The rate of a task that reclaims, by its claim, which is kept.
#[inline(always)]
pub(super) fn rated_by(task: &Task, claim: Claim) -> Rating
    requires reclaims { task.now.params.reclaim ≡ true }
    requires bw { claim.bw ≡ task.now.params.bw }
    requires charged { claim.charged ≤ max claim.bw (2 ^ 20) }
    requires limit { IsLimit claim.limit }
    ensures some { 0 < result.rate }
    ensures slow { result.rate ≤ 2 ^ 27 }
    ensures claim { result.claim ≡ Some claim }
    ensures rated { spec.IsRatedBy result.claim result.rate task.now }
{
    // For the prover alone: a look at the parameters brings that a task has at most one CPU.
    let _ = task.params.bandwidth();
    Rating {
        rate: grub_rules::rate_for(claim.charged, claim.limit),
        claim: Some(claim),
    }
}

/// The rate of a task that reclaims, on a basis.
#[inline(always)]
pub(super) fn rated_on(task: &Task, basis: Basis) -> Rating
    requires reclaims { task.now.params.reclaim ≡ true }
    requires share { basis.share ≤ basis.limit }
    requires limit { IsLimit basis.limit }
    ensures some { 0 < result.rate }
    ensures slow { result.rate ≤ 2 ^ 27 }
    ensures claim { IfSome result.claim (IsOn basis) }
    ensures rated { spec.IsRatedBy result.claim result.rate task.now }
{
    rated_by(task, Claim::on(&basis, task.params.bandwidth()))
}

/// An open charge for a task, from a time on, at a rate.
#[inline(always)]
pub(super) fn charge_for(task: &Task, upto: u64, rating: Rating) -> OpenCharge
    requires may { spec.MayStart task.now }
    requires turns { 0 < rating.rate }
    requires slow { rating.rate ≤ 2 ^ 27 }
    requires rated { spec.IsRatedBy rating.claim rating.rate task.now }
    requires early { upto ≤ 2 ^ 62 }
    ensures number { result.number ≡ task.now.number }
    ensures since { result.since ≡ upto }
    ensures rate { result.rate ≡ rating.rate }
    ensures claim { result.claim ≡ rating.claim }
    ensures ahead { IsAhead upto result }
    ensures waits { spec.IsOpen result task.now }
{
    let spent = lasting(left_in(task), rating.rate, task.work);
    OpenCharge {
        number: task.number,
        since: upto,
        rate: rating.rate,
        claim: rating.claim,
        end: upto + task.work.min(spent),
    }
}
