//! The running tasks planned and charged by several workers.

ghost use Rattle.std.specs.Prelude.{◌≡◌, ◌<◌, ◌≤◌, IfOk, IfSome, IsNone, IsSome, All, map, take, length, vec_capacity};
ghost use Rattle.std.specs.List.{AllZip};
ghost use Rattle.domain_run.specs.Jump as jump;
ghost use Rattle.tick_split.specs.Planning.{IsPlannable, IsPlanned};
ghost use Rattle.tick_split.specs.Charging.{IsChargeable, charged_slice};
ghost use Rattle.jump_run.specs.Plans.{ArePlans, IsSoundPlan, IsSmall, slice_of};
ghost use Rattle.limits.specs.Limits.{clock_end};

use crate::plan::{Room, Span, plan_of};
use domain_run::{NoMemory, State};
use std::alloc::Global;
use std::sync::Wait;
use std::thread::Threads;
use tick_split::{Plan, Slice, Turn, charge_all, plan_all};

/// So many workers, more than one, who are logged their turns, and what they are started with. One
/// worker has no such value at hand, so an advance by one starts no thread and takes no memory
/// here.
#[derive(Drop)]
pub(crate) struct Crew<'a, R, G> {
    rt: &'a R,
    alloc: Global,
    workers: usize,
    turn: &'a G,
    ghost many: { 1 < workers },
}

impl<'a, R, G> Crew<'a, R, G> {
    /// So many workers; none where that is one.
    pub(crate) fn of(
        rt: &'a R,
        alloc: Global,
        workers: usize,
        turn: &'a G,
    ) -> Option<Crew<'a, R, G>>
        ensures many { 1 < workers → IsSome result }
        ensures workers { IfSome result (λ c. c.workers ≡ workers) }
        ensures alone { workers ≤ 1 → IsNone result }
    {
        if workers > 1 {
            return Some(Crew {
                rt,
                alloc,
                workers,
                turn,
            });
        }
        None
    }

    /// The lists that they share.
    pub(crate) fn lists(&self) -> Result<Lists, NoMemory>
        ensures plans { IfOk result (λ l. vec_capacity l.plans ≡ 64) }
        ensures slices { IfOk result (λ l. vec_capacity l.slices ≡ 64) }
    {
        Ok(Lists {
            plans: Vec::with_capacity(self.alloc, 64)?,
            slices: Vec::with_capacity(self.alloc, 64)?,
        })
    }
}

/// Lists for the running tasks of a jump, at most 64. They are made once for all jumps of an
/// advance.
#[derive(Drop)]
pub(crate) struct Lists {
    pub(crate) plans: Vec<Plan>,
    pub(crate) slices: Vec<Slice>,
}

/// Lists the running tasks by CPU, and finds for how many ticks, at most `most`, nothing comes due
/// and each has work.
fn gather(state: &State, most: u64, plans: &mut Vec<Plan>) -> u64
    requires begun { jump.IsUnderWay state.now }
    requires some { 0 < most }
    requires room { vec_capacity plans.old ≡ 64 }
    ensures some { 0 < result }
    ensures most { result ≤ most }
    ensures quiet { result ≤ jump.ticks_to_event state.now }
    ensures short { result ≤ clock_end }
    ensures room { vec_capacity plans.new ≡ 64 }
    ensures many { length plans.new.items ≡ length (jump.running_numbers state.now.curr) }
    ensures few { length plans.new.items ≤ 64 }
    ensures each { ArePlans state.now result plans.new.items }
{
    plans.clear();
    let mut ticks = most.min(state.quiet());
    for i in 0..64 {
        let Some(runner) = state.running(i) else {
            return ticks;
        };
        plans.push_reserved(plan_of(state, &runner));
        ticks = ticks.min(runner.work);
    }
    ticks
}

/// Works out all plans, in one piece where a worker was not started or a growth was refused.
fn plan<R: Threads + Wait, G: Turn>(crew: &Crew<'_, R, G>, plans: &mut [Plan])
    requires plans { All IsPlannable plans.old }
    ensures each { AllZip IsPlanned plans.old plans.new }
    ensures len { length plans.new ≡ length plans.old }
{
    if plan_all(crew.rt, crew.alloc, plans, crew.workers, crew.turn).is_err() {
        let alone = plan_all(crew.rt, crew.alloc, plans, 1, crew.turn).is_ok();
        // In one piece nothing is started and no memory taken, so the answer is Ok.
        prove!(alone);
    }
}

/// Charges all slices, in one piece where a worker was not started or a growth was refused.
fn charge<R: Threads + Wait, G: Turn>(crew: &Crew<'_, R, G>, slices: &mut [Slice])
    requires slices { All IsChargeable slices.old }
    ensures { slices.new ≡ map charged_slice slices.old }
{
    if charge_all(crew.rt, crew.alloc, slices, crew.workers, crew.turn).is_err() {
        let alone = charge_all(crew.rt, crew.alloc, slices, 1, crew.turn).is_ok();
        // In one piece nothing is started and no memory taken, so the answer is Ok.
        prove!(alone);
    }
}

/// So many ticks, or fewer: up to the first after which nothing is left of a budget.
fn first_spent(plans: &[Plan], most: u64) -> u64
    requires some { 0 < most }
    requires each { All (λ p. 1 ≤ p.spent) plans.now }
    ensures some { 0 < result }
    ensures most { result ≤ most }
    ensures each { All (λ p. result ≤ p.spent) plans.now }
{
    let mut ticks = most;
    for i in 0..plans.len() {
        ticks = ticks.min(plans[i].spent);
    }
    ticks
}

/// Lists what is to be charged for so many ticks.
fn slice(plans: &[Plan], ticks: u64, slices: &mut Vec<Slice>)
    requires room { vec_capacity slices.old ≡ 64 }
    requires few { length plans.now ≤ 64 }
    ensures room { vec_capacity slices.new ≡ 64 }
    ensures each { slices.new.items ≡ map (slice_of ticks) plans.now }
{
    slices.clear();
    for i in 0..plans.len() {
        slices.push_reserved(Slice {
            left: plans[i].left,
            rate: plans[i].rate,
            ticks,
        });
    }
}

/// Writes what is left where an advance reads it.
fn put_lefts(slices: &[Slice], room: &mut Room)
    requires few { length slices.now ≤ 64 }
    requires small { All IsSmall slices.now }
    ensures { take (length slices.now) room.new.budgets ≡ map (λ s. s.left) slices.now }
{
    for i in 0..slices.len() {
        room.budgets[i] = slices[i].left;
    }
}

/// Works out all plans of a list.
fn plan_list<R: Threads + Wait, G: Turn>(crew: &Crew<'_, R, G>, plans: &mut Vec<Plan>)
    requires plans { All IsSoundPlan plans.old.items }
    ensures each { AllZip IsPlanned plans.old.items plans.new.items }
    ensures room { vec_capacity plans.new ≡ vec_capacity plans.old }
{
    plan(crew, plans.as_mut_slice());
}

/// Charges all slices of a list.
fn charge_list<R: Threads + Wait, G: Turn>(crew: &Crew<'_, R, G>, slices: &mut Vec<Slice>)
    requires slices { All IsChargeable slices.old.items }
    ensures each { slices.new.items ≡ map charged_slice slices.old.items }
    ensures room { vec_capacity slices.new ≡ vec_capacity slices.old }
{
    charge(crew, slices.as_mut_slice());
}

/// As many ticks of the tick that has begun and of the next ones as pass before the next event, and
/// at most `most`; and what they leave of the budgets of the running tasks. Each worker works out
/// its own pieces; where a worker was not started or a growth was refused, all is worked out here,
/// in one piece.
pub(crate) fn make<R: Threads + Wait, G: Turn>(
    crew: &Crew<'_, R, G>,
    state: &State,
    most: u64,
    lists: &mut Lists,
    room: &mut Room,
) -> Span
    requires begun { jump.IsUnderWay state.now }
    requires some { 0 < most }
    requires plans { vec_capacity lists.old.plans ≡ 64 }
    requires slices { vec_capacity lists.old.slices ≡ 64 }
    ensures some { 0 < result.ticks }
    ensures most { result.ticks ≤ most }
    ensures quiet { result.ticks ≤ jump.ticks_to_event state.now }
    ensures few { result.count ≤ 64 }
    ensures charged { jump.AreCharged state.now result.ticks
        (take result.count room.new.budgets) }
    ensures plans { vec_capacity lists.new.plans ≡ 64 }
    ensures slices { vec_capacity lists.new.slices ≡ 64 }
{
    let most = gather(state, most, &mut lists.plans);
    plan_list(crew, &mut lists.plans);
    let ticks = first_spent(lists.plans.as_slice(), most);
    slice(lists.plans.as_slice(), ticks, &mut lists.slices);
    charge_list(crew, &mut lists.slices);
    put_lefts(lists.slices.as_slice(), room);
    Span {
        ticks,
        count: lists.plans.len(),
    }
}
