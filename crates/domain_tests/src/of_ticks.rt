//! Plans and charges of many running tasks, by one worker and by several.

ghost use Rattle.std.specs.Prelude.{◌<◌, All, IfOk};
ghost use Rattle.tick_split.specs.Planning.{IsPlannable};
ghost use Rattle.tick_split.specs.Charging.{IsChargeable};

use crate::seen::{InOrder, Logged, Tally};
use attr_check::{AttrRefusal, SchedAttr, check};
use jump_run::Silent;
use std::alloc::{AllocError, Global};
use std::sync::Wait;
use std::test::Fail;
use std::thread::Threads;
use std::time::Clock;
use tick_split::{Plan, Slice, StartFault, charge_all, plan_all};

// Half of a CPU, reclaiming, alone in a domain of one CPU with a limit of 0.95.
fn half(left: u32) -> Result<Plan, AttrRefusal>
    requires { 0 < left }
    ensures { IfOk result IsPlannable }
{
    let params = check(&SchedAttr {
        policy: 6,
        flags: 2,
        runtime: 4000,
        deadline: 8000,
        period: 8000,
    })?;
    Ok(Plan {
        params,
        uinact: 0,
        sum: 524288,
        cpus: 1,
        limit: 996147,
        left: i128::from(left),
        rate: 0,
        spent: 0,
    })
}

fn plans() -> Result<[Plan; 3], AttrRefusal>
    ensures { IfOk result (All IsPlannable) }
{
    Ok([half(4194304)?, half(551883)?, half(551884)?])
}

fn eight_plans() -> Result<[Plan; 8], AttrRefusal>
    ensures { IfOk result (All IsPlannable) }
{
    Ok([half(551883)?; 8])
}

const PLANNED: [(u64, u64); 3] = [(551883, 8), (551883, 1), (551883, 2)];

fn outcomes(plans: &[Plan; 3]) -> [(u64, u64); 3] {
    let [a, b, c] = plans;
    [(a.rate, a.spent), (b.rate, b.spent), (c.rate, c.spent)]
}

fn slices() -> [Slice; 3]
    ensures { All IsChargeable result }
{
    [
        Slice {
            left: 4194304,
            rate: 551883,
            ticks: 8,
        },
        Slice {
            left: 2097152,
            rate: 1048576,
            ticks: 2,
        },
        Slice {
            left: 1,
            rate: 1,
            ticks: 60000000,
        },
    ]
}

fn eight_slices() -> [Slice; 8]
    ensures { All IsChargeable result }
{
    let [a, b, c] = slices();
    [a, b, c, a, b, c, a, b]
}

const CHARGED: [i128; 3] = [-220760, 0, -59999999];

fn lefts(slices: &[Slice; 3]) -> [i128; 3] {
    [slices[0].left, slices[1].left, slices[2].left]
}

// Whether two workers plan in this order without one being late.
fn plans_in_order<R: Threads + Wait + Clock + Sync>(
    rt: &R,
    alloc: Global,
    first: usize,
) -> Result<bool, Fail> {
    let mut all = plans()?;
    let order = InOrder::new(rt, first);
    plan_all(rt, alloc, &mut all, 2, &order)?;
    let (_, _, late) = order.logged();
    Ok(!late)
}

// Whether two workers charge in this order without one being late.
fn charges_in_order<R: Threads + Wait + Clock + Sync>(
    rt: &R,
    alloc: Global,
    first: usize,
) -> Result<bool, StartFault> {
    let mut all = slices();
    let order = InOrder::new(rt, first);
    charge_all(rt, alloc, &mut all, 2, &order)?;
    let (_, _, late) = order.logged();
    Ok(!late)
}

// all-workers-on-one-thread: in either order of two pieces, who works on the one waits for who
// works on the other.
#[test]
fn two_workers_wait_for_each_other(rt: HostRuntime) -> Result<(), Fail> {
    assert!(rt; plans_in_order(&rt, rt.alloc(), 0)?);
    assert!(rt; plans_in_order(&rt, rt.alloc(), 1)?);
    assert!(rt; charges_in_order(&rt, rt.alloc(), 0)?);
    assert!(rt; charges_in_order(&rt, rt.alloc(), 1)?);
    Ok(())
}

// What is told of the turns when these slices are charged by so many workers.
fn turns_of<R: Threads + Wait>(
    rt: &R,
    host: HostRuntime,
    all: &mut [Slice],
    workers: usize,
) -> Result<Logged, StartFault>
    requires some { 0 < workers }
    requires all { All IsChargeable all.old }
{
    let tally = Tally::new(host);
    charge_all(rt, host.alloc(), all, workers, &tally)?;
    Ok(tally.logged())
}

// What is told of the turns when these plans are made by so many workers.
fn turns_of_plans<R: Threads + Wait>(
    rt: &R,
    host: HostRuntime,
    all: &mut [Plan],
    workers: usize,
) -> Result<Logged, StartFault>
    requires some { 0 < workers }
    requires all { All IsPlannable all.old }
{
    let tally = Tally::new(host);
    plan_all(rt, host.alloc(), all, workers, &tally)?;
    Ok(tally.logged())
}

// The turns of three slices and of three plans, where so many workers are asked for.
fn turns_of_three<R: Threads + Wait>(
    rt: &R,
    host: HostRuntime,
    workers: usize,
) -> Result<[Logged; 2], Fail>
    requires { 0 < workers }
{
    let charged = turns_of(rt, host, &mut slices(), workers)?;
    Ok([charged, turns_of_plans(rt, host, &mut plans()?, workers)?])
}

// The same of eight.
fn turns_of_eight<R: Threads + Wait>(
    rt: &R,
    host: HostRuntime,
    workers: usize,
) -> Result<[Logged; 2], Fail>
    requires { 0 < workers }
{
    let charged = turns_of(rt, host, &mut eight_slices(), workers)?;
    Ok([
        charged,
        turns_of_plans(rt, host, &mut eight_plans()?, workers)?,
    ])
}

// There are as many pieces as workers, but no more than elements. One piece is worked on by the
// caller itself, and each of several by somebody else.
#[test]
fn each_piece_has_one_turn(rt: HostRuntime) -> Result<(), Fail> {
    assert!(rt; turns_of(&rt, rt, &mut [], 8)?.is(0, 0));
    for (workers, ones, elsewhere) in [(1, 0x1, 0), (2, 0x11, 4), (8, 0x111, 6)] {
        let [charged, planned] = turns_of_three(&rt, rt, workers)?;
        assert!(rt; charged.is(ones, elsewhere) && planned.is(ones, elsewhere));
    }
    for (workers, ones, elsewhere) in [
        (1, 0x1, 0),
        (3, 0x111, 6),
        (8, 0x11111111, 16),
        (9, 0x11111111, 16),
    ] {
        let [charged, planned] = turns_of_eight(&rt, rt, workers)?;
        assert!(rt; charged.is(ones, elsewhere) && planned.is(ones, elsewhere));
    }
    Ok(())
}

// With the first growth refused (`rt try --test --fail-alloc 1`) this fails at its assertion, since
// that growth is the one behind the plans and charges: one piece asked for none.
#[test]
fn one_piece_takes_no_memory(rt: HostRuntime) -> Result<(), Fail> {
    let mut all = plans()?;
    plan_all(&rt, rt.alloc(), &mut all, 1, &Silent)?;
    charge_all(&rt, rt.alloc(), &mut slices(), 1, &Silent)?;
    let block: Result<Vec<u8>, AllocError> = Vec::with_capacity(rt.alloc(), 1);
    let has_memory = block.is_ok();
    assert!(rt; has_memory);
    Ok(())
}

// Run with each growth refused in turn, and where no thread or one alone can be started: the plans
// are as before, and one worker then makes them.
#[test]
fn refused_growth_of_plan_all(rt: HostRuntime) -> Result<(), Fail> {
    let mut all = plans()?;
    if plan_all(&rt, rt.alloc(), &mut all, 2, &Silent).is_err() {
        let before = plans()?;
        assert!(rt; all == before);
        plan_all(&rt, rt.alloc(), &mut all, 1, &Silent)?;
    }
    assert!(rt; outcomes(&all) == PLANNED);
    Ok(())
}

// Run with each growth refused in turn, and where no thread or one alone can be started: the slices
// are as before, and one worker then charges them.
#[test]
fn refused_growth_of_charge_all(rt: HostRuntime) -> Result<(), Fail> {
    let mut all = slices();
    if charge_all(&rt, rt.alloc(), &mut all, 2, &Silent).is_err() {
        assert!(rt; all == slices());
        charge_all(&rt, rt.alloc(), &mut all, 1, &Silent)?;
    }
    assert!(rt; lefts(&all) == CHARGED);
    Ok(())
}
