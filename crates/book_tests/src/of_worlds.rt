use bw_world::{NoMemory, Outcome, Step, Word, World};
use std::test::Fail;

// A word of half a CPU.
fn half(used: u64) -> Word {
    Word { cap: 524288, used }
}

fn take(ticket: u64, bw: u64, used: u64) -> Step {
    Step::Take {
        ticket,
        domain: 0,
        bw,
        expected: half(used),
    }
}

// Each step of the worked row, and its answer.
fn world_steps() -> [(Step, Outcome); 10] {
    let regrade = Step::Regrade {
        ticket: 1,
        bw: 131072,
        expected: half(524288),
    };
    let enter = Step::Enter {
        ticket: 1,
        number: 7,
    };
    [
        (Step::Load { domain: 0 }, Outcome::Saw(half(0))),
        (take(1, 262144, 0), Outcome::Done),
        (take(2, 262144, 0), Outcome::Lost(half(262144))),
        (take(2, 262144, 262144), Outcome::Done),
        (take(3, 1, 524288), Outcome::Over(half(524288))),
        (enter, Outcome::Done),
        (Step::Give { ticket: 1 }, Outcome::Not),
        (regrade, Outcome::Done),
        (Step::Release { ticket: 1 }, Outcome::Done),
        (Step::Give { ticket: 1 }, Outcome::Done),
    ]
}

// Run with each allocation refused in turn: a world that was refused can be opened then, and the
// steps after those that are applied can be done.
#[test]
fn world_steps_by_run_all(rt: HostRuntime) -> Result<(), Fail> {
    let mut world = match World::open(rt.alloc(), &[524288]) {
        Ok(world) => world,
        Err(NoMemory) => World::open(rt.alloc(), &[524288])?,
    };
    let steps = world_steps().map(|row| row.0);
    let outcomes = world_steps().map(|row| row.1);
    match world.run_all(&steps) {
        Ok(all) => assert!(rt; all.as_slice() == outcomes.as_slice()),
        Err(NoMemory) => {
            let applied = world.applied();
            let rest = world.run_all(&steps[applied..])?;
            assert!(rt; rest.as_slice() == &outcomes[applied..]);
        }
    }
    Ok(())
}
