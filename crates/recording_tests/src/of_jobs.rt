//! From the text of a recording to the scripts of its tasks.

use recorded_jobs::{Found, Release, jobs_of_tasks};
use recorded_moments::{MomentsFault, Wanted, Watched, moments_in, put_in_order};
use recorded_scripts::{are_short, script_of};
use std::alloc::Global;
use std::test::Fail;
use task_script::Event;

pub(crate) const RECORDED: &[u8] = b"# tracer: nop
      a-11      [000] d..2.     5.000000: sched_wakeup: comm=a pid=11 prio=-1 target_cpu=000
 <idle>-0      [000] d..2.     5.000002: sched_switch: prev_comm=swapper/0 prev_pid=0 prev_prio=120 prev_state=R ==> next_comm=a next_pid=11 next_prio=-1
      a-11      [000] d..2.     5.000042: sched_switch: prev_comm=a prev_pid=11 prev_prio=-1 prev_state=R ==> next_comm=b next_pid=12 next_prio=-1
               b-12      [000] d..2.     5.000072: sched_switch: prev_comm=b prev_pid=12 prev_prio=-1 prev_state=S ==> next_comm=a next_pid=11 next_prio=-1
      a-11      [000] d..2.     5.000092: sched_switch: prev_comm=a prev_pid=11 prev_prio=-1 prev_state=S ==> next_comm=swapper/0 next_pid=0 next_prio=120
 <idle>-0      [000] d..2.     5.000100: sched_wakeup: comm=a pid=11 prio=-1 target_cpu=000
 <idle>-0      [000] d..2.     5.000100: sched_switch: prev_comm=swapper/0 prev_pid=0 prev_prio=120 prev_state=R ==> next_comm=a next_pid=11 next_prio=-1
      a-11      [000] d..2.     5.000150: sched_switch: prev_comm=a prev_pid=11 prev_prio=-1 prev_state=S ==> next_comm=swapper/0 next_pid=0 next_prio=120
";

fn wanted() -> Wanted {
    Wanted {
        any_policy: false,
        from: 0,
        to: u64::MAX,
    }
}

fn watched(name: &[u8]) -> Watched<'_> {
    Watched { name, pid: None }
}

/// The jobs of the tasks of a text.
fn found(
    alloc: Global,
    text: &[u8],
    wanted: &Wanted,
    tasks: &[Watched<'_>],
) -> Result<Found, Fail> {
    let mut moments = moments_in(alloc, text, wanted, tasks)?;
    put_in_order(&mut moments)?;
    Ok(jobs_of_tasks(alloc, &moments, tasks.len())?)
}

/// Whether the script of a task with these jobs is one round of one phase, once, of these events.
fn plays(alloc: Global, found: &Found, task: usize, events: &[Event]) -> Result<bool, Fail> {
    let Some(jobs) = found.jobs.get(task) else {
        return Ok(false);
    };
    if jobs.is_empty() || !are_short(jobs) {
        return Ok(false);
    }
    let script = script_of(alloc, jobs)?;
    Ok(match script.phases() {
        [phase] => {
            script.rounds() == Some(1) && phase.count == 1 && phase.events.as_slice() == events
        }
        _ => false,
    })
}

/// The first job of a task.
fn first_of(found: &Found, task: usize) -> Option<Release> {
    match found.jobs.get(task) {
        Some(jobs) => match jobs.first() {
            Some(release) => Some(*release),
            None => None,
        },
        None => None,
    }
}

// Task a is woken, preempted by b, goes on and blocks, and so again; b runs once.
#[test]
fn two_tasks_on_one_cpu(rt: HostRuntime) -> Result<(), Fail> {
    let tasks = [watched(b"a"), watched(b"b")];
    let found = found(rt.alloc(), RECORDED, &wanted(), &tasks)?;
    let first = [
        Event::Run(60),
        Event::Timer(100),
        Event::Run(50),
        Event::Wait,
    ];
    assert!(rt; matches!(found.cpus.as_slice(), [0]));
    assert!(rt; plays(rt.alloc(), &found, 0, &first)?);
    assert!(rt; plays(rt.alloc(), &found, 1, &[Event::Run(30), Event::Wait])?);
    assert!(rt; matches!(first_of(&found, 0), Some(r) if r.woken));
    assert!(rt; matches!(first_of(&found, 1), Some(r) if !r.woken));
    Ok(())
}

// By their numbers, and up to the moment at which b leaves: a has not ended then.
#[test]
fn a_part_of_a_recording(rt: HostRuntime) -> Result<(), Fail> {
    let tasks = [
        Watched {
            name: b"first",
            pid: Some(11),
        },
        Watched {
            name: b"second",
            pid: Some(12),
        },
    ];
    let part = Wanted {
        any_policy: false,
        from: 5_000_002,
        to: 5_000_072,
    };
    let found = found(rt.alloc(), RECORDED, &part, &tasks)?;
    assert!(rt; plays(rt.alloc(), &found, 0, &[Event::Run(1_000_000_000)])?);
    assert!(rt; plays(rt.alloc(), &found, 1, &[Event::Run(30), Event::Wait])?);
    Ok(())
}

// Of another policy, in the form of trace-cmd. The time of CPU 1 goes back.
#[test]
fn a_thread_of_another_policy(rt: HostRuntime) -> Result<(), Fail> {
    let text = b" <idle>-0 [000] 3.000010: sched_switch:    swapper/0:0 [120] R ==> a b:7 [120]
 <idle>-0 [001] 3.000005: sched_wakeup:     a b:7 [120] success=1 CPU:000
 a-7 [000] 3.000030: sched_switch:    a b:7 [120] Z ==> swapper/0:0 [120]
";
    let tasks = [watched(b"a b")];
    let mut any = wanted();
    let none = found(rt.alloc(), text, &any, &tasks)?;
    assert!(rt; first_of(&none, 0).is_none() && none.cpus.is_empty());
    any.any_policy = true;
    let one = found(rt.alloc(), text, &any, &tasks)?;
    assert!(rt; plays(rt.alloc(), &one, 0, &[Event::Run(20)])?);
    assert!(rt; matches!(first_of(&one, 0), Some(r) if r.time == 3_000_005 && r.job.gone));
    Ok(())
}

// A wake that was cut is a bad line, and the first is told.
#[test]
fn a_wake_that_was_cut(rt: HostRuntime) {
    let text = b"# tracer: nop
 a-12 [003] 16.443377: sched_wakeup: comm=b pid=13 prio=-1
 a-12 [003] 16.443377: sched_switch: ";
    let ended = moments_in(rt.alloc(), text, &wanted(), &[]);
    assert!(rt; matches!(ended, Err(MomentsFault::BadLine(2))));
}
