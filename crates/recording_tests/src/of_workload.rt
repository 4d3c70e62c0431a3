//! Tasks files, and the calls text of a recording.

use crate::of_jobs::RECORDED;
use calls_text::read_calls;
use recorded_jobs::{Leave, Moment, What};
use recorded_moments::{Wanted, Watched, moments_in, put_in_order};
use recorded_workload::{Shape, WorkloadFault, workload_of, workload_text};
use std::alloc::Global;
use std::test::Fail;
use tasks_text::{Task, TasksFault, read_tasks};

pub(crate) const TASKS: &[u8] = b"dltasks 1\na 70 100 100 -\nb 40 200 200 -\n";

pub(crate) const CALLS: &[u8] = b"dlcalls 1
domain 1 996147
admit 1 1 a 70 100 100 - 0 1:1{r60,t100,r50,w}
admit 1 2 b 40 200 200 - 42 1:1{r30,w}
advance 1 150
";

const SHAPE: Shape = Shape {
    cpus: None,
    limit: 996_147,
};

/// The first bad line of a tasks file; 0 if it has none, and 1000 for want of memory.
fn bad_line(alloc: Global, text: &[u8]) -> u64 {
    match read_tasks(alloc, text) {
        Ok(_) => 0,
        Err(TasksFault::BadLine { n }) => n,
        Err(TasksFault::Memory) => 1000,
    }
}

#[test]
fn first_bad_lines(rt: HostRuntime) {
    let alloc = rt.alloc();
    assert!(rt; bad_line(alloc, TASKS) == 0);
    assert!(rt; bad_line(alloc, b"") == 1);
    assert!(rt; bad_line(alloc, b"dltasks 2\na 70 100 100 -\n") == 1);
    assert!(rt; bad_line(alloc, b"dltasks 1\n") == 2);
    assert!(rt; bad_line(alloc, b"dltasks 1\na 70 100 100 -") == 2);
    assert!(rt; bad_line(alloc, b"dltasks 1\na 70 100 100 -\na 40 200 200 -\nx\n") == 3);
    assert!(rt; bad_line(alloc, b"dltasks 1\na 70 100 100 -\n\n") == 3);
    assert!(rt; bad_line(alloc, b"dltasks 1\na 70 60 100 -\n") == 2);
    assert!(rt; bad_line(alloc, b"dltasks 1\na 070 100 100 -\n") == 2);
    assert!(rt; bad_line(alloc, b"dltasks 1\na 70 100 100 - 0\n") == 2);
    assert!(rt; bad_line(alloc, b"dltasks 1\na 70 100 100 R\n") == 0);
    assert!(rt; bad_line(alloc, b"dltasks 1\na= 70 100 100 -\n") == 2);
    assert!(rt; bad_line(alloc, b"dltasks 1\na=b 70 100 100 -\n") == 2);
    assert!(rt; bad_line(alloc, b"dltasks 1\na=07 70 100 100 -\n") == 2);
}

// By the number of the thread.
#[test]
fn a_task_of_a_number(rt: HostRuntime) -> Result<(), Fail> {
    let tasks = read_tasks(rt.alloc(), b"dltasks 1\nx=12 70 100 100 R\n")?;
    let [task] = tasks.as_slice() else {
        panic!(rt; "one task");
    };
    assert!(rt; task.name.as_str() == "x" && task.pid == Some(12));
    assert!(rt; task.params.runtime == 70 && task.params.reclaim);
    Ok(())
}

/// The moments of a recording for these tasks.
fn moments_of(alloc: Global, recorded: &[u8], tasks: &[Task]) -> Result<Vec<Moment>, Fail> {
    let mut watched = Vec::new(alloc);
    for task in tasks {
        watched.push(Watched {
            name: task.name.as_str().as_bytes(),
            pid: task.pid,
        })?;
    }
    let wanted = Wanted {
        any_policy: false,
        from: 0,
        to: u64::MAX,
    };
    Ok(moments_in(alloc, recorded, &wanted, &watched)?)
}

#[test]
fn two_tasks_become_a_calls_text(rt: HostRuntime) -> Result<(), Fail> {
    let alloc = rt.alloc();
    let tasks = read_tasks(alloc, TASKS)?;
    let mut moments = moments_of(alloc, RECORDED, &tasks)?;
    put_in_order(&mut moments)?;
    let Ok(section) = workload_of(alloc, &moments, &tasks, &SHAPE) else {
        panic!(rt; "a workload");
    };
    let text = workload_text(alloc, section)?;
    assert!(rt; text.as_slice() == CALLS);
    assert!(rt; read_calls(alloc, &text).is_ok());
    Ok(())
}

/// A moment at which task 0 comes to the CPU or leaves it.
fn moment(time: u64, leaves: bool) -> Moment {
    let (leaves, comes) = if leaves {
        (Some(0), None)
    } else {
        (None, Some(0))
    };
    Moment {
        time,
        cpu: 0,
        what: What::Switch {
            leaves,
            how: Leave::Blocked,
            comes,
        },
    }
}

/// So many jobs of task 0, each of 1 us and so long after the one before.
fn jobs(alloc: Global, count: u64, distance: u32) -> Result<Vec<Moment>, Fail> {
    let mut moments = Vec::new(alloc);
    let mut time: u64 = 5;
    for _ in 0..count {
        moments.push(moment(time, false))?;
        moments.push(moment(time.saturating_add(1), true))?;
        time = time.saturating_add(u64::from(distance));
    }
    put_in_order(&mut moments)?;
    Ok(moments)
}

/// Why these moments of task 0 have no workload.
fn fault_of(alloc: Global, moments: &mut Vec<Moment>) -> Result<Option<WorkloadFault>, Fail> {
    put_in_order(moments)?;
    let tasks = read_tasks(alloc, TASKS)?;
    match workload_of(alloc, moments, &tasks, &SHAPE) {
        Ok(_) => Ok(None),
        Err(fault) => Ok(Some(fault)),
    }
}

#[test]
fn no_workload(rt: HostRuntime) -> Result<(), Fail> {
    let alloc = rt.alloc();
    let none = fault_of(alloc, &mut Vec::new(alloc))?;
    assert!(rt; matches!(none, Some(WorkloadFault::NoTask)));
    let all = fault_of(alloc, &mut jobs(alloc, 2048, 10)?)?;
    assert!(rt; all.is_none());
    let many = fault_of(alloc, &mut jobs(alloc, 2049, 10)?)?;
    assert!(rt;
        matches!(
            many,
            Some(WorkloadFault::ManyJobs {
                task: 0,
                jobs: 2049
            })
        )
    );
    let slept = fault_of(alloc, &mut jobs(alloc, 2, 1_000_000_000)?)?;
    assert!(rt; slept.is_none());
    let long = fault_of(alloc, &mut jobs(alloc, 2, 1_000_000_001)?)?;
    assert!(rt; matches!(long, Some(WorkloadFault::LongSleep { task: 0 })));
    Ok(())
}
