//! A tasks file and a recording become a calls text.

use crate::of_jobs::RECORDED;
use crate::of_workload::{CALLS, TASKS};
use calls_text::read_calls;
use recording_import::{
    Counted, ImportFault, ImportInput, ImportOptions, import_jobs, import_recording,
};
use std::alloc::Global;
use std::test::Fail;

/// The jobs of the tasks, line by line.
const TABLE: [&str; 3] = [
    "#          task    jobs   woken    open   work_min   work_avg   work_max   dist_min   dist_avg   dist_max",
    "               a       2       2       0         50         55         60        100        100        100",
    "               b       1       0       0         30         30         30          -          -          -",
];

/// All of a recording.
const ALL: (u64, u64) = (0, u64::MAX);

/// How an import of this window ends, and what it wrote.
fn imported(
    alloc: Global,
    tasks: &[u8],
    recorded: &[u8],
    window: (u64, u64),
) -> (Result<(), ImportFault>, Vec<u8>) {
    let options = ImportOptions {
        cpus: None,
        limit: 996_147,
        from: window.0,
        to: window.1,
        any_policy: false,
    };
    let mut tasks = Counted::new(tasks);
    let mut recorded = Counted::new(recorded);
    let mut writer = Counted::new(Vec::new(alloc));
    let ended = import_recording(alloc, &mut tasks, &mut recorded, &mut writer, options);
    (ended, writer.into_inner())
}

/// The fault of an import that writes nothing.
fn fault_of(alloc: Global, tasks: &[u8], recorded: &[u8]) -> Option<ImportFault> {
    let (ended, written) = imported(alloc, tasks, recorded, ALL);
    if written.is_empty() {
        ended.err()
    } else {
        None
    }
}

#[test]
fn two_tasks_are_imported(rt: HostRuntime) {
    let (ended, written) = imported(rt.alloc(), TASKS, RECORDED, ALL);
    assert!(rt; ended.is_ok());
    assert!(rt; written.as_slice() == CALLS);
}

// Task a works 60 and 50 us, 100 us apart, each time after a wake line, and b 30 us without one.
#[test]
fn jobs_of_two_tasks(rt: HostRuntime) -> Result<(), Fail> {
    let alloc = rt.alloc();
    let mut tasks = Counted::new(TASKS);
    let mut recorded = Counted::new(RECORDED);
    let mut writer = Counted::new(Vec::new(alloc));
    let options = ImportOptions {
        cpus: None,
        limit: 996_147,
        from: 0,
        to: u64::MAX,
        any_policy: false,
    };
    let ended = import_jobs(alloc, &mut tasks, &mut recorded, &mut writer, options);
    let written: Vec<u8> = writer.into_inner();
    assert!(rt; ended.is_ok());
    let mut table = String::new(alloc);
    for line in &TABLE {
        table.push_str(line)?;
        table.push('\n')?;
    }
    assert!(rt; written.as_slice() == table.as_bytes());
    Ok(())
}

// Of the window of b alone, which is admitted under its own number. A stretch of a that begins at
// its end has no work.
#[test]
fn a_window_of_one_task(rt: HostRuntime) {
    let window = (5_000_042, 5_000_072);
    let (ended, written) = imported(rt.alloc(), TASKS, RECORDED, window);
    assert!(rt; ended.is_ok());
    let alone = b"dlcalls 1
domain 1 996147
admit 1 2 b 40 200 200 - 0 1:1{r30,w}
advance 1 30
";
    assert!(rt; written.as_slice() == alone.as_slice());
}

// The tasks file is read first; its fault is told, and not that of the recording.
#[test]
fn the_first_fault(rt: HostRuntime) {
    let alloc = rt.alloc();
    let bad = b" a-12 [003] 16.443377: sched_wakeup: comm=b pid=13 prio=-1";
    let both = fault_of(alloc, b"dltasks 1\n", bad);
    assert!(rt;
        matches!(
            both,
            Some(ImportFault::BadLine {
                input: ImportInput::Tasks,
                line: 2
            })
        )
    );
    let one = fault_of(alloc, TASKS, bad);
    assert!(rt;
        matches!(
            one,
            Some(ImportFault::BadLine {
                input: ImportInput::Recorded,
                line: 1
            })
        )
    );
    assert!(rt; matches!(fault_of(alloc, TASKS, b""), Some(ImportFault::NoSwitch)));
    let others = fault_of(alloc, b"dltasks 1\nc 70 100 100 -\n", RECORDED);
    assert!(rt; matches!(others, Some(ImportFault::NoTask)));
}

// The fronts of a recording are imported as texts that are read, or refused by a fault.
#[test]
fn fronts_of_a_recording(rt: HostRuntime) {
    let alloc = rt.alloc();
    for part in 0..40 {
        let end = RECORDED.len() * part / 40;
        let (ended, written) = imported(alloc, TASKS, &RECORDED[..end], ALL);
        match ended {
            Ok(()) => assert!(rt; read_calls(alloc, &written).is_ok(), "{end}"),
            Err(_) => assert!(rt; written.is_empty(), "{end}"),
        }
    }
}
