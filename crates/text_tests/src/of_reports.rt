//! A comparison whose reader fails. What two traces give is a row of the table that the built
//! program runs on.

use crate::fakes::Giver;
use compare_report::{CompareFault, CompareOptions, Counted, Input, Tally, compare_texts};
use std::alloc::Global;

/// A task that is throttled inside its job, as this program writes it.
const MODEL: &str = "\
          <idle>-0       [000] d..2.     0.000000: sched_switch: prev_comm=swapper/0 prev_pid=0 prev_prio=120 prev_state=R ==> next_comm=a next_pid=1 next_prio=-1
               a-1       [000] d..2.     0.002000: sched_switch: prev_comm=a prev_pid=1 prev_prio=-1 prev_state=R+ ==> next_comm=swapper/0 next_pid=0 next_prio=120
          <idle>-0       [000] d..2.     0.005000: sched_switch: prev_comm=swapper/0 prev_pid=0 prev_prio=120 prev_state=R ==> next_comm=a next_pid=1 next_prio=-1
               a-1       [000] d..2.     0.007000: sched_switch: prev_comm=a prev_pid=1 prev_prio=-1 prev_state=X ==> next_comm=swapper/0 next_pid=0 next_prio=120
";
/// Two hours later, by lines of trace-cmd, of perf and of Linux 5.x: a run more, and one too long.
const LATER: &str = " <idle>-0 [003] 7200.000000: sched_switch:    swapper/3:0 [120] R ==> a:7 [-1]
 a 7 [003] 7200.002000:    sched:sched_switch: prev_comm=a prev_pid=7 prev_prio=-1 prev_state=S ==> next_comm=b next_pid=8 next_prio=120
               b-8       [003] d..2  7200.003000: sched_switch: prev_comm=b prev_pid=8 prev_prio=120 prev_state=R ==> next_comm=a next_pid=7 next_prio=-1
               a-7       [003] d..2  7200.003500: sched_switch: prev_comm=a prev_pid=7 prev_prio=-1 prev_state=S ==> next_comm=b next_pid=8 next_prio=120
 b-8 [000] 7200.005000: sched_switch: b:8 [120] R ==> a:7 [-1]
 a-7 [000] 7200.008001: sched_switch: a:7 [-1] S ==> swapper/0:0 [120]";

/// How a comparison ends whose second reader fails in this call, and whether one fault was counted
/// there, none of the writer, and nothing was written.
fn compared(alloc: Global, bad: usize) -> (Result<Tally, CompareFault>, bool) {
    let options = CompareOptions {
        within: 1000,
        noise: None,
        shift: None,
        cpus: true,
    };
    let mut model = Counted::new(MODEL.as_bytes());
    let mut recorded = Counted::new(Giver::new(LATER.as_bytes(), bad));
    let mut writer = Counted::new(Vec::new(alloc));
    let ended = compare_texts(alloc, &mut model, &mut recorded, &mut writer, options);
    let is_one = recorded.faults() == 1 && writer.faults() == 0;
    let written: Vec<u8> = writer.into_inner();
    (ended, is_one && written.is_empty())
}

#[test]
fn a_reader_that_fails(rt: HostRuntime) {
    for bad in [0, 400, LATER.len()] {
        let (ended, is_one) = compared(rt.alloc(), bad);
        assert!(rt; ended == Err(CompareFault::Read(Input::Recorded)));
        assert!(rt; is_one, "{bad}");
    }
}
