//! Whole runs and replays, between bytes in memory. What the built program can be asked for, whole
//! texts and hostile bytes, stands in the table that it runs on.

mod crowds;
mod runs;
mod sides;
mod summed;

const THROTTLED: &[u8] =
    b"dlcalls 1\ndomain 1 1048576\nadmit 1 1 a 2 5 5 - 0 1:1{r4}\nadvance 1 11\n";

const THROTTLED_TRACE: &[u8] = b"# tracer: nop
          <idle>-0       [000] d..2.     0.000000: sched_switch: prev_comm=swapper/0 prev_pid=0 prev_prio=120 prev_state=R ==> next_comm=a next_pid=1001 next_prio=-1
               a-1001    [000] d..2.     0.000002: sched_switch: prev_comm=a prev_pid=1001 prev_prio=-1 prev_state=R+ ==> next_comm=swapper/0 next_pid=0 next_prio=120
          <idle>-0       [000] d..2.     0.000005: sched_switch: prev_comm=swapper/0 prev_pid=0 prev_prio=120 prev_state=R ==> next_comm=a next_pid=1001 next_prio=-1
               a-1001    [000] d..2.     0.000007: sched_switch: prev_comm=a prev_pid=1001 prev_prio=-1 prev_state=X ==> next_comm=swapper/0 next_pid=0 next_prio=120
";
