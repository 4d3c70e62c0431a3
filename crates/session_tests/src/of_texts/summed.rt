// The figures of a replay, whose runs are heard while they are made.
use dl_session::{ReplayPrint, SessionFault, replay_as};
use std::alloc::Global;
use std::test::Fail;
use switch_text::Counted;

/// Two domains. The first refuses task b, and has calls between its advances and after what they
/// tell; the second ends with what its last call tells.
const CALLS: &[u8] = b"\
dlcalls 2
domain 1 1048576
admit 1 1 a 2 5 5 - 0 1:1{r400}
admit 1 2 b 9 9 9 - 0 1:1{r4}
advance 1 11
leave 1 1
advance 1 7
admit 1 3 c 3 6 6 - 0 3:1{r1,s2}
depart 1 1
advance 1 30
domain 2 1048576
arrive 1 1 d 2 4 4 - 1:1{r100}
advance 1 9
depart 1 1
";

const SUMMARY: &[u8] = b"\
#          task    pid dom    jobs    late   resp_min   resp_avg   resp_max   slack_min \
throttled throttled_us preempted migrated       cpu_us   used%    has%
              a   1001   0       0       0          -          -          -           \
-         2            6         0        0            5   10.41   40.00
              c   1003   0       3       0          1          1          1           \
5         0            0         0        0            3    6.25   50.00
              d   1001   1       0       0          -          -          -           \
-         2            4         0        0            5   55.55   50.00
#  cpu dom      busy_us   busy%  switches
   000   0            8   16.66        12
   001   1            0    0.00         0
   002   1            5   55.55         5
#domain cpus  bandwidth        cap  taken%      time_us
      0    1          0    1048576    0.00           48
      1    2          0    2097152    0.00            9
";

/// What a replay of these calls writes for their summary, or its fault.
fn summed(alloc: Global, calls: &[u8]) -> Result<Vec<u8>, SessionFault> {
    let (mut reader, mut writer) = (Counted::new(calls), Counted::new(Vec::new(alloc)));
    replay_as(alloc, &mut reader, &mut writer, ReplayPrint::Summary)?;
    Ok(writer.into_inner())
}

#[test]
fn figures_of_two_domains(rt: HostRuntime) -> Result<(), Fail> {
    let written = summed(rt.alloc(), CALLS)?;
    assert!(rt; written.as_slice() == SUMMARY);
    Ok(())
}
