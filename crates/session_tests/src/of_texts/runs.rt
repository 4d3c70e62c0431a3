// Whole runs of scenarios, between bytes in memory.
use crate::begun::options_on;
use dl_session::{AllPass, Print, SessionFault, run};
use std::alloc::Global;
use std::sync::Wait;
use std::test::Fail;
use std::thread::Threads;
use switch_text::Counted;

pub(super) const RACE: &[u8] =
    br#"{"tasks":{"t":{"instance":8,"policy":"SCHED_DEADLINE","dl-runtime":500,"dl-period":1000,"run":100,"sleep":900}},"global":{"duration":0}}"#;

/// A task of half a CPU for a second, and for no time.
const ONE: [&[u8]; 2] = [
    br#"{"tasks":{"t":{"policy":"SCHED_DEADLINE","dl-runtime":500,"dl-period":1000,"run":100}},"global":{"duration":1}}"#,
    br#"{"tasks":{"t":{"policy":"SCHED_DEADLINE","dl-runtime":500,"dl-period":1000,"run":100}},"global":{"duration":0}}"#,
];

/// What is promised of it: it works without end.
const PROMISES: &[u8] = b"\
#          task    pid dom   work_max    gap_min promise
              t   1001   0          -          - over budget
";

/// A run of this scenario in a book of one entry: what is used of the word, or none where the book
/// is full; and what is written.
fn run_in_one_entry<R: Threads + Wait + Sync>(
    rt: &R,
    alloc: Global,
    text: &[u8],
    print: Print,
) -> Result<(Option<u64>, Vec<u8>), Fail> {
    let mut options = options_on(vec![in alloc; 1]?, 996147, 1, 1);
    options.print = print;
    let (mut reader, mut writer) = (Counted::new(text), Counted::new(Vec::new(alloc)));
    let used = match run(rt, alloc, &mut reader, &mut writer, &options, &AllPass) {
        Ok(report) => report.words.first().copied(),
        Err(SessionFault::Full) => None,
        Err(fault) => return Err(Fail::from(fault)),
    };
    Ok((used, writer.into_inner()))
}

// A book of one entry has no room for the advance behind an admission, and is told to be full, also
// where the run is heard: that is no want of memory. Without an advance it has room, and promises
// make none.
#[test]
fn history_of_one_entry(rt: HostRuntime) -> Result<(), Fail> {
    let [second, moment] = ONE;
    let (used, written) = run_in_one_entry(&rt, rt.alloc(), second, Print::Trace)?;
    assert!(rt; used.is_none() && written.is_empty());
    let (used, written) = run_in_one_entry(&rt, rt.alloc(), second, Print::Summary)?;
    assert!(rt; used.is_none() && written.is_empty());
    let (used, written) = run_in_one_entry(&rt, rt.alloc(), moment, Print::Trace)?;
    assert!(rt; used == Some(524288) && written.as_slice() == b"# tracer: nop\n".as_slice());
    let (used, written) = run_in_one_entry(&rt, rt.alloc(), second, Print::Promises)?;
    assert!(rt; used == Some(524288) && written.as_slice() == PROMISES);
    Ok(())
}
