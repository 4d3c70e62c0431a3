//! Tables of texts and what they give: the keys at the ends of what they take, and each fault as it
//! prints.
use super::*;
use std::test::Fail;

/// A root with one thread `a`, up to its members.
const THREAD: &str = r#"{"global":{"duration":1},"tasks":{"a":{"#;
/// The same with an event and a policy in front.
const TIMES: &str = r#"{"global":{"duration":1},"tasks":{"a":{"run":1,"policy":"SCHED_DEADLINE","#;
/// The same with a policy and a runtime in front.
const TASK: &str =
    r#"{"global":{"duration":1},"tasks":{"a":{"policy":"SCHED_DEADLINE","dl-runtime":100,"#;
/// What stands behind the members of that thread.
const END: &str = "}}}";

const NO_TASKS: &str = r#"{"tasks":{},"global":{"duration":1}} => scenario 20
{"tasks":[],"global":{"duration":1}} => scenario 20
{"global":{"duration":61},"other":1} => scenario 20
[] => scenario 20"#;

/// The order of members, and all that a scenario has.
const ORDER: &str =
    r#"{"tasks":{"p":{"policy":"SCHED_DEADLINE","dl-runtime":5,"dl-period":10,"phases":{"light":{"loop":2,"run0":3,"sleep1":7},"heavy":{"run0":4,"sleep1":2,"run2":1}}}},"global":{"duration":0}} => Scenario { duration_us: 0, tasks: [TaskSpec { number: 1, name: Name { text: "p" }, attr: SchedAttr { policy: 6, flags: 0, runtime: 5000, deadline: 10000, period: 10000 }, cpus: None, delay: 0, script: Script { rounds: None, phases: [Phase { count: 2, events: [Run(3), Sleep(7)] }, Phase { count: 1, events: [Run(4), Sleep(2), Run(1)] }] } }] }"#;

const ROOTS: &str = r#"{"tasks":{"a":1}} => scenario 21
{"tasks":{"a":1},"global":1} => scenario 21
{"tasks":{"a":1},"global":{"duration":-1}} => scenario 21
{"tasks":{"a":1},"global":{"duration":1.0}} => scenario 21
{"tasks":{"a":1},"global":{"duration":61},"other":1} => scenario 21
{"tasks":{"a":{"run":1}},"global":{"duration":1},"resources":{}} => scenario 22 key resources
{"tasks":{"a":1},"global":{"calibration":"CPU0","duration":60}} => scenario 23 key a
{"tasks":{"a":1},"global":{"duration":-0}} => scenario 23 key a
{"tasks":{"":1},"global":{"duration":1}} => scenario 24
{"tasks":{"a b":1},"global":{"duration":1}} => scenario 24
{"tasks":{"\u007f":1},"global":{"duration":1}} => scenario 24
{"tasks":{"a":{"run":1}},"global":{"duration":1}} => scenario 25"#;

const PROFILE: &str = r#""runtime":5 => scenario 22 key runtime
"sleep":0 => scenario 27
"instance":2,"run":5,"timer":{"ref":"tick","period":1000} => scenario 22 key ref
"instance":2,"run":5,"timer":{"ref":"unique","period":1000} => number: 2, name: Name { text: "a-1" }
"instance":1,"run":5,"timer":{"ref":"tick","period":1000} => number: 1, name: Name { text: "a" }
"run":4,"timer":{"ref":"unique","period":8} => events: [Run(4), Timer(8)]"#;

/// What is missing is told behind the members.
const MISSING: &str = r#""run":1 => scenario 25
"policy":"SCHED_OTHER" => scenario 25
"policy":6 => scenario 25
"policy":"SCHED_DEADLINE" => scenario 23 key dl-runtime
"policy":"SCHED_DEADLINE","dl-runtime":0 => scenario 27"#;

const OF_TIMES: &str = r#""priority":1 => scenario 23 key dl-runtime
"dl-runtime":-1 => scenario 23 key dl-runtime
"dl-runtime":1e3 => scenario 23 key dl-runtime
"dl-runtime":0 => flags: 0, runtime: 0, deadline: 0, period: 0 }
"dl-runtime":9000000000000000 => runtime: 9000000000000000000, deadline: 9000000000000000000,
"dl-runtime":9000000000000001 => scenario 23 key dl-runtime
"dl-runtime":5,"dl-period":7 => policy: 6, flags: 0, runtime: 5000, deadline: 7000, period: 7000 }
"dl-runtime":5,"dl-period":9000000000000001 => scenario 23 key dl-period
"dl-runtime":5,"dl-deadline":0 => runtime: 5000, deadline: 0, period: 5000 }
"dl-deadline":7,"dl-period":0,"dl-runtime":5 => runtime: 5000, deadline: 7000, period: 0 }
"dl-runtime":5,"dl-deadline":9000000000000001 => scenario 23 key dl-deadline"#;

const KEYS: &str = r#""run":1,"instance":0 => scenario 23 key instance
"run":1,"instance":256 => number: 256, name: Name { text: "a-255" }
"run":1,"instance":257 => scenario 23 key instance
"run":1,"loop":-2 => scenario 23 key loop
"run":1,"loop":-1 => rounds: None
"run":1,"loop":-0 => scenario 23 key loop
"run":1,"loop":1 => rounds: Some(1)
"run":1,"loop":1000000000 => rounds: Some(1000000000)
"run":1,"loop":1000000001 => scenario 23 key loop
"run":1,"delay":-0 => delay: 0,
"run":1,"delay":1000000000 => delay: 1000000000,
"run":1,"delay":1000000001 => scenario 23 key delay
"run":1,"delay":9223372036854775808 => scenario 23 key delay
"run":1,"delay":99999999999999999999 => scenario 23 key delay
"run":1,"priority":[{}] => cpus: None
"run":1,"cpus":[] => scenario 23 key cpus
"run":1,"cpus":[511,-0] => cpus: Some([511, 0])
"run":1,"cpus":[512] => scenario 23 key cpus
"run":1,"cpus":[0,-0] => scenario 23 key cpus
"run":1,"cpus":["1"] => scenario 23 key cpus
"run":1,"cpus":3 => scenario 23 key cpus
"run":1,"policy2":3 => scenario 22 key policy2
"run":1,"RUN":3 => scenario 22 key RUN
"run":1,"":3 => scenario 22 key "#;

const EVENTS: &str = r#""run":-1 => scenario 23 key run
"run":1000000000,"sleep":0 => events: [Run(1000000000)]
"run":1000000001 => scenario 23 key run
"run07":-1 => scenario 23 key run07
"run1a":3 => scenario 22 key run1a
"sleep":1 => events: [Sleep(1)]
"sleep":1000000001 => scenario 23 key sleep
"sleep":"1" => scenario 23 key sleep
"timer12":[] => scenario 23 key timer12
"timer":{} => scenario 23 key ref
"timer":{"ref":"a"} => scenario 23 key period
"timer":{"ref":1,"period":1} => scenario 23 key ref
"timer":{"period":0} => scenario 23 key period
"timer":{"ref":"a","period":1000000000,"mode":"relative"} => events: [Timer(1000000000)]
"timer":{"ref":"a","period":1000000001} => scenario 23 key period
"timer":{"ref":"a","period":1,"mode":"absolute"} => scenario 22 key mode
"timer":{"ref":"a","period":1,"mood":1} => scenario 22 key mood
"timer":{"ref":"a","period":1},"timer1":{"period":1,"ref":"b"} => scenario 22 key ref"#;

const PHASES: &str = r#""phases":[] => scenario 23 key phases
"phases":{} => scenario 23 key phases
"phases":{"p":1} => scenario 23 key p
"phases":{"p":{"run":1,"delay":1}} => scenario 22 key delay
"phases":{"p":{"run":1,"loop":0}} => scenario 23 key loop
"phases":{"p":{"run":1,"loop":1000000000}} => count: 1000000000, events: [Run(1)]
"phases":{"p":{"run":1},"q":{}} => scenario 27
"phases":{"p":{"run":1}},"run":"x" => scenario 22 key run
"run":0,"phases":7 => scenario 22 key phases
"delay":0 => scenario 27"#;

/// A root of these threads.
const THREADS: &str = r#"{"global":{"duration":1},"tasks":{"#;

/// Names, also those of several tasks of one thread, and timers that threads would share.
const NAMED: &str =
    r#""~":{"policy":"SCHED_DEADLINE","dl-runtime":5,"run":1} => name: Name { text: "~" }
"a23456789b123456789c123456789d123456789e123456789f123456789g1234":{"policy":"SCHED_DEADLINE","dl-runtime":5,"run":1} => name: Name { text: "a23456789b12345" },
"a23456789b123456789c123456789d123456789e123456789f123456789g12345":{} => scenario 24
"a-name-of-14-b":{"policy":"SCHED_DEADLINE","dl-runtime":5,"run":1,"instance":2} => number: 2, name: Name { text: "a-name-of-14-b-" },
"a":{"policy":"SCHED_DEADLINE","dl-runtime":5,"timer":{"ref":"t","period":1}},"b":{"policy":"SCHED_DEADLINE","dl-runtime":5,"timer":{"ref":"t","period":1}} => scenario 22 key ref
"a":{"policy":"SCHED_DEADLINE","dl-runtime":5,"timer":{"ref":"","period":1}},"b":{"policy":"SCHED_DEADLINE","dl-runtime":5,"timer":{"ref":"t","period":1}} => number: 2, name: Name { text: "b" },
"a":{"policy":"SCHED_DEADLINE","dl-runtime":5,"run":1,"instance":256},"b":{"policy":"SCHED_DEADLINE","dl-runtime":5,"run":1} => scenario 26"#;

/// What stands in front of the members of each row, the rows, and what stands behind.
const TABLES: [(&str, &str, &str); 10] = [
    ("", NO_TASKS, ""),
    ("", ORDER, ""),
    ("", ROOTS, ""),
    (TASK, PROFILE, END),
    (THREAD, MISSING, END),
    (TIMES, OF_TIMES, END),
    (TASK, KEYS, END),
    (TASK, EVENTS, END),
    (TASK, PHASES, END),
    (THREADS, NAMED, "}}"),
];

/// The first wrong row of all these tables.
fn first_wrong_of_all(alloc: Global) -> Result<Option<&'static str>, AllocError> {
    for (front, rows, end) in &TABLES {
        if let Some(row) = first_wrong(alloc, front, rows, end)? {
            return Ok(Some(row));
        }
    }
    Ok(None)
}

#[test]
fn every_row(rt: HostRuntime) -> Result<(), Fail> {
    if let Some(row) = first_wrong_of_all(rt.alloc())? {
        panic!(rt; "{row}")
    }
    Ok(())
}
