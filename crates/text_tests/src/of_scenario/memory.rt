//! Where a growth is refused, `parse` answers Memory, else what it always does: `rt try --test
//! --fail-alloc N` refuses the Nth.
use super::*;

/// The text gives this answer, unless a growth is refused: then that is told.
fn is_logged(alloc: Global, text: &str, answer: &str) -> bool {
    match given(alloc, text) {
        Ok(given) => {
            let given = given.as_str();
            given.ends_with(answer) || given == "scenario 28" || given == "json 15 at 0"
        }
        Err(_) => true,
    }
}

/// Every part of a scenario that takes memory.
const MADE: &str =
    r#"{"tasks":{"p":{"policy":"SCHED_DEADLINE","dl-runtime":5,"instance":2,"cpus":[1,0],"phases":{"a":{"loop":2,"run":3,"sleep":7},"b":{"timer":{"ref":"unique","period":9}}}},"q":{"policy":"SCHED_DEADLINE","dl-runtime":6,"run":1}},"global":{"duration":1}}"#;

/// A fault behind tasks that are made.
const REFUSED: &str =
    r#"{"tasks":{"p":{"policy":"SCHED_DEADLINE","dl-runtime":5,"instance":2,"cpus":[1,0],"run":3},"q":{"policy":"SCHED_DEADLINE","run":1,"dl-runtime":-1}},"global":{"duration":1}}"#;

#[test]
fn the_answer_or_memory(rt: HostRuntime) {
    assert!(rt; is_logged(rt.alloc(), MADE, "[Run(1)] }] } }] }"));
    assert!(rt; is_logged(rt.alloc(), REFUSED, "scenario 23 key dl-runtime"));
}
