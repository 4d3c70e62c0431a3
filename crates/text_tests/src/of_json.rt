//! Trees of inputs. Inputs that are refused are rows of the table that the built program runs on.

use json_order::read;
use std::alloc::{AllocError, Global};
use std::test::Fail;

/// What an input gives: its tree, or its fault as it prints.
fn printed(alloc: Global, bytes: &[u8]) -> Result<String, AllocError> {
    match read(alloc, bytes) {
        Ok(tree) => format!(in alloc; "{tree:?}"),
        Err(fault) => format!(in alloc; "{fault}"),
    }
}

/// The first of these rows that is wrong: an input, ` => ` and what it gives.
fn first_wrong<'a>(alloc: Global, rows: &'a str) -> Result<Option<&'a str>, AllocError> {
    for row in rows.lines() {
        let Some((input, answer)) = row.split_once(" => ") else {
            return Ok(Some(row));
        };
        let given = printed(alloc, input.as_bytes())?;
        if given.as_str() != answer {
            return Ok(Some(row));
        }
    }
    Ok(None)
}

/// Among them one key in two objects, and the scenario of member_order.
const VALUES: &str = r#" null  => Null
true => Bool(true)
false  => Bool(false)
-0 => Number("-0")
10.50e+07 => Number("10.50e+07")
[ ] => List([])
[1 , [2] ,3 ] => List([Number("1"), List([Number("2")]), Number("3")])
{ } => Object([])
{ "b" : 1 , "a" : [ ] } => Object([("b", Number("1")), ("a", List([]))])
"\u0041\/\u00e9\ud83d\ude00z" => Text("A/é😀z")
"é€😀" => Text("é€😀")
"\"\\\n\r\t" => Text("\"\\\n\r\t")
"\b\f" => Text("\u{8}\u{c}")
{"b":{"a":1},"a":{"a":2}} => Object([("b", Object([("a", Number("1"))])), ("a", Object([("a", Number("2"))]))])
{"tasks":{"p":{"policy":"SCHED_DEADLINE","dl-runtime":5,"dl-period":10,"phases":{"light":{"loop":2,"run0":3,"sleep1":7},"heavy":{"run0":4,"sleep1":2,"run2":1}}}},"global":{"duration":0}} => Object([("tasks", Object([("p", Object([("policy", Text("SCHED_DEADLINE")), ("dl-runtime", Number("5")), ("dl-period", Number("10")), ("phases", Object([("light", Object([("loop", Number("2")), ("run0", Number("3")), ("sleep1", Number("7"))])), ("heavy", Object([("run0", Number("4")), ("sleep1", Number("2")), ("run2", Number("1"))]))]))]))])), ("global", Object([("duration", Number("0"))]))])"#;

#[test]
fn every_kind_of_value(rt: HostRuntime) -> Result<(), Fail> {
    if let Some(row) = first_wrong(rt.alloc(), VALUES)? {
        panic!(rt; "{row}")
    }
    Ok(())
}

/// Sixteen lists inside one another, one more, a key twice, and behind an escape.
const NESTED: &str =
    r#"[[[[[[[[[[[[[[[[null]]]]]]]]]]]]]]]] => List([List([List([List([List([List([List([List([List([List([List([List([List([List([List([List([Null])])])])])])])])])])])])])])])])
[[[[[[[[[[[[[[[[[null]]]]]]]]]]]]]]]]] => json 12 at 16
{"a":1,"b":{"a":2},"a":3} => json 13 at 21
{"a":1,"\u0061":2} => json 13 at 14"#;

#[test]
fn depth_and_keys(rt: HostRuntime) -> Result<(), Fail> {
    if let Some(row) = first_wrong(rt.alloc(), NESTED)? {
        panic!(rt; "{row}")
    }
    Ok(())
}

fn long_text(alloc: Global) -> Result<String, AllocError> {
    let mut text = String::from_str(alloc, "[")?;
    for _ in 0..300 {
        text.push_str(r#"{"k":[1,-2.5e3,"x\n",null]},"#)?;
    }
    text.push_str("01]")?;
    Ok(text)
}

#[test]
fn a_fault_after_a_long_text(rt: HostRuntime) -> Result<(), Fail> {
    let text = long_text(rt.alloc())?;
    let given = printed(rt.alloc(), text.as_bytes())?;
    assert!(rt; given.as_str() == "json 10 at 8402");
    Ok(())
}
