mod memory;
mod rows;

use json_order::read;
use rtapp_scenario::parse;
use std::alloc::{AllocError, Global};

/// What a text gives: its scenario with all fields, or its fault as it prints.
fn given(alloc: Global, text: &str) -> Result<String, AllocError> {
    match read(alloc, text.as_bytes()) {
        Err(fault) => format!(in alloc; "{fault}"),
        Ok(tree) => match parse(alloc, &tree) {
            Ok(scenario) => format!(in alloc; "{scenario:?}"),
            Err(fault) => format!(in alloc; "{fault}"),
        },
    }
}

/// What members between front and back give.
fn given_between(
    alloc: Global,
    front: &str,
    members: &str,
    back: &str,
) -> Result<String, AllocError> {
    let text = format!(in alloc; "{front}{members}{back}")?;
    given(alloc, text.as_str())
}

/// A text that is refused gives the answer, and the scenario of another one has the answer in it.
fn has_answer(given: &str, answer: &str) -> bool {
    if answer.starts_with("scenario ") {
        return given == answer;
    }
    given.contains(answer)
}

/// A row is members, ` => ` and an answer.
fn is_right(alloc: Global, front: &str, row: &str, back: &str) -> Result<bool, AllocError> {
    let Some((members, answer)) = row.split_once(" => ") else {
        return Ok(false);
    };
    let given = given_between(alloc, front, members, back)?;
    Ok(has_answer(given.as_str(), answer))
}

/// The first of these rows that is wrong.
fn first_wrong<'a>(
    alloc: Global,
    front: &str,
    rows: &'a str,
    back: &str,
) -> Result<Option<&'a str>, AllocError> {
    for row in rows.lines() {
        if !is_right(alloc, front, row, back)? {
            return Ok(Some(row));
        }
    }
    Ok(None)
}
