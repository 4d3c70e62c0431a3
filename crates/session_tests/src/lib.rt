//! The tests of sessions, of `run` and of `replay`, apart from the crates that they try, so that
//! the gate proves each of those once.
#![tactic(auto)]

#[cfg(test)]
mod begun;
#[cfg(test)]
mod of_sessions;
#[cfg(test)]
mod of_texts;
