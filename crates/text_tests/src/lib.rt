//! The tests of the crates that read and write texts, apart from them, so that the gate proves each
//! of those once.
#![tactic(auto)]

#[cfg(test)]
mod fakes;
#[cfg(test)]
mod of_counting;
#[cfg(test)]
mod of_json;
#[cfg(test)]
mod of_reports;
#[cfg(test)]
mod of_scenario;
