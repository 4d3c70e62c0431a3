//! The tests of plans and charges, of a domain and of its jumps, apart from them, so that the gate
//! proves each of those crates once.
#![tactic(auto)]

#[cfg(test)]
mod buffered;
#[cfg(test)]
mod logged_run;
#[cfg(test)]
mod of_domain;
#[cfg(test)]
mod of_jumps;
#[cfg(test)]
mod of_ticks;
#[cfg(test)]
mod seen;
#[cfg(test)]
mod switches;
#[cfg(test)]
mod workers;
