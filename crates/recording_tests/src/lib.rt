//! The tests of the crates that find the jobs of a recording and write its workload, apart from
//! them, so that the gate proves each of those once.
#![tactic(auto)]

#[cfg(test)]
mod of_import;
#[cfg(test)]
mod of_jobs;
#[cfg(test)]
mod of_workload;
