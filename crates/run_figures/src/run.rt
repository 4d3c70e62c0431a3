//! One domain's run, as figures are made of it.

use domain_run::{Happened, Switch};

/// A task that was admitted, with its parameters as they are at the end.
#[derive(Clone, Copy)]
pub struct Admitted {
    /// 1 to 65535.
    pub number: u32,
    /// Runtime in each period, in microseconds.
    pub runtime: u64,
    /// Period, in microseconds.
    pub period: u64,
}

/// One domain's run, from time 0.
#[derive(Clone, Copy)]
pub struct Run<'a> {
    /// How many CPUs the domain has, 1 to 64.
    pub cpus: u32,
    /// The time at the end, in microseconds, at most 2^42.
    pub time: u64,
    /// The tasks that were ever admitted. Their figures come in this order.
    pub tasks: &'a [Admitted],
    /// What happened to them, in its order.
    pub happened: &'a [Happened],
    /// The switches. They rise strictly by time, and at one time by CPU.
    pub switches: &'a [Switch],
}
