//! The limits of the model, each with its name. Code, definitions, contracts and pages cite them.
//!
//! To the crates above it promises nothing but these numbers. The definitions of
//! `specs/Limits.antt` have the same names in small letters. Takes no memory.
#![tactic(auto)]

/// One microsecond of budget at rate one, and the bandwidth of one whole CPU: 2^20, the kernel's
/// BW_UNIT.
pub const UNIT: u64 = 1 << 20;

/// The least limit of a domain, in 1/2^20 of a CPU: one percent, rounded down.
pub const LEAST_LIMIT: u64 = 10485;

/// Every time of a domain's clock is below this, in microseconds: some 50 days.
pub const CLOCK_END: u64 = 1 << 42;

/// Every absolute deadline is below this, in microseconds.
pub const DEADLINE_END: u64 = 1 << 48;

/// The most ticks of one advance, in microseconds: a minute.
pub const MAX_ADVANCE: u64 = 60_000_000;

/// The largest number of a script: each time, in microseconds, and each count is at most this.
pub const MAX_SCRIPT_NUMBER: u64 = 1_000_000_000;

/// Every number of a task is below this.
pub const TASK_NUMBER_END: u32 = 65536;

/// The most entries of the history of a domain.
pub const MAX_HISTORY: usize = 65536;
