//! What is asked of a comparison.

ghost use Rattle.std.specs.Prelude.{◌≡◌, ◌<◌, ◌^◌, IfSome};
ghost use Rattle.std.specs.Option.{option_map};
ghost use Rattle.trace_compare.specs.Clocks.{IsSmallShift};
ghost use Rattle.compare_report.specs.Report.{asked_shift};

use trace_compare::{ClockShift, TIME_LIMIT};

/// What is asked of a comparison; times are in microseconds.
#[derive(Clone, Copy)]
pub struct CompareOptions {
    /// Two runs match where their starts and their ends are at most so far apart.
    pub within: u32,
    /// Runs of a task with less between them are one, and shorter runs are left out. If nothing is
    /// asked for, it is 100 where each of the model's runs is longer, else 0.
    pub noise: Option<u32>,
    /// From a time in the model to the same time in the recording. A shift beyond 2^61 to either
    /// side is taken as one of 2^61, or 2^61 - 1 ahead. If nothing is asked for, it is that under
    /// which most runs match.
    pub shift: Option<i64>,
    /// Whether the report has a line on how many matched runs were on the same CPU.
    pub cpus: bool,
}

fn clock_shift(shift: i64) -> ClockShift
    ensures value { result ≡ asked_shift shift }
    ensures small { IsSmallShift result }
{
    if shift >= 0 {
        ClockShift {
            ahead: shift.unsigned_abs().min(TIME_LIMIT - 1),
            behind: 0,
        }
    } else {
        ClockShift {
            ahead: 0,
            behind: shift.unsigned_abs().min(TIME_LIMIT),
        }
    }
}

/// The shift that is asked for.
pub(crate) fn shift_asked(options: CompareOptions) -> Option<ClockShift>
    ensures value { result ≡ option_map asked_shift options.shift }
    ensures small { IfSome result IsSmallShift }
{
    match options.shift {
        Some(shift) => Some(clock_shift(shift)),
        None => None,
    }
}

/// The noise that is asked for.
pub(crate) fn noise_asked(options: CompareOptions) -> Option<u64>
    ensures value { result ≡ options.noise }
    ensures small { IfSome result (λ n. n < 2 ^ 62) }
{
    match options.noise {
        Some(noise) => Some(u64::from(noise)),
        None => None,
    }
}
