//! CPU times of runs.

ghost use Rattle.std.specs.Prelude.{◌≡◌};
ghost use Rattle.trace_compare.specs.Differences.{cpu_time, taken_length, taken_time};

use crate::run::Run;

/// The CPU time of runs, in microseconds, up to the most that 64 bits hold.
pub fn cpu_time_of(runs: &[Run]) -> u64
    ensures { result ≡ cpu_time runs.now }
{
    let mut total: u64 = 0;
    for run in runs {
        total = total.saturating_add(run.end.saturating_sub(run.start));
    }
    total
}

fn length_taken(partner: Option<Run>) -> u64
    ensures { result ≡ taken_length partner }
{
    match partner {
        None => 0,
        Some(run) => run.end.saturating_sub(run.start),
    }
}

/// The CPU time of the recorded runs that are taken, in microseconds, up to the most that 64 bits
/// hold.
pub fn taken_time_of(partners: &[Option<Run>]) -> u64
    ensures { result ≡ taken_time partners.now }
{
    let mut total: u64 = 0;
    for partner in partners {
        total = total.saturating_add(length_taken(*partner));
    }
    total
}
