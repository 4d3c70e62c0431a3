//! The runs of a recording's tasks.

ghost use Rattle.std.specs.Prelude.{◌≡◌, ◌<◌, ◌^◌, List, [], ◌++◌, ◌∷◌, All, IfOk, OnOk};
ghost use Rattle.trace_compare.specs.Runs.{both, joined_on, runs_of, long_runs, IsShort, InTurn};

use crate::run::Run;
use recorded_text::Step;
use std::alloc::{AllocError, Global};

/// Two runs as one.
fn join_two(a: &Run, b: &Run) -> Run
    ensures { result ≡ both a.now b.now }
{
    Run {
        start: a.start,
        end: a.end.max(b.end),
        cpu: a.cpu,
    }
}

/// Adds a run, unless it is shorter than the noise.
fn push_kept(runs: &mut Vec<Run>, run: Run, noise: u64) -> Result<(), AllocError>
    requires { IsShort run }
    ensures kept { OnOk result (runs.new.items ≡ runs.old.items ++ long_runs noise (run ∷ [])) }
    ensures small { All IsShort runs.old.items → All IsShort runs.new.items }
{
    if run.end - run.start >= noise {
        runs.push(run)?;
    }
    Ok(())
}

/// Takes the next run: the one that is not closed yet.
fn take_run(runs: &mut Vec<Run>, current: Run, run: &Run, noise: u64) -> Result<Run, AllocError>
    requires noise { noise < 2 ^ 62 }
    requires current { IsShort current }
    requires run { IsShort run.now }
    ensures told { IfOk result (λ next. (rest : List Run) →
        runs.new.items ++ long_runs noise (joined_on noise next rest)
        ≡ runs.old.items ++ long_runs noise (joined_on noise current (run.now ∷ rest))) }
    ensures next { IfOk result IsShort }
    ensures small { All IsShort runs.old.items → All IsShort runs.new.items }
{
    if run.start < current.end + noise {
        return Ok(join_two(&current, run));
    }
    push_kept(runs, current, noise)?;
    Ok(*run)
}

/// The runs, joined where less than the noise lies between them, without those that are shorter
/// than the noise.
pub(crate) fn settled(alloc: Global, noise: u64, raw: &[Run]) -> Result<Vec<Run>, AllocError>
    requires noise { noise < 2 ^ 62 }
    requires small { All IsShort raw.now }
    ensures runs { IfOk result (λ v. v.items ≡ runs_of noise raw.now) }
    ensures turn { IfOk result (λ v. InTurn v.items) }
    ensures small { IfOk result (λ v. All IsShort v.items) }
{
    let mut runs = Vec::new(alloc);
    let (first, later) = match raw.split_first() {
        None => return Ok(runs),
        Some(parts) => parts,
    };
    let mut current = *first;
    for run in later {
        current = take_run(&mut runs, current, run, noise)?;
    }
    push_kept(&mut runs, current, noise)?;
    Ok(runs)
}
