//! What is told of matched runs, and of those that are not.

ghost use Rattle.std.specs.Prelude.{◌≡◌, ◌+◌, ◌<◌, ◌≤◌, ◌^◌, map, All, IfOk, IfSome, OnOk, ◌++◌};
ghost use Rattle.trace_compare.specs.Clocks.{IsSmallShift};
ghost use Rattle.trace_compare.specs.Runs.{IsShort};
ghost use Rattle.trace_compare.specs.Tasks.{AreSoundRuns};
ghost use Rattle.trace_compare.specs.Matched.{IsSoundMatching};
ghost use Rattle.trace_compare.specs.Pairs.{count_matched};
ghost use Rattle.trace_compare.specs.Differences.{pairs_of, distance, start_apart, end_apart, same_cpu, one_pair, first_missing, is_inside, first_other, others};

use crate::clock::ClockShift;
use crate::pairs::Matching;
use crate::run::Run;
use crate::task::TaskRuns;
use std::alloc::{AllocError, Global};

/// How many runs of the model are matched.
pub fn matched_of(partners: &[Option<Run>]) -> usize
    ensures { result ≡ count_matched partners.now }
{
    partners.iter().filter(|p| p.is_some()).count()
}

/// The number, from 0, of the first run of the model that no recorded run matches.
pub fn missing_of(partners: &[Option<Run>]) -> Option<usize>
    ensures { result ≡ first_missing partners.now }
{
    partners.iter().position(|p| p.is_none())
}

/// Whether a recorded run lies inside the model's time, which is from its first start until its
/// last end.
pub fn lies_inside(from: u64, until: u64, shift: ClockShift, run: &Run) -> bool
    requires from { from ≤ 2 ^ 61 }
    requires until { until < 2 ^ 61 }
    requires shift { IsSmallShift shift }
    requires run { IsShort run.now }
    ensures { result ≡ is_inside from until shift run.now }
{
    from + shift.ahead <= run.start + shift.behind && run.end + shift.behind <= until + shift.ahead
}

/// The first recorded run inside the model's time that no run of the model takes.
pub fn other_of(from: u64, until: u64, shift: ClockShift, left: &[Run]) -> Option<Run>
    requires from { from ≤ 2 ^ 61 }
    requires until { until < 2 ^ 61 }
    requires shift { IsSmallShift shift }
    requires left { All IsShort left.now }
    ensures { result ≡ first_other from until shift left.now }
{
    for run in left {
        if lies_inside(from, until, shift, run) {
            return Some(*run);
        }
    }
    None
}

/// How many recorded runs inside the model's time no run of the model takes.
pub fn others_of(from: u64, until: u64, shift: ClockShift, left: &[Run]) -> usize
    requires from { from ≤ 2 ^ 61 }
    requires until { until < 2 ^ 61 }
    requires shift { IsSmallShift shift }
    requires left { All IsShort left.now }
    ensures { result ≡ others from until shift left.now }
{
    let mut count = 0;
    for run in left {
        if lies_inside(from, until, shift, run) {
            count += 1;
        }
    }
    count
}

/// How far two times are apart.
fn between(a: u64, b: u64) -> u64
    ensures { result ≡ distance a b }
{
    a.abs_diff(b)
}

/// How far the starts and the ends of matched runs are apart, in microseconds, and how many of them
/// were on the same CPU.
#[derive(Drop)]
pub struct Apart {
    /// The starts, in order of time.
    pub starts: Vec<u64>,
    /// The ends.
    pub ends: Vec<u64>,
    /// How many runs were on the same CPU.
    pub same_cpu: usize,
}

/// Adds a run of the model with the recorded run that it takes, if it takes one.
fn add_pair(
    found: &mut Apart,
    shift: ClockShift,
    m: &Run,
    partner: Option<Run>,
) -> Result<(), AllocError>
    requires shift { IsSmallShift shift }
    requires model { IsShort m.now }
    requires partner { IfSome partner IsShort }
    requires few { found.old.same_cpu < 2 ^ 63 }
    ensures starts { OnOk result (found.new.starts.items ≡ found.old.starts.items
        ++ map (start_apart shift) (one_pair m.now partner)) }
    ensures ends { OnOk result (found.new.ends.items ≡ found.old.ends.items
        ++ map (end_apart shift) (one_pair m.now partner)) }
    ensures same { OnOk result (found.new.same_cpu
        ≡ found.old.same_cpu + same_cpu (one_pair m.now partner)) }
    ensures few { found.new.same_cpu ≤ found.old.same_cpu + 1 }
{
    match partner {
        None => Ok(()),
        Some(r) => {
            found
                .starts
                .push(between(m.start + shift.ahead, r.start + shift.behind))?;
            found
                .ends
                .push(between(m.end + shift.ahead, r.end + shift.behind))?;
            if m.cpu == r.cpu {
                found.same_cpu += 1;
            }
            Ok(())
        }
    }
}

/// How far matched runs are apart.
///
/// # Errors
/// Where a growth was refused.
pub fn apart_of(
    alloc: Global,
    shift: ClockShift,
    model: &[Run],
    partners: &[Option<Run>],
) -> Result<Apart, AllocError>
    requires shift { IsSmallShift shift }
    requires model { All IsShort model.now }
    requires partners { All (λ p. IfSome p IsShort) partners.now }
    ensures starts { IfOk result (λ a. a.starts.items
        ≡ map (start_apart shift) (pairs_of model.now partners.now)) }
    ensures ends { IfOk result (λ a. a.ends.items
        ≡ map (end_apart shift) (pairs_of model.now partners.now)) }
    ensures same { IfOk result (λ a. a.same_cpu ≡ same_cpu (pairs_of model.now partners.now)) }
{
    let mut found = Apart {
        starts: Vec::new(alloc),
        ends: Vec::new(alloc),
        same_cpu: 0,
    };
    let mut i = 0;
    while i < model.len() && i < partners.len() {
        add_pair(&mut found, shift, &model[i], partners[i])?;
        i += 1;
    }
    Ok(found)
}

/// How far the matched runs of a task are apart, as [`compare`](crate::compare) matched them.
///
/// # Errors
/// Where a growth was refused.
pub fn apart_in(
    alloc: Global,
    shift: ClockShift,
    task: &TaskRuns,
    matching: &Matching,
) -> Result<Apart, AllocError>
    requires shift { IsSmallShift shift }
    requires task { AreSoundRuns task.now }
    requires matching { IsSoundMatching matching.now }
    ensures starts { IfOk result (λ a. a.starts.items
        ≡ map (start_apart shift) (pairs_of task.now.model.items matching.now.partners.items)) }
    ensures ends { IfOk result (λ a. a.ends.items
        ≡ map (end_apart shift) (pairs_of task.now.model.items matching.now.partners.items)) }
    ensures same { IfOk result (λ a. a.same_cpu
        ≡ same_cpu (pairs_of task.now.model.items matching.now.partners.items)) }
{
    let found = apart_of(
        alloc,
        shift,
        task.model.as_slice(),
        matching.partners.as_slice(),
    )?;
    Ok(found)
}
