//! All elements of a list, by one worker or by several.

ghost use Rattle.std.specs.Prelude.{◌≡◌, ◌<◌, ◌≤◌, All, map, min, length, IsOk, OnOk, OnErr};
ghost use Rattle.std.specs.List.{AllZip};
ghost use Rattle.tick_split.specs.Planning.{IsPlannable, IsPlanned};
ghost use Rattle.tick_split.specs.Charging.{IsChargeable, charged_slice};

use crate::apart::Apart;
use crate::element::{Plan, Slice};
use crate::fault::StartFault;
use crate::turn::Turn;
use crate::workers::work_all;
use std::alloc::Global;
use std::sync::Wait;
use std::thread::Threads;

/// Plans each element as [`plan`](crate::plan) does, by so many workers at most (1 to 8 are meant).
/// There are min(workers, elements) pieces, each worked on in a thread of its own; with one piece
/// or none it is done here, which starts no thread, takes no memory and is always Ok. Each piece
/// has its [`Turn`].
///
/// # Errors
///
/// [`StartFault`] where a worker was not started or a growth was refused: all is as before, though
/// turns may have been called.
pub fn plan_all<R: Threads + Wait, G: Turn>(
    rt: &R,
    alloc: Global,
    plans: &mut [Plan],
    workers: usize,
    turn: &G,
) -> Result<(), StartFault>
    requires workers { 0 < workers }
    requires plans { All IsPlannable plans.old }
    ensures planned { OnOk result (AllZip IsPlanned plans.old plans.new) }
    ensures as_before { OnErr result (plans.new ≡ plans.old) }
    ensures alone { min workers (length plans.old) ≤ 1 → IsOk result }
{
    work_all(Apart::of(rt, alloc, workers, plans.len()), plans, turn)
}

/// Charges each element as [`charge`](crate::charge) does, by so many workers at most; pieces,
/// threads and turns are those of [`plan_all`].
///
/// # Errors
///
/// [`StartFault`] where a worker was not started or a growth was refused: all is as before, though
/// turns may have been called.
pub fn charge_all<R: Threads + Wait, G: Turn>(
    rt: &R,
    alloc: Global,
    slices: &mut [Slice],
    workers: usize,
    turn: &G,
) -> Result<(), StartFault>
    requires workers { 0 < workers }
    requires slices { All IsChargeable slices.old }
    ensures charged { OnOk result (slices.new ≡ map charged_slice slices.old) }
    ensures as_before { OnErr result (slices.new ≡ slices.old) }
    ensures alone { min workers (length slices.old) ≤ 1 → IsOk result }
{
    work_all(Apart::of(rt, alloc, workers, slices.len()), slices, turn)
}
