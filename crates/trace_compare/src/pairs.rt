//! Which runs match.

ghost use Rattle.std.specs.Prelude.{◌≡◌, ◌<◌, ◌≤◌, ◌^◌, length, All, IfOk, IfSome, IfNone};
ghost use Rattle.trace_compare.specs.Clocks.{IsSmallShift};
ghost use Rattle.trace_compare.specs.Runs.{IsShort, InTurn};
ghost use Rattle.trace_compare.specs.private.Meetings.{IsMeeting};
ghost use Rattle.trace_compare.specs.Matched.{IsSoundMatching};
ghost use Rattle.trace_compare.specs.Pairs.{is_near, fits, partners, left_over, count_matched};

use crate::clock::ClockShift;
use crate::run::Run;
use std::alloc::{AllocError, Global};

fn near(within: u64, a: u64, b: u64) -> bool
    requires within { within < 2 ^ 62 }
    requires a { a < 2 ^ 63 }
    requires b { b < 2 ^ 63 }
    ensures { result ≡ is_near within a b }
{
    a <= b + within && b <= a + within
}

/// How a run of the model and a recorded one lie to one another.
#[derive(Clone, Copy)]
pub(crate) enum Meeting {
    /// They match.
    Fit,
    /// The recorded run begins or ends too early.
    Early,
    /// It begins or ends too late.
    Late,
}

fn how_they_meet(within: u64, shift: ClockShift, m: &Run, r: &Run) -> Meeting
    requires within { within < 2 ^ 61 }
    requires shift { IsSmallShift shift }
    requires model { IsShort m.now }
    requires recorded { IsShort r.now }
    ensures { IsMeeting within shift m.now r.now result }
{
    let (start, end) = (m.start + shift.ahead, m.end + shift.ahead);
    let (recorded_start, recorded_end) = (r.start + shift.behind, r.end + shift.behind);
    if near(within, start, recorded_start) && near(within, end, recorded_end) {
        Meeting::Fit
    } else if recorded_start + within < start || recorded_end + within < end {
        Meeting::Early
    } else {
        Meeting::Late
    }
}

/// How many runs of the model match, each with a recorded run of its own; none if fewer than
/// `needed` do. It ends as soon as too many do not match.
pub(crate) fn matched_if(
    within: u64,
    shift: ClockShift,
    ms: &[Run],
    rs: &[Run],
    needed: usize,
) -> Option<usize>
    requires within { within < 2 ^ 61 }
    requires shift { IsSmallShift shift }
    requires model { All IsShort ms.now }
    requires recorded { All IsShort rs.now }
    requires model_turn { InTurn ms.now }
    requires recorded_turn { InTurn rs.now }
    ensures some { IfSome result
        (λ n. n ≡ count_matched (partners (fits within shift) ms.now rs.now)) }
    ensures few { IfSome result (λ n. n ≤ length ms.now) }
    ensures none { IfNone result
        (count_matched (partners (fits within shift) ms.now rs.now) < needed) }
{
    let len = ms.len();
    if len < needed {
        return None;
    }
    let most_missed = len - needed;
    let mut count = 0;
    let mut i = 0;
    let mut j = 0;
    while i < ms.len() && j < rs.len() {
        match how_they_meet(within, shift, &ms[i], &rs[j]) {
            Meeting::Fit => {
                count += 1;
                i += 1;
                j += 1;
            }
            Meeting::Early => j += 1,
            Meeting::Late => {
                i += 1;
                if i - count > most_missed {
                    return None;
                }
            }
        }
    }
    Some(count)
}

/// Which recorded run each run of the model is matched with, and the recorded runs that are left.
#[derive(Drop)]
pub struct Matching {
    /// For each run of the model, in order of time, the recorded run that it takes.
    pub partners: Vec<Option<Run>>,
    /// The recorded runs that no run of the model takes.
    pub left: Vec<Run>,
}

/// Matches the runs of a task.
pub(crate) fn match_runs(
    alloc: Global,
    within: u64,
    shift: ClockShift,
    ms: &[Run],
    rs: &[Run],
) -> Result<Matching, AllocError>
    requires within { within < 2 ^ 61 }
    requires shift { IsSmallShift shift }
    requires model { All IsShort ms.now }
    requires recorded { All IsShort rs.now }
    requires model_turn { InTurn ms.now }
    requires recorded_turn { InTurn rs.now }
    ensures partners { IfOk result (λ x. x.partners.items
        ≡ partners (fits within shift) ms.now rs.now) }
    ensures left { IfOk result (λ x. x.left.items ≡ left_over (fits within shift) ms.now rs.now) }
    ensures sound { IfOk result IsSoundMatching }
{
    let mut partners = Vec::new(alloc);
    let mut left = Vec::new(alloc);
    let mut i = 0;
    let mut j = 0;
    while i < ms.len() && j < rs.len() {
        let run = rs[j];
        match how_they_meet(within, shift, &ms[i], &run) {
            Meeting::Fit => {
                partners.push(Some(run))?;
                i += 1;
                j += 1;
            }
            Meeting::Early => {
                left.push(run)?;
                j += 1;
            }
            Meeting::Late => {
                partners.push(None)?;
                i += 1;
            }
        }
    }
    'rest: while i < ms.len() {
        partners.push(None)?;
        i += 1;
    }
    left.extend_from_slice(&rs[j..])?;
    Ok(Matching { partners, left })
}
