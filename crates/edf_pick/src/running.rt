//! Who stays on the CPU where it runs, CPU by CPU, with the latest of them near at hand.

ghost use Rattle.std.specs.Prelude.{ℕ, ◌≡◌, ◌<◌, ◌≤◌, ◌+◌, ◌*◌, ◌⊎◌, true, false, length, replicate, is_some, slice_index_or, slice_set, All, None, Option, Some};
ghost use Rattle.std.specs.Int.{bit_at};
ghost use Rattle.edf_pick.specs.declared.candidate.Candidate.{Candidate};
ghost use Rattle.edf_pick.specs.Choice as choice;
ghost use Rattle.edf_pick.specs.Places.{AreTaken};
ghost use Rattle.edf_pick.specs.private.RunningSet as spec;
ghost use Rattle.edf_pick.specs.private.Ready.{all_held, running_places};

use crate::candidate::Candidate;
use crate::order::is_before;
use cpu_marks::{first, has, with, without};
use std::marker::Model;

/// The key where nobody stays. No task is before it.
const BARE: Candidate = Candidate {
    deadline: 0,
    number: 0,
    home: 0,
};

/// Who stays on each of at most 64 CPUs, and belongs to it. Contracts see it as the list of them,
/// CPU by CPU. Beside their keys it keeps the latest of each eight CPUs, which is found anew only
/// where one of the eight has gone, and a task after which nobody is.
#[derive(Drop)]
pub(crate) struct RunningSet {
    cpus: usize,
    busy: usize,
    marks: u64,
    unknown: u64,
    top: Candidate,
    most: [Candidate; 8],
    keys: [Candidate; 64],
}

impl Model for RunningSet {
    ghost use Rattle.std.specs.Prelude.{List, Option, take};
    ghost use Rattle.std.specs.Int.{bit_at};
    ghost use Rattle.edf_pick.specs.declared.candidate.Candidate.{Candidate};
    ghost use Rattle.edf_pick.specs.private.RunningSet.{IsRunningSet, stays_of};

    ghost Value = { List (Option Candidate) };

    ghost view = { λ s. stays_of (bit_at s.marks) (take s.cpus s.keys) };

    ghost invariant = { λ s. IsRunningSet s.cpus s.busy s.marks s.keys s.most s.unknown s.top };
}

fn no_keys() -> [Candidate; 64]
    ensures { result ≡ replicate 64 spec.bare_key }
{
    [BARE; 64]
}

fn none_latest() -> [Candidate; 8]
    ensures { result ≡ replicate 8 spec.bare_key }
{
    [BARE; 8]
}

// The later of two; of two at one place the second.
#[inline(always)]
fn later(a: Candidate, b: Candidate) -> Candidate
    ensures one { (result ≡ a) ⊎ (result ≡ b) }
    ensures first { choice.is_before result a ≡ false }
    ensures second { choice.is_before result b ≡ false }
    ensures tie { choice.is_before b a ≡ false → result ≡ b }
{
    if is_before(&b, &a) { a } else { b }
}

#[inline(always)]
fn latest_of_two(keys: &[Candidate], at: usize) -> Candidate
    requires { at + 2 ≤ length keys.now }
    ensures { spec.IsLatest keys.now at (at + 2) result }
{
    later(keys[at], keys[at + 1])
}

#[inline(always)]
fn latest_of_four(keys: &[Candidate], at: usize) -> Candidate
    requires { at + 4 ≤ length keys.now }
    ensures { spec.IsLatest keys.now at (at + 4) result }
{
    later(latest_of_two(keys, at), latest_of_two(keys, at + 2))
}

// The latest of eight keys from a place on.
#[inline(always)]
fn latest_of_eight(keys: &[Candidate], at: usize) -> Candidate
    requires { at + 8 ≤ length keys.now }
    ensures { spec.IsLatest keys.now at (at + 8) result }
{
    later(latest_of_four(keys, at), latest_of_four(keys, at + 4))
}

// The latest of each eight CPUs that are marked.
#[inline(always)]
fn look_anew(most: &mut [Candidate; 8], keys: &[Candidate; 64], unknown: u64)
    requires groups { (g : ℕ) → bit_at unknown g ≡ 1 → g < 8 }
    requires known { (g : ℕ) → g < 8 → bit_at unknown g ≡ 0 → spec.IsLatest keys.now (8 * g)
        (8 * g + 8) (slice_index_or most.old g spec.bare_key) }
    ensures { (g : ℕ) → g < 8 → spec.IsLatest keys.now (8 * g) (8 * g + 8)
        (slice_index_or most.new g spec.bare_key) }
{
    let mut left = unknown;
    'groups: while left != 0 {
        let g = first(left);
        left = without(left, g);
        most[g] = latest_of_eight(keys, 8 * g);
    }
}

impl RunningSet {
    /// Nobody, on so many CPUs.
    pub(crate) fn open(cpus: usize) -> RunningSet
        requires { cpus ≤ 64 }
        ensures { result ≡ replicate cpus None }
    {
        RunningSet {
            cpus,
            busy: 0,
            marks: 0,
            unknown: 0,
            top: BARE,
            most: none_latest(),
            keys: no_keys(),
        }
    }

    /// A word with a mark for each CPU on which one stays.
    #[inline(always)]
    pub(crate) fn marks(&self) -> u64
        ensures { AreTaken (running_places self.now) result }
    {
        self.marks
    }

    /// How many CPUs there are.
    pub(crate) fn cpus(&self) -> usize
        ensures { result ≡ length self.now }
    {
        self.cpus
    }

    /// How many stay.
    #[inline(always)]
    pub(crate) fn busy(&self) -> usize
        ensures { result ≡ length (all_held self.now) }
    {
        self.busy
    }

    /// Who stays on a CPU.
    #[inline(always)]
    pub(crate) fn at(&self, cpu: usize) -> Option<Candidate>
        ensures { result ≡ slice_index_or self.now cpu None }
    {
        if cpu < self.cpus && has(self.marks, cpu) {
            return Some(self.keys[cpu]);
        }
        None
    }

    /// A task stays on this CPU, where nobody did, and belongs to it.
    #[inline(always)]
    pub(crate) fn stay(&mut self, cpu: usize, c: &Candidate)
        requires within { cpu < length self.old }
        requires bare { slice_index_or self.old cpu None ≡ None }
        ensures { self.new ≡ slice_set self.old cpu (Some (record c.now { home = cpu })) }
    {
        self.marks = with(self.marks, cpu);
        let key = Candidate {
            deadline: c.deadline,
            number: c.number,
            home: cpu as u32,
        };
        let g = cpu / 8;
        self.busy += 1;
        self.keys[cpu] = key;
        self.most[g] = later(self.most[g], key);
        self.top = later(self.top, key);
    }

    /// Who stays on this CPU does so no more.
    #[inline(always)]
    pub(crate) fn off(&mut self, cpu: usize)
        requires { is_some (slice_index_or self.old cpu None) ≡ true }
        ensures { self.new ≡ slice_set self.old cpu None }
    {
        self.marks = without(self.marks, cpu);
        self.busy -= 1;
        self.unknown = with(self.unknown, cpu / 8);
        self.keys[cpu] = BARE;
    }

    /// Whether one who stays may be after this task; where that is false, none is.
    #[inline(always)]
    pub(crate) fn may_outlast(&self, c: &Candidate) -> bool
        ensures { result ≡ false → All (λ a. choice.is_before c.now a ≡ false) (all_held self.now) }
    {
        is_before(c, &self.top)
    }

    /// The latest of those who stay. Where it is after another task it stays on its home CPU.
    #[inline(never)]
    pub(crate) fn latest(&mut self) -> Candidate
        ensures still { self.new ≡ self.old }
        ensures bound { All (λ a. choice.is_before result a ≡ false) (all_held self.old) }
        ensures there { (c : Candidate) → choice.is_before c result ≡ true
            → slice_index_or self.old result.home None ≡ Some result }
    {
        look_anew(&mut self.most, &self.keys, self.unknown);
        self.unknown = 0;
        let latest = latest_of_eight(&self.most, 0);
        self.top = latest;
        latest
    }
}
