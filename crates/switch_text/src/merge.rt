//! Which switch of several runs comes next.

ghost use Rattle.std.specs.Prelude.{ℕ, ◌≡◌, ◌+◌, ◌<◌, ◌≤◌, ◌^◌, length, drop, replicate, slice_index, slice_index_or, All, IsTrue, ◌↔◌};
ghost use Rattle.switch_text.specs.Trace.{entries_of};
ghost use Rattle.switch_text.specs.Runs.{switches_view_of, views, IsPrintable};
ghost use Rattle.switch_text.specs.private.Merging.{places_stepped, IsNextFound, IsRunAt};
ghost use Rattle.switch_text.specs.private.Winning.{head_of, head_in, left_at, IsWinningTree, IsMerge};

use crate::heads::{Head, Heads};
use crate::run::Run;
use domain_run::Switch;

/// The next switch of a run, and which of the runs it is.
#[derive(Clone, Copy)]
pub(crate) struct Next<'a, 'b> {
    /// The place of the run among the runs.
    pub(crate) index: usize,
    pub(crate) run: &'a Run<'b>,
    pub(crate) switch: &'b Switch,
}

/// Whether a switch stands at a place of a run.
fn is_left(run: &Run<'_>, place: usize) -> bool
    ensures inside { IsTrue result ↔ (place < length run.now.switches.now) }
    ensures counted { length run.now.switches.now < 2 ^ 64 }
{
    place < run.switches.len()
}

/// The switch at a place of a run.
fn next_in<'a, 'b>(run: &'a Run<'b>, index: usize, place: usize) -> Next<'a, 'b>
    requires { place < length run.now.switches.now }
    ensures index { result.index ≡ index }
    ensures run { result.run.now ≡ run.now }
    ensures switch { result.switch.now
        ≡ slice_index_or run.now.switches.now place result.switch.now }
{
    Next {
        index,
        run,
        switch: &run.switches[place],
    }
}

/// How far each of several runs has gone, and their heads; of one run alone the heads are not
/// looked at.
#[derive(Clone, Copy)]
pub(crate) struct Merge {
    pub(crate) places: [usize; 8],
    pub(crate) heads: Heads,
}

/// The head of a run that goes on from a place.
#[inline(always)]
fn head_at(run: &Run<'_>, place: usize) -> Head
    requires { IsPrintable run.now }
    ensures { result ≡ head_of (drop place (entries_of (switches_view_of run.now))) }
{
    if is_left(run, place) {
        let switch = &run.switches[place];
        return Head {
            time: switch.time(),
            cpu: run.base + u32::from(switch.cpu()),
        };
    }
    Head::none()
}

/// The heads of several runs, each of which goes on from its first switch.
#[inline(always)]
fn first_heads(runs: &[Run<'_>]) -> Heads
    requires few { length runs.now ≤ 8 }
    requires runs { All IsPrintable runs.now }
    ensures heads { (i : ℕ) → i < 8
        → head_in result.heads i ≡ head_of (left_at (views runs.now) (replicate 8 0) i) }
    ensures tree { IsWinningTree result }
{
    let mut heads = Heads::none();
    for (i, run) in runs.iter().enumerate() {
        heads.change(i, head_at(run, 0));
    }
    heads
}

impl Merge {
    /// Each run goes on from its first switch.
    #[inline(always)]
    pub(crate) fn start(runs: &[Run<'_>]) -> Merge
        requires few { length runs.now ≤ 8 }
        requires runs { All IsPrintable runs.now }
        ensures places { result.places ≡ replicate 8 0 }
        ensures heads { IsMerge (views runs.now) result }
    {
        if runs.len() > 1 {
            return Merge {
                places: [0; 8],
                heads: first_heads(runs),
            };
        }
        Merge {
            places: [0; 8],
            heads: Heads::none(),
        }
    }

    /// The earliest switch by time and CPU of the machine, or none where nothing is left. Of
    /// switches of one time and CPU, that of the first run.
    #[inline(always)]
    pub(crate) fn next<'a, 'b>(&self, runs: &'a [Run<'b>]) -> Option<Next<'a, 'b>>
        requires few { length runs.now ≤ 8 }
        requires runs { All IsPrintable runs.now }
        requires heads { IsMerge (views runs.now) self.now }
        ensures { IsNextFound runs.now self.now.places result }
    {
        let index = self.heads.first;
        if index >= runs.len() {
            return None;
        }
        let run = &runs[index];
        let place = self.places[index];
        if is_left(run, place) {
            return Some(next_in(run, index, place));
        }
        None
    }

    /// Goes on by the next switch.
    #[inline(always)]
    pub(crate) fn step(&mut self, runs: &[Run<'_>], next: &Next<'_, '_>)
        requires few { length runs.now ≤ 8 }
        requires runs { All IsPrintable runs.now }
        requires run { IsRunAt runs.now next.now }
        requires place { slice_index self.old.places next.now.index + 1 < 2 ^ 64 }
        requires heads { IsMerge (views runs.now) self.old }
        ensures places { self.new.places ≡ places_stepped self.old.places next.now.index }
        ensures heads { IsMerge (views runs.now) self.new }
    {
        let place = self.places[next.index] + 1;
        self.places[next.index] = place;
        if runs.len() > 1 {
            self.heads.change(next.index, head_at(next.run, place));
        }
    }
}
