//! The ticks of the time's axis, and its unit.

ghost use Rattle.std.specs.Prelude.{ℕ, ◌≡◌, ◌-◌, ◌*◌, ◌<◌, ◌≤◌, ◌^◌, IfOk, All, map};
ghost use Rattle.std.specs.List.{range_with_len};
ghost use Rattle.draft.specs.Draft.{Adds};
ghost use Rattle.chart_pieces.specs.Window.{IsWindow};
ghost use Rattle.chart.specs.Axis as axis;

use crate::texts::{SECOND, put_millis, put_seconds};
use chart_pieces::Window;
use domain_run::NoMemory;
use draft::Draft;
use std::alloc::Global;

fn wider(length: u64, unit: u64) -> u64
    requires length { length ≤ 2 ^ 42 }
    requires some { 0 < unit }
    requires unit { unit ≤ 2 ^ 42 }
    ensures wider { result ≡ axis.wider length unit }
    ensures some { 0 < result }
    ensures small { result ≤ 2 ^ 42 }
{
    if unit * 100 < length {
        return unit * 10;
    }
    unit
}

/// A power of ten of which a hundred are as long as this.
fn widened(length: u64) -> u64
    requires { length ≤ 2 ^ 42 }
    ensures widened { result ≡ axis.widened 12 length }
    ensures some { 0 < result }
    ensures small { result ≤ 2 ^ 42 }
{
    let mut unit = 1;
    let mut times: u32 = 0;
    while times < 12 {
        unit = wider(length, unit);
        times += 1;
    }
    unit
}

fn step_by(unit: u64, length: u64) -> u64
    requires some { 0 < unit }
    requires unit { unit ≤ 2 ^ 42 }
    ensures step { result ≡ axis.step_by unit length }
    ensures some { 0 < result }
    ensures small { result ≤ 2 ^ 46 }
{
    if length <= unit * 10 {
        return unit;
    }
    if length <= unit * 20 {
        return unit * 2;
    }
    if length <= unit * 50 {
        return unit * 5;
    }
    unit * 10
}

/// The step from one tick to the next, where so long a time is drawn.
fn step_of(length: u64) -> u64
    requires { length ≤ 2 ^ 42 }
    ensures step { result ≡ axis.step_of length }
    ensures some { 0 < result }
    ensures small { result ≤ 2 ^ 46 }
{
    step_by(widened(length), length)
}

/// The first tick, in steps.
fn first_tick(window: &Window, step: u64) -> u64
    requires window { IsWindow window.now }
    requires some { 0 < step }
    requires small { step ≤ 2 ^ 46 }
    ensures { result ≡ axis.first_tick window.now step }
{
    (window.from + (step - 1)) / step
}

/// The ticks from one to before another, in steps.
fn ticks_between(alloc: Global, step: u64, first: u64, stop: u64) -> Result<Vec<u64>, NoMemory>
    requires fits { (k : ℕ) → k < stop → k * step ≤ 2 ^ 42 }
    ensures ticks { IfOk result (λ v. v.items
        ≡ map (λ k. k * step) (range_with_len first (stop - first))) }
    ensures early { IfOk result (λ v. All (λ t. t ≤ 2 ^ 42) v.items) }
{
    let mut ticks = Vec::new(alloc);
    let mut k = first;
    while k < stop {
        ticks.push(k * step)?;
        k += 1;
    }
    Ok(ticks)
}

fn ticks_by(alloc: Global, window: &Window, step: u64) -> Result<Vec<u64>, NoMemory>
    requires window { IsWindow window.now }
    requires some { 0 < step }
    requires small { step ≤ 2 ^ 46 }
    ensures ticks { IfOk result (λ v. v.items ≡ axis.ticks_by window.now step) }
    ensures early { IfOk result (λ v. All (λ t. t ≤ 2 ^ 42) v.items) }
{
    ticks_between(alloc, step, first_tick(window, step), window.to / step + 1)
}

/// The ticks of a window.
pub(crate) fn ticks_of(alloc: Global, window: &Window) -> Result<Vec<u64>, NoMemory>
    requires window { IsWindow window.now }
    ensures ticks { IfOk result (λ v. v.items ≡ axis.ticks_of window.now) }
    ensures early { IfOk result (λ v. All (λ t. t ≤ 2 ^ 42) v.items) }
{
    ticks_by(alloc, window, step_of(window.to - window.from))
}

// ---- the unit

/// Whether less than a second is drawn.
fn is_in_millis(window: &Window) -> bool
    requires window { IsWindow window.now }
    ensures { result ≡ axis.is_in_millis window.now }
{
    window.to - window.from < SECOND
}

/// A time in the unit of the axis.
pub(crate) fn put_axis_time(out: &mut Draft, window: &Window, time: u64)
    requires window { IsWindow window.now }
    ensures { Adds out.old out.new (axis.axis_time window.now time) }
{
    if is_in_millis(window) {
        put_millis(out, time);
        return;
    }
    put_seconds(out, time);
}

pub(crate) fn unit_name(window: &Window) -> &'static [u8]
    requires window { IsWindow window.now }
    ensures { result.now ≡ axis.unit_name window.now }
{
    if is_in_millis(window) {
        return b"ms";
    }
    b"s"
}
