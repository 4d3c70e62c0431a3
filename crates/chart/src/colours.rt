//! The colours of CPUs.

ghost use Rattle.std.specs.Prelude.{◌≡◌, ◌<◌, ◌≤◌, ◌^◌, IfOk, All, length};
ghost use Rattle.chart.specs.Colours as colours;

use domain_run::NoMemory;
use std::alloc::Global;

fn palette(k: u64) -> &'static [u8]
    ensures { result.now ≡ colours.palette k }
{
    if k == 0 {
        return b"#0072B2";
    }
    if k == 1 {
        return b"#E4CC3C";
    }
    if k == 2 {
        return b"#00249C";
    }
    if k == 3 {
        return b"#E478B4";
    }
    if k == 4 {
        return b"#C0FCA8";
    }
    if k == 5 {
        return b"#241848";
    }
    if k == 6 {
        return b"#3C9C24";
    }
    b"#0C603C"
}

fn ramp(k: u64) -> &'static [u8]
    ensures { result.now ≡ colours.ramp k }
{
    if k == 0 {
        return b"#00204d";
    }
    if k == 1 {
        return b"#414d6b";
    }
    if k == 2 {
        return b"#7b7b78";
    }
    if k == 3 {
        return b"#bcae6c";
    }
    b"#ffea46"
}

/// The colour of a CPU, where the machine has so many.
pub(crate) fn fill_of(cpus: u64, cpu: u64) -> &'static [u8]
    requires cpu { cpu < 2 ^ 40 }
    ensures { result.now ≡ colours.fill_of cpus cpu }
{
    if cpus <= 8 {
        return palette(cpu);
    }
    ramp(cpu * 5 / cpus)
}

fn is_dark(cpus: u64, cpu: u64) -> bool
    requires cpu { cpu < 2 ^ 40 }
    ensures { result ≡ colours.is_dark cpus cpu }
{
    if cpus <= 8 {
        return cpu == 0 || (cpu == 2 || (cpu == 5 || cpu == 7));
    }
    cpu * 5 / cpus < 2
}

/// The colour of a number on that of a CPU.
pub(crate) fn ink_of(cpus: u64, cpu: u64) -> &'static [u8]
    requires cpu { cpu < 2 ^ 40 }
    ensures { result.now ≡ colours.ink_of cpus cpu }
{
    if is_dark(cpus, cpu) {
        return b"#fff";
    }
    b"#000"
}

/// The CPUs of the legend: each, or the first of each colour of the ramp.
pub(crate) fn legend_cpus(alloc: Global, cpus: u64) -> Result<Vec<u64>, NoMemory>
    requires few { cpus ≤ 512 }
    ensures cpus { IfOk result (λ v. v.items ≡ colours.legend_cpus cpus) }
    ensures small { IfOk result (λ v. All (λ c. c < 2 ^ 40) v.items) }
    ensures few { IfOk result (λ v. length v.items ≤ 8) }
{
    let mut all = Vec::with_capacity(alloc, 8)?;
    let mut place = 0;
    if cpus <= 8 {
        while place < cpus {
            all.push(place)?;
            place += 1;
        }
        return Ok(all);
    }
    while place < 5 {
        all.push((place * cpus + 4) / 5)?;
        place += 1;
    }
    Ok(all)
}
