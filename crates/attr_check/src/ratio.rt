ghost use Rattle.std.specs.Prelude.{◌≡◌, ◌<◌, ◌≤◌};
ghost use Rattle.attr_check.specs.Ratio.{ratio};

use limits::UNIT;

/// The bandwidth of a runtime in each period, in units of 1/2^20, rounded down. Runtime and period
/// have one unit of time, which does not matter.
pub fn to_ratio(period: u64, runtime: u64) -> u64
    requires some { 0 < period }
    requires within { runtime ≤ period }
    ensures { result ≡ ratio period runtime }
{
    // Below 2^44, as every runtime is that is accepted, the product has 64 bits, and a division of
    // those is the quicker one.
    match runtime.checked_mul(UNIT) {
        Some(product) => product / period,
        None => (u128::from(runtime) * u128::from(UNIT) / u128::from(period)) as u64,
    }
}
