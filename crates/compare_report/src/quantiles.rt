//! Quantiles of distances.

ghost use Rattle.std.specs.Prelude.{◌≡◌, ◌+◌, ◌*◌, ◌<◌, ◌≤◌, [], IfSome, None, length};
ghost use Rattle.std.specs.List.Sorted.{IsNonDecreasing, IsPermutation};
ghost use Rattle.compare_report.specs.Quantiles.{IsQuantile, IsSpread};

use crate::line::Spread;

/// The last place, from 0, up to which there are so many of a hundred, and no fewer places have
/// them.
fn last_place(count: usize, hundredths: u128) -> usize
    requires some { 0 < count }
    requires hundredths { (0 < hundredths) × (hundredths ≤ 100) }
    ensures there { result < count }
    ensures enough { hundredths * count ≤ 100 * (result + 1) }
    ensures least { 100 * result < hundredths * count }
{
    let all = hundredths * (count as u128);
    ((all - 1) / 100) as usize
}

/// Of rising values, the least of which so many of a hundred are at most itself.
fn quantile(values: &[u64], hundredths: u128) -> u64
    requires some { 0 < length values.now }
    requires rising { IsNonDecreasing values.now }
    requires hundredths { (0 < hundredths) × (hundredths ≤ 100) }
    ensures { IsQuantile hundredths values.now result }
{
    values[last_place(values.len(), hundredths)]
}

fn spread_of(values: &[u64]) -> Spread
    requires some { 0 < length values.now }
    requires rising { IsNonDecreasing values.now }
    ensures { IsSpread values.now result }
{
    Spread {
        half: quantile(values, 50),
        most: quantile(values, 95),
        max: quantile(values, 100),
    }
}

/// How far distances, in microseconds, are spread; none where there are none. Puts them in order,
/// and none of them comes or goes. Takes no memory.
pub fn spread(distances: &mut [u64]) -> Option<Spread>
    ensures some { IfSome result (IsSpread distances.old) }
    ensures none { result ≡ None → distances.old ≡ [] }
    ensures same { IsPermutation distances.old distances.new }
    ensures rising { IsNonDecreasing distances.new }
{
    distances.sort_unstable();
    if distances.is_empty() {
        return None;
    }
    Some(spread_of(distances))
}
