//! The smallest, the mean and the largest of numbers.

ghost use Rattle.std.specs.Prelude.{◌≡◌, ◌≤◌, ◌+◌, ◌*◌, length, min, max, fold};
ghost use Rattle.recorded_table.specs.Table.{spread_of};

/// The smallest, the mean, rounded down, and the largest of some numbers.
#[derive(Clone, Copy)]
pub(crate) struct Spread {
    pub(crate) least: u64,
    pub(crate) mean: u64,
    pub(crate) greatest: u64,
}

fn least_of(first: u64, others: &[u64]) -> u64
    ensures { result ≡ fold min first others.now }
{
    let mut least = first;
    for n in others {
        least = least.min(*n);
    }
    least
}

fn greatest_of(first: u64, others: &[u64]) -> u64
    ensures { result ≡ fold max first others.now }
{
    let mut greatest = first;
    for n in others {
        greatest = greatest.max(*n);
    }
    greatest
}

fn sum_of(first: u64, others: &[u64]) -> u128
    ensures sum { result ≡ fold (λ a b. a + b) first others.now }
    ensures most { result ≤ (length others.now + 1) * 18446744073709551615 }
{
    let mut sum = u128::from(first);
    for n in others {
        sum += u128::from(*n);
    }
    sum
}

/// That of these numbers, if there is one.
pub(crate) fn spread_of(numbers: &[u64]) -> Option<Spread>
    ensures { result ≡ spread_of numbers.now }
{
    let [first, others @ ..] = numbers else {
        return None;
    };
    Some(Spread {
        least: least_of(*first, others),
        mean: (sum_of(*first, others) / numbers.len() as u128) as u64,
        greatest: greatest_of(*first, others),
    })
}
