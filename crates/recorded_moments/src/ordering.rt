//! Moments in the order of time.

ghost use Rattle.std.specs.Prelude.{◌≡◌, OnOk, OnErr};
ghost use Rattle.recorded_moments.specs.Ordered.{order_of, AreInOrder};

use recorded_jobs::{Moment, What};
use std::alloc::AllocError;

/// The place of a moment in the order of time.
fn order_of(moment: &Moment) -> u128
    ensures { result ≡ order_of moment.now }
{
    match moment.what {
        What::Switch { .. } => u128::from(moment.time) * 2 + 1,
        What::Wake { .. } => u128::from(moment.time) * 2,
    }
}

/// Puts moments in the order of time. At the same time wakes come before switches, and otherwise
/// moments keep their order.
///
/// # Errors
/// A growth was refused; the moments are as they were.
pub fn put_in_order(moments: &mut Vec<Moment>) -> Result<(), AllocError>
    ensures ordered { OnOk result (AreInOrder moments.old.items moments.new.items) }
    ensures err { OnErr result (moments.new.items ≡ moments.old.items) }
{
    moments.sort_by_key(|m| order_of(m))?;
    Ok(())
}
