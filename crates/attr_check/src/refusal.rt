use std::error::Error;
use std::fmt;

/// Why attributes are refused. Each is EINVAL 22 in sched_setattr(2); the number of a kind is its
/// place in the order of the tests, from 1. It prints as its name.
#[derive(Clone, Copy, Debug)]
pub enum AttrRefusal {
    /// 1: the policy is not SCHED_DEADLINE.
    NotDeadline,
    /// 2: a flag outside 1, 2 and 4.
    UnknownFlag,
    /// 3: a value of 2^63 ns or more.
    TopBit,
    /// 4: a runtime below 1024 ns.
    Small,
    /// 5: not runtime <= deadline <= period.
    Order,
    /// 6: a value that is no whole number of microseconds (own).
    Grain,
    /// 7: a period above 2^32 us (own).
    Long,
}

impl fmt::Display for AttrRefusal {
    ghost use Rattle.std.specs.Prelude.{Some};
    ghost use Rattle.attr_check.specs.RefusalName.{refusal_name};

    ghost output = { λ r. Some (refusal_name r) };

    fn fmt<W: fmt::Write>(&self, f: &mut fmt::Formatter<W>) -> fmt::Result {
        f.write_str(match self {
            AttrRefusal::NotDeadline => "NotDeadline",
            AttrRefusal::UnknownFlag => "UnknownFlag",
            AttrRefusal::TopBit => "TopBit",
            AttrRefusal::Small => "Small",
            AttrRefusal::Order => "Order",
            AttrRefusal::Grain => "Grain",
            AttrRefusal::Long => "Long",
        })
    }
}

impl Error for AttrRefusal {}
