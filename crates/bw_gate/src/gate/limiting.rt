mod new_cap;

use super::Gate;
use crate::answer::Limit;
use crate::piece::Blank;
use crate::view::Load;
use crate::word::used_of;
use new_cap::NewCap;
use std::sync::Wait;

impl Gate {
    ghost use Rattle.std.specs.Prelude.{◌≡◌, ◌<◌, length};
    ghost use Rattle.bw_gate.specs.Word.{IsLimit};
    ghost use Rattle.bw_gate.specs.Answers.{IsTryOfLimit, IsLimited};

    /// One try to set a domain's limit, which is what each of its CPUs gives, in 1/2^20 of a CPU:
    /// by the seat of a blank, which stays one, one load and then at most one compare_exchange of
    /// the word for that of the new cap, of which as much is used. It stands for a write to
    /// sched_rt_runtime_us (sched-deadline.rst, "System wide settings").
    ///
    /// [`Limit::Set`] where the word then carries the new cap; the blank has found the word before
    /// and the word left. [`Limit::Refused`] (EBUSY 16) where more is used of the word that the
    /// load found than the new cap: nothing has changed. [`Limit::Raced`] where the exchange found
    /// another word than the load, since another client came between: the word is as that one left
    /// it. Nothing is claimed of which try wins.
    pub fn try_limit(&self, blank: Blank, domain: usize, limit: u64) -> Limit
        requires own { blank.gate ≡ self.now }
        requires inside { domain < length self.now.terms.cpus }
        requires limit { IsLimit limit }
        ensures { IsTryOfLimit blank domain limit result }
    {
        let Blank { mut seat, last: _ } = blank;
        let cap = self.cpus(domain) * limit;
        let shared = &self.table.shared;
        let seen = shared.load::<Load>(&mut seat, domain);
        let used = used_of(seen);
        if used > cap {
            let blank = Blank { seat, last: seen };
            return Limit::Refused { blank, seen };
        }
        let wanted = cap * (1 << 32) + used;
        let found = shared.compare_exchange::<NewCap>(&mut seat, domain, seen, wanted);
        if found == seen {
            return Limit::Set(Blank { seat, last: wanted });
        }
        let blank = Blank { seat, last: found };
        Limit::Raced {
            blank,
            expected: seen,
            seen: found,
        }
    }

    /// Repeats [`Gate::try_limit`] until it is not raced, and answers as its last try. It may so go
    /// on for as long as other clients come between. The blank has then found the two words of each
    /// raced try, what the last try found and nothing else.
    pub fn limit<R: Wait>(&self, rt: &R, mut blank: Blank, domain: usize, limit: u64) -> Limit
        requires own { blank.gate ≡ self.now }
        requires inside { domain < length self.now.terms.cpus }
        requires limit { IsLimit limit }
        ensures { IsLimited blank domain limit result }
    {
        for _ in rt.forever() {
            match self.try_limit(blank, domain, limit) {
                Limit::Set(blank) => return Limit::Set(blank),
                Limit::Refused { blank, seen } => return Limit::Refused { blank, seen },
                Limit::Raced {
                    blank: back,
                    expected: _,
                    seen: _,
                } => blank = back,
            }
        }
        unreachable!()
    }
}
