//! The chosen tasks of one choice that run nowhere.

ghost use Rattle.std.specs.Prelude.{◌≡◌, ◌<◌, ◌++◌, ◌∷◌, [], IfOk, length};

use crate::candidate::Candidate;
use std::alloc::{AllocError, Global};
use std::marker::Model;

/// At most 64 tasks, in the order in which they were chosen. Movers with other room than for 64
/// cannot be built. Contracts see them as the list.
#[derive(Drop)]
pub(crate) struct Movers {
    list: Vec<Candidate>,
}

impl Model for Movers {
    ghost use Rattle.std.specs.Prelude.{List, ◌≡◌, vec_capacity};
    ghost use Rattle.edf_pick.specs.declared.candidate.Candidate.{Candidate};

    ghost Value = { List Candidate };

    ghost view = { λ m. m.list.items };

    ghost invariant = { λ m. vec_capacity m.list ≡ 64 };
}

impl Movers {
    /// None. No other call takes memory. `Err` where the room was refused.
    pub(crate) fn open(alloc: Global) -> Result<Movers, AllocError>
        ensures { IfOk result (λ movers. movers ≡ []) }
    {
        Ok(Movers {
            list: Vec::with_capacity(alloc, 64)?,
        })
    }

    /// How many there are.
    #[inline(always)]
    pub(crate) fn len(&self) -> usize
        ensures { result ≡ length self.now }
    {
        self.list.len()
    }

    /// The first one first.
    #[inline(always)]
    pub(crate) fn as_slice(&self) -> &[Candidate]
        ensures { result.now ≡ self.now }
    {
        self.list.as_slice()
    }

    /// There is none any more.
    #[inline(always)]
    pub(crate) fn clear(&mut self)
        ensures { self.new ≡ [] }
    {
        self.list.clear();
    }

    /// One more, after the others.
    #[inline(always)]
    pub(crate) fn push(&mut self, c: Candidate)
        requires { length self.old < 64 }
        ensures { self.new ≡ self.old ++ c ∷ [] }
    {
        self.list.push_reserved(c);
    }
}
