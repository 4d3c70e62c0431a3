//! The pieces that no client and no domain holds, after a lock that nobody outside this module can
//! take.

ghost use Rattle.std.specs.Prelude.{◌≡◌, All, IfSome};

use crate::names::Names;
use bw_gate::Blank;
use std::marker::PhantomData;
use std::sync::{Mutex, Wait};

/// The pieces themselves.
#[derive(Drop)]
struct Stored<N: Names> {
    blanks: Vec<Blank>,
    of: PhantomData<N>,
    ghost own: { All (λ b. b.gate ≡ N.id.gate) blanks.items },
}

/// The pieces that no client and no domain holds. Its lock is held while one is taken out.
#[derive(Drop)]
pub(crate) struct Pool<N: Names> {
    stored: Mutex<Stored<N>>,
}

impl<N: Names> Pool<N> {
    pub(crate) fn new(blanks: Vec<Blank>) -> Pool<N>
        requires { All (λ b. b.gate ≡ N.id.gate) blanks.items }
    {
        Pool {
            stored: Mutex::new(Stored {
                blanks,
                of: PhantomData,
            }),
        }
    }

    /// A piece, where there is one. Takes no memory.
    pub(crate) fn take<R: Wait>(&self, rt: &R) -> Option<Blank>
        ensures { IfSome result (λ b. b.gate ≡ N.id.gate) }
    {
        self.stored.lock(rt).blanks.pop()
    }

    pub(crate) fn into_blanks(self) -> Vec<Blank>
        ensures { All (λ b. b.gate ≡ N.id.gate) result.items }
    {
        let Pool { stored } = self;
        let Stored { blanks, of: _ } = stored.into_inner();
        blanks
    }
}
