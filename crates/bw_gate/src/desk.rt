use crate::piece::Blank;
use crate::terms::Terms;
use crate::view;
use crate::view::{Exact, View};
use atomic_table::Shared;
use std::marker::Model;

/// What a gate lends for the renewal of its blanks. It has none of the gate's calls, so that
/// [`Blank::renew`] can set no limit, which it would leave untold. To a contract it is the gate's
/// identity.
#[derive(Drop)]
pub struct Desk<'a> {
    pub(crate) shared: &'a Shared<(), View, Terms, Exact>,
}

impl<'a> Model for Desk<'a> {
    ghost use Rattle.std.specs.Prelude.{◌≡◌, ◌<◌, length};
    ghost use Rattle.bw_gate.specs.Pieces.{GateId};

    ghost Value = { GateId };

    ghost view = { λ d. record { table = d.shared.now.table_id; terms = d.shared.now.key } };

    ghost invariant = { λ d. (d.shared.now.table_id.words ≡ length d.shared.now.key.cpus)
        × (0 < length d.shared.now.key.cpus)
        × (d.shared.now.table_id.slots ≡ 0) };
}

impl Blank {
    ghost use Rattle.std.specs.Prelude.{◌≡◌, []};

    /// The same blank as [`Gate::open`](crate::Gate::open) deals it, which has found nothing. By
    /// one load, of which nothing is told.
    pub fn renew(self, desk: Desk<'_>) -> Blank
        requires { self.gate ≡ desk }
        ensures { result ≡ record { gate = self.gate; found = [] } }
    {
        let Blank { mut seat, .. } = self;
        let _ = desk.shared.load::<view::Renew>(&mut seat, 0);
        Blank { seat, last: 0 }
    }
}
