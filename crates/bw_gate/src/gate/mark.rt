use super::Gate;
use crate::view;
use crate::view::View;
use atomic_table::Seat;
use std::marker::Model;

/// Which gate it is: a token for whoever keeps pieces of one gate and not the gate itself. It is no
/// piece and holds no bandwidth. To a contract it is the gate's identity.
#[derive(Drop)]
pub struct Mark {
    seat: Seat<(), View>,
}

impl Model for Mark {
    ghost use Rattle.bw_gate.specs.Pieces.{GateId};

    ghost Value = { GateId };

    ghost view = { λ m. record { table = m.seat.table_id; terms = m.seat.me.0.terms } };
}

impl Gate {
    ghost use Rattle.std.specs.Prelude.{◌≡◌};

    /// A mark of this gate, by one load. Takes no memory.
    pub fn mark(&self) -> Mark
        ensures { result ≡ self.now }
    {
        let (_, seat) = self.table.shared.load_new_seat::<view::Come>(0);
        Mark { seat }
    }
}
