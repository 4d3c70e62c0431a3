use crate::view::View;
use atomic_table::Play;

/// Exchanges a word's cap. Only the file of `try_limit` can name this kind of step, and no other
/// kind changes a cap.
pub struct NewCap;

impl Play<(), View> for NewCap {
    ghost use Rattle.bw_gate.specs.Kinds.{Limits};

    ghost then = { Limits };
}
