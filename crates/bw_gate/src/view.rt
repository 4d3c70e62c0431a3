use crate::terms::Terms;
use atomic_table::{Join, Play, Split, TableRule};
use std::collections::LinkedList;

/// A piece: a blank, or a ticket that holds a bandwidth of a domain's word.
pub enum Piece {
    Blank,
    Ticket { domain: usize, bw: u64 },
}

/// A word that a step found, or left where it set a limit, and the domain of that word.
pub struct Found {
    pub domain: usize,
    pub word: u64,
}

/// What a seat at the table knows: its pieces, the words that its steps have found, the limits that
/// they have set, and the gate's terms. No value of it is made.
pub struct View {
    pub pieces: LinkedList<Piece>,
    pub found: LinkedList<Found>,
    // The domains whose limit its steps have set.
    pub limited_in: LinkedList<usize>,
    pub terms: Terms,
}

/// The rule of a gate's table.
pub struct Exact;

impl TableRule<(), View, Terms> for Exact {
    ghost use Rattle.bw_gate.specs.Table.{IsTableKept, blank_table};

    ghost holds = { λ terms s. IsTableKept terms s.words s.views };

    ghost first = { blank_table };
}

/// Reads a word.
pub(crate) struct Load;

impl Play<(), View> for Load {
    ghost use Rattle.bw_gate.specs.Kinds.{Loads};

    ghost then = { Loads };
}

/// Makes a blank a ticket.
pub(crate) struct Take;

impl Play<(), View> for Take {
    ghost use Rattle.bw_gate.specs.Kinds.{Takes};

    ghost then = { Takes };
}

/// Changes a ticket's bandwidth.
pub(crate) struct Regrade;

impl Play<(), View> for Regrade {
    ghost use Rattle.bw_gate.specs.Kinds.{Regrades};

    ghost then = { Regrades };
}

/// Makes a ticket a blank.
pub(crate) struct Give;

impl Play<(), View> for Give {
    ghost use Rattle.bw_gate.specs.Kinds.{Gives};

    ghost then = { Gives };
}

/// Splits the first piece off.
pub(crate) struct Deal;

impl Split<View> for Deal {
    ghost use Rattle.bw_gate.specs.Kinds.{first_piece, other_pieces};

    ghost left = { other_pieces };

    ghost right = { first_piece };
}

/// Makes a piece as it is dealt.
pub(crate) struct Renew;

impl Play<(), View> for Renew {
    ghost use Rattle.bw_gate.specs.Kinds.{Renews};

    ghost then = { Renews };
}

/// Brings a seat without a piece.
pub(crate) struct Come;

impl Play<(), View> for Come {
    ghost use Rattle.bw_gate.specs.Kinds.{Comes};

    ghost then = { Comes };
}

/// Takes the pieces of another seat in.
pub(crate) struct Gather;

impl Join<View> for Gather {
    ghost use Rattle.bw_gate.specs.Kinds.{with_pieces_of, spent};

    ghost both = { with_pieces_of };

    ghost spent = { spent };
}
