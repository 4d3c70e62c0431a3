use crate::view::View;
use atomic_table::Seat;
use std::marker::Model;

/// A piece of a gate that holds no bandwidth: what a client needs to take a ticket. It may be
/// dropped, and is then missing at [`Gate::close`](crate::Gate::close). To a contract it is its
/// gate and the words that its steps have found, or left where they set a limit.
#[derive(Drop)]
pub struct Blank {
    pub(crate) seat: Seat<(), View>,
    pub(crate) last: u64,
}

impl Model for Blank {
    ghost use Rattle.std.specs.Prelude.{◌≡◌, [], ◌∷◌};
    ghost use Rattle.bw_gate.specs.Pieces.{BlankView, last_word_found};
    ghost use Rattle.bw_gate.specs.declared.view.Piece.TheVariants.{Blank as blank};

    ghost Value = { BlankView };

    ghost view = { λ b. record {
      gate = record { table = b.seat.table_id; terms = b.seat.me.0.terms };
      found = b.seat.me.0.found;
    } };

    ghost invariant = { λ b. (b.seat.me.1 ≡ [])
        × (b.seat.me.0.pieces ≡ blank ∷ [])
        × (b.last ≡ last_word_found b.seat.me.0.found) };
}

/// A piece of a gate that holds bandwidth of a domain's word: the right to a task of that
/// bandwidth. It can be neither cloned nor dropped, so the compiler sees that it goes to
/// [`Gate::give`](crate::Gate::give), into a domain's book or to
/// [`Gate::close`](crate::Gate::close). To a contract it is its gate, its domain and bandwidth, and
/// the words that its steps have found.
pub struct Ticket {
    pub(crate) seat: Seat<(), View>,
    pub(crate) domain: usize,
    pub(crate) bw: u64,
    pub(crate) last: u64,
}

impl Model for Ticket {
    ghost use Rattle.std.specs.Prelude.{◌≡◌, ◌<◌, ◌≤◌, [], ◌∷◌, length};
    ghost use Rattle.limits.specs.Limits.{unit};
    ghost use Rattle.bw_gate.specs.Pieces.{TicketView, last_word_found};
    ghost use Rattle.bw_gate.specs.declared.view.Piece.TheVariants.{Ticket as ticket};

    ghost Value = { TicketView };

    ghost view = { λ t. record {
      gate = record { table = t.seat.table_id; terms = t.seat.me.0.terms };
      domain = t.domain;
      bw = t.bw;
      found = t.seat.me.0.found;
    } };

    ghost invariant = { λ t. (t.seat.me.1 ≡ [])
        × (t.seat.me.0.pieces ≡ ticket t.domain t.bw ∷ [])
        × (t.last ≡ last_word_found t.seat.me.0.found)
        × (t.domain < length t.seat.me.0.terms.cpus)
        × (t.bw ≤ unit) };
}

impl Blank {
    ghost use Rattle.std.specs.Prelude.{◌≡◌};
    ghost use Rattle.bw_gate.specs.Pieces.{last_word_found};

    /// The whole word that this piece's last step found, or left where that step set a limit, also
    /// while it was a ticket; 0 before any.
    pub fn last(&self) -> u64
        ensures { result ≡ last_word_found self.now.found }
    {
        self.last
    }
}

impl Ticket {
    ghost use Rattle.std.specs.Prelude.{◌≡◌, ◌<◌, ◌≤◌, length};
    ghost use Rattle.limits.specs.Limits.{unit};
    ghost use Rattle.bw_gate.specs.Pieces.{last_word_found};

    /// The domain of whose word it holds bandwidth, by its index from 0.
    pub fn domain(&self) -> usize
        ensures domain { result ≡ self.now.domain }
        ensures inside { result < length self.now.gate.terms.cpus }
    {
        self.domain
    }

    /// The bandwidth that it holds, in 1/2^20 of a CPU; at most one CPU.
    pub fn bw(&self) -> u64
        ensures bw { result ≡ self.now.bw }
        ensures one_cpu { result ≤ unit }
    {
        self.bw
    }

    /// The whole word that this piece's last step found, or left where that step set a limit, also
    /// while it was a blank; 0 before any.
    pub fn last(&self) -> u64
        ensures { result ≡ last_word_found self.now.found }
    {
        self.last
    }
}
