ghost use Rattle.std.specs.Prelude.{◌≡◌, length, take, map};
ghost use Rattle.bw_gate.specs.Terms.{AreRooms};
ghost use Rattle.bw_gate.specs.Word.{first_word};

use std::marker::Model;

/// The most domains that one gate has.
pub(crate) const DOMAINS: usize = 8;

/// What one domain of a gate has room for when the gate is opened: its CPUs, and what each of them
/// gives to its tasks.
#[derive(Clone, Copy)]
pub struct Room {
    /// How many CPUs, 1 to 64.
    pub cpus: u64,
    /// What each of them gives, in 1/2^20 of a CPU: 10485 to 1048576.
    pub limit: u64,
}

/// What a gate is opened with: the CPUs and the limit of each domain, and the number of pieces.
#[derive(Drop)]
pub struct Terms {
    cpus: [u64; DOMAINS],
    limits: [u64; DOMAINS],
    count: usize,
    pieces: usize,
}

impl Model for Terms {
    ghost use Rattle.std.specs.Prelude.{◌≤◌, take};
    ghost use Rattle.bw_gate.specs.Terms.{TermsView, AreTerms};

    ghost Value = { TermsView };

    ghost view = { λ t. record {
      cpus = take t.count t.cpus;
      limits = take t.count t.limits;
      pieces = t.pieces;
    } };

    ghost invariant = { λ t. (t.count ≤ 8)
        × AreTerms
        (record {
          cpus = take t.count t.cpus;
          limits = take t.count t.limits;
          pieces = t.pieces;
        }) };
}

impl Terms {
    ghost use Rattle.std.specs.Prelude.{◌≡◌, ◌<◌, length};
    ghost use Rattle.bw_gate.specs.Terms.{AreTerms, terms_of, cpus_in};

    pub(crate) fn new(rooms: &[Room], pieces: usize) -> Terms
        requires { AreTerms (terms_of rooms.now pieces) }
        ensures { result ≡ terms_of rooms.now pieces }
    {
        let mut row = [0; DOMAINS];
        let mut limits = [0; DOMAINS];
        for i in 0..rooms.len() {
            row[i] = rooms[i].cpus;
            limits[i] = rooms[i].limit;
        }
        Terms {
            cpus: row,
            limits,
            count: rooms.len(),
            pieces,
        }
    }

    pub(crate) fn count(&self) -> usize
        ensures { result ≡ length self.now.cpus }
    {
        self.count
    }

    pub(crate) fn pieces(&self) -> usize
        ensures { result ≡ self.now.pieces }
    {
        self.pieces
    }

    pub(crate) fn cpus(&self, domain: usize) -> u64
        requires { domain < length self.now.cpus }
        ensures { result ≡ cpus_in self.now domain }
    {
        let cpus = &self.cpus;
        cpus[domain]
    }
}

/// The words that a gate is opened with: each carries its cap, and nothing is used.
pub(crate) fn first_words(rooms: &[Room], pieces: usize) -> [u64; DOMAINS]
    requires { AreRooms rooms.now pieces }
    ensures { take (length rooms.now) result ≡ map first_word rooms.now }
{
    let mut row = [0; DOMAINS];
    for i in 0..rooms.len() {
        row[i] = rooms[i].cpus * rooms[i].limit * (1 << 32);
    }
    row
}
