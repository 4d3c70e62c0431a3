//! A session: one gate, and the domains after their locks.

ghost use Rattle.std.specs.Prelude.{◌≡◌, ◌≤◌, ◌<◌, length, replicate, true, [], IfOk, vec_capacity};
ghost use Rattle.session.specs.Clients.{IsHandedOut};
ghost use Rattle.session.specs.Report.{IsSessionReport};

use crate::books::{Books, unlock_all};
use crate::client::Client;
use crate::closing_session::{Remains, Rooms, Unlocked, pour_waiting};
use crate::names::Names;
use crate::parts::{Hand, Parts, shut};
use crate::pool::Pool;
use crate::report::Report;
use crate::shared::{Shared, Shares};
use bw_gate::Gate;
use call_book::{Domain, NoMemory};
use std::alloc::Global;
use std::marker::Model;

/// One gate with the domains that it admits to, each after its own lock, a pool of pieces, and the
/// clients that were not handed out yet. It is neither cloned nor dropped, but closed, since its
/// domains hold tickets. To a contract it is which of its clients, from 1 on, wait to be handed
/// out.
pub struct Session<N: Names> {
    pub(crate) shared: Shared<N>,
    pub(crate) hands: Vec<Option<Hand>>,
    // The limit with which its domains were opened.
    pub(crate) limit: u64,
    // Where the domains will stand when their locks are gone.
    pub(crate) room: Vec<Domain>,
    ghost same_limit: { limit ≡ N.id.limit },
    ghost empty: { room.items ≡ [] },
    ghost enough: { length N.id.cpu_sets ≤ vec_capacity room },
}

impl<N: Names> Model for Session<N> {
    ghost use Rattle.std.specs.Prelude.{◌≡◌, List, Bool, map, is_some, length};
    ghost use Rattle.session.specs.SessionId.{IsSession};
    ghost use Rattle.session.specs.private.Parts.{AreHands};

    ghost Value = { List Bool };

    ghost view = { λ s. map is_some s.hands.items };

    ghost invariant = { λ s. IsSession N.id
        × (length s.hands.items ≡ N.id.clients)
        × AreHands N.id.gate N.id.spines s.hands.items };
}

impl<N: Names> Shares<N> for Session<N> {
    fn shares(&self) -> &Shared<N> {
        &self.shared
    }
}

impl<N: Names> Session<N> {
    /// The session of these parts, with all its clients waiting. Takes no memory.
    pub fn open(parts: Parts) -> Session<N>
        requires { N.id ≡ parts }
        ensures { result ≡ replicate N.id.clients true }
    {
        let Parts {
            gate,
            cpu_sets,
            limit,
            history: _,
            workers: _,
            mut books,
            room,
            hands,
            pool,
        } = parts;
        let shared = Shared {
            gate,
            cpu_sets,
            books: Books::new(&mut books),
            pool: Pool::new(pool),
        };
        books.destroy_empty();
        Session {
            shared,
            hands,
            limit,
            room,
        }
    }

    /// The gate, from which every client may take at any time, without a lock.
    pub fn gate(&self) -> &Gate
        ensures { result.now ≡ N.id.gate }
    {
        &self.shared.gate
    }

    /// What its clients share, for threads that make their calls at once.
    pub fn shared(&self) -> &Shared<N>
        ensures { result.now ≡ N.id.gate }
    {
        let shared = &self.shared;
        // For the prover alone: a look at the gate brings what the type of what is shared keeps.
        let _gate = &shared.gate;
        shared
    }

    /// How many domains it has, 1 to 8.
    pub fn domains(&self) -> usize
        ensures count { result ≡ length N.id.cpu_sets }
        ensures within { (0 < result) × (result ≤ 8) }
    {
        self.shared.cpu_sets.len()
    }

    /// The client of a number, from 1, where it was not handed out before.
    pub fn client(&mut self, number: u32) -> Option<Client<N>>
        ensures { IsHandedOut N.id self.old self.new number result }
    {
        let place = (number as usize).checked_sub(1)?;
        let hand = self.hands.get_mut(place)?.take()?;
        Some(Client::new(number, hand))
    }

    /// Ends the session: the books are closed and all pieces that the clients and the domains have
    /// go home to the gate. Each pass of these clients is compared with its book. [`NoMemory`]
    /// (ENOMEM 12) where a growth was refused: the session is gone, and no clause says what it
    /// left. Its tickets were given back.
    pub fn close(self, alloc: Global, clients: Vec<Client<N>>) -> Result<Report, NoMemory>
        ensures { IfOk result (IsSessionReport N.id clients.items) }
    {
        let Remains { report, states: _ } = self.unlock(alloc)?.end().close(alloc, clients);
        Ok(report)
    }

    /// Takes each domain out of its lock, and reserves all room that the end needs. [`NoMemory`]
    /// (ENOMEM 12) where a growth was refused: the session is gone, and its tickets were given
    /// back.
    pub(crate) fn unlock(self, alloc: Global) -> Result<Unlocked<N>, NoMemory> {
        let Session {
            shared,
            hands,
            limit,
            room,
        } = self;
        let Shared {
            gate,
            cpu_sets,
            books,
            pool,
        } = shared;
        let books = unlock_all(books, room);
        let Ok(rooms) = Rooms::open(alloc, cpu_sets.len()) else {
            shut(alloc, &gate, books);
            return Err(NoMemory);
        };
        let Rooms {
            books: ending,
            room,
        } = rooms;
        let mut blanks = pool.into_blanks();
        pour_waiting::<N>(&mut blanks, hands);
        Ok(Unlocked::new(gate, books, limit, blanks, ending, room))
    }

    /// Ends the session where it is of no use any more; what tickets it holds go back to the gate.
    pub fn shut(self, alloc: Global) {
        let Session {
            shared,
            hands: _,
            limit: _,
            room,
        } = self;
        let Shared {
            gate,
            cpu_sets: _,
            books,
            pool: _,
        } = shared;
        shut(alloc, &gate, unlock_all(books, room));
    }
}
