//! The history of a book: the entries, beside the spine that lists them by client.

ghost use Rattle.std.specs.Prelude.{◌≡◌, ◌<◌, ◌≤◌, ◌↔◌, ◌+◌, ◌++◌, ◌∷◌, [], ℕ, length, slice_get, IfOk, IsTrue, All};
ghost use Rattle.calls_text.specs.Limits.{IsCall};
ghost use Rattle.call_book.specs.Book.{IsMember, entry_by, with_entry, own_entries};
ghost use Rattle.call_book.specs.private.Ledger.{LedgerView, IsHistory};
ghost use Rattle.limits.specs.Limits.{max_history};

use crate::book::Pass;
use calls_text::Entry;
use domain_run::{Call, NoMemory, Reply};
use pass_seats::Spine;
use std::alloc::Global;
use std::marker::Model;

/// The entries of a book with room for so many, and the spine in which its clients' passes agree
/// with them.
#[derive(Drop)]
pub(crate) struct Ledger {
    spine: Spine<Entry>,
    clients: u32,
    room: usize,
    entries: Vec<Entry>,
}

impl Model for Ledger {
    ghost use Rattle.std.specs.Prelude.{vec_capacity};
    ghost use Rattle.call_book.specs.private.Ledger.{LedgerView, IsLedger};

    ghost Value = { LedgerView };

    ghost view = { λ l. record {
      spine = l.spine.spine;
      clients = l.clients;
      room = l.room;
      history = l.entries.items;
    } };

    ghost invariant = { λ l. IsLedger l.spine l.clients l.room l.entries.items
        (vec_capacity l.entries) };
}

impl Ledger {
    /// No entry, with room for so many, and the passes of the clients.
    pub(crate) fn open(
        alloc: Global,
        clients: u32,
        room: usize,
    ) -> Result<(Ledger, Vec<Pass>), NoMemory>
        requires clients { clients ≤ 64 }
        requires room { room ≤ max_history }
        ensures ledger { IfOk result (λ r. r.0
            ≡ record { spine = r.0.spine; clients = clients; room = room; history = [] }) }
        ensures count { IfOk result (λ r. length r.1.items ≡ clients) }
        ensures passes { IfOk result (λ r. (k : ℕ) → k < clients
            → slice_get r.1.items k
            ≡ Some (record { spine = r.0.spine; client = k + 1; entries = [] })) }
    {
        let entries = Vec::with_capacity(alloc, room)?;
        let Ok((spine, passes)) = Spine::open(alloc, clients) else {
            return Err(NoMemory);
        };
        let ledger = Ledger {
            spine,
            clients,
            room,
            entries,
        };
        Ok((ledger, passes))
    }

    pub(crate) fn is_full(&self) -> bool
        ensures full { IsTrue result ↔ (length self.now.history ≡ self.now.room) }
        ensures history { IsHistory self.now.clients self.now.room self.now.history }
    {
        self.entries.len() == self.room
    }

    /// The entries, to be looked at.
    pub(crate) fn entries(&self) -> &[Entry]
        ensures entries { result.now ≡ self.now.history }
        ensures history { IsHistory self.now.clients self.now.room self.now.history }
    {
        &self.entries
    }

    /// Adds a call with its reply to the history and to the pass that it is made with.
    pub(crate) fn enter(&mut self, pass: &mut Pass, call: Call, reply: Reply)
        requires own { pass.old.spine ≡ self.old.spine }
        requires member { IsMember self.old.clients pass.old.client }
        requires free { length self.old.history < self.old.room }
        requires call { IsCall call }
        ensures ledger { self.new ≡ record self.old {
          history = self.old.history ++ entry_by pass.old call reply
              ∷ [];
        } }
        ensures pass { pass.new ≡ with_entry pass.old call reply }
    {
        self.spine.agree(pass);
        let entry = Entry {
            client: pass.client(),
            seq: pass.made(),
            call,
            reply: Some(reply),
        };
        self.spine.append(pass, &entry);
        self.entries.push_reserved(entry);
    }

    /// Compares a pass with the history, which changes neither.
    pub(crate) fn agree(&mut self, pass: &mut Pass)
        requires { pass.old.spine ≡ self.old.spine }
        ensures ledger { self.new ≡ self.old }
        ensures pass { pass.new ≡ pass.old }
        ensures own { pass.new.entries ≡ own_entries pass.new.client self.new.history }
        ensures history { IsHistory self.new.clients self.new.room self.new.history }
    {
        self.spine.agree(pass);
    }

    /// Compares the last passes with the history.
    pub(crate) fn agree_all(&mut self, mut passes: Vec<Pass>)
        requires { All (λ p. p.spine ≡ self.old.spine) passes.items }
        ensures ledger { self.new ≡ self.old }
        ensures own { All (λ p. p.entries ≡ own_entries p.client self.old.history) passes.items }
    {
        while let Some(mut pass) = passes.pop() {
            self.agree(&mut pass);
        }
    }

    /// The entries.
    pub(crate) fn into_entries(self) -> Vec<Entry>
        ensures entries { result.items ≡ self.history }
        ensures history { IsHistory self.clients self.room self.history }
    {
        let Ledger {
            spine: _,
            clients: _,
            room: _,
            entries,
        } = self;
        entries
    }
}
