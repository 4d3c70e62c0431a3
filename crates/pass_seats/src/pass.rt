use crate::view::View;
use atomic_table::Badge;
use std::marker::Model;

/// A client's list of the entries that it made in one spine, oldest first. To a contract it is its
/// spine, its client and the list. It may be dropped.
#[derive(Drop)]
pub struct Pass<E> {
    pub(crate) badge: Badge<View<E>>,
    pub(crate) client: u32,
    pub(crate) made: u64,
}

impl<E> Model for Pass<E> {
    ghost use Rattle.std.specs.Prelude.{◌≡◌, [], ◌∷◌, length};
    ghost use Rattle.pass_seats.specs.Lists.{PassView};
    ghost use Rattle.pass_seats.specs.private.Pass.{pass_entries, pass_view};

    ghost Value = { PassView E };

    ghost view = { λ p. record {
      spine = p.badge.table_id;
      client = p.client;
      entries = pass_entries p.badge.views;
    } };

    ghost invariant = { λ p. (p.badge.views ≡ pass_view p.client (pass_entries p.badge.views) ∷ [])
        × (p.made ≡ length (pass_entries p.badge.views)) };
}

impl<E> Pass<E> {
    ghost use Rattle.std.specs.Prelude.{◌≡◌, length};

    /// The client, from 1.
    pub fn client(&self) -> u32
        ensures { result ≡ self.now.client }
    {
        self.client
    }

    /// How many entries were made with it.
    pub fn made(&self) -> u64
        ensures { result ≡ length self.now.entries }
    {
        self.made
    }
}
