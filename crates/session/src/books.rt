//! The books of a session, each after a lock whose type tells its domain.

ghost use Rattle.std.specs.Prelude.{◌≡◌, ◌≤◌, ◌+◌, min, nat_lt, is_some, length, [], IfSome, vec_capacity};
ghost use Rattle.session.specs.private.Parts.{AreSessionBooks};

use crate::locked_book::LockedBook;
use crate::names::Names;
use crate::parts::BoxedDomain;
use bw_gate::Blank;
use call_book::Domain;
use std::marker::PhantomData;
use std::sync::{Mutex, Wait};

/// The domains of a session, each after a lock whose type tells its place.
pub(crate) struct Books<N: Names> {
    pub(crate) book0: Option<Mutex<LockedBook<N, 0>>>,
    pub(crate) book1: Option<Mutex<LockedBook<N, 1>>>,
    pub(crate) book2: Option<Mutex<LockedBook<N, 2>>>,
    pub(crate) book3: Option<Mutex<LockedBook<N, 3>>>,
    pub(crate) book4: Option<Mutex<LockedBook<N, 4>>>,
    pub(crate) book5: Option<Mutex<LockedBook<N, 5>>>,
    pub(crate) book6: Option<Mutex<LockedBook<N, 6>>>,
    pub(crate) book7: Option<Mutex<LockedBook<N, 7>>>,
    ghost has0: { is_some book0 ≡ nat_lt 0 (length N.id.cpu_sets) },
    ghost has1: { is_some book1 ≡ nat_lt 1 (length N.id.cpu_sets) },
    ghost has2: { is_some book2 ≡ nat_lt 2 (length N.id.cpu_sets) },
    ghost has3: { is_some book3 ≡ nat_lt 3 (length N.id.cpu_sets) },
    ghost has4: { is_some book4 ≡ nat_lt 4 (length N.id.cpu_sets) },
    ghost has5: { is_some book5 ≡ nat_lt 5 (length N.id.cpu_sets) },
    ghost has6: { is_some book6 ≡ nat_lt 6 (length N.id.cpu_sets) },
    ghost has7: { is_some book7 ≡ nat_lt 7 (length N.id.cpu_sets) },
}

/// Makes a call with the book of a place; each has a lock of its own type.
macro_rules! at_place {
    ($books:expr, $place:expr, $book:ident => $call:expr) => {
        match $place {
            0 => { let $book = &$books.book0; $call }
            1 => { let $book = &$books.book1; $call }
            2 => { let $book = &$books.book2; $call }
            3 => { let $book = &$books.book3; $call }
            4 => { let $book = &$books.book4; $call }
            5 => { let $book = &$books.book5; $call }
            6 => { let $book = &$books.book6; $call }
            _ => { let $book = &$books.book7; $call }
        }
    };
}

pub(crate) use at_place;

/// Puts the last book after its lock, where it is that of this place. The books are those of the
/// first domains: at most one more than the place before, and at most as many after.
fn locked<N: Names, const D: usize>(books: &mut Vec<BoxedDomain>) -> Option<Mutex<LockedBook<N, D>>>
    requires named { AreSessionBooks N.id books.old.items }
    requires count { length books.old.items ≡ min (D + 1) (length N.id.cpu_sets) }
    ensures some { is_some result ≡ nat_lt D (length N.id.cpu_sets) }
    ensures named { AreSessionBooks N.id books.new.items }
    ensures count { length books.new.items ≡ min D (length N.id.cpu_sets) }
    ensures room { vec_capacity books.new ≡ vec_capacity books.old }
{
    if books.len() <= D {
        return None;
    }
    let book = books.pop()?;
    let BoxedDomain { domain } = book;
    Some(Mutex::new(LockedBook {
        domain,
        of: PhantomData,
    }))
}

impl<N: Names> Books<N> {
    pub(crate) fn new(books: &mut Vec<BoxedDomain>) -> Books<N>
        requires named { AreSessionBooks N.id books.old.items }
        requires count { length books.old.items ≡ length N.id.cpu_sets }
        requires few { length books.old.items ≤ 8 }
        ensures left { books.new.items ≡ [] }
        ensures room { vec_capacity books.new ≡ vec_capacity books.old }
    {
        let book7 = locked(books);
        let book6 = locked(books);
        let book5 = locked(books);
        let book4 = locked(books);
        let book3 = locked(books);
        let book2 = locked(books);
        let book1 = locked(books);
        let book0 = locked(books);
        Books {
            book0,
            book1,
            book2,
            book3,
            book4,
            book5,
            book6,
            book7,
        }
    }

    pub(crate) fn spare_at<R: Wait>(&self, rt: &R, place: usize) -> Option<Blank>
        ensures { IfSome result (λ b. b.gate ≡ N.id.gate) }
    {
        at_place!(self, place, book => spare(rt, book))
    }
}

/// A blank that a domain keeps.
fn spare<N: Names, const D: usize, R: Wait>(
    rt: &R,
    book: &Option<Mutex<LockedBook<N, D>>>,
) -> Option<Blank>
    ensures { IfSome result (λ b. b.gate ≡ N.id.gate) }
{
    match book {
        Some(lock) => lock.lock(rt).domain.spare(),
        None => None,
    }
}

/// Takes a book out of its lock, where the session has it.
fn unlock<N: Names, const D: usize>(lock: Option<Mutex<LockedBook<N, D>>>, books: &mut Vec<Domain>)
    requires some { is_some lock ≡ nat_lt D (length N.id.cpu_sets) }
    requires before { length books.old.items ≡ min D (length N.id.cpu_sets) }
    requires named { AreSessionBooks N.id books.old.items }
    requires room { length N.id.cpu_sets ≤ vec_capacity books.old }
    ensures count { length books.new.items ≡ min (D + 1) (length N.id.cpu_sets) }
    ensures named { AreSessionBooks N.id books.new.items }
    ensures room { vec_capacity books.new ≡ vec_capacity books.old }
{
    if let Some(lock) = lock {
        let LockedBook { domain, of: _ } = lock.into_inner();
        books.push_reserved(Box::into_inner(domain));
    }
}

/// Takes all books out of their locks. Takes no memory.
pub(crate) fn unlock_all<N: Names>(locks: Books<N>, mut room: Vec<Domain>) -> Vec<Domain>
    requires empty { room.items ≡ [] }
    requires enough { length N.id.cpu_sets ≤ vec_capacity room }
    requires few { length N.id.cpu_sets ≤ 8 }
    ensures count { length result.items ≡ length N.id.cpu_sets }
    ensures named { AreSessionBooks N.id result.items }
{
    let Books {
        book0,
        book1,
        book2,
        book3,
        book4,
        book5,
        book6,
        book7,
    } = locks;
    unlock(book0, &mut room);
    unlock(book1, &mut room);
    unlock(book2, &mut room);
    unlock(book3, &mut room);
    unlock(book4, &mut room);
    unlock(book5, &mut room);
    unlock(book6, &mut room);
    unlock(book7, &mut room);
    room
}
