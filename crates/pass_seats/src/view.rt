use atomic_table::{Join, Play, Split, TableRule};
use std::collections::LinkedList;
use std::marker::{Brand, PhantomData};

/// A pass in a view: its client and the entries that were made with it.
pub struct Mine<E> {
    pub client: u32,
    pub entries: LinkedList<E>,
}

/// What a seat at the table knows: whether it is the spine's, and then its entries, and the passes.
/// No value of it is made.
pub struct View<E> {
    pub is_spine: bool,
    pub log: LinkedList<(u32, E)>,
    pub passes: LinkedList<Mine<E>>,
}

/// The rule of a spine's table.
pub struct Listed;

impl<E> TableRule<(), View<E>, u32> for Listed {
    ghost use Rattle.pass_seats.specs.Listed.{IsListed, opened};

    ghost holds = { λ clients s. IsListed s.views };

    ghost first = { opened };
}

/// The entries that a step says.
pub trait Said<E> {
    ghost use Rattle.std.specs.Prelude.{List};

    ghost said: { List E };
}

impl<E> Said<E> for Brand {
    ghost use Rattle.std.specs.Prelude.{[]};

    ghost said = { [] };
}

/// Appends what is said to both lists.
pub(crate) struct Append<J> {
    marker: PhantomData<J>,
}

impl<E, J: Said<E>> Play<(), View<E>> for Append<J> {
    ghost use Rattle.pass_seats.specs.Kinds.{Appends};

    ghost then = { Appends J.said };
}

/// Compares both lists.
pub(crate) struct Agree;

impl<E> Play<(), View<E>> for Agree {
    ghost use Rattle.pass_seats.specs.Kinds.{Agrees};

    ghost then = { Agrees };
}

/// Splits the first pass off.
pub(crate) struct Deal;

impl<E> Split<View<E>> for Deal {
    ghost use Rattle.pass_seats.specs.Kinds.{first_pass, other_passes};

    ghost left = { other_passes };

    ghost right = { first_pass };
}

/// Takes a pass in.
pub(crate) struct Gather;

impl<E> Join<View<E>> for Gather {
    ghost use Rattle.pass_seats.specs.Kinds.{joined, spent_seat};

    ghost both = { joined };

    ghost spent = { spent_seat };
}
