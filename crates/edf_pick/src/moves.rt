//! Which CPUs another one has after a choice.

ghost use Rattle.std.specs.Prelude.{ℕ, ◌≡◌, ◌≤◌, ◌<◌, ◌++◌, ◌∷◌, [], None, false, IfOk, length, slice_index_or, slice_set, vec_len, vec_capacity};
ghost use Rattle.std.specs.Int.{bit_at};
ghost use Rattle.edf_pick.specs.Moves as spec;

use cpu_marks::{first, without};
use std::alloc::{AllocError, Global};
use std::marker::Model;

/// A CPU that another one has after a choice, or nobody, and which task ran there before.
#[derive(Clone, Copy)]
pub struct Moved {
    /// From 0 on.
    pub cpu: usize,
    /// The number of a task, or none where the CPU was idle.
    pub before: Option<u32>,
}

/// The CPUs that a choice has given to another one, in their order: at most 64. Moves with other
/// room than for 64 cannot be built. Contracts see them as the list.
#[derive(Drop)]
pub(crate) struct Moves {
    list: Vec<Moved>,
}

impl Model for Moves {
    ghost use Rattle.std.specs.Prelude.{List, ◌≡◌, vec_capacity};
    ghost use Rattle.edf_pick.specs.declared.moves.Moved.{Moved};

    ghost Value = { List Moved };

    ghost view = { λ m. m.list.items };

    ghost invariant = { λ m. vec_capacity m.list ≡ 64 };
}

impl Moves {
    /// None. No other call takes memory. `Err` where the room was refused.
    pub(crate) fn open(alloc: Global) -> Result<Moves, AllocError>
        ensures { IfOk result (λ moves. moves ≡ []) }
    {
        Ok(Moves {
            list: Vec::with_capacity(alloc, 64)?,
        })
    }

    /// Each CPU once, from the first one on.
    pub(crate) fn as_slice(&self) -> &[Moved]
        ensures { result.now ≡ self.now }
    {
        self.list.as_slice()
    }

    /// None is listed any more.
    #[inline(always)]
    pub(crate) fn clear(&mut self)
        ensures { self.new ≡ [] }
    {
        self.list.clear();
    }

    /// The first CPU alone, where this one ran before.
    #[inline(always)]
    pub(crate) fn list_first(&mut self, before: Option<u32>)
        ensures { self.new ≡ record { cpu = 0; before = before } ∷ [] }
    {
        self.list.clear();
        self.list.push_reserved(Moved { cpu: 0, before });
    }

    /// Lists the marked CPUs, which are those whose occupants differ from those before, and brings
    /// those before up to date.
    pub(crate) fn list(
        &mut self,
        before: &mut Vec<Option<u32>>,
        occupants: &[Option<u32>],
        changed: u64,
    )
        requires few { vec_len before.old ≤ 64 }
        requires len { vec_len before.old ≡ length occupants.now }
        requires others { (cpu : ℕ) → bit_at changed cpu ≡ 0
            → slice_index_or before.old.items cpu None ≡ slice_index_or occupants.now cpu None }
        requires differ { (cpu : ℕ) → bit_at changed cpu ≡ 1
            → spec.same_occupant (slice_index_or before.old.items cpu None)
            (slice_index_or occupants.now cpu None) ≡ false }
        ensures moves { self.new ≡ spec.moved_from 0 before.old.items occupants.now }
        ensures before { before.new.items ≡ occupants.now }
        ensures room { vec_capacity before.new ≡ vec_capacity before.old }
    {
        list_all(before, occupants, changed, &mut self.list);
    }
}

/// Whether two occupants are one task, or both nobody.
pub(crate) fn is_same(a: Option<u32>, b: Option<u32>) -> bool
    ensures { result ≡ spec.same_occupant a b }
{
    match (a, b) {
        (Some(m), Some(n)) => m == n,
        (None, None) => true,
        _ => false,
    }
}

// Lists a CPU that another one has.
#[inline(always)]
fn list_one(
    before: &mut Vec<Option<u32>>,
    occupants: &[Option<u32>],
    cpu: usize,
    list: &mut Vec<Moved>,
)
    requires within { cpu < vec_len before.old }
    requires len { vec_len before.old ≡ length occupants.now }
    requires differs { spec.same_occupant (slice_index_or before.old.items cpu None)
        (slice_index_or occupants.now cpu None) ≡ false }
    requires room { vec_len list.old < vec_capacity list.old }
    ensures list { list.new.items ≡ list.old.items ++ spec.moved_at cpu
        (slice_index_or before.old.items cpu None) (slice_index_or occupants.now cpu None) }
    ensures before { before.new.items
        ≡ slice_set before.old.items cpu (slice_index_or occupants.now cpu None) }
    ensures len { vec_len before.new ≡ vec_len before.old }
    ensures room { vec_capacity before.new ≡ vec_capacity before.old }
    ensures list_room { vec_capacity list.new ≡ vec_capacity list.old }
{
    list.push_reserved(Moved {
        cpu,
        before: before[cpu],
    });
    before[cpu] = occupants[cpu];
}

#[inline(always)]
fn list_all(
    before: &mut Vec<Option<u32>>,
    occupants: &[Option<u32>],
    changed: u64,
    list: &mut Vec<Moved>,
)
    requires few { vec_len before.old ≤ 64 }
    requires len { vec_len before.old ≡ length occupants.now }
    requires room { vec_capacity list.old ≡ 64 }
    requires others { (cpu : ℕ) → bit_at changed cpu ≡ 0
        → slice_index_or before.old.items cpu None ≡ slice_index_or occupants.now cpu None }
    requires differ { (cpu : ℕ) → bit_at changed cpu ≡ 1
        → spec.same_occupant (slice_index_or before.old.items cpu None)
        (slice_index_or occupants.now cpu None) ≡ false }
    ensures list { list.new.items ≡ spec.moved_from 0 before.old.items occupants.now }
    ensures before { before.new.items ≡ occupants.now }
    ensures room { vec_capacity before.new ≡ vec_capacity before.old }
    ensures list_room { vec_capacity list.new ≡ vec_capacity list.old }
{
    list.clear();
    let mut left = changed;
    'cpus: while left != 0 {
        let cpu = first(left);
        left = without(left, cpu);
        list_one(before, occupants, cpu, list);
    }
}
