//! The task that runs on each CPU.

ghost use Rattle.std.specs.Prelude.{◌≡◌, ◌≢◌, ◌<◌, ◌≤◌, ◌+◌, ◌∷◌, [], false, All, AllPairs, IfOk, None, Some, length, replicate, slice_set, vec_len, vec_capacity};
ghost use Rattle.edf_pick.specs.Moves.{moved_from};
ghost use Rattle.edf_pick.specs.Places.{AreSingle, AreTaken, is_on_cpu};
ghost use Rattle.edf_pick.specs.private.Ready.{all_held, AreOn, AreAssigned};

use crate::assignments::{occupy, vacate};
use crate::candidate::Candidate;
use crate::moves::Moves;
use crate::running::RunningSet;
use crate::settling::move_on;
use std::alloc::{AllocError, Global};
use std::marker::Model;

/// Which task runs on each of the 1 to 64 CPUs of a root domain: the number of a task, or nobody
/// where the CPU is idle. Contracts see it as the list of its occupants. A placement with room for
/// more or fewer than its CPUs, or where a task is there twice, cannot be built. Beside the list it
/// keeps a word with a mark for each CPU on which a task runs, and a copy of the list.
#[derive(Drop)]
pub struct Placement {
    occupants: Vec<Option<u32>>,
    taken: u64,
    before: Vec<Option<u32>>,
}

impl Model for Placement {
    ghost use Rattle.std.specs.Prelude.{vec_capacity};
    ghost use Rattle.edf_pick.specs.Places.{Places, IsPlaces};

    ghost Value = { Places };

    ghost view = { λ p. p.occupants.items };

    ghost invariant = { λ p. IsPlaces p.occupants.items p.before.items
        (vec_capacity p.occupants) (vec_capacity p.before) p.taken };
}

// So many idle CPUs, with room for no more.
fn idle(alloc: Global, cpus: usize) -> Result<Vec<Option<u32>>, AllocError>
    ensures places { IfOk result (λ places. places.items ≡ replicate cpus None) }
    ensures len { IfOk result (λ places. vec_len places ≡ cpus) }
    ensures room { IfOk result (λ places. vec_capacity places ≡ cpus) }
{
    let mut places = Vec::with_capacity(alloc, cpus)?;
    for _ in 0..cpus {
        places.push_reserved(None);
    }
    Ok(places)
}

// The marks of one CPU, where this one runs or nobody.
fn mark_of(is_on_cpu: Option<u32>) -> u64
    ensures { AreTaken (is_on_cpu ∷ []) result }
{
    match is_on_cpu {
        Some(_) => 1,
        None => 0,
    }
}

impl Placement {
    /// 1 to 64 idle CPUs. No other call takes memory. `Err` where their room was refused.
    pub fn open(alloc: Global, cpus: usize) -> Result<Placement, AllocError>
        requires some { 0 < cpus }
        requires few { cpus ≤ 64 }
        ensures { IfOk result (λ placement. placement ≡ replicate cpus None) }
    {
        Ok(Placement {
            occupants: idle(alloc, cpus)?,
            taken: 0,
            before: idle(alloc, cpus)?,
        })
    }

    /// The only CPU has this one from now on, or nobody.
    #[inline(always)]
    pub(crate) fn give(&mut self, is_on_cpu: Option<u32>)
        requires { length self.old ≡ 1 }
        ensures { self.new ≡ is_on_cpu ∷ [] }
    {
        self.occupants[0] = is_on_cpu;
        self.before[0] = is_on_cpu;
        self.taken = mark_of(is_on_cpu);
    }

    /// The task that runs on each CPU, from CPU 0 on.
    pub fn occupants(&self) -> &[Option<u32>]
        ensures occupants { result.now ≡ self.now }
        ensures some { 0 < length self.now }
        ensures few { length self.now ≤ 64 }
        ensures single { AreSingle self.now }
    {
        self.occupants.as_slice()
    }

    /// A word with a mark for each CPU on which a task runs.
    #[inline(always)]
    pub(crate) fn taken(&self) -> u64
        ensures { AreTaken self.now result }
    {
        self.taken
    }

    /// Nobody runs on this CPU any more.
    pub(crate) fn vacate(&mut self, cpu: usize)
        requires { cpu < length self.old }
        ensures { self.new ≡ slice_set self.old cpu None }
    {
        self.taken = vacate(&mut self.occupants, cpu, self.taken);
        self.before[cpu] = None;
    }

    /// A task that runs nowhere runs on this CPU from now on.
    pub(crate) fn occupy(&mut self, cpu: usize, number: u32)
        requires within { cpu < length self.old }
        requires away { is_on_cpu number self.old ≡ false }
        ensures { self.new ≡ slice_set self.old cpu (Some number) }
    {
        self.taken = occupy(&mut self.occupants, cpu, number, self.taken);
        self.before[cpu] = Some(number);
    }
}

/// As [`crate::settling::move_on`], and lists the CPUs that another one has.
#[inline(always)]
pub(crate) fn settle(
    placement: &mut Placement,
    running: &mut RunningSet,
    movers: &[Candidate],
    moves: &mut Moves,
)
    requires len { length running.old ≡ length placement.old }
    requires free { length (all_held running.old) + length movers.now ≤ length running.old }
    requires numbered { AllPairs (λ a b. a.number ≢ b.number) movers.now }
    requires on { AreOn running.old placement.old }
    requires away { All (λ c. is_on_cpu c.number placement.old ≡ false) movers.now }
    ensures assigned { AreAssigned running.old movers.now running.new placement.new }
    ensures moves { moves.new ≡ moved_from 0 placement.old placement.new }
    ensures single { AreSingle placement.old }
{
    let changed = move_on(
        &mut placement.occupants,
        running,
        movers,
        &mut placement.taken,
    );
    let occupants = placement.occupants.as_slice();
    moves.list(&mut placement.before, occupants, changed);
}
