//! The ready tasks of a root domain and the tasks that run on its CPUs, as one.

ghost use Rattle.std.specs.Prelude.{◌≡◌, ◌≢◌, ◌<◌, ◌≤◌, [], None, length, map, replicate, All, IfOk};
ghost use Rattle.edf_pick.specs.Changes.{with_home};
ghost use Rattle.edf_pick.specs.Moves.{moved_from};
ghost use Rattle.edf_pick.specs.Order as order;
ghost use Rattle.edf_pick.specs.Places.{placed};
ghost use Rattle.edf_pick.specs.Schedule as spec;

use crate::candidate::Candidate;
use crate::leaving::take_out;
use crate::movers::Movers;
use crate::moves::{Moved, Moves};
use crate::placement::Placement;
use crate::queue::Queue;
use crate::renew::pick_ready;
use crate::running::RunningSet;
use std::alloc::{AllocError, Global};
use std::marker::Model;

/// The ready tasks of a root domain and the task that runs on each of its CPUs. Only those who wait
/// are in a queue, apart from those who stay where they run: contracts see both as one queue in the
/// order of the choice. One where two tasks have one number, or where a task runs away from home,
/// cannot be built.
#[derive(Drop)]
pub struct Schedule {
    ready_rest: Queue,
    running: RunningSet,
    movers: Movers,
    placement: Placement,
    moves: Moves,
}

impl Model for Schedule {
    ghost use Rattle.edf_pick.specs.Schedule.{ScheduleView};
    ghost use Rattle.edf_pick.specs.private.Ready.{all_ready, IsReady};

    ghost Value = { ScheduleView };

    ghost view = { λ s. record {
      queue = all_ready s.running s.ready_rest;
      places = s.placement;
      moves = s.moves;
    } };

    ghost invariant = { λ s. IsReady s.running s.ready_rest s.placement };
}

impl Schedule {
    /// No tasks, and 1 to 64 idle CPUs. No other call takes memory. `Err` where the room was
    /// refused.
    pub fn open(alloc: Global, cpus: usize) -> Result<Schedule, AllocError>
        requires some { 0 < cpus }
        requires few { cpus ≤ 64 }
        ensures { IfOk result
            (λ s. s ≡ record { queue = []; places = replicate cpus None; moves = [] }) }
    {
        Ok(Schedule {
            ready_rest: Queue::open(alloc)?,
            running: RunningSet::open(cpus),
            movers: Movers::open(alloc)?,
            placement: Placement::open(alloc, cpus)?,
            moves: Moves::open(alloc)?,
        })
    }

    /// The task that runs on each CPU, from CPU 0 on.
    pub fn occupants(&self) -> &[Option<u32>]
        ensures occupants { result.now ≡ self.now.places }
        ensures some { 0 < length self.now.places }
        ensures few { length self.now.places ≤ 64 }
    {
        self.placement.occupants()
    }

    /// The CPUs that the last choice gave to another one, in their order.
    pub fn moves(&self) -> &[Moved]
        ensures { result.now ≡ self.now.moves }
    {
        self.moves.as_slice()
    }

    /// Takes in a task of a number that no task has; if it runs on a CPU, then on the one to which
    /// it belongs.
    pub fn insert(&mut self, c: Candidate)
        requires few { length self.old.queue < 256 }
        requires numbered { All (λ a. a.number ≢ c.number) self.old.queue }
        requires homed { spec.IsAtHome self.old.places c }
        ensures { self.new ≡ record self.old { queue = order.with_candidate c self.old.queue } }
    {
        self.ready_rest.insert(c);
    }

    /// Takes out the task of the deadline and the number of `c`, and answers whether it was there.
    /// Where it is not there nothing changes.
    pub fn remove(&mut self, c: &Candidate) -> bool
        ensures removed { self.new
            ≡ record self.old { queue = order.without_candidate c.now self.old.queue } }
        ensures there { result ≡ order.has_candidate c.now self.old.queue }
    {
        take_out(&mut self.ready_rest, &mut self.running, c)
    }

    /// The choice of the next tick and its placement, by a look at those who wait alone. As many of
    /// the first tasks of the queue are chosen as there are CPUs (global EDF: sched-deadline.rst,
    /// "Main algorithm"; ties and the placement are own). A chosen task stays where it runs; the
    /// others, in the order of the queue, go to the CPU to which they belong where that is free,
    /// else to the lowest free one. Each task that runs then belongs to its CPU. Takes no memory.
    pub fn pick(&mut self)
        ensures places { self.new.places
            ≡ placed (length self.old.places) self.old.queue self.old.places }
        ensures queue { self.new.queue ≡ map (with_home self.new.places) self.old.queue }
        ensures moves { self.new.moves ≡ moved_from 0 self.old.places self.new.places }
    {
        pick_ready(
            &mut self.ready_rest,
            &mut self.running,
            &mut self.movers,
            &mut self.placement,
            &mut self.moves,
        );
    }
}
