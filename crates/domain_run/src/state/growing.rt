//! A state takes memory for its switches: where it is opened, where it goes on, and where it gets a
//! buffer. No other file can make or change a [`Room`], and each state's room is what it notes. So
//! no other call takes memory for switches: the state would have more room than it notes.

ghost use Rattle.std.specs.Prelude.{◌≡◌, [], ◌<◌, ◌≤◌, ◌^◌, OnOk, OnErr, IfOk};
ghost use Rattle.domain_run.specs.Domain.{IsCpus, IsLimit, empty_domain};
ghost use Rattle.domain_run.specs.Happened.{logged_by_beginning};
ghost use Rattle.domain_run.specs.Jump as jump;
ghost use Rattle.domain_run.specs.Log.{HasLogged, HasRoomToEnd};
ghost use Rattle.domain_run.specs.Sound.{IsDomain};
ghost use Rattle.limits.specs.Limits.{clock_end};

use super::State;
use crate::log::Log;
use crate::numbers::Numbers;
use crate::task_table::TaskTable;
use no_memory::NoMemory;
use std::alloc::Global;

/// For how many switches a state has room, as its last growth left it.
#[derive(Drop)]
pub(super) struct Room {
    count: usize,
}

impl State {
    /// An empty domain of 1 to 64 CPUs that may give away `limit` of each, 10485 to 1048576 in
    /// 1/2^20. Room for 256 tasks, for the numbers ever admitted and for the switches of one event
    /// is made here; after it only [`State::tick`], [`State::begin`], [`State::begin_logged`] and
    /// [`State::leap`] take memory. `Err` where a growth was refused.
    pub fn open(alloc: Global, cpus: u32, limit: u64) -> Result<State, NoMemory>
        requires cpus { IsCpus cpus }
        requires limit { IsLimit limit }
        ensures { IfOk result (λ s. s ≡ empty_domain cpus limit) }
    {
        let cpus = cpus as usize;
        // The task table comes last, so that there is none to let go of where the room for another
        // part is refused.
        let switches = Vec::with_capacity(alloc, cpus)?;
        // For the prover alone: matched, and not handed on by `?`.
        let Ok(running) = Vec::with_capacity(alloc, cpus) else {
            return Err(NoMemory);
        };
        let Ok(used) = Numbers::open(alloc) else {
            return Err(NoMemory);
        };
        let Ok(task_table) = TaskTable::open(alloc, cpus) else {
            return Err(NoMemory);
        };
        Ok(State {
            cpus,
            limit,
            time: 0,
            task_table,
            used,
            room: Room {
                count: switches.capacity(),
            },
            switches,
            running,
            is_listed: true,
            wakeful: 0,
        })
    }

    /// Room for so many switches more, and for those of an event beside them. `Err` where a growth
    /// was refused; nothing has changed, either way.
    #[inline(always)]
    pub(crate) fn make_room(&mut self, more: usize) -> Result<(), NoMemory>
        requires { more ≤ 2 ^ 32 }
        ensures same { self.new ≡ self.old }
        ensures domain { IsDomain self.old }
    {
        let made = self.switches.try_reserve(more + self.cpus);
        self.room.count = self.switches.capacity();
        match made {
            Ok(()) => Ok(()),
            Err(_) => Err(NoMemory),
        }
    }

    /// As [`State::begin_logged`], but the tasks that run on the CPUs are not listed where that has
    /// changed.
    #[inline(always)]
    pub(super) fn begin_unlisted(&mut self, log: &mut Log) -> Result<(), NoMemory>
        requires { self.old.time < clock_end }
        ensures ok { OnOk result (self.new ≡ jump.under_way self.old) }
        ensures begun { OnOk result (jump.IsUnderWay self.new) }
        ensures err { OnErr result (self.new ≡ self.old) }
        ensures domain { IsDomain self.old }
        ensures logged { OnOk result (HasLogged log.old (logged_by_beginning self.old) log.new) }
        ensures room { OnOk result (HasRoomToEnd log.new) }
        ensures unlogged { OnErr result (HasLogged log.old [] log.new) }
    {
        // For the prover alone: matched, and not handed on by `?`.
        let Ok(()) = self.make_room(0) else {
            return Err(NoMemory);
        };
        let Ok(()) = log.make_room(9 * self.task_table.len() + 192) else {
            return Err(NoMemory);
        };
        if self.begin_in_room(log) {
            Ok(())
        } else {
            // Never: the room is there.
            Err(NoMemory)
        }
    }

    /// As `begin_unlisted`; who starts on a CPU gets an open charge at once.
    #[inline(always)]
    pub(super) fn begin_charging_anew(&mut self, log: &mut Log) -> Result<(), NoMemory>
        requires { self.old.time < clock_end }
        ensures ok { OnOk result (self.new ≡ jump.under_way self.old) }
        ensures begun { OnOk result (jump.IsUnderWay self.new) }
        ensures err { OnErr result (self.new ≡ self.old) }
        ensures domain { IsDomain self.old }
        ensures logged { OnOk result (HasLogged log.old (logged_by_beginning self.old) log.new) }
        ensures room { OnOk result (HasRoomToEnd log.new) }
        ensures unlogged { OnErr result (HasLogged log.old [] log.new) }
    {
        // For the prover alone: matched, and not handed on by `?`.
        let Ok(()) = self.make_room(0) else {
            return Err(NoMemory);
        };
        let Ok(()) = log.make_room(9 * self.task_table.len() + 192) else {
            return Err(NoMemory);
        };
        if self.begin_charging(log) {
            Ok(())
        } else {
            // Never: the room is there.
            Err(NoMemory)
        }
    }
}
