//! An accounting is opened with all the room that it ever has. No other file can make a [`Rooms`],
//! or change one.

ghost use Rattle.std.specs.Prelude.{◌≡◌, ◌≤◌, [], IfOk, IfSome, map};
ghost use Rattle.run_figures.specs.Runs.{AreTasks};
ghost use Rattle.run_figures.specs.private.Lines.{no_line};
ghost use Rattle.limits.specs.Limits.{clock_end};

use super::{Accounting, Streamed};
use crate::lines::{Line, no_lines};
use crate::logging::unlogged_all;
use crate::past::Past;
use crate::places::Places;
use crate::ran::Tables;
use crate::run::Admitted;
use domain_run::NoMemory;
use std::alloc::Global;

/// For how many tasks and CPUs the lists of an accounting have room.
#[derive(Drop)]
pub(super) struct Rooms {
    logged: usize,
    tasks: usize,
    cpus: usize,
}

impl Accounting {
    /// As [`Accounting::open`], with these jobs: of the same tasks, of which nothing was logged.
    fn open_with(
        alloc: Global,
        cpus: u32,
        end: u64,
        tasks: &[Admitted],
        lines: Option<Vec<Line>>,
    ) -> Result<Accounting, NoMemory>
        requires cpus { cpus ≤ 64 }
        requires early { end ≤ clock_end }
        requires tasks { AreTasks tasks.now }
        requires lines { IfSome lines (λ ls. ls.items ≡ map (λ t. no_line t.number) tasks.now) }
        ensures { IfOk result (λ a. a ≡ record {
          cpus = cpus;
          time = end;
          tasks = map (λ t. t.number) tasks.now;
          happened = [];
          switches = [];
        }) }
    {
        let places = Places::of(alloc, tasks)?;
        let logged = unlogged_all(alloc, tasks)?;
        let ran = Tables::open(alloc, cpus, tasks)?;
        Ok(Accounting {
            rooms: Rooms {
                logged: logged.capacity(),
                tasks: ran.tasks.capacity(),
                cpus: ran.cpus.capacity(),
            },
            places,
            logged,
            ran,
            lines,
            streamed: Streamed {
                cpus,
                time: end,
                happened: Past::new(),
                switches: Past::new(),
            },
        })
    }

    /// Of a run of which nothing was streamed yet: its domain has this many CPUs, at most 64, it
    /// will end at this time, at most 2^42 us, and these are its tasks.
    ///
    /// # Errors
    /// 12 [`NoMemory`]: a growth was refused; nothing is left.
    pub fn open(
        alloc: Global,
        cpus: u32,
        end: u64,
        tasks: &[Admitted],
    ) -> Result<Accounting, NoMemory>
        requires cpus { cpus ≤ 64 }
        requires early { end ≤ clock_end }
        requires tasks { AreTasks tasks.now }
        ensures { IfOk result (λ a. a ≡ record {
          cpus = cpus;
          time = end;
          tasks = map (λ t. t.number) tasks.now;
          happened = [];
          switches = [];
        }) }
    {
        Accounting::open_with(alloc, cpus, end, tasks, None)
    }

    /// As [`Accounting::open`], and keeps the jobs of each task too.
    ///
    /// # Errors
    /// 12 [`NoMemory`]: a growth was refused; nothing is left.
    pub fn open_with_jobs(
        alloc: Global,
        cpus: u32,
        end: u64,
        tasks: &[Admitted],
    ) -> Result<Accounting, NoMemory>
        requires cpus { cpus ≤ 64 }
        requires early { end ≤ clock_end }
        requires tasks { AreTasks tasks.now }
        ensures { IfOk result (λ a. a ≡ record {
          cpus = cpus;
          time = end;
          tasks = map (λ t. t.number) tasks.now;
          happened = [];
          switches = [];
        }) }
    {
        let lines = no_lines(alloc, tasks)?;
        Accounting::open_with(alloc, cpus, end, tasks, Some(lines))
    }
}
