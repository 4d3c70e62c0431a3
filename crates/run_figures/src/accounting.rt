//! The figures of a run that is streamed piece by piece.

ghost use Rattle.std.specs.Prelude.{◌≡◌, ◌<◌, ◌+◌, ◌-◌, ◌^◌, ◌++◌, IfOk, All, length, map, vec_capacity};
ghost use Rattle.run_figures.specs.Accounting.{IsNextPiece, streamed_run, with_piece};
ghost use Rattle.run_figures.specs.Figures as figures;
ghost use Rattle.run_figures.specs.Laws as laws;
ghost use Rattle.run_figures.specs.Runs.{AreTasks, IsBoundedRun, run_view_of};
ghost use Rattle.run_figures.specs.private.Keeping as keeping;
ghost use Rattle.run_figures.specs.private.Lines.{AreLinesKept};

mod again;
mod choosing;
mod closing;
mod opening;

use crate::figures::Summary;
use crate::lines::{Line, log_lines};
use crate::logged::TaskTally;
use crate::logging::{log_all, log_switch, log_until};
use crate::past::Past;
use crate::places::Places;
use crate::ran::{Tables, put_switch};
use crate::run::{Admitted, Run};
use crate::summary::{all_figures, cpu_figures};
pub use again::CountsMark;
use domain_run::{Happened, NoMemory, Switch};
use opening::Rooms;
use std::alloc::Global;
use std::marker::Model;

/// What was streamed of a run. What happened and the switches stand in proofs alone.
#[derive(Drop)]
struct Streamed {
    cpus: u32,
    /// The time at its end.
    time: u64,
    happened: Past<Happened>,
    switches: Past<Switch>,
}

/// The figures of a run while it is streamed, piece by piece. It keeps a few counts of each task
/// and of each CPU, the jobs of each task if it was opened for them, and nothing else of what it
/// streamed. Contracts see how many CPUs the run has, when it will end, the numbers of its tasks,
/// and all that was streamed.
#[derive(Drop)]
pub struct Accounting {
    streamed: Streamed,
    places: Places,
    logged: Vec<TaskTally>,
    ran: Tables,
    // What these lists had when they were made, so that no call but that one takes memory for them.
    rooms: Rooms,
    // The jobs of each task. None if it keeps no jobs, or has given them up: a growth was refused.
    lines: Option<Vec<Line>>,
}

impl Model for Accounting {
    ghost use Rattle.std.specs.Prelude.{vec_capacity};
    ghost use Rattle.run_figures.specs.Accounting.{AccountingView};
    ghost use Rattle.run_figures.specs.private.Keeping.{HaveRooms, IsAccountingKept, IsStreamedCounted, IsOfRun, accounting_view_of, happened_in};
    ghost use Rattle.run_figures.specs.private.Lines.{AreLinesKept};

    ghost Value = { AccountingView };

    ghost view = { λ a. accounting_view_of a.streamed a.places };

    ghost invariant = { λ a. IsAccountingKept
        (accounting_view_of a.streamed a.places) a.logged.items
        a.ran.tasks.items a.ran.cpus.items
        × IsOfRun (accounting_view_of a.streamed a.places)
        × HaveRooms (vec_capacity a.logged) (vec_capacity a.ran.tasks) (vec_capacity a.ran.cpus)
        a.rooms
        × IsStreamedCounted a.streamed
        × AreLinesKept (happened_in a.streamed) a.places a.lines };
}

/// Takes one piece more: each switch after what happened up to its time.
fn stream_piece(
    logged: &mut Vec<TaskTally>,
    ran: &mut Tables,
    places: &Places,
    streamed: &Streamed,
    happened: &[Happened],
    switches: &[Switch],
)
    requires kept { keeping.IsAccountingKept (keeping.accounting_view_of streamed.now places.now)
        logged.old.items
        ran.old.tasks.items ran.old.cpus.items }
    requires run { keeping.IsOfRun (keeping.accounting_view_of streamed.now places.now) }
    requires next { IsNextPiece (keeping.accounting_view_of streamed.now places.now) happened.now
        switches.now }
    ensures kept { keeping.IsAccountingKept
        (with_piece (keeping.accounting_view_of streamed.now places.now) happened.now switches.now)
        logged.new.items ran.new.tasks.items ran.new.cpus.items }
    ensures same_logged_room { vec_capacity logged.new ≡ vec_capacity logged.old }
    ensures same_tasks_room { vec_capacity ran.new.tasks ≡ vec_capacity ran.old.tasks }
    ensures same_cpus_room { vec_capacity ran.new.cpus ≡ vec_capacity ran.old.cpus }
{
    let mut from = 0;
    for switch in switches {
        from += log_until(
            logged,
            places,
            &happened[from..],
            switch.time(),
            streamed.time,
        );
        log_switch(logged, places, switch);
        put_switch(ran, places, switch, streamed.time);
    }
    log_all(logged, places, &happened[from..], streamed.time);
}

/// Takes what happened next, if the jobs are kept. Gives them up if a growth was refused.
fn stream_lines(
    lines: &mut Option<Vec<Line>>,
    places: &Places,
    streamed: &Streamed,
    happened: &[Happened],
)
    requires kept { AreLinesKept (keeping.happened_in streamed.now) places.now lines.old }
    requires few { length (keeping.happened_in streamed.now) + length happened.now < 2 ^ 64 - 1 }
    ensures { AreLinesKept (keeping.happened_in streamed.now ++ happened.now) places.now
        lines.new }
{
    let Some(mut table) = lines.take() else {
        return;
    };
    if let Ok(()) = log_lines(&mut table, places, happened) {
        *lines = Some(table);
    }
}

impl Accounting {
    /// Takes the next piece: what happened and the switches, both in their order. Takes no memory,
    /// but for the jobs, if it keeps them: if a growth is refused, it keeps no jobs from then on.
    ///
    /// A run is cut into pieces between two ticks: what was streamed is not later than the switches
    /// of this piece, and what happens in this piece is later than the switches that were streamed.
    /// In all there are fewer than 2^64 - 1 of each.
    pub fn stream(&mut self, happened: &[Happened], switches: &[Switch])
        requires next { IsNextPiece self.old happened.now switches.now }
        ensures { self.new ≡ with_piece self.old happened.now switches.now }
    {
        stream_lines(&mut self.lines, &self.places, &self.streamed, happened);
        stream_piece(
            &mut self.logged,
            &mut self.ran,
            &self.places,
            &self.streamed,
            happened,
            switches,
        );
        self.streamed.happened.extend(happened);
        self.streamed.switches.extend(switches);
    }

    /// The figures of the run that was streamed: of each task, in the order of the tasks, with its
    /// parameters as they are at the end, and of each CPU of the domain.
    ///
    /// # Errors
    /// 12 [`NoMemory`]: a growth was refused; nothing is left of the summary.
    pub fn summary(&self, alloc: Global, tasks: &[Admitted]) -> Result<Summary, NoMemory>
        requires tasks { AreTasks tasks.now }
        requires same { map (λ t. t.number) tasks.now ≡ self.now.tasks }
        ensures tasks { IfOk result (λ s. s.tasks.items
            ≡ figures.task_figures (streamed_run self.now tasks.now)) }
        ensures cpus { IfOk result (λ s. s.cpus.items
            ≡ figures.cpu_figures (streamed_run self.now tasks.now)) }
        ensures short { IfOk result (λ s. laws.AreShort s.tasks.items s.cpus.items) }
        ensures shared { IfOk result (λ s. laws.AreKnown tasks.now self.now.switches
            → laws.IsShared s.tasks.items s.cpus.items) }
        ensures balanced { IfOk result (λ s. laws.IsLoggedOfCalls self.now.happened
            → All (laws.ThrottlesBalance self.now.happened) s.tasks.items) }
    {
        Ok(Summary {
            tasks: all_figures(
                alloc,
                tasks,
                &self.logged,
                &self.ran.tasks,
                self.streamed.time,
            )?,
            cpus: cpu_figures(alloc, &self.ran.cpus)?,
        })
    }
}

/// The figures of a run: of each task, in the order of the tasks, and of each CPU of the domain.
/// Goes once through what happened and the switches.
///
/// # Errors
/// 12 [`NoMemory`]: a growth was refused; nothing is left.
pub fn summary_of(alloc: Global, run: &Run<'_>) -> Result<Summary, NoMemory>
    requires run { IsBoundedRun (run_view_of run.now) }
    ensures tasks { IfOk result (λ s. s.tasks.items ≡ figures.task_figures (run_view_of run.now)) }
    ensures cpus { IfOk result (λ s. s.cpus.items ≡ figures.cpu_figures (run_view_of run.now)) }
    ensures short { IfOk result (λ s. laws.AreShort s.tasks.items s.cpus.items) }
    ensures shared { IfOk result (λ s. laws.AreKnown run.now.tasks.now run.now.switches.now
        → laws.IsShared s.tasks.items s.cpus.items) }
    ensures balanced { IfOk result (λ s. laws.IsLoggedOfCalls run.now.happened.now
        → All (laws.ThrottlesBalance run.now.happened.now) s.tasks.items) }
{
    let mut accounting = Accounting::open(alloc, run.cpus, run.time, run.tasks)?;
    accounting.stream(run.happened, run.switches);
    accounting.summary(alloc, run.tasks)
}
