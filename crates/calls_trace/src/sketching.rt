//! The run of a section that is drawn while it is made. The switches and what happens are streamed
//! piece by piece, and forgotten.

ghost use Rattle.std.specs.Prelude.{◌≡◌, ◌<◌, ◌≤◌, ◌∷◌, ℕ, [], true, false, length, map, All, Contains, IfOk, OnOk};
ghost use Rattle.domain_run.specs.Domain.{IsLimit};
ghost use Rattle.domain_run.specs.declared.call.Call.TheVariants as Call;
ghost use Rattle.chart_pieces.specs.RowView.{RowView};
ghost use Rattle.calls_trace.specs.private.Calls.{ticks_given};
ghost use Rattle.calls_trace.specs.private.Foreseen.{IsForeseen};
ghost use Rattle.calls_trace.specs.private.Streaming.{IsStreamedBefore, led_by, led_to};
ghost use Rattle.calls_trace.specs.private.Sketched.{asked_in, streamed_as, led_ahead, row_in, sketch_ahead, sketch_as, sketch_led};
ghost use Rattle.limits.specs.Limits.{task_number_end, max_history};

use crate::figures::tasks_of;
use crate::foreseen::Foreseen;
use crate::kept::CallsLeft;
use crate::named_run::RunWithNames;
use crate::sketch::Sketch;
use crate::streaming::{by_numbers, ticks_if_advance};
use chart_pieces::{Drawing, Window};
use domain_run::{Call, NoMemory};
use indexmap::IndexSet;
use run_figures::{Admitted, Places};
use std::alloc::Global;
use streamed_run::advance_streamed_on;

/// A run, what is drawn of it, and the calls that are left of its section.
#[derive(Drop)]
pub(crate) struct Sketching {
    pub(crate) run: RunWithNames,
    pub(crate) drawing: Drawing,
    pub(crate) calls: CallsLeft,
    /// The numbers of all tasks that the calls of the section ask to admit.
    pub(crate) numbers: IndexSet<u32>,
}

/// A drawing of tasks with these numbers that has streamed nothing yet.
fn drawing_of(
    alloc: Global,
    window: Window,
    cpus: u32,
    end: u64,
    numbers: &IndexSet<u32>,
) -> Result<Drawing, NoMemory>
    requires small { All (λ n. n < task_number_end) numbers.now.keys }
    ensures { IfOk result (λ d. d ≡ record {
      window = window;
      streamed = record {
        cpus = cpus;
        time = end;
        tasks = numbers.now.keys;
        happened = [];
        switches = [];
      };
    }) }
{
    let tasks = by_numbers(alloc, numbers)?;
    Drawing::open(alloc, window, cpus, end, &tasks)
}

/// The place of each task among these.
fn places_of(alloc: Global, index: &Places, tasks: &[Admitted]) -> Result<Vec<usize>, NoMemory>
    requires among { All (λ t. Contains index.now t.number) tasks.now }
    ensures inside { IfOk result (λ v. All (λ i. i < length index.now) v.items) }
    ensures rows { (f : ℕ → RowView) → IfOk result (λ v.
        map (row_in (map f index.now)) v.items ≡ map (λ t. f t.number) tasks.now) }
{
    let mut places = Vec::with_capacity(alloc, tasks.len())?;
    for task in tasks {
        if let Some(place) = index.find(task.number) {
            places.push(place)?;
        }
    }
    Ok(places)
}

/// The places of the tasks that were admitted in a run, among those with these numbers.
fn places_in(
    alloc: Global,
    numbers: &IndexSet<u32>,
    run: &RunWithNames,
) -> Result<Vec<usize>, NoMemory>
    requires among { All (Contains numbers.now.keys) run.now.state.used }
    requires small { All (λ n. n < task_number_end) numbers.now.keys }
    ensures inside { IfOk result (λ v. All (λ i. i < length numbers.now.keys) v.items) }
    ensures rows { (f : ℕ → RowView) → IfOk result (λ v.
        map (row_in (map f numbers.now.keys)) v.items ≡ map f run.now.state.used) }
    ensures few { IfOk result (λ v. length v.items ≤ max_history) }
{
    let known = by_numbers(alloc, numbers)?;
    let index = Places::of(alloc, &known)?;
    let tasks = tasks_of(alloc, &run.state, &run.given)?;
    places_of(alloc, &index, &tasks)
}

impl Sketching {
    /// A run of which no call is made yet, drawn in this window.
    fn open(
        alloc: Global,
        window: Window,
        cpus: u32,
        limit: u64,
        foreseen: Foreseen,
    ) -> Result<Sketching, NoMemory>
        requires cpus { (0 < cpus) × (cpus ≤ 64) }
        requires limit { IsLimit limit }
        requires foreseen { IsForeseen foreseen }
        requires few { length foreseen.calls ≤ max_history }
        ensures before { IfOk result (λ s. IsStreamedBefore (streamed_as s) s.calls) }
        ensures leads { IfOk result (λ s. led_to (streamed_as s) ≡ led_ahead (record {
          cpus = cpus;
          limit = limit;
          calls = foreseen.calls;
        })) }
        ensures asked { IfOk result (λ s. asked_in s ≡ record {
          window = window;
          tasks = foreseen.numbers.keys;
          numbers = foreseen.numbers.keys;
        }) }
    {
        let Foreseen {
            calls,
            ticks,
            numbers,
        } = foreseen;
        // What is dropped goes by one call: its parts would be written out on each way.
        let drawing = match drawing_of(alloc, window, cpus, ticks, &numbers) {
            Ok(drawing) => drawing,
            Err(error) => {
                drop(numbers);
                drop(calls);
                return Err(error);
            }
        };
        let run = match RunWithNames::open(alloc, cpus, limit, true) {
            Ok(run) => run,
            Err(error) => {
                drop(drawing);
                drop(numbers);
                drop(calls);
                return Err(error);
            }
        };
        Ok(Sketching {
            run,
            drawing,
            calls: calls.into_left(alloc),
            numbers,
        })
    }

    /// Makes the ticks of an advance, which the drawing takes.
    fn advance(&mut self, ticks: u64) -> Result<(), NoMemory>
        requires before { IsStreamedBefore (streamed_as self.old)
            (Call.Advance ticks ∷ self.old.calls) }
        ensures before { OnOk result (IsStreamedBefore (streamed_as self.new) self.new.calls) }
        ensures leads { OnOk result (led_to (streamed_as self.new)
            ≡ led_by (streamed_as self.old) (Call.Advance ticks ∷ self.old.calls)) }
        ensures calls { self.new.calls ≡ self.old.calls }
        ensures asked { asked_in self.new ≡ asked_in self.old }
    {
        // For the prover alone: a look at a state brings what every domain keeps.
        let _ = self.run.state.now();
        let done = advance_streamed_on(
            &mut self.run.state,
            ticks,
            &mut self.run.log,
            &mut self.drawing,
        );
        if done.ticks < ticks {
            return Err(NoMemory);
        }
        Ok(())
    }

    /// Makes a call without a tick. What it logs waits in the log.
    fn call(&mut self, alloc: Global, call: Call) -> Result<(), NoMemory>
        requires before { IsStreamedBefore (streamed_as self.old) (call ∷ self.old.calls) }
        requires still { ticks_given call ≡ 0 }
        ensures before { OnOk result (IsStreamedBefore (streamed_as self.new) self.new.calls) }
        ensures leads { OnOk result (led_to (streamed_as self.new)
            ≡ led_by (streamed_as self.old) (call ∷ self.old.calls)) }
        ensures calls { self.new.calls ≡ self.old.calls }
        ensures asked { asked_in self.new ≡ asked_in self.old }
    {
        // For the prover alone: a look at a state brings what every domain keeps.
        let _ = self.run.state.now();
        self.run.make(alloc, call)
    }

    /// Makes a call.
    fn make(&mut self, alloc: Global, call: Call) -> Result<(), NoMemory>
        requires before { IsStreamedBefore (streamed_as self.old) (call ∷ self.old.calls) }
        ensures before { OnOk result (IsStreamedBefore (streamed_as self.new) self.new.calls) }
        ensures leads { OnOk result (led_to (streamed_as self.new)
            ≡ led_by (streamed_as self.old) (call ∷ self.old.calls)) }
        ensures calls { self.new.calls ≡ self.old.calls }
        ensures asked { asked_in self.new ≡ asked_in self.old }
    {
        match ticks_if_advance(&call) {
            Some(ticks) => self.advance(ticks),
            None => self.call(alloc, call),
        }
    }

    /// Makes the next call. `false` if none is left.
    fn next(&mut self, alloc: Global) -> Result<bool, NoMemory>
        requires before { IsStreamedBefore (streamed_as self.old) self.old.calls }
        ensures before { OnOk result (IsStreamedBefore (streamed_as self.new) self.new.calls) }
        ensures leads { OnOk result (led_to (streamed_as self.new)
            ≡ led_to (streamed_as self.old)) }
        ensures asked { asked_in self.new ≡ asked_in self.old }
        ensures ahead { IfOk result
            (λ more. more ≡ true → length self.new.calls < length self.old.calls) }
        ensures last { IfOk result (λ more. more ≡ false → self.new.calls ≡ []) }
    {
        match self.calls.next() {
            Some((call, text)) => {
                drop(text);
                self.make(alloc, call)?;
                Ok(true)
            }
            None => Ok(false),
        }
    }

    /// Makes the calls that are left.
    fn make_all(&mut self, alloc: Global) -> Result<(), NoMemory>
        requires before { IsStreamedBefore (streamed_as self.old) self.old.calls }
        ensures before { OnOk result (IsStreamedBefore (streamed_as self.new) self.new.calls) }
        ensures leads { OnOk result (led_to (streamed_as self.new)
            ≡ led_to (streamed_as self.old)) }
        ensures asked { asked_in self.new ≡ asked_in self.old }
        ensures last { OnOk result (self.new.calls ≡ []) }
    {
        'calls: while self.next(alloc)? {}
        Ok(())
    }

    /// Takes what is not yet streamed of a run whose calls are made.
    fn stream_rest(&mut self)
        requires before { IsStreamedBefore (streamed_as self.old) self.old.calls }
        requires last { self.old.calls ≡ [] }
        ensures leads { led_to (streamed_as self.new) ≡ led_to (streamed_as self.old) }
        ensures asked { asked_in self.new ≡ asked_in self.old }
        ensures calls { self.new.calls ≡ [] }
        ensures log { self.new.run.log.happened ≡ [] }
        ensures bare { self.new.run.state.switches ≡ [] }
        ensures time { self.new.drawing.streamed.time ≡ self.new.run.state.time }
        ensures among { All (Contains self.new.drawing.streamed.tasks) self.new.run.state.used }
    {
        // For the prover alone: a look at a state brings what every domain keeps.
        let _ = self.run.state.now();
        advance_streamed_on(&mut self.run.state, 0, &mut self.run.log, &mut self.drawing);
    }

    /// What is drawn in the window of the tasks that were admitted, of a run that was streamed to
    /// its end.
    fn sketched(self, alloc: Global, window: Window) -> Result<Sketch, NoMemory>
        requires calls { self.calls ≡ [] }
        requires log { self.run.log.happened ≡ [] }
        requires bare { self.run.state.switches ≡ [] }
        requires time { self.drawing.streamed.time ≡ self.run.state.time }
        requires among { All (Contains self.drawing.streamed.tasks) self.run.state.used }
        requires window { self.drawing.window ≡ window }
        requires numbers { self.drawing.streamed.tasks ≡ self.numbers.keys }
        requires small { All (λ n. n < task_number_end) self.numbers.keys }
        ensures drawn { IfOk result
            (λ s. sketch_as s ≡ sketch_led window (led_to (streamed_as self))) }
        ensures window { IfOk result (λ s. s.window ≡ window) }
    {
        let Sketching {
            run,
            drawing,
            calls,
            numbers,
        } = self;
        // What is dropped goes by one call: its parts would be written out on each way.
        drop(calls);
        let places = match places_in(alloc, &numbers, &run) {
            Ok(places) => places,
            Err(error) => {
                drop(drawing);
                drop(numbers);
                drop(run);
                return Err(error);
            }
        };
        drop(numbers);
        match drawing.rows(alloc) {
            Ok(rows) => Ok(Sketch::of(window, run, rows, places)),
            Err(error) => {
                drop(places);
                drop(run);
                Err(error)
            }
        }
    }
}

/// Makes the calls of a section on a domain of its own: what is drawn of its run in this window.
pub(crate) fn sketch_out(
    alloc: Global,
    window: Window,
    cpus: u32,
    limit: u64,
    foreseen: Foreseen,
) -> Result<Sketch, NoMemory>
    requires cpus { (0 < cpus) × (cpus ≤ 64) }
    requires limit { IsLimit limit }
    requires foreseen { IsForeseen foreseen }
    requires few { length foreseen.calls ≤ max_history }
    ensures drawn { IfOk result (λ s. sketch_as s ≡ sketch_ahead window (record {
      cpus = cpus;
      limit = limit;
      calls = foreseen.calls;
    })) }
    ensures window { IfOk result (λ s. s.window ≡ window) }
{
    let mut sketching = Sketching::open(alloc, window, cpus, limit, foreseen)?;
    // Dropped by one call: its parts would be written out.
    if let Err(error) = sketching.make_all(alloc) {
        drop(sketching);
        return Err(error);
    }
    sketching.stream_rest();
    sketching.sketched(alloc, window)
}
