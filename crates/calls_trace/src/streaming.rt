//! The run of a section that an accounting takes while it is made. The switches and what happens
//! are streamed piece by piece, and forgotten.

ghost use Rattle.std.specs.Prelude.{◌≡◌, ◌<◌, ◌≤◌, ◌∷◌, [], true, false, length, map, All, Contains, IfOk, IfNone, IfSome, IsTrue, OnOk};
ghost use Rattle.domain_run.specs.Domain.{IsLimit, empty_domain};
ghost use Rattle.domain_run.specs.declared.call.Call.TheVariants as Call;
ghost use Rattle.domain_run.specs.Happened.{logged_by_calls};
ghost use Rattle.domain_run.specs.Run.{run_of};
ghost use Rattle.run_figures.specs.Accounting.{streamed_run};
ghost use Rattle.run_figures.specs.Figures.{task_figures, cpu_figures};
ghost use Rattle.run_figures.specs.Jobs.{task_jobs};
ghost use Rattle.run_figures.specs.Laws.{AreShort};
ghost use Rattle.run_figures.specs.Runs.{AreTasks};
ghost use Rattle.calls_trace.specs.Replay.{names_of, no_names};
ghost use Rattle.calls_trace.specs.DomainEvents.{no_params, params_by_calls};
ghost use Rattle.calls_trace.specs.private.Calls.{ticks_given};
ghost use Rattle.calls_trace.specs.private.Foreseen.{IsForeseen};
ghost use Rattle.calls_trace.specs.private.Streaming.{IsStreamedBefore, jobs_led, led_by, led_to, summary_led, tasks_led};
ghost use Rattle.calls_trace.specs.private.Summed.{jobs_as, summed_as};
ghost use Rattle.limits.specs.Limits.{clock_end, task_number_end, max_history};

use crate::figures::tasks_of;
use crate::foreseen::Foreseen;
use crate::kept::CallsLeft;
use crate::named_run::RunWithNames;
use crate::summed_run::SummedRun;
use attr_check::Params;
use domain_run::{Call, NoMemory, State};
use indexmap::{IndexMap, IndexSet};
use run_figures::{Accounting, Admitted, KeptJobs, Summary};
use std::alloc::Global;
use streamed_run::{advance_streamed_in_periods, advance_streamed_on};

/// A run, the accounting that takes it, and the calls that are left of its section.
#[derive(Drop)]
pub(crate) struct Streaming {
    pub(crate) run: RunWithNames,
    pub(crate) accounting: Accounting,
    pub(crate) calls: CallsLeft,
}

/// Tasks by their numbers. An accounting takes of their parameters only at its end.
pub(crate) fn by_numbers(alloc: Global, numbers: &IndexSet<u32>) -> Result<Vec<Admitted>, NoMemory>
    requires small { All (λ n. n < task_number_end) numbers.now.keys }
    ensures tasks { IfOk result (λ v. map (λ t. t.number) v.items ≡ numbers.now.keys) }
    ensures apart { IfOk result (λ v. AreTasks v.items) }
{
    let listed = numbers.as_slice();
    let mut tasks = Vec::with_capacity(alloc, listed.len())?;
    for number in listed {
        tasks.push_reserved(Admitted {
            number: *number,
            runtime: 0,
            period: 0,
        });
    }
    Ok(tasks)
}

/// An accounting of tasks with these numbers that has streamed nothing yet. It keeps their jobs, if
/// `jobs` asks for them.
fn accounting_of(
    alloc: Global,
    cpus: u32,
    end: u64,
    numbers: &IndexSet<u32>,
    jobs: bool,
) -> Result<Accounting, NoMemory>
    requires cpus { cpus ≤ 64 }
    requires early { end ≤ clock_end }
    requires small { All (λ n. n < task_number_end) numbers.now.keys }
    ensures { IfOk result (λ a. a ≡ record {
      cpus = cpus;
      time = end;
      tasks = numbers.now.keys;
      happened = [];
      switches = [];
    }) }
{
    let tasks = by_numbers(alloc, numbers)?;
    if jobs {
        return Accounting::open_with_jobs(alloc, cpus, end, &tasks);
    }
    Accounting::open(alloc, cpus, end, &tasks)
}

/// The jobs of what was streamed, of the tasks that were admitted. None, if they are not wanted.
fn jobs_if(
    alloc: Global,
    wanted: bool,
    mut accounting: Accounting,
    state: &State,
    given: &IndexMap<u32, Params>,
) -> Result<Vec<KeptJobs>, NoMemory>
    requires among { All (Contains accounting.tasks) state.now.used }
    ensures { IsTrue wanted → IfOk result
        (λ v. v.items ≡ map (task_jobs accounting.happened) state.now.used) }
{
    if !wanted {
        return Ok(Vec::new(alloc));
    }
    let tasks = tasks_of(alloc, state, given)?;
    accounting.take_jobs(alloc, &tasks)
}

/// How many ticks an advance makes; none for another call.
pub(crate) fn ticks_if_advance(call: &Call) -> Option<u64>
    ensures some { IfSome result (λ n. call.now ≡ Call.Advance n) }
    ensures none { IfNone result (ticks_given call.now ≡ 0) }
{
    match call {
        Call::Advance { ticks } => Some(*ticks),
        _ => None,
    }
}

impl Streaming {
    /// A run of which no call is made yet. Its jobs are kept, if `jobs` asks for them.
    pub(crate) fn open(
        alloc: Global,
        cpus: u32,
        limit: u64,
        foreseen: Foreseen,
        jobs: bool,
    ) -> Result<Streaming, NoMemory>
        requires cpus { (0 < cpus) × (cpus ≤ 64) }
        requires limit { IsLimit limit }
        requires foreseen { IsForeseen foreseen }
        requires few { length foreseen.calls ≤ max_history }
        ensures before { IfOk result (λ h. IsStreamedBefore h h.calls) }
        ensures leads { IfOk result (λ h. led_to h ≡ record {
          domain = run_of cpus limit foreseen.calls;
          names = names_of (empty_domain cpus limit) foreseen.calls no_names;
          given = params_by_calls (empty_domain cpus limit) foreseen.calls no_params;
          happened = logged_by_calls (empty_domain cpus limit) foreseen.calls;
        }) }
    {
        let Foreseen {
            calls,
            ticks,
            numbers,
        } = foreseen;
        // What is dropped goes by one call: its parts would be written out on each way.
        let accounting = match accounting_of(alloc, cpus, ticks, &numbers, jobs) {
            Ok(accounting) => accounting,
            Err(error) => {
                drop(numbers);
                drop(calls);
                return Err(error);
            }
        };
        drop(numbers);
        let run = match RunWithNames::open(alloc, cpus, limit, true) {
            Ok(run) => run,
            Err(error) => {
                drop(accounting);
                drop(calls);
                return Err(error);
            }
        };
        Ok(Streaming {
            run,
            accounting,
            calls: calls.into_left(alloc),
        })
    }

    /// Makes the ticks of an advance, which the accounting takes. Periods that repeat are counted.
    fn advance(&mut self, alloc: Global, ticks: u64) -> Result<(), NoMemory>
        requires before { IsStreamedBefore self.old (Call.Advance ticks ∷ self.old.calls) }
        ensures before { OnOk result (IsStreamedBefore self.new self.new.calls) }
        ensures leads { OnOk result
            (led_to self.new ≡ led_by self.old (Call.Advance ticks ∷ self.old.calls)) }
        ensures calls { self.new.calls ≡ self.old.calls }
    {
        // For the prover alone: a look at a state brings what every domain keeps.
        let _ = self.run.state.now();
        let done = advance_streamed_in_periods(
            alloc,
            &mut self.run.state,
            ticks,
            &mut self.run.log,
            &mut self.accounting,
        );
        if done.ticks < ticks {
            return Err(NoMemory);
        }
        Ok(())
    }

    /// Makes a call without a tick. What it logs waits in the log.
    fn call(&mut self, alloc: Global, call: Call) -> Result<(), NoMemory>
        requires before { IsStreamedBefore self.old (call ∷ self.old.calls) }
        requires still { ticks_given call ≡ 0 }
        ensures before { OnOk result (IsStreamedBefore self.new self.new.calls) }
        ensures leads { OnOk result (led_to self.new ≡ led_by self.old (call ∷ self.old.calls)) }
        ensures calls { self.new.calls ≡ self.old.calls }
    {
        // For the prover alone: a look at a state brings what every domain keeps.
        let _ = self.run.state.now();
        self.run.make(alloc, call)
    }

    /// Makes a call.
    fn make(&mut self, alloc: Global, call: Call) -> Result<(), NoMemory>
        requires before { IsStreamedBefore self.old (call ∷ self.old.calls) }
        ensures before { OnOk result (IsStreamedBefore self.new self.new.calls) }
        ensures leads { OnOk result (led_to self.new ≡ led_by self.old (call ∷ self.old.calls)) }
        ensures calls { self.new.calls ≡ self.old.calls }
    {
        match ticks_if_advance(&call) {
            Some(ticks) => self.advance(alloc, ticks),
            None => self.call(alloc, call),
        }
    }

    /// Makes the next call. `false` if none is left.
    fn next(&mut self, alloc: Global) -> Result<bool, NoMemory>
        requires before { IsStreamedBefore self.old self.old.calls }
        ensures before { OnOk result (IsStreamedBefore self.new self.new.calls) }
        ensures leads { OnOk result (led_to self.new ≡ led_to self.old) }
        ensures ahead { IfOk result
            (λ more. more ≡ true → length self.new.calls < length self.old.calls) }
        ensures last { IfOk result (λ more. more ≡ false → self.new.calls ≡ []) }
    {
        match self.calls.next() {
            Some((call, text)) => {
                drop(text);
                self.make(alloc, call)?;
                Ok(true)
            }
            None => Ok(false),
        }
    }

    /// Makes the calls that are left.
    fn make_all(&mut self, alloc: Global) -> Result<(), NoMemory>
        requires before { IsStreamedBefore self.old self.old.calls }
        ensures before { OnOk result (IsStreamedBefore self.new self.new.calls) }
        ensures leads { OnOk result (led_to self.new ≡ led_to self.old) }
        ensures last { OnOk result (self.new.calls ≡ []) }
    {
        'calls: while self.next(alloc)? {}
        Ok(())
    }

    /// Takes what is not yet streamed of a run whose calls are made.
    fn stream_rest(&mut self)
        requires before { IsStreamedBefore self.old self.old.calls }
        requires last { self.old.calls ≡ [] }
        ensures leads { led_to self.new ≡ led_to self.old }
        ensures calls { self.new.calls ≡ [] }
        ensures log { self.new.run.log.happened ≡ [] }
        ensures bare { self.new.run.state.switches ≡ [] }
        ensures time { self.new.accounting.time ≡ self.new.run.state.time }
        ensures cpus { self.new.accounting.cpus ≡ self.new.run.state.cpus }
        ensures among { All (Contains self.new.accounting.tasks) self.new.run.state.used }
    {
        // For the prover alone: a look at a state brings what every domain keeps.
        let _ = self.run.state.now();
        advance_streamed_on(
            &mut self.run.state,
            0,
            &mut self.run.log,
            &mut self.accounting,
        );
    }

    /// The figures of what was streamed, of the tasks that were admitted.
    fn figures(&self, alloc: Global) -> Result<Summary, NoMemory>
        requires among { All (Contains self.now.accounting.tasks) self.now.run.state.used }
        ensures tasks { IfOk result (λ s. s.tasks.items
            ≡ task_figures (streamed_run self.now.accounting (tasks_led self.now))) }
        ensures cpus { IfOk result (λ s. s.cpus.items
            ≡ cpu_figures (streamed_run self.now.accounting (tasks_led self.now))) }
        ensures short { IfOk result (λ s. AreShort s.tasks.items s.cpus.items) }
    {
        let tasks = tasks_of(alloc, &self.run.state, &self.run.given)?;
        self.accounting.summary_of_some(alloc, &tasks)
    }

    /// The figures of a run that was streamed to its end, and its jobs, if they are wanted.
    fn summed(self, alloc: Global, jobs: bool) -> Result<SummedRun, NoMemory>
        requires calls { self.calls ≡ [] }
        requires log { self.run.log.happened ≡ [] }
        requires bare { self.run.state.switches ≡ [] }
        requires time { self.accounting.time ≡ self.run.state.time }
        requires cpus { self.accounting.cpus ≡ self.run.state.cpus }
        requires among { All (Contains self.accounting.tasks) self.run.state.used }
        ensures figures { IfOk result (λ r. summed_as r ≡ summary_led (led_to self)) }
        ensures jobs { IsTrue jobs → IfOk result (λ r. jobs_as r ≡ jobs_led (led_to self)) }
    {
        // What is dropped goes by one call: its parts would be written out on each way.
        let summary = match self.figures(alloc) {
            Ok(summary) => summary,
            Err(error) => {
                drop(self);
                return Err(error);
            }
        };
        let Streaming {
            run,
            accounting,
            calls,
        } = self;
        drop(calls);
        let RunWithNames {
            state,
            names,
            given,
            log,
        } = run;
        drop(log);
        let jobs = match jobs_if(alloc, jobs, accounting, &state, &given) {
            Ok(jobs) => jobs,
            Err(error) => {
                drop(given);
                drop(names);
                drop(state);
                drop(summary);
                return Err(error);
            }
        };
        drop(given);
        Ok(SummedRun::of(names, state, summary, jobs))
    }
}

/// Makes the calls of a section on a domain of its own: the figures of its run, and its jobs, if
/// they are wanted.
pub(crate) fn sum_up(
    alloc: Global,
    cpus: u32,
    limit: u64,
    foreseen: Foreseen,
    jobs: bool,
) -> Result<SummedRun, NoMemory>
    requires cpus { (0 < cpus) × (cpus ≤ 64) }
    requires limit { IsLimit limit }
    requires foreseen { IsForeseen foreseen }
    requires few { length foreseen.calls ≤ max_history }
    ensures figures { IfOk result (λ r. summed_as r ≡ summary_led (record {
      domain = run_of cpus limit foreseen.calls;
      names = names_of (empty_domain cpus limit) foreseen.calls no_names;
      given = params_by_calls (empty_domain cpus limit) foreseen.calls no_params;
      happened = logged_by_calls (empty_domain cpus limit) foreseen.calls;
    })) }
    ensures jobs { IsTrue jobs → IfOk result (λ r. jobs_as r ≡ jobs_led (record {
      domain = run_of cpus limit foreseen.calls;
      names = names_of (empty_domain cpus limit) foreseen.calls no_names;
      given = params_by_calls (empty_domain cpus limit) foreseen.calls no_params;
      happened = logged_by_calls (empty_domain cpus limit) foreseen.calls;
    })) }
{
    let mut streaming = Streaming::open(alloc, cpus, limit, foreseen, jobs)?;
    // Dropped by one call: its parts would be written out.
    if let Err(error) = streaming.make_all(alloc) {
        drop(streaming);
        return Err(error);
    }
    streaming.stream_rest();
    streaming.summed(alloc, jobs)
}
