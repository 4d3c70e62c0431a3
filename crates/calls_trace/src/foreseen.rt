//! The calls of a section, read whole before they are made. An accounting of their run has to know
//! first when the run will end, and which tasks it may have.

ghost use Rattle.std.specs.Prelude.{◌≡◌, ◌<◌, ◌≤◌, ◌*◌, ◌∷◌, [], ◌++◌, ℕ, List, Contains, IfOk, IfSome, OnOk};
ghost use Rattle.calls_text.specs.SectionView.{SectionView};
ghost use Rattle.calls_text.specs.Limits.{IsCall};
ghost use Rattle.calls_text.specs.KeptCall.{call_kept};
ghost use Rattle.calls_text.specs.Reader.{IsWithin, empty_section, bytes_left};
ghost use Rattle.calls_trace.specs.private.Calls.{ticks_given};
ghost use Rattle.calls_trace.specs.private.Foreseen.{IsForelogged, IsForeseen, IsForeseenSection};
ghost use Rattle.calls_trace.specs.private.ReadRuns.{IsBegun};
ghost use Rattle.limits.specs.Limits.{max_advance, task_number_end, max_history};

use crate::kept::KeptCalls;
use crate::read_runs::next_of;
use calls_text::{CallsReader, Kept, Reused};
use domain_run::{Call, NoMemory};
use indexmap::IndexSet;
use std::alloc::Global;

/// The calls of a section, in their order, and what is known of them before they are made.
#[derive(Drop)]
pub(crate) struct Foreseen {
    pub(crate) calls: KeptCalls,
    /// How many ticks they make.
    pub(crate) ticks: u64,
    /// The numbers of all tasks that they ask to admit.
    pub(crate) numbers: IndexSet<u32>,
}

/// How many ticks a call makes.
fn ticks_in(call: &Call) -> u64
    ensures { result ≡ ticks_given call.now }
{
    match call {
        Call::Advance { ticks } => *ticks,
        _ => 0,
    }
}

/// The number of the task that a call asks to admit.
fn number_in(call: &Call) -> Option<u32>
    ensures forelogged { (numbers : List ℕ) → IfSome result (Contains numbers)
        → IsForelogged numbers call.now }
    ensures small { IsCall call.now → IfSome result (λ n. n < task_number_end) }
{
    match call {
        Call::Admit { number, .. } | Call::Arrive { number, .. } => Some(*number),
        _ => None,
    }
}

/// How many ticks a call in little room makes.
fn ticks_of(kept: &Kept) -> u64
    ensures { result ≡ ticks_given (call_kept kept.now) }
{
    match kept {
        Kept::Advance { ticks } => *ticks,
        Kept::Long(call) => ticks_in(&**call),
        _ => 0,
    }
}

/// The number of the task that a call in little room asks to admit.
fn number_of(kept: &Kept) -> Option<u32>
    ensures forelogged { (numbers : List ℕ) → IfSome result (Contains numbers)
        → IsForelogged numbers (call_kept kept.now) }
    ensures small { IsCall (call_kept kept.now) → IfSome result (λ n. n < task_number_end) }
{
    match kept {
        Kept::Long(call) => number_in(&**call),
        _ => None,
    }
}

impl Foreseen {
    /// No call yet.
    fn none(alloc: Global) -> Foreseen
        ensures foreseen { IsForeseen result }
        ensures empty { result.calls ≡ [] }
    {
        Foreseen {
            calls: KeptCalls::new(alloc),
            ticks: 0,
            numbers: IndexSet::new(alloc),
        }
    }

    /// Lists the number of a task.
    fn list(&mut self, number: Option<u32>) -> Result<(), NoMemory>
        requires foreseen { IsForeseen self.old }
        requires small { IfSome number (λ n. n < task_number_end) }
        ensures foreseen { OnOk result (IsForeseen self.new) }
        ensures listed { OnOk result (IfSome number (Contains self.new.numbers.keys)) }
        ensures calls { self.new.calls ≡ self.old.calls }
    {
        let Some(number) = number else {
            return Ok(());
        };
        match self.numbers.insert(number) {
            Ok(_) => Ok(()),
            Err(_) => Err(NoMemory),
        }
    }

    /// One call more, after the others.
    fn take(&mut self, alloc: Global, kept: Kept, reused: &mut Reused<'_>) -> Result<(), NoMemory>
        requires foreseen { IsForeseen self.old }
        requires call { IsCall (call_kept kept) }
        requires few { self.old.ticks ≤ max_history * max_advance }
        ensures foreseen { OnOk result (IsForeseen self.new) }
        ensures calls { OnOk result (self.new.calls ≡ self.old.calls ++ call_kept kept ∷ []) }
    {
        self.list(number_of(&kept))?;
        self.ticks += ticks_of(&kept);
        self.calls.push(alloc, kept, reused)
    }
}

/// The calls of the section that a reader has begun, of which it has read no call yet.
pub(crate) fn foreseen_read(
    alloc: Global,
    cpus: u32,
    limit: u64,
    reader: &mut CallsReader<'_>,
) -> Result<Foreseen, NoMemory>
    requires begun { IsBegun cpus limit reader.old }
    ensures foreseen { IfOk result IsForeseen }
    ensures read { (text : List ℕ) (before : List SectionView)
        → IsWithin text before (empty_section cpus limit) reader.old
        → IfOk result (λ f. IsForeseenSection text before cpus limit reader.new f.calls) }
    ensures never_more { bytes_left reader.new ≤ bytes_left reader.old }
{
    let mut foreseen = Foreseen::none(alloc);
    let mut reused = Reused::none();
    // Both are dropped by one call: their parts would be written out on each way.
    'calls: while let Some(kept) = match next_of(alloc, reader, &mut reused) {
        Ok(found) => found,
        Err(error) => {
            drop(reused);
            drop(foreseen);
            return Err(error);
        }
    } {
        if let Err(error) = foreseen.take(alloc, kept, &mut reused) {
            drop(reused);
            drop(foreseen);
            return Err(error);
        }
    }
    drop(reused);
    Ok(foreseen)
}
