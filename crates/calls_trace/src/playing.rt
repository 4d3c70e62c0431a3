//! The run of a section that is made piece by piece, so that its switches can be written while they
//! are made.

ghost use Rattle.std.specs.Prelude.{◌≡◌, ◌+◌, ◌*◌, ◌≤◌, All, OnOk, length, sum_by};
ghost use Rattle.indexmap.specs.IndexMap.{spare};
ghost use Rattle.switch_text.specs.Names.{name_of_task};
ghost use Rattle.calls_trace.specs.private.Replaying.{AdmittedHaveNames, MapGives};
ghost use Rattle.calls_trace.specs.private.Calls.{IsCallReady};
ghost use Rattle.calls_trace.specs.private.Kept.{room_of};
ghost use Rattle.limits.specs.Limits.{clock_end, max_advance, max_script_number};

use crate::kept::CallsLeft;
use crate::kept_section::KeptSection;
use crate::laid_out::lay_out_if_admitted;
use crate::named_run::RunWithNames;
use attr_check::Params;
use domain_run::{Call, Name, NoMemory, Script};
use indexmap::IndexMap;
use repeat_run::Repeating;
use std::alloc::Global;
use switch_text::{Run, Slices};

/// A domain whose calls take no memory, and the names of its tasks by their numbers. Each name that
/// is put down needs room that was made before.
#[derive(Drop)]
pub(crate) struct NamedDomain {
    domain: Repeating,
    names: IndexMap<u32, String>,
}

/// The run of a section while it is made, with the switches at hand that are not yet forgotten.
/// What needs memory is made at the opening; a script that is laid out takes some where it may.
#[derive(Drop)]
pub(crate) struct Playing {
    /// The CPU of the machine that is the domain's CPU 0.
    base: u32,
    run: NamedDomain,
    /// So many ticks are left of the advance under way.
    left: u64,
    /// The calls after it.
    calls: CallsLeft,
    ghost called: { AdmittedHaveNames run.domain run.names },
    ghost kept: { All IsCallReady calls },
    ghost room: { sum_by room_of calls ≤ spare run.names },
    ghost early: { run.domain.time + left + length calls * max_advance ≤ clock_end },
    ghost inside: { base + run.domain.cpus ≤ 512 },
}

impl NamedDomain {
    ghost use Rattle.std.specs.Prelude.{◌<◌, IfOk};
    ghost use Rattle.std.specs.String.{string_bytes};
    ghost use Rattle.domain_run.specs.declared.call.Call.TheVariants as Call;
    ghost use Rattle.domain_run.specs.Calls.{after_call};
    ghost use Rattle.domain_run.specs.Tick.{ticks};
    ghost use Rattle.calls_text.specs.Limits.{IsTaskNumber};
    ghost use Rattle.switch_text.specs.Names.{name_of_task};
    ghost use Rattle.calls_trace.specs.Replay.{with_name, names_after};
    ghost use Rattle.calls_trace.specs.private.Replaying.{MapGives};
    ghost use Rattle.calls_trace.specs.private.NameGiven.{name_given};
    ghost use Rattle.calls_trace.specs.private.Kept.{room_of};

    /// The domain of a run and its names, with room for so many more.
    fn of(alloc: Global, run: RunWithNames, room: usize) -> Result<NamedDomain, NoMemory>
        ensures domain { IfOk result (λ d. d.domain ≡ run.state) }
        ensures names { IfOk result (λ d. MapGives d.names (name_of_task run.names)) }
        ensures room { IfOk result (λ d. room ≤ spare d.names) }
    {
        let RunWithNames {
            state,
            mut names,
            given,
            log,
        } = run;
        drop(given);
        drop(log);
        // The names are let go of by one call: their parts would be written out on each way.
        if let Err(error) = make_room(&mut names, room) {
            drop(names);
            drop(state);
            return Err(error);
        }
        match Repeating::of(alloc, state) {
            Ok(domain) => Ok(NamedDomain { domain, names }),
            Err(error) => {
                drop(names);
                Err(error)
            }
        }
    }

    /// Puts down a name in the room for it.
    fn put(&mut self, number: u32, text: String)
        requires room { 0 < spare self.old.names }
        ensures domain { self.new.domain ≡ self.old.domain }
        ensures names { MapGives self.new.names
            (with_name (name_of_task self.old.names) number (string_bytes text)) }
        ensures room { spare self.old.names ≤ spare self.new.names + 1 }
    {
        match self.names.insert(number, text) {
            Ok(_) | Err(_) => {}
        }
    }

    /// Admits a task; its name is put down where it is admitted.
    fn admit(
        &mut self,
        number: u32,
        name: Name,
        params: Params,
        delay: u64,
        mut script: Script,
        text: String,
    )
        requires number { IsTaskNumber number }
        requires delay { delay ≤ max_script_number }
        requires text { string_bytes text ≡ name }
        requires room { 0 < spare self.old.names }
        requires called { AdmittedHaveNames self.old.domain self.old.names }
        ensures domain { self.new.domain
            ≡ after_call self.old.domain (Call.Admit number name params delay script) }
        ensures names { MapGives self.new.names (names_after self.old.domain
            (Call.Admit number name params delay script) (name_of_task self.old.names)) }
        ensures called { AdmittedHaveNames self.new.domain self.new.names }
        ensures room { spare self.old.names ≤ spare self.new.names + 1 }
    {
        // For the prover alone: a look at a name brings what every name keeps.
        let _ = name.as_str();
        if !lay_out_if_admitted(self.domain.state(), number, &params, &mut script) {
            return;
        }
        match self.domain.admit(number, name, params, delay, script) {
            Ok(()) => self.put(number, text),
            Err(_) => {}
        }
    }

    /// As `make`, of any call.
    #[inline(never)]
    fn make_any(&mut self, call: Call, text: String) -> u64
        requires call { IsCallReady call }
        requires text { string_bytes text ≡ name_given call }
        requires room { room_of call ≤ spare self.old.names }
        requires called { AdmittedHaveNames self.old.domain self.old.names }
        ensures domain { ticks result self.new.domain ≡ after_call self.old.domain call }
        ensures names { MapGives self.new.names
            (names_after self.old.domain call (name_of_task self.old.names)) }
        ensures called { AdmittedHaveNames self.new.domain self.new.names }
        ensures room { spare self.old.names ≤ spare self.new.names + room_of call }
        ensures most { result ≤ max_advance }
    {
        match call {
            Call::Admit {
                number,
                name,
                params,
                delay,
                script,
            } => self.admit(number, name, params, delay, script, text),
            Call::Advance { ticks } => return ticks,
            Call::Regrade {
                number,
                params,
                word,
            } => {
                self.domain.regrade(number, params, word);
            }
            Call::Wake { number } => {
                self.domain.wake(number);
            }
            Call::Leave { number } => {
                self.domain.leave(number);
            }
            Call::Limit { limit, word } => {
                self.domain.set_limit(limit, word);
            }
            Call::Depart { number } => {
                self.domain.depart(number);
            }
            // As an admission without a delay.
            Call::Arrive {
                number,
                name,
                params,
                script,
            } => self.admit(number, name, params, 0, script, text),
        }
        0
    }

    /// Makes a call, of an advance no tick; answers how many ticks it has still to make. A short
    /// one is made in place.
    #[inline(always)]
    fn make(&mut self, call: Call, text: String) -> u64
        requires call { IsCallReady call }
        requires text { string_bytes text ≡ name_given call }
        requires room { room_of call ≤ spare self.old.names }
        requires called { AdmittedHaveNames self.old.domain self.old.names }
        ensures domain { ticks result self.new.domain ≡ after_call self.old.domain call }
        ensures names { MapGives self.new.names
            (names_after self.old.domain call (name_of_task self.old.names)) }
        ensures called { AdmittedHaveNames self.new.domain self.new.names }
        ensures room { spare self.old.names ≤ spare self.new.names + room_of call }
        ensures most { result ≤ max_advance }
    {
        match call {
            Call::Advance { ticks } => ticks,
            Call::Wake { number } => {
                self.domain.wake(number);
                0
            }
            Call::Leave { number } => {
                self.domain.leave(number);
                0
            }
            Call::Depart { number } => {
                self.domain.depart(number);
                0
            }
            long => self.make_any(long, text),
        }
    }
}

impl Playing {
    ghost use Rattle.std.specs.Prelude.{◌<◌, [], true, false, IfOk, IfNone, IfSome};
    ghost use Rattle.calls_text.specs.SectionView.{SectionView};
    ghost use Rattle.calls_text.specs.Limits.{IsSection};
    ghost use Rattle.switch_text.specs.Names.{name_of_task};
    ghost use Rattle.switch_text.specs.Runs.{IsPrintable};
    ghost use Rattle.switch_text.specs.Names.{SameNames};
    ghost use Rattle.switch_text.specs.SlicedTrace.{whole_of, without_first};
    ghost use Rattle.calls_trace.specs.Replay.{run_view};
    ghost use Rattle.calls_trace.specs.private.Kept.{IsKeptSection, KeepsSection};
    ghost use Rattle.calls_trace.specs.private.Playing.{all_names, sliced_of};

    /// A section whose calls are made up to its first advance, on the CPUs of the machine from
    /// `base` on.
    pub(crate) fn open(alloc: Global, base: u32, kept: KeptSection) -> Result<Playing, NoMemory>
        requires kept { KeepsSection kept }
        requires inside { base + kept.cpus ≤ 512 }
        ensures { (section : SectionView) → IsSection section → IsKeptSection section kept
            → IfOk result (λ p. whole_of (sliced_of p) ≡ run_view base section) }
    {
        let KeptSection { run, calls, .. } = kept;
        // The calls are let go of by one call: their parts would be written out on each way.
        let domain = match NamedDomain::of(alloc, run, calls.room()) {
            Ok(domain) => domain,
            Err(error) => {
                drop(calls);
                return Err(error);
            }
        };
        Ok(Playing {
            base,
            run: domain,
            left: 0,
            calls: calls.into_left(alloc),
        })
    }

    /// Makes what the buffer has room for of the advance under way. The switches are added to those
    /// at hand.
    fn advance(&mut self)
        ensures whole { whole_of (sliced_of self.new) ≡ whole_of (sliced_of self.old) }
        ensures full { 0 < self.new.left → 0 < length self.new.run.domain.switches }
        ensures calls { self.new.calls ≡ self.old.calls }
    {
        self.left = self.run.domain.fill(self.left);
    }

    /// Begins with the next call. `false` where none is left.
    fn begin(&mut self) -> bool
        requires { self.old.left ≡ 0 }
        ensures whole { whole_of (sliced_of self.new) ≡ whole_of (sliced_of self.old) }
        ensures ahead { result ≡ true → length self.new.calls < length self.old.calls }
        ensures none { result ≡ false → self.new.left ≡ 0 }
        ensures last { result ≡ false → self.new.calls ≡ [] }
    {
        match self.calls.next() {
            Some((call, text)) => {
                self.left = self.run.make(call, text);
                true
            }
            None => false,
        }
    }

    /// Goes on with the advance under way, and once it is made with the next call. `false` where
    /// the buffer is full or nothing is left.
    fn play(&mut self) -> bool
        ensures whole { whole_of (sliced_of self.new) ≡ whole_of (sliced_of self.old) }
        ensures ahead { result ≡ true → length self.new.calls < length self.old.calls }
        ensures full { result ≡ false → 0 < self.new.left
            → 0 < length self.new.run.domain.switches }
        ensures last { result ≡ false → self.new.left ≡ 0 → self.new.calls ≡ [] }
    {
        self.advance();
        if self.left > 0 {
            return false;
        }
        self.begin()
    }

    /// Up to which time the run is made, if anything is left of it.
    fn time_if_left(&self) -> Option<u64>
        requires full { 0 < self.now.left → 0 < length self.now.run.domain.switches }
        requires last { self.now.left ≡ 0 → self.now.calls ≡ [] }
        ensures none { IfNone result ((sliced_of self.now).to_come ≡ []) }
        ensures some { IfSome result (λ _. 0 < length (sliced_of self.now).at_hand) }
        ensures past { IfSome result
            (λ time. All (λ s. s.time < time) (sliced_of self.now).at_hand) }
        ensures later { IfSome result
            (λ time. All (λ s. time ≤ s.time) (sliced_of self.now).to_come) }
    {
        let left = self.left;
        if left == 0 {
            return None;
        }
        let state = self.run.domain.state();
        Some(state.now())
    }

    /// Makes more switches, until the buffer is full or nothing is left. Up to which time the run
    /// is made then, if anything is left of it.
    pub(crate) fn make_more(&mut self) -> Option<u64>
        ensures whole { whole_of (sliced_of self.new) ≡ whole_of (sliced_of self.old) }
        ensures none { IfNone result ((sliced_of self.new).to_come ≡ []) }
        ensures some { IfSome result (λ _. 0 < length (sliced_of self.new).at_hand) }
        ensures past { IfSome result
            (λ time. All (λ s. s.time < time) (sliced_of self.new).at_hand) }
        ensures later { IfSome result
            (λ time. All (λ s. time ≤ s.time) (sliced_of self.new).to_come) }
    {
        'pieces: while self.play() {}
        self.time_if_left()
    }

    /// Forgets the first `count` of the switches at hand.
    pub(crate) fn forget_first(&mut self, count: usize)
        ensures { sliced_of self.new ≡ without_first count (sliced_of self.old) }
    {
        self.run.domain.forget_front(count);
    }

    /// The switches at hand, as they are written.
    pub(crate) fn as_written(&self) -> Run<'_>
        ensures run { IsPrintable result }
        ensures base { result.base ≡ self.now.base }
        ensures switches { result.switches.now ≡ self.now.run.domain.switches }
        ensures names { All (SameNames (name_of_task result.names.now) (all_names self.now))
            result.switches.now }
    {
        Run {
            base: self.base,
            names: &self.run.names,
            switches: self.run.domain.switches(),
        }
    }
}

impl Slices for Playing {
    ghost use Rattle.calls_trace.specs.private.Playing.{sliced_of};

    ghost sliced = { sliced_of };

    ghost kept = { λ _. tt };

    fn fill(&mut self) -> Option<u64> {
        self.make_more()
    }

    fn forget_front(&mut self, count: usize) {
        self.forget_first(count);
    }

    fn slice(&self) -> Run<'_> {
        self.as_written()
    }
}

/// Room for so many names more.
pub(crate) fn make_room(names: &mut IndexMap<u32, String>, n: usize) -> Result<(), NoMemory>
    ensures names { MapGives names.new (name_of_task names.old) }
    ensures room { OnOk result (n ≤ spare names.new) }
{
    names.reserve(n)?;
    Ok(())
}
