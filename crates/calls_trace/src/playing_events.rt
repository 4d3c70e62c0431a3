//! The run of a section that is made piece by piece, with what happens in it, so that both can be
//! written while they are made. It is made as that of [`Playing`](crate::playing::Playing), on a
//! domain that keeps a log.

ghost use Rattle.std.specs.Prelude.{◌≡◌, ◌+◌, ◌*◌, ◌<◌, ◌≤◌, ◌^◌, All, length, sum_by};
ghost use Rattle.indexmap.specs.IndexMap.{spare};
ghost use Rattle.domain_run.specs.LoggedRun.{IsLoggedUntil};
ghost use Rattle.calls_trace.specs.private.Replaying.{AdmittedHaveNames};
ghost use Rattle.calls_trace.specs.private.Calls.{IsCallReady};
ghost use Rattle.calls_trace.specs.private.Kept.{room_of};
ghost use Rattle.calls_trace.specs.private.LoggedSoFar.{IsLoggedSoFar};
ghost use Rattle.limits.specs.Limits.{clock_end, max_advance, max_script_number};

use crate::kept::CallsLeft;
use crate::kept_section::KeptSection;
use crate::laid_out::lay_out_if_admitted;
use crate::named_run::RunWithNames;
use crate::playing::make_room;
use attr_check::Params;
use domain_run::{Call, LoggedRun, Name, NoMemory, Script};
use indexmap::IndexMap;
use std::alloc::Global;
use switch_text::{DomainEvents, EventSlices, Run};

/// If more than this waits of what happens, no tick is made before some of it was written.
const ENOUGH: usize = 4096;

/// A domain that keeps a log and whose calls take no memory, and the names of its tasks by their
/// numbers. Each name that is put down needs room that was made before.
#[derive(Drop)]
pub(crate) struct NamedLog {
    logged_run: LoggedRun,
    names: IndexMap<u32, String>,
}

/// The run of a section while it is made, with the switches at hand, and what was logged of what
/// happens, that are not yet forgotten. What needs memory is made at the opening; a script that is
/// laid out takes some where it may.
#[derive(Drop)]
pub(crate) struct PlayingEvents {
    /// The CPU of the machine that is the domain's CPU 0.
    base: u32,
    run: NamedLog,
    /// The ticks that are left of the advance under way: at most 60,000,000.
    left: u64,
    /// The calls after it.
    calls: CallsLeft,
    ghost called: { AdmittedHaveNames run.logged_run.domain run.names },
    ghost kept: { All IsCallReady calls },
    ghost room: { sum_by room_of calls ≤ spare run.names },
    ghost early: { run.logged_run.domain.time + left + length calls * max_advance < clock_end },
    ghost short: { left ≤ max_advance },
    ghost inside: { base + run.logged_run.domain.cpus ≤ 512 },
    ghost few: { length run.logged_run.logged ≤ 2 ^ 50 },
    ghost past: { ∥ All (IsLoggedUntil run.logged_run.domain.time) run.logged_run.logged ∥₁ },
    ghost so_far: { ∥ IsLoggedSoFar run.logged_run ∥₁ },
}

impl NamedLog {
    ghost use Rattle.std.specs.Prelude.{[], IfOk};
    ghost use Rattle.std.specs.String.{string_bytes};
    ghost use Rattle.domain_run.specs.declared.call.Call.TheVariants as Call;
    ghost use Rattle.domain_run.specs.Calls.{after_call};
    ghost use Rattle.domain_run.specs.Run.{after_calls};
    ghost use Rattle.calls_text.specs.Limits.{IsTaskNumber};
    ghost use Rattle.switch_text.specs.Names.{name_of_task};
    ghost use Rattle.calls_trace.specs.Replay.{with_name, names_after};
    ghost use Rattle.calls_trace.specs.private.Replaying.{MapGives};
    ghost use Rattle.calls_trace.specs.private.NameGiven.{name_given};
    ghost use Rattle.calls_trace.specs.private.Calls.{ticks_given};
    ghost use Rattle.calls_trace.specs.private.LoggedSoFar.{made_at_once};

    /// The domain of a run, with an empty log, and its names, with room for `room` more.
    fn of(alloc: Global, run: RunWithNames, room: usize) -> Result<NamedLog, NoMemory>
        ensures domain { IfOk result (λ d. d.logged_run.domain ≡ run.state) }
        ensures logged { IfOk result (λ d. d.logged_run.logged ≡ []) }
        ensures names { IfOk result (λ d. MapGives d.names (name_of_task run.names)) }
        ensures room { IfOk result (λ d. room ≤ spare d.names) }
    {
        let RunWithNames {
            state,
            mut names,
            given,
            log,
        } = run;
        drop(given);
        drop(log);
        // The names are let go of by one call: their parts would be written out on each way.
        if let Err(error) = make_room(&mut names, room) {
            drop(names);
            drop(state);
            return Err(error);
        }
        match LoggedRun::of(alloc, state) {
            Ok(logged_run) => Ok(NamedLog { logged_run, names }),
            Err(error) => {
                drop(names);
                Err(error)
            }
        }
    }

    /// Puts down a name in the room for it.
    fn put(&mut self, number: u32, text: String)
        requires room { 0 < spare self.old.names }
        ensures logged_run { self.new.logged_run ≡ self.old.logged_run }
        ensures names { MapGives self.new.names
            (with_name (name_of_task self.old.names) number (string_bytes text)) }
        ensures room { spare self.old.names ≤ spare self.new.names + 1 }
    {
        match self.names.insert(number, text) {
            Ok(_) | Err(_) => {}
        }
    }

    /// Admits a task; its name is put down where it is admitted.
    fn admit(
        &mut self,
        number: u32,
        name: Name,
        params: Params,
        delay: u64,
        mut script: Script,
        text: String,
    )
        requires number { IsTaskNumber number }
        requires delay { delay ≤ max_script_number }
        requires text { string_bytes text ≡ name }
        requires room { 0 < spare self.old.names }
        requires called { AdmittedHaveNames self.old.logged_run.domain self.old.names }
        ensures domain { self.new.logged_run.domain
            ≡ after_call self.old.logged_run.domain (Call.Admit number name params delay script) }
        ensures logged { self.new.logged_run.logged ≡ self.old.logged_run.logged }
        ensures names { MapGives self.new.names (names_after self.old.logged_run.domain
            (Call.Admit number name params delay script) (name_of_task self.old.names)) }
        ensures called { AdmittedHaveNames self.new.logged_run.domain self.new.names }
        ensures room { spare self.old.names ≤ spare self.new.names + 1 }
    {
        // For the prover alone: a look at a name brings what every name keeps.
        let _ = name.as_str();
        if !lay_out_if_admitted(self.logged_run.state(), number, &params, &mut script) {
            return;
        }
        match self.logged_run.admit(number, name, params, delay, script) {
            Ok(()) => self.put(number, text),
            Err(_) => {}
        }
    }

    /// As `make`, of any call.
    #[inline(never)]
    fn make_any(&mut self, call: Call, text: String) -> u64
        requires call { IsCallReady call }
        requires text { string_bytes text ≡ name_given call }
        requires room { room_of call ≤ spare self.old.names }
        requires called { AdmittedHaveNames self.old.logged_run.domain self.old.names }
        ensures domain { self.new.logged_run.domain
            ≡ after_calls self.old.logged_run.domain (made_at_once call) }
        ensures logged { self.new.logged_run.logged ≡ self.old.logged_run.logged }
        ensures left { result ≡ ticks_given call }
        ensures names { MapGives self.new.names
            (names_after self.old.logged_run.domain call (name_of_task self.old.names)) }
        ensures called { AdmittedHaveNames self.new.logged_run.domain self.new.names }
        ensures room { spare self.old.names ≤ spare self.new.names + room_of call }
    {
        match call {
            Call::Admit {
                number,
                name,
                params,
                delay,
                script,
            } => self.admit(number, name, params, delay, script, text),
            Call::Advance { ticks } => return ticks,
            Call::Regrade {
                number,
                params,
                word,
            } => {
                self.logged_run.regrade(number, params, word);
            }
            Call::Wake { number } => {
                self.logged_run.wake(number);
            }
            Call::Leave { number } => {
                self.logged_run.leave(number);
            }
            Call::Limit { limit, word } => {
                self.logged_run.set_limit(limit, word);
            }
            Call::Depart { number } => {
                self.logged_run.depart(number);
            }
            // As an admission without a delay.
            Call::Arrive {
                number,
                name,
                params,
                script,
            } => self.admit(number, name, params, 0, script, text),
        }
        0
    }

    /// Makes a call, of an advance no tick; answers how many ticks it has still to make. A short
    /// one is made in place.
    #[inline(always)]
    fn make(&mut self, call: Call, text: String) -> u64
        requires call { IsCallReady call }
        requires text { string_bytes text ≡ name_given call }
        requires room { room_of call ≤ spare self.old.names }
        requires called { AdmittedHaveNames self.old.logged_run.domain self.old.names }
        ensures domain { self.new.logged_run.domain
            ≡ after_calls self.old.logged_run.domain (made_at_once call) }
        ensures logged { self.new.logged_run.logged ≡ self.old.logged_run.logged }
        ensures left { result ≡ ticks_given call }
        ensures names { MapGives self.new.names
            (names_after self.old.logged_run.domain call (name_of_task self.old.names)) }
        ensures called { AdmittedHaveNames self.new.logged_run.domain self.new.names }
        ensures room { spare self.old.names ≤ spare self.new.names + room_of call }
    {
        match call {
            Call::Advance { ticks } => ticks,
            Call::Wake { number } => {
                self.logged_run.wake(number);
                0
            }
            Call::Leave { number } => {
                self.logged_run.leave(number);
                0
            }
            Call::Depart { number } => {
                self.logged_run.depart(number);
                0
            }
            long => self.make_any(long, text),
        }
    }
}

impl PlayingEvents {
    ghost use Rattle.std.specs.Prelude.{[], true, false, IsTrue, IfOk, IfNone, IfSome};
    ghost use Rattle.calls_text.specs.SectionView.{SectionView};
    ghost use Rattle.calls_text.specs.Limits.{IsSection};
    ghost use Rattle.switch_text.specs.Names.{name_of_task, SameNames};
    ghost use Rattle.switch_text.specs.Runs.{IsPrintable};
    ghost use Rattle.switch_text.specs.SlicedEvents.{whole_logged_run, without_fronts, is_logged_by, IsAllAtHand};
    ghost use Rattle.switch_text.specs.EventLines.{IsLogged};
    ghost use Rattle.switch_text.specs.LoggedLine.{has_line};
    ghost use Rattle.calls_trace.specs.private.Kept.{IsKeptSection, KeepsSection};
    ghost use Rattle.calls_trace.specs.private.PlayingEvents.{names_to_give, sliced_events_of};
    ghost use Rattle.calls_trace.specs.private.ReadEvents.{logged_run_at};

    /// A section whose calls are made up to its first advance, on the CPUs of the machine from
    /// `base` on.
    pub(crate) fn open(
        alloc: Global,
        base: u32,
        kept: KeptSection,
    ) -> Result<PlayingEvents, NoMemory>
        requires kept { KeepsSection kept }
        requires inside { base + kept.cpus ≤ 512 }
        ensures { (section : SectionView) → IsSection section → IsKeptSection section kept
            → IfOk result (λ p. whole_logged_run (sliced_events_of p)
            ≡ logged_run_at base section) }
    {
        let KeptSection { run, calls, .. } = kept;
        // The calls are let go of by one call: their parts would be written out on each way.
        let named = match NamedLog::of(alloc, run, calls.room()) {
            Ok(named) => named,
            Err(error) => {
                drop(calls);
                return Err(error);
            }
        };
        Ok(PlayingEvents {
            base,
            run: named,
            left: 0,
            calls: calls.into_left(alloc),
        })
    }

    /// Makes what there is room for of the advance under way. The switches, and what happens, are
    /// added to what is at hand.
    fn advance(&mut self)
        ensures whole { whole_logged_run (sliced_events_of self.new)
            ≡ whole_logged_run (sliced_events_of self.old) }
        ensures full { 0 < self.new.left → 0
            < length self.new.run.logged_run.domain.switches
            + length self.new.run.logged_run.logged }
        ensures calls { self.new.calls ≡ self.old.calls }
    {
        if self.run.logged_run.logged().len() > ENOUGH {
            return;
        }
        // For the prover alone: a look at a domain brings what every domain keeps.
        let _ = self.run.logged_run.state();
        self.left = self.run.logged_run.fill(self.left);
    }

    /// Begins with the next call. `false` where none is left.
    fn begin(&mut self) -> bool
        requires { self.old.left ≡ 0 }
        ensures whole { whole_logged_run (sliced_events_of self.new)
            ≡ whole_logged_run (sliced_events_of self.old) }
        ensures ahead { result ≡ true → length self.new.calls < length self.old.calls }
        ensures none { result ≡ false → self.new.left ≡ 0 }
        ensures last { result ≡ false → self.new.calls ≡ [] }
    {
        match self.calls.next() {
            Some((call, text)) => {
                self.left = self.run.make(call, text);
                true
            }
            None => false,
        }
    }

    /// Goes on with the advance under way, and once it is made with the next call. `false` where
    /// there is no room or nothing is left.
    fn play(&mut self) -> bool
        ensures whole { whole_logged_run (sliced_events_of self.new)
            ≡ whole_logged_run (sliced_events_of self.old) }
        ensures ahead { result ≡ true → length self.new.calls < length self.old.calls }
        ensures full { result ≡ false → 0 < self.new.left → 0
            < length self.new.run.logged_run.domain.switches
            + length self.new.run.logged_run.logged }
        ensures last { result ≡ false → self.new.left ≡ 0 → self.new.calls ≡ [] }
    {
        self.advance();
        if self.left > 0 {
            return false;
        }
        self.begin()
    }

    /// Up to which time the run is made, if anything is left of it.
    fn time_if_left(&self) -> Option<u64>
        requires full { 0 < self.now.left → 0
            < length self.now.run.logged_run.domain.switches
            + length self.now.run.logged_run.logged }
        requires last { self.now.left ≡ 0 → self.now.calls ≡ [] }
        ensures none { IfNone result (IsAllAtHand (sliced_events_of self.now)) }
        ensures some { IfSome result (λ _. 0
            < length (sliced_events_of self.now).at_hand
            + length (sliced_events_of self.now).logged) }
        ensures past { IfSome result
            (λ time. All (λ s. s.time < time) (sliced_events_of self.now).at_hand) }
        ensures logged { IfSome result
            (λ time. All (λ h. IsTrue (is_logged_by time h)) (sliced_events_of self.now).logged) }
        ensures later { IfSome result
            (λ time. All (λ s. time ≤ s.time) (sliced_events_of self.now).to_come) }
        ensures unlogged { IfSome result
            (λ time. All (λ h. is_logged_by time h ≡ false) (sliced_events_of self.now).to_log) }
    {
        let left = self.left;
        if left == 0 {
            return None;
        }
        let state = self.run.logged_run.state();
        Some(state.now())
    }

    /// Makes more, until there is no room or nothing is left. Up to which time the run is made
    /// then, if anything is left of it.
    pub(crate) fn make_more(&mut self) -> Option<u64>
        ensures whole { whole_logged_run (sliced_events_of self.new)
            ≡ whole_logged_run (sliced_events_of self.old) }
        ensures none { IfNone result (IsAllAtHand (sliced_events_of self.new)) }
        ensures some { IfSome result (λ _. 0
            < length (sliced_events_of self.new).at_hand
            + length (sliced_events_of self.new).logged) }
        ensures past { IfSome result
            (λ time. All (λ s. s.time < time) (sliced_events_of self.new).at_hand) }
        ensures logged { IfSome result
            (λ time. All (λ h. IsTrue (is_logged_by time h)) (sliced_events_of self.new).logged) }
        ensures later { IfSome result
            (λ time. All (λ s. time ≤ s.time) (sliced_events_of self.new).to_come) }
        ensures unlogged { IfSome result
            (λ time. All (λ h. is_logged_by time h ≡ false) (sliced_events_of self.new).to_log) }
    {
        'pieces: while self.play() {}
        self.time_if_left()
    }

    /// Forgets the first `switches` of the switches at hand, and the first `logged` of what is
    /// logged.
    pub(crate) fn forget_first(&mut self, switches: usize, logged: usize)
        ensures { sliced_events_of self.new
            ≡ without_fronts switches logged (sliced_events_of self.old) }
    {
        self.run.logged_run.forget_front(switches, logged);
    }

    /// The switches at hand, as they are written.
    pub(crate) fn as_written(&self) -> Run<'_>
        ensures run { IsPrintable result }
        ensures base { result.base ≡ self.now.base }
        ensures switches { result.switches.now ≡ self.now.run.logged_run.domain.switches }
        ensures names { All (SameNames (name_of_task result.names.now) (names_to_give self.now))
            result.switches.now }
    {
        Run {
            base: self.base,
            names: &self.run.names,
            switches: self.run.logged_run.switches(),
        }
    }

    /// What is logged of what happens, as it is written.
    pub(crate) fn as_logged(&self) -> DomainEvents<'_>
        ensures logged { IsLogged result }
        ensures lines { All (λ h. IsTrue (has_line h.what)) result.happened.now }
        ensures base { result.base ≡ self.now.base }
        ensures happened { result.happened.now ≡ self.now.run.logged_run.logged }
        ensures names { All
            (λ h. name_of_task result.names.now h.number ≡ names_to_give self.now h.number)
            result.happened.now }
    {
        DomainEvents {
            base: self.base,
            names: &self.run.names,
            happened: self.run.logged_run.logged(),
        }
    }
}

impl EventSlices for PlayingEvents {
    ghost use Rattle.calls_trace.specs.private.PlayingEvents.{sliced_events_of};

    ghost sliced = { sliced_events_of };

    ghost kept = { λ _. tt };

    fn fill(&mut self) -> Option<u64> {
        self.make_more()
    }

    fn forget_front(&mut self, switches: usize, logged: usize) {
        self.forget_first(switches, logged);
    }

    fn slice(&self) -> Run<'_> {
        self.as_written()
    }

    fn logged(&self) -> DomainEvents<'_> {
        self.as_logged()
    }
}
