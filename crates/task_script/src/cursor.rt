//! The cursor that goes through a script (own). It sees a script from outside, as what it may read.

ghost use Rattle.std.specs.Prelude.{◌≡◌, ◌<◌, ◌≤◌, ◌+◌, IsSome, IfSome, Some};
ghost use Rattle.task_script.specs.script.ScriptView.{IsEvent, IsScript};
ghost use Rattle.task_script.specs.script.Unrolled.{event_at};
ghost use Rattle.task_script.specs.script.Segments.{begun_at, at_next_event, kept_cursor, given_by, given_at, is_timer_over, passes_late_timer, next_segment, work_in, GivesAsWritten, IsSegment, next_ask};
ghost use Rattle.task_script.specs.private.Progress.{timer_passed, at_reference, work_at};
ghost use Rattle.limits.specs.Limits.{deadline_end, max_script_number};

mod moving;

use crate::phase::Event;
use crate::progress;
use crate::progress::Progress;
use crate::script::{Script, Segment};
pub use moving::Place;
use std::marker::Model;

/// A script, how far it has come in it, and its timer reference. In a script without end it stays
/// within the first round, as each is like the first.
#[derive(Drop)]
pub struct Cursor {
    // The event where it stands, so that nobody looks for it in the script; none behind the last.
    coming: Option<Event>,
    reference: u64,
    progress: Progress,
    script: Script,
}

impl Model for Cursor {
    ghost use Rattle.task_script.specs.script.ScriptView.{CursorView};
    ghost use Rattle.task_script.specs.private.Progress.{progress_place, IsComing};

    ghost Value = { CursorView };

    ghost view = { λ c. record {
      script = c.script;
      place = progress_place c.script c.progress;
      reference = c.reference;
    } };

    ghost invariant = { λ c. IsComing c.script c.progress c.coming };
}

impl Script {
    /// A cursor at the script's beginning, for a task that starts at this time, in microseconds.
    /// Asked at any times, it gives what the script gives written out, event by event.
    /// Takes no memory.
    #[tactic(auto, using(crate::proofs::Unrolling::begun_written))]
    pub fn cursor(self, start: u64) -> Cursor
        ensures begun { result ≡ begun_at self start }
        ensures written { GivesAsWritten result }
    {
        let progress = progress::begin(&self);
        let coming = progress::event_of(&self, progress);
        Cursor {
            coming,
            reference: start,
            progress,
            script: self,
        }
    }
}

fn is_late_at(event: Option<Event>, reference: u64, time: u64) -> bool
    requires event { IfSome event IsEvent }
    requires early { reference < deadline_end }
    ensures { result ≡ is_timer_over event reference time }
{
    match event {
        Some(Event::Timer(n)) => reference + n <= time,
        _ => false,
    }
}

// The work of an event that is one of running.
#[inline(always)]
fn work_at(event: Option<Event>) -> Option<u64>
    requires { IfSome event IsEvent }
    ensures work { result ≡ work_at event }
    ensures within { IfSome result (λ n. (0 < n) × (n ≤ max_script_number)) }
{
    match event {
        Some(Event::Run(n)) => Some(n),
        _ => None,
    }
}

impl Cursor {
    /// The whole script, wherever the cursor stands.
    pub fn script(&self) -> &Script
        ensures { result.now ≡ self.now.script }
    {
        &self.script
    }

    fn event(&self) -> Option<Event>
        ensures value { result ≡ event_at self.now.script self.now.place }
        ensures within { IsScript self.now.script }
        ensures event { IfSome result IsEvent }
    {
        self.coming
    }

    /// Whether it would pass a timer that is late, asked at this time, in microseconds.
    pub fn passes_late_timer(&self, time: u64) -> bool
        requires { self.now.reference < deadline_end }
        ensures { result ≡ passes_late_timer self.now time }
    {
        is_late_at(self.event(), self.reference, time)
    }

    // The event after the one where it stands. Only a late timer asks for it, so it is apart.
    #[inline(never)]
    fn event_behind(&self) -> Option<Event>
        requires { IsSome (event_at self.now.script self.now.place) }
        ensures value { result ≡ event_at self.now.script (self.now.place + 1) }
        ensures event { IfSome result IsEvent }
    {
        let mut progress = self.progress;
        progress::advance(&self.script, &mut progress);
        progress::event_of(&self.script, progress)
    }

    /// How much work [`Cursor::next`] would give, asked at this time, in microseconds; nothing if
    /// it would give no work. It stays where it is.
    #[inline(always)]
    pub fn next_work(&self, time: u64) -> Option<u64>
        requires early { time < deadline_end }
        requires reference { self.now.reference < deadline_end }
        ensures work { result ≡ work_in (next_segment self.now time).segment }
        ensures within { IfSome result (λ n. (0 < n) × (n ≤ max_script_number)) }
    {
        match self.coming {
            Some(Event::Run(n)) => Some(n),
            Some(Event::Timer(n)) if self.reference + n <= time => work_at(self.event_behind()),
            _ => None,
        }
    }

    #[inline(always)]
    fn step(&mut self)
        requires more { IsSome (event_at self.old.script self.old.place) }
        ensures { self.new ≡ kept_cursor (at_next_event self.old self.old.reference) }
    {
        progress::advance(&self.script, &mut self.progress);
        self.coming = progress::event_of(&self.script, self.progress);
    }

    // Behind a timer that is late, and the event there. That is rare, so it stands apart.
    #[inline(never)]
    fn pass_late(&mut self, time: u64) -> Option<Event>
        requires more { IsSome (event_at self.old.script self.old.place) }
        ensures cursor { self.new ≡ kept_cursor (at_next_event self.old time) }
        ensures value { result ≡ event_at self.new.script self.new.place }
        ensures event { IfSome result IsEvent }
    {
        self.reference = time;
        self.step();
        self.event()
    }

    /// Goes behind the work that it gives next, asked at this time, as [`Cursor::next`] does.
    #[inline(always)]
    pub fn pass_work(&mut self, time: u64)
        requires early { time < deadline_end }
        requires reference { self.old.reference < deadline_end }
        requires work { IsSome (work_in (next_segment self.old time).segment) }
        ensures cursor { self.new ≡ (next_segment self.old time).cursor }
        ensures in_order { self.old.reference ≤ time → self.new.reference ≤ time }
    {
        self.look(time);
        self.step();
    }

    // The event that it gives: behind a timer that is late.
    #[inline(always)]
    fn look(&mut self, time: u64) -> Option<Event>
        requires early { time < deadline_end }
        requires reference { self.old.reference < deadline_end }
        ensures cursor { self.new ≡ timer_passed self.old time }
        ensures value { result ≡ event_at self.new.script self.new.place }
        ensures within { IsScript self.old.script }
        ensures event { IfSome result IsEvent }
        ensures early { self.new.reference < deadline_end }
        ensures in_order { self.old.reference ≤ time → self.new.reference ≤ time }
    {
        let event = self.event();
        if is_late_at(event, self.reference, time) {
            return self.pass_late(time);
        }
        event
    }

    // What its event gives. It stands there still, but a timer has set the reference.
    #[inline(always)]
    fn segment_of(&mut self, event: Event, time: u64) -> Segment
        requires early { time < deadline_end }
        requires reference { self.old.reference < deadline_end }
        requires event { IsEvent event }
        ensures segment { result ≡ (given_by self.old time (Some event)).segment }
        ensures cursor { self.new ≡ at_reference self.old
            (given_by self.old time (Some event)).cursor.reference }
        ensures within { IsSegment result }
        ensures in_order { self.old.reference ≤ time →
            self.new.reference ≤ next_ask time result }
    {
        match event {
            Event::Run(n) => Segment::Run(n),
            Event::Sleep(n) => Segment::Until(time + n),
            Event::Timer(n) => {
                self.reference += n;
                Segment::Until(self.reference)
            }
            Event::Wait => Segment::Wait,
        }
    }

    // What it gives at its event, which was looked at.
    #[inline(always)]
    fn give(&mut self, event: Option<Event>, time: u64) -> Segment
        requires early { time < deadline_end }
        requires reference { self.old.reference < deadline_end }
        requires here { event ≡ event_at self.old.script self.old.place }
        requires event { IfSome event IsEvent }
        ensures segment { result ≡ (given_at self.old time).segment }
        ensures cursor { self.new ≡ kept_cursor (given_at self.old time).cursor }
        ensures within { IsSegment result }
        ensures in_order { self.old.reference ≤ time →
            self.new.reference ≤ next_ask time result }
    {
        // For the prover alone: a look into it brings what its type keeps.
        let _ = &self.script;
        match event {
            None => Segment::End,
            Some(event) => {
                let segment = self.segment_of(event, time);
                self.step();
                segment
            }
        }
    }

    /// What the task does next, asked at this time, in microseconds below 2^48. The timer's
    /// reference is below 2^48 wherever no ask is before the start, or before the end of the last
    /// segment [`Segment::Until`]; so asked, it is never behind the next ask. Takes no memory.
    #[inline(always)]
    pub fn next(&mut self, time: u64) -> Segment
        requires early { time < deadline_end }
        requires reference { self.old.reference < deadline_end }
        ensures segment { result ≡ (next_segment self.old time).segment }
        ensures cursor { self.new ≡ (next_segment self.old time).cursor }
        ensures within { IsSegment result }
        ensures in_order { self.old.reference ≤ time →
            self.new.reference ≤ next_ask time result }
    {
        let event = self.look(time);
        self.give(event, time)
    }
}
