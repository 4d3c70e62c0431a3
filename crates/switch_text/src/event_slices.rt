//! The events text of runs of which the switches, and what happens, come slice by slice, while they
//! are made.

ghost use Rattle.std.specs.Prelude.{ℕ, ◌≡◌, ◌+◌, ◌*◌, ◌<◌, ◌≤◌, ◌^◌, ◌++◌, [], List, length, map, take, drop, is_ok, false, slice_index_or, All, AllPairs, IsTrue, IfErr, IfNone, IfOk, IfSome, OnOk};
ghost use Rattle.std.specs.Io.KnownBytes.{Appends};
ghost use Rattle.counted_io.specs.Sides.{inner_of, faults_of};
ghost use Rattle.counted_io.specs.Faults.{one_more_unless, TakesFront};
ghost use Rattle.switch_text.specs.Names.{name_of_task, SameNames};
ghost use Rattle.switch_text.specs.Runs.{IsPrintable};
ghost use Rattle.switch_text.specs.SlicedEvents.{SlicedEventsView, whole_logged_run, logged_runs, events_in, logged_runs_text, without_fronts, is_logged_by, IsAllAtHand};
ghost use Rattle.switch_text.specs.EventLines.{is_sooner_unless_cut, IsLogged};
ghost use Rattle.switch_text.specs.LoggedLine.{has_line};
ghost use Rattle.switch_text.specs.private.EventSlicing as slicing;
ghost use Rattle.switch_text.specs.private.EventSlicing.{lines_before_cut, logged_before, logged_from_cut, logged_runs_before, logged_run_from_cut, logged_runs_from_cut, switches_part, names_logged_by, AreEventsCutAt, IsLoggedFront};
ghost use Rattle.switch_text.specs.private.Ready.{AreEnough, IsSlot, IsTexts};
ghost use Rattle.switch_text.specs.private.Sending.{Sends};
ghost use Rattle.switch_text.specs.private.Sliced.{IsFront};

use crate::batch::Batch;
use crate::events::send_events;
use crate::fault::WriteFault;
use crate::logged::DomainEvents;
use crate::ready::{Slot, Texts, TraceRoom, no_texts};
use crate::run::Run;
use crate::slices::{count_before, earlier};
use crate::writing::{header_text, stopped_after};
use counted_io::Counted;
use domain_run::Happened;
use std::io::Write;

/// What begins a tick has at least this rank ([`domain_run::What::rank`]); what ends one has less.
const RANK_OF_BEGINNINGS: u8 = 4;

/// The run of one domain, of which the switches and what happens come slice by slice while it is
/// made: some are at hand, the others are to come. Of what happens only what has a line is in it:
/// no cut is.
pub trait EventSlices {
    /// The run: its first CPU of the machine, the names of the tasks of the whole run, the switches
    /// at hand and those to come, and what is logged of what happens and what is still to be
    /// logged.
    ghost sliced: { Self → SlicedEventsView };

    /// What of it no call changes, such as the calls that the run is made of. No text shows it.
    ghost Kept: { Type 0 } = { Unit {0} };

    ghost kept: { Self → Kept };

    /// Makes more of the run, after what is at hand, until there is room for no more. Takes no
    /// memory. `None`: nothing is to come any more. `Some`: up to which time the run is made; of
    /// switches and of what happens at least one is at hand. The switches at hand are before that
    /// time, and those to come are at that time or later. What ends a tick at that time is logged,
    /// and what begins one at that time is still to be logged.
    fn fill(&mut self) -> Option<u64>
        ensures whole { whole_logged_run (sliced self.new) ≡ whole_logged_run (sliced self.old) }
        ensures none { IfNone result (IsAllAtHand (sliced self.new)) }
        ensures some { IfSome result
            (λ _. 0 < length (sliced self.new).at_hand + length (sliced self.new).logged) }
        ensures past { IfSome result (λ time. All (λ s. s.time < time) (sliced self.new).at_hand) }
        ensures logged { IfSome result
            (λ time. All (λ h. IsTrue (is_logged_by time h)) (sliced self.new).logged) }
        ensures later { IfSome result
            (λ time. All (λ s. time ≤ s.time) (sliced self.new).to_come) }
        ensures unlogged { IfSome result
            (λ time. All (λ h. is_logged_by time h ≡ false) (sliced self.new).to_log) }
        ensures kept { kept self.new ≡ kept self.old };

    /// Forgets the first `switches` of the switches at hand and the first `logged` of what is
    /// logged, or all if they are fewer. Takes no memory.
    fn forget_front(&mut self, switches: usize, logged: usize)
        ensures rest { sliced self.new ≡ without_fronts switches logged (sliced self.old) }
        ensures kept { kept self.new ≡ kept self.old };

    /// The switches at hand, as they are written. Their names are those of the whole run.
    fn slice(&self) -> Run<'_>
        ensures run { IsPrintable result }
        ensures base { result.base ≡ (sliced self.now).base }
        ensures switches { result.switches.now ≡ (sliced self.now).at_hand }
        ensures names { All (SameNames (name_of_task result.names.now) (sliced self.now).names)
            result.switches.now };

    /// What is logged of what happens, as it is written; no cut is in it. Its names are those of
    /// the whole run.
    fn logged(&self) -> DomainEvents<'_>
        ensures logged { IsLogged result }
        ensures lines { All (λ h. IsTrue (has_line h.what)) result.happened.now }
        ensures base { result.base ≡ (sliced self.now).base }
        ensures happened { result.happened.now ≡ (sliced self.now).logged }
        ensures names { All
            (λ h. name_of_task result.names.now h.number ≡ (sliced self.now).names h.number)
            result.happened.now };
}

/// All runs make more. The cut is the least time up to which a run is made that has more to come:
/// what is logged by then, and the switches before it, are final. `None`: no run has more to come.
fn fill_all<S: EventSlices>(slices: &mut [S]) -> Option<u64>
    ensures whole { logged_runs (map S.sliced slices.new) ≡ logged_runs (map S.sliced slices.old) }
    ensures cut { AreEventsCutAt result (map S.sliced slices.new) }
    ensures kept { map S.kept slices.new ≡ map S.kept slices.old }
{
    let mut cut = None;
    'runs: for slice in slices.iter_mut() {
        let made = slice.fill();
        // Only the proof needs this call: it shows that each logged event has a line.
        let _ = slice.logged();
        cut = earlier(cut, made);
    }
    cut
}

/// Whether it is logged by the cut, if there is one.
fn is_logged_before(happened: &Happened, cut: Option<u64>) -> bool
    ensures { result ≡ slicing.is_logged_before cut happened.now }
{
    match cut {
        None => true,
        Some(cut) => {
            happened.time < cut
                || (happened.time == cut && happened.what.rank() < RANK_OF_BEGINNINGS)
        }
    }
}

/// How much of what is logged is logged by the cut. It rises, so this is the first of it.
fn count_logged(happened: &[Happened], cut: Option<u64>) -> usize
    requires rising { AllPairs (λ a b. IsTrue (is_sooner_unless_cut a b)) happened.now }
    requires lines { All (λ h. IsTrue (has_line h.what)) happened.now }
    ensures front { take result happened.now ≡ logged_before cut happened.now }
    ensures rest { drop result happened.now ≡ logged_from_cut cut happened.now }
    ensures inside { result ≤ length happened.now }
{
    let mut count = 0;
    'count: while count < happened.len() {
        if !is_logged_before(&happened[count], cut) {
            return count;
        }
        count += 1;
    }
    count
}

/// The switches at hand that are before the cut, as they are written.
fn run_front<S: EventSlices>(slices: &S, cut: Option<u64>) -> Run<'_>
    ensures front { IsFront cut (switches_part (S.sliced slices.now)) result }
{
    let run = slices.slice();
    let count = count_before(run.switches, cut);
    Run {
        base: run.base,
        names: run.names,
        switches: &run.switches[..count],
    }
}

/// What is logged by the cut, as it is written.
fn logged_front<S: EventSlices>(slices: &S, cut: Option<u64>) -> DomainEvents<'_>
    ensures front { IsLoggedFront cut (S.sliced slices.now) result }
{
    let logged = slices.logged();
    let count = count_logged(logged.happened, cut);
    DomainEvents {
        base: logged.base,
        names: logged.names,
        happened: &logged.happened[..count],
    }
}

/// Of each run the switches at hand that are before the cut. The other places repeat the first one.
fn run_fronts<S: EventSlices>(slices: &[S], cut: Option<u64>) -> [Run<'_>; 8]
    requires some { 0 < length slices.now }
    requires few { length slices.now ≤ 8 }
    ensures long { length result ≡ 8 }
    ensures fronts { (i : ℕ) (s : S) (r : Run) → i < length slices.now → IsFront cut
        (switches_part (S.sliced (slice_index_or slices.now i s))) (slice_index_or result i r) }
{
    let mut runs = [run_front(&slices[0], cut); 8];
    'runs: for i in 0..slices.len() {
        runs[i] = run_front(&slices[i], cut);
    }
    runs
}

/// Of each run what is logged by the cut. The other places repeat the first one.
fn logged_fronts<S: EventSlices>(slices: &[S], cut: Option<u64>) -> [DomainEvents<'_>; 8]
    requires some { 0 < length slices.now }
    requires few { length slices.now ≤ 8 }
    ensures long { length result ≡ 8 }
    ensures fronts { (i : ℕ) (s : S) (t : DomainEvents) → i < length slices.now
        → IsLoggedFront cut (S.sliced (slice_index_or slices.now i s)) (slice_index_or result i t) }
{
    let mut logged = [logged_front(&slices[0], cut); 8];
    'runs: for i in 0..slices.len() {
        logged[i] = logged_front(&slices[i], cut);
    }
    logged
}

/// The room for what lines say of tasks, for as many tasks as the runs have names at first.
fn widened<S: EventSlices>(slices: &[S], room: TraceRoom) -> TraceRoom
    requires { length slices.now ≤ 8 }
{
    if slices.is_empty() {
        return room;
    }
    let runs = run_fronts(slices, None);
    room.widened(&runs[..slices.len()])
}

/// The lines of all that is before the cut, in one order, go out after what waits: how many bytes
/// went out, also if the writer failed. What is left waits. The texts of tasks are those by the
/// names of the whole runs, so they are kept for the slices that follow.
fn send_fronts<S: EventSlices, W: Write>(
    slices: &[S],
    cut: Option<u64>,
    slots: &mut [Slot],
    texts: &mut Texts,
    batch: &mut Batch,
    writer: &mut Counted<W>,
) -> Result<usize, usize>
    ghost names: { ℕ → ℕ → List ℕ }
    requires few { length slices.now ≤ 8 }
    requires named { names ≡ names_logged_by (logged_runs (map S.sliced slices.now)) }
    requires many { AreEnough slots.old }
    requires slots { All (IsSlot names) slots.old }
    requires texts { IsTexts texts.old }
    requires room { length batch.old ≤ 65536 }
    requires faults { faults_of writer.old < 2 ^ 63 }
    ensures ok { IfOk result (λ n. Sends
        (W.contents (inner_of writer.old)) (W.contents (inner_of writer.new))
        (batch.old ++ lines_before_cut cut (map S.sliced slices.now))
        n batch.new) }
    ensures bound { IfOk result (λ n. n + length batch.new ≤ length batch.old
        + 512 * length (events_in (logged_runs_before cut (map S.sliced slices.now)))) }
    ensures room { OnOk result (length batch.new ≤ 65536) }
    ensures err { IfErr result (TakesFront
        (W.contents (inner_of writer.old)) (W.contents (inner_of writer.new))
        (batch.old ++ lines_before_cut cut (map S.sliced slices.now))) }
    ensures stopped { IfErr result (λ n. n ≤ length batch.old
        + 512 * length (events_in (logged_runs_before cut (map S.sliced slices.now)))) }
    ensures many { AreEnough slots.new }
    ensures slots { All (IsSlot names) slots.new }
    ensures texts { IsTexts texts.new }
    ensures faults { faults_of writer.new ≡ one_more_unless (is_ok result) (faults_of writer.old) }
{
    if slices.is_empty() {
        return Ok(0);
    }
    let runs = run_fronts(slices, cut);
    let logged = logged_fronts(slices, cut);
    let len = slices.len();
    send_events(&runs[..len], &logged[..len], slots, texts, batch, writer)
}

/// Forgets what is before the cut.
fn forget_before<S: EventSlices>(slices: &mut S, cut: Option<u64>)
    ensures left { S.sliced slices.new ≡ logged_run_from_cut cut (S.sliced slices.old) }
    ensures kept { S.kept slices.new ≡ S.kept slices.old }
{
    let switches = count_before(slices.slice().switches, cut);
    let logged = count_logged(slices.logged().happened, cut);
    slices.forget_front(switches, logged);
}

/// All runs forget what is before the cut.
fn forget_all<S: EventSlices>(slices: &mut [S], cut: Option<u64>)
    ensures left { map S.sliced slices.new ≡ logged_runs_from_cut cut (map S.sliced slices.old) }
    ensures kept { map S.kept slices.new ≡ map S.kept slices.old }
{
    'runs: for slice in slices.iter_mut() {
        forget_before(slice, cut);
    }
}

/// Writes the events text of the runs of at most 8 domains while they are made: the header
/// `# tracer: nop`, and then the lines of the switches and of what happens, in the order of
/// [`write_events_in`](crate::write_events_in). Takes no memory but the room that it is given: up
/// to 64 KiB wait in a fixed buffer, which goes out in one write when it is full.
///
/// In turns all runs make more, and what is written is what no run can make anything earlier to any
/// more. What was written is gone from `slices`: if all went out, nothing is left there.
///
/// # Errors
/// The writer's first fault ends the call, and the runs are made no further.
/// [`WriteFault::written`] is exactly the number of bytes that the writer took; they are the front
/// of the events text of the whole runs, and not all of it.
pub fn write_event_slices<S: EventSlices, W: Write>(
    slices: &mut [S],
    room: TraceRoom,
    writer: &mut Counted<W>,
) -> Result<(), WriteFault>
    requires few { length slices.old ≤ 8 }
    requires countable { length (events_in (logged_runs (map S.sliced slices.old))) < 2 ^ 55 }
    requires faults { faults_of writer.old < 2 ^ 63 }
    ensures ok { OnOk result (Appends
        (W.contents (inner_of writer.old)) (W.contents (inner_of writer.new))
        (logged_runs_text (logged_runs (map S.sliced slices.old)))) }
    ensures err { IfErr result (λ f. TakesFront
        (W.contents (inner_of writer.old)) (W.contents (inner_of writer.new))
        (logged_runs_text (logged_runs (map S.sliced slices.old))) f.written) }
    ensures made { OnOk result (events_in (logged_runs (map S.sliced slices.new)) ≡ []) }
    ensures kept { map S.kept slices.new ≡ map S.kept slices.old }
    ensures faults { faults_of writer.new ≡ one_more_unless (is_ok result) (faults_of writer.old) }
{
    let mut room = widened(slices, room);
    let slots = room.slots.as_mut_slice();
    let mut batch = Batch::new();
    batch.append(header_text());
    let mut texts = no_texts();
    let mut written = 0;
    let mut has_more = true;
    'rounds: while has_more {
        let cut = fill_all(slices);
        match send_fronts(slices, cut, slots, &mut texts, &mut batch, writer) {
            Ok(n) => written += n,
            Err(n) => return Err(stopped_after(written, n)),
        }
        forget_all(slices, cut);
        has_more = cut.is_some();
    }
    match batch.flush(writer) {
        Ok(_) => Ok(()),
        Err(n) => Err(stopped_after(written, n)),
    }
}
