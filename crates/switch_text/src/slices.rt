//! The trace text of runs whose switches come slice by slice, while they are made.

ghost use Rattle.std.specs.Prelude.{ℕ, ◌≡◌, ◌+◌, ◌*◌, ◌<◌, ◌≤◌, ◌^◌, ◌++◌, [], List, length, map, take, drop, is_ok, slice_index_or, All, AllPairs, IsTrue, IfErr, IfNone, IfOk, IfSome, OnOk};
ghost use Rattle.std.specs.List.{AllByRecursion};
ghost use denote.Ref.{MutBor};
ghost use Rattle.std.specs.Thread.{IsSend, IsSync};
ghost use Rattle.std.specs.Io.KnownBytes.{Appends};
ghost use Rattle.domain_run.specs.Switches.{is_switch_before};
ghost use Rattle.counted_io.specs.Sides.{inner_of, faults_of};
ghost use Rattle.counted_io.specs.Faults.{one_more_unless, TakesFront};
ghost use Rattle.switch_text.specs.Names.{name_of_task, SameNames};
ghost use Rattle.switch_text.specs.Runs.{IsPrintable};
ghost use Rattle.switch_text.specs.SlicedTrace.{SlicedView, whole_of, wholes, all_entries, without_first, AreEndsOf, IsStopped};
ghost use Rattle.switch_text.specs.Trace.{trace_of};
ghost use Rattle.switch_text.specs.private.Ready.{AreEnough, IsSlot, IsTexts};
ghost use Rattle.switch_text.specs.private.Sending.{Sends};
ghost use Rattle.switch_text.specs.private.Sliced.{lines_in, switches_before, switches_from_cut, runs_before, run_from_cut, runs_from_cut, earlier_of, is_before_cut, names_by, IsSplit, AreCutAt, IsFront};

use crate::batch::Batch;
use crate::fault::WriteFault;
use crate::ready::{Slot, Texts, TraceRoom, no_texts};
use crate::run::Run;
use crate::writing::{header_text, send_runs, stopped_after};
use counted_io::Counted;
use domain_run::Switch;
use std::io::Write;
use std::thread::{self, Threads};

/// The run of one domain, whose switches come slice by slice while it is made: some are at hand,
/// the others are to come.
pub trait Slices {
    /// The run: its first CPU of the machine, the names of the tasks of the whole run, the switches
    /// at hand and those to come.
    ghost sliced: { Self → SlicedView };

    /// What of it no call changes, such as the calls that the run is made of. No text shows it.
    ghost Kept: { Type 0 } = { Unit {0} };

    ghost kept: { Self → Kept };

    /// Makes more switches, which come after those at hand, until there is room for no more. Takes
    /// no memory. `None`: nothing is to come any more. `Some`: up to which time the run is made;
    /// all switches at hand are before it, and at least one is there; those to come are at that
    /// time or later.
    fn fill(&mut self) -> Option<u64>
        ensures whole { whole_of (sliced self.new) ≡ whole_of (sliced self.old) }
        ensures none { IfNone result ((sliced self.new).to_come ≡ []) }
        ensures some { IfSome result (λ _. 0 < length (sliced self.new).at_hand) }
        ensures past { IfSome result (λ time. All (λ s. s.time < time) (sliced self.new).at_hand) }
        ensures later { IfSome result
            (λ time. All (λ s. time ≤ s.time) (sliced self.new).to_come) }
        ensures kept { kept self.new ≡ kept self.old };

    /// Forgets the first `count` of the switches at hand, or all if they are fewer. Takes no
    /// memory.
    fn forget_front(&mut self, count: usize)
        ensures rest { sliced self.new ≡ without_first count (sliced self.old) }
        ensures kept { kept self.new ≡ kept self.old };

    /// The switches at hand, as they are written. Their names are those of the whole run.
    fn slice(&self) -> Run<'_>
        ensures run { IsPrintable result }
        ensures base { result.base ≡ (sliced self.now).base }
        ensures switches { result.switches.now ≡ (sliced self.now).at_hand }
        ensures names { All (SameNames (name_of_task result.names.now) (sliced self.now).names)
            result.switches.now };
}

/// The earlier of two times, of which each may be missing.
pub(crate) fn earlier(a: Option<u64>, b: Option<u64>) -> Option<u64>
    ensures { result ≡ earlier_of a b }
{
    match (a, b) {
        (None, b) => b,
        (Some(a), None) => Some(a),
        (Some(a), Some(b)) => { if b < a { Some(b) } else { Some(a) } }
    }
}

/// All runs make more switches. The cut is the least time up to which a run is made that has more
/// to come: what is before it is final. `None`: no run has more to come.
fn fill_all<S: Slices>(slices: &mut [S]) -> Option<u64>
    ensures whole { wholes (map S.sliced slices.new) ≡ wholes (map S.sliced slices.old) }
    ensures cut { AreCutAt result (map S.sliced slices.new) }
    ensures kept { map S.kept slices.new ≡ map S.kept slices.old }
{
    let mut cut = None;
    'runs: for slice in slices.iter_mut() {
        cut = earlier(cut, slice.fill());
    }
    cut
}

/// All runs make more switches, first by a call of `ahead` and then in turns. The cut is that of
/// [`fill_all`].
fn fill_round<S: Slices, F: Fn(&mut [S])>(slices: &mut [S], ahead: &F) -> Option<u64>
    requires able { F.IsAlwaysCallable ahead.now }
    requires keeps { (argument after : MutBor (List S)) → F.post ahead.now argument tt after
        → wholes (map S.sliced after.now) ≡ wholes (map S.sliced argument.now) }
    requires leaves { (argument after : MutBor (List S)) → F.post ahead.now argument tt after
        → map S.kept after.now ≡ map S.kept argument.now }
    ensures whole { wholes (map S.sliced slices.new) ≡ wholes (map S.sliced slices.old) }
    ensures cut { AreCutAt result (map S.sliced slices.new) }
    ensures kept { map S.kept slices.new ≡ map S.kept slices.old }
{
    ahead(slices);
    fill_all(slices)
}

/// The runs make more switches, up to `workers` of them side by side. Each does so in a thread of
/// its own, if one can be made.
fn fill_apart<S: Slices + Send, R: Threads + Sync>(rt: &R, workers: usize, slices: &mut [S])
    requires { 0 < workers }
    ensures whole { wholes (map S.sliced slices.new) ≡ wholes (map S.sliced slices.old) }
    ensures kept { map S.kept slices.new ≡ map S.kept slices.old }
{
    thread::for_each_mut(
        rt,
        slices,
        workers,
        &|_, slice: &mut S|
            ensures whole { whole_of (S.sliced slice.exit.now)
                ≡ whole_of (S.sliced slice.entry.now) }
            ensures kept { S.kept slice.exit.now ≡ S.kept slice.entry.now }
        {
            let _ = slice.fill();
        },
    );
}

/// Whether a switch is before the cut, if there is one.
fn is_before(switch: &Switch, cut: Option<u64>) -> bool
    ensures { result ≡ is_before_cut cut switch.now.time }
{
    match cut {
        None => true,
        Some(cut) => switch.time() < cut,
    }
}

/// How many switches are before the cut. They rise, so these are the first ones.
pub(crate) fn count_before(switches: &[Switch], cut: Option<u64>) -> usize
    requires { AllPairs (λ a b. IsTrue (is_switch_before a b)) switches.now }
    ensures front { take result switches.now ≡ switches_before cut switches.now }
    ensures rest { drop result switches.now ≡ switches_from_cut cut switches.now }
    ensures inside { result ≤ length switches.now }
{
    // Mostly all of them are, as in a run alone.
    let len = switches.len();
    if len > 0 {
        let last = &switches[len - 1];
        if is_before(last, cut) {
            return len;
        }
    }
    let mut count = 0;
    'count: while count < switches.len() {
        if !is_before(&switches[count], cut) {
            return count;
        }
        count += 1;
    }
    count
}

/// The switches at hand that are before the cut, as they are written.
fn front<S: Slices>(slices: &S, cut: Option<u64>) -> Run<'_>
    ensures front { IsFront cut (S.sliced slices.now) result }
{
    let run = slices.slice();
    let count = count_before(run.switches, cut);
    Run {
        base: run.base,
        names: run.names,
        switches: &run.switches[..count],
    }
}

/// Of each run the switches at hand that are before the cut. The other places repeat the first one.
fn fronts<S: Slices>(slices: &[S], cut: Option<u64>) -> [Run<'_>; 8]
    requires some { 0 < length slices.now }
    requires few { length slices.now ≤ 8 }
    ensures long { length result ≡ 8 }
    ensures fronts { (i : ℕ) (s : S) (r : Run) → i < length slices.now
        → IsFront cut (S.sliced (slice_index_or slices.now i s)) (slice_index_or result i r) }
{
    let mut runs = [front(&slices[0], cut); 8];
    'runs: for i in 0..slices.len() {
        runs[i] = front(&slices[i], cut);
    }
    runs
}

/// The room for what lines say of tasks, for as many tasks as the runs have names at first.
fn widened<S: Slices>(slices: &[S], room: TraceRoom) -> TraceRoom
    requires { length slices.now ≤ 8 }
{
    if slices.is_empty() {
        return room;
    }
    let runs = fronts(slices, None);
    room.widened(&runs[..slices.len()])
}

/// The lines of all switches at hand that are before the cut, in one order, go out after what
/// waits: how many bytes went out, also if the writer failed. What is left waits. The texts of
/// tasks are those by the names of the whole runs, so they are kept for the slices that follow.
fn send_fronts<S: Slices, W: Write>(
    slices: &[S],
    cut: Option<u64>,
    slots: &mut [Slot],
    texts: &mut Texts,
    batch: &mut Batch,
    writer: &mut Counted<W>,
) -> Result<usize, usize>
    ghost names: { ℕ → ℕ → List ℕ }
    requires few { length slices.now ≤ 8 }
    requires named { names ≡ names_by (wholes (map S.sliced slices.now)) }
    requires many { AreEnough slots.old }
    requires slots { All (IsSlot names) slots.old }
    requires texts { IsTexts texts.old }
    requires room { length batch.old ≤ 65536 }
    requires faults { faults_of writer.old < 2 ^ 63 }
    ensures ok { IfOk result (λ n. Sends
        (W.contents (inner_of writer.old)) (W.contents (inner_of writer.new))
        (batch.old ++ lines_in (runs_before cut (map S.sliced slices.now))) n batch.new) }
    ensures bound { IfOk result (λ n. n + length batch.new ≤ length batch.old
        + 512 * length (all_entries (runs_before cut (map S.sliced slices.now)))) }
    ensures room { OnOk result (length batch.new ≤ 65536) }
    ensures err { IfErr result (TakesFront
        (W.contents (inner_of writer.old)) (W.contents (inner_of writer.new))
        (batch.old ++ lines_in (runs_before cut (map S.sliced slices.now)))) }
    ensures stopped { IfErr result (λ n. n ≤ length batch.old
        + 512 * length (all_entries (runs_before cut (map S.sliced slices.now)))) }
    ensures many { AreEnough slots.new }
    ensures slots { All (IsSlot names) slots.new }
    ensures texts { IsTexts texts.new }
    ensures faults { faults_of writer.new ≡ one_more_unless (is_ok result) (faults_of writer.old) }
{
    if slices.is_empty() {
        return Ok(0);
    }
    let runs = fronts(slices, cut);
    send_runs(&runs[..slices.len()], slots, texts, batch, writer)
}

/// Forgets the switches at hand that are before the cut.
fn forget_before<S: Slices>(slices: &mut S, cut: Option<u64>)
    ensures left { S.sliced slices.new ≡ run_from_cut cut (S.sliced slices.old) }
    ensures split { IsSplit cut (S.sliced slices.old) }
    ensures kept { S.kept slices.new ≡ S.kept slices.old }
{
    let run = slices.slice();
    let count = count_before(run.switches, cut);
    if count > 0 {
        slices.forget_front(count);
    }
}

/// All runs forget the switches at hand that are before the cut.
fn forget_all<S: Slices>(slices: &mut [S], cut: Option<u64>)
    ensures left { map S.sliced slices.new ≡ runs_from_cut cut (map S.sliced slices.old) }
    ensures split { AllByRecursion (IsSplit cut) (map S.sliced slices.old) }
    ensures kept { map S.kept slices.new ≡ map S.kept slices.old }
{
    'runs: for slice in slices.iter_mut() {
        forget_before(slice, cut);
    }
}

/// As [`write_slices`], where the runs may make switches ahead by a call of `ahead` in each round.
fn write_rounds<S: Slices, W: Write, F: Fn(&mut [S])>(
    slices: &mut [S],
    room: TraceRoom,
    writer: &mut Counted<W>,
    ahead: &F,
) -> Result<(), WriteFault>
    requires few { length slices.old ≤ 8 }
    requires countable { length (all_entries (wholes (map S.sliced slices.old))) ≤ 2 ^ 54 }
    requires faults { faults_of writer.old < 2 ^ 63 }
    requires able { F.IsAlwaysCallable ahead.now }
    requires keeps { (argument after : MutBor (List S)) → F.post ahead.now argument tt after
        → wholes (map S.sliced after.now) ≡ wholes (map S.sliced argument.now) }
    requires leaves { (argument after : MutBor (List S)) → F.post ahead.now argument tt after
        → map S.kept after.now ≡ map S.kept argument.now }
    ensures ok { OnOk result (Appends
        (W.contents (inner_of writer.old)) (W.contents (inner_of writer.new))
        (trace_of (wholes (map S.sliced slices.old)))) }
    ensures err { IfErr result (λ f. TakesFront
        (W.contents (inner_of writer.old)) (W.contents (inner_of writer.new))
        (trace_of (wholes (map S.sliced slices.old))) f.written) }
    ensures made { OnOk result (all_entries (wholes (map S.sliced slices.new)) ≡ []) }
    ensures stopped { IfErr result (λ f. IsStopped
        (wholes (map S.sliced slices.old)) (wholes (map S.sliced slices.new)) f.written) }
    ensures left { AreEndsOf (wholes (map S.sliced slices.old)) (wholes (map S.sliced slices.new)) }
    ensures kept { map S.kept slices.new ≡ map S.kept slices.old }
    ensures faults { faults_of writer.new ≡ one_more_unless (is_ok result) (faults_of writer.old) }
{
    let mut room = widened(slices, room);
    let slots = room.slots.as_mut_slice();
    let mut batch = Batch::new();
    batch.append(header_text());
    let mut texts = no_texts();
    let mut written = 0;
    let mut has_more = true;
    'rounds: while has_more {
        let cut = fill_round(slices, ahead);
        match send_fronts(slices, cut, slots, &mut texts, &mut batch, writer) {
            Ok(n) => written += n,
            Err(n) => return Err(stopped_after(written, n)),
        }
        forget_all(slices, cut);
        has_more = cut.is_some();
    }
    match batch.flush(writer) {
        Ok(_) => Ok(()),
        Err(n) => Err(stopped_after(written, n)),
    }
}

/// Writes the trace text of the runs of at most 8 domains while they are made: the header
/// `# tracer: nop`, and then the line of each switch, those at hand among them, ordered by time and
/// CPU of the machine; of switches of one time and CPU, that of the earlier run first. Takes no
/// memory but the room that it is given: up to 64 KiB wait in a fixed buffer, which goes out in one
/// write when it is full.
///
/// In turns all runs make more switches, and those are written that no run can make an earlier one
/// to any more. What was written is gone from `slices`: what is left there is an end of each run,
/// and nothing if all went out.
///
/// # Errors
/// The writer's first fault ends the call, and the runs are made no further: of the switches that
/// are gone then, all but 64 KiB at most was written. [`WriteFault::written`] is exactly the number
/// of bytes that the writer took; they are the front of the trace text of the whole runs, and not
/// all of it.
pub fn write_slices<S: Slices, W: Write>(
    slices: &mut [S],
    room: TraceRoom,
    writer: &mut Counted<W>,
) -> Result<(), WriteFault>
    requires few { length slices.old ≤ 8 }
    requires countable { length (all_entries (wholes (map S.sliced slices.old))) ≤ 2 ^ 54 }
    requires faults { faults_of writer.old < 2 ^ 63 }
    ensures ok { OnOk result (Appends
        (W.contents (inner_of writer.old)) (W.contents (inner_of writer.new))
        (trace_of (wholes (map S.sliced slices.old)))) }
    ensures err { IfErr result (λ f. TakesFront
        (W.contents (inner_of writer.old)) (W.contents (inner_of writer.new))
        (trace_of (wholes (map S.sliced slices.old))) f.written) }
    ensures made { OnOk result (all_entries (wholes (map S.sliced slices.new)) ≡ []) }
    ensures stopped { IfErr result (λ f. IsStopped
        (wholes (map S.sliced slices.old)) (wholes (map S.sliced slices.new)) f.written) }
    ensures left { AreEndsOf (wholes (map S.sliced slices.old)) (wholes (map S.sliced slices.new)) }
    ensures kept { map S.kept slices.new ≡ map S.kept slices.old }
    ensures faults { faults_of writer.new ≡ one_more_unless (is_ok result) (faults_of writer.old) }
{
    write_rounds(slices, room, writer, &|_| {})
}

/// As [`write_slices`], but in each round up to `workers` of the runs, at least 1, make their
/// switches side by side. Each does so in a thread of its own, if one can be made; if not, the
/// caller makes them. The text is the same.
///
/// # Errors
/// Those of [`write_slices`].
pub fn write_slices_apart<S: Slices + Send, W: Write, R: Threads + Sync>(
    rt: &R,
    workers: usize,
    slices: &mut [S],
    room: TraceRoom,
    writer: &mut Counted<W>,
) -> Result<(), WriteFault>
    requires workers { 0 < workers }
    requires few { length slices.old ≤ 8 }
    requires countable { length (all_entries (wholes (map S.sliced slices.old))) ≤ 2 ^ 54 }
    requires faults { faults_of writer.old < 2 ^ 63 }
    ensures ok { OnOk result (Appends
        (W.contents (inner_of writer.old)) (W.contents (inner_of writer.new))
        (trace_of (wholes (map S.sliced slices.old)))) }
    ensures err { IfErr result (λ f. TakesFront
        (W.contents (inner_of writer.old)) (W.contents (inner_of writer.new))
        (trace_of (wholes (map S.sliced slices.old))) f.written) }
    ensures made { OnOk result (all_entries (wholes (map S.sliced slices.new)) ≡ []) }
    ensures stopped { IfErr result (λ f. IsStopped
        (wholes (map S.sliced slices.old)) (wholes (map S.sliced slices.new)) f.written) }
    ensures left { AreEndsOf (wholes (map S.sliced slices.old)) (wholes (map S.sliced slices.new)) }
    ensures kept { map S.kept slices.new ≡ map S.kept slices.old }
    ensures faults { faults_of writer.new ≡ one_more_unless (is_ok result) (faults_of writer.old) }
{
    write_rounds(
        slices,
        room,
        writer,
        &|runs: &mut [S]|
            requires { IsSync R.row × IsSend S.row × (0 < workers) }
            ensures whole { wholes (map S.sliced runs.exit.now)
                ≡ wholes (map S.sliced runs.entry.now) }
            ensures kept { map S.kept runs.exit.now ≡ map S.kept runs.entry.now }
        { fill_apart(rt, workers, runs) },
    )
}
