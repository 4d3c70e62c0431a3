//! The trace text of runs.

ghost use Rattle.std.specs.Prelude.{ℕ, ◌≡◌, ◌+◌, ◌*◌, ◌<◌, ◌≤◌, ◌^◌, ◌++◌, List, length, is_ok, All, IfErr, IfOk, OnOk};
ghost use Rattle.std.specs.List.{flat_map};
ghost use Rattle.std.specs.Io.KnownBytes.{Appends};
ghost use Rattle.switch_text.specs.Trace.{entries_of, header, trace_of};
ghost use Rattle.switch_text.specs.Runs.{views, IsPrintable};
ghost use Rattle.counted_io.specs.Sides.{inner_of, faults_of};
ghost use Rattle.counted_io.specs.Faults.{one_more_unless, TakesFront};
ghost use Rattle.switch_text.specs.private.Merging.{next_entry, IsPrinted, IsRunAt, IsNextNamed};
ghost use Rattle.switch_text.specs.private.Sending.{Sends};
ghost use Rattle.switch_text.specs.private.Sliced.{lines_in};
ghost use Rattle.switch_text.specs.Line.{digits_in};
ghost use Rattle.switch_text.specs.private.Parts.{event_part};
ghost use Rattle.switch_text.specs.private.Pieces.{piece_text, short_text_of};
ghost use Rattle.switch_text.specs.private.Ready.{RunsHaveNames, AreEnough, AreNobodys, IsSlot, IsTexts};

use crate::batch::{Batch, Front};
use crate::fault::WriteFault;
use crate::merge::{Merge, Next};
use crate::piece::ShortPiece;
use crate::ready::{
    Lane, Slot, Texts, TraceRoom, keep_lane, lane_at, middle, no_slots, no_texts, seat,
};
use crate::run::Run;
use counted_io::Counted;
use std::io::Write;

#[tactic(auto, unfolding(crate::specs::Trace::header))]
pub(crate) fn header_text() -> &'static [u8]
    ensures text { result.now ≡ header }
    ensures short { length result.now ≤ 256 }
{
    b"# tracer: nop\n"
}

/// Adds the front of a line, up to the name of who comes, from the texts of who leaves.
#[inline(always)]
fn append_leaving(slot: &Slot, lane: &Lane, micros: u64, state: &ShortPiece, batch: &mut Batch)
    requires micros { micros < 1000000 }
    requires room { length batch.old ≤ 65152 }
    ensures text { batch.new ≡ batch.old ++ (short_text_of slot.now.head
        ++ short_text_of lane.now.text ++ digits_in 6 micros ++ event_part
        ++ piece_text slot.now.leaving ++ short_text_of state.now) }
    ensures short { length batch.new ≤ length batch.old + 320 }
{
    batch.append_front(&Front {
        head: &slot.head,
        lane: &lane.text,
        micros,
        leaving: &slot.leaving,
        state,
    });
}

/// Adds the line of the next switch.
#[inline(always)]
pub(crate) fn append_line(
    runs: &[Run<'_>],
    next: &Next<'_, '_>,
    slots: &mut [Slot],
    texts: &mut Texts,
    batch: &mut Batch,
)
    ghost names: { ℕ → ℕ → List ℕ }
    requires few { length runs.now ≤ 8 }
    requires printed { IsPrinted next.now }
    requires run { IsRunAt runs.now next.now }
    requires named { IsNextNamed names next.now }
    requires many { AreEnough slots.old }
    requires slots { All (IsSlot names) slots.old }
    requires texts { IsTexts texts.old }
    requires room { length batch.old ≤ 65152 }
    ensures text { batch.new ≡ batch.old ++ (next_entry next.now).line }
    ensures short { length batch.new ≤ length batch.old + 384 }
    ensures many { AreEnough slots.new }
    ensures slots { All (IsSlot names) slots.new }
    ensures texts { IsTexts texts.new }
{
    let switch = next.switch;
    let cpu = next.run.base + u32::from(switch.cpu());
    let time = switch.time();
    let micros = time % 1_000_000;
    let kept = keep_lane(&mut texts.lanes, cpu, time / 1_000_000);
    let place = seat(slots, runs, next.index, cpu, switch.prev());
    let lane = lane_at(&texts.lanes, kept);
    let state = middle(&texts.middles, switch.state());
    append_leaving(&slots[place], lane, micros, state, batch);
    let place = seat(slots, runs, next.index, cpu, switch.next());
    batch.append_end(&slots[place].coming);
}

pub(crate) fn stopped_after(written: usize, more: usize) -> WriteFault
    requires { written + more < 2 ^ 64 }
    ensures { result.written ≡ written + more }
{
    WriteFault {
        written: (written + more) as u64,
    }
}

/// What went out, and what more did.
pub(crate) fn together(sent: usize, more: usize) -> usize
    requires { sent + more < 2 ^ 64 }
    ensures { result ≡ sent + more }
{
    sent + more
}

/// The lines of runs, by time and CPU, go out after what waits: how many bytes went out, also where
/// the writer failed. What is left waits. The texts of tasks that are kept are those by the names
/// of whole runs, of which these may be slices.
#[inline(always)]
pub(crate) fn send_runs<W: Write>(
    runs: &[Run<'_>],
    slots: &mut [Slot],
    texts: &mut Texts,
    batch: &mut Batch,
    writer: &mut Counted<W>,
) -> Result<usize, usize>
    ghost names: { ℕ → ℕ → List ℕ }
    requires few { length runs.now ≤ 8 }
    requires runs { All IsPrintable runs.now }
    requires named { RunsHaveNames names runs.now }
    requires many { AreEnough slots.old }
    requires slots { All (IsSlot names) slots.old }
    requires texts { IsTexts texts.old }
    requires room { length batch.old ≤ 65536 }
    requires faults { faults_of writer.old < 2 ^ 63 }
    ensures ok { IfOk result (λ n. Sends
        (W.contents (inner_of writer.old)) (W.contents (inner_of writer.new))
        (batch.old ++ lines_in (views runs.now)) n batch.new) }
    ensures counted { IfOk result (λ n. n + length batch.new < 2 ^ 64) }
    ensures bound { IfOk result (λ n. n + length batch.new
        ≤ length batch.old + 512 * length (flat_map entries_of (views runs.now))) }
    ensures stopped { IfErr result (λ n. n
        ≤ length batch.old + 512 * length (flat_map entries_of (views runs.now))) }
    ensures room { OnOk result (length batch.new ≤ 65536) }
    ensures err { IfErr result (TakesFront
        (W.contents (inner_of writer.old)) (W.contents (inner_of writer.new))
        (batch.old ++ lines_in (views runs.now))) }
    ensures many { AreEnough slots.new }
    ensures slots { All (IsSlot names) slots.new }
    ensures texts { IsTexts texts.new }
    ensures faults { faults_of writer.new ≡ one_more_unless (is_ok result) (faults_of writer.old) }
{
    let mut sent = 0;
    let mut merge = Merge::start(runs);
    while let Some(next) = merge.next(runs) {
        merge.step(runs, &next);
        match batch.make_room(writer) {
            Ok(n) => sent += n,
            Err(n) => return Err(together(sent, n)),
        }
        append_line(runs, &next, slots, texts, batch);
    }
    Ok(sent)
}

// The trace text, with room for the texts of tasks that holds none yet.
#[inline(always)]
fn write_with<W: Write>(
    runs: &[Run<'_>],
    slots: &mut [Slot],
    writer: &mut Counted<W>,
) -> Result<(), WriteFault>
    requires few { length runs.now ≤ 8 }
    requires runs { All IsPrintable runs.now }
    requires many { AreEnough slots.old }
    requires empty { AreNobodys slots.old }
    requires faults { faults_of writer.old < 2 ^ 63 }
    ensures ok { OnOk result (Appends
        (W.contents (inner_of writer.old)) (W.contents (inner_of writer.new))
        (trace_of (views runs.now))) }
    ensures err { IfErr result (λ f. TakesFront
        (W.contents (inner_of writer.old)) (W.contents (inner_of writer.new))
        (trace_of (views runs.now)) f.written) }
    ensures faults { faults_of writer.new ≡ one_more_unless (is_ok result) (faults_of writer.old) }
{
    let mut batch = Batch::new();
    batch.append(header_text());
    let mut texts = no_texts();
    let written = match send_runs(runs, slots, &mut texts, &mut batch, writer) {
        Ok(n) => n,
        Err(n) => return Err(stopped_after(0, n)),
    };
    match batch.flush(writer) {
        Ok(_) => Ok(()),
        Err(n) => Err(stopped_after(written, n)),
    }
}

/// Writes the trace text of at most 8 runs: the header `# tracer: nop`, and then the line of each
/// switch, ordered by time and CPU of the machine; of switches of one time and CPU, that of the
/// earlier run first. Takes no memory: up to 64 KiB wait in a fixed buffer, which goes out in one
/// write when it is full.
///
/// # Errors
/// The writer's first fault ends the call. [`WriteFault::written`] is exactly the number of bytes
/// that the writer took; they are the front of the trace text, and not all of it.
pub fn write_trace<W: Write>(runs: &[Run<'_>], writer: &mut Counted<W>) -> Result<(), WriteFault>
    requires few { length runs.now ≤ 8 }
    requires runs { All IsPrintable runs.now }
    requires faults { faults_of writer.old < 2 ^ 63 }
    ensures ok { OnOk result (Appends
        (W.contents (inner_of writer.old)) (W.contents (inner_of writer.new))
        (trace_of (views runs.now))) }
    ensures err { IfErr result (λ f. TakesFront
        (W.contents (inner_of writer.old)) (W.contents (inner_of writer.new))
        (trace_of (views runs.now)) f.written) }
    ensures faults { faults_of writer.new ≡ one_more_unless (is_ok result) (faults_of writer.old) }
{
    let mut slots = no_slots();
    write_with(runs, &mut slots, writer)
}

/// As [`write_trace`], where the texts of tasks stand in memory and not on the stack, which may
/// find no room to grow: 120 KiB of them, and 410 where a run has many tasks.
///
/// # Errors
/// As [`write_trace`].
pub fn write_trace_in<W: Write>(
    runs: &[Run<'_>],
    room: TraceRoom,
    writer: &mut Counted<W>,
) -> Result<(), WriteFault>
    requires few { length runs.now ≤ 8 }
    requires runs { All IsPrintable runs.now }
    requires faults { faults_of writer.old < 2 ^ 63 }
    ensures ok { OnOk result (Appends
        (W.contents (inner_of writer.old)) (W.contents (inner_of writer.new))
        (trace_of (views runs.now))) }
    ensures err { IfErr result (λ f. TakesFront
        (W.contents (inner_of writer.old)) (W.contents (inner_of writer.new))
        (trace_of (views runs.now)) f.written) }
    ensures faults { faults_of writer.new ≡ one_more_unless (is_ok result) (faults_of writer.old) }
{
    let mut room = room.widened(runs);
    write_with(runs, room.slots.as_mut_slice(), writer)
}

/// Writes a text that stands in memory, from its front; a writer that takes all at once is called
/// once, and for an empty text not at all. Takes no memory.
///
/// # Errors
/// The writer's first fault ends the call. [`WriteFault::written`] is exactly the number of bytes
/// that the writer took; they are the front of the text, and not all of it.
pub fn write_text<W: Write>(text: &[u8], writer: &mut Counted<W>) -> Result<(), WriteFault>
    requires faults { faults_of writer.old < 2 ^ 63 }
    ensures ok { OnOk result (Appends
        (W.contents (inner_of writer.old)) (W.contents (inner_of writer.new)) text.now) }
    ensures err { IfErr result (λ f. TakesFront
        (W.contents (inner_of writer.old)) (W.contents (inner_of writer.new)) text.now f.written) }
    ensures empty { length text.now ≡ 0 → writer.new ≡ writer.old }
    ensures faults { faults_of writer.new ≡ one_more_unless (is_ok result) (faults_of writer.old) }
{
    match writer.write_all(text) {
        Ok(()) => Ok(()),
        Err(n) => Err(WriteFault { written: n as u64 }),
    }
}
