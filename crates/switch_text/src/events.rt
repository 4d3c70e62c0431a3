//! The events text of runs.

ghost use Rattle.std.specs.Prelude.{ℕ, ◌≡◌, ◌+◌, ◌*◌, ◌<◌, ◌≤◌, ◌^◌, ◌++◌, List, length, is_ok, All, IfErr, IfOk, OnOk};
ghost use Rattle.std.specs.Io.KnownBytes.{Appends};
ghost use Rattle.counted_io.specs.Sides.{inner_of, faults_of};
ghost use Rattle.counted_io.specs.Faults.{one_more_unless, TakesFront};
ghost use Rattle.switch_text.specs.Runs.{views, IsPrintable};
ghost use Rattle.switch_text.specs.Events.{all_events, events_of};
ghost use Rattle.switch_text.specs.EventLines.{logged_views, IsLogged};
ghost use Rattle.switch_text.specs.private.EventMerging.{line_of_next, CanShow};
ghost use Rattle.switch_text.specs.private.EventSlicing.{sequence_lines};
ghost use Rattle.switch_text.specs.private.Ready.{RunsHaveNames, AreEnough, AreNobodys, IsSlot, IsTexts};
ghost use Rattle.switch_text.specs.private.Sending.{Sends};
ghost use Rattle.switch_text.specs.private.LoggedMerging.{next_logged_event, IsShown};

use crate::batch::Batch;
use crate::event_merge::{EventMerge, NextEvent, next_event};
use crate::fault::WriteFault;
use crate::logged::DomainEvents;
use crate::logged_lines::{has_a_line, logged_line};
use crate::logged_merge::NextLogged;
use crate::ready::{Slot, Texts, TraceRoom, no_texts};
use crate::run::Run;
use crate::writing::{append_line, header_text, stopped_after, together};
use counted_io::Counted;
use std::io::Write;

/// Adds the line of what happens.
fn append_logged(next: &NextLogged<'_, '_>, batch: &mut Batch)
    requires shown { IsShown next.now }
    requires room { length batch.old ≤ 65152 }
    ensures text { batch.new ≡ batch.old ++ (next_logged_event next.now).line }
    ensures short { length batch.new ≤ length batch.old + 384 }
{
    let mut line = [0u8; 256];
    let len = logged_line(
        next.happened,
        next.logged.base,
        next.logged.names,
        &mut line,
    );
    batch.append(&line[..len]);
}

/// Adds the line of what comes next, if it has one.
fn append_event(
    runs: &[Run<'_>],
    next: &NextEvent<'_, '_, '_, '_>,
    slots: &mut [Slot],
    texts: &mut Texts,
    batch: &mut Batch,
)
    ghost names: { ℕ → ℕ → List ℕ }
    requires few { length runs.now ≤ 8 }
    requires named { RunsHaveNames names runs.now }
    requires shown { CanShow runs.now next.now }
    requires many { AreEnough slots.old }
    requires slots { All (IsSlot names) slots.old }
    requires texts { IsTexts texts.old }
    requires room { length batch.old ≤ 65152 }
    ensures text { batch.new ≡ batch.old ++ line_of_next next.now }
    ensures short { length batch.new ≤ length batch.old + 384 }
    ensures many { AreEnough slots.new }
    ensures slots { All (IsSlot names) slots.new }
    ensures texts { IsTexts texts.new }
{
    match next {
        NextEvent::DomainEvents(next) => {
            if has_a_line(next.happened.what) {
                append_logged(next, batch);
            }
        }
        NextEvent::Switch(next) => append_line(runs, next, slots, texts, batch),
    }
}

/// The lines of what happens and of switches, in one order, go out after what waits: how many bytes
/// went out, also if the writer failed. What is left waits. The texts of tasks that are kept are
/// those by the names of whole runs, of which these may be slices.
pub(crate) fn send_events<W: Write>(
    runs: &[Run<'_>],
    logged: &[DomainEvents<'_>],
    slots: &mut [Slot],
    texts: &mut Texts,
    batch: &mut Batch,
    writer: &mut Counted<W>,
) -> Result<usize, usize>
    ghost names: { ℕ → ℕ → List ℕ }
    requires few_runs { length runs.now ≤ 8 }
    requires few_logged { length logged.now ≤ 8 }
    requires runs { All IsPrintable runs.now }
    requires logged { All IsLogged logged.now }
    requires named { RunsHaveNames names runs.now }
    requires many { AreEnough slots.old }
    requires slots { All (IsSlot names) slots.old }
    requires texts { IsTexts texts.old }
    requires room { length batch.old ≤ 65536 }
    requires faults { faults_of writer.old < 2 ^ 63 }
    ensures ok { IfOk result (λ n. Sends
        (W.contents (inner_of writer.old)) (W.contents (inner_of writer.new))
        (batch.old ++ sequence_lines (all_events (views runs.now) (logged_views logged.now)))
        n batch.new) }
    ensures counted { IfOk result (λ n. n + length batch.new < 2 ^ 64) }
    ensures bound { IfOk result (λ n. n + length batch.new ≤ length batch.old
        + 512 * length (all_events (views runs.now) (logged_views logged.now))) }
    ensures stopped { IfErr result (λ n. n ≤ length batch.old
        + 512 * length (all_events (views runs.now) (logged_views logged.now))) }
    ensures room { OnOk result (length batch.new ≤ 65536) }
    ensures err { IfErr result (TakesFront
        (W.contents (inner_of writer.old)) (W.contents (inner_of writer.new))
        (batch.old ++ sequence_lines (all_events (views runs.now) (logged_views logged.now)))) }
    ensures many { AreEnough slots.new }
    ensures slots { All (IsSlot names) slots.new }
    ensures texts { IsTexts texts.new }
    ensures faults { faults_of writer.new ≡ one_more_unless (is_ok result) (faults_of writer.old) }
{
    let mut sent = 0;
    let mut merge = EventMerge::start(runs);
    while let Some(next) = next_event(runs, logged, &merge) {
        merge.step(runs, &next);
        match batch.make_room(writer) {
            Ok(n) => sent += n,
            Err(n) => return Err(together(sent, n)),
        }
        append_event(runs, &next, slots, texts, batch);
    }
    Ok(sent)
}

// The events text, with room for the texts of tasks that holds none yet.
fn write_with<W: Write>(
    runs: &[Run<'_>],
    logged: &[DomainEvents<'_>],
    slots: &mut [Slot],
    writer: &mut Counted<W>,
) -> Result<(), WriteFault>
    requires few_runs { length runs.now ≤ 8 }
    requires few_logged { length logged.now ≤ 8 }
    requires runs { All IsPrintable runs.now }
    requires logged { All IsLogged logged.now }
    requires many { AreEnough slots.old }
    requires empty { AreNobodys slots.old }
    requires faults { faults_of writer.old < 2 ^ 63 }
    ensures ok { OnOk result (Appends
        (W.contents (inner_of writer.old)) (W.contents (inner_of writer.new))
        (events_of (views runs.now) (logged_views logged.now))) }
    ensures err { IfErr result (λ f. TakesFront
        (W.contents (inner_of writer.old)) (W.contents (inner_of writer.new))
        (events_of (views runs.now) (logged_views logged.now)) f.written) }
    ensures faults { faults_of writer.new ≡ one_more_unless (is_ok result) (faults_of writer.old) }
{
    let mut batch = Batch::new();
    batch.append(header_text());
    let mut texts = no_texts();
    let written = match send_events(runs, logged, slots, &mut texts, &mut batch, writer) {
        Ok(n) => n,
        Err(n) => return Err(stopped_after(0, n)),
    };
    match batch.flush(writer) {
        Ok(_) => Ok(()),
        Err(n) => Err(stopped_after(written, n)),
    }
}

/// Writes the events text of at most 8 domains: the header `# tracer: nop`, and then the lines of
/// the switches of `runs` and of what happens in `logged`, in one order. They are ordered by time.
/// At
/// one time there stand first what ended a tick (the end of a job, a release at once, a spent
/// budget), then what begins one (a replenishment, a release, a wake without budget), then the
/// switches; of each of these, by CPU of the machine, and then by number. A cut has no line. Takes
/// no memory but the room that it is given: up to 64 KiB wait in a fixed buffer, which goes out in
/// one write when it is full.
///
/// # Errors
/// The writer's first fault ends the call. [`WriteFault::written`] is exactly the number of bytes
/// that the writer took; they are the front of the events text, and not all of it.
pub fn write_events_in<W: Write>(
    runs: &[Run<'_>],
    logged: &[DomainEvents<'_>],
    room: TraceRoom,
    writer: &mut Counted<W>,
) -> Result<(), WriteFault>
    requires few_runs { length runs.now ≤ 8 }
    requires few_logged { length logged.now ≤ 8 }
    requires runs { All IsPrintable runs.now }
    requires logged { All IsLogged logged.now }
    requires faults { faults_of writer.old < 2 ^ 63 }
    ensures ok { OnOk result (Appends
        (W.contents (inner_of writer.old)) (W.contents (inner_of writer.new))
        (events_of (views runs.now) (logged_views logged.now))) }
    ensures err { IfErr result (λ f. TakesFront
        (W.contents (inner_of writer.old)) (W.contents (inner_of writer.new))
        (events_of (views runs.now) (logged_views logged.now)) f.written) }
    ensures faults { faults_of writer.new ≡ one_more_unless (is_ok result) (faults_of writer.old) }
{
    let mut room = room.widened(runs);
    write_with(runs, logged, room.slots.as_mut_slice(), writer)
}
