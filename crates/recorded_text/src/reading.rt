//! A whole recording.

ghost use Rattle.std.specs.Prelude.{◌≡◌, ◌+◌, ◌<◌, ◌≤◌, ◌^◌, ◌++◌, [], List, ℕ, false, map, length, All, IfSome, IfOk, IfErr, OnOk};
ghost use Rattle.counted_io.specs.declared.call.Call.{Call};
ghost use Rattle.counted_io.specs.Sides.{inner_of, port_calls, faults_of};
ghost use Rattle.recorded_text.specs.Names.{Grows, with_next, names_on};
ghost use Rattle.recorded_text.specs.Views.{switch_view};
ghost use Rattle.recorded_text.specs.Text.{is_bad_line, switches_in_line, IsRead, IsRecordedFault, is_read, recorded_faults_after};
ghost use Rattle.recorded_text.specs.Reads.{AreReadsOf, is_endless};
ghost use Rattle.recorded_text.specs.Steps.{step_view, IsNamed, AreNamed};
ghost use Rattle.recorded_text.specs.private.SoFar.{Lacks, IsReadSoFar, LineFails, BringsOn};

use crate::fault::{LineFault, RecordedFault};
use crate::line::{Line, Switch, line_of};
use crate::names::Names;
use crate::step::Step;
use counted_io::Counted;
use memchr::memchr;
use std::alloc::{AllocError, Global};
use std::io::Read;

/// So many reads without an end are a fault (own).
const READS: u64 = 1 << 32;

/// A switch, with the number of its task's name.
fn step_of(alloc: Global, switch: &Switch<'_>, names: &mut Names) -> Result<Step, AllocError>
    requires { switch.now.time < 2 ^ 61 }
    ensures shown { IfOk result (λ s. step_view names.new s ≡ switch_view switch.now) }
    ensures called { OnOk result (names.new ≡ with_next names.old (switch_view switch.now).next) }
    ensures named { IfOk result (IsNamed names.new) }
    ensures grows { Grows names.old names.new }
{
    let task = match switch.next {
        Some(name) => Some(names.number_of(alloc, name)?),
        None => None,
    };
    Ok(Step {
        time: switch.time,
        cpu: switch.cpu,
        task,
    })
}

/// Adds the switch of a line, if it is one.
fn take_line(
    alloc: Global,
    line: &[u8],
    names: &mut Names,
    steps: &mut Vec<Step>,
) -> Result<(), LineFault>
    requires { AreNamed names.old steps.old.items }
    ensures shown { OnOk result (map (step_view names.new) steps.new.items
        ≡ map (step_view names.old) steps.old.items ++ switches_in_line line.now) }
    ensures called { OnOk result (names.new ≡ names_on names.old (switches_in_line line.now)) }
    ensures good { OnOk result (is_bad_line line.now ≡ false) }
    ensures named { OnOk result (AreNamed names.new steps.new.items) }
    ensures bad { IfErr result (λ e. LineFails e line.now) }
    ensures grows { Grows names.old names.new }
{
    match line_of(line) {
        Line::Other => Ok(()),
        Line::Bad => Err(LineFault::Bad),
        Line::Seen(switch) => {
            let step = step_of(alloc, &switch, names)?;
            steps.push(step)?;
            Ok(())
        }
    }
}

/// Takes a line that ends: what was kept of it, and this front of a piece.
fn end_line(
    alloc: Global,
    front: &[u8],
    rest: &mut Vec<u8>,
    names: &mut Names,
    steps: &mut Vec<Step>,
) -> Result<(), LineFault>
    requires { AreNamed names.old steps.old.items }
    ensures shown { OnOk result (map (step_view names.new) steps.new.items
        ≡ map (step_view names.old) steps.old.items
        ++ switches_in_line (rest.old.items ++ front.now)) }
    ensures called { OnOk result (names.new
        ≡ names_on names.old (switches_in_line (rest.old.items ++ front.now))) }
    ensures good { OnOk result (is_bad_line (rest.old.items ++ front.now) ≡ false) }
    ensures empty { OnOk result (rest.new.items ≡ []) }
    ensures named { OnOk result (AreNamed names.new steps.new.items) }
    ensures bad { IfErr result (λ e. LineFails e (rest.old.items ++ front.now)) }
    ensures grows { Grows names.old names.new }
{
    if rest.is_empty() {
        return take_line(alloc, front, names, steps);
    }
    match rest.extend_from_slice(front) {
        Ok(()) => {}
        Err(_) => return Err(LineFault::Memory),
    }
    match take_line(alloc, rest.as_slice(), names, steps) {
        Ok(()) => {
            rest.clear();
            Ok(())
        }
        Err(fault) => Err(fault),
    }
}

/// Takes the lines that end in a piece, and keeps what is behind them.
fn take_piece(
    alloc: Global,
    piece: &[u8],
    lines: &mut u64,
    rest: &mut Vec<u8>,
    names: &mut Names,
    steps: &mut Vec<Step>,
) -> Result<(), RecordedFault>
    requires few { lines.old + length piece.now < 2 ^ 63 }
    requires named { AreNamed names.old steps.old.items }
    requires rest { Lacks 10 rest.old.items }
    ensures so_far { OnOk result ((whole after : List ℕ) →
        IsReadSoFar whole ((rest.old.items ++ piece.now) ++ after) lines.old
        (map (step_view names.old) steps.old.items)
        → IsReadSoFar whole (rest.new.items ++ after) lines.new
        (map (step_view names.new) steps.new.items)) }
    ensures bad { IfErr result (λ e. (whole after : List ℕ) →
        IsReadSoFar whole ((rest.old.items ++ piece.now) ++ after) lines.old
        (map (step_view names.old) steps.old.items)
        → IsRecordedFault whole e) }
    ensures called { OnOk result ((first : List (List ℕ)) →
        BringsOn first names.old (map (step_view names.old) steps.old.items)
        → BringsOn first names.new (map (step_view names.new) steps.new.items)) }
    ensures not_read { IfErr result (λ e. is_read e ≡ false) }
    ensures not_endless { IfErr result (λ e. is_endless e ≡ false) }
    ensures rest { OnOk result (Lacks 10 rest.new.items) }
    ensures named { OnOk result (AreNamed names.new steps.new.items) }
    ensures few { OnOk result (lines.new ≤ lines.old + length piece.now) }
    ensures grows { Grows names.old names.new }
{
    let mut left = piece;
    while let Some(i) = memchr(b'\n', left) {
        match end_line(alloc, &left[..i], rest, names, steps) {
            Ok(()) => {}
            Err(LineFault::Bad) => return Err(RecordedFault::BadLine(*lines + 1)),
            Err(LineFault::Memory) => return Err(RecordedFault::Memory),
        }
        *lines += 1;
        left = &left[i + 1..];
    }
    match rest.extend_from_slice(left) {
        Ok(()) => Ok(()),
        Err(_) => Err(RecordedFault::Memory),
    }
}

/// Reads a recording to its end: the switches of its lines, in their order. Names of tasks that
/// come with a priority below 0 are added to the names behind those that are there, as they first
/// come; after an error too some may have been added.
///
/// # Errors
/// [`RecordedFault::BadLine`] with the first line of sched_switch that is not as ftrace,
/// `trace-cmd report` or `perf script` print it. [`RecordedFault::Read`] where a read is a fault,
/// which the reader counts, [`RecordedFault::Endless`] where 2^32 reads met no end, and
/// [`RecordedFault::Memory`] where a growth was refused.
pub fn read_switches<R: Read>(
    alloc: Global,
    reader: &mut Counted<R>,
    names: &mut Names,
) -> Result<Vec<Step>, RecordedFault>
    requires { faults_of reader.old < 2 ^ 63 }
    ensures read { IfOk result (λ steps. IfSome (R.remaining (inner_of reader.old)) (λ text.
        IsRead text names.new steps.items)) }
    ensures named { IfOk result (λ steps. AreNamed names.new steps.items) }
    ensures called { IfOk result (λ steps.
        names.new ≡ names_on names.old (map (step_view names.new) steps.items)) }
    ensures small { IfOk result (λ steps. All (λ s. s.time < 2 ^ 61) steps.items) }
    ensures fault { IfErr result (λ e. IfSome (R.remaining (inner_of reader.old)) (λ text.
        IsRecordedFault text e)) }
    ensures grows { Grows names.old names.new }
    ensures faults { faults_of reader.new ≡ recorded_faults_after (faults_of reader.old) result }
    ensures asked { (calls : List Call)
        × (port_calls reader.new ≡ port_calls reader.old ++ calls) × AreReadsOf calls result }
{
    let mut steps = Vec::new(alloc);
    let mut rest = Vec::new(alloc);
    let mut lines: u64 = 0;
    let mut piece = [0u8; 65536];
    for _ in 0..READS {
        match reader.read(&mut piece) {
            None => return Err(RecordedFault::Read),
            Some(0) => match take_line(alloc, rest.as_slice(), names, &mut steps) {
                Ok(()) => return Ok(steps),
                Err(LineFault::Bad) => return Err(RecordedFault::BadLine(lines + 1)),
                Err(LineFault::Memory) => return Err(RecordedFault::Memory),
            },
            Some(n) => {
                match take_piece(alloc, &piece[..n], &mut lines, &mut rest, names, &mut steps) {
                    Ok(()) => {}
                    Err(fault) => return Err(fault),
                }
            }
        }
    }
    Err(RecordedFault::Endless)
}
