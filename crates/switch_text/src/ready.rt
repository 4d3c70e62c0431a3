//! What lines say of tasks, idle CPUs, states, and of a CPU in a second, put together once and kept
//! while a trace is written.

ghost use Rattle.std.specs.Prelude.{ℕ, ◌≡◌, ◌<◌, ◌≤◌, ◌++◌, List, length, slice_index_or, All, IfSome, IsTrue, vec_capacity};
ghost use Rattle.switch_text.specs.Names.{name_of_task, HasName};
ghost use Rattle.switch_text.specs.Line.{cpu_part};
ghost use Rattle.switch_text.specs.private.Parts.{second_part, state_part, task_text, leaving_text, coming_text};
ghost use Rattle.switch_text.specs.private.Pieces.{piece_text, short_text_of};
ghost use Rattle.switch_text.specs.private.Ready.{IsSlotReady, who_of, fewest, AreEnough, AreNobodys, IsSlot, IsLane, nth_state, IsMiddles, IsTexts};

use crate::called::{Called, spell};
use crate::lines::{put_coming, put_cpu, put_leaving, put_second, put_state, put_task};
use crate::piece::{Piece, ShortPiece};
use crate::run::Run;
use domain_run::PrevState;
use indexmap::IndexMap;
use std::alloc::{AllocError, Global};

/// The places for idle CPUs, of which each CPU has one.
const IDLE: usize = 128;

/// The places for tasks, and in all, if no run has many tasks.
const FEW: usize = 512;

const NARROW: usize = 640;

/// The places for tasks, and in all, if a run has many.
const MANY: usize = 2048;

const WIDE: usize = 2176;

/// The places for the texts of CPUs of the machine in a second.
const LANES: usize = 128;

/// Whose texts they are.
#[derive(Clone, Copy, PartialEq, Eq)]
pub(crate) enum Who {
    Nobody,
    /// The idle task of a CPU of the machine.
    Idle(u32),
    /// A task, by the place of its run among the runs, and its number there.
    Task(u8, u32),
}

/// The texts of a task, or of an idle CPU.
#[derive(Clone, Copy)]
pub(crate) struct Slot {
    pub(crate) who: Who,
    /// In front of a line, where it leaves.
    pub(crate) head: ShortPiece,
    /// The event's fields where it leaves, up to the state.
    pub(crate) leaving: Piece,
    /// The event's fields where it comes.
    pub(crate) coming: Piece,
}

/// The texts of the states, in the order of the enum.
#[derive(Clone, Copy)]
pub(crate) struct Middles {
    pub(crate) texts: [ShortPiece; 4],
}

/// On which CPU of the machine and in which second, and the text of both.
#[derive(Clone, Copy)]
pub(crate) struct Lane {
    pub(crate) cpu: u32,
    pub(crate) second: u64,
    pub(crate) text: ShortPiece,
}

/// What is kept beside the texts of tasks.
#[derive(Clone, Copy)]
pub(crate) struct Texts {
    pub(crate) lanes: [Lane; LANES],
    pub(crate) middles: Middles,
}

/// Room for what lines say of tasks and idle CPUs while one trace is written: some 410 KiB, of
/// which 120 are used where no run has many tasks.
#[derive(Drop)]
pub struct TraceRoom {
    pub(crate) slots: Vec<Slot>,
    ghost many: { AreEnough slots.items },
    ghost empty: { AreNobodys slots.items },
    ghost room: { 2176 ≤ vec_capacity slots },
}

impl TraceRoom {
    /// Room in memory. `Err` where it was refused.
    pub fn open(alloc: Global) -> Result<TraceRoom, AllocError> {
        let mut slots = Vec::with_capacity(alloc, WIDE)?;
        slots.resize(NARROW, no_slot())?;
        Ok(TraceRoom { slots })
    }

    /// The same, and where a run has many tasks, with the places that were kept back for them.
    /// Takes no memory: each place stands in the room that was opened.
    #[inline(never)]
    pub(crate) fn widened(self, runs: &[Run<'_>]) -> TraceRoom {
        let mut slots = self.slots;
        if have_many(runs) {
            while slots.len() < WIDE {
                slots.push_reserved(no_slot());
            }
        }
        TraceRoom { slots }
    }
}

/// Whether a run has more tasks than it has places for itself where there are few.
fn have_many(runs: &[Run<'_>]) -> bool {
    let each = places_each(runs.len());
    for run in runs {
        if run.names.len() > each {
            return true;
        }
    }
    false
}

#[inline(always)]
fn no_slot() -> Slot
    ensures { result.who ≡ Who.Nobody }
{
    Slot {
        who: Who::Nobody,
        head: ShortPiece::empty(),
        leaving: Piece::empty(),
        coming: Piece::empty(),
    }
}

fn middle_of(state: PrevState) -> ShortPiece
    ensures { short_text_of result ≡ state_part state }
{
    let mut text = [0u8; 64];
    let len = put_state(&mut text, 0, state);
    ShortPiece::front(&text, len)
}

fn all_middles() -> Middles
    ensures { IsMiddles result }
{
    let running = middle_of(PrevState::Running);
    let preempted = middle_of(PrevState::Preempted);
    let sleeping = middle_of(PrevState::Sleeping);
    let dead = middle_of(PrevState::Dead);
    Middles {
        texts: [running, preempted, sleeping, dead],
    }
}

/// The text of a CPU of the machine and a second.
fn lane_of(cpu: u32, second: u64) -> Lane
    requires cpu { cpu < 512 }
    requires second { second < 10000000 }
    ensures cpu { result.cpu ≡ cpu }
    ensures second { result.second ≡ second }
    ensures text { IsLane result }
{
    let mut text = [0u8; 64];
    let at = put_cpu(&mut text, 0, cpu);
    let len = put_second(&mut text, at, second);
    Lane {
        cpu,
        second,
        text: ShortPiece::front(&text, len),
    }
}

/// The states, and in each place CPU 0 in the first second.
pub(crate) fn no_texts() -> Texts
    ensures { IsTexts result }
{
    let lane = lane_of(0, 0);
    let middles = all_middles();
    Texts {
        lanes: [lane; LANES],
        middles,
    }
}

/// Nobody's texts.
#[inline(always)]
pub(crate) fn no_slots() -> [Slot; NARROW]
    ensures { AreNobodys result }
{
    [no_slot(); NARROW]
}

/// Whether it is the text of this CPU of the machine and this second.
#[inline(always)]
fn is_lane(lane: &Lane, cpu: u32, second: u64) -> bool
    ensures { IsTrue result → (lane.now.cpu ≡ cpu) × (lane.now.second ≡ second) }
{
    lane.cpu == cpu && lane.second == second
}

/// Puts the text of a CPU of the machine and a second to a place.
#[cold]
#[inline(never)]
fn refill_lane(lanes: &mut [Lane; LANES], place: usize, cpu: u32, second: u64)
    requires place { place < 128 }
    requires cpu { cpu < 512 }
    requires second { second < 10000000 }
    requires right { All IsLane lanes.old }
    ensures right { All IsLane lanes.new }
    ensures text { (d : Lane) → short_text_of (slice_index_or lanes.new place d).text
        ≡ cpu_part cpu ++ second_part second }
{
    lanes[place] = lane_of(cpu, second);
}

/// Where the text of a CPU of the machine stands, whatever the second.
#[inline(always)]
fn lane_place(cpu: u32) -> usize
    ensures { result < 128 }
{
    cpu as usize % LANES
}

/// The text at a place.
#[inline(always)]
pub(crate) fn lane_at(lanes: &[Lane; LANES], place: usize) -> &Lane
    requires { place < 128 }
    ensures { result.now ≡ slice_index_or lanes.now place result.now }
{
    &lanes[place]
}

/// Sees to it that the text of a CPU of the machine and a second is kept, and gives its place.
#[inline(always)]
pub(crate) fn keep_lane(lanes: &mut [Lane; LANES], cpu: u32, second: u64) -> usize
    requires cpu { cpu < 512 }
    requires second { second < 10000000 }
    requires right { All IsLane lanes.old }
    ensures inside { result < 128 }
    ensures right { All IsLane lanes.new }
    ensures text { (d : Lane) → short_text_of (slice_index_or lanes.new result d).text
        ≡ cpu_part cpu ++ second_part second }
{
    let place = lane_place(cpu);
    if !is_lane(&lanes[place], cpu, second) {
        refill_lane(lanes, place, cpu, second);
    }
    place
}

/// The place of a state's text.
#[inline(always)]
fn place_of(state: PrevState) -> usize
    ensures value { result ≡ nth_state state }
    ensures inside { result < 4 }
{
    match state {
        PrevState::Running => 0,
        PrevState::Preempted => 1,
        PrevState::Sleeping => 2,
        PrevState::Dead => 3,
    }
}

/// The text of a state.
#[inline(always)]
pub(crate) fn middle(middles: &Middles, state: PrevState) -> &ShortPiece
    requires { IsMiddles middles.now }
    ensures { short_text_of result.now ≡ state_part state }
{
    &middles.texts[place_of(state)]
}

/// In front of a line, where it leaves.
#[inline(always)]
fn head_of(called: &Called) -> ShortPiece
    requires title { length (short_text_of called.now.title) ≤ 16 }
    requires pid { length (short_text_of called.now.pid) ≤ 10 }
    ensures { short_text_of result
        ≡ task_text (short_text_of called.now.title) (short_text_of called.now.pid) }
{
    let mut text = [0u8; 64];
    let len = put_task(&mut text, 0, &called.title, &called.pid);
    ShortPiece::front(&text, len)
}

/// The event's fields where it leaves, up to the state.
#[inline(always)]
fn leaving_of(called: &Called, task: Option<u32>) -> Piece
    requires comm { length (short_text_of called.now.comm) ≤ 15 }
    requires pid { length (short_text_of called.now.pid) ≤ 10 }
    ensures { piece_text result
        ≡ leaving_text (short_text_of called.now.comm) (short_text_of called.now.pid) task }
{
    let mut text = [0u8; 64];
    let len = put_leaving(&mut text, 0, &called.comm, &called.pid, task);
    Piece::front(text, len)
}

/// The event's fields where it comes.
#[inline(always)]
fn coming_of(called: &Called, task: Option<u32>) -> Piece
    requires comm { length (short_text_of called.now.comm) ≤ 15 }
    requires pid { length (short_text_of called.now.pid) ≤ 10 }
    ensures { piece_text result
        ≡ coming_text (short_text_of called.now.comm) (short_text_of called.now.pid) task }
{
    let mut text = [0u8; 64];
    let len = put_coming(&mut text, 0, &called.comm, &called.pid, task);
    Piece::front(text, len)
}

/// The texts of a task or of an idle CPU.
#[inline(always)]
fn make(names: &IndexMap<u32, String>, who: Who, cpu: u32, task: Option<u32>) -> Slot
    requires cpu { cpu < 512 }
    requires name { IfSome task (HasName names.now) }
    ensures who { result.who ≡ who }
    ensures texts { IsSlotReady (name_of_task names.now) cpu task result }
{
    let called = spell(names, cpu, task);
    Slot {
        who,
        head: head_of(&called),
        leaving: leaving_of(&called, task),
        coming: coming_of(&called, task),
    }
}

/// The places that each run has for itself, if there are few runs.
#[inline(always)]
fn places_each(runs: usize) -> usize
    ensures { result ≤ 512 }
{
    if runs <= 1 {
        return 512;
    }
    if runs <= 2 {
        return 256;
    }
    if runs <= 4 {
        return 128;
    }
    64
}

/// Where the texts of a task stand, if they stand anywhere.
#[inline(always)]
fn place_of_task(places: usize, runs: usize, run: usize, number: u32) -> usize
    requires many { fewest ≤ places }
    requires run { run < 8 }
    ensures { result < places }
{
    if places < WIDE {
        return IDLE + (number as usize + places_each(runs) * run) % FEW;
    }
    IDLE + (number as usize + 256 * run) % MANY
}

/// Where the texts of a task, or of the idle task of a CPU of the machine, stand.
#[inline(always)]
fn place_for(places: usize, runs: usize, run: usize, cpu: u32, task: Option<u32>) -> usize
    requires many { fewest ≤ places }
    requires run { run < 8 }
    ensures { result < places }
{
    match task {
        None => cpu as usize % IDLE,
        Some(number) => place_of_task(places, runs, run, number),
    }
}

#[inline(always)]
fn who_is(run: usize, cpu: u32, task: Option<u32>) -> Who
    requires { run < 8 }
    ensures { result ≡ who_of run cpu task }
{
    match task {
        None => Who::Idle(cpu),
        Some(number) => Who::Task(run as u8, number),
    }
}

/// Whether these are its texts.
#[inline(always)]
fn is_of(slot: &Slot, who: Who) -> bool
    ensures { IsTrue result → slot.now.who ≡ who }
{
    slot.who == who
}

/// Puts the texts of a task of this run, or of the idle task of a CPU of the machine, to a place.
#[cold]
#[inline(never)]
fn refill(
    slots: &mut [Slot],
    place: usize,
    runs: &[Run<'_>],
    run: usize,
    cpu: u32,
    task: Option<u32>,
)
    ghost names: { ℕ → ℕ → List ℕ }
    requires few { length runs.now ≤ 8 }
    requires place { place < length slots.old }
    requires run { run < length runs.now }
    requires cpu { cpu < 512 }
    requires name { (d : Run) → IfSome task (HasName (slice_index_or runs.now run d).names.now) }
    requires same { (d : Run) → IfSome task
        (λ n. name_of_task (slice_index_or runs.now run d).names.now n ≡ names run n) }
    requires right { All (IsSlot names) slots.old }
    ensures many { length slots.new ≡ length slots.old }
    ensures right { All (IsSlot names) slots.new }
    ensures texts { (d : Slot)
        → IsSlotReady (names run) cpu task (slice_index_or slots.new place d) }
{
    let who = who_is(run, cpu, task);
    slots[place] = make(runs[run].names, who, cpu, task);
}

/// Sees to it that the texts of a task of this run, or of the idle task of a CPU of the machine,
/// are kept, and gives their place. Names are those of whole runs, of which these may be slices.
#[inline(always)]
pub(crate) fn seat(
    slots: &mut [Slot],
    runs: &[Run<'_>],
    run: usize,
    cpu: u32,
    task: Option<u32>,
) -> usize
    ghost names: { ℕ → ℕ → List ℕ }
    requires few { length runs.now ≤ 8 }
    requires many { AreEnough slots.old }
    requires run { run < length runs.now }
    requires cpu { cpu < 512 }
    requires name { (d : Run) → IfSome task (HasName (slice_index_or runs.now run d).names.now) }
    requires same { (d : Run) → IfSome task
        (λ n. name_of_task (slice_index_or runs.now run d).names.now n ≡ names run n) }
    requires right { All (IsSlot names) slots.old }
    ensures inside { result < length slots.new }
    ensures many { length slots.new ≡ length slots.old }
    ensures right { All (IsSlot names) slots.new }
    ensures texts { (d : Slot)
        → IsSlotReady (names run) cpu task (slice_index_or slots.new result d) }
{
    let place = place_for(slots.len(), runs.len(), run, cpu, task);
    if !is_of(&slots[place], who_is(run, cpu, task)) {
        refill(slots, place, runs, run, cpu, task);
    }
    place
}
