// Clients in threads of their own.
ghost use Rattle.std.specs.Prelude.{◌≡◌, ◌<◌, ◌≤◌, ◌+◌, [], length, vec_capacity, vec_len, All};
ghost use Rattle.bw_gate.specs.Word.{IsLimit};
ghost use Rattle.bw_gate.specs.Pieces.{cpus_of};
ghost use Rattle.book_tests.specs.Quarters.{IsQuarter, IsQuarterTaken};

use super::{next, opened, regraded};
use bw_gate::{Blank, Gate, Limit, Take, Ticket, Words, cap_of, used_of};
use std::process::Abort;
use std::sync::Wait;
use std::sync::atomic::{AtomicUsize, Ordering};
use std::test::Fail;
use std::thread::{Threads, join, map_vec, yield_now};

const QUARTER: u64 = 262144;

// Waits until all of so many clients are here, so that they run at once, and tells how many came
// before. It gives up after many turns: where a thread could not be started, the clients come one
// after another.
fn arrive(here: &AtomicUsize, all: usize) -> usize {
    let before = here.fetch_add(1, Ordering::SeqCst);
    for _ in 0..1000000 {
        if here.load(Ordering::SeqCst) >= all {
            return before;
        }
        yield_now();
    }
    before
}

// One of eight clients, which takes a quarter of a CPU.
fn one<R: Wait>(rt: &R, gate: &Gate, here: &AtomicUsize, blank: Blank) -> Take
    requires { (blank.gate ≡ gate.now) × (0 < length gate.now.terms.cpus) }
    ensures { IsQuarterTaken gate.now result }
{
    arrive(here, 8);
    match gate.take(rt, blank, 0, QUARTER) {
        Take::Taken(ticket) => Take::Taken(ticket),
        Take::Refused { blank, seen } => Take::Refused { blank, seen },
        Take::Raced {
            blank: _,
            expected: _,
            seen: _,
        } => unreachable!(),
    }
}

// Two clients, each in a thread of its own.
fn two<R: Threads + Wait + Sync>(
    rt: &R,
    gate: &Gate,
    here: &AtomicUsize,
    a: Blank,
    b: Blank,
) -> (Take, Take)
    requires { (a.gate ≡ gate.now) × (b.gate ≡ gate.now) × (0 < length gate.now.terms.cpus) }
    ensures { IsQuarterTaken gate.now result.0 × IsQuarterTaken gate.now result.1 }
{
    join(
        rt,
        move || -> Take
            requires { (a.gate ≡ gate.now) × (0 < length gate.now.terms.cpus) }
            ensures { IsQuarterTaken gate.entry.now result }
        { one(rt, gate, here, a) },
        move || -> Take
            requires { (b.gate ≡ gate.now) × (0 < length gate.now.terms.cpus) }
            ensures { IsQuarterTaken gate.entry.now result }
        { one(rt, gate, here, b) },
    )
}

// Four clients.
fn four<R: Threads + Wait + Sync>(
    rt: &R,
    gate: &Gate,
    here: &AtomicUsize,
    a: Blank,
    b: Blank,
    c: Blank,
    d: Blank,
) -> ((Take, Take), (Take, Take))
    requires some { 0 < length gate.now.terms.cpus }
    requires own { (a.gate ≡ gate.now) × (b.gate ≡ gate.now) × (c.gate ≡ gate.now)
        × (d.gate ≡ gate.now) }
    ensures first { IsQuarterTaken gate.now result.0.0 × IsQuarterTaken gate.now result.0.1 }
    ensures second { IsQuarterTaken gate.now result.1.0 × IsQuarterTaken gate.now result.1.1 }
{
    join(
        rt,
        move || -> (Take, Take)
            requires { (a.gate ≡ gate.now) × (b.gate ≡ gate.now)
                × (0 < length gate.now.terms.cpus) }
            ensures { IsQuarterTaken gate.entry.now result.0
                × IsQuarterTaken gate.entry.now result.1 }
        { two(rt, gate, here, a, b) },
        move || -> (Take, Take)
            requires { (c.gate ≡ gate.now) × (d.gate ≡ gate.now)
                × (0 < length gate.now.terms.cpus) }
            ensures { IsQuarterTaken gate.entry.now result.0
                × IsQuarterTaken gate.entry.now result.1 }
        { two(rt, gate, here, c, d) },
    )
}

// Eight clients at once: what each of them has at its end, in one of two lists that have room for
// eight.
fn eight<R: Threads + Wait + Sync + Abort>(
    rt: &R,
    gate: &Gate,
    mut from: Vec<Blank>,
    blanks: &mut Vec<Blank>,
    tickets: &mut Vec<Ticket>,
)
    requires some { 0 < length gate.now.terms.cpus }
    requires from { All (λ b. b.gate ≡ gate.now) from.items }
    requires blanks { (blanks.old.items ≡ []) × (vec_len blanks.old ≡ 0)
        × (8 ≤ vec_capacity blanks.old) }
    requires tickets { (tickets.old.items ≡ []) × (vec_len tickets.old ≡ 0)
        × (8 ≤ vec_capacity tickets.old) }
    ensures blanks { All (λ b. b.gate ≡ gate.now) blanks.new.items }
    ensures tickets { All (IsQuarter gate.now) tickets.new.items }
{
    let arrived = AtomicUsize::new(0);
    let here = &arrived;
    let a = next(rt, gate, &mut from);
    let b = next(rt, gate, &mut from);
    let c = next(rt, gate, &mut from);
    let d = next(rt, gate, &mut from);
    let e = next(rt, gate, &mut from);
    let f = next(rt, gate, &mut from);
    let g = next(rt, gate, &mut from);
    let h = next(rt, gate, &mut from);
    let (west, east) = join(
        rt,
        move || -> ((Take, Take), (Take, Take))
            requires { (a.gate ≡ gate.now) × (b.gate ≡ gate.now) × (c.gate ≡ gate.now)
                × (d.gate ≡ gate.now) × (0 < length gate.now.terms.cpus) }
            ensures first { IsQuarterTaken gate.entry.now result.0.0
                × IsQuarterTaken gate.entry.now result.0.1 }
            ensures second { IsQuarterTaken gate.entry.now result.1.0
                × IsQuarterTaken gate.entry.now result.1.1 }
        { four(rt, gate, here, a, b, c, d) },
        move || -> ((Take, Take), (Take, Take))
            requires { (e.gate ≡ gate.now) × (f.gate ≡ gate.now) × (g.gate ≡ gate.now)
                × (h.gate ≡ gate.now) × (0 < length gate.now.terms.cpus) }
            ensures first { IsQuarterTaken gate.entry.now result.0.0
                × IsQuarterTaken gate.entry.now result.0.1 }
            ensures second { IsQuarterTaken gate.entry.now result.1.0
                × IsQuarterTaken gate.entry.now result.1.1 }
        { four(rt, gate, here, e, f, g, h) },
    );
    sort_four(gate, west, blanks, tickets);
    sort_four(gate, east, blanks, tickets);
}

// Puts what four clients have at their end into one of two lists that have room for four.
fn sort_four(
    gate: &Gate,
    answers: ((Take, Take), (Take, Take)),
    blanks: &mut Vec<Blank>,
    tickets: &mut Vec<Ticket>,
)
    requires first { IsQuarterTaken gate.now answers.0.0 × IsQuarterTaken gate.now answers.0.1 }
    requires second { IsQuarterTaken gate.now answers.1.0 × IsQuarterTaken gate.now answers.1.1 }
    requires room { (vec_len blanks.old + 4 ≤ vec_capacity blanks.old)
        × (vec_len tickets.old + 4 ≤ vec_capacity tickets.old) }
    requires blanks { All (λ b. b.gate ≡ gate.now) blanks.old.items }
    requires tickets { All (IsQuarter gate.now) tickets.old.items }
    ensures room { (vec_capacity blanks.new ≡ vec_capacity blanks.old)
        × (vec_capacity tickets.new ≡ vec_capacity tickets.old) }
    ensures len { (vec_len blanks.new ≤ vec_len blanks.old + 4)
        × (vec_len tickets.new ≤ vec_len tickets.old + 4) }
    ensures blanks { All (λ b. b.gate ≡ gate.now) blanks.new.items }
    ensures tickets { All (IsQuarter gate.now) tickets.new.items }
{
    let ((a, b), (c, d)) = answers;
    sort(gate, a, blanks, tickets);
    sort(gate, b, blanks, tickets);
    sort(gate, c, blanks, tickets);
    sort(gate, d, blanks, tickets);
}

// Puts what a client has at its end into one of two lists that have room.
fn sort(gate: &Gate, answer: Take, blanks: &mut Vec<Blank>, tickets: &mut Vec<Ticket>)
    requires answer { IsQuarterTaken gate.now answer }
    requires room { (vec_len blanks.old < vec_capacity blanks.old)
        × (vec_len tickets.old < vec_capacity tickets.old) }
    requires blanks { All (λ b. b.gate ≡ gate.now) blanks.old.items }
    requires tickets { All (IsQuarter gate.now) tickets.old.items }
    ensures room { (vec_capacity blanks.new ≡ vec_capacity blanks.old)
        × (vec_capacity tickets.new ≡ vec_capacity tickets.old) }
    ensures len { (vec_len blanks.new ≤ vec_len blanks.old + 1)
        × (vec_len tickets.new ≤ vec_len tickets.old + 1) }
    ensures blanks { All (λ b. b.gate ≡ gate.now) blanks.new.items }
    ensures tickets { All (IsQuarter gate.now) tickets.new.items }
{
    match answer {
        Take::Taken(ticket) => tickets.push_reserved(ticket),
        Take::Refused { blank, seen: _ } => blanks.push_reserved(blank),
        Take::Raced {
            blank,
            expected: _,
            seen: _,
        } => blanks.push_reserved(blank),
    }
}

// Closes a gate of one CPU. Whatever the clients did, four of their quarters at most are taken.
fn closed(gate: Gate, blanks: Vec<Blank>, tickets: Vec<Ticket>) -> (usize, Words)
    requires cap { (length gate.terms.cpus ≡ 1) × (cpus_of gate 0 ≡ 1) }
    requires blanks { All (λ b. b.gate ≡ gate) blanks.items }
    requires tickets { All (IsQuarter gate) tickets.items }
    ensures count { result.0 ≡ length tickets.items }
    ensures four { result.0 ≤ 4 }
{
    let count = tickets.len();
    (count, gate.close(blanks, tickets))
}

// What the clients of a storm count: those that came, those that are done, and the words of which
// more was used than their cap.
#[derive(Drop)]
struct Storm {
    here: AtomicUsize,
    done: AtomicUsize,
    over: AtomicUsize,
}

// A round of a client: it takes 1 / 64 of a CPU, loads, regrades to twice as much, and gives back.
fn round(rt: &impl Wait, gate: &Gate, storm: &Storm, blank: Blank) -> Blank
    requires { (blank.gate ≡ gate.now) × (0 < length gate.now.terms.cpus) }
    ensures { result.gate ≡ gate.now }
{
    match gate.take(rt, blank, 0, 16384) {
        Take::Taken(mut ticket) => {
            let word = gate.load(&mut ticket);
            if used_of(word) > cap_of(word) {
                storm.over.fetch_add(1, Ordering::SeqCst);
            }
            gate.give(regraded(rt, gate, ticket, 32768))
        }
        Take::Refused { blank, seen: _ } => blank,
        Take::Raced {
            blank,
            expected: _,
            seen: _,
        } => blank,
    }
}

// A blank after it set the limit, or more was used than that.
fn shift(rt: &impl Wait, gate: &Gate, blank: Blank, limit: u64) -> Blank
    requires { (blank.gate ≡ gate.now) × (0 < length gate.now.terms.cpus) × IsLimit limit }
    ensures { result.gate ≡ gate.now }
{
    match gate.limit(rt, blank, 0, limit) {
        Limit::Set(blank) => blank,
        Limit::Refused { blank, seen: _ } => blank,
        Limit::Raced {
            blank,
            expected: _,
            seen: _,
        } => blank,
    }
}

// The client that changes the limit until 64 others are done: to an eighth of a CPU, a half and a
// whole one.
fn shifts(rt: &impl Wait, gate: &Gate, storm: &Storm, mut blank: Blank) -> Blank
    requires { (blank.gate ≡ gate.now) × (0 < length gate.now.terms.cpus) }
    ensures { result.gate ≡ gate.now }
{
    for _ in 0..100000 {
        if storm.done.load(Ordering::SeqCst) >= 64 {
            return blank;
        }
        blank = shift(rt, gate, blank, 131072);
        blank = shift(rt, gate, blank, 524288);
        blank = shift(rt, gate, blank, 1048576);
    }
    blank
}

// One of 64 clients, with a thousand rounds.
fn rounds(rt: &impl Wait, gate: &Gate, storm: &Storm, mut blank: Blank) -> Blank
    requires { (blank.gate ≡ gate.now) × (0 < length gate.now.terms.cpus) }
    ensures { result.gate ≡ gate.now }
{
    for _ in 0..1000 {
        blank = round(rt, gate, storm, blank);
    }
    storm.done.fetch_add(1, Ordering::SeqCst);
    blank
}

// One of 65 clients: the first to come changes the limit, and the others take and give.
fn client(rt: &impl Wait, gate: &Gate, storm: &Storm, blank: Blank) -> Blank
    requires { (blank.gate ≡ gate.now) × (0 < length gate.now.terms.cpus) }
    ensures { result.gate ≡ gate.now }
{
    match arrive(&storm.here, 65) {
        0 => shifts(rt, gate, storm, blank),
        _ => rounds(rt, gate, storm, blank),
    }
}

// How many of the blanks have last seen so much used of their word.
fn those_at(blanks: &[Blank], used: u64) -> usize {
    blanks.iter().filter(|b| used_of(b.last()) == used).count()
}

// eight_threads_four_taken: one CPU has room for four quarters, whichever clients take them. The
// other four have seen it full.
#[test]
fn eight_threads_four_taken(rt: HostRuntime) -> Result<(), Fail> {
    let (gate, blanks) = opened(rt.alloc(), 1048576, 8)?;
    let mut home = Vec::with_capacity(rt.alloc(), 8)?;
    let mut tickets = Vec::with_capacity(rt.alloc(), 8)?;
    eight(&rt, &gate, blanks, &mut home, &mut tickets);
    let seen_full = those_at(&home, 1048576);
    let (count, words) = closed(gate, home, tickets);
    assert!(rt; count == 4 && seen_full == 4);
    assert!(rt; words.word[0] == 1048576);
    Ok(())
}

// 64 clients at once take, load, regrade and give on one word, while one more changes its limit all
// the time. They leave nothing used.
#[test]
fn sixty_four_threads_leave_nothing(rt: HostRuntime) -> Result<(), Fail> {
    let (gate, blanks) = opened(rt.alloc(), 1048576, 65)?;
    let storm = Storm {
        here: AtomicUsize::new(0),
        done: AtomicUsize::new(0),
        over: AtomicUsize::new(0),
    };
    let (shared, counts, handle) = (&gate, &storm, &rt);
    let back = map_vec(
        &rt,
        blanks,
        &|blank: Blank| -> Blank
            requires { (blank.gate ≡ shared.now) × (0 < length shared.now.terms.cpus) }
            ensures { result.gate ≡ shared.entry.now }
        { client(handle, shared, counts, blank) },
    )?;
    let words = gate.close(back, Vec::new(rt.alloc()));
    assert!(rt; words.word[0] == 0 && storm.over.load(Ordering::SeqCst) == 0);
    Ok(())
}
