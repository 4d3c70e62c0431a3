ghost use Rattle.std.specs.Prelude.{◌≡◌, ◌<◌, ◌≤◌, length, All, IfOk};
ghost use Rattle.limits.specs.Limits.{unit};
ghost use Rattle.bw_gate.specs.Word.{IsLimit};
ghost use Rattle.bw_gate.specs.Pieces.{cpus_of};

use bw_gate::{Blank, Gate, Limit, Regrade, Room, Take, Ticket, cap_of, used_of};
use bw_world::NoMemory;
use std::alloc::Global;
use std::process::Abort;
use std::sync::Wait;
use std::test::Fail;

mod threads;

// A gate of one domain of one CPU.
fn opened(alloc: Global, limit: u64, n: usize) -> Result<(Gate, Vec<Blank>), NoMemory>
    requires { IsLimit limit × (0 < n) × (n ≤ 4096) }
    ensures one { IfOk result (λ r. (length r.0.terms.cpus ≡ 1) × (cpus_of r.0 0 ≡ 1)) }
    ensures own { IfOk result (λ r. All (λ b. b.gate ≡ r.0) r.1.items) }
{
    Gate::open(alloc, &[Room { cpus: 1, limit }], n)
}

// The next blank of a gate.
fn next(rt: &impl Abort, gate: &Gate, blanks: &mut Vec<Blank>) -> Blank
    requires { All (λ b. b.gate ≡ gate.now) blanks.old.items }
    ensures blank { result.gate ≡ gate.now }
    ensures others { All (λ b. b.gate ≡ gate.now) blanks.new.items }
{
    let Some(blank) = blanks.pop() else {
        panic!(rt; "no blank is left")
    };
    blank
}

// A ticket that is taken at once.
fn ticket(rt: &impl Abort, gate: &Gate, blank: Blank, bw: u64) -> Ticket
    requires { (blank.gate ≡ gate.now) × (length gate.now.terms.cpus ≡ 1) × (bw ≤ unit) }
    ensures { result.gate ≡ gate.now }
{
    match gate.try_take(blank, 0, bw) {
        Take::Taken(ticket) => ticket,
        Take::Refused { blank: _, seen } => panic!(rt; "refused at {seen}"),
        Take::Raced {
            blank: _,
            expected: _,
            seen,
        } => panic!(rt; "raced at {seen}"),
    }
}

// A blank whose try is refused, with what was used of the word that was seen.
fn refused(rt: &impl Abort, gate: &Gate, blank: Blank, bw: u64) -> (Blank, u64)
    requires { (blank.gate ≡ gate.now) × (length gate.now.terms.cpus ≡ 1) × (bw ≤ unit) }
    ensures { result.0.gate ≡ gate.now }
{
    match gate.try_take(blank, 0, bw) {
        Take::Taken(ticket) => {
            let blank = gate.give(ticket);
            panic!(rt; "taken at {}", blank.last())
        }
        Take::Refused { blank, seen } => (blank, used_of(seen)),
        Take::Raced {
            blank: _,
            expected: _,
            seen,
        } => panic!(rt; "raced at {seen}"),
    }
}

// A ticket after one try to regrade it, whatever that answers.
fn tried(gate: &Gate, ticket: Ticket, bw: u64) -> Ticket
    requires { (ticket.gate ≡ gate.now) × (bw ≤ unit) }
    ensures { result.gate ≡ gate.now }
{
    match gate.try_regrade(ticket, bw) {
        Regrade::Changed(ticket) => ticket,
        Regrade::Refused { ticket, seen: _ } => ticket,
        Regrade::Raced {
            ticket,
            expected: _,
            seen: _,
        } => ticket,
    }
}

// A ticket after it was regraded or refused.
fn regraded(rt: &impl Wait, gate: &Gate, ticket: Ticket, bw: u64) -> Ticket
    requires { (ticket.gate ≡ gate.now) × (bw ≤ unit) }
    ensures { result.gate ≡ gate.now }
{
    match gate.regrade(rt, ticket, bw) {
        Regrade::Changed(ticket) => ticket,
        Regrade::Refused { ticket, seen: _ } => ticket,
        Regrade::Raced {
            ticket,
            expected: _,
            seen: _,
        } => ticket,
    }
}

// A ticket of a quarter goes to a half, and then to a whole CPU, for which its domain has no room.
#[test]
fn regrade_changes_and_is_refused(rt: HostRuntime) -> Result<(), Fail> {
    let (gate, mut blanks) = opened(rt.alloc(), 524288, 1)?;
    let mut tickets = Vec::with_capacity(rt.alloc(), 1)?;
    let quarter = ticket(&rt, &gate, next(&rt, &gate, &mut blanks), 262144);
    let half = tried(&gate, quarter, 524288);
    let first = (half.domain(), half.bw(), used_of(half.last()));
    let kept = regraded(&rt, &gate, half, 1048576);
    let second = (kept.bw(), used_of(kept.last()));
    let terms = (gate.pieces(), gate.cpus(0));
    tickets.push_reserved(kept);
    let words = gate.close(blanks, tickets);
    assert!(rt; first == (0, 524288, 262144) && second == (524288, 524288));
    assert!(rt; terms == (1, 1) && words.word[0] == 524288);
    Ok(())
}

// A blank after it set a limit or was refused, with whether it was set, and its last word's parts.
fn limited(rt: &impl Wait, gate: &Gate, blank: Blank, limit: u64) -> (Blank, (bool, u64, u64))
    requires { (blank.gate ≡ gate.now) × (length gate.now.terms.cpus ≡ 1) × IsLimit limit }
    ensures { result.0.gate ≡ gate.now }
{
    let (blank, set) = match gate.limit(rt, blank, 0, limit) {
        Limit::Set(blank) => (blank, true),
        Limit::Refused { blank, seen: _ } => (blank, false),
        Limit::Raced {
            blank,
            expected: _,
            seen: _,
        } => (blank, false),
    };
    let last = blank.last();
    (blank, (set, cap_of(last), used_of(last)))
}

// limit_calls: of half a CPU a quarter is used. An eighth is refused and a quarter is set, which
// leaves no room; after a whole CPU is set, there is.
#[test]
fn limit_calls(rt: HostRuntime) -> Result<(), Fail> {
    let (gate, mut blanks) = opened(rt.alloc(), 524288, 3)?;
    let mut home = Vec::with_capacity(rt.alloc(), 1)?;
    let mut tickets = Vec::with_capacity(rt.alloc(), 2)?;
    tickets.push_reserved(ticket(&rt, &gate, next(&rt, &gate, &mut blanks), 262144));
    let (blank, low) = limited(&rt, &gate, next(&rt, &gate, &mut blanks), 131072);
    let (blank, even) = limited(&rt, &gate, blank, 262144);
    let (other, full) = refused(&rt, &gate, next(&rt, &gate, &mut blanks), 262144);
    let (blank, high) = limited(&rt, &gate, blank, 1048576);
    let mut second = ticket(&rt, &gate, other, 262144);
    let word = gate.load(&mut second);
    tickets.push_reserved(second);
    home.push_reserved(blank);
    let words = gate.close(home, tickets);
    assert!(rt; low == (false, 524288, 262144) && even == (true, 262144, 262144));
    assert!(rt; full == 262144 && high == (true, 1048576, 262144));
    assert!(rt; word == 4503599627894784 && words.word[0] == 524288 && words.cap[0] == 1048576);
    Ok(())
}

// Of an empty word with a cap of a quarter of a CPU, half a CPU is refused with the whole word.
#[test]
fn refused_with_the_whole_word(rt: HostRuntime) -> Result<(), Fail> {
    let (gate, mut blanks) = opened(rt.alloc(), 262144, 1)?;
    let blank = next(&rt, &gate, &mut blanks);
    let (blank, used) = refused(&rt, &gate, blank, 524288);
    assert!(rt; used == 0 && blank.last() == 1125899906842624);
    Ok(())
}
