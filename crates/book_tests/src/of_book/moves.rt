// A task moves between two books of one gate, step by step.
ghost use Rattle.std.specs.Prelude.{◌≡◌, ◌<◌, All, IfOk, length};
ghost use Rattle.bw_gate.specs.Pieces.{cpus_of};
ghost use Rattle.call_book.specs.Book.{IsPassOf};

use super::{Desk, book_of, end, next_blank, replies};
use bw_gate::{Blank, Gate, Room, Take, Ticket, used_of};
use call_book::{Closed, Domain, Move, Pass, Prepared, move_task};
use domain_run::NoMemory;
use std::alloc::Global;
use std::process::Abort;
use std::sync::Wait;
use std::test::Fail;
use std::thread::Threads;

// The book that tasks go from, and the one of the gate's second domain, with a pass of each.
struct Pair {
    desk: Desk,
    to: Domain,
    into: Pass,
    ghost own: { to.gate ≡ desk.gate },
    ghost second: { to.domain ≡ 1 },
    ghost two: { 1 < length desk.gate.terms.cpus },
    ghost pass: { IsPassOf to into },
    ghost only: { to.clients ≡ 1 },
}

// A gate of two domains of one CPU each.
fn two_domains(alloc: Global) -> Result<(Gate, Vec<Blank>), NoMemory>
    ensures two { IfOk result (λ r. length r.0.terms.cpus ≡ 2) }
    ensures cpus { IfOk result (λ r. (cpus_of r.0 0 ≡ 1) × (cpus_of r.0 1 ≡ 1)) }
    ensures own { IfOk result (λ r. All (λ b. b.gate ≡ r.0) r.1.items) }
{
    let room = Room {
        cpus: 1,
        limit: 1048576,
    };
    Gate::open(alloc, &[room, room], 8)
}

fn opened_two(rt: &impl Abort, alloc: Global) -> Result<Pair, NoMemory> {
    let (gate, blanks) = two_domains(alloc)?;
    let (domain, pass) = book_of(rt, alloc, &gate, 0, 1048576, 9)?;
    let Ok((to, into)) = book_of(rt, alloc, &gate, 1, 1048576, 9) else {
        panic!(rt; "no memory")
    };
    let desk = Desk {
        gate,
        domain,
        pass,
        blanks,
    };
    Ok(Pair { desk, to, into })
}

// What is used of a domain's word, which a ticket of no bandwidth finds.
fn used_at(rt: &impl Abort, desk: &mut Desk, place: usize) -> u64
    requires { place < length desk.old.gate.terms.cpus }
    ensures { desk.new.gate ≡ desk.old.gate }
{
    let blank = next_blank(rt, desk);
    let blank = match desk.gate.try_take(blank, place, 0) {
        Take::Taken(ticket) => desk.gate.give(ticket),
        Take::Refused { blank, seen: _ } => blank,
        Take::Raced {
            blank,
            expected: _,
            seen: _,
        } => blank,
    };
    let word = blank.last();
    let _ = desk.blanks.push(blank);
    used_of(word)
}

// That of both words.
fn used(rt: &impl Abort, pair: &mut Pair) -> (u64, u64)
    ensures { pair.new.desk.gate ≡ pair.old.desk.gate }
{
    let here = used_at(rt, &mut pair.desk, 0);
    let there = used_at(rt, &mut pair.desk, 1);
    (here, there)
}

// The ticket of the second domain with which a task comes.
fn taken(rt: &impl Abort, desk: &mut Desk, prepared: &Prepared) -> Ticket
    requires { 1 < length desk.old.gate.terms.cpus }
    ensures own { (result.gate ≡ desk.old.gate) × (result.domain ≡ 1) }
    ensures bw { result.bw ≡ prepared.now.params.bw }
    ensures gate { desk.new.gate ≡ desk.old.gate }
{
    let blank = next_blank(rt, desk);
    match desk.gate.try_take(blank, 1, prepared.bw()) {
        Take::Taken(ticket) => ticket,
        Take::Refused { blank: _, seen } => panic!(rt; "refused at {seen}"),
        Take::Raced {
            blank: _,
            expected: _,
            seen: _,
        } => panic!(rt; "raced"),
    }
}

// Gives a ticket back.
fn give_back(desk: &mut Desk, ticket: Ticket)
    requires { ticket.gate ≡ desk.old.gate }
    ensures { desk.new.gate ≡ desk.old.gate }
{
    let blank = desk.gate.give(ticket);
    let _ = desk.blanks.push(blank);
}

// How a refused move went, with its ticket; what was prepared is let go in this one place.
fn stayed(how: &'static str, ticket: Ticket, prepared: Prepared) -> (&'static str, Ticket)
    ensures { result.1 ≡ ticket }
{
    drop(prepared);
    (how, ticket)
}

// Moves the task, and tells how it went, with the ticket that comes out.
fn moved(pair: &mut Pair, prepared: Prepared, ticket: Ticket) -> (&'static str, Ticket)
    requires ticket { (ticket.gate ≡ pair.old.desk.gate) × (ticket.domain ≡ 1) }
    requires bw { ticket.bw ≡ prepared.params.bw }
    requires soon { prepared.delay ≡ 0 }
    ensures gate { pair.new.desk.gate ≡ pair.old.desk.gate }
    ensures own { result.1.gate ≡ pair.old.desk.gate }
{
    let Pair { desk, to, into } = pair;
    match move_task(&mut desk.domain, &mut desk.pass, to, into, prepared, ticket) {
        Move::Moved { ticket } => ("moved", ticket),
        Move::Full { ticket, prepared } => stayed("full", ticket, prepared),
        Move::NotListed { ticket, prepared } => stayed("not listed", ticket, prepared),
        Move::Stale {
            now: _,
            ticket,
            prepared,
        } => stayed("stale", ticket, prepared),
        Move::Twice { ticket, prepared } => stayed("twice", ticket, prepared),
        Move::Busy {
            seen: _,
            ticket,
            prepared,
        } => stayed("busy", ticket, prepared),
    }
}

// Gives these tickets back.
fn give_all(gate: &Gate, mut tickets: Vec<Ticket>)
    requires { All (λ t. t.gate ≡ gate.now) tickets.items }
{
    while let Some(ticket) = tickets.pop() {
        gate.give(ticket);
    }
    tickets.destroy_empty();
}

// Closes both books and the gate: the sum of bandwidths, what is used of the word and how many
// calls there are, of each.
fn ends(rt: &impl Abort, alloc: Global, mut pair: Pair) -> [(u64, u64, usize); 2] {
    let there = used_at(rt, &mut pair.desk, 1);
    let Pair { desk, to, into } = pair;
    let mut passes = Vec::new(alloc);
    let _ = passes.push(into);
    let Closed {
        state,
        entries,
        tickets,
        blanks: _,
    } = to.close(passes);
    give_all(&desk.gate, tickets);
    let ends = (state.sum(), there, entries.len());
    drop(state);
    [end(alloc, desk), ends]
}

const TASK: &[u8] = b"dlcalls 1\ndomain 1 1048576\nadmit 1 1 a 4 8 8 - 0 -1:1{r2,s6}\n";

// How a move of the task goes before which these calls were made, but behind what was prepared; and
// what is used of both words with the new ticket, and behind the move.
type Step = (&'static str, (u64, u64), (u64, u64));

fn after<R: Abort + Threads + Wait>(
    rt: &R,
    alloc: Global,
    pair: &mut Pair,
    calls: &[u8],
) -> Result<Step, Fail> {
    let prepared = pair.desk.domain.prepare_move(alloc, 1)?;
    let made = replies(rt, alloc, &mut pair.desk, calls);
    let ticket = taken(rt, &mut pair.desk, &prepared);
    let both = used(rt, pair);
    let (answer, ticket) = moved(pair, prepared, ticket);
    let still = used(rt, pair);
    give_back(&mut pair.desk, ticket);
    made?;
    Ok((answer, both, still))
}

const CHANGE: &[u8] = b"dlcalls 1\ndomain 1 1048576\nregrade 1 1 2 8 8 -\n";

const NOTHING: &[u8] = b"dlcalls 1\ndomain 1 1048576\nadvance 1 1\n";

const END: &[u8] = b"dlcalls 1\ndomain 1 1048576\nleave 1 1\n";

// How a move goes behind each of these.
fn answers<R: Abort + Threads + Wait>(
    rt: &R,
    alloc: Global,
    pair: &mut Pair,
    calls: &[&[u8]],
) -> Result<Vec<Step>, Fail> {
    replies(rt, alloc, &mut pair.desk, TASK)?;
    let mut answers = Vec::new(alloc);
    for calls in calls {
        answers.push(after(rt, alloc, pair, calls)?)?;
    }
    Ok(answers)
}

// move_by_a_client, step by step: the task's bandwidth stands in one word or in both, never in
// none. Prepared and then changed it stays, and so does its bandwidth; prepared again, it goes.
#[test]
fn move_of_a_changed_task(rt: HostRuntime) -> Result<(), Fail> {
    let mut pair = opened_two(&rt, rt.alloc())?;
    let made = answers(&rt, rt.alloc(), &mut pair, &[CHANGE, NOTHING]);
    let ends = ends(&rt, rt.alloc(), pair);
    let (stale, gone) = ((262144, 524288), (262144, 262144));
    let wanted = [("stale", stale, stale), ("moved", gone, gone)];
    assert!(rt; ends == [(0, 0, 4), (262144, 262144, 1)]);
    assert!(rt; made?.as_slice() == wanted.as_slice());
    Ok(())
}

// As it was prepared it goes: its bandwidth stands in both words, and then in the new one alone.
#[test]
fn move_step_by_step(rt: HostRuntime) -> Result<(), Fail> {
    let mut pair = opened_two(&rt, rt.alloc())?;
    let made = answers(&rt, rt.alloc(), &mut pair, &[NOTHING]);
    let ends = ends(&rt, rt.alloc(), pair);
    let both = (524288, 524288);
    assert!(rt; ends == [(0, 0, 3), (524288, 524288, 1)]);
    assert!(rt; made?.as_slice() == [("moved", both, both)].as_slice());
    Ok(())
}

// One that has ended since stays.
#[test]
fn move_of_an_ended_task(rt: HostRuntime) -> Result<(), Fail> {
    let mut pair = opened_two(&rt, rt.alloc())?;
    let made = answers(&rt, rt.alloc(), &mut pair, &[END]);
    let ends = ends(&rt, rt.alloc(), pair);
    let both = (524288, 524288);
    assert!(rt; ends == [(524288, 524288, 2), (0, 0, 0)]);
    assert!(rt; made?.as_slice() == [("not listed", both, both)].as_slice());
    Ok(())
}
