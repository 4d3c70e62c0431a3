ghost use Rattle.std.specs.Prelude.{◌≡◌, ◌<◌, ◌≤◌, IfOk, All, length};
ghost use Rattle.bw_gate.specs.Pieces.{cpus_of};
ghost use Rattle.call_book.specs.Book.{IsPassOf};
ghost use Rattle.calls_text.specs.Limits.{IsCall, IsEntry};

use bw_gate::{Blank, Gate, Room, Take, Ticket, used_of};
use call_book::{
    Admit, Closed, Domain, Entry, Limit, Pass, Prepared, Section, prepare, read_calls,
};
use domain_run::{Call, NoMemory, Reply, State};
use std::alloc::Global;
use std::process::Abort;
use std::sync::Wait;
use std::test::Fail;
use std::thread::Threads;

mod memory;
mod moves;

// A gate of one domain of one CPU, its book with one client, and the client's blanks.
struct Desk {
    gate: Gate,
    domain: Domain,
    pass: Pass,
    blanks: Vec<Blank>,
    ghost own: { domain.gate ≡ gate },
    ghost first: { domain.domain ≡ 0 },
    ghost one: { 0 < length gate.terms.cpus },
    ghost pass_of: { IsPassOf domain pass },
    ghost only: { domain.clients ≡ 1 },
    ghost blanks_own: { All (λ b. b.gate ≡ gate) blanks.items },
}

// The book of one of a gate's domains of one CPU, with the pass of its one client.
fn book_of(
    rt: &impl Abort,
    alloc: Global,
    gate: &Gate,
    place: usize,
    limit: u64,
    history: usize,
) -> Result<(Domain, Pass), NoMemory>
    requires cpus { cpus_of gate.now place ≡ 1 }
    requires limit { (10485 ≤ limit) × (limit ≤ 1048576) }
    requires history { (0 < history) × (history ≤ 65536) }
    ensures gate { IfOk result (λ r. r.0.gate ≡ gate.now) }
    ensures place { IfOk result (λ r. r.0.domain ≡ place) }
    ensures only { IfOk result (λ r. r.0.clients ≡ 1) }
    ensures pass { IfOk result (λ r. IsPassOf r.0 r.1) }
{
    let (domain, mut passes) = Domain::open(alloc, gate, place, 1, limit, 1, history)?;
    let Some(pass) = passes.pop() else {
        panic!(rt; "no pass")
    };
    Ok((domain, pass))
}

// A gate of one domain of one CPU, with eight pieces, and its book.
fn opened(rt: &impl Abort, alloc: Global, limit: u64, history: usize) -> Result<Desk, NoMemory>
    requires limit { (10485 ≤ limit) × (limit ≤ 1048576) }
    requires history { (0 < history) × (history ≤ 65536) }
{
    let Ok((gate, blanks)) = Gate::open(alloc, &[Room { cpus: 1, limit }], 8) else {
        return Err(NoMemory);
    };
    let (domain, pass) = book_of(rt, alloc, &gate, 0, limit, history)?;
    Ok(Desk {
        gate,
        domain,
        pass,
        blanks,
    })
}

// The calls that a text of one section spells.
fn calls_of(rt: &impl Abort, alloc: Global, text: &[u8]) -> Result<Vec<Entry>, Fail>
    ensures { IfOk result (λ v. All IsEntry v.items) }
{
    let mut sections = read_calls(alloc, text)?;
    let Some(section) = sections.pop() else {
        panic!(rt; "no section")
    };
    let Section {
        cpus: _,
        limit: _,
        entries,
    } = section;
    Ok(entries)
}

fn next_blank(rt: &impl Abort, desk: &mut Desk) -> Blank
    ensures blank { result.gate ≡ desk.old.gate }
    ensures gate { desk.new.gate ≡ desk.old.gate }
{
    if let Some(blank) = desk.domain.spare() {
        return blank;
    }
    let Some(blank) = desk.blanks.pop() else {
        panic!(rt; "no blank")
    };
    blank
}

// Takes the bandwidth at the word and admits the task.
fn admit(rt: &impl Abort, desk: &mut Desk, prepared: Prepared) -> Reply
    ensures { desk.new.gate ≡ desk.old.gate }
{
    let blank = next_blank(rt, desk);
    let ticket = match desk.gate.try_take(blank, 0, prepared.bw()) {
        Take::Taken(ticket) => ticket,
        Take::Refused { blank: _, seen } => {
            drop(prepared);
            return Reply::Busy {
                seen: used_of(seen),
            };
        }
        Take::Raced {
            blank: _,
            expected: _,
            seen: _,
        } => panic!(rt; "raced"),
    };
    // What was prepared is let go of by one call: its parts would be written out on each way.
    let (ticket, reply) = match desk.domain.admit(&mut desk.pass, prepared, ticket) {
        Admit::Admitted { blank: _ } => return Reply::Admitted,
        Admit::Busy { ticket, seen } => (ticket, Reply::Busy { seen }),
        Admit::Full { ticket, prepared } => {
            drop(prepared);
            (ticket, Reply::Full)
        }
        Admit::Twice { ticket, prepared } => {
            drop(prepared);
            (ticket, Reply::Twice)
        }
    };
    desk.gate.give(ticket);
    reply
}

// Changes the limit by a blank, which the client has again then.
fn set_limit(rt: &(impl Abort + Wait), desk: &mut Desk, limit: u64) -> Reply
    requires { (10485 ≤ limit) × (limit ≤ 1048576) }
    ensures { desk.new.gate ≡ desk.old.gate }
{
    let blank = next_blank(rt, desk);
    let (blank, reply) = match desk
        .domain
        .limit(rt, &mut desk.pass, &desk.gate, blank, limit)
    {
        Limit::Set { blank } => (blank, Reply::Set),
        Limit::Busy { blank, seen } => (blank, Reply::Busy { seen }),
        Limit::Full { blank } => (blank, Reply::Full),
    };
    let _ = desk.blanks.push(blank);
    reply
}

// Makes a call with word and book.
fn make<R: Abort + Threads + Wait>(
    rt: &R,
    alloc: Global,
    desk: &mut Desk,
    call: &Call,
) -> Result<Reply, Fail>
    requires { IsCall call.now }
    ensures { desk.new.gate ≡ desk.old.gate }
{
    match call {
        Call::Admit {
            number,
            name,
            params,
            delay,
            script,
        } => {
            let prepared = prepare(alloc, *number, name, *params, *delay, script)?;
            Ok(admit(rt, desk, prepared))
        }
        Call::Regrade {
            number,
            params,
            word: _,
        } => Ok(
            desk.domain
                .regrade(rt, &mut desk.pass, &desk.gate, *number, *params)
                .unwrap_or(Reply::Full),
        ),
        Call::Leave { number } => Ok(
            desk.domain
                .leave(&mut desk.pass, *number)
                .unwrap_or(Reply::Full),
        ),
        Call::Advance { ticks } => {
            Ok(desk.domain.advance(rt, &mut desk.pass, &desk.gate, *ticks)?)
        }
        Call::Wake { .. } | Call::Limit { .. } | Call::Depart { .. } | Call::Arrive { .. } => {
            panic!(rt; "no such call is made here")
        }
    }
}

// The replies to the calls of a text, one after another.
fn replies<R: Abort + Threads + Wait>(
    rt: &R,
    alloc: Global,
    desk: &mut Desk,
    text: &[u8],
) -> Result<Vec<Reply>, Fail>
    ensures { desk.new.gate ≡ desk.old.gate }
{
    let entries = calls_of(rt, alloc, text)?;
    let mut replies = Vec::new(alloc);
    for entry in &entries {
        replies.push(make(rt, alloc, desk, &entry.call)?)?;
    }
    Ok(replies)
}

// Closes book and gate: the state, what is used of the word, and the calls that were entered.
fn closed(alloc: Global, desk: Desk) -> (State, u64, Vec<Entry>) {
    let Desk {
        gate,
        domain,
        pass,
        blanks,
    } = desk;
    let mut passes = Vec::new(alloc);
    let _ = passes.push(pass);
    let Closed {
        state,
        entries,
        tickets,
        blanks: _,
    } = domain.close(passes);
    let words = gate.close(blanks, tickets);
    (state, words.word[0], entries)
}

// The same with the sum of bandwidths in place of the state.
fn end(alloc: Global, desk: Desk) -> (u64, u64, usize) {
    let (state, word, calls) = closed(alloc, desk);
    let ends = (state.sum(), word, calls.len());
    drop(state);
    ends
}

// The ticket of another client, which takes a quarter of a CPU at the word and not in the book.
fn rival(rt: &impl Abort, desk: &mut Desk) -> Ticket
    ensures ticket { result.gate ≡ desk.old.gate }
    ensures gate { desk.new.gate ≡ desk.old.gate }
{
    let blank = next_blank(rt, desk);
    match desk.gate.try_take(blank, 0, 262144) {
        Take::Taken(ticket) => ticket,
        Take::Refused { blank: _, seen } => panic!(rt; "refused at {seen}"),
        Take::Raced {
            blank: _,
            expected: _,
            seen: _,
        } => panic!(rt; "raced"),
    }
}

// refused_by_the_word and limit_refused_by_the_word: the domain's own test passes and the word's
// does not, since another client has the rest of it.
#[test]
fn refused_by_the_word(rt: HostRuntime) -> Result<(), Fail> {
    let mut desk = opened(&rt, rt.alloc(), 524288, 9)?;
    let other = rival(&rt, &mut desk);
    let limit = set_limit(&rt, &mut desk, 131072);
    let admission =
        b"dlcalls 1\ndomain 1 524288\nadmit 1 1 a 2 8 8 - 0 1:1{r1}\nregrade 1 1 4 8 8 -\n";
    let got = replies(&rt, rt.alloc(), &mut desk, admission);
    desk.gate.give(other);
    let (state, word, entries) = closed(rt.alloc(), desk);
    let ends = (state.limit(), state.sum(), word, entries.len());
    drop(state);
    assert!(rt; limit == Reply::Busy { seen: 262144 });
    let busy = Reply::Busy { seen: 524288 };
    assert!(rt; got?.as_slice() == [Reply::Admitted, busy].as_slice());
    assert!(rt; ends == (524288, 262144, 262144, 3));
    Ok(())
}
