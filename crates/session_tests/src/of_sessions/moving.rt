// Tasks that move between two domains of one CPU each.
ghost use Rattle.std.specs.Prelude.{◌≡◌, ◌<◌, ◌∷◌, [], length, IfSome};
ghost use Rattle.calls_text.specs.Limits.{IsCall};

use super::clients::{attr_of, make_all};
use super::storm::{arrive, entries_of};
use crate::begun::{clients_of, parts_on};
use call_book::{Call, Entry, NoMemory, Reply};
use rtapp_scenario::TaskSpec;
use session::{Answer, Client, Names, Parts, Refusal, Report, Session, Shared, Shares};
use std::alloc::Global;
use std::fmt::Write;
use std::marker::Brand;
use std::process::Abort;
use std::sync::Wait;
use std::sync::atomic::AtomicUsize;
use std::test::Fail;
use std::thread::{Threads, map_vec};

// ---- one client

const TASKS: &[u8] =
    b"dlcalls 1\ndomain 1 1048576\nadmit 1 1 a 2 8 8 - 0 -1:1{r2,s6}\nadmit 1 2 b 4 8 8 - 0 -1:1{r4,s4}\n";

// Makes the calls of a text in domain 0.
fn begin<N: Names, R: Threads + Wait>(
    rt: &R,
    alloc: Global,
    session: &Session<N>,
    client: &mut Client<N>,
    text: &[u8],
)
    requires { 0 < length N.id.cpu_sets }
{
    if let Some(entries) = entries_of(alloc, text) {
        let mut answers = Vec::new(alloc);
        make_all(rt, alloc, session, client, entries, &mut answers);
    }
}

// Moves a task, where these are a number and two domains.
fn carry<N: Names, S: Shares<N>, R: Wait>(
    rt: &R,
    alloc: Global,
    session: &S,
    client: &mut Client<N>,
    each: (u32, usize, usize),
) -> Result<(), Refusal>
    requires { 1 < length N.id.cpu_sets }
{
    let (number, from, to) = each;
    if number == 0 || 65535 < number || 1 < from || 1 < to {
        return Err(Refusal::Eperm);
    }
    client.move_task(rt, alloc, session, number, from, to)
}

// Lets a client admit two tasks to domain 0, set the limit of domain 1, and make these moves.
fn moved<N: Names, R: Abort + Threads + Wait>(
    rt: &R,
    alloc: Global,
    parts: Parts,
    limit: u64,
    moves: &[(u32, usize, usize)],
    said: &mut String,
) -> Result<Report, NoMemory>
    requires names { N.id ≡ parts }
{
    let mut session: Session<N> = Session::open(parts);
    let Some(mut client) = session.client(1) else {
        panic!(rt; "no client")
    };
    if session.domains() < 2 || limit < 10485 || 1048576 < limit {
        panic!(rt; "no second domain")
    }
    begin(rt, alloc, &session, &mut client, TASKS);
    let _ = client.limit(rt, &session, 1, limit);
    for each in moves {
        let _ = match carry(rt, alloc, &session, &mut client, *each) {
            Ok(()) => write!(said, "moved; "),
            Err(refusal) => write!(said, "{refusal}; "),
        };
    }
    let mut clients = Vec::new(alloc);
    let _ = clients.push(client);
    session.close(alloc, clients)
}

fn moved_in<R: Abort + Threads + Wait>(
    rt: &R,
    alloc: Global,
    parts: Parts,
    limit: u64,
    moves: &[(u32, usize, usize)],
    said: &mut String,
) -> Result<Report, NoMemory> {
    moved::<Brand, R>(rt, alloc, parts, limit, moves, said)
}

fn opened(alloc: Global, clients: u32) -> Result<Parts, NoMemory>
    requires { (0 < clients) × (clients < 65) }
{
    parts_on(alloc, vec![in alloc; 1, 1]?, 1048576, clients, 1024)
}

// How many departures and arrivals stand in a history.
fn moves_in(entries: &Vec<Entry>) -> (usize, usize) {
    let departed = entries
        .iter()
        .filter(|e| matches!(e.call, Call::Depart { .. }));
    let arrived = entries
        .iter()
        .filter(|e| matches!(e.call, Call::Arrive { .. }));
    (departed.count(), arrived.count())
}

// The limit of domain 1, the moves, and their answers.
type Row = (u64, &'static [(u32, usize, usize)], &'static str);

// A move takes the bandwidth along. Nothing stands where there is no such task, where it was
// admitted before, or where it goes to the domain itself. And where the word of the domain where it
// comes to leaves no room, nothing moves; then a smaller one does.
const ROWS: [Row; 2] = [
    (
        1048576,
        &[(1, 0, 1), (7, 0, 1), (2, 0, 0), (1, 0, 1), (1, 1, 0)],
        "moved; ESRCH 3; SameDomain 44; ESRCH 3; Twice 41; ",
    ),
    (
        262144,
        &[(2, 0, 1), (1, 0, 1), (2, 0, 1)],
        "EBUSY 16 seen 0; moved; EBUSY 16 seen 262144; ",
    ),
];

// Whether one task stayed and the other one moved, once, and all pieces came home.
fn are_apart(report: &Report, limit: u64) -> bool {
    let [first, second] = report.histories.as_slice() else {
        return false;
    };
    moves_in(&first.entries) == (1, 0)
        && moves_in(&second.entries) == (0, 1)
        && report.home == 512 + 1
        && report.words.as_slice() == [524288, 262144].as_slice()
        && report.caps.as_slice() == [1048576, limit].as_slice()
}

fn is_right<R: Abort + Threads + Wait>(rt: &R, alloc: Global, row: &Row) -> Result<bool, Fail> {
    let (limit, moves, wanted) = row;
    let mut said = String::new(alloc);
    let parts = opened(alloc, 1)?;
    let report = moved_in(rt, alloc, parts, *limit, moves, &mut said)?;
    Ok(said.as_str() == *wanted && are_apart(&report, *limit))
}

#[test]
fn a_task_moves(rt: HostRuntime) -> Result<(), Fail> {
    for row in &ROWS {
        assert!(rt; is_right(&rt, rt.alloc(), row)?, "{}", row.2);
    }
    Ok(())
}

// ---- many clients

// The CPUs of a domain: none means the first one.
fn cpus_of(alloc: Global, domain: u32) -> Option<Vec<u32>>
    ensures { IfSome result (λ v. v.items ≡ 1 ∷ []) }
{
    if domain == 0 {
        return None;
    }
    Vec::from_slice(alloc, [1].as_slice()).ok()
}

// Admits the task of a call to a domain.
fn admit_to<N: Names, R: Wait>(
    rt: &R,
    alloc: Global,
    shared: &Shared<N>,
    client: &mut Client<N>,
    call: Call,
    domain: u32,
) -> Answer
    requires { IsCall call }
{
    let Call::Admit {
        number,
        name,
        params,
        delay,
        script,
    } = call
    else {
        return Err(Refusal::Eperm);
    };
    let task = TaskSpec {
        number,
        name,
        attr: attr_of(&params),
        cpus: cpus_of(alloc, domain),
        delay,
        script,
    };
    client.admit(rt, alloc, shared, &task)
}

// The one call of a text that admits a task of a 64th of a CPU.
fn call_of(alloc: Global, number: u32) -> Option<Call>
    ensures { IfSome result IsCall }
{
    let text = format!(in alloc;
        "dlcalls 1\ndomain 1 1048576\nadmit 1 {number} t 2 128 128 - 0 -1:1{{r2,s126}}\n"
    ).ok()?;
    let mut entries = entries_of(alloc, text.as_bytes())?;
    let entry = entries.pop()?;
    Some(entry.call)
}

// A task of a client comes to one domain and moves to the other; which one it is, changes with each
// round, and neighbours go in opposite directions.
fn come_and_go<N: Names, R: Wait>(
    rt: &R,
    alloc: Global,
    shared: &Shared<N>,
    client: &mut Client<N>,
    round: u32,
)
    requires { 1 < length N.id.cpu_sets }
{
    let name = client.number() % 10;
    let number = name * 10 + round % 10;
    let domain = (name + round % 10) % 2;
    if let Some(call) = call_of(alloc, number) {
        let _ = admit_to(rt, alloc, shared, client, call, domain);
    }
    let from = domain as usize;
    let _ = carry(rt, alloc, shared, client, (number, from, 1 - from));
}

// Another client sets both limits, down and up.
fn limit_both<N: Names, R: Wait>(rt: &R, shared: &Shared<N>, client: &mut Client<N>, round: u32)
    requires { 1 < length N.id.cpu_sets }
{
    let limit = if round % 2 == 0 { 262144 } else { 1048576 };
    let _ = client.limit(rt, shared, 0, limit);
    let _ = client.limit(rt, shared, 1, limit);
}

// Lets a client make its calls, when all are here: the ninth advances both domains, the tenth sets
// their limits, and each other one moves tasks.
fn play<N: Names, R: Threads + Wait>(
    rt: &R,
    alloc: Global,
    shared: &Shared<N>,
    here: &AtomicUsize,
    many: u32,
    mut client: Client<N>,
) -> Client<N>
    requires { 1 < length N.id.cpu_sets }
{
    arrive(here, many as usize);
    for round in 0..10 {
        match client.number() {
            9 => {
                let _ = client.advance(rt, shared, 0, 3);
                let _ = client.advance(rt, shared, 1, 3);
            }
            10 => limit_both(rt, shared, &mut client, round),
            _ => come_and_go(rt, alloc, shared, &mut client, round),
        }
    }
    client
}

// All clients at once.
fn crossed<N: Names + Send + Sync, R: Abort + Threads + Wait + Sync>(
    rt: &R,
    alloc: Global,
    parts: Parts,
    many: u32,
) -> Result<Report, NoMemory>
    requires { N.id ≡ parts }
{
    let mut session: Session<N> = Session::open(parts);
    let clients = clients_of(alloc, &mut session, 10);
    if session.domains() < 2 {
        panic!(rt; "no second domain")
    }
    let shared = session.shared();
    let here = AtomicUsize::new(0);
    let played = map_vec(
        rt,
        clients,
        &|client: Client<N>| -> Client<N>
            requires { 1 < length N.id.cpu_sets }
        { play(rt, alloc, shared, &here, many, client) },
    );
    session.close(alloc, played.unwrap_or(Vec::new(alloc)))
}

fn crossed_in<R: Abort + Threads + Wait + Sync>(
    rt: &R,
    alloc: Global,
    parts: Parts,
    many: u32,
) -> Result<Report, NoMemory> {
    crossed::<Brand, R>(rt, alloc, parts, many)
}

// What a history leaves of each number's task: its bandwidth, or 0 where it is not listed.
fn listed_in(entries: &Vec<Entry>) -> [u64; 100] {
    let mut listed = [0; 100];
    for entry in entries {
        let (number, bandwidth) = match (&entry.call, &entry.reply) {
            (
                Call::Admit { number, params, .. } | Call::Arrive { number, params, .. },
                Some(Reply::Admitted),
            ) => (*number, params.bandwidth()),
            (Call::Depart { number }, Some(Reply::Departed)) => (*number, 0),
            _ => continue,
        };
        if let Some(now) = listed.get_mut(number as usize) {
            *now = bandwidth;
        }
    }
    listed
}

// How many tasks were admitted by their clients.
fn admitted_in(entries: &Vec<Entry>) -> usize {
    entries
        .iter()
        .filter(|e| {
            matches!(
                (&e.call, &e.reply),
                (Call::Admit { .. }, Some(Reply::Admitted))
            )
        })
        .count()
}

// What two domains have of all tasks, how many are listed in one of them, and how many in both.
fn counted(first: &[u64; 100], second: &[u64; 100]) -> ((u64, u64), usize, usize) {
    let (mut sums, mut one, mut both) = ((0u64, 0u64), 0usize, 0usize);
    for (a, b) in first.iter().zip(second.iter()) {
        sums = (sums.0.wrapping_add(*a), sums.1.wrapping_add(*b));
        match (*a, *b) {
            (0, 0) => {}
            (0, _) | (_, 0) => one = one.wrapping_add(1),
            _ => both = both.wrapping_add(1),
        }
    }
    (sums, one, both)
}

// Whether each word is the sum of its domain's tasks, each task that was admitted is listed in one
// domain, and every piece came home.
fn agree(report: &Report, many: u32) -> bool {
    let [first, second] = report.histories.as_slice() else {
        return false;
    };
    let (sums, one, both) = counted(&listed_in(&first.entries), &listed_in(&second.entries));
    let admitted = admitted_in(&first.entries).wrapping_add(admitted_in(&second.entries));
    let (moved, back) = (moves_in(&first.entries), moves_in(&second.entries));
    report.words.as_slice() == [sums.0, sums.1].as_slice()
        && admitted == one
        && both == 0
        && (moved.0, moved.1) == (back.1, back.0)
        && (0 < moved.0 && 0 < moved.1)
        && report.home == (many as usize).wrapping_add(512)
}

// Two clients move tasks in opposite directions at once, and neither waits for the other for ever.
// Then eight do, while a ninth advances both domains and a tenth sets both limits.
#[test]
fn in_opposite_directions(rt: HostRuntime) -> Result<(), Fail> {
    for many in [2, 10] {
        for _ in 0..20 {
            let parts = opened(rt.alloc(), many)?;
            let report = crossed_in(&rt, rt.alloc(), parts, many)?;
            assert!(rt; agree(&report, many), "{many} clients");
        }
    }
    Ok(())
}
