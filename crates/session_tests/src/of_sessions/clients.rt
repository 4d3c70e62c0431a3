// The calls of one client of a session, given as the calls of a text.
ghost use Rattle.std.specs.Prelude.{◌≡◌, ◌<◌, ◌≤◌, length, IfOk, All};
ghost use Rattle.calls_text.specs.Limits.{IsCall, IsEntry, IsSection};

use crate::begun::{clients_of, parts_on};
use attr_check::{Params, SchedAttr};
use call_book::{Call, Entry, NoMemory, Section, read_calls};
use rtapp_scenario::TaskSpec;
use session::{Answer, Client, Names, Parts, Refusal, Report, Session, Shares};
use std::alloc::{AllocError, Global};
use std::fmt::Write;
use std::marker::Brand;
use std::process::Abort;
use std::sync::Wait;
use std::test::Fail;
use std::thread::Threads;

pub(super) fn attr_of(params: &Params) -> SchedAttr {
    SchedAttr {
        policy: 6,
        flags: if params.reclaim { 2 } else { 0 },
        runtime: params.runtime * 1000,
        deadline: params.deadline * 1000,
        period: params.period * 1000,
    }
}

// Makes a call on the first domain, in a session or in what threads share of it.
pub(super) fn make<N: Names, S: Shares<N>, R: Threads + Wait>(
    rt: &R,
    alloc: Global,
    session: &S,
    client: &mut Client<N>,
    call: Call,
) -> Answer
    requires call { IsCall call }
    requires place { 0 < length N.id.cpu_sets }
{
    match call {
        Call::Admit {
            number,
            name,
            params,
            delay,
            script,
        } => {
            let task = TaskSpec {
                number,
                name,
                attr: attr_of(&params),
                cpus: None,
                delay,
                script,
            };
            client.admit(rt, alloc, session, &task)
        }
        Call::Regrade {
            number,
            params,
            word: _,
        } => client.regrade(rt, session, 0, number, params),
        Call::Wake { number } => client.wake(rt, session, 0, number),
        Call::Leave { number } => client.leave(rt, session, 0, number),
        Call::Advance { ticks } => client.advance(rt, session, 0, ticks),
        Call::Limit { limit, word: _ } => client.limit(rt, session, 0, limit),
        // A move takes another domain.
        Call::Depart { .. } | Call::Arrive { .. } => Err(Refusal::SameDomain),
    }
}

// Makes these calls on domain 0, one after the other.
pub(super) fn make_all<N: Names, S: Shares<N>, R: Threads + Wait>(
    rt: &R,
    alloc: Global,
    session: &S,
    client: &mut Client<N>,
    mut entries: Vec<Entry>,
    answers: &mut Vec<Answer>,
)
    requires entries { All IsEntry entries.items }
    requires place { 0 < length N.id.cpu_sets }
{
    entries.reverse();
    while let Some(entry) = entries.pop() {
        let _ = answers.push(make(rt, alloc, session, client, entry.call));
    }
}

// Makes the calls of these entries by client 1 on domain 0, and ends the session.
fn made<N: Names, R: Abort + Threads + Wait>(
    rt: &R,
    alloc: Global,
    parts: Parts,
    entries: Vec<Entry>,
    answers: &mut Vec<Answer>,
) -> Result<Report, NoMemory>
    requires names { N.id ≡ parts }
    requires entries { All IsEntry entries.items }
{
    let mut session: Session<N> = Session::open(parts);
    let mut clients = clients_of(alloc, &mut session, 1);
    session.domains();
    if let Some(client) = clients.first_mut() {
        make_all(rt, alloc, &session, client, entries, answers);
    }
    session.close(alloc, clients)
}

fn made_in<R: Abort + Threads + Wait>(
    rt: &R,
    alloc: Global,
    parts: Parts,
    entries: Vec<Entry>,
    answers: &mut Vec<Answer>,
) -> Result<Report, NoMemory>
    requires { All IsEntry entries.items }
{
    made::<Brand, R>(rt, alloc, parts, entries, answers)
}

// The one section of a text.
fn section_of(rt: &impl Abort, alloc: Global, text: &[u8]) -> Result<Section, Fail>
    ensures { IfOk result IsSection }
{
    let mut sections = read_calls(alloc, text)?;
    let Some(section) = sections.pop() else {
        panic!(rt; "no section")
    };
    Ok(section)
}

// The parts of a session with one client on a domain.
fn parts_of(alloc: Global, cpus: u32, limit: u64, history: usize) -> Result<Parts, NoMemory>
    requires cpus { (0 < cpus) × (cpus ≤ 64) }
    requires limit { (10485 ≤ limit) × (limit ≤ 1048576) }
    requires history { (0 < history) × (history ≤ 65536) }
{
    parts_on(alloc, vec![in alloc; cpus]?, limit, 1, history)
}

// What these answers say.
fn said_by(alloc: Global, answers: &[Answer]) -> Result<String, Fail> {
    let mut said = String::new(alloc);
    for answer in answers {
        match answer {
            Ok(reply) => write!(said, "{reply:?}; ")?,
            Err(refusal) => write!(said, "{refusal}; ")?,
        }
    }
    Ok(said)
}

// Makes the calls of a text in a session of its domain, with room for so many: the answers, and
// what the session left.
fn ran<R: Abort + Threads + Wait>(
    rt: &R,
    alloc: Global,
    text: &[u8],
    history: usize,
) -> Result<(String, Report), Fail>
    requires { (0 < history) × (history ≤ 65536) }
{
    let Section {
        cpus,
        limit,
        entries,
    } = section_of(rt, alloc, text)?;
    let mut answers = Vec::new(alloc);
    let parts = parts_of(alloc, cpus, limit, history)?;
    let report = made_in(rt, alloc, parts, entries, &mut answers)?;
    Ok((said_by(alloc, &answers)?, report))
}

// How many calls stand in the first domain's history.
fn entered(report: &Report) -> usize {
    match report.histories.first() {
        Some(history) => history.entries.len(),
        None => 0,
    }
}

// The room of the history, the calls, the answers, and then the number of entries, what is used of
// the word, and its cap.
type Row = (usize, &'static [u8], &'static str, (usize, u64, u64));

const TWICE: &[u8] =
    b"dlcalls 1\ndomain 1 1048576\nadmit 1 1 a 2 8 8 - 0 1:1{r2}\nadmit 1 1 b 2 8 8 - 0 1:1{r2}\nadmit 1 2 b 2 8 8 - 0 1:1{r2}\nadmit 1 1 c 2 8 8 - 0 1:1{r2}\n";

// Eight tasks of half a CPU on two CPUs, of which three find room.
const RACE: &[u8] =
    b"dlcalls 1\ndomain 2 996147\nadmit 1 1 t 500 1000 1000 - 0 -1:1{r100,s900}\nadmit 1 2 t 500 1000 1000 - 0 -1:1{r100,s900}\nadmit 1 3 t 500 1000 1000 - 0 -1:1{r100,s900}\nadmit 1 4 t 500 1000 1000 - 0 -1:1{r100,s900}\nadmit 1 5 t 500 1000 1000 - 0 -1:1{r100,s900}\nadmit 1 6 t 500 1000 1000 - 0 -1:1{r100,s900}\nadmit 1 7 t 500 1000 1000 - 0 -1:1{r100,s900}\nadmit 1 8 t 500 1000 1000 - 0 -1:1{r100,s900}\n";

// waiting: a refused wake is entered too. most_ticks_of_a_call: all ticks of a call are made, up to
// the most that one may ask for. regrade: the word goes with the book. limit_calls: the limit is
// not set below what the task has; then it holds for admissions, down and up. limit_in_a_full_book:
// a book that is full changes no limit. full_book. number_twice: a number is admitted once, and
// that the book is full is found first. admission_race: the others are refused by the word alone.
// full_domain_and_no_bandwidth: 2 of 100 is refused at the word and stands nowhere, and 2 us of 4
// s, which is no bandwidth, is admitted still. refused_then_given_back: two thirds of a CPU leave
// no room for as much again, until the task has left and its bandwidth is back.
const ROWS: [Row; 11] = [
    (
        1024,
        b"dlcalls 1\ndomain 1 1048576\nadmit 1 1 w 2 10 10 - 0 -1:1{w,r1}\nadvance 1 3\nwake 1 1\nwake 1 1\nadvance 1 3\n",
        "Admitted; Done { ticks: 3 }; Woken; NotWaiting; Done { ticks: 3 }; ",
        (5, 209715, 1048576),
    ),
    (
        4,
        b"dlcalls 1\ndomain 1 1048576\nadvance 1 60000000\nadmit 1 1 a 2 8 8 - 0 -1:1{r1,t8}\nadvance 1 3000\n",
        "Done { ticks: 60000000 }; Admitted; Done { ticks: 3000 }; ",
        (3, 262144, 1048576),
    ),
    (
        1024,
        b"dlcalls 1\ndomain 1 524288\nadmit 1 1 a 2 8 8 - 0 1:1{r2}\nregrade 1 1 4 8 8 -\nregrade 1 1 5 8 8 -\nregrade 1 7 4 8 8 -\nleave 1 7\n",
        "Admitted; Changed; Busy { seen: 524288 }; NotListed; NotListed; ",
        (5, 524288, 524288),
    ),
    (
        1024,
        b"dlcalls 2\ndomain 1 524288\nadmit 1 1 a 2 8 8 - 0 1:1{r2}\nlimit 1 131072\nlimit 1 262144\nadmit 1 2 b 2 8 8 - 0 1:1{r2}\nlimit 1 1048576\nadmit 1 3 c 2 8 8 - 0 1:1{r2}\n",
        "Admitted; Busy { seen: 262144 }; Set; EBUSY 16 seen 262144; Set; Admitted; ",
        (5, 524288, 1048576),
    ),
    (
        1,
        b"dlcalls 2\ndomain 1 1048576\nadmit 1 1 a 2 8 8 - 0 1:1{r2}\nlimit 1 524288\n",
        "Admitted; Full 40; ",
        (1, 262144, 1048576),
    ),
    (
        1,
        b"dlcalls 1\ndomain 1 1048576\nadmit 1 1 a 2 8 8 - 0 1:1{r2}\nadmit 1 2 b 2 8 8 - 0 1:1{r2}\nleave 1 1\nadvance 1 1\n",
        "Admitted; Full 40; Full 40; Full 40; ",
        (1, 262144, 1048576),
    ),
    (
        1024,
        TWICE,
        "Admitted; Twice 41; Admitted; Twice 41; ",
        (2, 524288, 1048576),
    ),
    (
        2,
        TWICE,
        "Admitted; Twice 41; Admitted; Full 40; ",
        (2, 524288, 1048576),
    ),
    (
        1024,
        RACE,
        "Admitted; Admitted; Admitted; EBUSY 16 seen 1572864; EBUSY 16 seen 1572864; EBUSY 16 seen 1572864; EBUSY 16 seen 1572864; EBUSY 16 seen 1572864; ",
        (3, 1572864, 1992294),
    ),
    (
        9,
        b"dlcalls 1\ndomain 1 524288\nadmit 1 1 a 500 1000 1000 - 0 1:1{r1}\nadmit 1 2 b 2 100 100 - 0 1:1{r1}\nadmit 1 3 c 2 4000000 4000000 - 0 1:1{r1}\n",
        "Admitted; EBUSY 16 seen 524288; Admitted; ",
        (2, 524288, 524288),
    ),
    (
        9,
        b"dlcalls 1\ndomain 1 1048576\nadmit 1 1 a 10000 15000 15000 - 0 1:1{r1}\nadmit 1 2 b 10000 15000 15000 - 0 1:1{r1}\nleave 1 1\nadvance 1 1\nadmit 1 2 b 10000 15000 15000 - 0 1:1{r1}\n",
        "Admitted; EBUSY 16 seen 699050; Left; Done { ticks: 1 }; Admitted; ",
        (4, 699050, 1048576),
    ),
];

// Whether a session of one domain left so many entries, this word and this cap, and all pieces
// came home.
fn has_left(report: &Report, left: &(usize, u64, u64)) -> bool {
    let (calls, word, cap) = left;
    entered(report) == *calls
        && report.home == 257
        && report.words.as_slice() == [*word].as_slice()
        && report.caps.as_slice() == [*cap].as_slice()
}

fn is_right<R: Abort + Threads + Wait>(rt: &R, alloc: Global, row: &Row) -> Result<bool, Fail> {
    let (room, text, wanted, left) = row;
    let (said, report) = ran(rt, alloc, text, (*room).clamp(1, 65536))?;
    Ok(said.as_str() == *wanted && has_left(&report, left))
}

// Each row's calls in a session of its own, with all pieces home in the end.
#[test]
fn rows_of_one_client(rt: HostRuntime) -> Result<(), Fail> {
    for row in &ROWS {
        assert!(rt; is_right(&rt, rt.alloc(), row)?, "{}", row.2);
    }
    Ok(())
}

// The calls by which these tasks come and go, with one behind them for which the list has no place:
// in the end none is listed.
fn come_and_go(text: &mut String, first: u32, end: u32) -> Result<(), AllocError> {
    for k in first..end {
        write!(text, "admit 1 {k} t 2 1000000 1000000 - 0 -1:1{{r1,s9}}\n")?;
    }
    write!(text, "admit 1 1000 t 2 1000000 1000000 - 0 -1:1{{r1,s9}}\n")?;
    for k in first..end {
        write!(text, "leave 1 {k}\n")?;
    }
    write!(text, "advance 1 4\n")
}

fn three_rounds(alloc: Global) -> Result<String, AllocError> {
    let mut text = String::from_str(alloc, "dlcalls 1\ndomain 1 996147\n")?;
    for (first, end) in [(1, 257), (257, 513), (513, 769)] {
        come_and_go(&mut text, first, end)?;
    }
    Ok(text)
}

// 256 tasks that want two millionths of a CPU each come and go three times, with 257 pieces: the
// pieces of those that went are those of who comes. Each time there is a piece for one more, and
// room at the word, but no place in the list: its ticket goes back.
#[test]
fn pieces_come_round(rt: HostRuntime) -> Result<(), Fail> {
    let text = three_rounds(rt.alloc())?;
    let (said, report) = ran(&rt, rt.alloc(), text.as_bytes(), 2048)?;
    assert!(rt; said.as_str().split("Admitted; ").count() == 769);
    assert!(rt; said.as_str().split("Full 40; ").count() == 4);
    assert!(rt; has_left(&report, &(3 * 513, 0, 996147)));
    Ok(())
}
