// The turns of the clients of a scenario: what stands in the book before and after each admission.
ghost use Rattle.std.specs.Prelude.{◌≡◌, ◌<◌, length};

use crate::begun::{clients_of, parts_on, tasks_of};
use call_book::NoMemory;
use domain_run::Call;
use rtapp_scenario::TaskSpec;
use session::{Client, Names, Parts, Report, Session, Shared, Turnstile, admit_all};
use std::alloc::Global;
use std::fmt::Write;
use std::marker::Brand;
use std::process::Abort;
use std::sync::{Mutex, Wait};
use std::test::Fail;
use std::thread::Threads;

const SIX: &[u8] =
    br#"{"tasks":{"t":{"instance":6,"policy":"SCHED_DEADLINE","dl-runtime":100,"dl-period":1000,"run":100,"sleep":900}},"global":{"duration":0}}"#;

/// Before and after each admission of three clients a fourth one wakes that very task: whether it
/// is listed then stands in the book.
#[derive(Drop)]
struct Witness<'r, 's, N: Names, R> {
    rt: &'r R,
    shared: &'s Shared<N>,
    fourth: Mutex<Client<N>>,
    ghost some: { 0 < length N.id.cpu_sets },
}

impl<'r, 's, N: Names, R: Wait> Witness<'r, 's, N, R> {
    // The client's tasks are numbered by its place, and then by threes.
    fn wake(&self, client: u32, seq: usize) {
        let number = (client as usize).saturating_add(seq.saturating_mul(3));
        if 0 < number && number < 65536 {
            let _ = self
                .fourth
                .lock(self.rt)
                .wake(self.rt, self.shared, 0, number as u32);
        }
    }
}

impl<'r, 's, N: Names + Send + Sync, R: Wait + Sync> Turnstile for Witness<'r, 's, N, R> {
    fn before(&self, client: u32, seq: usize) {
        self.wake(client, seq);
    }

    fn after(&self, client: u32, seq: usize) {
        self.wake(client, seq);
    }
}

// Whether these clients have asked for these tasks, with the witness round each admission.
fn have_asked<N: Names + Send + Sync, R: Threads + Wait + Sync>(
    rt: &R,
    alloc: Global,
    session: &Session<N>,
    fourth: Client<N>,
    clients: Vec<Client<N>>,
    tasks: &[TaskSpec],
) -> bool
    requires { 0 < length clients.items }
{
    session.domains();
    let witness = Witness {
        rt,
        shared: session.shared(),
        fourth: Mutex::new(fourth),
    };
    admit_all(rt, alloc, session, clients, tasks, &witness).is_ok()
}

// Lets three clients admit these tasks, and ends the session.
fn witnessed<N: Names + Send + Sync, R: Threads + Wait + Abort + Sync>(
    rt: &R,
    alloc: Global,
    parts: Parts,
    tasks: &[TaskSpec],
) -> Result<Report, NoMemory>
    requires { N.id ≡ parts }
{
    let mut session: Session<N> = Session::open(parts);
    let clients = clients_of(alloc, &mut session, 3);
    let Some(fourth) = session.client(4) else {
        panic!(rt; "no client")
    };
    if clients.is_empty() {
        panic!(rt; "no client")
    }
    let asked = have_asked(rt, alloc, &session, fourth, clients, tasks);
    let report = session.close(alloc, Vec::new(alloc))?;
    assert!(rt; asked);
    Ok(report)
}

fn witnessed_in<R: Threads + Wait + Abort + Sync>(
    rt: &R,
    alloc: Global,
    parts: Parts,
    tasks: &[TaskSpec],
) -> Result<Report, NoMemory> {
    witnessed::<Brand, R>(rt, alloc, parts, tasks)
}

// What stands in the book of each task, in its order: who made the call, and the reply.
fn of_each_task(alloc: Global, report: &Report) -> Result<String, Fail> {
    let mut said = String::new(alloc);
    for task in 1..7 {
        for history in &report.histories {
            for entry in &history.entries {
                if let (Call::Admit { number, .. } | Call::Wake { number }, Some(reply)) = (
                    &entry.call,
                    &entry.reply,
                )
                    && *number == task
                {
                    write!(said, "{} {reply:?} ", entry.client)?;
                }
            }
        }
        write!(said, "\n")?;
    }
    Ok(said)
}

const TURNS: &str =
    "4 NotListed 1 Admitted 4 NotWaiting \n4 NotListed 2 Admitted 4 NotWaiting \n4 NotListed 3 Admitted 4 NotWaiting \n4 NotListed 1 Admitted 4 NotWaiting \n4 NotListed 2 Admitted 4 NotWaiting \n4 NotListed 3 Admitted 4 NotWaiting \n18";

// The same where three clients admit the six tasks, with how many calls there are behind it.
fn said_of_six<R: Threads + Wait + Abort + Sync>(rt: &R, alloc: Global) -> Result<String, Fail> {
    let tasks = tasks_of(alloc, SIX)?;
    let parts = parts_on(alloc, vec![in alloc; 1]?, 1048576, 4, 64)?;
    let report = witnessed_in(rt, alloc, parts, &tasks)?;
    let mut said = of_each_task(alloc, &report)?;
    for history in &report.histories {
        write!(said, "{}", history.entries.len())?;
    }
    Ok(said)
}

// Each turn has the client's number and how many admissions it made before; its task is not listed
// before the turn, and is after it.
#[test]
fn turns_round_admissions(rt: HostRuntime) -> Result<(), Fail> {
    let said = said_of_six(&rt, rt.alloc())?;
    assert!(rt; said.as_str() == TURNS, "{said}");
    Ok(())
}
