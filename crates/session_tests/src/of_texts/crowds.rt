// Many clients at once.
ghost use Rattle.std.specs.Prelude.{◌≡◌};

use super::runs::RACE;
use crate::begun::{clients_of, options_on, parts_on, tasks_of};
use call_book::NoMemory;
use dl_session::{Names, Parts, Report, Session, Turnstile, admit_all, run};
use rtapp_scenario::TaskSpec;
use std::alloc::Global;
use std::fmt::Write;
use std::marker::Brand;
use std::process::Abort;
use std::sync::Wait;
use std::sync::atomic::{AtomicBool, AtomicUsize, Ordering};
use std::test::Fail;
use std::thread::{Threads, sleep};
use std::time::{Clock, Duration};
use switch_text::Counted;

/// Lets eight clients in one after the other, by their numbers or the other way round. Who waits
/// for ten seconds is late.
#[derive(Drop)]
struct InTurn<C> {
    clock: C,
    falling: bool,
    passed: AtomicUsize,
    late: AtomicBool,
}

impl<C: Clock + Sync> Turnstile for InTurn<C> {
    fn before(&self, client: u32, _seq: usize) {
        let turn = if self.falling {
            8u32.saturating_sub(client)
        } else {
            client.saturating_sub(1)
        };
        for _ in 0..10000 {
            if self.passed.load(Ordering::SeqCst) == turn as usize {
                return;
            }
            sleep(&self.clock, Duration::from_millis(1));
        }
        self.late.store(true, Ordering::SeqCst);
    }

    fn after(&self, _client: u32, _seq: usize) {
        self.passed.fetch_add(1, Ordering::SeqCst);
    }
}

fn in_turn<C: Clock>(clock: C, falling: bool) -> InTurn<C> {
    InTurn {
        clock,
        falling,
        passed: AtomicUsize::new(0),
        late: AtomicBool::new(false),
    }
}

/// Who entered an admission of which task, in the order of the first domain's history, then who was
/// refused what, and then what is used of the word, how many pieces came home, and whether somebody
/// was late.
fn admitted(alloc: Global, report: &Report, late: bool) -> Result<String, Fail> {
    let mut said = String::new(alloc);
    for history in &report.histories {
        for entry in &history.entries {
            write!(said, "{} ", entry.client)?;
        }
    }
    for (number, refusal) in &report.refused {
        write!(said, "{number} {refusal}; ")?;
    }
    for word in &report.words {
        write!(said, "{word} used, {} home", report.home)?;
    }
    if late {
        write!(said, ", late")?;
    }
    Ok(said)
}

const RISING: &str =
    "1 2 3 4 EBUSY 16 seen 1572864; 5 EBUSY 16 seen 1572864; 6 EBUSY 16 seen 1572864; 7 EBUSY 16 seen 1572864; 8 EBUSY 16 seen 1572864; 1572864 used, 264 home";

const FALLING: &str =
    "8 7 6 1 EBUSY 16 seen 1572864; 2 EBUSY 16 seen 1572864; 3 EBUSY 16 seen 1572864; 4 EBUSY 16 seen 1572864; 5 EBUSY 16 seen 1572864; 1572864 used, 264 home";

// Eight tasks of half a CPU on two CPUs: what a run admits in this order.
fn admitted_by_run<R: Threads + Wait + Clock + Sync>(
    rt: &R,
    alloc: Global,
    falling: bool,
) -> Result<String, Fail> {
    let order = in_turn(rt, falling);
    let options = options_on(vec![in alloc; 2]?, 996147, 8, 1024);
    let (mut reader, mut writer) = (Counted::new(RACE), Counted::new(Vec::new(alloc)));
    let report = run(rt, alloc, &mut reader, &mut writer, &options, &order)?;
    admitted(alloc, &report, order.late.load(Ordering::SeqCst))
}

// The same without a run.
fn admit_eight<N: Names + Send + Sync, R: Threads + Wait + Abort + Sync, T: Turnstile>(
    rt: &R,
    alloc: Global,
    parts: Parts,
    tasks: &[TaskSpec],
    order: &T,
) -> Result<Report, NoMemory>
    requires { N.id ≡ parts }
{
    let mut session: Session<N> = Session::open(parts);
    let clients = clients_of(alloc, &mut session, 8);
    if clients.is_empty() {
        panic!(rt; "no client")
    }
    match admit_all(rt, alloc, &session, clients, tasks, order) {
        Ok((clients, refused)) => {
            let mut report = session.close(alloc, clients)?;
            report.refused = refused;
            Ok(report)
        }
        Err(_) => session.close(alloc, Vec::new(alloc)),
    }
}

fn admit_eight_in<R: Threads + Wait + Abort + Sync, T: Turnstile>(
    rt: &R,
    alloc: Global,
    parts: Parts,
    tasks: &[TaskSpec],
    order: &T,
) -> Result<Report, NoMemory> {
    admit_eight::<Brand, R, T>(rt, alloc, parts, tasks, order)
}

fn admitted_by_all<R: Threads + Wait + Abort + Clock + Sync>(
    rt: &R,
    alloc: Global,
    falling: bool,
) -> Result<String, Fail> {
    let order = in_turn(rt, falling);
    let tasks = tasks_of(alloc, RACE)?;
    let parts = parts_on(alloc, vec![in alloc; 2]?, 996147, 8, 1024)?;
    let report = admit_eight_in(rt, alloc, parts, &tasks, &order)?;
    admitted(alloc, &report, order.late.load(Ordering::SeqCst))
}

// A run that admitted beside its clients' threads, or on one thread, would be late, or enter them
// in another order.
#[test]
fn clients_let_in_one_by_one(rt: HostRuntime) -> Result<(), Fail> {
    for (falling, wanted) in [(false, RISING), (true, FALLING)] {
        let by_run = admitted_by_run(&rt, rt.alloc(), falling)?;
        assert!(rt; by_run.as_str() == wanted, "{by_run}");
        let by_all = admitted_by_all(&rt, rt.alloc(), falling)?;
        assert!(rt; by_all.as_str() == wanted, "{by_all}");
    }
    Ok(())
}
