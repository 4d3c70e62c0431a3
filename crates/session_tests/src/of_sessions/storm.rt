// A storm: 64 clients at once, each in a thread of its own, on one domain.
ghost use Rattle.std.specs.Prelude.{◌≡◌, ◌<◌, length, All, IfSome};
ghost use Rattle.calls_text.specs.Limits.{IsEntry, IsSection};

use super::clients::make_all;
use crate::begun::{clients_of, parts_on};
use call_book::{Entry, NoMemory, Reply, Section, read_calls};
use session::{Answer, Client, Names, Parts, Report, Session, Shared};
use std::alloc::Global;
use std::marker::Brand;
use std::sync::Wait;
use std::sync::atomic::{AtomicUsize, Ordering};
use std::test::Fail;
use std::thread::{Threads, map_vec, yield_now};

/// What the clients of a storm share beside the session.
#[derive(Drop)]
struct Crowd {
    leaves: bool,
    here: AtomicUsize,
    granted: AtomicUsize,
}

// Waits until all clients are here, so that they run at once. It gives up after many turns: where a
// thread could not be started, the clients come one after another.
pub(super) fn arrive(here: &AtomicUsize, many: usize) {
    here.fetch_add(1, Ordering::SeqCst);
    for _ in 0..1000000 {
        if here.load(Ordering::SeqCst) >= many {
            return;
        }
        yield_now();
    }
}

// A client's calls: an admission of half a CPU and a regrade to a quarter, and where it leaves, a
// tick and the task's end.
fn text_of(alloc: Global, client: u32, leaves: bool) -> Option<String> {
    let mut text = format!(in alloc;
        "dlcalls 1\ndomain 64 1048576\nadmit {client} {client} t 4 8 8 - 0 -1:1{{r2,s6}}\nregrade {client} {client} 2 8 8 -\n"
    ).ok()?;
    if leaves {
        let end = format!(in alloc; "advance {client} 1\nleave {client} {client}\n").ok()?;
        text.push_str(end.as_str()).ok()?;
    }
    Some(text)
}

pub(super) fn entries_of(alloc: Global, text: &[u8]) -> Option<Vec<Entry>>
    ensures { IfSome result (λ v. All IsEntry v.items) }
{
    match read_calls(alloc, text) {
        Ok(sections) => last_entries(sections),
        Err(_) => None,
    }
}

fn last_entries(mut sections: Vec<Section>) -> Option<Vec<Entry>>
    requires { All IsSection sections.items }
    ensures { IfSome result (λ v. All IsEntry v.items) }
{
    let Section {
        cpus: _,
        limit: _,
        entries,
    } = sections.pop()?;
    Some(entries)
}

fn is_granted(answer: &Answer) -> bool {
    matches!(
        answer,
        Ok(Reply::Admitted | Reply::Changed | Reply::Left | Reply::Done { ticks: 1 })
    )
}

// Lets a client make its calls, when all are here.
fn play<N: Names, R: Threads + Wait>(
    rt: &R,
    alloc: Global,
    shared: &Shared<N>,
    crowd: &Crowd,
    mut client: Client<N>,
) -> Client<N>
    requires { 0 < length N.id.cpu_sets }
{
    let Some(text) = text_of(alloc, client.number(), crowd.leaves) else {
        return client;
    };
    let Some(entries) = entries_of(alloc, text.as_bytes()) else {
        return client;
    };
    let mut answers = Vec::new(alloc);
    arrive(&crowd.here, 64);
    make_all(rt, alloc, shared, &mut client, entries, &mut answers);
    let granted = answers.iter().filter(|it| is_granted(it)).count();
    crowd.granted.fetch_add(granted, Ordering::SeqCst);
    client
}

// All clients at once. When they have ended, and where they left, the first one advances the domain
// until all bandwidth is free.
fn rage<N: Names + Send + Sync, R: Threads + Wait + Sync>(
    rt: &R,
    alloc: Global,
    parts: Parts,
    crowd: &Crowd,
) -> Result<Report, NoMemory>
    requires { N.id ≡ parts }
{
    let mut session: Session<N> = Session::open(parts);
    let clients = clients_of(alloc, &mut session, 64);
    session.domains();
    let shared = session.shared();
    let played = map_vec(
        rt,
        clients,
        &|client: Client<N>| -> Client<N>
            requires { 0 < length N.id.cpu_sets }
        { play(rt, alloc, shared, crowd, client) },
    );
    let mut clients = played.unwrap_or(Vec::new(alloc));
    if let Some(first) = clients.first_mut()
        && crowd.leaves
    {
        let _ = first.advance(rt, &session, 0, 16);
    }
    session.close(alloc, clients)
}

fn rage_in<R: Threads + Wait + Sync>(
    rt: &R,
    alloc: Global,
    parts: Parts,
    crowd: &Crowd,
) -> Result<Report, NoMemory> {
    rage::<Brand, R>(rt, alloc, parts, crowd)
}

// Whether a storm ends with so many calls granted, this word, and all pieces home.
fn ends_with<R: Threads + Wait + Sync>(
    rt: &R,
    alloc: Global,
    leaves: bool,
    calls: usize,
    word: u64,
) -> Result<bool, NoMemory> {
    let crowd = Crowd {
        leaves,
        here: AtomicUsize::new(0),
        granted: AtomicUsize::new(0),
    };
    let parts = parts_on(alloc, vec![in alloc; 64]?, 1048576, 64, 1024)?;
    let report = rage_in(rt, alloc, parts, &crowd)?;
    let granted = crowd.granted.load(Ordering::SeqCst);
    Ok(granted == calls && report.home == 256 + 64 && report.words.as_slice() == [word].as_slice())
}

// 64 quarters of a CPU stay; and where each client's task then ends, nothing.
#[test]
fn storm(rt: HostRuntime) -> Result<(), Fail> {
    assert!(rt; ends_with(&rt, rt.alloc(), false, 128, 16777216)?);
    assert!(rt; ends_with(&rt, rt.alloc(), true, 256, 0)?);
    Ok(())
}
