// Eight clients that admit, regrade and leave on one domain, while a ninth changes its limit.
ghost use Rattle.std.specs.Prelude.{◌≡◌, ◌<◌, length};

use super::clients::make_all;
use super::storm::{arrive, entries_of};
use crate::begun::{clients_of, parts_on};
use call_book::{Call, Entry, NoMemory, Reply};
use session::{Client, Names, Parts, Report, Session, Shared};
use std::alloc::Global;
use std::marker::Brand;
use std::sync::Wait;
use std::sync::atomic::AtomicUsize;
use std::test::Fail;
use std::thread::{Threads, map_vec};

// A client's calls of one round: the ninth changes the limit four times; each other admits a task
// of half a CPU, regrades it to a quarter and lets it leave.
fn round_of(alloc: Global, client: u32, round: u32) -> Option<String> {
    if client == 9 {
        return String::from_str(
            alloc,
            "limit 9 524288\nlimit 9 1048576\nlimit 9 262144\nlimit 9 786432\n",
        )
        .ok();
    }
    format!(in alloc;
        "admit {client} {client}{round} t 4 8 8 - 0 -1:1{{r2,s6}}\nregrade {client} {client}{round} 2 8 8 -\nleave {client} {client}{round}\n"
    ).ok()
}

fn text_of(alloc: Global, client: u32) -> Option<String> {
    let version = if client == 9 { 2 } else { 1 };
    let mut text = format!(in alloc; "dlcalls {version}\ndomain 4 1048576\n").ok()?;
    for round in 1..7 {
        text.push_str(round_of(alloc, client, round)?.as_str())
            .ok()?;
    }
    Some(text)
}

// Lets a client make its calls, when all are here.
fn play<N: Names, R: Threads + Wait>(
    rt: &R,
    alloc: Global,
    shared: &Shared<N>,
    here: &AtomicUsize,
    mut client: Client<N>,
) -> Client<N>
    requires { 0 < length N.id.cpu_sets }
{
    let Some(text) = text_of(alloc, client.number()) else {
        return client;
    };
    let Some(entries) = entries_of(alloc, text.as_bytes()) else {
        return client;
    };
    let mut answers = Vec::new(alloc);
    arrive(here, 9);
    make_all(rt, alloc, shared, &mut client, entries, &mut answers);
    client
}

// All clients at once.
fn change<N: Names + Send + Sync, R: Threads + Wait + Sync>(
    rt: &R,
    alloc: Global,
    parts: Parts,
) -> Result<Report, NoMemory>
    requires { N.id ≡ parts }
{
    let mut session: Session<N> = Session::open(parts);
    let clients = clients_of(alloc, &mut session, 9);
    session.domains();
    let shared = session.shared();
    let here = AtomicUsize::new(0);
    let played = map_vec(
        rt,
        clients,
        &|client: Client<N>| -> Client<N>
            requires { 0 < length N.id.cpu_sets }
        { play(rt, alloc, shared, &here, client) },
    );
    session.close(alloc, played.unwrap_or(Vec::new(alloc)))
}

fn change_in<R: Threads + Wait + Sync>(
    rt: &R,
    alloc: Global,
    parts: Parts,
) -> Result<Report, NoMemory> {
    change::<Brand, R>(rt, alloc, parts)
}

// The sum of bandwidths that a history without an advance leaves: nobody has gone off the list.
fn sum_of(entries: &Vec<Entry>) -> u64 {
    let mut held = [0; 100];
    for entry in entries {
        if let Call::Admit { number, params, .. }
        | Call::Regrade { number, params, .. } = &entry.call
            && let Some(Reply::Admitted | Reply::Changed) = &entry.reply
            && let Some(bandwidth) = held.get_mut(*number as usize)
        {
            *bandwidth = params.bandwidth();
        }
    }
    let mut sum: u64 = 0;
    for bandwidth in held {
        sum = sum.wrapping_add(bandwidth);
    }
    sum
}

// The limit that a history leaves.
fn limit_of(entries: &Vec<Entry>) -> u64 {
    let mut now = 1048576;
    for entry in entries {
        if let Call::Limit { limit, word: _ } = &entry.call
            && let Some(Reply::Set) = &entry.reply
        {
            now = *limit;
        }
    }
    now
}

// Whether the one domain's word and cap are those that its history leaves, and all pieces came
// home.
fn are_kept(report: &Report) -> bool {
    let Some(history) = report.histories.first() else {
        return false;
    };
    let (sum, limit) = (sum_of(&history.entries), limit_of(&history.entries));
    report.home == 256 + 9
        && report.words.as_slice() == [sum].as_slice()
        && report.caps.as_slice() == [limit.wrapping_mul(4)].as_slice()
}

#[test]
fn limit_changes_while_clients_run(rt: HostRuntime) -> Result<(), Fail> {
    let parts = parts_on(rt.alloc(), vec![in rt.alloc(); 4]?, 1048576, 9, 1024)?;
    let report = change_in(&rt, rt.alloc(), parts)?;
    assert!(rt; are_kept(&report));
    Ok(())
}
