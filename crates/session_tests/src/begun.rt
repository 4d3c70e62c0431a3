//! What a session, a run or its test begins with.
ghost use Rattle.std.specs.Prelude.{◌<◌, ◌≤◌, length, All};
ghost use Rattle.domain_run.specs.Domain.{IsCpus};
ghost use Rattle.run_options.specs.Options.{AreOptions};

use call_book::NoMemory;
use json_order::read;
use rtapp_scenario::{TaskSpec, parse};
use session::{Client, Names, Options, Parts, Print, Session};
use std::alloc::Global;
use std::test::Fail;

/// A run on domains of these CPUs, with one worker, whose trace is written.
pub(crate) fn options_on(domains: Vec<u32>, limit: u64, clients: u32, history: usize) -> Options
    requires some { (0 < length domains.items) × (length domains.items ≤ 8) }
    requires cpus { All IsCpus domains.items }
    requires limit { (10485 ≤ limit) × (limit ≤ 1048576) }
    requires clients { (0 < clients) × (clients ≤ 64) }
    requires history { (0 < history) × (history ≤ 65536) }
    ensures { AreOptions result }
{
    Options {
        domains,
        limit,
        clients,
        workers: 1,
        history,
        reclaim: false,
        print: Print::Trace,
    }
}

/// The parts of a session on such domains.
pub(crate) fn parts_on(
    alloc: Global,
    domains: Vec<u32>,
    limit: u64,
    clients: u32,
    history: usize,
) -> Result<Parts, NoMemory>
    requires some { (0 < length domains.items) × (length domains.items ≤ 8) }
    requires cpus { All IsCpus domains.items }
    requires limit { (10485 ≤ limit) × (limit ≤ 1048576) }
    requires clients { (0 < clients) × (clients ≤ 64) }
    requires history { (0 < history) × (history ≤ 65536) }
{
    Parts::open(alloc, &options_on(domains, limit, clients, history))
}

/// The clients of a session, from the first on, so many.
pub(crate) fn clients_of<N: Names>(
    alloc: Global,
    session: &mut Session<N>,
    many: u32,
) -> Vec<Client<N>> {
    let mut clients = Vec::new(alloc);
    for before in 0..many {
        if let Some(client) = session.client(before + 1) {
            let _ = clients.push(client);
        }
    }
    clients
}

/// The tasks of a scenario.
pub(crate) fn tasks_of(alloc: Global, text: &[u8]) -> Result<Vec<TaskSpec>, Fail> {
    let tree = read(alloc, text)?;
    Ok(parse(alloc, &tree)?.tasks)
}
