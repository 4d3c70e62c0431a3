//! The admissions of a run: a session whose clients have asked for all tasks.

ghost use Rattle.std.specs.Prelude.{◌≡◌, ◌<◌, ◌≤◌, length, replicate, true, IfOk, IfErr};
ghost use Rattle.session.specs.Admissions.{AreNew};
ghost use Rattle.dl_session.specs.Upward.{IsUnasked};
ghost use Rattle.dl_session.specs.private.Asked.{HaveAsked};

use crate::admitting::admit_all;
use crate::fault::SessionFault;
use call_book::NoMemory;
use rtapp_scenario::TaskSpec;
use session::{Client, Names, Parts, Refusal, Session, Turnstile};
use std::alloc::Global;
use std::sync::Wait;
use std::thread::Threads;

/// A session whose clients have asked for all tasks. Like the session it is neither cloned nor
/// dropped.
pub(crate) struct Asked<'t, N: Names> {
    pub(crate) session: Session<N>,
    pub(crate) clients: Vec<Client<N>>,
    /// The tasks that they asked for.
    pub(crate) tasks: &'t [TaskSpec],
    /// Those that were refused, by number.
    pub(crate) refused: Vec<(u32, Refusal)>,
    ghost some: { 0 < length N.id.cpu_sets },
    ghost few: { length N.id.cpu_sets ≤ 8 },
}

/// The clients of a session, as they wait.
fn take_clients<N: Names>(
    alloc: Global,
    session: &mut Session<N>,
    many: u32,
) -> Result<Vec<Client<N>>, NoMemory>
    requires many { many ≡ N.id.clients }
    requires waiting { session.old ≡ replicate N.id.clients true }
    ensures { IfOk result (λ v. AreNew N.id v.items) }
{
    let mut clients = Vec::with_capacity(alloc, many as usize)?;
    for place in 0..many {
        if let Some(client) = session.client(place + 1) {
            clients.push_reserved(client);
        }
    }
    Ok(clients)
}

/// Opens a session of these parts, and lets its clients admit the tasks.
pub(crate) fn ask_in<'t, N: Names + Send + Sync, T: Turnstile, X: Threads + Wait + Sync>(
    rt: &X,
    alloc: Global,
    parts: Parts,
    many: u32,
    tasks: &'t [TaskSpec],
    turnstile: &T,
) -> Result<Asked<'t, N>, SessionFault>
    requires parts { N.id ≡ parts }
    requires many { many ≡ parts.clients }
    requires some { 0 < many }
    ensures ok { IfOk result (λ a. HaveAsked N.id tasks.now a.clients.items a.refused.items) }
    ensures tasks { IfOk result (λ a. a.tasks.now ≡ tasks.now) }
    ensures err { IfErr result IsUnasked }
{
    let mut session: Session<N> = Session::open(parts);
    // For the prover alone: how many domains there may be.
    let _ = session.domains();
    let Ok(clients) = take_clients(alloc, &mut session, many) else {
        session.shut(alloc);
        return Err(SessionFault::Memory);
    };
    match admit_all(rt, alloc, &session, clients, tasks, turnstile) {
        Ok((clients, refused)) => Ok(Asked {
            session,
            clients,
            tasks,
            refused,
        }),
        Err(fault) => {
            session.shut(alloc);
            Err(fault)
        }
    }
}
