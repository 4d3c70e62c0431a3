//! The admissions of a scenario, with the faults of a run.

ghost use Rattle.std.specs.Prelude.{◌<◌, length, IfOk, IfErr};
ghost use Rattle.session.specs.Admissions.{AllAsked};
ghost use Rattle.dl_session.specs.Upward.{IsUnasked};

use crate::fault::SessionFault;
use rtapp_scenario::TaskSpec;
use session::{Client, Names, Refusal, Session, Turnstile};
use std::alloc::Global;
use std::sync::Wait;
use std::thread::Threads;

/// Lets the clients admit a scenario's tasks, as [`session::admit_all`] does: each client in a
/// thread of its own, with the turnstile round each admission. The clients come back at their
/// places, with who was refused, in the order of tasks.
///
/// # Errors
/// [`SessionFault::Memory`] where a growth was refused: nothing was asked for.
/// [`SessionFault::Start`] where the system started no thread for a client: those that were started
/// have ended, and what the books list stays there. The clients are gone.
pub fn admit_all<N: Names + Send + Sync, T: Turnstile, R: Threads + Wait + Sync>(
    rt: &R,
    alloc: Global,
    session: &Session<N>,
    clients: Vec<Client<N>>,
    tasks: &[TaskSpec],
    turnstile: &T,
) -> Result<(Vec<Client<N>>, Vec<(u32, Refusal)>), SessionFault>
    requires some { 0 < length clients.items }
    ensures ok { IfOk result (λ r. AllAsked N.id tasks.now clients.items r.0.items r.1.items) }
    ensures err { IfErr result IsUnasked }
{
    Ok(session::admit_all(rt, alloc, session, clients, tasks, turnstile)?)
}
