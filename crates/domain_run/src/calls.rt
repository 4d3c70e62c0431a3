//! What the calls do to one task.

ghost use Rattle.std.specs.Prelude.{◌≡◌, ◌<◌, ◌+◌, ℕ};
ghost use Rattle.domain_run.specs.Calls as calls;
ghost use Rattle.domain_run.specs.Domain.{Domain};
ghost use Rattle.domain_run.specs.Sound.{IsSound};
ghost use Rattle.domain_run.specs.private.TaskTable.{quit};

use crate::parts::stop;
use crate::task::{Condition, Task};
use attr_check::Params;
use cbs_rules::Server;
use task_script::{Name, Script};

/// A task that is admitted at a time: blocked until its start, without deadline and budget.
pub(crate) fn new_task(
    number: u32,
    name: Name,
    params: Params,
    start: u64,
    script: Script,
    cpus: usize,
) -> Task
    requires some { 0 < cpus }
    ensures { (d : Domain) (delay : ℕ) → d.cpus ≡ cpus → d.time + delay ≡ start
        → result ≡ calls.new_task d number name params delay script }
{
    Task {
        number,
        name,
        params,
        server: Server {
            deadline: None,
            left: 0,
        },
        zero_lag: None,
        cpu: number as usize % cpus,
        condition: Condition::Blocked(start),
        work: 0,
        cursor: script.cursor(start),
    }
}

/// A regrade: new parameters.
pub(crate) fn regrade(task: &mut Task, params: &Params)
    ensures { task.new ≡ calls.with_new_params params.now task.old }
{
    task.params = *params;
}

/// A wake: it asks its script in the next tick.
pub(crate) fn release(task: &mut Task, time: u64)
    ensures { task.new ≡ calls.blocked_until time task.old }
{
    task.condition = Condition::Blocked(time);
}

/// The end of a task: where it contends, its zero-lag time counts from now.
pub(crate) fn end(task: &mut Task, time: u64)
    requires { IsSound time task.old }
    ensures task { task.new ≡ calls.ended_at time task.old }
    ensures sound { IsSound time task.new }
{
    if task.condition.is_contending() {
        stop(task, Condition::Leaving, time);
    } else {
        task.condition = Condition::Leaving;
    }
}

/// A task that goes to another domain: it is as one that has left and is due to go off the list.
pub(crate) fn depart(task: &mut Task)
    ensures { task.new ≡ quit task.old }
{
    task.condition = Condition::Leaving;
    task.zero_lag = None;
}
