//! A listed task as it is charged up to now.

ghost use Rattle.std.specs.Prelude.{◌≡◌, ◌<◌};
ghost use Rattle.task_script.specs.script.ScriptView.{round_len};
ghost use Rattle.domain_run.specs.Marks.{marked, IsTaskSeen};
ghost use Rattle.domain_run.specs.Views.{view_of};
ghost use Rattle.domain_run.specs.private.Owed as spec;

use super::applying::left_after_run;
use crate::mark::{TaskMark, TaskSeen};
use crate::running::Running;
use crate::task::{Task, TaskView};
use cbs_rules::Server;
use due_times::OpenCharges;
use task_script::Script;

/// What is left of a task's budget, in 1/2^20 us, and of its work, in microseconds.
#[derive(Clone, Copy)]
struct Balance {
    left: i128,
    work: u64,
}

/// What is left once what a task owes is charged.
fn balance_of(task: &Task, charges: &OpenCharges) -> Balance
    requires { spec.IsOpenIf charges.now.charges task.now }
    ensures left { result.left ≡ (spec.owed charges.now.upto charges.now.charges
        task.now).server.left }
    ensures work { result.work ≡ (spec.owed charges.now.upto charges.now.charges task.now).work }
{
    match charges.charge_of(task.cpu, task.number) {
        None => Balance {
            left: task.server.left,
            work: task.work,
        },
        Some(open_charge) => {
            let ticks = charges.upto() - open_charge.since;
            Balance {
                left: left_after_run(task.server.left, open_charge.rate, ticks),
                work: task.work - ticks,
            }
        }
    }
}

/// What a caller may see of a task.
pub(super) fn view_at(task: &Task, charges: &OpenCharges) -> TaskView
    requires { spec.IsOpenIf charges.now.charges task.now }
    ensures { result ≡ view_of (spec.owed charges.now.upto charges.now.charges task.now) }
{
    let balance = balance_of(task, charges);
    TaskView {
        server: Server {
            deadline: task.server.deadline,
            left: balance.left,
        },
        condition: task.condition,
        zero_lag: task.zero_lag,
        cpu: task.cpu,
        params: task.params,
    }
}

/// A task as a jump sees it, where its CPU has so much inactive bandwidth.
pub(super) fn runner_at(task: &Task, charges: &OpenCharges, uinact: u64) -> Running
    requires { spec.IsOpenIf charges.now.charges task.now }
    ensures { result ≡ spec.runner_of uinact
        (spec.owed charges.now.upto charges.now.charges task.now) }
{
    let balance = balance_of(task, charges);
    Running {
        number: task.number,
        params: task.params,
        uinact,
        left: balance.left,
        work: balance.work,
    }
}

// The number of rounds of a script; none if it has no end.
fn rounds_of(script: &Script) -> Option<u64>
    ensures { result ≡ script.now.rounds }
{
    match script.rounds() {
        None => None,
        Some(rounds) => Some(u64::from(rounds)),
    }
}

// A task's mark, with this balance.
fn mark_of(task: &Task, balance: Balance) -> TaskMark
    ensures mark { marked result task.now ≡ record task.now {
      server = record task.now.server { left = balance.left };
      work = balance.work;
    } }
    ensures step { result.step < round_len task.now.cursor.script }
{
    let place = task.cursor.place();
    TaskMark {
        cpu: task.cpu,
        condition: task.condition,
        work: balance.work,
        zero_lag: task.zero_lag,
        server: Server {
            deadline: task.server.deadline,
            left: balance.left,
        },
        round: place.round,
        step: place.step,
        reference: task.cursor.reference(),
    }
}

/// What a caller may see of a task, to compare it at another time.
pub(super) fn task_seen_at(task: &Task, charges: &OpenCharges) -> TaskSeen
    requires { spec.IsOpenIf charges.now.charges task.now }
    ensures { IsTaskSeen result (spec.owed charges.now.upto charges.now.charges task.now) }
{
    let script = task.cursor.script();
    TaskSeen {
        number: task.number,
        mark: mark_of(task, balance_of(task, charges)),
        rounds: rounds_of(script),
        is_timed: script.has_timer(),
    }
}
