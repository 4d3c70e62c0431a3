//! The text of promises.

ghost use Rattle.std.specs.Prelude.{◌≤◌, map};
ghost use Rattle.draft.specs.Draft.{Adds};
ghost use Rattle.figure_text.specs.Promises as texts;

use crate::columns::{put_dash, put_number, put_pid, put_right, put_wide};
use deadline_promise::Promise;
use draft::Draft;

/// What is promised of one task, as it is written. Times are in microseconds.
#[derive(Clone, Copy)]
pub struct PromiseRow<'a> {
    /// The name of the task.
    pub name: &'a str,
    /// Its number.
    pub number: u32,
    /// The domain that admitted it, from 0; none if it was refused.
    pub domain: Option<usize>,
    /// The longest stretch of its work; none if the work never ends.
    pub work_max: Option<u128>,
    /// Its shortest timer or sleep; none if it has neither.
    pub gap_min: Option<u64>,
    /// That it is never late, or the first reason why that is not promised.
    pub promise: Promise,
}

/// A space, and a number at the right of a column, or a dash if there is none.
fn put_if_any(out: &mut Draft, width: usize, n: Option<u64>)
    requires { width ≤ 15 }
    ensures { Adds out.old out.new (texts.column_if_any width n) }
{
    match n {
        None => put_dash(out, width),
        Some(n) => put_number(out, width, n),
    }
}

/// The same of a number that may be greater.
fn put_wide_if_any(out: &mut Draft, width: usize, n: Option<u128>)
    requires { width ≤ 15 }
    ensures { Adds out.old out.new (texts.column_if_any width n) }
{
    match n {
        None => put_dash(out, width),
        Some(n) => put_wide(out, width, n),
    }
}

fn put_domain(out: &mut Draft, domain: Option<usize>)
    ensures { Adds out.old out.new (texts.column_if_any 3 domain) }
{
    match domain {
        None => put_dash(out, 3),
        Some(domain) => put_number(out, 3, domain as u64),
    }
}

fn put_who(out: &mut Draft, row: &PromiseRow<'_>)
    ensures { Adds out.old out.new (texts.who_columns (texts.promise_view_of row.now)) }
{
    put_right(out, 15, row.name.as_bytes());
    put_pid(out, row.number);
    put_domain(out, row.domain);
}

fn put_demand(out: &mut Draft, row: &PromiseRow<'_>)
    ensures { Adds out.old out.new (texts.demand_columns (texts.promise_view_of row.now)) }
{
    put_wide_if_any(out, 10, row.work_max);
    put_if_any(out, 10, row.gap_min);
}

fn put_promise(out: &mut Draft, promise: Promise)
    ensures { Adds out.old out.new (texts.promise_text promise) }
{
    match promise {
        Promise::NeverLate => out.put(b"never late"),
        Promise::Refused => out.put(b"refused"),
        Promise::SeveralCpus => out.put(b"several CPUs"),
        Promise::Reclaiming => out.put(b"reclaiming"),
        Promise::ShortDeadline => out.put(b"short deadline"),
        Promise::FullLimit => out.put(b"full limit"),
        Promise::OverBudget => out.put(b"over budget"),
        Promise::NearReleases => out.put(b"near releases"),
        Promise::MixedWaits => out.put(b"mixed waits"),
    }
}

fn put_row(out: &mut Draft, row: &PromiseRow<'_>)
    ensures { Adds out.old out.new (texts.promise_line (texts.promise_view_of row.now)) }
{
    put_who(out, row);
    put_demand(out, row);
    out.put(b" ");
    put_promise(out, row.promise);
    out.put(b"\n");
}

/// Puts what is promised of tasks at the end of a text: a header, and a line for each task, in
/// their order.
pub fn put_promises(out: &mut Draft, rows: &[PromiseRow<'_>])
    ensures { Adds out.old out.new (texts.promises_text (map texts.promise_view_of rows.now)) }
{
    out.put(b"#          task    pid dom   work_max    gap_min promise\n");
    for row in rows {
        put_row(out, row);
    }
}
