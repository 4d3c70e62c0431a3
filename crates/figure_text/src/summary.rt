//! The text of a summary.

ghost use Rattle.std.specs.Prelude.{◌<◌, ◌≤◌, ◌+◌, ◌^◌, All, map, length, decimal};
ghost use Rattle.draft.specs.Draft.{Adds};
ghost use Rattle.draft.specs.Columns.{right};
ghost use Rattle.figure_text.specs.Summary as texts;

use crate::columns::{
    put_dash, put_digits, put_number, put_pid, put_right, put_share, put_signed, put_wide,
};
use crate::names::name_of;
use draft::Draft;
use indexmap::IndexMap;
use itoa::Buffer;
use run_figures::{CpuFigures, Responses, TaskFigures};

/// The figures of one domain, as they are written.
#[derive(Clone, Copy)]
pub struct DomainSummary<'a> {
    /// The names of the tasks, by number.
    pub names: &'a IndexMap<u32, String>,
    /// The figures of each task, in the order in which they are written.
    pub tasks: &'a [TaskFigures],
    /// The figures of each CPU of the domain, from 0.
    pub cpus: &'a [CpuFigures],
    /// The sum of bandwidths at the end, in 1/2^20 of a CPU.
    pub bandwidth: u64,
    /// What the domain may give away together, in 1/2^20 of a CPU.
    pub cap: u64,
    /// The time at the end, in microseconds.
    pub time: u64,
}

// ---- the tasks

fn put_times(out: &mut Draft, responses: &Responses)
    ensures { Adds out.old out.new (texts.time_columns responses.now) }
{
    put_number(out, 10, responses.least);
    put_wide(out, 10, responses.mean);
    put_number(out, 10, responses.most);
}

fn put_known(out: &mut Draft, responses: &Responses)
    ensures { Adds out.old out.new (texts.known_columns responses.now) }
{
    put_times(out, responses);
    put_signed(out, 11, responses.slack);
}

fn put_none(out: &mut Draft)
    ensures { Adds out.old out.new texts.no_columns }
{
    put_dash(out, 10);
    put_dash(out, 10);
    put_dash(out, 10);
    put_dash(out, 11);
}

fn put_responses(out: &mut Draft, responses: Option<Responses>)
    ensures { Adds out.old out.new (texts.response_columns responses) }
{
    match responses {
        None => put_none(out),
        Some(responses) => put_known(out, &responses),
    }
}

fn put_jobs(out: &mut Draft, task: &TaskFigures)
    ensures { Adds out.old out.new (texts.job_columns task.now) }
{
    put_number(out, 7, task.jobs);
    put_number(out, 7, task.late);
    put_responses(out, task.responses);
}

fn put_counts(out: &mut Draft, task: &TaskFigures)
    ensures { Adds out.old out.new (texts.count_columns task.now) }
{
    put_number(out, 9, task.throttled);
    put_wide(out, 12, task.throttled_us);
    put_number(out, 9, task.preempted);
    put_number(out, 8, task.migrated);
}

fn put_shares(out: &mut Draft, task: &TaskFigures, time: u64)
    requires { task.now.cpu_us < 2 ^ 108 }
    ensures { Adds out.old out.new (texts.share_columns time task.now) }
{
    put_wide(out, 12, task.cpu_us);
    put_share(out, task.cpu_us, time);
    put_share(out, u128::from(task.runtime), task.period);
}

/// The columns of who it is, and in which domain.
fn put_task_name(out: &mut Draft, domain: usize, name: &[u8], number: u32)
    ensures { Adds out.old out.new (texts.name_columns domain name.now number) }
{
    put_right(out, 15, name);
    put_pid(out, number);
    put_number(out, 3, domain as u64);
}

fn put_task(out: &mut Draft, domain: usize, of: &DomainSummary<'_>, task: &TaskFigures)
    requires { task.now.cpu_us < 2 ^ 108 }
    ensures { Adds out.old out.new (texts.task_row domain (texts.summary_view_of of.now) task.now) }
{
    put_task_name(out, domain, name_of(of.names, task.number), task.number);
    put_jobs(out, task);
    put_counts(out, task);
    put_shares(out, task, of.time);
    out.put(b"\n");
}

/// The lines of a domain's tasks.
fn put_tasks_of(out: &mut Draft, domain: usize, of: &DomainSummary<'_>)
    requires { All (λ t. t.cpu_us < 2 ^ 108) of.now.tasks.now }
    ensures { Adds out.old out.new (texts.tasks_of domain (texts.summary_view_of of.now)) }
{
    for task in of.tasks {
        put_task(out, domain, of, task);
    }
}

fn put_tasks(out: &mut Draft, domains: &[DomainSummary<'_>])
    requires { All texts.IsShortSummary domains.now }
    ensures { Adds out.old out.new (texts.task_rows (map texts.summary_view_of domains.now)) }
{
    for (number, domain) in domains.iter().enumerate() {
        put_tasks_of(out, number, domain);
    }
}

// ---- the CPUs

fn put_cpu_name(out: &mut Draft, domain: usize, cpu: usize)
    ensures { Adds out.old out.new (texts.cpu_name domain cpu) }
{
    out.put(b"   ");
    put_digits(out, 3, cpu as u64);
    put_number(out, 3, domain as u64);
}

fn put_cpu(out: &mut Draft, domain: usize, time: u64, cpu: usize, figures: &CpuFigures)
    requires { figures.now.busy_us < 2 ^ 108 }
    ensures { Adds out.old out.new (texts.cpu_line domain time cpu figures.now) }
{
    put_cpu_name(out, domain, cpu);
    put_wide(out, 12, figures.busy_us);
    put_share(out, figures.busy_us, time);
    put_number(out, 9, figures.switches);
    out.put(b"\n");
}

/// The lines of a domain's CPUs, the first of which is this CPU of the machine.
fn put_cpus_of(out: &mut Draft, domain: usize, base: usize, of: &DomainSummary<'_>)
    requires short { All (λ c. c.busy_us < 2 ^ 108) of.now.cpus.now }
    requires few { base + length of.now.cpus.now < 2 ^ 64 }
    ensures { Adds out.old out.new (texts.cpu_rows domain base (texts.summary_view_of of.now)) }
{
    for (place, figures) in of.cpus.iter().enumerate() {
        put_cpu(out, domain, of.time, base + place, figures);
    }
}

fn put_cpus(out: &mut Draft, domains: &[DomainSummary<'_>])
    requires short { All texts.IsShortSummary domains.now }
    requires few { All texts.IsOfMachine domains.now }
    requires count { length domains.now ≤ 8 }
    ensures { Adds out.old out.new (texts.cpu_lines 0 0 (map texts.summary_view_of domains.now)) }
{
    let mut base = 0;
    for (number, domain) in domains.iter().enumerate() {
        put_cpus_of(out, number, base, domain);
        base += domain.cpus.len();
    }
}

// ---- the domains

/// A number at the right of a first column.
fn put_first(out: &mut Draft, n: usize)
    ensures { Adds out.old out.new (right 7 (decimal n)) }
{
    let mut buffer = Buffer::new();
    put_right(out, 7, buffer.format(n).as_bytes());
}

fn put_bandwidth(out: &mut Draft, domain: &DomainSummary<'_>)
    ensures { Adds out.old out.new (texts.bandwidth_columns (texts.summary_view_of domain.now)) }
{
    put_number(out, 10, domain.bandwidth);
    put_number(out, 10, domain.cap);
    put_share(out, u128::from(domain.bandwidth), domain.cap);
}

fn put_domain(out: &mut Draft, number: usize, domain: &DomainSummary<'_>)
    ensures { Adds out.old out.new (texts.domain_row number (texts.summary_view_of domain.now)) }
{
    put_first(out, number);
    put_number(out, 4, domain.cpus.len() as u64);
    put_bandwidth(out, domain);
    put_number(out, 12, domain.time);
    out.put(b"\n");
}

fn put_domains(out: &mut Draft, domains: &[DomainSummary<'_>])
    ensures { Adds out.old out.new (texts.domain_rows (map texts.summary_view_of domains.now)) }
{
    for (number, domain) in domains.iter().enumerate() {
        put_domain(out, number, domain);
    }
}

/// Puts the summary of 1 to 8 domains of a machine after a text: a table of their tasks, one of the
/// CPUs of the machine, counted through, and one of the domains. Times are in microseconds, shares
/// in hundredths of a per cent, rounded down.
pub fn put_summary(out: &mut Draft, domains: &[DomainSummary<'_>])
    requires short { All texts.IsShortSummary domains.now }
    requires machine { All texts.IsOfMachine domains.now }
    requires few { length domains.now ≤ 8 }
    ensures { Adds out.old out.new (texts.summary_text (map texts.summary_view_of domains.now)) }
{
    out.put(
        b"#          task    pid dom    jobs    late   resp_min   resp_avg   resp_max   slack_min throttled throttled_us preempted migrated       cpu_us   used%    has%\n",
    );
    put_tasks(out, domains);
    out.put(b"#  cpu dom      busy_us   busy%  switches\n");
    put_cpus(out, domains);
    out.put(b"#domain cpus  bandwidth        cap  taken%      time_us\n");
    put_domains(out, domains);
}
