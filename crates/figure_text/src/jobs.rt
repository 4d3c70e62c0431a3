//! The text of jobs, which goes out while it is made.

ghost use Rattle.std.specs.Prelude.{◌≡◌, ◌-◌, ◌*◌, ◌<◌, ◌≤◌, ◌^◌, [], length, map, is_ok, All, IsTrue, IfErr, OnErr, OnOk};
ghost use Rattle.std.specs.Bool.{OnTrue};
ghost use Rattle.std.specs.List.{sum_by};
ghost use Rattle.std.specs.Io.KnownBytes.{Appends};
ghost use Rattle.counted_io.specs.Sides.{inner_of, faults_of};
ghost use Rattle.counted_io.specs.Faults.{one_more_unless, TakesFront};
ghost use Rattle.draft.specs.Columns.{right};
ghost use Rattle.run_figures.specs.Lines.{numbered_lines};
ghost use Rattle.figure_text.specs.Jobs.{job_line, task_job_lines, domain_job_lines, jobs_text, jobs_view_of};
ghost use Rattle.figure_text.specs.Countable.{count_of_jobs, HasShortNames};
ghost use Rattle.switch_text.specs.Names.{name_of_task};
ghost use Rattle.figure_text.specs.private.Outgoing.{Puts, Stops};

use crate::line::{after_name, spaces};
use crate::names::name_of;
use crate::outgoing::{Outgoing, Stopped};
use counted_io::Counted;
use indexmap::IndexMap;
use run_figures::{Job, KeptJobs};
use std::io::Write;
use switch_text::WriteFault;

/// A name has at least this width.
const NAME_WIDTH: usize = 15;

/// How many bytes the header has.
const HEADER_LEN: u64 = 88;

/// How many bytes a line has at most beside the name.
const REST_OF_LINE: u64 = 256;

/// The jobs of one domain, as they are written.
#[derive(Clone, Copy)]
pub struct DomainJobs<'a> {
    /// The names of the tasks, by number.
    pub names: &'a IndexMap<u32, String>,
    /// The jobs of each task, in the order in which they are written.
    pub tasks: &'a [KeptJobs],
}

/// A name at the right of its column.
fn put_name<W: Write>(
    out: &mut Outgoing,
    name: &[u8],
    writer: &mut Counted<W>,
) -> Result<(), Stopped>
    requires faults { faults_of writer.old < 2 ^ 63 }
    ensures ok { OnOk result (Puts
        (W.contents (inner_of writer.old)) (W.contents (inner_of writer.new))
        out.old out.new (right 15 name.now)) }
    ensures err { OnErr result (Stops
        (W.contents (inner_of writer.old)) (W.contents (inner_of writer.new))
        out.old out.new (right 15 name.now)) }
    ensures faults { faults_of writer.new ≡ one_more_unless (is_ok result) (faults_of writer.old) }
{
    out.put(spaces(NAME_WIDTH.saturating_sub(name.len())), writer)?;
    out.put(name, writer)
}

/// The line of a job.
fn put_job<W: Write>(
    out: &mut Outgoing,
    name: &[u8],
    number: u32,
    place: u64,
    job: &Job,
    writer: &mut Counted<W>,
) -> Result<(), Stopped>
    requires faults { faults_of writer.old < 2 ^ 63 }
    ensures ok { OnOk result (Puts
        (W.contents (inner_of writer.old)) (W.contents (inner_of writer.new))
        out.old out.new (job_line name.now number place job.now)) }
    ensures err { OnErr result (Stops
        (W.contents (inner_of writer.old)) (W.contents (inner_of writer.new))
        out.old out.new (job_line name.now number place job.now)) }
    ensures faults { faults_of writer.new ≡ one_more_unless (is_ok result) (faults_of writer.old) }
{
    put_name(out, name, writer)?;
    out.put(after_name(number, place, job).as_slice(), writer)
}

/// The lines of a task's jobs.
fn put_task<W: Write>(
    out: &mut Outgoing,
    name: &[u8],
    task: &KeptJobs,
    writer: &mut Counted<W>,
) -> Result<(), Stopped>
    requires faults { faults_of writer.old < 2 ^ 63 }
    ensures ok { OnOk result (Puts
        (W.contents (inner_of writer.old)) (W.contents (inner_of writer.new))
        out.old out.new (numbered_lines (job_line name.now task.now.number) 0 task.now.jobs)) }
    ensures err { OnErr result (Stops
        (W.contents (inner_of writer.old)) (W.contents (inner_of writer.new))
        out.old out.new (numbered_lines (job_line name.now task.now.number) 0 task.now.jobs)) }
    ensures faults { faults_of writer.new ≡ one_more_unless (is_ok result) (faults_of writer.old) }
{
    let number = task.number();
    let mut jobs = task.left();
    let mut place = 0;
    'jobs: while let Some(job) = jobs.next() {
        put_job(out, name, number, place, &job, writer)?;
        place += 1;
    }
    Ok(())
}

/// The lines of a domain's jobs.
fn put_domain<W: Write>(
    out: &mut Outgoing,
    domain: &DomainJobs<'_>,
    writer: &mut Counted<W>,
) -> Result<(), Stopped>
    requires faults { faults_of writer.old < 2 ^ 63 }
    ensures ok { OnOk result (Puts
        (W.contents (inner_of writer.old)) (W.contents (inner_of writer.new))
        out.old out.new (domain_job_lines (jobs_view_of domain.now))) }
    ensures err { OnErr result (Stops
        (W.contents (inner_of writer.old)) (W.contents (inner_of writer.new))
        out.old out.new (domain_job_lines (jobs_view_of domain.now))) }
    ensures faults { faults_of writer.new ≡ one_more_unless (is_ok result) (faults_of writer.old) }
{
    'tasks: for task in domain.tasks {
        put_task(out, name_of(domain.names, task.number()), task, writer)?;
    }
    Ok(())
}

/// The whole text; in the end nothing waits.
fn put_all<W: Write>(
    out: &mut Outgoing,
    domains: &[DomainJobs<'_>],
    writer: &mut Counted<W>,
) -> Result<(), Stopped>
    requires faults { faults_of writer.old < 2 ^ 63 }
    ensures ok { OnOk result (Puts
        (W.contents (inner_of writer.old)) (W.contents (inner_of writer.new))
        out.old out.new (jobs_text (map jobs_view_of domains.now))) }
    ensures emptied { OnOk result (out.new.waiting ≡ []) }
    ensures err { OnErr result (Stops
        (W.contents (inner_of writer.old)) (W.contents (inner_of writer.new))
        out.old out.new (jobs_text (map jobs_view_of domains.now))) }
    ensures faults { faults_of writer.new ≡ one_more_unless (is_ok result) (faults_of writer.old) }
{
    out.put(
        b"#          task    pid    job     release         end    response       slack throttled\n",
        writer,
    )?;
    'domains: for domain in domains {
        put_domain(out, domain, writer)?;
    }
    out.flush(writer)
}

/// How many bytes the lines of a task have at most; the greatest number stands for any above it.
fn most_of_task(names: &IndexMap<u32, String>, task: &KeptJobs) -> u64
    ensures most { result < 2 ^ 64 - 1
        → length (task_job_lines (name_of_task names.now) task.now) ≤ result }
    ensures usual { length (name_of_task names.now task.now.number) ≤ 256
        → result ≤ 512 * length task.now.jobs }
{
    let name = name_of(names, task.number());
    task.count()
        .saturating_mul(REST_OF_LINE.saturating_add(name.len() as u64))
}

/// The same of a domain.
fn most_of_domain(domain: &DomainJobs<'_>) -> u64
    ensures most { result < 2 ^ 64 - 1
        → length (domain_job_lines (jobs_view_of domain.now)) ≤ result }
    ensures usual { HasShortNames (jobs_view_of domain.now)
        → result ≤ 512 * count_of_jobs (jobs_view_of domain.now) }
{
    let mut most: u64 = 0;
    'tasks: for task in domain.tasks {
        most = most.saturating_add(most_of_task(domain.names, task));
    }
    most
}

/// Whether the text of the jobs is certain to have fewer than 2^64 bytes, as [`write_jobs`]
/// requires. If no name has more than 256 bytes, it is for up to 2^54 jobs.
pub fn is_countable(domains: &[DomainJobs<'_>]) -> bool
    ensures countable { OnTrue result (length (jobs_text (map jobs_view_of domains.now)) < 2 ^ 64) }
    ensures usual { All (λ d. HasShortNames (jobs_view_of d)) domains.now
        → sum_by (λ d. count_of_jobs (jobs_view_of d)) domains.now ≤ 2 ^ 54 → IsTrue result }
{
    let mut most: u64 = HEADER_LEN;
    'domains: for domain in domains {
        most = most.saturating_add(most_of_domain(domain));
    }
    most < u64::MAX
}

/// Writes the jobs of all domains: a header, and a line for each job, by domain, by task, and in
/// their order. Takes no memory: up to 64 KiB wait in a fixed buffer, which goes out in one write
/// when it is full.
///
/// # Errors
/// The writer's first fault ends the call. [`WriteFault::written`] is exactly the number of bytes
/// that the writer took; they are the front of the text, and not all of it.
pub fn write_jobs<W: Write>(
    domains: &[DomainJobs<'_>],
    writer: &mut Counted<W>,
) -> Result<(), WriteFault>
    requires countable { length (jobs_text (map jobs_view_of domains.now)) < 2 ^ 64 }
    requires faults { faults_of writer.old < 2 ^ 63 }
    ensures ok { OnOk result (Appends
        (W.contents (inner_of writer.old)) (W.contents (inner_of writer.new))
        (jobs_text (map jobs_view_of domains.now))) }
    ensures err { IfErr result (λ f. TakesFront
        (W.contents (inner_of writer.old)) (W.contents (inner_of writer.new))
        (jobs_text (map jobs_view_of domains.now)) f.written) }
    ensures faults { faults_of writer.new ≡ one_more_unless (is_ok result) (faults_of writer.old) }
{
    let mut out = Outgoing::new();
    match put_all(&mut out, domains, writer) {
        Ok(()) => Ok(()),
        Err(_) => Err(WriteFault {
            written: out.written(),
        }),
    }
}
