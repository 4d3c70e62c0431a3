//! A job as a few numbers.

ghost use Rattle.std.specs.Prelude.{◌≡◌, ◌+◌, ◌<◌, ◌≤◌, ◌^◌, ◌++◌, ◌∷◌, [], length, IfSome};
ghost use Rattle.std.specs.Option.{option_map, option_to_list};
ghost use Rattle.run_figures.specs.WideJobs.{IsWide};
ghost use Rattle.run_figures.specs.private.JobCodes as codes;

use crate::job::Job;
use packed_numbers::NumbersLeft;
use std::marker::Model;

/// Marks a job that a call ended.
const CUT: u64 = 1;

/// Marks a job that ended.
const ENDED: u64 = 2;

/// Marks a job of which the deadline lies otherwise after the release than of the job before.
const OTHER_SPAN: u64 = 4;

/// Marks a job during which its task was throttled.
const THROTTLED: u64 = 8;

/// A code has at most this many numbers.
const MOST: usize = 5;

/// What the code of a job takes from the job before it.
#[derive(Clone, Copy)]
pub(crate) struct Before {
    /// When it was released.
    pub(crate) release: u64,
    /// From its release to its deadline.
    pub(crate) span: u64,
}

/// What the code of a job says of it. Distances go around at 2^64.
#[derive(Clone, Copy)]
pub(crate) struct Parts {
    /// Whether a call ended it.
    cut: bool,
    /// From the release of the job before to its own.
    step: u64,
    /// From its release to its deadline, unless that is as for the job before.
    span: Option<u64>,
    /// From its release to its end, if it ended.
    took: Option<u64>,
    /// How often its task was throttled, if it was.
    throttled: Option<u64>,
}

/// The numbers of a code.
#[derive(Drop)]
pub(crate) struct Code {
    numbers: [u64; MOST],
    len: usize,
}

impl Model for Code {
    ghost use Rattle.std.specs.Prelude.{ℕ, List, take, ◌≤◌};

    ghost Value = { List ℕ };

    ghost view = { λ c. take c.len c.numbers };

    ghost invariant = { λ c. c.len ≤ 5 };
}

impl Code {
    fn new() -> Code
        ensures { result ≡ [] }
    {
        Code {
            numbers: [0; MOST],
            len: 0,
        }
    }

    fn push(&mut self, number: u64)
        requires { length self.old < 5 }
        ensures value { self.new ≡ self.old ++ number ∷ [] }
        ensures more { length self.new ≤ length self.old + 1 }
    {
        self.numbers[self.len] = number;
        self.len += 1;
    }

    /// Adds the number if there is one.
    fn push_some(&mut self, number: Option<u64>)
        requires { length self.old < 5 }
        ensures value { self.new ≡ self.old ++ option_to_list number }
        ensures more { length self.new ≤ length self.old + 1 }
    {
        if let Some(number) = number {
            self.push(number);
        }
    }

    pub(crate) fn as_slice(&self) -> &[u64]
        ensures value { result.now ≡ self.now }
        ensures few { length result.now ≤ 5 }
    {
        &self.numbers[..self.len]
    }
}

/// Before the first job.
pub(crate) fn no_job() -> Before
    ensures { result ≡ codes.no_job }
{
    Before {
        release: 0,
        span: 0,
    }
}

/// What the code of the job after this one takes from it.
pub(crate) fn before_of(job: &Job) -> Before
    ensures { result ≡ codes.before_of job.now }
{
    Before {
        release: job.release,
        span: distance(job.release, job.deadline),
    }
}

/// From one time to another, around at 2^64.
fn distance(from: u64, to: u64) -> u64
    ensures value { result ≡ codes.wrapped_distance from to }
    ensures wide { to < 2 ^ 64 }
{
    to.wrapping_sub(from)
}

/// A number, unless it is the usual one.
fn unless_same(usual: u64, number: u64) -> Option<u64>
    ensures { result ≡ codes.unless_same usual number }
{
    if number == usual {
        return None;
    }
    Some(number)
}

/// From a release to an end.
fn took(release: u64, ended: Option<u64>) -> Option<u64>
    ensures value { result ≡ option_map (codes.wrapped_distance release) ended }
    ensures wide { IfSome ended (λ end. end < 2 ^ 64) }
{
    match ended {
        None => None,
        Some(end) => Some(distance(release, end)),
    }
}

/// What the code of a job says of it, after that of the job before it.
pub(crate) fn parts_of(before: Before, job: &Job) -> Parts
    ensures parts { result ≡ codes.parts_of before job.now }
    ensures wide { IsWide job.now }
{
    Parts {
        cut: job.cut,
        step: distance(before.release, job.release),
        span: unless_same(before.span, distance(job.release, job.deadline)),
        took: took(job.release, job.ended),
        throttled: unless_same(0, job.throttled),
    }
}

/// A mark, if the job is marked by it.
fn mark_if(marked: bool, mark: u64) -> u64
    ensures value { result ≡ codes.mark_if marked mark }
    ensures most { result ≤ mark }
{
    if marked { mark } else { 0 }
}

fn marks_of(parts: &Parts) -> u64
    ensures { result ≡ codes.marks_of parts.now }
{
    mark_if(parts.cut, CUT)
        + mark_if(parts.took.is_some(), ENDED)
        + mark_if(parts.span.is_some(), OTHER_SPAN)
        + mark_if(parts.throttled.is_some(), THROTTLED)
}

/// The code of a job.
pub(crate) fn code_of(parts: &Parts) -> Code
    ensures { result ≡ codes.code_of parts.now }
{
    let mut code = Code::new();
    code.push(marks_of(parts));
    code.push(parts.step);
    code.push_some(parts.span);
    code.push_some(parts.took);
    code.push_some(parts.throttled);
    code
}

fn is_marked(mark: u64, marks: u64) -> bool
    requires { 0 < mark }
    ensures { result ≡ codes.is_marked mark marks }
{
    marks / mark % 2 == 1
}

/// The next number.
fn next_number(numbers: &mut NumbersLeft<'_>) -> u64
    ensures value { result ≡ codes.number_read numbers.old }
    ensures left { numbers.new ≡ codes.after_step numbers.old }
{
    match numbers.next() {
        Some(number) => number,
        None => 0,
    }
}

/// The next number, if the marks announce it.
fn next_if(numbers: &mut NumbersLeft<'_>, marked: bool) -> Option<u64>
    ensures value { result ≡ codes.read_if marked numbers.old }
    ensures left { numbers.new ≡ codes.rest_if marked numbers.old }
{
    if !marked {
        return None;
    }
    numbers.next()
}

/// What a code says after its marks.
fn read_parts(marks: u64, numbers: &mut NumbersLeft<'_>) -> Parts
    ensures parts { result ≡ codes.parts_read marks numbers.old }
    ensures left { numbers.new ≡ codes.after_code marks numbers.old }
{
    let step = next_number(numbers);
    let span = next_if(numbers, is_marked(OTHER_SPAN, marks));
    let took = next_if(numbers, is_marked(ENDED, marks));
    let throttled = next_if(numbers, is_marked(THROTTLED, marks));
    Parts {
        cut: is_marked(CUT, marks),
        step,
        span,
        took,
        throttled,
    }
}

/// The time at a distance from another one, around at 2^64.
fn beyond(from: u64, distance: u64) -> u64
    ensures { result ≡ codes.wrapped_by from distance }
{
    from.wrapping_add(distance)
}

fn or_usual(usual: u64, number: Option<u64>) -> u64
    ensures { result ≡ codes.or_usual usual number }
{
    match number {
        Some(number) => number,
        None => usual,
    }
}

/// The job of which a code says this.
fn job_of(before: Before, parts: &Parts) -> Job
    ensures { result ≡ codes.job_by before parts.now }
{
    let release = beyond(before.release, parts.step);
    Job {
        release,
        deadline: beyond(release, or_usual(before.span, parts.span)),
        ended: match parts.took {
            Some(took) => Some(beyond(release, took)),
            None => None,
        },
        throttled: or_usual(0, parts.throttled),
        cut: parts.cut,
    }
}

/// The job of a code, of which the marks were read.
pub(crate) fn read_job(before: Before, marks: u64, numbers: &mut NumbersLeft<'_>) -> Job
    ensures job { result ≡ codes.job_read before marks numbers.old }
    ensures left { numbers.new ≡ codes.after_code marks numbers.old }
{
    let parts = read_parts(marks, numbers);
    job_of(before, &parts)
}
