//! The text of a report.

ghost use Rattle.std.specs.Prelude.{◌≡◌, IfOk, sum_by};
ghost use Rattle.std.specs.Option.{option_map};
ghost use Rattle.std.specs.List.{flat_map};
ghost use Rattle.compare_report.specs.Table.{row_line};
ghost use Rattle.draft.specs.Draft.{Adds};
ghost use Rattle.compare_report.specs.First.{IsFirstStart};
ghost use Rattle.compare_report.specs.Text.{shift_told, shift_shown, cpus_told, differences_told, report_text, other_told, missing_starts, other_starts, missing_at, other_at, IsTextOf};

use crate::differing::{put_missing, put_no_difference, put_other};
use crate::finding::{Finding, Missing};
use crate::first::earliest;
use crate::line::{Place, Shift};
use crate::tally::{Tally, put_total};
use crate::writing::{put_cpus, put_header, put_row, put_shift};
use draft::{Draft, NoMemory};
use std::alloc::{AllocError, Global};
use trace_compare::ClockShift;

/// By how much the recording's clock is ahead, or behind.
fn shift_of(shift: ClockShift) -> Shift
    ensures { result ≡ shift_told shift }
{
    Shift {
        behind: shift.ahead < shift.behind,
        us: shift.ahead.abs_diff(shift.behind),
    }
}

/// Puts the line of the shift behind a text, if a run matched under it.
fn put_found_shift(out: &mut Draft, shift: ClockShift, tally: Tally)
    ensures { Adds out.old out.new (shift_shown shift tally) }
{
    if tally.matched > 0 {
        put_shift(out, shift_of(shift));
    }
}

/// Puts the rows of tasks behind a text.
fn put_rows(alloc: Global, out: &mut Draft, findings: &[Finding<'_>])
    ensures { Adds out.old out.new (flat_map (λ f. row_line f.row) findings.now) }
{
    for finding in findings {
        put_row(alloc, out, &finding.row);
    }
}

/// How many matched runs of all tasks were on the same CPU.
fn same_of(findings: &[Finding<'_>]) -> u128
    ensures { result ≡ sum_by (λ f. f.same_cpu) findings.now }
{
    let mut total: u128 = 0;
    for finding in findings {
        total += u128::from(finding.same_cpu);
    }
    total
}

/// Puts the line on CPUs behind a text, where it is asked for.
fn put_asked_cpus(out: &mut Draft, cpus: bool, tally: Tally, findings: &[Finding<'_>])
    ensures { Adds out.old out.new (cpus_told cpus tally findings.now) }
{
    if cpus {
        put_cpus(out, same_of(findings), tally.matched);
    }
}

/// Puts the line of a recorded run behind a text, if there is one.
fn put_some_other(out: &mut Draft, other: Option<Place<'_>>)
    ensures { Adds out.old out.new (other_told other.entry) }
{
    if let Some(place) = other {
        put_other(out, &place);
    }
}

/// Puts the lines of the first differences behind a text.
fn put_differences(out: &mut Draft, missing: Option<Missing<'_>>, other: Option<Place<'_>>)
    ensures { Adds out.old out.new (differences_told missing.entry other.entry) }
{
    match missing {
        None => match other {
            None => put_no_difference(out),
            Some(place) => put_other(out, &place),
        },
        Some(found) => {
            put_missing(out, &found.place, found.nearest);
            put_some_other(out, other);
        }
    }
}

fn missing_start(finding: &Finding<'_>) -> Option<u64>
    ensures { result ≡ option_map (λ x. x.place.run.start) finding.now.missing }
{
    match finding.missing {
        None => None,
        Some(missing) => Some(missing.place.run.start),
    }
}

fn other_start(finding: &Finding<'_>) -> Option<u64>
    ensures { result ≡ option_map (λ p. p.run.start) finding.now.other }
{
    match finding.other {
        None => None,
        Some(place) => Some(place.run.start),
    }
}

/// The task whose run of the model that matches nothing is the earliest.
fn first_missing(alloc: Global, findings: &[Finding<'_>]) -> Result<Option<usize>, AllocError>
    ensures { IfOk result (IsFirstStart (missing_starts findings.now)) }
{
    let mut starts = Vec::new(alloc);
    for finding in findings {
        starts.push(missing_start(finding))?;
    }
    Ok(earliest(starts.as_slice()))
}

/// The task whose recorded run that matches nothing is the earliest.
fn first_other(alloc: Global, findings: &[Finding<'_>]) -> Result<Option<usize>, AllocError>
    ensures { IfOk result (IsFirstStart (other_starts findings.now)) }
{
    let mut starts = Vec::new(alloc);
    for finding in findings {
        starts.push(other_start(finding))?;
    }
    Ok(earliest(starts.as_slice()))
}

fn missing_of<'a>(findings: &[Finding<'a>], task: Option<usize>) -> Option<Missing<'a>>
    ensures { result ≡ missing_at findings.now task }
{
    match task {
        None => None,
        Some(task) => match findings.get(task) {
            None => None,
            Some(finding) => finding.missing,
        },
    }
}

fn other_of<'a>(findings: &[Finding<'a>], task: Option<usize>) -> Option<Place<'a>>
    ensures { result ≡ other_at findings.now task }
{
    match task {
        None => None,
        Some(task) => match findings.get(task) {
            None => None,
            Some(finding) => finding.other,
        },
    }
}

/// Puts the whole text behind another.
fn put_all(
    alloc: Global,
    out: &mut Draft,
    cpus: bool,
    shift: ClockShift,
    tally: Tally,
    findings: &[Finding<'_>],
    missing: Option<Missing<'_>>,
    other: Option<Place<'_>>,
)
    ensures { Adds out.old out.new
        (report_text cpus shift tally findings.now missing.entry other.entry) }
{
    put_found_shift(out, shift, tally);
    put_header(out);
    put_rows(alloc, out, findings);
    put_total(out, tally);
    put_asked_cpus(out, cpus, tally, findings);
    put_differences(out, missing, other);
}

/// The text of findings and of a total.
pub(crate) fn text_of(
    alloc: Global,
    cpus: bool,
    shift: ClockShift,
    tally: Tally,
    findings: &[Finding<'_>],
) -> Result<Vec<u8>, NoMemory>
    ensures { IfOk result (λ v. IsTextOf cpus shift tally findings.now v.items) }
{
    let missing = first_missing(alloc, findings)?;
    let other = first_other(alloc, findings)?;
    let mut out = Draft::new(alloc);
    put_all(
        alloc,
        &mut out,
        cpus,
        shift,
        tally,
        findings,
        missing_of(findings, missing),
        other_of(findings, other),
    );
    out.into_text()
}
