//! How many runs matched, in all tasks.

ghost use Rattle.std.specs.Prelude.{◌≡◌, sum_by};
ghost use Rattle.compare_report.specs.Table.{tally_text, total_line};
ghost use Rattle.compare_report.specs.Tally.{is_under, tally_of};
ghost use Rattle.draft.specs.Draft.{Adds};

use crate::finding::Finding;
use crate::putting::put_count;
use draft::Draft;

/// How many runs the model has, in all tasks, and how many of them matched a recorded run.
#[derive(Clone, Copy, Debug, PartialEq, Eq)]
pub struct Tally {
    /// How many runs the model has.
    pub runs: u128,
    /// How many of them matched.
    pub matched: u128,
}

impl Tally {
    /// Whether fewer than so many per cent of the model's runs matched. More than 100 per cent are
    /// taken as 100.
    pub fn is_under(&self, percent: u8) -> bool
        ensures { result ≡ is_under percent self.now }
    {
        let percent = u128::from(percent.min(100));
        // A share of the hundreds, and one of the rest: each product fits, however many runs.
        let whole = percent * (self.runs / 100);
        let more = percent * (self.runs % 100);
        self.matched < whole + (more + 99) / 100
    }
}

/// How many runs the model has, in all tasks.
fn runs_in(findings: &[Finding<'_>]) -> u128
    ensures { result ≡ sum_by (λ f. f.row.runs) findings.now }
{
    let mut total: u128 = 0;
    for finding in findings {
        total += u128::from(finding.row.runs);
    }
    total
}

/// How many of them matched.
fn matched_in(findings: &[Finding<'_>]) -> u128
    ensures { result ≡ sum_by (λ f. f.row.matched) findings.now }
{
    let mut total: u128 = 0;
    for finding in findings {
        total += u128::from(finding.row.matched);
    }
    total
}

/// How many runs of all tasks matched.
pub(crate) fn tally_in(findings: &[Finding<'_>]) -> Tally
    ensures { result ≡ tally_of findings.now }
{
    Tally {
        runs: runs_in(findings),
        matched: matched_in(findings),
    }
}

/// Puts a tally behind a text: `148 of 150 runs`.
pub fn put_tally(out: &mut Draft, tally: Tally)
    ensures { Adds out.old out.new (tally_text tally) }
{
    put_count(out, tally.matched);
    out.put(b" of ");
    put_count(out, tally.runs);
    out.put(b" runs");
}

/// Puts the line of the tally behind a text: `matched 148 of 150 runs`.
pub fn put_total(out: &mut Draft, tally: Tally)
    ensures { Adds out.old out.new (total_line tally) }
{
    out.put(b"matched ");
    put_tally(out, tally);
    out.put(b"\n");
}
