//! How a run counts its rows: as passed, failed or known to fail.

ghost use Rattle.std.specs.Prelude.{◌≡◌};
ghost use Rattle.std.specs.List.{list_any};
ghost use Rattle.rv_expect.specs.Judgement.{fails, is_failing, is_known_failure, is_passed, is_unknown_failure, judgement_in_file, judgement_view, judgement_if_unlisted};
ghost use Rattle.rv_expect.specs.Judgement.{judgement, judge_by_rule, judge_view};
ghost use Rattle.rv_expect.specs.KnownJobs.{reason_of};

use crate::known_jobs::KnownJobs;
use crate::rule::{Rule, has_passed};
use rv_rows::Row;

/// How a run counts its rows: a rule, and the known failures.
#[derive(Clone, Copy)]
pub struct Judge<'k> {
    pub rule: Rule,
    /// The jobs that are known to fail, if a file lists them.
    pub known: Option<&'k KnownJobs>,
}

/// How a row counts.
#[derive(Clone, Copy)]
pub enum Judgement<'k> {
    Passed,
    Failed,
    /// It failed and is known to fail, for this reason, which may be empty.
    KnownFailure(&'k [u8]),
    /// It passed although the file at this path lists it as a known failure; this counts as a failure.
    NowPasses(&'k str),
}

impl<'k> Judge<'k> {
    /// Returns a judge that applies only this rule, without known failures.
    pub fn with_rule(rule: Rule) -> Judge<'k>
        ensures { judge_view result ≡ judge_by_rule rule }
    {
        Judge { rule, known: None }
    }

    /// Returns the judgement of a row: whether it passed or failed, and whether its job is a known failure.
    pub fn judgement(&self, row: &Row) -> Judgement<'k>
        ensures { judgement_view result ≡ judgement (judge_view self.now) row.now }
    {
        let passed = has_passed(self.rule, row);
        match self.known {
            None => judgement_if_unlisted(passed),
            Some(known) => judgement_in_file(known, passed, row),
        }
    }

    /// Whether a row counts as a failure: its job failed and is not a known failure, or it passed although it is listed as one.
    pub fn fails(&self, row: &Row) -> bool
        ensures { result ≡ fails (judge_view self.now) row.now }
    {
        self.judgement(row).is_failing()
    }

    /// Whether at least one of the rows counts as a failure.
    pub fn any_counts_as_failure(&self, rows: &[Row]) -> bool
        ensures { result ≡ list_any (fails (judge_view self.now)) rows.now }
    {
        rows.iter().any(|row| self.fails(row))
    }
}

impl<'k> Judgement<'k> {
    /// Whether a row with this judgement counts as a failure: it failed and is not a known failure, or it passed although it is listed as
    /// one.
    pub fn is_failing(self) -> bool
        ensures { result ≡ is_failing (judgement_view self.entry) }
    {
        match self {
            Judgement::Failed | Judgement::NowPasses(_) => true,
            Judgement::Passed | Judgement::KnownFailure(_) => false,
        }
    }

    /// Whether a row with this judgement passed and is not listed as a known failure.
    pub fn is_passed(self) -> bool
        ensures { result ≡ is_passed (judgement_view self.entry) }
    {
        match self {
            Judgement::Passed => true,
            Judgement::Failed | Judgement::KnownFailure(_) | Judgement::NowPasses(_) => false,
        }
    }

    /// Whether a row with this judgement failed and is not listed as a known failure.
    pub fn is_unknown_failure(self) -> bool
        ensures { result ≡ is_unknown_failure (judgement_view self.entry) }
    {
        match self {
            Judgement::Failed => true,
            Judgement::Passed | Judgement::KnownFailure(_) | Judgement::NowPasses(_) => false,
        }
    }

    /// Whether a row with this judgement failed and is listed as a known failure.
    pub fn is_known(self) -> bool
        ensures { result ≡ is_known_failure (judgement_view self.entry) }
    {
        match self {
            Judgement::KnownFailure(_) => true,
            Judgement::Passed | Judgement::Failed | Judgement::NowPasses(_) => false,
        }
    }
}

// Returns the judgement of a row whose job is not listed as a known failure, given whether the row passed.
fn judgement_if_unlisted<'k>(passed: bool) -> Judgement<'k>
    ensures { judgement_view result ≡ judgement_if_unlisted passed }
{
    if passed {
        Judgement::Passed
    } else {
        Judgement::Failed
    }
}

// Returns the judgement of a row, given the file of known failures and whether the row passed.
fn judgement_in_file<'k>(known_jobs: &'k KnownJobs, passed: bool, row: &Row) -> Judgement<'k>
    ensures { judgement_view result ≡ judgement_in_file known_jobs.now.path passed (reason_of known_jobs.now.jobs row.now.name) }
{
    match (passed, known_jobs.reason_of(row.name.as_str().as_bytes())) {
        (_, None) => judgement_if_unlisted(passed),
        (true, Some(_)) => Judgement::NowPasses(known_jobs.path.as_str()),
        (false, Some(reason)) => Judgement::KnownFailure(reason),
    }
}
