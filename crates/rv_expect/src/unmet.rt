//! The expectations that a run does not meet.

ghost use Rattle.std.specs.Prelude.{◌≡◌, ◌++◌, IfOk, OnOk, option_map, option_to_list};
ghost use Rattle.rv_expect.specs.Unmet.{unmet_console, unmet_end, unmet_exit, unmet_default_exit, unmet_expectations_of, unmet_same_as};
ghost use Rattle.rv_expect.specs.Unmet.{unmet_signature};
ghost use Rattle.rv_expect.specs.Comparisons.{comparison_view};

use crate::comparison::Comparison;
use crate::difference::{
    Difference, SameAsDifference, SignatureDifference, console_difference, same_as_difference,
};
use crate::reference::signature_difference;
use rv_rows::{Job, Row, RowEnd, did_run, has_expectations, has_expected_end, has_expected_exit};
use std::alloc::{AllocError, Global};

/// An expectation of a job that its run does not meet, with the first difference.
#[derive(Clone, Copy)]
pub enum UnmetExpectation {
    /// The exit code: the run ended with another one, or without an exit call.
    Exit,
    /// The end: the run did not use up its budget, or did not end with a fault of the expected kind.
    End,
    Console(Difference),
    Signature(SignatureDifference),
    /// The result of the job that `same_as` names.
    Same(SameAsDifference),
    /// Exit code 0, for a job without any other expectation.
    DefaultExit,
}

/// Returns the expectations of a job that its run does not meet, in the order exit, end, console, signature, `same_as`. A refused job has
/// none: its refusal explains why nothing ran.
#[tactic(auto, unfolding(crate::specs::Unmet::unmet_expectations_of))]
pub fn unmet_expectations(
    alloc: Global,
    comparison: &Comparison<'_, '_>,
) -> Result<Vec<UnmetExpectation>, AllocError>
    ensures { IfOk result (λ expectations. expectations.items ≡ unmet_expectations_of (comparison_view comparison.now)) }
{
    let (job, row) = (comparison.job, comparison.row);
    let mut found = Vec::new(alloc);
    if !did_run(row.ending) {
        return Ok(found);
    }
    if !has_expectations(job) {
        push_if_unmet(&mut found, unmet_default_exit(row.ending))?;
        return Ok(found);
    }
    let reference = comparison.reference;
    let signature = signature_difference(alloc, &job.expect_signature, reference, &row.signature)?;
    push_if_unmet(&mut found, unmet_exit(job, row.ending))?;
    push_if_unmet(&mut found, unmet_end(job, row.ending))?;
    push_if_unmet(&mut found, unmet_console(job, comparison.console, row))?;
    push_if_unmet(&mut found, unmet_signature(signature))?;
    push_if_unmet(&mut found, unmet_same_as(job, comparison.other, row))?;
    Ok(found)
}

// Appends an unmet expectation, if there is one.
fn push_if_unmet(
    unmet_expectations: &mut Vec<UnmetExpectation>,
    expectation: Option<UnmetExpectation>,
) -> Result<(), AllocError>
    ensures { OnOk result (unmet_expectations.new.items ≡ unmet_expectations.old.items ++ option_to_list expectation) }
{
    if let Some(expectation) = expectation {
        unmet_expectations.push(expectation)?;
    }
    Ok(())
}

// Returns the default expectation, exit code 0, if this ending does not meet it, or else `None`.
fn unmet_default_exit(ending: RowEnd) -> Option<UnmetExpectation>
    ensures { result ≡ unmet_default_exit ending }
{
    if has_expected_exit(Some(0), ending) {
        None
    } else {
        Some(UnmetExpectation::DefaultExit)
    }
}

// Returns the expectation of an exit code, or `None` if the job does not have it or this ending meets it.
fn unmet_exit(job: &Job, ending: RowEnd) -> Option<UnmetExpectation>
    ensures { result ≡ unmet_exit job.now ending }
{
    if has_expected_exit(job.expect_exit, ending) {
        None
    } else {
        Some(UnmetExpectation::Exit)
    }
}

// Returns the expectation of an end, or `None` if the job does not have it or this ending meets it.
fn unmet_end(job: &Job, ending: RowEnd) -> Option<UnmetExpectation>
    ensures { result ≡ unmet_end job.now ending }
{
    if has_expected_end(job.expect_end, ending) {
        None
    } else {
        Some(UnmetExpectation::End)
    }
}

// Returns the expectation of a console, or `None` if the job does not have it or the row meets it. `file` has the bytes of the file with
// the expected text, if it was read.
fn unmet_console(job: &Job, file: Option<&[u8]>, row: &Row) -> Option<UnmetExpectation>
    ensures { result ≡ unmet_console job.now (option_map (λ bytes. bytes.now) file.entry) row.now }
{
    match console_difference(&job.expect_console, file, row.console.as_slice()) {
        Some(difference) => Some(UnmetExpectation::Console(difference)),
        None => None,
    }
}

// Returns the expectation of a signature, with its difference from the actual one, or `None` if there is no difference.
fn unmet_signature(difference: Option<SignatureDifference>) -> Option<UnmetExpectation>
    ensures { result ≡ unmet_signature difference }
{
    match difference {
        Some(difference) => Some(UnmetExpectation::Signature(difference)),
        None => None,
    }
}

// Returns the expectation of `same_as`, or `None` if the job does not have it or the row meets it. `other` is the row of the named job, or
// `None` if there is none.
fn unmet_same_as(job: &Job, other: Option<&Row>, row: &Row) -> Option<UnmetExpectation>
    ensures { result ≡ unmet_same_as job.now (option_map (λ row. row.now) other.entry) row.now }
{
    match same_as_difference(job.same_as, other, row) {
        Some(difference) => Some(UnmetExpectation::Same(difference)),
        None => None,
    }
}
