//! Which expectations a run meets.

ghost use Rattle.std.specs.Prelude.{◌≡◌};
ghost use Rattle.std.specs.List.{list_any};
ghost use Rattle.rv_expect.specs.MetExpectations.{job_expects, is_expectation_met, is_unmet_of_kind};

use crate::unmet::UnmetExpectation;
use rv_rows::{Job, has_expectations};

/// The kinds of expectations that a job can have.
#[derive(Clone, Copy)]
pub enum Expectation {
    Exit,
    End,
    Console,
    Signature,
    Same,
    /// Exit code 0, which is expected if the job has no other expectation.
    DefaultExit,
}

/// Whether a job has an expectation of this kind and its run meets it. `unmet_expectations` are the unmet expectations of the job.
pub fn is_expectation_met(
    job: &Job,
    unmet_expectations: &[UnmetExpectation],
    expectation: Expectation,
) -> bool
    ensures { result ≡ is_expectation_met job.now unmet_expectations.now expectation }
{
    job_expects(job, expectation) && !is_expectation_unmet(unmet_expectations, expectation)
}

// Whether one of these unmet expectations is of this kind.
fn is_expectation_unmet(unmet_expectations: &[UnmetExpectation], expectation: Expectation) -> bool
    ensures { result ≡ list_any (is_unmet_of_kind expectation) unmet_expectations.now }
{
    unmet_expectations
        .iter()
        .any(|other| is_unmet_of_kind(expectation, *other))
}

// Whether a job has an expectation of this kind; a job without any other has the default one, exit code 0.
#[tactic(auto, unfolding(crate::specs::MetExpectations::job_expects))]
fn job_expects(job: &Job, expectation: Expectation) -> bool
    ensures { result ≡ job_expects job.now expectation }
{
    match expectation {
        Expectation::Exit => job.expect_exit.is_some(),
        Expectation::End => job.expect_end.is_some(),
        Expectation::Console => job.expect_console.is_some(),
        Expectation::Signature => job.expect_signature.is_some(),
        Expectation::Same => job.same_as.is_some(),
        Expectation::DefaultExit => !has_expectations(job),
    }
}

// Whether an unmet expectation is of this kind.
#[tactic(auto, unfolding(crate::specs::MetExpectations::is_unmet_of_kind))]
fn is_unmet_of_kind(expectation: Expectation, unmet_expectations: UnmetExpectation) -> bool
    ensures { result ≡ is_unmet_of_kind expectation unmet_expectations }
{
    match (expectation, unmet_expectations) {
        (Expectation::Exit, UnmetExpectation::Exit)
        | (Expectation::End, UnmetExpectation::End)
        | (Expectation::Console, UnmetExpectation::Console(_))
        | (Expectation::Signature, UnmetExpectation::Signature(_))
        | (Expectation::Same, UnmetExpectation::Same(_))
        | (Expectation::DefaultExit, UnmetExpectation::DefaultExit) => true,
        _ => false,
    }
}
