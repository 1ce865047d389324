//! What happens to a golden file.

ghost use Rattle.std.specs.Prelude.{◌≡◌, IfOk, option_map};
ghost use Rattle.std.specs.List.{find};
ghost use Rattle.rv_accept.specs.GoldenOutcomes.{outcome_of_golden_file, outcome_of_first, outcome_of_given_text, has_other_text, is_of_skipped_job, is_text, is_for_file};

use crate::golden_texts::GoldenText;
use rv_rows::Bytes;
use std::alloc::{AllocError, Global};

/// What happens to a golden file.
#[derive(Drop)]
pub enum GoldenFileOutcome {
    /// Nothing: no job that was run names the file.
    Unclaimed,
    /// It is skipped, because the job at this index names it and was skipped.
    SkippedBy(usize),
    /// It is skipped, because the jobs at these two indices would give it different texts.
    Disagree(usize, usize),
    /// It gets this text, which every job that names the file would give it.
    Agreed(Bytes),
}

/// Returns what happens to the golden file at a path, according to the golden texts of the jobs.
#[tactic(auto, unfolding(crate::specs::GoldenOutcomes::outcome_of_golden_file))]
pub fn outcome_of_golden_file(
    alloc: Global,
    path: &str,
    golden_texts: &[GoldenText],
) -> Result<GoldenFileOutcome, AllocError>
    ensures { IfOk result (λ outcome. outcome ≡ outcome_of_golden_file path.now golden_texts.now) }
{
    match first_skipped_text(path, golden_texts) {
        Some(golden_text) => Ok(GoldenFileOutcome::SkippedBy(golden_text.job)),
        None => outcome_of_first(alloc, path, golden_texts),
    }
}

// Returns what happens to the golden file at a path if none of its jobs was skipped; `Unclaimed` if no job names it.
fn outcome_of_first(
    alloc: Global,
    path: &str,
    golden_texts: &[GoldenText],
) -> Result<GoldenFileOutcome, AllocError>
    ensures { IfOk result (λ outcome. outcome ≡ outcome_of_first path.now golden_texts.now
        (find (is_for_file path.now) golden_texts.now)) }
{
    match first_text_for_file(path, golden_texts) {
        Some(first) => outcome_of_given_text(alloc, path, golden_texts, first),
        None => Ok(GoldenFileOutcome::Unclaimed),
    }
}

// Returns what happens to the golden file at a path whose first golden text is `first`: it gets this text, or another job would give it a
// different one, or the first job was skipped.
fn outcome_of_given_text(
    alloc: Global,
    path: &str,
    golden_texts: &[GoldenText],
    first: &GoldenText,
) -> Result<GoldenFileOutcome, AllocError>
    ensures { IfOk result (λ outcome. outcome
        ≡ outcome_of_given_text path.now golden_texts.now first.now.job first.now.text) }
{
    let Some(text) = &first.text else {
        return Ok(GoldenFileOutcome::SkippedBy(first.job));
    };
    let text = text.as_slice();
    match first_other_text(path, text, golden_texts) {
        Some(other) => Ok(GoldenFileOutcome::Disagree(first.job, other.job)),
        None => Ok(GoldenFileOutcome::Agreed(Bytes::new(text.to_vec(alloc)?))),
    }
}

// Returns the first golden text for the file at a path whose job was skipped, or `None` if there is none.
fn first_skipped_text<'a>(path: &str, golden_texts: &'a [GoldenText]) -> Option<&'a GoldenText>
    ensures { option_map (λ golden_text. golden_text.now) result ≡ find (is_of_skipped_job path.now) golden_texts.now }
{
    golden_texts
        .iter()
        .find(|golden_text| is_of_skipped_job(path, golden_text))
}

/// Returns the first golden text for the file at a path, or `None` if there is none.
pub fn first_text_for_file<'a>(path: &str, golden_texts: &'a [GoldenText]) -> Option<&'a GoldenText>
    ensures { option_map (λ golden_text. golden_text.now) result ≡ find (is_for_file path.now) golden_texts.now }
{
    golden_texts
        .iter()
        .find(|golden_text| is_for_file(path, golden_text))
}

/// Returns the first golden text for the file at a path that is not `text`, or `None` if there is none.
pub fn first_other_text<'a>(
    path: &str,
    text: &[u8],
    golden_texts: &'a [GoldenText],
) -> Option<&'a GoldenText>
    ensures { option_map (λ golden_text. golden_text.now) result
        ≡ find (has_other_text path.now text.now) golden_texts.now }
{
    golden_texts
        .iter()
        .find(|golden_text| has_other_text(path, text, golden_text))
}

// Whether this golden text is for the file at this path.
fn is_for_file(path: &str, golden_text: &GoldenText) -> bool
    ensures { result ≡ is_for_file path.now golden_text.now }
{
    path == golden_text.path.as_str()
}

// Whether this golden text is for the file at this path, and its job was skipped.
fn is_of_skipped_job(path: &str, golden_text: &GoldenText) -> bool
    ensures { result ≡ is_of_skipped_job path.now golden_text.now }
{
    is_for_file(path, golden_text) && golden_text.text.is_none()
}

// Whether this golden text is for the file at this path, and is not `text`.
fn has_other_text(path: &str, text: &[u8], golden_text: &GoldenText) -> bool
    ensures { result ≡ has_other_text path.now text.now golden_text.now }
{
    is_for_file(path, golden_text) && !is_text(text, &golden_text.text)
}

// Whether `given` is the text `text`.
fn is_text(text: &[u8], given: &Option<Bytes>) -> bool
    ensures { result ≡ is_text text.now given.now }
{
    match given {
        Some(given) => text == given.as_slice(),
        None => false,
    }
}
