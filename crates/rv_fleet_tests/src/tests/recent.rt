//! Which outcomes of its last jobs a worker caches, which depends on the sizes of console output and signatures.
ghost use Rattle.std.specs.Prelude.{◌<◌, length};

use super::{number_in, plan_in};
use rv_fleet::{Outcome, Plan, RecentOutcomes, RowEnd, SpareBus, Words, row_at_with_recent};
use rv_stream::Bytes;
use samples::cell_of;
use std::alloc::{AllocError, Global};
use std::test::Fail;

// Returns a signature of this many zero words.
fn words_of(alloc: Global, count: usize) -> Result<Words, AllocError> {
    Ok(Words::new(vec![in alloc; 0u32; count]?))
}

// Returns an outcome with this number of bytes of console output or, after a `w`, this number of words of signature.
fn outcome_of(alloc: Global, size: &str) -> Result<Outcome, Fail> {
    let (size, signature) = match size.strip_prefix('w') {
        Some(count) => (0, Some(words_of(alloc, count.parse::<usize>()?)?)),
        None => (size.parse::<usize>()?, None),
    };
    Ok(Outcome {
        ending: RowEnd::Budget,
        steps: 0,
        console: Bytes::new(vec![in alloc; 0u8; size]?),
        signature,
    })
}

// Caches an outcome of this size for the job at an index if it is small enough.
fn cache_outcome(
    alloc: Global,
    recent: &mut RecentOutcomes,
    index: usize,
    size: &str,
) -> Result<(), Fail> {
    let outcome = outcome_of(alloc, size)?;
    if recent.make_room(outcome.size()) {
        recent.keep(index, outcome)?;
    }
    Ok(())
}

// Returns the indices below `count` whose outcomes are cached.
fn cached_indices(alloc: Global, recent: &RecentOutcomes, count: usize) -> Result<String, Fail> {
    let mut indices = String::new(alloc);
    for index in 0..count {
        if recent.find(index).is_some() {
            write!(indices, " {index}")?;
        }
    }
    Ok(indices)
}

// Returns the indices whose outcomes are cached after outcomes of the sizes in a line were added for the indices 0, 1 and so on.
pub(super) fn result_text(alloc: Global, line: &str) -> Result<String, Fail> {
    let sizes = cell_of(line, 1);
    let mut recent = RecentOutcomes::new(alloc);
    for (index, size) in sizes.split(' ').enumerate() {
        cache_outcome(alloc, &mut recent, index, size)?;
    }
    cached_indices(alloc, &recent, sizes.split(' ').count())
}

// label | the sizes of outcomes | the indices that are cached
pub(super) const CACHED: &str = "\
few | 1 2 3 | 0 1 2
one more than the most | 1 1 1 1 1 1 1 1 1 | 1 2 3 4 5 6 7 8
no bytes | 0 0 0 0 0 0 0 0 0 0 | 2 3 4 5 6 7 8 9
all the room | 32000 31999 1 | 0 1 2
one byte more | 32000 31999 2 | 1 2
the greatest | 1 64000 | 1
too great | 1 64001 2 | 0 2
a signature of all the room | 1 w16000 | 1
a signature of a word more | 1 w16001 2 | 0 2";

// Two jobs with a signature, one of 16,000 words and one of a word more, each followed by a job that is compared with it.
const COMPARED_JOBS: &str = "\
[[job]]
name = 'j0'
image = 'most-words'
budget = 100
signature = ['begin_signature', 'end_signature']
[[job]]
name = 'j1'
image = 'most-words'
budget = 100
same_as = 'j0'
[[job]]
name = 'j2'
image = 'more-words'
budget = 100
signature = ['begin_signature', 'end_signature']
[[job]]
name = 'j3'
image = 'more-words'
budget = 100
same_as = 'j2'
";

// Makes the row of the job at an index, and returns whether the outcome of the job before it, which runs for the comparison, is then
// cached.
fn caches_preceding_outcome(alloc: Global, plan: &Plan, index: usize) -> Result<bool, Fail>
    requires { index < length plan.now.jobs }
{
    let mut recent = RecentOutcomes::new(alloc);
    row_at_with_recent(alloc, plan, index, &mut SpareBus::new(), &mut recent)?;
    Ok(recent.find(index.saturating_sub(1)).is_some())
}

// Makes the row of the job at this index of `COMPARED_JOBS`, and returns whether the outcome of the job before it is then cached.
fn is_preceding_outcome_cached(alloc: Global, index: usize) -> Result<bool, Fail> {
    let plan = plan_in(alloc, COMPARED_JOBS)?;
    if plan.jobs() <= index {
        return Err("expected the index of a job".into());
    }
    caches_preceding_outcome(alloc, &plan, index)
}

// label | the index of a job of `COMPARED_JOBS` | whether the outcome of the job with which it is compared is cached, which depends on the
// size of the signature before its words are copied
pub(super) const CACHED_FOR_COMPARISON: &str = "\
16,000 words | 1 | true
one more | 3 | false";

/// Returns as text whether the outcome of the job with which the job of a line is compared is cached.
pub(super) fn comparison_text(alloc: Global, line: &str) -> Result<String, Fail> {
    let is_cached = is_preceding_outcome_cached(alloc, number_in(line, 1) as usize)?;
    Ok(format!(in alloc; "{is_cached}")?)
}
