//! The table of jobs of one image.

ghost use Rattle.std.specs.Prelude.{◌≡◌, ◌%◌, ◌<◌, ◌≤◌, ◌∷◌, [], ℕ, IfOk, IfSome, List, OnOk, true, length};
ghost use Rattle.std.specs.List.{AllByRecursion};
ghost use Rattle.std.specs.Str.{IsUtf8};
ghost use Rattle.sha2.specs.Sha256.{sha256};
ghost use Rattle.rv_count_tables.specs.declared.table.AddressCounts.{AddressCounts};
ghost use Rattle.rv_count_tables.specs.Lines.{lacks};
ghost use Rattle.rv_count_tables.specs.Sum.{no_counts};
ghost use Rattle.rv_count_tables.specs.Table.{executed_at, IsValidTable};
ghost use Rattle.rv_fleet.specs.JobIndices.{AreJobIndices};
ghost use Rattle.rv_trace.specs.declared_job.Job.{Job as AJob};
ghost use Rattle.rv_count_tables.specs.Limits.{max_jobs};
ghost use Rattle.rv_count_tables.specs.Printable.{printable_text};
ghost use Rattle.rv_trace.specs.Trace.{job_at};
ghost use Rattle.rv_counting.specs.BatchRanges.{HaveOneImage};
ghost use Rattle.rv_counting.specs.Counters.{counts_of};
ghost use Rattle.rv_counting.specs.JobTables.{IsTableOfRange, jobs_at, table_of_runs};
ghost use Rattle.rv_counting.specs.RunCounts.{AddsJob, CanCountRuns, HasCountedJobs, IsRunOfJob};
ghost use Rattle.rv_counting.specs.Tallies.{IsSorted};

use crate::runs_counter::RunsCounter;
use rv_count_tables::{
    Bytes, CallNodes, CountTable, FunctionNames, ImageCounts, Images, Text,
    printable_text_is_utf8_without_controls, push_printable_text,
};
use rv_trace::{JobImage, PartialRun, Plan, SpareBus, image_bytes, image_of_bytes};
use sha2::{Digest, Sha256};
use std::alloc::{AllocError, Global};

/// Runs the jobs at these indices once more, and returns the table of their runs; a refused job does not count as a run. All of the jobs
/// must name the same image file. Takes longer than running the jobs once, and memory for each executed address. Reuses the memory of the
/// last run.
pub(crate) fn table_of_jobs_at(
    alloc: Global,
    plan: &Plan,
    indices: &[usize],
    spare: &mut SpareBus,
) -> Result<CountTable, AllocError>
    requires some { 0 < length indices.now }
    requires few { length indices.now ≤ max_jobs }
    requires within { AreJobIndices plan.now indices.now }
    requires same { HaveOneImage plan.now indices.now }
    ensures { IfOk result (IsTableOfRange plan.now indices.now) }
{
    let mut counter = RunsCounter::new(alloc)?;
    for k in 0..indices.len() {
        let run = count_job_at(alloc, plan, indices[k], &mut counter, spare)?;
        if let Some(run) = run {
            spare.recycle_bus(run.machine.into_bus());
        }
    }
    table_of_counter(alloc, plan, indices, counter)
}

/// Returns the table of the jobs at these indices from the counts of their runs. All of the jobs must name the same image file.
pub(crate) fn table_of_counter(
    alloc: Global,
    plan: &Plan,
    indices: &[usize],
    counter: RunsCounter,
) -> Result<CountTable, AllocError>
    requires some { 0 < length indices.now }
    requires few { length indices.now ≤ max_jobs }
    requires within { AreJobIndices plan.now indices.now }
    requires same { HaveOneImage plan.now indices.now }
    requires counted { HasCountedJobs plan.now.results (jobs_at plan.now indices.now) counter }
    ensures { IfOk result (IsTableOfRange plan.now indices.now) }
{
    let Some(bytes) = image_bytes(plan, indices[0]) else {
        return Ok(empty_table(alloc));
    };
    if counter.runs == 0 {
        return Ok(empty_table(alloc));
    }
    let path = plan.job(indices[0]).image.as_str();
    table_of_runs(alloc, path, bytes, counter)
}

/// Counts the run of the job at an index. Returns the machine at the end of the run and the number of completed steps, or `None` if the job
/// is refused.
pub(crate) fn count_job_at(
    alloc: Global,
    plan: &Plan,
    index: usize,
    counter: &mut RunsCounter,
    spare: &mut SpareBus,
) -> Result<Option<PartialRun>, AllocError>
    requires within { index < length plan.now.jobs }
    requires ready { CanCountRuns counter.old }
    requires few { counter.old.runs < max_jobs }
    ensures counted { OnOk result ((d : AJob) → AddsJob plan.now.results (job_at plan.now index d) counter.old counter.new) }
    ensures run { IfOk result (λ run. IfSome run (λ run. (d : AJob) → IsRunOfJob plan.now.results (job_at plan.now index d) run)) }
{
    let Some(bytes) = image_bytes(plan, index) else {
        return Ok(None);
    };
    let Some(image) = image_of_bytes(alloc, plan.job(index).isa, bytes)? else {
        return Ok(None);
    };
    let job_image = JobImage {
        plan,
        index,
        image: &image,
    };
    counter.count_job(alloc, &job_image, spare)
}

/// Returns the empty table: no images and no runs. Does not allocate.
pub fn empty_table(alloc: Global) -> CountTable
    ensures { result ≡ no_counts }
{
    CountTable {
        images: Images::new(Vec::new(alloc)),
        runs: 0,
    }
}

// Returns the table of the runs that `counter` has counted, of the image with this path and these bytes.
fn table_of_runs(
    alloc: Global,
    path: &str,
    bytes: &[u8],
    counter: RunsCounter,
) -> Result<CountTable, AllocError>
    requires ready { CanCountRuns counter }
    requires even { (at : ℕ) → at % 2 ≡ 1 → executed_at at (counts_of counter.counter) ≡ 0 }
    requires few { counter.runs ≤ max_jobs }
    ensures value { IfOk result (λ table. (addresses : List AddressCounts) × IsSorted (counts_of counter.counter) addresses
        × (table ≡ table_of_runs counter.runs path.now bytes.now addresses)) }
    ensures table { IfOk result IsValidTable }
{
    let RunsCounter { counter, runs } = counter;
    let addresses = counter.counts_by_address.into_addresses();
    let digest = digest_of(alloc, bytes)?;
    let path = shown_text(alloc, path.as_bytes())?;
    let images = images_of_one(
        alloc,
        ImageCounts {
            digest,
            path,
            addresses,
            functions: FunctionNames::new(Vec::new(alloc)),
            nodes: CallNodes::new(Vec::new(alloc)),
        },
    )?;
    Ok(CountTable { images, runs })
}

/// Returns the list that has only this image.
pub fn images_of_one(alloc: Global, image: ImageCounts) -> Result<Images, AllocError>
    ensures { IfOk result (λ images. images ≡ image ∷ []) }
{
    let mut images = Vec::with_capacity(alloc, 1)?;
    images.push(image)?;
    Ok(Images::new(images))
}

/// Returns the SHA-256 digest of the bytes of a file, which identifies the image in a table.
pub fn digest_of(alloc: Global, bytes: &[u8]) -> Result<Bytes, AllocError>
    ensures value { IfOk result (λ digest. digest ≡ sha256 bytes.now) }
    ensures long { IfOk result (λ digest. length digest ≡ 32) }
    ensures bytes { IfOk result (λ digest. AllByRecursion (λ b. b < 256) digest) }
{
    let digest = Sha256::digest(bytes);
    copy_of(alloc, &digest)
}

// Returns a copy of the bytes.
fn copy_of(alloc: Global, bytes: &[u8]) -> Result<Bytes, AllocError>
    ensures value { IfOk result (λ copy. copy ≡ bytes.now) }
    ensures bytes { IfOk result (λ copy. AllByRecursion (λ b. b < 256) copy) }
{
    let mut copy = Vec::with_capacity(alloc, bytes.len())?;
    copy.extend_from_slice(bytes)?;
    Ok(Bytes::new(copy))
}

/// Returns a text as a table holds it: printable UTF-8 without line feeds.
pub fn shown_text(alloc: Global, text: &[u8]) -> Result<Text, AllocError>
    ensures value { IfOk result (λ shown. shown ≡ printable_text text.now) }
    ensures text { IfOk result IsUtf8 }
    ensures line { IfOk result (λ shown. lacks 10 shown ≡ true) }
{
    let mut bytes = Vec::new(alloc);
    push_printable_text(&mut bytes, text)?;
    printable_text_is_utf8_without_controls();
    match String::from_utf8(bytes) {
        Ok(shown) => Ok(Text::new(shown)),
        Err(_) => unreachable!(),
    }
}
