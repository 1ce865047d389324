//! What `accept` reports.

ghost use Rattle.std.specs.Prelude.{◌≡◌, ◌≤◌, ◌<◌, ◌+◌, ◌^◌, ◌++◌, OnOk, is_some, length, min, option_map};
ghost use Rattle.std.specs.List.{count_by, flat_map};
ghost use Rattle.rv_accept_text.specs.FileLines.{file_line, skipped_file_line};
ghost use Rattle.rv_accept_text.specs.GoldenFiles.{is_skipped};
ghost use Rattle.rv_accept_text.specs.AcceptLines.{changed_count, count_line, is_changed, is_skipped_job, skipped_count, skipped_job_lines};
ghost use Rattle.rv_accept_text.specs.AcceptLines.{one_if, accept_lines, value_line_in, value_line_of, writing_word};

use crate::file_lines::{push_file_line, push_skipped_file_line};
use crate::golden_file::{GoldenFile, ListFile};
use crate::job_lines::{push_skipped_job_line, push_value_line};
use crate::new_list::{ChangedValue, NewList};
use rv_accept::{GoldenText, JobRun};
use rv_rows::{Job, Span, push_spans};
use std::alloc::{AllocError, Global};

/// What `accept` changes and what it skips.
#[derive(Clone, Copy)]
pub struct AcceptSummary<'a> {
    pub list: ListFile<'a>,
    pub runs: &'a [Option<JobRun>],
    /// The texts that jobs would write to their golden files.
    pub golden_texts: &'a [GoldenText],
    pub files: &'a [GoldenFile],
    /// The edited text of the list, and the values that change in it.
    pub new: &'a NewList,
}

/// Whether `accept` writes files.
#[derive(Clone, Copy, Debug, PartialEq, Eq)]
pub enum Writing {
    /// The files that change were written.
    Written,
    /// No file was written, since only a check was requested.
    CheckOnly,
}

impl<'a> AcceptSummary<'a> {
    /// Appends the lines about golden files that change, values in the list that change, jobs that were skipped, and golden files that were
    /// skipped.
    pub fn push_lines(&self, alloc: Global, out: &mut Vec<u8>) -> Result<(), AllocError>
        ensures { OnOk result (out.new.items ≡ out.old.items ++ accept_lines self.now) }
    {
        self.push_file_lines(out)?;
        self.push_value_lines(out)?;
        push_skipped_job_lines(alloc, out, self.list.jobs, self.list.jobs, self.runs)?;
        self.push_skipped_file_lines(out)
    }

    // Appends the lines about the golden files that change, in order.
    fn push_file_lines(&self, out: &mut Vec<u8>) -> Result<(), AllocError>
        ensures { OnOk result (out.new.items
            ≡ out.old.items ++ flat_map (file_line self.now.list) self.now.files.now) }
    {
        for file in self.files {
            push_file_line(out, &self.list, file)?;
        }
        Ok(())
    }

    // Appends the lines about the values in the list that change, in order.
    fn push_value_lines(&self, out: &mut Vec<u8>) -> Result<(), AllocError>
        ensures { OnOk result (out.new.items
            ≡ out.old.items ++ flat_map (value_line_in self.now) self.now.new.now.values.items) }
    {
        for value in &self.new.values {
            self.push_value_line(out, value)?;
        }
        Ok(())
    }

    // Appends the lines about a value in the list that changes.
    fn push_value_line(&self, out: &mut Vec<u8>, value: &ChangedValue) -> Result<(), AllocError>
        ensures { OnOk result (out.new.items ≡ out.old.items ++ value_line_in self.now value.now) }
    {
        push_value_line_of(
            out,
            self.list.path,
            value,
            self.list.jobs.get(value.job),
            self.runs.get(value.job),
        )
    }

    // Appends the lines about the golden files that were skipped, in order.
    fn push_skipped_file_lines(&self, out: &mut Vec<u8>) -> Result<(), AllocError>
        ensures { OnOk result (out.new.items ≡ out.old.items
            ++ flat_map (skipped_file_line self.now.list self.now.golden_texts.now) self.now.files.now) }
    {
        for file in self.files {
            push_skipped_file_line(out, &self.list, self.golden_texts, file)?;
        }
        Ok(())
    }

    /// Returns the number of files that change: golden files, and the list.
    pub fn changed_count(&self) -> usize
        ensures { result ≡ changed_count self.now }
    {
        let mut count = 0;
        for file in self.files {
            if file.new_text(&self.list).is_some() {
                count += 1;
            }
        }
        count + self.new.text.is_some() as usize
    }

    /// Returns the number of chosen jobs and golden files that were skipped.
    pub fn skipped_count(&self) -> usize
        ensures { result ≡ skipped_count self.now }
    {
        skipped_job_count(self.runs) + self.skipped_file_count()
    }

    // Returns the number of golden files that were skipped.
    fn skipped_file_count(&self) -> usize
        ensures value { result ≡ count_by (is_skipped self.now.list) self.now.files.now }
        ensures within { result ≤ length self.now.files.now }
    {
        let mut count = 0;
        for file in self.files {
            if file.is_skipped(&self.list) {
                count += 1;
            }
        }
        count
    }

    /// Appends the last line: how many files were written, or would be written, and how many jobs and files were skipped.
    pub fn push_count_line(&self, out: &mut Vec<u8>, writing: Writing) -> Result<(), AllocError>
        ensures { OnOk result (out.new.items
            ≡ out.old.items ++ count_line writing (changed_count self.now) (skipped_count self.now)) }
    {
        let count = self.changed_count();
        push_spans(
            out,
            &[
                Span::Count(count as u64, "file"),
                Span::Text(writing_word(writing)),
                Span::Number(self.skipped_count() as u64),
                Span::Text(" skipped\n"),
            ],
        )
    }
}

// Returns ` written, ` if files were written, else ` would be written, `.
fn writing_word(writing: Writing) -> &'static str
    ensures { result.now ≡ writing_word writing }
{
    match writing {
        Writing::Written => " written, ",
        Writing::CheckOnly => " would be written, ",
    }
}

// Appends the lines about a value in the list that changes, or nothing if its job or the job's run is missing.
fn push_value_line_of(
    out: &mut Vec<u8>,
    path: &str,
    value: &ChangedValue,
    job: Option<&Job>,
    run: Option<&Option<JobRun>>,
) -> Result<(), AllocError>
    ensures { OnOk result (out.new.items ≡ out.old.items ++ value_line_of path.now value.now
        (option_map (λ job. job.now) job.entry) (option_map (λ run. run.now) run.entry)) }
{
    match (job, run) {
        (Some(job), Some(Some(run))) => push_value_line(out, path, value, job, &run.row),
        _ => Ok(()),
    }
}

// Appends a line for each chosen job that was skipped. `all_jobs` are all jobs of the list.
#[tactic(auto, unfolding(crate::specs::AcceptLines::skipped_job_lines))]
fn push_skipped_job_lines(
    alloc: Global,
    out: &mut Vec<u8>,
    all_jobs: &[Job],
    jobs: &[Job],
    runs: &[Option<JobRun>],
) -> Result<(), AllocError>
    ensures { OnOk result (out.new.items ≡ out.old.items ++ skipped_job_lines all_jobs.now jobs.now runs.now) }
{
    match (jobs, runs) {
        ([job, jobs @ ..], [run, runs @ ..]) => {
            push_skipped_job_line(alloc, out, all_jobs, job, run)?;
            push_skipped_job_lines(alloc, out, all_jobs, jobs, runs)
        }
        ([], _) => Ok(()),
        ([_job, _jobs @ ..], []) => Ok(()),
    }
}

// Returns the number of chosen jobs that were skipped.
fn skipped_job_count(runs: &[Option<JobRun>]) -> usize
    ensures value { result ≡ count_by is_skipped_job runs.now }
    ensures within { result ≤ length runs.now }
{
    let mut count = 0;
    for run in runs {
        if is_skipped_job(run) {
            count += 1;
        }
    }
    count
}

// Whether the job was run, is chosen and was skipped.
fn is_skipped_job(run: &Option<JobRun>) -> bool
    ensures { result ≡ is_skipped_job run.now }
{
    match run {
        Some(run) => run.is_chosen && run.skip_reason.is_some(),
        None => false,
    }
}
