//! The jobs of a run: as requested, as selected in a list, and as indices of a plan.

ghost use Rattle.std.specs.Prelude.{◌≡◌, ◌≤◌, length, take};
ghost use Rattle.std.specs.Option.{ForSome};
ghost use Rattle.std.specs.List.Sorted.{IsStrictlyIncreasing};
ghost use Rattle.rv_stream.specs.JobIndices.{AreJobIndices};

use crate::into_report::ReportContext;
use rv_expect::KnownJobs;
use rv_job_text::TextReporter;
use rv_rows::JobList;

/// The jobs of a list, and which of them are requested.
#[derive(Drop)]
pub(crate) struct RequestedJobs {
    pub(crate) jobs: JobList,
    /// Whether each job is to run; `None` if none is.
    pub(crate) selection: Option<Vec<bool>>,
    pub(crate) context: ReportContext,
    /// The notes about the choice.
    pub(crate) notes: Vec<u8>,
    ghost same_length: { ForSome selection (λ selection. length selection.items ≡ length jobs) },
    ghost old_row_per_job: { ForSome context.old (λ rows. length rows ≡ length jobs) },
}

/// The jobs of a list, which of them are to run, and which are known to fail.
#[derive(Drop)]
pub(crate) struct SelectedJobs {
    pub(crate) jobs: JobList,
    pub(crate) selection: Vec<bool>,
    pub(crate) context: ReportContext,
    /// The jobs that are known to fail; `None` without `--known`.
    pub(crate) known: Option<KnownJobs>,
    ghost same_length: { length selection.items ≡ length jobs },
    ghost old_row_per_job: { ForSome context.old (λ rows. length rows ≡ length jobs) },
}

/// The jobs at some indices of a plan, and how their rows are reported.
#[derive(Drop)]
pub(crate) struct PlannedRun<'a> {
    pub(crate) reporter: &'a TextReporter<'a>,
    pub(crate) indices: &'a [usize],
    ghost within: { AreJobIndices reporter.now.plan.now indices.now },
    ghost rising: { IsStrictlyIncreasing indices.now },
}

impl<'a> PlannedRun<'a> {
    /// Returns the run of only the first `count` jobs.
    pub(crate) fn first_jobs(&self, count: usize) -> PlannedRun<'a>
        requires { count ≤ length self.now.indices.now }
        ensures indices { result.indices.now ≡ take count self.now.indices.now }
        ensures reporter { result.reporter.now ≡ self.now.reporter.now }
    {
        PlannedRun {
            reporter: self.reporter,
            indices: &self.indices[..count],
        }
    }
}
