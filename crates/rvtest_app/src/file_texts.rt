//! What is written to files.

ghost use Rattle.std.specs.Prelude.{◌≤◌, length};
ghost use Rattle.rvtest_app.specs.ReportTexts.{report_rows};

use crate::report_texts::ReportText;
use rv_junit::Suite;

/// What is written to files: a report, and its rows as JUnit XML with the lines about each job.
#[derive(Drop)]
pub(crate) struct FileTexts<'s, 't, 'p, T> {
    pub(crate) suite: Suite<'s>,
    pub(crate) reporter: &'t T,
    pub(crate) indices: &'p [usize],
    pub(crate) report: ReportText<'p>,
    /// The lines about each row, by the index of the row; `None` for a row whose lines were not made yet.
    pub(crate) texts: &'p [Option<Vec<u8>>],
    ghost index_per_row: { length (report_rows report) ≤ length indices.now },
}
