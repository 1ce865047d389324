//! Merging the rows of a run into a report of the whole list.

ghost use Rattle.std.specs.Prelude.{◌≡◌, ◌<◌, length, vec_len};
ghost use Rattle.std.specs.List.{All};
ghost use Rattle.rv_command.specs.Texts.{optional_text};
ghost use Rattle.rvtest_app.specs.IntoReports.{merged_rows, run_report_path, uses_run_stdout};

use crate::chosen_rows::ChosenRows;
use crate::outlets::is_stdout_at;
use rv_rows::{Row, Rows, Shard};
use rvtest_cli::RunArgs;

/// What a run's report has apart from the run's rows.
#[derive(Drop)]
pub(crate) struct ReportContext {
    /// The shard whose jobs run; `None` if the list is not divided.
    pub(crate) shard: Option<Shard>,
    /// The rows of the report that the run updates, one for each job of the list; `None` without `--into`.
    pub(crate) old: Option<Rows>,
}

/// The rows of chosen jobs, and the rows of the report that they update.
#[derive(Drop)]
pub(crate) struct IntoRows<'a> {
    pub(crate) chosen: ChosenRows<'a>,
    pub(crate) old: Rows,
    ghost same_length: { length old ≡ chosen.jobs },
}

impl<'a> IntoRows<'a> {
    /// Returns the old rows, with those of the chosen jobs replaced by the new rows. Allocates no memory.
    pub(crate) fn into_whole_rows(self) -> Rows
        ensures { result ≡ merged_rows self.entry.chosen.indices.now self.entry.chosen.rows self.entry.old }
    {
        let IntoRows { chosen, old, .. } = self;
        let ChosenRows { indices, rows, .. } = chosen;
        let mut all_rows = old.into_vec();
        replace_rows_at(&mut all_rows, indices, rows.into_vec());
        Rows::new(all_rows)
    }
}

// Replaces the rows of `all_rows` at these indices: the row at the first index by the first of `rows`, and so on.
fn replace_rows_at(all_rows: &mut Vec<Row>, indices: &[usize], rows: Vec<Row>)
    requires within { All (λ index. index < vec_len all_rows.old) indices.now }
    requires same_length { length indices.now ≡ vec_len rows }
    ensures { all_rows.new.items ≡ merged_rows indices.now rows.items all_rows.old.items }
{
    let mut next = 0;
    for row in rows {
        all_rows[indices[next]] = row;
        next += 1;
    }
}

/// Returns the path of the report to write: the path of `--into`, or else the path of `--report`; `None` without these options.
pub(crate) fn run_report_path<'a>(args: &RunArgs<'a>) -> Option<&'a str>
    ensures { optional_text result ≡ run_report_path args.now }
{
    args.into.or(args.report)
}

/// Whether the report, the JUnit XML or the table of counts goes to standard output.
pub(crate) fn uses_run_stdout(args: &RunArgs<'_>) -> bool
    ensures { result ≡ uses_run_stdout args.now }
{
    is_stdout_at(run_report_path(args)) || is_stdout_at(args.junit) || is_stdout_at(args.counts)
}
