//! Laws of reports and of `accept`. They are proved and have no code.

ghost use Rattle.std.specs.Prelude.{◌≡◌, [], List};
ghost use Rattle.rv_accept_text.specs.AcceptLines.{changed_count};
ghost use Rattle.rv_accept_text.specs.declared.accept_summary.AcceptSummary.{AcceptSummary};
ghost use Rattle.rv_rows.specs.declared_row.Row.{Row};
ghost use Rattle.rvtest_app.specs.Accepts.{written_files};
ghost use Rattle.rvtest_app.specs.ReportSummary.{AreSortedBySteps, rows_by_steps};

/// Proves that `rows_by_steps` sorts the rows of a report by descending steps: each row occurs once, and rows with equal steps keep their
/// order.
pub fn rows_by_steps_are_sorted()
    ensures { (rows : List Row) → AreSortedBySteps rows (rows_by_steps rows) }
{}

/// Proves that if `accept` reports no change, it writes no file.
pub fn nothing_is_written_if_nothing_changes()
    ensures { (summary : AcceptSummary) → changed_count summary ≡ 0 → written_files summary ≡ [] }
{}
