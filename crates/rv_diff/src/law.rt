//! Laws of differences, with no code to run.

ghost use Rattle.std.specs.Prelude.{◌≡◌, ◌==◌, List, length};
ghost use Rattle.rv_rows.specs.declared_row.Row.{Row};
ghost use Rattle.rv_diff.specs.declared.change.CompareMode.{CompareMode};
ghost use Rattle.rv_diff.specs.Change.{rows_agree};
ghost use Rattle.rv_diff.specs.Diff.{difference_lines, difference_counts, differing_count};
ghost use Rattle.rv_diff.specs.Differences.{change_lines};

/// Proves that `diff` prints a line for the old and the new row of a job if and only if they differ.
pub fn rows_agree_iff_no_line()
    ensures { (mode : CompareMode) (old new : Row)
        → (length (change_lines mode old new) == 0) ≡ rows_agree mode old new }
{}

/// Proves that `diff` prints a line of differences for two reports if and only if at least one job differs.
pub fn jobs_differ_iff_some_line()
    ensures { (mode : CompareMode) (old new : List Row)
        → (length (difference_lines mode old new) == 0)
        ≡ (differing_count (difference_counts mode old new) == 0) }
{}
