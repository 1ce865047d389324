//! Laws of reports, with no code to run.

ghost use Rattle.std.specs.Prelude.{◌≡◌, ◌≤◌, ◌++◌, ℕ, List};
ghost use Rattle.rv_report.specs.Report.{report_text};
ghost use Rattle.rv_report.specs.declared.saved.Extent.TheVariants.{Whole};
ghost use Rattle.rv_report.specs.declared.saved.SavedReport.{SavedReport};
ghost use Rattle.rv_report.specs.Saved.{IsValidReport, saved_text};
ghost use Rattle.rv_report.specs.Differences.{line_feed_count};
ghost use Rattle.rv_report.specs.LenientReport.{lenient_report};
ghost use Rattle.rv_report.specs.FirstInvalidLine.{first_lines, IsReportPrefix};

/// Proves that two valid reports with the same text are equal.
pub fn one_text_one_report()
    ensures { (report other : SavedReport) → IsValidReport report → IsValidReport other
        → saved_text report ≡ saved_text other → report ≡ other }
{}

/// Proves that the text of the report of a whole list is the text that `write_report` writes for its rows.
pub fn whole_text_is_report_text()
    ensures { (report : SavedReport) → IsValidReport report → report.extent ≡ Whole
        → saved_text report ≡ report_text report.rows }
{}

/// Proves that if some report begins with the first lines of a text, then the report that `lenient_report` reads from the text begins with
/// these lines, too.
pub fn lenient_report_keeps_first_lines()
    ensures { (bytes : List ℕ) → (count : ℕ) → count ≤ line_feed_count bytes → IsReportPrefix (first_lines count bytes)
        → (rest : List ℕ) × (saved_text (lenient_report bytes) ≡ first_lines count bytes ++ rest) }
{}
