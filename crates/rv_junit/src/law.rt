//! Laws of JUnit documents. They are proved and not executed.

ghost use Rattle.std.specs.Prelude.{◌≡◌, ◌+◌, ◌<◌, ◌^◌, ℕ, List, count_by, length};
ghost use Rattle.std.specs.List.{AllByRecursion};
ghost use Rattle.hex.specs.Hex.{IsBytes};
ghost use Rattle.rv_stream.specs.declared_row.Row.{Row};
ghost use Rattle.rv_job_text.specs.Judgement.{JudgeView};
ghost use Rattle.rv_job_text.specs.TotalsLine.{known_count, passed_count};
ghost use Rattle.rv_job_text.specs.FailureOrError.{is_error, is_failure};
ghost use Rattle.rv_junit.specs.Junit.{AreReasonsBytes, IsWrittenRow, junit_text};
ghost use Rattle.rv_job_text.specs.Xml.{IsXmlCharacters};

/// Proves that a document consists of XML 1.0 characters in UTF-8, whatever bytes its names, lines, reasons and consoles have.
pub fn documents_are_xml_characters()
    ensures { (suite_name : List ℕ) (judging : JudgeView) (texts : List (List ℕ)) (rows : List Row)
        → IsBytes suite_name → AreReasonsBytes judging → AllByRecursion IsBytes texts → AllByRecursion IsWrittenRow rows
        → length rows < 2 ^ 64 → IsXmlCharacters (junit_text suite_name judging texts rows) }
{}

/// Proves that each row is counted exactly once: as a failure, as an error, as skipped, or as passed.
pub fn each_row_is_counted_once()
    ensures { (judging : JudgeView) (rows : List Row)
        → count_by (is_failure judging) rows + count_by (is_error judging) rows + known_count judging rows
        + passed_count judging rows
        ≡ length rows }
{}
