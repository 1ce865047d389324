//! Laws of the lines. They are proved and not executed.

ghost use Rattle.std.specs.Prelude.{◌≡◌, ◌≢◌, ℕ, List};
ghost use Rattle.std.specs.List.{flat_map};
ghost use Rattle.rv_job_text.specs.ConsoleLines.{DifferFirstAt, equal_line_count, complete_lines};

/// Proves that the lines of a text, joined, are the text.
pub fn lines_are_the_text()
    ensures { (text : List ℕ) → flat_map (λ line. line) (complete_lines text) ≡ text }
{}

/// Proves that the line shown as the first difference is the first that differs: all earlier lines are equal in both texts, and at this
/// line they differ or one text has ended.
pub fn shown_line_differs_first()
    ensures { (actual expected : List ℕ) → actual ≢ expected
        → DifferFirstAt (equal_line_count actual expected) (complete_lines actual) (complete_lines expected) }
{}
