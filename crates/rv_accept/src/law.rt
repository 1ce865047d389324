//! Laws of accepted results. They are proved and have no code.

ghost use Rattle.std.specs.Prelude.{◌≡◌, ℕ, List, None, Option, Some, IsTrue};
ghost use Rattle.std.specs.List.{All};
ghost use Rattle.rv_rows.specs.Jobs.{without_expectations};
ghost use Rattle.rv_rows.specs.Plans.{PlanView};
ghost use Rattle.rv_rows.specs.declared_job.Job.{Job};
ghost use Rattle.rv_rows.specs.declared.outcome.Outcome.{Outcome};
ghost use Rattle.rv_rows.specs.declared_row.Row.{Row};
ghost use Rattle.rv_rows.specs.Rows.{row_of};
ghost use Rattle.rv_rows.specs.Verdict.{lines_of_signature, meets_all_expectations};
ghost use Rattle.rv_accept.specs.declared.ends.Acceptance.{Acceptance as AnAcceptance};
ghost use Rattle.rv_accept.specs.declared.current_verdict.CurrentVerdict.{CurrentVerdict as ACurrentVerdict};
ghost use Rattle.rv_accept.specs.declared.current_verdict.CurrentVerdict.TheVariants as current;
ghost use Rattle.rv_accept.specs.declared.golden_texts.GoldenText.{GoldenText as AGoldenText};
ghost use Rattle.rv_accept.specs.declared.golden_outcomes.GoldenFileOutcome.TheVariants as outcome;
ghost use Rattle.rv_accept.specs.Accepted.{accepted_job};
ghost use Rattle.rv_accept.specs.Ends.{is_accepted_end};
ghost use Rattle.rv_accept.specs.GoldenOutcomes.{outcome_of_golden_file, is_for_file};
ghost use Rattle.rv_accept.specs.Passing.{HasExpectedEnd, AreGoldenFilesUpToDate, is_pass_or_none};
ghost use Rattle.rv_accept.specs.Runs.{chosen_skip_reason};

/// Proves that a job without `same_as` meets all its expectations once its results are accepted: its golden files have the console output
/// and the lines of the signature, and the list has the actual values.
pub fn accepted_jobs_meet_their_expectations()
    ensures { (acceptance : AnAcceptance) (job : Job) (outcome : Outcome) (other : Option Outcome)
        → IsTrue (is_accepted_end acceptance job outcome.ending)
        → job.same_as ≡ None
        → IsTrue (meets_all_expectations (accepted_job job outcome.ending outcome.console) outcome
        (Some (lines_of_signature outcome.signature)) (Some outcome.console) other) }
{}

/// Proves that a golden file gets a text only if every job that names the file would write this text to it. In particular, none of these
/// jobs was skipped.
pub fn an_agreed_text_is_given_by_each_job()
    ensures { (path text : List ℕ) (golden_texts : List AGoldenText) → outcome_of_golden_file path golden_texts ≡ outcome.Agreed text
        → All (λ golden_text. IsTrue (is_for_file path golden_text) → golden_text.text ≡ Some text) golden_texts }
{}

/// Proves that a chosen job that was not skipped does not fail in a later run: its verdict is `pass`, or `none` if it has no expectations.
/// It is assumed that the job was run without its expectations and has no `same_as`, that the list has its actual values, and that the
/// later run reads the same image and finds the results in the golden files. A job that already passes must have ended as it expects.
pub fn accepted_jobs_pass_with_their_files()
    ensures { (acceptance : AnAcceptance) (verdict : ACurrentVerdict) (job : Job) (earlier later : PlanView) (row : Row)
        → row ≡ row_of earlier (without_expectations job)
        → chosen_skip_reason acceptance verdict job row ≡ None
        → (verdict ≡ current.Passes → HasExpectedEnd job row)
        → job.same_as ≡ None
        → AreGoldenFilesUpToDate earlier.results later.results job row
        → IsTrue (is_pass_or_none (row_of later (accepted_job job row.ending row.console)).verdict) }
{}
