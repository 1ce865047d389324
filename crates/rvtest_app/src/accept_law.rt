//! Laws of what `accept` writes. They are proved and have no code.

ghost use Rattle.std.specs.Prelude.{◌≡◌, ℕ, Bool, IsTrue, List, Ok, Some};
ghost use Rattle.rv_accept.specs.Passing.{is_pass_or_none};
ghost use Rattle.rv_files.specs.Files.{FileContents};
ghost use Rattle.rvtest_cli.specs.declared.accept.AcceptArgs.{AcceptArgs as Words};
ghost use Rattle.rv_command.specs.Texts.{IsTextAt};
ghost use Rattle.rv_rows.specs.JobList.{job_list_of};
ghost use Rattle.rv_rows.specs.declared_job.Job.{Job};
ghost use Rattle.rv_rows.specs.declared_row.Row.{Row};
ghost use Rattle.rvtest_app.specs.AcceptLaw.{HaveOneTextPerFile, IsRowOfRun, IsStoreAfter, IsFullyAccepted};
ghost use Rattle.rvtest_app.specs.Accepts.{IsAcceptOfSelected, written_files};
ghost use Rattle.rvtest_app.specs.CommandOutputs.{CommandOutputs};

/// Proves that a job that `accept` accepted does not fail in a `run` with the new files: its verdict is pass, or none if it has no
/// expectations. This holds if no golden file of the job was skipped, the job has no `same_as`, golden files whose paths lead to one file
/// get equal texts, and the run can read the job's files.
pub fn accepted_jobs_pass()
    ensures { (args : Words) (before after : FileContents) (bytes : List ℕ) (jobs : List Job) (chosen : List Bool)
        (status : ℕ) (from to : CommandOutputs) (index : ℕ) (job : Job) (row : Row)
        → IsTextAt (Some before) args.run.list.now bytes → job_list_of bytes ≡ Ok jobs
        → (accepted : IsAcceptOfSelected (Some before) args bytes jobs chosen status from to)
        → (store : IsStoreAfter (written_files accepted.summary) before after)
        → HaveOneTextPerFile store.leads accepted.summary.files.now
        → IsFullyAccepted accepted.summary index job
        → IsRowOfRun after args.run index row
        → IsTrue (is_pass_or_none row.verdict) }
{}
