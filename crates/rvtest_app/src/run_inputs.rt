//! The files that a run reads and must not overwrite.

ghost use Rattle.std.specs.Prelude.{◌≡◌, ◌++◌, ◌∷◌, [], IfErr, IfOk, IfSome, OnOk};
ghost use Rattle.rv_command.specs.Texts.{optional_text};
ghost use Rattle.rv_files.specs.UnreadablePaths.{resolved_path};
ghost use Rattle.rv_rows.specs.Jobs.{console_path};
ghost use Rattle.rvtest_app.specs.Overwrites.{AreReportsPreserved, AreRunFilesNotInputs, IsRunOverwriteStop, failed_report_path, golden_paths_of_job, inputs_of_run, paths_of_job, input_paths, report_paths_of_run};

use crate::input_file::{InputPath, InputRole};
use crate::overwrites::{identified_files, push_input, reject_option_overwrite};
use rv_command::Stop;
use rv_files::Outputs;
use rv_rows::Job;
use rvtest_cli::RunArgs;
use std::alloc::{AllocError, Global};

/// Returns an error if an output file of a run would overwrite an input: the list, the file of known failures, a file of any job of the
/// list, or a report that the run reads. The report that `--into` names is updated, so overwriting it is not an error.
pub(crate) fn reject_run_overwrites<F: Outputs>(
    files: &F,
    alloc: Global,
    args: &RunArgs<'_>,
    jobs: &[Job],
) -> Result<(), Stop>
    ensures inputs_preserved { OnOk result (IfSome (F.committed files.now) (λ _. AreRunFilesNotInputs args.now jobs.now)) }
    ensures stopped { IfErr result (IsRunOverwriteStop args.now) }
{
    let inputs = identified_files(files, alloc, inputs_of_run(alloc, args, jobs)?)?;
    reject_option_overwrite(files, alloc, "--report", args.report, &inputs)?;
    reject_option_overwrite(files, alloc, "--junit", args.junit, &inputs)?;
    reject_option_overwrite(files, alloc, "--counts", args.counts, &inputs)?;
    reject_option_overwrite(files, alloc, "--into", args.into, &inputs)?;
    reject_report_overwrites(files, alloc, args)
}

// Returns an error if an output file of a run would overwrite a report that the run reads, except the one that `--into` updates.
fn reject_report_overwrites<F: Outputs>(
    files: &F,
    alloc: Global,
    args: &RunArgs<'_>,
) -> Result<(), Stop>
    ensures inputs_preserved { OnOk result (IfSome (F.committed files.now) (λ _. AreReportsPreserved args.now)) }
    ensures stopped { IfErr result (IsRunOverwriteStop args.now) }
{
    let failed = identified_files(files, alloc, failed_report_path(alloc, args)?)?;
    reject_option_overwrite(files, alloc, "--report", args.report, &failed)?;
    let reports = identified_files(files, alloc, report_paths_of_run(alloc, args)?)?;
    reject_option_overwrite(files, alloc, "--junit", args.junit, &reports)?;
    reject_option_overwrite(files, alloc, "--counts", args.counts, &reports)
}

// Returns the files that a run must not overwrite: its list, the file of known failures, and the files of all jobs.
fn inputs_of_run<'a>(
    alloc: Global,
    args: &RunArgs<'_>,
    jobs: &'a [Job],
) -> Result<Vec<InputPath<'a>>, AllocError>
    ensures { IfOk result (λ inputs. input_paths inputs.items ≡ inputs_of_run args.now jobs.now) }
{
    let mut inputs = Vec::new(alloc);
    push_input(
        alloc,
        &mut inputs,
        None,
        args.list,
        InputRole::Word("the job list"),
    )?;
    if let Some(known) = args.known {
        push_input(
            alloc,
            &mut inputs,
            None,
            known,
            InputRole::Word("the file of --known"),
        )?;
    }
    for job in jobs {
        push_job_paths(alloc, &mut inputs, args.root, job)?;
    }
    Ok(inputs)
}

// Appends the path of the job's image and the paths of its golden files, resolved against `root`.
fn push_job_paths<'a>(
    alloc: Global,
    inputs: &mut Vec<InputPath<'a>>,
    root: Option<&str>,
    job: &'a Job,
) -> Result<(), AllocError>
    ensures { OnOk result (input_paths inputs.new.items ≡ input_paths inputs.old.items ++ paths_of_job (optional_text root.entry) job.now) }
{
    push_image_path(alloc, inputs, root, job)?;
    push_golden_paths(alloc, inputs, root, job)
}

/// Appends the path of the job's image, resolved against `root`.
pub(crate) fn push_image_path<'a>(
    alloc: Global,
    inputs: &mut Vec<InputPath<'a>>,
    root: Option<&str>,
    job: &'a Job,
) -> Result<(), AllocError>
    ensures { OnOk result (input_paths inputs.new.items
        ≡ input_paths inputs.old.items ++ resolved_path (optional_text root.entry) job.now.image ∷ []) }
{
    let role = InputRole::JobFile {
        key: "image",
        job: job.name.as_str(),
    };
    push_input(alloc, inputs, root, job.image.as_str(), role)
}

/// Appends the paths of the job's golden files, resolved against `root`: first the signature, then the console output.
pub(crate) fn push_golden_paths<'a>(
    alloc: Global,
    inputs: &mut Vec<InputPath<'a>>,
    root: Option<&str>,
    job: &'a Job,
) -> Result<(), AllocError>
    ensures { OnOk result (input_paths inputs.new.items
        ≡ input_paths inputs.old.items ++ golden_paths_of_job (optional_text root.entry) job.now) }
{
    let name = job.name.as_str();
    if let Some(path) = &job.expect_signature {
        let signature = InputRole::JobFile {
            key: "expect_signature",
            job: name,
        };
        push_input(alloc, inputs, root, path.as_str(), signature)?;
    }
    if let Some(path) = golden_console_path(job) {
        let console = InputRole::JobFile {
            key: "expect_console_file",
            job: name,
        };
        push_input(alloc, inputs, root, path, console)?;
    }
    Ok(())
}

// Returns the path of the job's golden file for the console output; `None` if the job names none.
fn golden_console_path(job: &Job) -> Option<&str>
    ensures { optional_text result ≡ console_path job.now.expect_console }
{
    match &job.expect_console {
        Some(console) => console.path(),
        None => None,
    }
}

/// Returns a list with the path of the report that `--failed` names; an empty list without this option.
pub(crate) fn failed_report_path<'a>(
    alloc: Global,
    args: &RunArgs<'_>,
) -> Result<Vec<InputPath<'a>>, AllocError>
    ensures { IfOk result (λ inputs. input_paths inputs.items ≡ failed_report_path args.now) }
{
    let mut inputs = Vec::new(alloc);
    if let Some(failed) = args.failed {
        push_input(
            alloc,
            &mut inputs,
            None,
            failed,
            InputRole::Word("the report of --failed"),
        )?;
    }
    Ok(inputs)
}

// Returns the paths of the reports that a run reads, which `--failed` and `--into` name.
fn report_paths_of_run<'a>(
    alloc: Global,
    args: &RunArgs<'_>,
) -> Result<Vec<InputPath<'a>>, AllocError>
    ensures { IfOk result (λ inputs. input_paths inputs.items ≡ report_paths_of_run args.now) }
{
    let mut inputs = failed_report_path(alloc, args)?;
    if let Some(into) = args.into {
        push_input(
            alloc,
            &mut inputs,
            None,
            into,
            InputRole::Word("the report of --into"),
        )?;
    }
    Ok(inputs)
}
