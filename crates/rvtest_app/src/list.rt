//! The command `list`.

ghost use Rattle.std.specs.Prelude.{◌≡◌, ◌⊎◌, ◌≤◌, ◌<◌, ◌++◌, IfErr, IfOk, IfSome, OnOk, length, option_map};
ghost use Rattle.std.specs.List.{All};
ghost use Rattle.rvtest_app.specs.CommandStops.{IsListStop, IsNoChoiceStop};
ghost use Rattle.rvtest_app.specs.Commands.{failure_rule};
ghost use Rattle.rvtest_app.specs.Lists.{IsListOutputOf, IsListOutputAt, IsListWritten, name_line, name_lines};
ghost use Rattle.rvtest_app.specs.Runs.{selected_job_indices};
ghost use Rattle.rvtest_app.specs.CommandOutputs.{outputs_of};

use crate::destinations::Destinations;
use crate::rules::failure_rule;
use rv_choice::{Choice, Chooser};
use rv_command::{DONE, Stop, parse_list, read_list_text, write_message, write_results};
use rv_files::{Inputs, Outputs, Sink};
use rv_job_text::push_text;
use rv_rows::{Job, selected_indices};
use rvtest_cli::{ChoosingCommand, RunArgs};
use std::alloc::{AllocError, Global};

// The names of the chosen jobs, one per line, and the notes about the choice.
#[derive(Drop)]
struct ListedJobs {
    names: Vec<u8>,
    notes: Vec<u8>,
}

/// Writes the notes about the choice to standard error, and the names of the jobs that a run with these arguments would run to standard
/// output. The status is 0.
pub(crate) fn list_chosen_jobs<D: Inputs, F: Outputs + Drop, O: Sink + Drop, E: Sink + Drop>(
    inputs: &D,
    alloc: Global,
    args: &RunArgs<'_>,
    destinations: &mut Destinations<F, O, E>,
) -> Result<u8, Stop>
    ensures written { IfOk result (λ status. IsListWritten (D.contents inputs.now) args.now status
        (outputs_of F.committed O.accepted E.accepted E.failure_count destinations.old) (outputs_of F.committed O.accepted E.accepted E.failure_count destinations.new)) }
    ensures status_bound { IfOk result (λ status. status ≤ 1) }
    ensures stopped { IfErr result (λ stop. (stop ≡ Stop.WriteFailed)
        ⊎ IsListStop (D.contents inputs.now) args.now stop) }
{
    let ListedJobs { names, notes } = chosen_jobs(inputs, alloc, args)?;
    write_message(&mut destinations.errors, notes.as_slice());
    write_results(&mut destinations.out, names.as_slice())?;
    Ok(DONE)
}

// Returns the names of the chosen jobs of the list at the path in the arguments, and the notes about the choice.
fn chosen_jobs<D: Inputs>(inputs: &D, alloc: Global, args: &RunArgs<'_>) -> Result<ListedJobs, Stop>
    ensures listed { IfOk result (λ listed. IsListOutputAt (D.contents inputs.now) args.now
        listed.names.items listed.notes.items) }
    ensures stopped { IfErr result (IsListStop (D.contents inputs.now) args.now) }
{
    let text = read_list_text(inputs, alloc, args.list)?;
    chosen_jobs_of_text(inputs, alloc, args, text.as_slice())
}

// Returns the names of the chosen jobs of the list with this text, and the notes about the choice.
fn chosen_jobs_of_text<D: Inputs>(
    inputs: &D,
    alloc: Global,
    args: &RunArgs<'_>,
    text: &[u8],
) -> Result<ListedJobs, Stop>
    ensures listed { IfOk result (λ listed. IsListOutputOf (D.contents inputs.now) args.now text.now
        listed.names.items listed.notes.items) }
    ensures stopped { IfErr result (IsNoChoiceStop (D.contents inputs.now) args.now text.now) }
{
    let jobs = parse_list(alloc, args.list, text)?;
    let chooser = Chooser {
        inputs,
        alloc,
        args,
        rule: failure_rule(args.lenient),
        command: ChoosingCommand::List,
    };
    let Choice { selection, notes } = chooser.choose(jobs.as_slice())?;
    let names = match selection {
        Some(selection) => selected_name_lines(alloc, jobs.as_slice(), selection.as_slice())?,
        None => Vec::new(alloc),
    };
    Ok(ListedJobs { names, notes })
}

// Returns the names of the selected jobs, one per line.
fn selected_name_lines(
    alloc: Global,
    jobs: &[Job],
    selection: &[bool],
) -> Result<Vec<u8>, AllocError>
    requires { length selection.now ≡ length jobs.now }
    ensures { IfOk result (λ names. names.items ≡ name_lines jobs.now (selected_job_indices selection.now)) }
{
    let indices = selected_indices(alloc, selection)?;
    let mut names = Vec::new(alloc);
    push_name_lines(&mut names, jobs, indices.as_slice())?;
    Ok(names)
}

// Appends the names of the jobs at these indices, one per line.
fn push_name_lines(names: &mut Vec<u8>, jobs: &[Job], indices: &[usize]) -> Result<(), AllocError>
    requires { All (λ index. index < length jobs.now) indices.now }
    ensures { OnOk result (names.new.items ≡ names.old.items ++ name_lines jobs.now indices.now) }
{
    for at in 0..indices.len() {
        let index = indices[at];
        push_name_line(names, &jobs[index])?;
    }
    Ok(())
}

// Appends the name of a job, as a line.
fn push_name_line(names: &mut Vec<u8>, job: &Job) -> Result<(), AllocError>
    ensures { OnOk result (names.new.items ≡ names.old.items ++ name_line job.now) }
{
    push_text(names, job.name.as_str())?;
    push_text(names, "\n")
}
