//! The command `counts`.

ghost use Rattle.std.specs.Prelude.{◌≡◌, ◌⊎◌, ◌≤◌, IfErr, IfOk, IfSome, OnErr, OnOk, true};
ghost use Rattle.rv_command.specs.Texts.{optional_text};
ghost use Rattle.rv_count_tables.specs.Sum.{no_counts};
ghost use Rattle.rv_count_tables.specs.Table.{IsValidTable};
ghost use Rattle.rv_count_tables.specs.Text.{table_text};
ghost use Rattle.rvtest_app.specs.CountStops.{IsCountErrorStop, IsCountsStop, IsReadErrorStop, IsSumErrorStop, IsSumStop, IsTableFaultStop, IsTableNotAddedStop, count_overflow_message, two_names_message};
ghost use Rattle.rvtest_app.specs.CountSums.{AreTablesAdded, IsTableAdded, IsSumWritten};
ghost use Rattle.rvtest_app.specs.Outlets.{is_stdout};
ghost use Rattle.rvtest_app.specs.Overwrites.{HoldsIfCommitted, IsSumFileNotAnInput, IsSumOverwriteStop};
ghost use Rattle.rvtest_app.specs.CommandOutputs.{outputs_of};
ghost use Rattle.rvtest_app.specs.WrittenTexts.{written_path};

use crate::counts_note::sum_note;
use crate::crew::stop_of_run_error;
use crate::destinations::Destinations;
use crate::overwrites::{identified_files, inputs_of_args, reject_option_overwrite};
use crate::written_text::write_text;
use rv_command::{DONE, Stop, path_message, path_number_message, read_result_file, write_message};
use rv_count_tables::{
    CountTable, Images, ReadError, SumError, read_table, sum_of_tables, table_text,
};
use rv_files::{Inputs, Outputs, Sink};
use rv_job_text::{Span, text_of_spans};
use rv_stacks::CountError;
use rvtest_cli::CountsArgs;
use std::alloc::{AllocError, Global};

/// Adds up the tables of counts at the paths in the arguments, writes the sum to `--out` or standard output, and its summary to standard
/// error. The status is 0.
pub(crate) fn put_sum_of_tables<D: Inputs, F: Outputs + Drop, O: Sink + Drop, E: Sink + Drop>(
    inputs: &D,
    alloc: Global,
    args: &CountsArgs<'_>,
    destinations: &mut Destinations<F, O, E>,
) -> Result<u8, Stop>
    ensures written { IfOk result (λ status. IsSumWritten (D.contents inputs.now) args.now status
        (outputs_of F.committed O.accepted E.accepted E.failure_count destinations.old) (outputs_of F.committed O.accepted E.accepted E.failure_count destinations.new)) }
    ensures status_bound { IfOk result (λ status. status ≤ 1) }
    ensures nothing_committed { OnErr result (F.committed destinations.new.files ≡ F.committed destinations.old.files) }
    // Nothing but the sum goes to standard output.
    ensures out_unchanged { (is_stdout (written_path (optional_text args.now.out)) ≡ true) ⊎ (destinations.new.out ≡ destinations.old.out) }
    ensures stopped { IfErr result (IsCountsStop (D.contents inputs.now) args.now) }
    // No input table is overwritten.
    ensures inputs_preserved { HoldsIfCommitted (IsSumFileNotAnInput args.now) (F.committed destinations.old.files) (F.committed destinations.new.files) }
{
    reject_sum_overwrite(&destinations.files, alloc, args)?;
    let sum = sum_of_paths(inputs, alloc, args.tables.as_slice())?;
    let text = table_text(alloc, &sum)?;
    let note = sum_note(alloc, &sum)?;
    write_text(alloc, destinations, args.out, text.as_bytes())?;
    write_message(&mut destinations.errors, note.as_slice());
    Ok(DONE)
}

// Returns an error if writing the output file would overwrite an input table.
fn reject_sum_overwrite<F: Outputs>(
    files: &F,
    alloc: Global,
    args: &CountsArgs<'_>,
) -> Result<(), Stop>
    ensures inputs_preserved { OnOk result (IfSome (F.committed files.now) (λ _. IsSumFileNotAnInput args.now)) }
    ensures stopped { IfErr result (IsSumOverwriteStop args.now) }
{
    let inputs = identified_files(
        files,
        alloc,
        inputs_of_args(alloc, args.tables.as_slice(), "the table")?,
    )?;
    reject_option_overwrite(files, alloc, "--out", args.out, &inputs)
}

// Returns the sum of the tables of counts at these paths.
fn sum_of_paths<D: Inputs>(inputs: &D, alloc: Global, paths: &[&str]) -> Result<CountTable, Stop>
    ensures added { IfOk result (AreTablesAdded (D.contents inputs.now) paths.now no_counts) }
    ensures valid_table { IfOk result IsValidTable }
    ensures stopped { IfErr result (IsSumStop (D.contents inputs.now) paths.now) }
{
    let mut sum = CountTable {
        images: Images::new(Vec::new(alloc)),
        runs: 0,
    };
    for path in paths {
        sum = sum_with_path(inputs, alloc, path, &sum)?;
    }
    Ok(sum)
}

// Adds the table of counts at the path to `before`, the sum of the earlier tables, and returns the new sum.
fn sum_with_path<D: Inputs>(
    inputs: &D,
    alloc: Global,
    path: &str,
    before: &CountTable,
) -> Result<CountTable, Stop>
    requires { IsValidTable before.now }
    ensures added { IfOk result (IsTableAdded (D.contents inputs.now) path.now before.now) }
    ensures valid_table { IfOk result IsValidTable }
    ensures stopped { IfErr result (IsTableNotAddedStop (D.contents inputs.now) path.now before.now) }
{
    let text = read_result_file(inputs, alloc, path)?;
    let table = table_of_text(alloc, path, text.as_slice())?;
    match sum_of_tables(alloc, before, &table) {
        Ok(sum) => Ok(sum),
        Err(error) => Err(sum_error_stop(alloc, path, error)),
    }
}

/// Parses the text of the file at a path as a table of counts. The path is for error messages.
pub(crate) fn table_of_text(alloc: Global, path: &str, text: &[u8]) -> Result<CountTable, Stop>
    ensures valid_table { IfOk result (λ table. IsValidTable table × (table_text table ≡ text.now)) }
    ensures stopped { IfErr result (IsTableFaultStop path.now text.now) }
{
    match read_table(alloc, text) {
        Ok(table) => Ok(table),
        Err(error) => Err(read_error_stop(alloc, path, error)),
    }
}

// Returns the stop for an error in reading the table of counts at the path.
fn read_error_stop(alloc: Global, path: &str, error: ReadError) -> Stop
    ensures { IsReadErrorStop path.now error result }
{
    match error {
        ReadError::OutOfMemory => Stop::OutOfMemory,
        ReadError::Line(line) => {
            let reason = ": invalid line in a table of counts\n";
            Stop::rejection(path_number_message(alloc, path, ":", line, reason))
        }
        ReadError::Truncated => {
            Stop::rejection(path_message(alloc, path, "the table is truncated"))
        }
    }
}

/// Returns the stop for an error in adding the table at the path to the sum of the earlier tables.
pub(crate) fn sum_error_stop(alloc: Global, path: &str, error: SumError) -> Stop
    ensures { IsSumErrorStop path.now error result }
{
    match error {
        SumError::OutOfMemory => Stop::OutOfMemory,
        SumError::Count(address) => {
            let what = ": the count at ";
            Stop::rejection(count_overflow_message(alloc, path, what, address))
        }
        SumError::Node(function) => {
            let what = ": a stack count of the function at ";
            Stop::rejection(count_overflow_message(alloc, path, what, function))
        }
        SumError::Names(function) => Stop::rejection(two_names_message(alloc, path, function)),
        SumError::Runs => {
            let what = "the number of runs does not fit in 64 bits";
            Stop::rejection(path_message(alloc, path, what))
        }
    }
}

/// Returns the stop for an error in counting jobs with call stacks. If counts cannot be added up, the message names the path.
pub(crate) fn count_error_stop(alloc: Global, path: &str, error: CountError) -> Stop
    ensures { IsCountErrorStop path.now error result }
{
    match error {
        CountError::Run(error) => stop_of_run_error(error),
        CountError::Sum(error) => sum_error_stop(alloc, path, error),
    }
}

// Returns the message for a table whose name for the function at this address differs from the name in an earlier table.
fn two_names_message(alloc: Global, path: &str, function: u32) -> Result<Vec<u8>, AllocError>
    ensures { IfOk result (λ text. text.items ≡ two_names_message path.now function) }
{
    text_of_spans(
        alloc,
        &[
            Span::Text("rvtest: "),
            Span::Printable(path.as_bytes()),
            Span::Text(": the function at "),
            Span::Word(function),
            Span::Text(" has two names in one image\n"),
        ],
    )
}

// Returns the message for a count at `address` that no longer fits in 64 bits after the table at the path is added; `count_name` says which
// count.
fn count_overflow_message<'a>(
    alloc: Global,
    path: &'a str,
    count_name: &'a str,
    address: u32,
) -> Result<Vec<u8>, AllocError>
    ensures { IfOk result (λ text. text.items ≡ count_overflow_message path.now count_name.now address) }
{
    text_of_spans(
        alloc,
        &[
            Span::Text("rvtest: "),
            Span::Printable(path.as_bytes()),
            Span::Text(count_name),
            Span::Word(address),
            Span::Text(" does not fit in 64 bits\n"),
        ],
    )
}
