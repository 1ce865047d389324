//! Help and the version.

ghost use Rattle.std.specs.Prelude.{◌≡◌, IfErr, IfOk, OnErr, OnOk};
ghost use Rattle.std.specs.Io.KnownBytes.{Appends};
ghost use Rattle.rv_files.specs.Sinks.{AppendsPrefix};
ghost use Rattle.rvtest_app.specs.ReportedStops.{IsHelpWritten, IsHelpStop, IsArgsErrorStop};

use clap::error::ErrorKind;
use rv_command::{DONE, Stop, write_results};
use rv_files::Sink;
use rvtest_cli::ArgsError;

/// Responds to arguments that are not a command: if they request the help or the version, writes it to standard output, and returns status
/// 0; otherwise, returns the error in the arguments.
pub(crate) fn respond_to_args_error<O: Sink>(out: &mut O, error: ArgsError) -> Result<u8, Stop>
    ensures exit_status { IfOk result (λ status. status ≡ 0) }
    ensures help_written { OnOk result (IsHelpWritten error (O.accepted out.old) (O.accepted out.new)) }
    ensures no_failed_writes { OnOk result (O.failure_count out.new ≡ O.failure_count out.old) }
    ensures stopped { IfErr result (IsArgsErrorStop error (O.failure_count out.old) (O.failure_count out.new)) }
{
    match error {
        ArgsError::Message(ErrorKind::DisplayHelp | ErrorKind::DisplayVersion, text) => {
            write_help(out, text.as_str())
        }
        error => Err(Stop::of_args_error(error)),
    }
}

// Writes the text of the help or the version to standard output, and returns status 0.
fn write_help<O: Sink>(out: &mut O, text: &str) -> Result<u8, Stop>
    ensures exit_status { IfOk result (λ status. status ≡ 0) }
    ensures written { OnOk result (Appends (O.accepted out.old) (O.accepted out.new) text.now) }
    ensures no_failed_writes { OnOk result (O.failure_count out.new ≡ O.failure_count out.old) }
    ensures prefix_written { OnErr result (AppendsPrefix (O.accepted out.old) (O.accepted out.new) text.now) }
    ensures stopped { IfErr result (IsHelpStop (O.failure_count out.old) (O.failure_count out.new)) }
{
    write_results(out, text.as_bytes())?;
    Ok(DONE)
}
