//! The results of commands that write one text to standard output.

ghost use Rattle.std.specs.Prelude.{◌≡◌, IfErr, IfOk, MatchResult, OnErr, OnOk};
ghost use Rattle.std.specs.Io.KnownBytes.{Appends};
ghost use Rattle.rv_files.specs.Counts.{one_more};
ghost use Rattle.rv_files.specs.Sinks.{AppendsPrefix};

use rv_command::{Stop, write_results};
use rv_files::Sink;

/// The text that a command writes to standard output, and its exit status.
#[derive(Drop)]
pub(crate) struct CommandResult {
    pub(crate) text: Vec<u8>,
    pub(crate) status: u8,
}

/// Writes the text of a command's result to standard output, and returns its exit status. If the command stopped, writes nothing, and
/// returns its stop.
pub(crate) fn write_command_result<O: Sink>(
    out: &mut O,
    outcome: Result<CommandResult, Stop>,
) -> Result<u8, Stop>
    ensures written { IfOk result (λ status. MatchResult outcome (λ output. (status ≡ output.status)
        × Appends (O.accepted out.old) (O.accepted out.new) output.text.items) (λ stop. ⊥)) }
    ensures no_failed_writes { OnOk result (O.failure_count out.new ≡ O.failure_count out.old) }
    ensures prefix_written { OnErr result (MatchResult outcome
        (λ output. AppendsPrefix (O.accepted out.old) (O.accepted out.new) output.text.items)
        (λ stop. O.accepted out.new ≡ O.accepted out.old)) }
    ensures failures_counted { IfErr result (λ _. MatchResult outcome
        (λ _. O.failure_count out.new ≡ one_more (O.failure_count out.old)) (λ _. O.failure_count out.new ≡ O.failure_count out.old)) }
    ensures stopped { IfErr result (λ stop. MatchResult outcome (λ _. stop ≡ Stop.WriteFailed) (λ error. stop ≡ error)) }
{
    let CommandResult { text, status } = outcome?;
    write_results(out, text.as_slice())?;
    Ok(status)
}
