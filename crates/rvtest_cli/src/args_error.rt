//! Errors in the arguments.

ghost use Rattle.std.specs.Prelude.{◌≡◌, IfOk, string_bytes};
ghost use Rattle.clap.specs.Words.{kind_of};
ghost use Rattle.rvtest_cli.specs.ArgsErrors.{IsErrorOfKind, IsUsageError, IsUsageText, usage_error_text};

use crate::tips::{FirstArgument, error_text};
use clap::error::ErrorKind;
use clap::{Command, Error};
use std::alloc::{AllocError, Global};

/// Why the arguments make no request: they have an error, or they request the help or the version.
#[derive(Drop)]
pub enum ArgsError {
    /// Memory ran out.
    OutOfMemory,
    /// An error of this kind, or the help or the version, with the text to print.
    Message(ErrorKind, String),
}

impl ArgsError {
    /// Converts an error of `clap`; its tips are improved. `first` is what the first argument should be. No contract says which texts
    /// `clap` writes.
    pub(crate) fn from_clap(alloc: Global, error: &Error, first: FirstArgument) -> ArgsError
        ensures { IsErrorOfKind (kind_of error.now) result }
    {
        match error.kind() {
            ErrorKind::OutOfMemory => ArgsError::OutOfMemory,
            kind => match error_text(alloc, error, first) {
                Ok(text) => ArgsError::Message(kind, text),
                Err(error) => ArgsError::from(error),
            },
        }
    }
}

impl From<AllocError> for ArgsError {
    ghost use Rattle.rvtest_cli.specs.declared.args_error.ArgsError.TheVariants.{OutOfMemory};

    ghost from_gives = { λ _ error. error ≡ OutOfMemory };

    // Returns `OutOfMemory`.
    fn from(_: AllocError) -> ArgsError {
        ArgsError::OutOfMemory
    }
}

/// Returns an error that `clap` itself does not detect, with a text as `clap` would write it: `error: ` and the message, the usage of the
/// command, and the hint to try `--help`. The message has no line feed at its end.
pub fn usage_error(
    alloc: Global,
    command: Result<Command<'_>, AllocError>,
    kind: ErrorKind,
    message: &str,
) -> ArgsError
    ensures { IsUsageError kind message.now result }
{
    match text_with_usage(alloc, command, message) {
        Ok(text) => ArgsError::Message(kind, text),
        Err(error) => ArgsError::from(error),
    }
}

// Returns the text of an error: the message, the usage of the command, and the hint to try `--help`.
fn text_with_usage(
    alloc: Global,
    command: Result<Command<'_>, AllocError>,
    message: &str,
) -> Result<String, AllocError>
    ensures { IfOk result (λ text. IsUsageText message.now (string_bytes text)) }
{
    let usage = usage_of(command)?;
    usage_error_text(alloc, message, usage.as_str())
}

// Returns the text of an error: the message, the usage of a command, and the hint to try `--help`.
fn usage_error_text(alloc: Global, message: &str, usage: &str) -> Result<String, AllocError>
    ensures { IfOk result (λ text. string_bytes text ≡ usage_error_text message.now usage.now) }
{
    let mut text = String::from_str(alloc, "error: ")?;
    text.push_str(message)?;
    text.push_str("\n\n")?;
    text.push_str(usage)?;
    text.push_str("\n\nFor more information, try '--help'.\n")?;
    Ok(text)
}

// Returns the usage of the command, as `clap` writes it.
fn usage_of(command: Result<Command<'_>, AllocError>) -> Result<String, AllocError> {
    match command {
        Ok(mut command) => {
            let usage = command.render_usage();
            // Dropping each of its fields at the end of the block would take twice as long to prove.
            drop(command);
            usage
        }
        Err(error) => Err(error),
    }
}
