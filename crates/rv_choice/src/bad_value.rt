//! Errors in the values of options that `clap` passes on as text.

ghost use Rattle.std.specs.Prelude.{◌≡◌, IfOk, string_bytes};
ghost use Rattle.rv_choice.specs.BadValues.{IsBadValueStop, bad_value_text};

use clap::error::ErrorKind;
use rv_command::{ChoosingCommand, Stop, usage_error};
use std::alloc::{AllocError, Global};

/// Returns the message that the value of an option is invalid, and why. `option` is the option as it is in the help, such as `--match
/// <REGEX>`.
pub(crate) fn bad_value_text(
    alloc: Global,
    option: &str,
    value: &str,
    reason: &str,
) -> Result<String, AllocError>
    ensures { IfOk result (λ text. string_bytes text ≡ bad_value_text option.now value.now reason.now) }
{
    let mut text = String::from_str(alloc, "invalid value '")?;
    text.push_str(value)?;
    text.push_str("' for '")?;
    text.push_str(option)?;
    text.push_str("': ")?;
    text.push_str(reason)?;
    Ok(text)
}

/// Returns the stop for an invalid value, with this message and the usage of the command. If the message could not be made, returns
/// `OutOfMemory`.
pub(crate) fn bad_value_stop(
    alloc: Global,
    command: ChoosingCommand,
    message: Result<String, AllocError>,
) -> Stop
    ensures { IsBadValueStop message result }
{
    match message {
        Ok(message) => {
            let kind = ErrorKind::ValueValidation;
            Stop::of_args_error(usage_error(alloc, command.command(alloc), kind, message.as_str()))
        }
        Err(error) => Stop::from(error),
    }
}
