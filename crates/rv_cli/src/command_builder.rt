//! Building commands for `clap`.

ghost use Rattle.std.specs.Prelude.{◌≡◌, false};
ghost use Rattle.clap.specs.Words.{App, Rule, rule_of, with_rule, with_subcommand};
ghost use Rattle.rv_cli.specs.CommandBuilder.{HasApp, IsBuilt};

use clap::{Arg, Command};
use std::alloc::AllocError;

/// A command under construction. It is passed from call to call as a `Result`, because each `?` on a command costs the prover ten seconds.
pub type Built<'a> = Result<Command<'a>, AllocError>;

/// Returns the command with a subcommand added. If either is an error, returns that error.
pub fn with_subcommand<'a>(command: Built<'a>, subcommand: Built<'a>) -> Built<'a>
    ensures { (app : App) → (sub_app : App) → HasApp app command.entry → IsBuilt sub_app subcommand.entry
        → HasApp (with_subcommand app sub_app.top) result }
{
    let command = command?;
    command.subcommand(subcommand?)
}

/// Returns the command with an argument added. If it is an error, returns that error.
pub fn with_argument<'a>(command: Built<'a>, argument: Arg<'a>) -> Built<'a>
    ensures { (app : App) → (rule : Rule)
        → (rule_of argument.entry ≡ rule) × (argument.entry.global ≡ false)
        → IsBuilt app command.entry → IsBuilt (with_rule app rule) result }
{
    command?.arg(argument)
}
