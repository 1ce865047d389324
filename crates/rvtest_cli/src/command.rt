//! The command line of `rvtest`, as `clap` parses it.

ghost use Rattle.std.specs.Prelude.{◌≡◌, ◌++◌, IfOk, codes, false, string_bytes};
ghost use Rattle.clap.specs.Words.{App, app_of, new_app};
ghost use Rattle.clap.specs.declared.builder.command.Command.TheViews.{out-Command};
ghost use Rattle.rv_cli.specs.CommandBuilder.{HasApp, HasAfterHelp, HasUsageOf, HasVersion, IsBuilt};
ghost use Rattle.rvtest_cli.specs.RvtestCommand.{accept_app, choosing_app, cover_app, diff_app, explain_app, list_app, subcommand_app, merge_app, profile_app, show_app, rvtest_run_app, rvtest_full_app};
ghost use Rattle.rvtest_cli.specs.RvtestCommand.{rvtest_top_app, with_subcommands};

use crate::arguments::{Argument, with_arguments};
use crate::table::{ACCEPT, COMMANDS, COVER, DIFF, EXPLAIN, LIST, MERGE, PROFILE, RUN, SHOW};
use clap::Command;
use rv_cli::command_builder::{Built, with_subcommand};
use std::alloc::{AllocError, Global};

/// A command of `rvtest`, as the table describes it.
#[derive(Clone, Copy)]
pub(crate) struct Subcommand<'a> {
    pub(crate) name: &'a str,
    pub(crate) about: &'a str,
    /// The end of its help: examples and exit statuses.
    pub(crate) after: &'a str,
    pub(crate) arguments: &'a [Argument<'a>],
}

/// Returns the command `rvtest` with all its subcommands.
pub(crate) fn rvtest_command<'a>(alloc: Global) -> Result<Command<'a>, AllocError>
    ensures { IfOk result (λ command. app_of command ≡ rvtest_full_app) }
{
    with_subcommands(alloc, top_command(alloc), &COMMANDS)
}

// Returns the command `rvtest` with its version and without its subcommands.
fn top_command<'a>(alloc: Global) -> Built<'a>
    ensures app { IsBuilt rvtest_top_app result }
    ensures version { HasVersion (codes "1.0.0") result }
{
    Command::new(alloc, "rvtest")
        .subcommand_required(true)
        .disable_help_subcommand(true)
        .about("Run lists of firmware tests and show what failed and why")
        .version("1.0.0")
        .bin_name("rvtest")
}

// Returns the command with these subcommands added, in order.
fn with_subcommands<'a>(
    alloc: Global,
    command: Built<'a>,
    subcommand: &[Subcommand<'a>],
) -> Built<'a>
    ensures { (app : App) → HasApp app command.entry
        → HasApp (with_subcommands app subcommand.now) result }
{
    let mut command = command;
    for below in subcommand {
        command = with_subcommand(command, subcommand_of_table(alloc, below));
    }
    command
}

// Returns the command that the table describes, with its arguments, for `clap`.
fn subcommand_of_table<'a>(alloc: Global, subcommand: &Subcommand<'a>) -> Built<'a>
    ensures { IsBuilt (subcommand_app subcommand.now) result }
{
    let command = bare_command(alloc, subcommand);
    with_arguments(alloc, command, subcommand.arguments)
}

// Returns the command that the table describes, without arguments, for `clap`. Its usage begins with `rvtest` and its name.
fn bare_command<'a>(alloc: Global, subcommand: &Subcommand<'a>) -> Built<'a>
    ensures app { IsBuilt (new_app subcommand.now.name.now) result }
    ensures usage { HasUsageOf (codes "rvtest " ++ subcommand.now.name.now) result }
    ensures after { HasAfterHelp subcommand.now.after.now result }
{
    match usage_text(alloc, subcommand.name) {
        Ok(usage) => Command::new(alloc, subcommand.name)
            .about(subcommand.about)
            .after_help(subcommand.after)
            .bin_name(usage.as_str()),
        Err(error) => Err(error),
    }
}

// Returns the beginning of a subcommand's usage: `rvtest` and its name.
fn usage_text(alloc: Global, name: &str) -> Result<String, AllocError>
    ensures { IfOk result (λ usage. string_bytes usage ≡ codes "rvtest " ++ name.now) }
{
    let mut usage = String::from_str(alloc, "rvtest ")?;
    usage.push_str(name)?;
    Ok(usage)
}

/// A command that chooses jobs of a list.
#[derive(Clone, Copy)]
pub enum ChoosingCommand {
    Run,
    List,
    Accept,
    Cover,
    Profile,
}

impl ChoosingCommand {
    /// Returns this command for `clap`, to show its usage when its arguments are rejected.
    pub fn command<'a>(self, alloc: Global) -> Result<Command<'a>, AllocError>
        ensures { IfOk result (λ command.
            (app_of command ≡ choosing_app self) × ((out-Command command).has_globals ≡ false)) }
    {
        match self {
            ChoosingCommand::Run => run_command(alloc),
            ChoosingCommand::List => list_command(alloc),
            ChoosingCommand::Accept => accept_command(alloc),
            ChoosingCommand::Cover => cover_command(alloc),
            ChoosingCommand::Profile => profile_command(alloc),
        }
    }
}

/// Returns the command `rvtest list`, to show its usage when its arguments are rejected.
pub(crate) fn list_command<'a>(alloc: Global) -> Result<Command<'a>, AllocError>
    ensures { IfOk result (λ command.
        (app_of command ≡ list_app) × ((out-Command command).has_globals ≡ false)) }
{
    subcommand_of_table(alloc, &LIST)
}

/// Returns the command `rvtest accept`, to show its usage when its arguments are rejected.
pub(crate) fn accept_command<'a>(alloc: Global) -> Result<Command<'a>, AllocError>
    ensures { IfOk result (λ command.
        (app_of command ≡ accept_app) × ((out-Command command).has_globals ≡ false)) }
{
    subcommand_of_table(alloc, &ACCEPT)
}

/// Returns the command `rvtest cover`, to show its usage when its arguments are rejected.
pub(crate) fn cover_command<'a>(alloc: Global) -> Result<Command<'a>, AllocError>
    ensures { IfOk result (λ command.
        (app_of command ≡ cover_app) × ((out-Command command).has_globals ≡ false)) }
{
    subcommand_of_table(alloc, &COVER)
}

/// Returns the command `rvtest profile`, to show its usage when its arguments are rejected.
pub(crate) fn profile_command<'a>(alloc: Global) -> Result<Command<'a>, AllocError>
    ensures { IfOk result (λ command.
        (app_of command ≡ profile_app) × ((out-Command command).has_globals ≡ false)) }
{
    subcommand_of_table(alloc, &PROFILE)
}

/// Returns the command `rvtest run`, to show its usage when its arguments are rejected.
pub(crate) fn run_command<'a>(alloc: Global) -> Result<Command<'a>, AllocError>
    ensures { IfOk result (λ command.
        (app_of command ≡ rvtest_run_app) × ((out-Command command).has_globals ≡ false)) }
{
    subcommand_of_table(alloc, &RUN)
}

/// Returns the command `rvtest diff`, to show its usage when its arguments are rejected.
pub(crate) fn diff_command<'a>(alloc: Global) -> Result<Command<'a>, AllocError>
    ensures { IfOk result (λ command.
        (app_of command ≡ diff_app) × ((out-Command command).has_globals ≡ false)) }
{
    subcommand_of_table(alloc, &DIFF)
}

/// Returns the command `rvtest merge`, to show its usage when its arguments are rejected.
pub fn merge_command<'a>(alloc: Global) -> Result<Command<'a>, AllocError>
    ensures { IfOk result (λ command.
        (app_of command ≡ merge_app) × ((out-Command command).has_globals ≡ false)) }
{
    subcommand_of_table(alloc, &MERGE)
}

/// Returns the command `rvtest show`, to show its usage when its arguments are rejected.
pub(crate) fn show_command<'a>(alloc: Global) -> Result<Command<'a>, AllocError>
    ensures { IfOk result (λ command.
        (app_of command ≡ show_app) × ((out-Command command).has_globals ≡ false)) }
{
    subcommand_of_table(alloc, &SHOW)
}

/// Returns the command `rvtest explain`, to show its usage when its arguments are rejected.
pub(crate) fn explain_command<'a>(alloc: Global) -> Result<Command<'a>, AllocError>
    ensures { IfOk result (λ command.
        (app_of command ≡ explain_app) × ((out-Command command).has_globals ≡ false)) }
{
    subcommand_of_table(alloc, &EXPLAIN)
}
