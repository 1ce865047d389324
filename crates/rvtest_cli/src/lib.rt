//! The command line of `rvtest`, which `clap` parses, and the requests that its arguments make.
//!
//! [`parse_args`] parses the arguments of a process. Its error has the form of an error of `clap`; a request for the help or the version is
//! an error, too. [`usage_error`] makes an error that `clap` does not detect, such as an invalid regular expression.
#![tactic(auto)]

mod accept;
mod args_error;
mod arguments;
mod check;
mod command;
mod console;
mod counts;
mod cover;
mod diff;
mod examples;
mod explain;
mod gdb;
mod help;
mod list;
mod merge;
mod misuse;
mod profile;
mod requests;
mod run;
mod show;
mod table;
mod tips;

pub use accept::AcceptArgs;
pub use args_error::{ArgsError, usage_error};
pub use check::CheckArgs;
pub use command::{ChoosingCommand, merge_command};
pub use console::ConsoleArgs;
pub use counts::CountsArgs;
pub use cover::CoverArgs;
pub use diff::DiffArgs;
pub use explain::ExplainArgs;
pub use gdb::GdbArgs;
pub use help::HelpArgs;
pub use merge::MergeArgs;
pub use profile::ProfileArgs;
pub use requests::{Request, parse_args};
pub use run::RunArgs;
pub use show::ShowArgs;
