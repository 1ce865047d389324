//! The command line of `rvfleet`, which `clap` parses, and what the command lines of both programs share.
//!
//! [`rvfleet::parse_args`] parses the arguments of a process. Its error is one of `clap`, which reports a request for help as an error,
//! too. [`arguments`], [`command_builder`] and [`values`] build a command and read the values that `clap` found; the command line of
//! `rvtest` is built on them.
#![tactic(auto)]

pub mod arguments;
pub mod command_builder;
pub mod rvfleet;
pub mod values;

// Re-exports from lower crates: the types in this interface, and what its callers need with them.
pub use rv_base::{is_name, limits};
