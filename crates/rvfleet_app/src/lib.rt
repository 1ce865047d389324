//! The program `rvfleet` as a library: its response to arguments, for any store of files, reader and sinks.
//!
//! [`run_words`] is the whole program: it parses the arguments with `clap`, writes the report of a flat image ([`run_raw`]), of an ELF
//! image ([`run_image`]) or of a job list ([`read_list`], [`run_jobs`]) to one sink, writes a line about a failure to another, and returns
//! the exit status. The program's `main` passes it the process's own arguments, files and streams.
#![tactic(auto)]

mod elf_image;
mod error;
mod flat_image;
mod list;
mod program;
mod report_output;
mod status;

pub use elf_image::{ImageRun, ScriptError, is_bad_path, read_script, run_image};
pub use error::{Failure, ListError, RunError};
pub use flat_image::run_raw;
pub use list::{read_list, run_jobs};
pub use program::run_words;
pub use report_output::send_report;
pub use status::{
    BAD_ARGUMENTS, DONE, FAILED, SOME_FAIL, reject_arguments, reject_unreadable_args,
    write_failure_line,
};

// Re-exports from lower crates: the types in this interface, and what its callers need with them.
pub use rv_cli::rvfleet::{Request, parse_args};
pub use rv_files::{FileStore, ReadError, Sink, SinkFailed, Store, StreamSink, Text, put_all};
pub use rv_fleet::FreeGate;
