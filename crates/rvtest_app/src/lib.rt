//! The program `rvtest` as a library: it responds to arguments, given files to read and write, sinks, threads and a clock.
//!
//! [`run_rvtest`] returns the exit status: 0 if all is well, 1 if a job failed or differs, or if `accept` skipped or would change
//! something, 2 if the arguments, a list or a report are rejected, 3 if the system failed, and 141 if the reader of standard output closed
//! it. What a command finds goes to standard output, and messages go to standard error. The definitions in `specs/` say what goes to each
//! stream and file, given the arguments and the files that are read.
#![tactic(auto)]

mod accept;
mod accept_inputs;
mod accept_law;
mod accepted_files;
mod check;
mod check_text;
mod chosen_rows;
mod colors;
mod command_result;
mod committing;
mod console;
mod counts;
mod counts_note;
mod cover;
mod crew;
mod current_verdicts;
mod destinations;
mod diff;
mod explain;
mod failed_lines;
mod file_texts;
mod gdb;
mod help;
mod help_topic;
mod host;
mod input_file;
mod into_report;
mod junit_class;
mod known_file;
mod law;
mod list;
mod list_keys;
mod merge;
mod missing_images;
mod named_job;
mod outlets;
mod output_writes;
mod overwrites;
mod planned_job;
mod planned_run;
mod profile;
mod profile_text;
mod program;
mod refused_note;
mod report_row_reporter;
mod report_summary;
mod report_texts;
mod requested_jobs;
mod rows_report;
mod rows_with_most_steps;
mod rules;
mod run;
mod run_counts;
mod run_inputs;
mod run_into_files;
mod run_outlets;
mod run_output;
mod show;
mod shown_run;
mod terminals;
mod view;
mod view_table;
mod whole_files;
mod whole_report;
mod written_text;

pub use accept_law::accepted_jobs_pass;
pub use destinations::Destinations;
pub use host::Host;
pub use law::{nothing_is_written_if_nothing_changes, rows_by_steps_are_sorted};
pub use program::{reject_unreadable_args, run_rvtest};
pub use terminals::Terminals;

// Re-exports from lower crates: the types in this interface, and what its callers need with them.
pub use rv_files::{PipeSink, StreamSink, SystemInputs, SystemOutputs};
