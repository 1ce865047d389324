//! What `accept` reports, and the edited text of a list.
//!
//! [`accept_values`] replaces the values of accepted jobs in the text of a list; the new text parses as the intended jobs. An
//! [`AcceptSummary`] reports each change, each skipped job and file, and their numbers.
#![tactic(auto)]

mod accept_summary;
mod changed_text;
mod file_lines;
mod golden_file;
mod job_lines;
mod new_list;

pub use accept_summary::{AcceptSummary, Writing};
pub use golden_file::{GoldenFile, ListFile};
pub use new_list::{ChangedValue, NewList, accept_values};

// Re-exports from lower crates: the types in this interface, and what its callers need with them.
pub use rv_list_locations::job_line_numbers;
