//! Rows as JUnit XML.
//!
//! [`write_junit`] writes [`Cases`] as a [`Suite`], with the lines that a caller's [`RowReporter`](rv_job_text::RowReporter) makes for
//! them. [`FailureTexts`] stores these lines while a run reports them. The output is exactly the text that `specs/` defines, and consists
//! of XML 1.0 characters ([`documents_are_xml_characters`]).
#![tactic(auto)]

mod case_writes;
mod failure_texts;
mod junit;
mod junit_writer;
mod law;
mod suite;
mod xml_pieces;

pub use case_writes::Cases;
pub use failure_texts::FailureTexts;
pub use junit_writer::write_junit;
pub use law::{documents_are_xml_characters, each_row_is_counted_once};
pub use suite::Suite;
