//! The report of a fleet: its rows, its text, and reading that text back.
//!
//! A [`Row`] is the result of one job. [`write_report`] appends a report's text to a sink in few large writes; if a write fails, a prefix
//! of the text has been written and nothing after it. [`read_report`] returns the [`SavedReport`] with the given text, whether of a whole
//! list, of selected jobs or of a shard, or the first invalid line ([`ReadError`]). It reads each line for what it appears to contain,
//! writes the report of that, and compares: a single comparison ensures that the result has exactly this text. The law
//! [`one_text_one_report`] says that no two valid reports have the same text.
#![tactic(auto)]

mod fields;
mod law;
mod lenient_reader;
mod lenient_rows;
mod lines;
mod names;
mod partial;
mod read;
mod report;
mod row;
mod saved;
mod saved_report_text;
mod saved_writer;
mod signature_lines;

pub use law::{lenient_report_keeps_first_lines, one_text_one_report, whole_text_is_report_text};
pub use partial::{PartialReport, read_partial_report};
pub use read::{ReadError, read_report};
pub use report::{Report, Rows, WriteError, push_row, write_report};
pub use row::{Refusal, Row, RowEnd, Verdict, Words};
pub use saved::{Extent, Numbers, SavedReport, Shard};
pub use saved_report_text::push_extent_line;
pub use saved_writer::write_saved_report;
pub use signature_lines::{WORD_LINE_LEN, are_word_lines, word_line};

// Re-exports from lower crates: the types in this interface, and what its callers need with them.
pub use rv_base::{Bytes, Sequence, Sink, SinkFailed, Text, is_name, put_all};
pub use rv_text::{Span, is_utf8, push_number, push_spans, push_text, tail_from};
