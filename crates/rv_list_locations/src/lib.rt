//! Where the jobs of a list are in its text: their lines, their keys and their values.
//!
//! [`job_line_numbers`] scans the text with the functions of `toml_parser`: a job begins at each header `[[job]]` outside strings and
//! comments, however it is spelled, and at each element of an array `job`. [`job_texts`] returns the text from the beginning of each job
//! on, [`job_keys`] the keys of a job, [`repeated_key`] the key that is set twice, and [`value_spans`] where the values of jobs begin and
//! end. [`line_and_column`] and [`Cursor`] convert an index into a line and a column.
#![tactic(auto)]

mod cursor;
mod keys;
mod law;
mod lines;
mod repeated_keys;
mod scan;
mod spans;
mod values;

pub use cursor::Cursor;
pub use keys::{JobKey, job_keys};
pub use law::job_lines_are_of_headers_and_elements;
pub use lines::{Location, line_and_column};
pub use repeated_keys::{RepeatedKey, repeated_key};
pub use scan::{job_line_numbers, job_texts};
pub use spans::{ValueSpan, value_spans};
