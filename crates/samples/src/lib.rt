//! Images, numbers and lines of tables for the tests of several crates. No program uses them.
#![tactic(auto)]

mod digits;
mod files;
mod images;
mod tables;

pub use digits::{SampleError, file_bytes, numbers};
pub use files::sample_file;
pub use images::{CHECKSUM, ONE_SEGMENT, UPPER, UPPER_STRIPPED};
pub use tables::{cell_of, check_equal, check_line_count, hex_of};
