//! Parses a table, or finds the first invalid line.

ghost use Rattle.std.specs.Prelude.{◌≡◌, ◌+◌, ◌≤◌, IfOk, IfErr, length, take, drop};
ghost use Rattle.rv_count_tables.specs.declared.table.CountTable.{CountTable as Table};
ghost use Rattle.rv_count_tables.specs.Lines.{line_feed_count, whole_line};
ghost use Rattle.rv_count_tables.specs.Table.{IsValidTable};
ghost use Rattle.rv_count_tables.specs.Text.{table_text};
ghost use Rattle.rv_count_tables.specs.Read.{IsOkOrOutOfMemory, IsFirstError, read_error_at};
ghost use Rattle.rv_count_tables.specs.declared.read.ReadError.TheVariants.{OutOfMemory, Truncated};

use crate::line_parts::{leading_bytes, whole_line};
use crate::read_lines::{read_images, runs_of_last_line};
use crate::table::CountTable;
use rv_text::tail_from;
use std::alloc::{AllocError, Global};
use thiserror::Error;

/// Why a text could not be parsed.
#[derive(Clone, Copy, Debug, Error, PartialEq, Eq)]
pub enum ReadError {
    /// An allocation failed.
    #[error("out of memory")]
    OutOfMemory,
    /// The number, counted from 1, of the first invalid line: the lines before it are the start of some table, but together with this line
    /// they are not.
    #[error("invalid line {0}")]
    Line(usize),
    /// The text ends before the table does: its complete lines are the start of some table. An incomplete last line is not checked.
    #[error("the table is truncated")]
    Truncated,
}

impl From<AllocError> for ReadError {
    ghost from_gives = { λ _ error. error ≡ OutOfMemory };

    // Returns the error for a failed allocation: out of memory.
    fn from(_: AllocError) -> ReadError {
        ReadError::OutOfMemory
    }
}

/// Parses the text of a table, or returns the error of its first invalid line. Allocates the table, and one line at a time.
pub fn read_table(alloc: Global, bytes: &[u8]) -> Result<CountTable, ReadError>
    // The result is a valid table with this text.
    ensures table { IfOk result (λ table. IsValidTable table) }
    ensures text { IfOk result (λ table. table_text table ≡ bytes.now) }
    // Every valid table with this text is the result.
    ensures accepts { (table : Table) → IsValidTable table → table_text table ≡ bytes.now
        → IsOkOrOutOfMemory table result }
    // If a line is reported, the lines before it are the start of some table, but together with this line they are not.
    ensures first_error { IfErr result (λ error. IsFirstError error bytes.now) }
{
    if whole_line(bytes) != "rvcounts 1\n".as_bytes() {
        return Err(read_error_at(bytes, 0));
    }
    let read = read_images(alloc, tail_from(bytes, 11))?;
    let index = 11 + read.length;
    let line = whole_line(tail_from(bytes, index));
    match runs_of_last_line(alloc, line, read.images.as_slice().len())? {
        None => Err(read_error_at(bytes, index)),
        Some(runs) => {
            let end = index + line.len();
            if end == bytes.len() {
                Ok(CountTable {
                    images: read.images,
                    runs,
                })
            } else {
                Err(ReadError::Line(line_number_at(bytes, end)))
            }
        }
    }
}

// Returns the error for the invalid line that begins at an index: `Truncated` if it has no line feed, or else its number, counted from 1.
fn read_error_at(bytes: &[u8], index: usize) -> ReadError
    ensures { result ≡ read_error_at index bytes.now }
{
    if whole_line(tail_from(bytes, index)).is_empty() {
        ReadError::Truncated
    } else {
        ReadError::Line(line_number_at(bytes, index))
    }
}

// Returns the number, counted from 1, of the line that begins at an index.
fn line_number_at(bytes: &[u8], index: usize) -> usize
    ensures { result ≡ line_feed_count (take index bytes.now) + 1 }
{
    let earlier = leading_bytes(bytes, index);
    let mut number = 1;
    for b in earlier {
        if *b == b'\n' {
            number += 1;
        }
    }
    number
}
