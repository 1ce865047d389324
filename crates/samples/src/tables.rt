//! Lines of tables, whose cells are separated by bars.

use std::num::ParseIntError;
use std::test::Fail;

/// Returns the cell at this index of a line, without spaces around it; an empty text if there are fewer cells.
pub fn cell_of(line: &str, index: usize) -> &str {
    line.split('|').nth(index).unwrap_or("").trim()
}

/// Parses a number of hexadecimal digits.
pub fn hex_of(text: &str) -> Result<u32, ParseIntError> {
    u32::from_str_radix(text, 16)
}

/// Returns an error with the row and both results if the actual result differs from the expected one.
pub fn check_equal(row: &str, actual: &str, expected: &str) -> Result<(), Fail> {
    if actual == expected {
        Ok(())
    } else {
        Err(Fail::new(format_args!("{row}: {actual} in place of {expected}")))
    }
}

/// Returns an error if the table does not have this many lines.
pub fn check_line_count(rows: &str, count: usize) -> Result<(), Fail> {
    if rows.lines().count() == count {
        Ok(())
    } else {
        Err(Fail::new("a table has another number of lines"))
    }
}
