//! Forms: texts in which the cells of a row are filled in.
//!
//! In a form `$0`, `$1` and so on represent the cells of a row, and `$_` the whole row. A slash ends a line, and ` + ` separates parts that
//! follow each other: `3 times TEXT` is that text three times, with `%` in each replaced by its number, from 1, and `3 bytes of TEXT` is
//! the text's first three bytes.

use samples::cell_of;
use std::alloc::{AllocError, Global};

/// The names of the cells of a row in a form.
const CELLS: [&str; 10] = ["$0", "$1", "$2", "$3", "$4", "$5", "$6", "$7", "$8", "$9"];

/// Returns the part of a text with this index, from 0; parts are separated by bars.
pub(crate) fn part(text: &str, index: usize) -> &str {
    text.split('|').nth(index).unwrap_or("")
}

// Returns a form with the names of the cells, or of the row, replaced by their texts, and each slash by a line feed.
fn with_cells(alloc: Global, form: &str, row: &str) -> Result<String, AllocError> {
    let mut text = form.replace(alloc, "$_", row)?;
    for (index, name) in CELLS.iter().enumerate() {
        text = text.as_str().replace(alloc, *name, cell_of(row, index))?;
    }
    text.as_str().replace(alloc, "/", "\n")
}

/// Returns a text with each `%` replaced by a number.
pub(crate) fn numbered(alloc: Global, form: &str, number: usize) -> Result<String, AllocError> {
    let mut text = String::new(alloc);
    push_numbered(&mut text, form, number)?;
    Ok(text)
}

// Appends a text with each `%` replaced by a number.
fn push_numbered(text: &mut String, form: &str, number: usize) -> Result<(), AllocError> {
    for (nth, part) in form.split('%').enumerate() {
        if nth > 0 {
            write!(text, "{number}")?;
        }
        text.push_str(part)?;
    }
    Ok(())
}

// Appends a text `count` times, each time with each `%` replaced by its number, from 1.
fn push_each(text: &mut String, form: &str, count: usize) -> Result<(), AllocError> {
    for number in 0..count {
        push_numbered(text, form, number.saturating_add(1))?;
    }
    Ok(())
}

// Appends a text without `%` `count` times. This is fast, because the count is often in the millions.
fn push_same(text: &mut String, form: &str, count: usize) -> Result<(), AllocError> {
    for _ in 0..count {
        text.push_str(form)?;
    }
    Ok(())
}

// Appends a part of a form: for `3 times TEXT` the text three times, and any other part once.
fn push_times(text: &mut String, part: &str) -> Result<(), AllocError> {
    let (count, form) = part.split_once(" times ").unwrap_or(("1", part));
    let count = count.parse::<usize>().unwrap_or(0);
    if form.contains('%') {
        push_each(text, form, count)
    } else {
        push_same(text, form, count)
    }
}

// Returns the first `count` bytes of a text; if it has fewer, a text that no test expects.
fn first_bytes<'a>(count: &str, text: &'a str) -> &'a str {
    let count = count.parse::<usize>().unwrap_or(usize::MAX);
    text.get(..count).unwrap_or("more than there are")
}

// Appends a part of a form: for `3 bytes of TEXT` the first three bytes of the text, and any other part as `push_times` does.
fn push_part(text: &mut String, part: &str) -> Result<(), AllocError> {
    match part.split_once(" bytes of ") {
        Some((count, whole)) => text.push_str(first_bytes(count, whole)),
        None => push_times(text, part),
    }
}

// Returns the text of a form whose cells are filled in: its parts, which are separated by ` + `, joined.
fn expanded(alloc: Global, form: &str) -> Result<String, AllocError> {
    let mut text = String::new(alloc);
    for part in form.split(" + ") {
        push_part(&mut text, part)?;
    }
    Ok(text)
}

/// Returns the text of a form, with the cells of a row filled in.
pub(crate) fn form_text(alloc: Global, form: &str, row: &str) -> Result<String, AllocError> {
    let text = with_cells(alloc, form, row)?;
    expanded(alloc, text.as_str())
}
