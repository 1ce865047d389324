//! The lines of a list of known failures, and their parts.

ghost use Rattle.std.specs.Prelude.{◌≡◌, ◌≤◌, IfOk, length, position};
ghost use Rattle.std.specs.List.{position_or_len};
ghost use Rattle.rv_expect.specs.KnownLines.{borrowed_lines, is_hash, lines_of, name_text, reason_text, trimmed};

use std::alloc::{AllocError, Global};

/// Returns the lines of a text, without their line feeds. Allocates the list of lines.
pub(crate) fn lines_of(alloc: Global, text: &[u8]) -> Result<Vec<&[u8]>, AllocError>
    ensures { IfOk result (λ lines. borrowed_lines lines.items ≡ lines_of text.now) }
{
    text.split(|byte| *byte == b'\n').collect(alloc)
}

/// Returns the name in a line, which is the text before the first `#`, trimmed; empty if there is none.
#[tactic(auto, unfolding(crate::specs::KnownLines::name_text))]
pub(crate) fn name_text(line: &[u8]) -> &[u8]
    ensures { result.now ≡ name_text line.now }
{
    trimmed(&line[..hash_index(line)])
}

/// Returns the reason in a line, which is the text after the first `#`, trimmed; empty if there is none.
#[tactic(auto, unfolding(crate::specs::KnownLines::reason_text))]
pub(crate) fn reason_text(line: &[u8]) -> &[u8]
    ensures { result.now ≡ reason_text line.now }
{
    let index = hash_index(line);
    if index < line.len() {
        trimmed(&line[index + 1..])
    } else {
        &line[line.len()..]
    }
}

// Returns the index of the first `#` in a line, or the length of the line if there is none.
fn hash_index(line: &[u8]) -> usize
    ensures index { result ≡ position_or_len is_hash line.now }
    ensures within { result ≤ length line.now }
{
    match first_hash(line) {
        Some(index) => index,
        None => line.len(),
    }
}

// Returns the index of the first `#` in a line, or `None` if there is none.
fn first_hash(line: &[u8]) -> Option<usize>
    ensures { result ≡ position is_hash line.now }
{
    line.iter().position(|byte| *byte == b'#')
}

// Returns a text without leading and trailing white space.
fn trimmed(text: &[u8]) -> &[u8]
    ensures { result.now ≡ trimmed text.now }
{
    text.trim_ascii()
}
