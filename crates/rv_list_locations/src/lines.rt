//! The lines and columns of a text.

ghost use Rattle.std.specs.Prelude.{◌≡◌, ◌≤◌, ◌<◌, ◌-◌, [], ◌∷◌, ◌++◌, OnOk, count_by, length, max};
ghost use Rattle.std.specs.List.{All, after_last};
ghost use Rattle.std.specs.List.Sorted.{IsNonDecreasing};
ghost use Rattle.rv_list_locations.specs.LinesAndColumns.{begins_character, column_at, is_line_feed, line_at, text_line_count};

use std::alloc::{AllocError, Global};

/// The lines, counted from 1, that were recorded for indices of a text in increasing order.
#[derive(Drop)]
pub(crate) struct LineRecorder<'a> {
    text: &'a [u8],
    // The number of bytes counted, and the line of the next one.
    offset: usize,
    line: usize,
    recorded: Vec<usize>,
    ghost within: { offset ≤ length text.now },
    ghost line_is: { line ≡ line_at offset text.now },
    ghost within_line: { All (λ recorded_line. (0 < recorded_line) × (recorded_line ≤ line)) recorded.items },
    ghost rising: { IsNonDecreasing recorded.items },
}

impl<'a> LineRecorder<'a> {
    /// Returns an empty record of lines of a text. Does not allocate.
    pub(crate) fn new(alloc: Global, text: &'a str) -> LineRecorder<'a>
        ensures text { result.text.now ≡ text.now }
        ensures offset { result.offset ≡ 0 }
        ensures recorded { result.recorded.items ≡ [] }
    {
        LineRecorder {
            text: text.as_bytes(),
            offset: 0,
            line: 1,
            recorded: Vec::new(alloc),
        }
    }

    /// Records the line on which the last `remaining` bytes of the text begin, or the line of the last recorded byte if that is later.
    pub(crate) fn push_line(&mut self, remaining: usize) -> Result<(), AllocError>
        ensures text { self.new.text.now ≡ self.old.text.now }
        ensures offset { self.new.offset ≡ max (length self.old.text.now - remaining) self.old.offset }
        ensures recorded { OnOk result (self.new.recorded.items
            ≡ self.old.recorded.items ++ line_at self.new.offset self.old.text.now ∷ []) }
    {
        let index = self.text.len().saturating_sub(remaining).max(self.offset);
        let line = self.line + line_feed_count(&self.text[self.offset..index]);
        self.offset = index;
        self.line = line;
        self.recorded.push(line)?;
        Ok(())
    }

    /// Returns the recorded lines.
    pub(crate) fn into_line_numbers(self) -> Vec<usize>
        ensures lines { result.items ≡ self.entry.recorded.items }
        ensures sorted { IsNonDecreasing result.items }
        ensures within { All (λ line. (0 < line) × (line ≤ text_line_count self.entry.text.now))
            result.items }
    {
        self.recorded
    }
}

/// A location in a text: its line and column, counted from 1.
#[derive(Clone, Copy)]
pub struct Location {
    pub line: usize,
    /// In characters.
    pub column: usize,
}

/// Returns the line and column of the byte at index `index`, or of the end of the text if it is shorter.
pub fn line_and_column(text: &[u8], index: usize) -> Location
    ensures line { result.line ≡ line_at index text.now }
    ensures column { result.column ≡ column_at index text.now }
{
    let before = &text[..index.min(text.len())];
    Location {
        line: line_feed_count(before) + 1,
        column: character_count_of_last_line(before) + 1,
    }
}

// Returns the number of characters after the last line feed.
fn character_count_of_last_line(text: &[u8]) -> usize
    ensures value { result ≡ count_by begins_character (after_last is_line_feed text.now) }
    ensures within { result ≤ length text.now }
{
    let mut count = 0;
    for byte in text {
        if *byte == b'\n' {
            count = 0;
        } else if *byte & 0xc0 != 0x80 {
            count += 1;
        }
    }
    count
}

// Returns the number of line feeds in a text.
fn line_feed_count(text: &[u8]) -> usize
    ensures { result ≡ count_by is_line_feed text.now }
{
    let mut count = 0;
    for byte in text {
        if *byte == b'\n' {
            count += 1;
        }
    }
    count
}
