//! The lines of a signature: each word as eight lower-case hexadecimal digits and a line feed. A report has them, and a file with an
//! expected signature is compared with them.

ghost use Rattle.std.specs.Prelude.{◌≡◌, ◌++◌, OnOk, bytes_eq, string_bytes};
ghost use Rattle.std.specs.List.{flat_map};
ghost use Rattle.rv_report.specs.Report.{word_line};
ghost use Rattle.rv_text.specs.Numbers.{word_digits};

use std::alloc::{AllocError, Global};

/// The length of a word's line in bytes: eight digits and a line feed.
pub const WORD_LINE_LEN: usize = 9;

/// Appends a word as eight lower-case hexadecimal digits, most significant first.
#[tactic(auto, unfolding(rv_text::specs::Numbers::word_digits))]
pub(crate) fn push_word_digits(
    alloc: Global,
    text: &mut String,
    word: u32,
) -> Result<(), AllocError>
    ensures { OnOk result (string_bytes text.new ≡ string_bytes text.old ++ word_digits word) }
{
    let digits = hex::encode(alloc, word.to_be_bytes().as_slice())?;
    text.push_str(digits.as_str())
}

/// Appends a line for each word.
pub(crate) fn push_word_lines(
    alloc: Global,
    text: &mut String,
    words: &[u32],
) -> Result<(), AllocError>
    ensures { OnOk result (string_bytes text.new
        ≡ string_bytes text.old ++ flat_map word_line words.now) }
{
    for word in words {
        push_word_digits(alloc, text, *word)?;
        text.push_str("\n")?;
    }
    Ok(())
}

/// Whether these bytes are the lines of the words. The text of the lines is not built.
pub fn are_word_lines(bytes: &[u8], words: &[u32]) -> bool
    ensures { result ≡ bytes_eq bytes.now (flat_map word_line words.now) }
{
    let mut rest = bytes;
    for word in words {
        match rest.strip_prefix(word_line(*word).as_slice()) {
            Some(more) => rest = more,
            None => return false,
        }
    }
    rest.is_empty()
}

/// Returns the line of a word: its eight digits and a line feed.
#[tactic(auto, unfolding(rv_text::specs::Numbers::word_digits))]
pub fn word_line(word: u32) -> [u8; WORD_LINE_LEN]
    ensures { result ≡ word_line word }
{
    let mut digits = [0u8; WORD_LINE_LEN - 1];
    hex::encode_to_slice(word.to_be_bytes().as_slice(), &mut digits).unwrap();
    let mut line = [b'\n'; WORD_LINE_LEN];
    line[..WORD_LINE_LEN - 1].copy_from_slice(&digits);
    line
}
