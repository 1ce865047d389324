//! Parses the parts of a line. These functions return a value for any text; whether the line is valid is checked afterwards, by formatting
//! the values again.

ghost use Rattle.std.specs.Prelude.{◌≡◌, ◌≤◌, ◌<◌, ◌^◌, ℕ, IfOk, take, length};
ghost use Rattle.std.specs.Fmt.{decimal};
ghost use Rattle.rv_text.specs.Numbers.{word_digits};
ghost use Rattle.rv_count_tables.specs.Lines.{index_of_byte, text_before_byte, text_after_byte, whole_line, hex_digit_value, hex_bytes};

use hex::FromHexError;
use rv_text::tail_from;
use std::alloc::{AllocError, Global};

/// Returns the first `count` bytes, or all if there are fewer.
pub(crate) fn leading_bytes(text: &[u8], count: usize) -> &[u8]
    ensures { result.now ≡ take count text.now }
{
    if count <= text.len() {
        &text[..count]
    } else {
        text
    }
}

/// Returns the index of the first occurrence of a byte, or the length of the text if it does not occur.
pub(crate) fn index_of_byte(byte: u8, text: &[u8]) -> usize
    ensures index { result ≡ index_of_byte byte text.now }
    ensures within { result ≤ length text.now }
{
    for (index, b) in text.iter().enumerate() {
        if *b == byte {
            return index;
        }
    }
    text.len()
}

/// Returns the text before the first occurrence of a byte, or the whole text if it does not occur.
pub(crate) fn text_before_byte(byte: u8, text: &[u8]) -> &[u8]
    ensures { result.now ≡ text_before_byte byte text.now }
{
    leading_bytes(text, index_of_byte(byte, text))
}

/// Returns the text after the first occurrence of a byte, or an empty text if it does not occur.
pub(crate) fn text_after_byte(byte: u8, text: &[u8]) -> &[u8]
    ensures { result.now ≡ text_after_byte byte text.now }
{
    tail_from(text, index_of_byte(byte, text) + 1)
}

/// Returns the first line of a text with its line feed, or nothing if the text has no line feed.
#[tactic(auto, unfolding(crate::specs::Lines::whole_line))]
pub(crate) fn whole_line(text: &[u8]) -> &[u8]
    ensures { result.now ≡ whole_line text.now }
{
    let index = index_of_byte(b'\n', text);
    if index == text.len() {
        &[]
    } else {
        leading_bytes(text, index + 1)
    }
}

/// Returns the value of a decimal number below 2^64. For any other text, the result is arbitrary.
pub(crate) fn decimal_number(text: &[u8]) -> u64
    ensures { (number : ℕ) → number < 2 ^ 64 → text.now ≡ decimal number → result ≡ number }
{
    let mut value: u64 = 0;
    for b in text {
        value = value
            .saturating_mul(10)
            .saturating_add(u64::from(b.saturating_sub(48)));
    }
    value
}

/// Returns the value of a 32-bit word that is written in eight lower-case hexadecimal digits. For any other text, the result is arbitrary.
pub(crate) fn hex_word(digits: &[u8]) -> u32
    ensures { (word : ℕ) → word < 2 ^ 32 → digits.now ≡ word_digits word → result ≡ word }
{
    let mut value: u32 = 0;
    for b in digits {
        value = value
            .saturating_mul(16)
            .saturating_add(u32::from(hex_digit_value(*b)));
    }
    value
}

// Returns the value of a lower-case hexadecimal digit. For any other byte, the result is arbitrary.
fn hex_digit_value(b: u8) -> u8
    ensures { result ≡ hex_digit_value b }
{
    if b < 97 { b.saturating_sub(48) } else { b - 87 }
}

/// Returns the bytes that hexadecimal digits encode, or no bytes if the text is not a valid encoding.
#[tactic(auto, unfolding(crate::specs::Lines::hex_bytes))]
pub(crate) fn hex_bytes(alloc: Global, text: &[u8]) -> Result<Vec<u8>, AllocError>
    ensures { IfOk result (λ bytes. bytes.items ≡ hex_bytes text.now) }
{
    match hex::decode(alloc, text) {
        Ok(bytes) => Ok(bytes),
        Err(FromHexError::OutOfMemory) => Err(AllocError),
        Err(_) => Ok(Vec::new(alloc)),
    }
}
