//! Parts of a line.

ghost use Rattle.std.specs.Prelude.{◌≡◌, ◌≤◌, IfOk, take, string_bytes, length};
ghost use Rattle.rv_report.specs.LenientReport.{are_hex_digits, hex_number, index_of_byte, text_before_byte, text_after_byte, decimal_number, hex_digit_value, hex_word};
ghost use Rattle.rv_report.specs.LenientReport.{is_hex_digit, is_hex_word, hex_bytes, name_or_dash};

use hex::FromHexError;
use rv_base::is_name;
use rv_text::tail_from;
use std::alloc::{AllocError, Global};

/// Returns the first `count` bytes, or all if there are fewer.
pub fn leading_bytes(text: &[u8], count: usize) -> &[u8]
    ensures { result.now ≡ take count text.now }
{
    if count <= text.len() {
        &text[..count]
    } else {
        text
    }
}

/// Returns the index of the first occurrence of a byte, or the length of the text if it does not occur.
pub(crate) fn index_of_byte(byte: u8, text: &[u8]) -> usize
    ensures index { result ≡ index_of_byte byte text.now }
    ensures within { result ≤ length text.now }
{
    for (index, b) in text.iter().enumerate() {
        if *b == byte {
            return index;
        }
    }
    text.len()
}

/// Returns the text before the first occurrence of a byte, or the whole text if it does not occur.
pub(crate) fn text_before_byte(byte: u8, text: &[u8]) -> &[u8]
    ensures { result.now ≡ text_before_byte byte text.now }
{
    leading_bytes(text, index_of_byte(byte, text))
}

/// Returns the text after the first occurrence of a byte, or an empty text if it does not occur.
pub(crate) fn text_after_byte(byte: u8, text: &[u8]) -> &[u8]
    ensures { result.now ≡ text_after_byte byte text.now }
{
    tail_from(text, index_of_byte(byte, text) + 1)
}

/// Returns the value of a text of decimal digits, or `u32::MAX` if it is greater.
pub(crate) fn decimal_number(text: &[u8]) -> u32
    ensures { result ≡ decimal_number text.now }
{
    let mut value: u32 = 0;
    for b in text {
        value = value
            .saturating_mul(10)
            .saturating_add(u32::from(b.saturating_sub(48)));
    }
    value
}

// Returns the value of a lower-case hexadecimal digit.
fn hex_digit_value(b: u8) -> u8
    ensures { result ≡ hex_digit_value b }
{
    if b < 97 { b.saturating_sub(48) } else { b - 87 }
}

/// Returns the word whose hexadecimal digits are the first eight bytes of a text. Missing digits are read as zeros.
#[tactic(auto, unfolding(crate::specs::LenientReport::hex_word))]
pub(crate) fn hex_word(text: &[u8]) -> u32
    ensures { result ≡ hex_word text.now }
{
    let digits = leading_bytes(text, 8);
    let mut value = hex_number(digits);
    for _ in digits.len()..8 {
        value = value.saturating_mul(16);
    }
    value
}

// Returns the value of a text of hexadecimal digits, or `u32::MAX` if it is greater.
fn hex_number(digits: &[u8]) -> u32
    ensures { result ≡ hex_number 0 digits.now }
{
    let mut value: u32 = 0;
    for b in digits {
        value = value
            .saturating_mul(16)
            .saturating_add(u32::from(hex_digit_value(*b)));
    }
    value
}

// Whether a byte is a lower-case hexadecimal digit.
fn is_hex_digit(b: u8) -> bool
    ensures { result ≡ is_hex_digit b }
{
    (48 <= b && b <= 57) || (97 <= b && b <= 102)
}

/// Whether a line can be a word of a signature, or the beginning of one: it is not empty, and has only lower-case hexadecimal digits.
pub(crate) fn is_hex_word(text: &[u8]) -> bool
    ensures { result ≡ is_hex_word text.now }
{
    !text.is_empty() && are_hex_digits(text)
}

// Whether each byte is a lower-case hexadecimal digit.
fn are_hex_digits(text: &[u8]) -> bool
    ensures { result ≡ are_hex_digits text.now }
{
    for b in text {
        if !is_hex_digit(*b) {
            return false;
        }
    }
    true
}

/// Returns the bytes that a text of hexadecimal digits encodes; no bytes if the text is invalid, such as a dash.
#[tactic(auto, unfolding(crate::specs::LenientReport::hex_bytes))]
pub(crate) fn hex_bytes(alloc: Global, text: &[u8]) -> Result<Vec<u8>, AllocError>
    ensures { IfOk result (λ bytes. bytes.items ≡ hex_bytes text.now) }
{
    match hex::decode(alloc, text) {
        Ok(bytes) => Ok(bytes),
        Err(FromHexError::OutOfMemory) => Err(AllocError),
        Err(_) => Ok(Vec::new(alloc)),
    }
}

/// Returns the text if it is a valid name, or else a dash.
pub(crate) fn name_or_dash(alloc: Global, text: &[u8]) -> Result<String, AllocError>
    ensures { IfOk result (λ name. string_bytes name ≡ name_or_dash text.now) }
{
    if is_name(text) {
        String::from_utf8_lossy(alloc, text)
    } else {
        String::from_str(alloc, "-")
    }
}
