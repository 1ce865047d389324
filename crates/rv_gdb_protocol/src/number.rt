//! Numbers, bytes and texts in packets.

ghost use Rattle.std.specs.Prelude.{◌≡◌, ◌<◌, ◌^◌, IfOk, IfSome, length, option_copied, option_map};
ghost use Rattle.hex.specs.Hex.{hex_digit_value};
ghost use Rattle.rv_gdb_protocol.specs.Numbers.{text_after, parse_bytes, with_hex_digit, parse_number, parse_two_numbers, delimiter_index, text_before, parse_value};

use crate::checksum::digit_value;
use hex::FromHexError;
use std::alloc::{AllocError, Global};

/// The maximum number of hexadecimal digits in a number.
const MAX_DIGITS: usize = 8;

/// Returns the number that 1 to 8 hexadecimal digits represent, in either case, or `None` for any other text.
#[tactic(auto, unfolding(crate::specs::Numbers::parse_number))]
pub(crate) fn parse_number(text: &[u8]) -> Option<u32>
    ensures { result ≡ parse_number text.now }
{
    if text.is_empty() || MAX_DIGITS < text.len() {
        return None;
    }
    let mut value = Some(0);
    for byte in text {
        value = with_hex_digit(value, *byte);
    }
    value
}

// Returns the number with the byte as one more hexadecimal digit, or `None` if the digits before are not a number or the byte is not a
// digit.
fn with_hex_digit(value: Option<u32>, byte: u8) -> Option<u32>
    requires { IfSome value (λ value. value < 2 ^ 28) }
    ensures { result ≡ with_hex_digit value byte }
{
    match (value, digit_value(byte)) {
        (Some(value), Some(digit)) => Some(value * 16 + u32::from(digit)),
        _ => None,
    }
}

/// Returns two numbers separated by a delimiter, as in `80000000,4`, or `None` for any other text.
#[tactic(auto, unfolding(crate::specs::Numbers::parse_two_numbers))]
pub(crate) fn parse_two_numbers(delimiter: u8, text: &[u8]) -> Option<(u32, u32)>
    ensures { result ≡ parse_two_numbers delimiter text.now }
{
    let index = delimiter_index(delimiter, text)?;
    let first = parse_number(&text[..index])?;
    let second = parse_number(&text[index + 1..])?;
    Some((first, second))
}

/// Returns the index of the first occurrence of a delimiter, or `None` if there is none.
pub(crate) fn delimiter_index(delimiter: u8, text: &[u8]) -> Option<usize>
    ensures index { result ≡ delimiter_index delimiter text.now }
    ensures within { IfSome result (λ index. index < length text.now) }
{
    text.iter().position(|byte| *byte == delimiter)
}

/// Returns the text before the first occurrence of a delimiter, or all of it if there is none.
#[tactic(auto, unfolding(crate::specs::Numbers::text_before))]
pub(crate) fn text_before(delimiter: u8, text: &[u8]) -> &[u8]
    ensures { result.now ≡ text_before delimiter text.now }
{
    match delimiter_index(delimiter, text) {
        Some(index) => &text[..index],
        None => text,
    }
}

/// Returns the text after `name`, or `None` if the text does not begin with `name`.
#[tactic(auto, unfolding(crate::specs::Numbers::text_after))]
pub(crate) fn text_after<'a>(name: &[u8], text: &'a [u8]) -> Option<&'a [u8]>
    ensures { option_copied result ≡ text_after name.now text.now }
{
    if text.starts_with(name) {
        Some(&text[name.len()..])
    } else {
        None
    }
}

/// Returns the bytes that hexadecimal digits represent, two digits for each, or `None` for any other text.
#[tactic(auto, unfolding(crate::specs::Numbers::parse_bytes))]
pub(crate) fn parse_bytes(alloc: Global, text: &[u8]) -> Result<Option<Vec<u8>>, AllocError>
    ensures { IfOk result (λ bytes. option_map (λ bytes. bytes.items) bytes ≡ parse_bytes text.now) }
{
    match hex::decode(alloc, text) {
        Ok(bytes) => Ok(Some(bytes)),
        Err(FromHexError::OutOfMemory) => Err(AllocError),
        Err(_) => Ok(None),
    }
}

/// Returns the value of a register from eight hexadecimal digits, low byte first, or `None` for any other text.
#[tactic(auto, unfolding(crate::specs::Numbers::parse_value))]
pub(crate) fn parse_value(text: &[u8]) -> Option<u32>
    ensures { result ≡ parse_value text.now }
{
    let mut bytes = [0u8; 4];
    if hex::decode_to_slice(text, &mut bytes).is_err() {
        return None;
    }
    Some(u32::from_le_bytes(bytes))
}
