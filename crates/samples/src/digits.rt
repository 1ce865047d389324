//! Bytes written as hexadecimal digits.

use hex::FromHexError;
use std::alloc::{AllocError, Global};
use thiserror::Error;

/// Why a text does not describe bytes or a file.
#[derive(Clone, Copy, Debug, Error, PartialEq, Eq)]
pub enum SampleError {
    /// There are no digits, an odd number of them, or another character.
    #[error("bad digits")]
    BadDigits,
    /// An offset or a count is not a number.
    #[error("bad count")]
    BadNumber,
    /// A change extends past the end of the file.
    #[error("bad place")]
    PastEnd,
    /// No sample has the name.
    #[error("bad name")]
    NoSample,
    /// An allocation failed.
    #[error("out of memory")]
    OutOfMemory,
}

impl From<AllocError> for SampleError {
    // Converts a failed allocation to `OutOfMemory`.
    fn from(_: AllocError) -> SampleError {
        SampleError::OutOfMemory
    }
}

impl From<FromHexError> for SampleError {
    // Converts an error in hexadecimal digits.
    fn from(error: FromHexError) -> SampleError {
        match error {
            FromHexError::OutOfMemory => SampleError::OutOfMemory,
            _ => SampleError::BadDigits,
        }
    }
}

// The bytes of the exit call, which ends the run with the exit code in x10: load 93 into x17, then ECALL.
const EXIT: [u8; 8] = [0x93, 0x08, 0xd0, 0x05, 0x73, 0x00, 0x00, 0x00];

/// Returns the bytes of hexadecimal numbers that are separated by spaces, each in little-endian order; words have eight digits and
/// halfwords four. `0001*3` is the number 0001 three times, and `X` is the two instructions of the exit call.
pub fn numbers(alloc: Global, text: &str) -> Result<Vec<u8>, SampleError> {
    let mut bytes = Vec::new(alloc);
    for number in text.split(' ') {
        if number == "X" {
            bytes.extend_from_slice(&EXIT)?;
        } else {
            push_number(alloc, &mut bytes, number)?;
        }
    }
    Ok(bytes)
}

// Appends the bytes of a number in little-endian order; if it ends with `*` and a count, so many times.
fn push_number(alloc: Global, bytes: &mut Vec<u8>, number: &str) -> Result<(), SampleError> {
    let (number, count) = number.split_once('*').unwrap_or((number, "1"));
    let Ok(count) = count.parse::<u32>() else {
        return Err(SampleError::BadNumber);
    };
    let mut digits = hex::decode(alloc, number)?;
    digits.reverse();
    for _ in 0..count {
        bytes.extend_from_slice(digits.as_slice())?;
    }
    Ok(())
}

/// Returns the bytes of groups of hexadecimal digits that are separated by spaces, in the order in which they are written.
pub fn file_bytes(alloc: Global, text: &str) -> Result<Vec<u8>, SampleError> {
    let mut bytes = Vec::new(alloc);
    for group in text.split(' ') {
        let digits = hex::decode(alloc, group)?;
        bytes.extend_from_slice(digits.as_slice())?;
    }
    Ok(bytes)
}
