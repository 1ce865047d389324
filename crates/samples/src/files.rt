//! Image files that a line of words describes: a sample file with changes.

use crate::digits::{SampleError, file_bytes, numbers};
use crate::images::{ONE_SEGMENT, SIGNATURE, TWO_SEGMENTS};
use std::alloc::Global;

// The offset of the segment in the file of `ONE_SEGMENT`, and the offsets of the fields with its sizes in the file and in memory.
const CODE: usize = 84;

const FILE_SIZE: usize = 68;

const MEMORY_SIZE: usize = 72;

/// Returns the image file that a text describes. Its first word is `one` or `two` (an image with that many segments), `sign` (an image with
/// a signature) or `code`.
///
/// After `code` come numbers, the bytes of the only segment. After the other words come changes: `24=90000000` writes the number at byte
/// 24, little-endian, and `51` keeps only the first 51 bytes.
pub fn sample_file(alloc: Global, text: &str) -> Result<Vec<u8>, SampleError> {
    let (name, rest) = text.split_once(' ').unwrap_or((text, ""));
    match name {
        "one" => with_changes(alloc, &ONE_SEGMENT, rest),
        "two" => with_changes(alloc, &TWO_SEGMENTS, rest),
        "sign" => with_changes(alloc, &file_bytes(alloc, SIGNATURE)?, rest),
        "code" => program_file(alloc, rest),
        _ => Err(SampleError::NoSample),
    }
}

// Returns the file of an image whose only segment consists of these numbers.
fn program_file(alloc: Global, text: &str) -> Result<Vec<u8>, SampleError> {
    let code = numbers(alloc, text)?;
    let Ok(size) = u32::try_from(code.len()) else {
        return Err(SampleError::BadNumber);
    };
    let mut bytes = ONE_SEGMENT[..CODE].to_vec(alloc)?;
    overwrite(&mut bytes, FILE_SIZE, &size.to_le_bytes())?;
    overwrite(&mut bytes, MEMORY_SIZE, &size.to_le_bytes())?;
    bytes.extend_from_slice(&code)?;
    Ok(bytes)
}

// Returns the file after these changes, which are written as `sample_file` says.
fn with_changes(alloc: Global, file: &[u8], changes: &str) -> Result<Vec<u8>, SampleError> {
    let mut bytes = file.to_vec(alloc)?;
    for change in changes.split(' ') {
        if let Some((offset, number)) = change.split_once('=') {
            let field = numbers(alloc, number)?;
            overwrite(&mut bytes, parse_count(offset)?, &field)?;
        } else if !change.is_empty() {
            bytes.truncate(parse_count(change)?);
        }
    }
    Ok(bytes)
}

// Parses an offset or a count, in decimal digits.
fn parse_count(text: &str) -> Result<usize, SampleError> {
    match text.parse::<usize>() {
        Ok(count) => Ok(count),
        Err(_) => Err(SampleError::BadNumber),
    }
}

// Overwrites the bytes from index `start` with those of a field; returns an error if the field extends past the end.
fn overwrite(bytes: &mut Vec<u8>, start: usize, field: &[u8]) -> Result<(), SampleError> {
    for (index, byte) in field.iter().enumerate() {
        match bytes.get_mut(start.saturating_add(index)) {
            Some(changed) => *changed = *byte,
            None => return Err(SampleError::PastEnd),
        }
    }
    Ok(())
}
