//! The program header table: its entries, their checks, and the loaded segments.
ghost use Rattle.std.specs.Prelude.{◌≡◌, ◌+◌, ◌*◌, ◌<◌, ◌≤◌, IfOk, map, length};
ghost use Rattle.std.specs.List.{list_any, range_with_len};
ghost use Rattle.rv_elf.specs.Image.{segment_at, program_header_at, program_header_table, is_dynamic, has_bad_sizes, is_segment_past_file};
ghost use Rattle.rv_elf.specs.Image.{loaded_segments, HasProgramHeaders};
ghost use Rattle.rv_elf.specs.ImageChecks.{program_header_check};

use crate::error::ImageError;
use crate::fields::{
    E_PHNUM, E_PHOFF, P_FILESZ, P_FLAGS, P_MEMSZ, P_OFFSET, P_PADDR, P_TYPE, P_VADDR, half_field,
    word_field,
};
use crate::image::Segment;
use std::alloc::{AllocError, Global};

/// The fields of a program header that are used.
#[derive(Clone, Copy)]
pub(crate) struct ProgramHeader {
    p_type: u32,
    segment: Segment,
}

const PT_LOAD: u32 = 1;

const PT_DYNAMIC: u32 = 2;

const PT_INTERP: u32 = 3;

/// Returns the program headers of the file's table, in order.
#[tactic(auto, unfolding(crate::specs::Image::program_header_table))]
pub(crate) fn program_header_table(
    alloc: Global,
    file: &[u8],
) -> Result<Vec<ProgramHeader>, AllocError>
    requires { HasProgramHeaders file.now }
    ensures { IfOk result (λ v. v.items ≡ program_header_table file.now) }
{
    program_headers_at(
        alloc,
        file,
        word_field(file, E_PHOFF) as usize,
        half_field(file, E_PHNUM) as usize,
    )
}

/// Checks the program headers, and returns the first error that applies. Each condition is checked for all headers before the next
/// condition.
#[tactic(auto, unfolding(crate::specs::ImageChecks::program_header_check))]
pub(crate) fn check_program_headers(
    headers: &[ProgramHeader],
    file: &[u8],
) -> Result<(), ImageError>
    requires { headers.now ≡ program_header_table file.now }
    ensures { result ≡ program_header_check file.now }
{
    if any_dynamic_header(headers) {
        return Err(ImageError::Dynamic);
    }
    if any_bad_segment_sizes(headers) {
        return Err(ImageError::SegmentSizes);
    }
    if any_segment_past_file(headers, file.len()) {
        return Err(ImageError::SegmentFile);
    }
    Ok(())
}

/// Returns the segments of the PT_LOAD program headers that have bytes in memory, in order.
pub(crate) fn loaded_segments(
    alloc: Global,
    headers: &[ProgramHeader],
) -> Result<Vec<Segment>, AllocError>
    ensures { IfOk result (λ v. v.items ≡ loaded_segments headers.now) }
{
    let mut segments = Vec::new(alloc);
    for header in headers {
        if header.p_type == PT_LOAD && 0 < header.segment.memsz {
            segments.push(header.segment)?;
        }
    }
    Ok(segments)
}

// Returns the `count` program headers of the table at an offset, in order.
fn program_headers_at(
    alloc: Global,
    file: &[u8],
    offset: usize,
    count: usize,
) -> Result<Vec<ProgramHeader>, AllocError>
    requires in_file { 0 < count → offset + 32 * count ≤ length file.now }
    requires at_most_64 { count ≤ 64 }
    ensures { IfOk result (λ v. v.items
        ≡ map (λ k. program_header_at file.now (offset + 32 * k)) (range_with_len 0 count)) }
{
    let mut headers = Vec::new(alloc);
    for k in 0..count {
        headers.push(program_header_at(file, offset + 32 * k))?;
    }
    Ok(headers)
}

// Returns the program header at an offset.
#[tactic(auto, unfolding(crate::specs::Image::program_header_at))]
fn program_header_at(file: &[u8], at: usize) -> ProgramHeader
    requires { at + 32 ≤ length file.now }
    ensures { result ≡ program_header_at file.now at }
{
    ProgramHeader {
        p_type: word_field(file, at + P_TYPE),
        segment: segment_at(file, at),
    }
}

// Returns the segment that the program header at an offset describes.
#[tactic(auto, unfolding(crate::specs::Image::segment_at))]
fn segment_at(file: &[u8], at: usize) -> Segment
    requires { at + 32 ≤ length file.now }
    ensures { result ≡ segment_at file.now at }
{
    Segment {
        offset: word_field(file, at + P_OFFSET),
        vaddr: word_field(file, at + P_VADDR),
        paddr: word_field(file, at + P_PADDR),
        filesz: word_field(file, at + P_FILESZ),
        memsz: word_field(file, at + P_MEMSZ),
        flags: word_field(file, at + P_FLAGS),
    }
}

// Whether at least one program header is PT_DYNAMIC or PT_INTERP.
fn any_dynamic_header(headers: &[ProgramHeader]) -> bool
    ensures { result ≡ list_any is_dynamic headers.now }
{
    headers.iter().any(|header| header.p_type == PT_DYNAMIC || header.p_type == PT_INTERP)
}

// Whether at least one PT_LOAD program header has more bytes in the file than in memory.
fn any_bad_segment_sizes(headers: &[ProgramHeader]) -> bool
    ensures { result ≡ list_any has_bad_sizes headers.now }
{
    headers.iter().any(|header| header.p_type == PT_LOAD
        && header.segment.memsz < header.segment.filesz)
}

// Whether at least one PT_LOAD program header has file bytes that extend past the end of a file of `size` bytes.
fn any_segment_past_file(headers: &[ProgramHeader], size: usize) -> bool
    ensures { result ≡ list_any (is_segment_past_file size) headers.now }
{
    headers.iter().any(|header| {
        header.p_type == PT_LOAD
            && 0 < header.segment.filesz
            && size < header.segment.offset as usize + header.segment.filesz as usize
    })
}
