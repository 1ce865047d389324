//! The checks of the ELF header, and of the location of the program header table.
ghost use Rattle.std.specs.Prelude.{◌≡◌, ◌≤◌, OnOk, length};
ghost use Rattle.rv_elf.specs.Image.{has_magic, has_bad_version, has_bad_program_table, HasProgramHeaders};
ghost use Rattle.rv_elf.specs.ImageChecks.{header_check};

use crate::error::ImageError;
use crate::fields::{
    E_MACHINE, E_PHENTSIZE, E_PHNUM, E_PHOFF, E_TYPE, E_VERSION, EI_CLASS, EI_DATA, EI_VERSION,
    half_field, word_field,
};

const ELF_HEADER_SIZE: usize = 52;

/// The size of a program header.
const PROGRAM_HEADER_SIZE: u16 = 32;

const MAX_PROGRAM_HEADERS: u16 = 64;

const ELFCLASS32: u8 = 1;

const ELFDATA2LSB: u8 = 1;

const EV_CURRENT: u8 = 1;

const ET_EXEC: u16 = 2;

const EM_RISCV: u16 = 243;

/// Checks the ELF header and the location of the program header table, and returns the first error that applies.
#[tactic(auto, unfolding(crate::specs::ImageChecks::header_check))]
pub(crate) fn check_header(file: &[u8]) -> Result<(), ImageError>
    ensures value { result ≡ header_check file.now }
    ensures table { OnOk result (HasProgramHeaders file.now) }
{
    if file.len() < ELF_HEADER_SIZE {
        return Err(ImageError::ShortHeader);
    }
    if !has_magic(file) {
        return Err(ImageError::BadMagic);
    }
    if file[EI_CLASS] != ELFCLASS32 {
        return Err(ImageError::Not32Bit);
    }
    if file[EI_DATA] != ELFDATA2LSB {
        return Err(ImageError::NotLittleEndian);
    }
    if has_bad_version(file) {
        return Err(ImageError::BadVersion);
    }
    if half_field(file, E_TYPE) != ET_EXEC {
        return Err(ImageError::NotExecutable);
    }
    if half_field(file, E_MACHINE) != EM_RISCV {
        return Err(ImageError::NotRiscv);
    }
    if has_bad_program_table(file) {
        return Err(ImageError::ProgramTable);
    }
    Ok(())
}

// Whether the file begins with `0x7f 'E' 'L' 'F'`.
fn has_magic(file: &[u8]) -> bool
    requires { 52 ≤ length file.now }
    ensures { result ≡ has_magic file.now }
{
    file[0] == 0x7f && file[1] == b'E' && file[2] == b'L' && file[3] == b'F'
}

// Whether the version in the identification or in `e_version` is not 1.
fn has_bad_version(file: &[u8]) -> bool
    requires { 52 ≤ length file.now }
    ensures { result ≡ has_bad_version file.now }
{
    file[EI_VERSION] != EV_CURRENT || word_field(file, E_VERSION) != u32::from(EV_CURRENT)
}

// Whether the program header table is invalid: it has more than 64 entries; or it has some, and they are not 32 bytes long, or the table
// extends past the end of the file.
fn has_bad_program_table(file: &[u8]) -> bool
    requires { 52 ≤ length file.now }
    ensures { result ≡ has_bad_program_table file.now }
{
    let count = half_field(file, E_PHNUM);
    MAX_PROGRAM_HEADERS < count
        || 0 < count
            && (half_field(file, E_PHENTSIZE) != PROGRAM_HEADER_SIZE
                || file.len()
                    < word_field(file, E_PHOFF) as usize
                        + PROGRAM_HEADER_SIZE as usize * count as usize)
}
