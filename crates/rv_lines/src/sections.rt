//! Finds the sections of line tables by their names (System V ABI, "Sections" and "String Table").
ghost use Rattle.std.specs.Prelude.{◌≡◌, ◌==◌, ◌<◌, ◌≤◌, ◌+◌, ◌*◌, ◌^◌, length, MatchResult, IfOk, Ok, Err, false};
ghost use Rattle.rv_elf.specs.Fields.{half_at, word_at};
ghost use Rattle.rv_elf.specs.Sections.{e_shnum, begins_with_name};
ghost use Rattle.rv_lines.specs.Sections.{header_at, in_file, section_at, section_of_index, has_bad_table, is_past_file, bytes_of, has_bad_names, is_invalid_name_table, names_of};
ghost use Rattle.rv_lines.specs.Sections.{is_named, is_named_either, named, is_compressed, readable_bytes, bytes_named, tables_of, has_no_lines};
ghost use Rattle.rv_lines.specs.Sections.{line_tables, HasTable, HasNames};
ghost use Rattle.rv_lines.specs.SectionsInside.{view_tables};

use crate::error::LinesError;
use crate::reading::{bytes_from, text_before_zero};
use crate::tables::{LineTables, StringSections};
use byteorder::{ByteOrder, LittleEndian};

/// The fields of a section header that are used (System V ABI, "Sections").
#[derive(Clone, Copy)]
pub(crate) struct Section {
    pub(crate) name: u32,
    pub(crate) kind: u32,
    pub(crate) flags: u32,
    pub(crate) offset: u32,
    pub(crate) size: u32,
}

// Field offsets in the ELF header.
const E_SHOFF: usize = 32;

const E_SHENTSIZE: usize = 46;

const E_SHNUM: usize = 48;

const E_SHSTRNDX: usize = 50;

/// The size of a section header.
const HEADER_SIZE: u16 = 40;

const SHT_STRTAB: u32 = 3;

const SHT_NOBITS: u32 = 8;

const SHF_COMPRESSED: u32 = 0x800;

/// Returns the line tables of an ELF file, or the first error that applies. A missing string section counts as empty. Does not allocate.
#[tactic(auto, unfolding(crate::specs::Sections::line_tables))]
pub fn line_tables(file: &[u8]) -> Result<LineTables<'_>, LinesError>
    requires { 52 ≤ length file.now }
    ensures { MatchResult result (λ tables. line_tables file.now ≡ Ok (view_tables tables)) (λ e. line_tables file.now ≡ Err e) }
{
    if has_bad_table(file) {
        return Err(LinesError::SectionTable);
    }
    if half_field(file, E_SHNUM) == 0 {
        return Err(LinesError::NoLines);
    }
    if has_bad_names(file) {
        return Err(LinesError::SectionNames);
    }
    if has_no_lines(file) {
        return Err(LinesError::NoLines);
    }
    tables_of(file)
}

// Whether the file has section headers that are not 40 bytes long, or that extend past its end.
fn has_bad_table(file: &[u8]) -> bool
    requires { 52 ≤ length file.now }
    ensures { result ≡ has_bad_table file.now }
{
    let count = half_field(file, E_SHNUM);
    count != 0
        && (half_field(file, E_SHENTSIZE) != HEADER_SIZE
            || file.len()
                < word_field(file, E_SHOFF) as usize + HEADER_SIZE as usize * count as usize)
}

// Whether there is no section with the index `e_shstrndx`, or it is not a string table within the file.
fn has_bad_names(file: &[u8]) -> bool
    requires { HasTable file.now }
    ensures { result ≡ has_bad_names file.now }
{
    let index = half_field(file, E_SHSTRNDX);
    if half_field(file, E_SHNUM) <= index {
        return true;
    }
    let names = section_of_index(file, index);
    names.kind != SHT_STRTAB || names.is_past_file(file.len())
}

// Whether the file has no `.debug_line`, or an empty one.
fn has_no_lines(file: &[u8]) -> bool
    requires { HasNames file.now }
    ensures { result ≡ has_no_lines file.now }
{
    match named(file, b".debug_line", b".zdebug_line") {
        None => true,
        Some(section) => section.size == 0,
    }
}

// Returns `.debug_line` and the string sections, or the error of the first of them that cannot be read.
#[tactic(auto, unfolding(crate::specs::Sections::tables_of))]
fn tables_of(file: &[u8]) -> Result<LineTables<'_>, LinesError>
    requires { HasNames file.now }
    ensures { MatchResult result (λ tables. tables_of file.now ≡ Ok (view_tables tables)) (λ e. tables_of file.now ≡ Err e) }
{
    let lines = bytes_named(file, b".debug_line", b".zdebug_line")?;
    let line_str = bytes_named(file, b".debug_line_str", b".zdebug_line_str")?;
    let str = bytes_named(file, b".debug_str", b".zdebug_str")?;
    Ok(LineTables {
        lines,
        strings: StringSections { line_str, str },
    })
}

// Returns the bytes of the first section with one of two names, no bytes if there is none, or why they cannot be read. The name `gnu` is
// that of a compressed section.
#[tactic(auto, unfolding(crate::specs::Sections::bytes_named))]
fn bytes_named<'a>(file: &'a [u8], plain: &[u8], gnu: &[u8]) -> Result<&'a [u8], LinesError>
    requires { HasNames file.now }
    ensures value { MatchResult result (λ bytes. bytes_named file.now plain.now gnu.now ≡ Ok bytes.now)
        (λ e. bytes_named file.now plain.now gnu.now ≡ Err e) }
    ensures short { IfOk result (λ bytes. length bytes.now < 2 ^ 32) }
{
    match named(file, plain, gnu) {
        None => Ok(&[]),
        Some(section) => readable_bytes(file, gnu, &section),
    }
}

// Returns the bytes of a section, or an error if it is compressed or extends past the end of the file.
fn readable_bytes<'a>(file: &'a [u8], gnu: &[u8], section: &Section) -> Result<&'a [u8], LinesError>
    requires { HasNames file.now }
    ensures value { MatchResult result (λ bytes. readable_bytes file.now gnu.now section.now ≡ Ok bytes.now)
        (λ e. readable_bytes file.now gnu.now section.now ≡ Err e) }
    ensures short { IfOk result (λ bytes. length bytes.now < 2 ^ 32) }
{
    let (flags, _size) = (section.flags, section.size);
    if flags & SHF_COMPRESSED != 0 || section.is_named(names_of(file), gnu) {
        return Err(LinesError::Compressed);
    }
    if section.is_past_file(file.len()) {
        return Err(LinesError::SectionFile);
    }
    Ok(section.bytes_of(file))
}

// Returns the first section with one of two names, or `None` if there is none.
fn named(file: &[u8], plain: &[u8], gnu: &[u8]) -> Option<Section>
    requires { HasNames file.now }
    ensures { result ≡ named file.now plain.now gnu.now }
{
    let names = names_of(file);
    for index in 0..half_field(file, E_SHNUM) {
        let section = section_of_index(file, index);
        if section.is_named_either(names, plain, gnu) {
            return Some(section);
        }
    }
    None
}

// Returns the string table with the names of the sections.
fn names_of(file: &[u8]) -> &[u8]
    requires { HasNames file.now }
    ensures { result.now ≡ names_of file.now }
{
    section_of_index(file, half_field(file, E_SHSTRNDX)).bytes_of(file)
}

impl Section {
    // Returns the section as it is in the file: a section of type `SHT_NOBITS` has no bytes there.
    fn in_file(self) -> Section
        ensures { result ≡ in_file self }
    {
        if self.kind == SHT_NOBITS {
            Section {
                offset: 0,
                size: 0,
                ..self
            }
        } else {
            self
        }
    }

    // Whether the section has this name. `names` is the string table with the names of the sections.
    fn is_named(&self, names: &[u8], text: &[u8]) -> bool
        ensures { result ≡ is_named names.now text.now self.now }
    {
        begins_with_name(bytes_from(names, self.name as usize), text)
    }

    // Whether the section has one of two names.
    fn is_named_either(&self, names: &[u8], plain: &[u8], gnu: &[u8]) -> bool
        ensures { result ≡ is_named_either names.now plain.now gnu.now self.now }
    {
        self.is_named(names, plain) || self.is_named(names, gnu)
    }

    // Whether the section extends past the end of a file of `size` bytes.
    fn is_past_file(&self, size: usize) -> bool
        ensures { result ≡ is_past_file size self.now }
    {
        size < self.offset as usize + self.size as usize
    }

    // Returns the bytes of the section in the file.
    fn bytes_of<'a>(&self, file: &'a [u8]) -> &'a [u8]
        requires { is_past_file (length file.now) self.now ≡ false }
        ensures { result.now ≡ bytes_of file.now self.now }
    {
        &file[self.offset as usize..self.offset as usize + self.size as usize]
    }
}

// Whether the bytes before the first zero byte equal `text`.
fn begins_with_name(bytes: &[u8], text: &[u8]) -> bool
    ensures { result ≡ begins_with_name bytes.now text.now }
{
    match text_before_zero(bytes) {
        None => false,
        Some(name) => text == name,
    }
}

// Returns the section whose header is at an index of the table.
fn section_of_index(file: &[u8], index: u16) -> Section
    requires table { HasTable file.now }
    requires within { index < e_shnum file.now }
    ensures { result ≡ section_of_index file.now index }
{
    let table = word_field(file, E_SHOFF) as usize;
    section_at(file, table + HEADER_SIZE as usize * index as usize)
}

// Returns the section whose header is at an offset of the file.
fn section_at(file: &[u8], at: usize) -> Section
    requires { at + 40 ≤ length file.now }
    ensures { result ≡ section_at file.now at }
{
    header_at(file, at).in_file()
}

// Returns the section header at an offset of the file.
#[tactic(auto, unfolding(crate::specs::Sections::header_at))]
fn header_at(file: &[u8], at: usize) -> Section
    requires { at + 40 ≤ length file.now }
    ensures { result ≡ header_at file.now at }
{
    Section {
        name: word_field(file, at),
        kind: word_field(file, at + 4),
        flags: word_field(file, at + 8),
        offset: word_field(file, at + 16),
        size: word_field(file, at + 20),
    }
}

// Reads the little-endian two-byte number at an offset.
#[tactic(auto, unfolding(rv_elf::specs::Fields::half_at))]
fn half_field(file: &[u8], at: usize) -> u16
    requires { at + 2 ≤ length file.now }
    ensures { result ≡ half_at file.now at }
{
    LittleEndian::read_u16(&file[at..])
}

// Reads the little-endian four-byte number at an offset.
#[tactic(auto, unfolding(rv_elf::specs::Fields::word_at))]
fn word_field(file: &[u8], at: usize) -> u32
    requires { at + 4 ≤ length file.now }
    ensures { result ≡ word_at file.now at }
{
    LittleEndian::read_u32(&file[at..])
}
