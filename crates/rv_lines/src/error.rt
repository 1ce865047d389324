//! Why a file has no source lines, and why a unit is rejected.
ghost use Rattle.std.specs.Prelude.{◌≡◌};
ghost use Rattle.rv_lines.specs.ErrorNames.{lines_error_name, unit_error_name};

/// Why a file has no source lines at all. If several reasons apply, the first in this order is returned, except that a missing or empty
/// `.debug_line` is checked for after `SectionNames`, and that `Compressed` and `SectionFile` are checked section by section.
#[derive(Clone, Copy, Debug, PartialEq, Eq)]
pub enum LinesError {
    /// The section headers are not 40 bytes long, or extend past the end of the file.
    SectionTable,
    /// The file has no sections, no `.debug_line`, or an empty one.
    NoLines,
    /// The section of section names is not a string table within the file.
    SectionNames,
    /// A section is compressed.
    Compressed,
    /// A section extends past the end of the file.
    SectionFile,
}

impl LinesError {
    /// Returns the name of the error in messages.
    pub fn name(self) -> &'static str
        ensures { result.now ≡ lines_error_name self }
    {
        match self {
            LinesError::SectionTable => "section-table",
            LinesError::NoLines => "no-lines",
            LinesError::SectionNames => "section-names",
            LinesError::Compressed => "compressed",
            LinesError::SectionFile => "section-file",
        }
    }
}

/// Why a unit of `.debug_line` is rejected: the first error in the order of its bytes. Section numbers are those of DWARF 5.
#[derive(Clone, Copy, Debug, PartialEq, Eq)]
pub enum UnitError {
    /// Fewer than 4 bytes are left in the section, or the unit extends past its end. No later unit is read.
    UnitCutOff,
    /// The unit is in the 64-bit format (7.4). It is skipped.
    Dwarf64,
    /// The length is reserved (7.2.2). No later unit is read.
    ReservedLength,
    /// The version is not 2, 3, 4 or 5.
    Version,
    /// `address_size` is not 4, or `segment_selector_size` is not 0.
    AddressSize,
    /// A field of the header extends past the header, or the header extends past the unit.
    HeaderCutOff,
    /// `maximum_operations_per_instruction` is not 1.
    Operations,
    /// `line_range` is 0.
    LineRange,
    /// `opcode_base` is 0.
    OpcodeBase,
    /// The number of operands of one of the standard opcodes 1 to 12 differs from the standard's.
    OpcodeLengths,
    /// A form is not supported, the form of a path is not a string, the form of a directory index is not a number, or the entries have no
    /// path (6.2.4.1).
    EntryForm,
    /// The offset of a string is outside its section, or no zero byte follows it.
    EntryText,
    /// A LEB128 number (7.6) is out of range: an unsigned one is 2^32 or more, or a signed one does not fit in 32 bits. A number that is
    /// skipped may have any size.
    Number,
    /// An operand extends past the unit.
    OperationCutOff,
    /// The length of an extended opcode does not match its operands (6.2.5.3).
    OperationLength,
    /// The unit has no file with the number in a row. The row at the end of a sequence is not checked.
    FileNumber,
    /// The program ends in the middle of a sequence.
    OpenSequence,
}

impl UnitError {
    /// Returns the name of the error in messages.
    pub fn name(self) -> &'static str
        ensures { result.now ≡ unit_error_name self }
    {
        match self {
            UnitError::UnitCutOff => "unit-cut-off",
            UnitError::Dwarf64 => "dwarf-64",
            UnitError::ReservedLength => "reserved-length",
            UnitError::Version => "version",
            UnitError::AddressSize => "address-size",
            UnitError::HeaderCutOff => "header-cut-off",
            UnitError::Operations => "operations",
            UnitError::LineRange => "line-range",
            UnitError::OpcodeBase => "opcode-base",
            UnitError::OpcodeLengths => "opcode-lengths",
            UnitError::EntryForm => "entry-form",
            UnitError::EntryText => "entry-text",
            UnitError::Number => "number",
            UnitError::OperationCutOff => "operation-cut-off",
            UnitError::OperationLength => "operation-length",
            UnitError::FileNumber => "file-number",
            UnitError::OpenSequence => "open-sequence",
        }
    }
}
