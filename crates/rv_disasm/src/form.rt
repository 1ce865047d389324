//! The form of an instruction in assembly: its mnemonic and its operands.

use rv_isa::Instr;

/// A fetched instruction, with its encoding and its address.
#[derive(Clone, Copy)]
pub(crate) struct Fetched {
    pub instr: Instr,
    pub code: u32,
    pub pc: u32,
}

/// An operand of an instruction, by how it is written.
#[derive(Clone, Copy)]
pub(crate) enum Operand {
    /// The name of the destination register.
    Rd,
    /// The name of the first source register.
    Rs1,
    /// The name of the second source register.
    Rs2,
    /// The immediate, in decimal.
    Imm,
    /// The immediate and the name of the base register, as in `8(a0)`.
    Address,
    /// The upper 20 bits of the immediate, in hexadecimal.
    Upper,
    /// The target address of a pc-relative immediate.
    Target,
    /// The predecessor set of a FENCE.
    Predecessors,
    /// The successor set of a FENCE.
    Successors,
}

/// The operands of an instruction, in the order in which they are written.
#[derive(Clone, Copy)]
pub(crate) enum Operands {
    Absent,
    One(Operand),
    Two(Operand, Operand),
    Three(Operand, Operand, Operand),
}

/// How the instructions of a row are written: the mnemonic and the operands.
#[derive(Clone, Copy)]
pub(crate) struct Form(pub &'static str, pub Operands);

// The operands of the 32-bit rows, some of which the 16-bit rows share.

pub(crate) const REGISTERS: Operands = Operands::Three(Operand::Rd, Operand::Rs1, Operand::Rs2);

pub(crate) const IMMEDIATE: Operands = Operands::Three(Operand::Rd, Operand::Rs1, Operand::Imm);

pub(crate) const LOAD: Operands = Operands::Two(Operand::Rd, Operand::Address);

pub(crate) const STORE: Operands = Operands::Two(Operand::Rs2, Operand::Address);

pub(crate) const BRANCH: Operands = Operands::Three(Operand::Rs1, Operand::Rs2, Operand::Target);

pub(crate) const UPPER_IMMEDIATE: Operands = Operands::Two(Operand::Rd, Operand::Upper);

pub(crate) const JUMP: Operands = Operands::Two(Operand::Rd, Operand::Target);

pub(crate) const FENCE: Operands = Operands::Two(Operand::Predecessors, Operand::Successors);

// The operands that only 16-bit rows have.

pub(crate) const REGISTER_IMMEDIATE: Operands = Operands::Two(Operand::Rd, Operand::Imm);

pub(crate) const TWO_REGISTERS: Operands = Operands::Two(Operand::Rd, Operand::Rs2);

pub(crate) const ZERO_BRANCH: Operands = Operands::Two(Operand::Rs1, Operand::Target);
