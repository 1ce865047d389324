//! The text of an operand.
ghost use Rattle.std.specs.Prelude.{◌≡◌, ◌<◌, ◌++◌, OnOk};
ghost use Rattle.rv_isa.specs.Words.{IsWellFormed};
ghost use Rattle.rv_disasm.specs.Operands.{offset_and_base, prefixed_hexadecimal, operand_text, register_name, fence_set_name};
ghost use Rattle.std.specs.Fmt.{signed_decimal};

use crate::form::{Fetched, Operand};
use itoa::Buffer;
use rv_isa::field;
use std::alloc::{AllocError, Global};

/// Appends the text of an operand of a fetched instruction.
#[tactic(auto, unfolding(crate::specs::Operands::operand_text))]
pub(crate) fn push_operand(
    alloc: Global,
    bytes: &mut Vec<u8>,
    operand: Operand,
    fetched: Fetched,
) -> Result<(), AllocError>
    requires { IsWellFormed fetched.instr }
    ensures { OnOk result (bytes.new.items
        ≡ bytes.old.items ++ operand_text operand fetched) }
{
    let instr = fetched.instr;
    match operand {
        Operand::Rd => push_literal(bytes, register_name(instr.rd)),
        Operand::Rs1 => push_literal(bytes, register_name(instr.rs1)),
        Operand::Rs2 => push_literal(bytes, register_name(instr.rs2)),
        Operand::Imm => push_signed_decimal(bytes, instr.imm),
        Operand::Address => push_offset_and_base(bytes, instr.imm, instr.rs1),
        Operand::Upper => push_prefixed_hexadecimal(alloc, bytes, instr.imm.cast_unsigned() >> 12),
        Operand::Target => {
            let target = fetched.pc.wrapping_add(instr.imm.cast_unsigned());
            push_prefixed_hexadecimal(alloc, bytes, target)
        }
        Operand::Predecessors => push_literal(bytes, fence_set_name(field(fetched.code, 27, 24))),
        Operand::Successors => push_literal(bytes, fence_set_name(field(fetched.code, 23, 20))),
    }
}

/// Appends a text unchanged.
pub(crate) fn push_literal(bytes: &mut Vec<u8>, text: &str) -> Result<(), AllocError>
    ensures { OnOk result (bytes.new.items ≡ bytes.old.items ++ text.now) }
{
    bytes.extend_from_slice(text.as_bytes())
}

// Appends a number in decimal, with a minus sign if it is negative.
fn push_signed_decimal(bytes: &mut Vec<u8>, number: i32) -> Result<(), AllocError>
    ensures { OnOk result (bytes.new.items ≡ bytes.old.items ++ signed_decimal number) }
{
    let mut buffer = Buffer::new();
    push_literal(bytes, buffer.format(number))
}

// Appends `0x` and a number's lower-case hexadecimal digits, without leading zeros.
fn push_prefixed_hexadecimal(
    alloc: Global,
    bytes: &mut Vec<u8>,
    number: u32,
) -> Result<(), AllocError>
    ensures { OnOk result (bytes.new.items ≡ bytes.old.items ++ prefixed_hexadecimal number) }
{
    let text = format!(in alloc; "0x{number:x}")?;
    push_literal(bytes, text.as_str())
}

// Appends an address as `offset(base)`.
#[tactic(auto, unfolding(crate::specs::Operands::offset_and_base))]
fn push_offset_and_base(bytes: &mut Vec<u8>, offset: i32, base: u8) -> Result<(), AllocError>
    requires { base < 32 }
    ensures { OnOk result (bytes.new.items ≡ bytes.old.items ++ offset_and_base offset base) }
{
    push_signed_decimal(bytes, offset)?;
    push_literal(bytes, "(")?;
    push_literal(bytes, register_name(base))?;
    push_literal(bytes, ")")
}

/// Returns the ABI name of the register with this number.
pub fn register_name(number: u8) -> &'static str
    requires { number < 32 }
    ensures { result.now ≡ register_name number }
{
    match number {
        0 => "zero",
        1 => "ra",
        2 => "sp",
        3 => "gp",
        4 => "tp",
        5 => "t0",
        6 => "t1",
        7 => "t2",
        8 => "s0",
        9 => "s1",
        10 => "a0",
        11 => "a1",
        12 => "a2",
        13 => "a3",
        14 => "a4",
        15 => "a5",
        16 => "a6",
        17 => "a7",
        18 => "s2",
        19 => "s3",
        20 => "s4",
        21 => "s5",
        22 => "s6",
        23 => "s7",
        24 => "s8",
        25 => "s9",
        26 => "s10",
        27 => "s11",
        28 => "t3",
        29 => "t4",
        30 => "t5",
        _ => "t6",
    }
}

// Returns the letters of a predecessor or successor set of FENCE from its four bits, or `0` if no bit is set.
#[tactic(auto, unfolding(rv_isa::specs::Bits::field))]
fn fence_set_name(bits: u32) -> &'static str
    requires { bits < 16 }
    ensures { result.now ≡ fence_set_name bits }
{
    match bits {
        0 => "0",
        1 => "w",
        2 => "r",
        3 => "rw",
        4 => "o",
        5 => "ow",
        6 => "or",
        7 => "orw",
        8 => "i",
        9 => "iw",
        10 => "ir",
        11 => "irw",
        12 => "io",
        13 => "iow",
        14 => "ior",
        _ => "iorw",
    }
}
