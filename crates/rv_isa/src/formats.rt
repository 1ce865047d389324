//! Reads the operands of an instruction from its 32-bit word, in each format.

ghost use Rattle.rv_isa.specs.Bits.{field as bits_of};
ghost use Rattle.rv_isa.specs.Words.{immediate_i, immediate_s, immediate_b, immediate_u, immediate_j, instruction};
ghost use Rattle.rv_isa.specs.Words.{TypeR, TypeI, TypeShift, TypeS, TypeB, TypeU, TypeJ, NoOperands};
ghost use Rattle.std.specs.Prelude.{◌≡◌, ◌+◌, ◌*◌, ◌-◌, ◌<◌, ◌≤◌, ◌^◌};

use crate::bits::{concat_bits, field, sign_extend};
use crate::instruction::{Instr, Op};

/// Returns the instruction `op` with the operands of a format R word.
#[inline]
pub fn type_r(op: Op, word: u32) -> Instr
    ensures { result ≡ instruction op TypeR word }
{
    Instr {
        op,
        rd: rd(word),
        rs1: rs1(word),
        rs2: rs2(word),
        imm: 0,
    }
}

/// Returns the instruction `op` with the operands of a format I word.
#[inline]
pub fn type_i(op: Op, word: u32) -> Instr
    ensures { result ≡ instruction op TypeI word }
{
    Instr {
        op,
        rd: rd(word),
        rs1: rs1(word),
        rs2: 0,
        imm: imm_i(word),
    }
}

/// Returns the immediate shift `op` with the operands of a word, whose bits 24 to 20 are the shift amount.
#[inline]
pub fn type_shift(op: Op, word: u32) -> Instr
    ensures { result ≡ instruction op TypeShift word }
{
    Instr {
        op,
        rd: rd(word),
        rs1: rs1(word),
        rs2: 0,
        imm: field(word, 24, 20) as i32,
    }
}

/// Returns the instruction `op` with the operands of a format S word.
#[inline]
pub fn type_s(op: Op, word: u32) -> Instr
    ensures { result ≡ instruction op TypeS word }
{
    Instr {
        op,
        rd: 0,
        rs1: rs1(word),
        rs2: rs2(word),
        imm: imm_s(word),
    }
}

/// Returns the instruction `op` with the operands of a format B word.
#[inline]
pub fn type_b(op: Op, word: u32) -> Instr
    ensures { result ≡ instruction op TypeB word }
{
    Instr {
        op,
        rd: 0,
        rs1: rs1(word),
        rs2: rs2(word),
        imm: imm_b(word),
    }
}

/// Returns the instruction `op` with the operands of a format U word.
#[inline]
pub fn type_u(op: Op, word: u32) -> Instr
    ensures { result ≡ instruction op TypeU word }
{
    Instr {
        op,
        rd: rd(word),
        rs1: 0,
        rs2: 0,
        imm: imm_u(word),
    }
}

/// Returns the instruction `op` with the operands of a format J word.
#[inline]
pub fn type_j(op: Op, word: u32) -> Instr
    ensures { result ≡ instruction op TypeJ word }
{
    Instr {
        op,
        rd: rd(word),
        rs1: 0,
        rs2: 0,
        imm: imm_j(word),
    }
}

/// Returns the instruction `op` without operands.
#[inline]
pub fn no_operands(op: Op) -> Instr
    ensures { result ≡ instruction op NoOperands 0 }
{
    Instr {
        op,
        rd: 0,
        rs1: 0,
        rs2: 0,
        imm: 0,
    }
}

// Returns the number of the destination register of a word.
#[inline]
fn rd(word: u32) -> u8
    ensures { result ≡ bits_of word 11 7 }
{
    field(word, 11, 7) as u8
}

// Returns the number of the first source register of a word.
#[inline]
fn rs1(word: u32) -> u8
    ensures { result ≡ bits_of word 19 15 }
{
    field(word, 19, 15) as u8
}

// Returns the number of the second source register of a word.
#[inline]
fn rs2(word: u32) -> u8
    ensures { result ≡ bits_of word 24 20 }
{
    field(word, 24, 20) as u8
}

// Returns the sign-extended immediate of a word of format I.
#[inline]
fn imm_i(word: u32) -> i32
    ensures { result ≡ immediate_i word }
{
    sign_extend(field(word, 31, 20), 12)
}

// Returns the sign-extended immediate of a word of format S.
#[inline]
fn imm_s(word: u32) -> i32
    ensures { result ≡ immediate_s word }
{
    sign_extend(concat_bits(field(word, 31, 25), field(word, 11, 7), 5), 12)
}

// Returns the sign-extended offset of a word of format B, in bytes.
#[inline]
fn imm_b(word: u32) -> i32
    ensures { result ≡ immediate_b word }
{
    let top = concat_bits(field(word, 31, 31), field(word, 7, 7), 1);
    let upper = concat_bits(top, field(word, 30, 25), 6);
    let halves = concat_bits(upper, field(word, 11, 8), 4);
    sign_extend(halves << 1, 13)
}

// Returns the immediate of a word of format U, whose low 12 bits are 0.
#[inline]
fn imm_u(word: u32) -> i32
    ensures { result ≡ immediate_u word }
{
    sign_extend(field(word, 31, 12) << 12, 32)
}

// Returns the sign-extended offset of a word of format J, in bytes.
#[inline]
fn imm_j(word: u32) -> i32
    ensures { result ≡ immediate_j word }
{
    let top = concat_bits(field(word, 31, 31), field(word, 19, 12), 8);
    let upper = concat_bits(top, field(word, 20, 20), 1);
    let halves = concat_bits(upper, field(word, 30, 21), 10);
    sign_extend(halves << 1, 21)
}
