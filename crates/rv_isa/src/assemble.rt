//! Encodes the 32-bit instructions to which 16-bit instructions expand. Immediates and offsets are passed as the bits that
//! [`crate::encode`] expects.

ghost use Rattle.rv_isa.specs.Bits.{sign_extended};
ghost use Rattle.rv_isa.specs.Words.{meaning32, instr_with};
ghost use Rattle.rv_isa.specs.declared.instruction.Op.TheVariants as op;
ghost use Rattle.rv_isa.specs.declared.isa.Isa.TheVariants as set;
ghost use Rattle.std.specs.Prelude.{◌≡◌, ◌*◌, ◌<◌, ◌^◌, ◌%◌, pos};

use crate::encode::{b_word, i_word, j_word, r_word, s_word, u_word};
use crate::opcodes::{BRANCH, JAL, JALR, LOAD, LUI, OP, OP_IMM, STORE};

/// The encoding of `ebreak`.
pub const EBREAK: u32 = 0x0010_0073;

/// Returns the encoding of `addi rd, rs1, imm`, where `imm` is the 12 bits of the immediate.
#[inline]
pub fn addi(rd: u32, rs1: u32, imm: u32) -> u32
    requires rd { rd < 32 }
    requires rs1 { rs1 < 32 }
    requires imm { imm < 4096 }
    ensures { meaning32 set.Imc result ≡ Some (instr_with op.Addi rd rs1 0 (sign_extended 12 imm)) }
{
    i_word(imm, rs1, 0, rd, OP_IMM)
}

/// Returns the encoding of `andi rd, rs1, imm`, where `imm` is the 12 bits of the immediate.
#[inline]
pub fn andi(rd: u32, rs1: u32, imm: u32) -> u32
    requires rd { rd < 32 }
    requires rs1 { rs1 < 32 }
    requires imm { imm < 4096 }
    ensures { meaning32 set.Imc result ≡ Some (instr_with op.Andi rd rs1 0 (sign_extended 12 imm)) }
{
    i_word(imm, rs1, 7, rd, OP_IMM)
}

/// Returns the encoding of `lw rd, imm(rs1)`, where `imm` is the 12 bits of the offset.
#[inline]
pub fn lw(rd: u32, rs1: u32, imm: u32) -> u32
    requires rd { rd < 32 }
    requires rs1 { rs1 < 32 }
    requires imm { imm < 4096 }
    ensures { meaning32 set.Imc result ≡ Some (instr_with op.Lw rd rs1 0 (sign_extended 12 imm)) }
{
    i_word(imm, rs1, 2, rd, LOAD)
}

/// Returns the encoding of `jalr rd, imm(rs1)`, where `imm` is the 12 bits of the offset.
#[inline]
pub fn jalr(rd: u32, rs1: u32, imm: u32) -> u32
    requires rd { rd < 32 }
    requires rs1 { rs1 < 32 }
    requires imm { imm < 4096 }
    ensures { meaning32 set.Imc result ≡ Some (instr_with op.Jalr rd rs1 0 (sign_extended 12 imm)) }
{
    i_word(imm, rs1, 0, rd, JALR)
}

/// Returns the encoding of `slli rd, rs1, shift`.
#[inline]
pub fn slli(rd: u32, rs1: u32, shift: u32) -> u32
    requires rd { rd < 32 }
    requires rs1 { rs1 < 32 }
    requires shift { shift < 32 }
    ensures { meaning32 set.Imc result ≡ Some (instr_with op.Slli rd rs1 0 (pos shift)) }
{
    r_word(0, shift, rs1, 1, rd, OP_IMM)
}

/// Returns the encoding of `srli rd, rs1, shift`.
#[inline]
pub fn srli(rd: u32, rs1: u32, shift: u32) -> u32
    requires rd { rd < 32 }
    requires rs1 { rs1 < 32 }
    requires shift { shift < 32 }
    ensures { meaning32 set.Imc result ≡ Some (instr_with op.Srli rd rs1 0 (pos shift)) }
{
    r_word(0, shift, rs1, 5, rd, OP_IMM)
}

/// Returns the encoding of `srai rd, rs1, shift`.
#[inline]
pub fn srai(rd: u32, rs1: u32, shift: u32) -> u32
    requires rd { rd < 32 }
    requires rs1 { rs1 < 32 }
    requires shift { shift < 32 }
    ensures { meaning32 set.Imc result ≡ Some (instr_with op.Srai rd rs1 0 (pos shift)) }
{
    r_word(0x20, shift, rs1, 5, rd, OP_IMM)
}

/// Returns the encoding of `add rd, rs1, rs2`.
#[inline]
pub fn add(rd: u32, rs1: u32, rs2: u32) -> u32
    requires rd { rd < 32 }
    requires rs1 { rs1 < 32 }
    requires rs2 { rs2 < 32 }
    ensures { meaning32 set.Imc result ≡ Some (instr_with op.Add rd rs1 rs2 (pos 0)) }
{
    r_word(0, rs2, rs1, 0, rd, OP)
}

/// Returns the encoding of `sub rd, rs1, rs2`.
#[inline]
pub fn sub(rd: u32, rs1: u32, rs2: u32) -> u32
    requires rd { rd < 32 }
    requires rs1 { rs1 < 32 }
    requires rs2 { rs2 < 32 }
    ensures { meaning32 set.Imc result ≡ Some (instr_with op.Sub rd rs1 rs2 (pos 0)) }
{
    r_word(0x20, rs2, rs1, 0, rd, OP)
}

/// Returns the encoding of `xor rd, rs1, rs2`.
#[inline]
pub fn xor(rd: u32, rs1: u32, rs2: u32) -> u32
    requires rd { rd < 32 }
    requires rs1 { rs1 < 32 }
    requires rs2 { rs2 < 32 }
    ensures { meaning32 set.Imc result ≡ Some (instr_with op.Xor rd rs1 rs2 (pos 0)) }
{
    r_word(0, rs2, rs1, 4, rd, OP)
}

/// Returns the encoding of `or rd, rs1, rs2`.
#[inline]
pub fn or(rd: u32, rs1: u32, rs2: u32) -> u32
    requires rd { rd < 32 }
    requires rs1 { rs1 < 32 }
    requires rs2 { rs2 < 32 }
    ensures { meaning32 set.Imc result ≡ Some (instr_with op.Or rd rs1 rs2 (pos 0)) }
{
    r_word(0, rs2, rs1, 6, rd, OP)
}

/// Returns the encoding of `and rd, rs1, rs2`.
#[inline]
pub fn and(rd: u32, rs1: u32, rs2: u32) -> u32
    requires rd { rd < 32 }
    requires rs1 { rs1 < 32 }
    requires rs2 { rs2 < 32 }
    ensures { meaning32 set.Imc result ≡ Some (instr_with op.And rd rs1 rs2 (pos 0)) }
{
    r_word(0, rs2, rs1, 7, rd, OP)
}

/// Returns the encoding of `sw rs2, imm(rs1)`, where `imm` is the 12 bits of the offset.
#[inline]
pub fn sw(rs1: u32, rs2: u32, imm: u32) -> u32
    requires rs1 { rs1 < 32 }
    requires rs2 { rs2 < 32 }
    requires imm { imm < 4096 }
    ensures { meaning32 set.Imc result ≡ Some (instr_with op.Sw 0 rs1 rs2 (sign_extended 12 imm)) }
{
    s_word(imm, rs2, rs1, 2, STORE)
}

/// Returns the encoding of `beq rs1, rs2, offset`, where `offset` is the 13 bits of an even offset in bytes.
#[inline]
pub fn beq(rs1: u32, rs2: u32, offset: u32) -> u32
    requires rs1 { rs1 < 32 }
    requires rs2 { rs2 < 32 }
    requires offset { offset < 8192 }
    requires even { offset % 2 ≡ 0 }
    ensures { meaning32 set.Imc result
        ≡ Some (instr_with op.Beq 0 rs1 rs2 (sign_extended 13 offset)) }
{
    b_word(offset, rs2, rs1, 0, BRANCH)
}

/// Returns the encoding of `bne rs1, rs2, offset`, where `offset` is the 13 bits of an even offset in bytes.
#[inline]
pub fn bne(rs1: u32, rs2: u32, offset: u32) -> u32
    requires rs1 { rs1 < 32 }
    requires rs2 { rs2 < 32 }
    requires offset { offset < 8192 }
    requires even { offset % 2 ≡ 0 }
    ensures { meaning32 set.Imc result
        ≡ Some (instr_with op.Bne 0 rs1 rs2 (sign_extended 13 offset)) }
{
    b_word(offset, rs2, rs1, 1, BRANCH)
}

/// Returns the encoding of `jal rd, offset`, where `offset` is the 21 bits of an even offset in bytes.
#[inline]
pub fn jal(rd: u32, offset: u32) -> u32
    requires rd { rd < 32 }
    requires offset { offset < 2 ^ 21 }
    requires even { offset % 2 ≡ 0 }
    ensures { meaning32 set.Imc result ≡ Some (instr_with op.Jal rd 0 0 (sign_extended 21 offset)) }
{
    j_word(offset, rd, JAL)
}

/// Returns the encoding of `lui rd, upper`, which loads `upper` into bits 31 to 12 of `rd` and clears the others.
#[inline]
pub fn lui(rd: u32, upper: u32) -> u32
    requires rd { rd < 32 }
    requires upper { upper < 2 ^ 20 }
    ensures { meaning32 set.Imc result
        ≡ Some (instr_with op.Lui rd 0 0 (sign_extended 32 (4096 * upper))) }
{
    u_word(upper, rd, LUI)
}
