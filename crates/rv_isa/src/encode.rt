//! One function per format of a 32-bit word (sections 2.2 and 2.3), which assembles a word from its fields. An immediate is passed as the
//! low bits of its two's complement: 12 bits in formats I and S, 13 in B, 21 in J; for a U immediate, the upper 20 bits.

ghost use Rattle.rv_isa.specs.Bits.{field as bits_of, sign_extended};
ghost use Rattle.rv_isa.specs.Words.{immediate_s, immediate_b, immediate_j};
ghost use Rattle.std.specs.Prelude.{◌≡◌, ◌+◌, ◌*◌, ◌-◌, ◌<◌, ◌≤◌, ◌^◌, ◌%◌};

use crate::bits::{concat_bits, field};

/// Returns the format R word with these fields.
#[inline]
#[tactic(auto, using(crate::proofs::Fields::field_self))]
pub fn r_word(funct7: u32, rs2: u32, rs1: u32, funct3: u32, rd: u32, opcode: u32) -> u32
    requires funct7 { funct7 < 128 }
    requires rs2 { rs2 < 32 }
    requires rs1 { rs1 < 32 }
    requires funct3 { funct3 < 8 }
    requires rd { rd < 32 }
    requires opcode { opcode < 128 }

    ensures funct7 { bits_of result 31 25 ≡ funct7 }
    ensures rs2 { bits_of result 24 20 ≡ rs2 }
    ensures rs1 { bits_of result 19 15 ≡ rs1 }
    ensures funct3 { bits_of result 14 12 ≡ funct3 }
    ensures rd { bits_of result 11 7 ≡ rd }
    ensures opcode { bits_of result 6 0 ≡ opcode }
{
    let sources = concat_bits(concat_bits(funct7, rs2, 5), rs1, 5);
    let rest = concat_bits(concat_bits(funct3, rd, 5), opcode, 7);
    concat_bits(sources, rest, 15)
}

/// Returns the format I word with these fields; `imm` is the 12 bits of the immediate.
#[inline]
#[tactic(auto, using(crate::proofs::Fields::field_self))]
pub fn i_word(imm: u32, rs1: u32, funct3: u32, rd: u32, opcode: u32) -> u32
    requires imm { imm < 4096 }
    requires rs1 { rs1 < 32 }
    requires funct3 { funct3 < 8 }
    requires rd { rd < 32 }
    requires opcode { opcode < 128 }

    ensures imm { bits_of result 31 20 ≡ imm }
    ensures rs1 { bits_of result 19 15 ≡ rs1 }
    ensures funct3 { bits_of result 14 12 ≡ funct3 }
    ensures rd { bits_of result 11 7 ≡ rd }
    ensures opcode { bits_of result 6 0 ≡ opcode }
{
    let with_rs1 = concat_bits(imm, rs1, 5);
    let with_funct3 = concat_bits(with_rs1, funct3, 3);
    let with_rd = concat_bits(with_funct3, rd, 5);
    concat_bits(with_rd, opcode, 7)
}

/// Returns the format S word with these fields; `imm` is the 12 bits of the immediate.
#[inline]
#[tactic(auto, using(crate::proofs::Fields::field_self))]
pub fn s_word(imm: u32, rs2: u32, rs1: u32, funct3: u32, opcode: u32) -> u32
    requires imm { imm < 4096 }
    requires rs2 { rs2 < 32 }
    requires rs1 { rs1 < 32 }
    requires funct3 { funct3 < 8 }
    requires opcode { opcode < 128 }

    ensures imm { immediate_s result ≡ sign_extended 12 imm }
    ensures rs2 { bits_of result 24 20 ≡ rs2 }
    ensures rs1 { bits_of result 19 15 ≡ rs1 }
    ensures funct3 { bits_of result 14 12 ≡ funct3 }
    ensures opcode { bits_of result 6 0 ≡ opcode }
{
    let upper = field(imm, 11, 5);
    let lower = field(imm, 4, 0);
    r_word(upper, rs2, rs1, funct3, lower, opcode)
}

/// Returns the format B word with these fields; `offset` is the 13 bits of an even offset in bytes.
#[inline]
#[tactic(auto, using(crate::proofs::Fields::field_self))]
pub fn b_word(offset: u32, rs2: u32, rs1: u32, funct3: u32, opcode: u32) -> u32
    requires offset { offset < 8192 }
    requires even { offset % 2 ≡ 0 }
    requires rs2 { rs2 < 32 }
    requires rs1 { rs1 < 32 }
    requires funct3 { funct3 < 8 }
    requires opcode { opcode < 128 }

    ensures imm { immediate_b result ≡ sign_extended 13 offset }
    ensures rs2 { bits_of result 24 20 ≡ rs2 }
    ensures rs1 { bits_of result 19 15 ≡ rs1 }
    ensures funct3 { bits_of result 14 12 ≡ funct3 }
    ensures opcode { bits_of result 6 0 ≡ opcode }
{
    let upper = concat_bits(field(offset, 12, 12), field(offset, 10, 5), 6);
    let lower = concat_bits(field(offset, 4, 1), field(offset, 11, 11), 1);
    r_word(upper, rs2, rs1, funct3, lower, opcode)
}

/// Returns the format U word with these fields; `upper` is bits 31 to 12 of the word.
#[inline]
#[tactic(auto, using(crate::proofs::Fields::field_self))]
pub fn u_word(upper: u32, rd: u32, opcode: u32) -> u32
    requires upper { upper < 2 ^ 20 }
    requires rd { rd < 32 }
    requires opcode { opcode < 128 }

    ensures upper { bits_of result 31 12 ≡ upper }
    ensures rd { bits_of result 11 7 ≡ rd }
    ensures opcode { bits_of result 6 0 ≡ opcode }
{
    let with_rd = concat_bits(upper, rd, 5);
    concat_bits(with_rd, opcode, 7)
}

/// Returns the format J word with these fields; `offset` is the 21 bits of an even offset in bytes.
#[inline]
#[tactic(auto, using(crate::proofs::Fields::field_self))]
pub fn j_word(offset: u32, rd: u32, opcode: u32) -> u32
    requires offset { offset < 2 ^ 21 }
    requires even { offset % 2 ≡ 0 }
    requires rd { rd < 32 }
    requires opcode { opcode < 128 }

    ensures imm { immediate_j result ≡ sign_extended 21 offset }
    ensures rd { bits_of result 11 7 ≡ rd }
    ensures opcode { bits_of result 6 0 ≡ opcode }
{
    let with_low = concat_bits(field(offset, 20, 20), field(offset, 10, 1), 10);
    let with_middle = concat_bits(with_low, field(offset, 11, 11), 1);
    let with_high = concat_bits(with_middle, field(offset, 19, 12), 8);
    u_word(with_high, rd, opcode)
}

/// Returns `value`, a two's complement number of `from_bits` bits, sign-extended to `to_bits` bits.
#[inline]
pub fn widen(value: u32, from_bits: u32, to_bits: u32) -> u32
    requires positive { 1 ≤ from_bits }
    requires order { from_bits ≤ to_bits }
    requires within { to_bits < 32 }
    requires small { value < 2 ^ from_bits }
    ensures same_value { sign_extended to_bits result ≡ sign_extended from_bits value }
    ensures below { result < 2 ^ to_bits }
    ensures parity { result % 2 ≡ value % 2 }
{
    if value < 1 << (from_bits - 1) {
        value
    } else {
        value + ((1 << to_bits) - (1 << from_bits))
    }
}
