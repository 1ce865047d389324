//! The immediates of the 16-bit instructions, before sign extension.

ghost use Rattle.rv_isa.specs.Bits.{bit, field as bits_of};
ghost use Rattle.rv_isa.specs.Halfwords as row;
ghost use Rattle.std.specs.Prelude.{◌≡◌, ◌+◌, ◌*◌, ◌-◌, ◌<◌, ◌≤◌, ◌^◌, ◌%◌};

use crate::bits::{concat_bits, field};

/// Returns the immediate of C.ADDI, C.LI, C.ANDI and C.LUI as a number of 6 bits, before sign extension. For C.LUI it is in units of 4096.
#[inline]
pub fn imm_ci(half: u32) -> u32
    ensures value { result ≡ row.immediate_ci half }
    ensures below { result < 64 }
{
    concat_bits(field(half, 12, 12), field(half, 6, 2), 5)
}

/// Returns the immediate of C.ADDI4SPN, a multiple of 4 below 1024.
#[inline]
pub fn imm_ciw(half: u32) -> u32
    ensures value { result ≡ row.immediate_ciw half }
    ensures below { result < 1024 }
{
    let upper = concat_bits(field(half, 10, 7), field(half, 12, 11), 2);
    let words = concat_bits(
        concat_bits(upper, field(half, 5, 5), 1),
        field(half, 6, 6),
        1,
    );
    words << 2
}

/// Returns the offset of C.LW and C.SW in bytes, a multiple of 4 below 128.
#[inline]
pub fn imm_cl(half: u32) -> u32
    ensures value { result ≡ row.immediate_cl half }
    ensures below { result < 128 }
{
    let upper = concat_bits(field(half, 5, 5), field(half, 12, 10), 3);
    concat_bits(upper, field(half, 6, 6), 1) << 2
}

/// Returns the immediate of C.ADDI16SP as a number of 10 bits, before sign extension.
#[inline]
pub fn imm_addi16sp(half: u32) -> u32
    ensures value { result ≡ row.immediate_addi16sp half }
    ensures below { result < 1024 }
{
    let upper = concat_bits(field(half, 12, 12), field(half, 4, 3), 2);
    let middle = concat_bits(
        concat_bits(upper, field(half, 5, 5), 1),
        field(half, 2, 2),
        1,
    );
    concat_bits(middle, field(half, 6, 6), 1) << 4
}

/// Returns the offset of C.J and C.JAL as a number of 12 bits, before sign extension.
#[inline]
pub fn imm_cj(half: u32) -> u32
    ensures value { result ≡ row.immediate_cj half }
    ensures below { result < 4096 }
    ensures even { result % 2 ≡ 0 }
{
    let first = concat_bits(field(half, 12, 12), field(half, 8, 8), 1);
    let top = concat_bits(first, field(half, 10, 9), 2);
    let upper = concat_bits(concat_bits(top, field(half, 6, 6), 1), field(half, 7, 7), 1);
    let middle = concat_bits(
        concat_bits(upper, field(half, 2, 2), 1),
        field(half, 11, 11),
        1,
    );
    concat_bits(middle, field(half, 5, 3), 3) << 1
}

/// Returns the offset of C.BEQZ and C.BNEZ as a number of 9 bits, before sign extension.
#[inline]
pub fn imm_cb(half: u32) -> u32
    ensures value { result ≡ row.immediate_cb half }
    ensures below { result < 512 }
    ensures even { result % 2 ≡ 0 }
{
    let first = concat_bits(field(half, 12, 12), field(half, 6, 5), 2);
    let top = concat_bits(first, field(half, 2, 2), 1);
    concat_bits(
        concat_bits(top, field(half, 11, 10), 2),
        field(half, 4, 3),
        2,
    ) << 1
}

/// Returns the offset of C.LWSP in bytes, a multiple of 4 below 256.
#[inline]
pub fn imm_lwsp(half: u32) -> u32
    ensures value { result ≡ row.immediate_lwsp half }
    ensures below { result < 256 }
{
    let upper = concat_bits(field(half, 3, 2), field(half, 12, 12), 1);
    concat_bits(upper, field(half, 6, 4), 3) << 2
}

/// Returns the offset of C.SWSP in bytes, a multiple of 4 below 256.
#[inline]
pub fn imm_css(half: u32) -> u32
    ensures value { result ≡ row.immediate_css half }
    ensures below { result < 256 }
{
    concat_bits(field(half, 8, 7), field(half, 12, 9), 4) << 2
}
