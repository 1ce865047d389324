//! The instructions of RV32IMC with Zifencei: their names and operands, and the decoder of words and halfwords.
//!
//! `is_long` returns whether a halfword begins a 32-bit instruction; `decode32` decodes a word, and `decode16` a halfword. The result is an
//! `Instr`, a name and operands, whatever the length. For every word and halfword and each instruction set (`Isa`), the result is proved to
//! be what the listings of the RISC-V Unprivileged ISA 20191213 (chapter 24 and section 16.8) specify, and no encoding matches two lines of
//! the listings. A smaller instruction set has fewer lines, and encodings of the missing lines do not decode.
#![tactic(auto)]

mod assemble;
mod bits;
mod decoder16;
mod decoder32;
mod encode;
mod formats;
mod half_immediates;
mod instruction;
mod isa;
mod opcodes;

pub use bits::{field, sign_extend};
pub use decoder16::{decode16, expand, is_long, no_halfword_has_two_rows};
pub use decoder32::{decode32, no_word_has_two_rows};
pub use instruction::{Instr, Op};
pub use isa::Isa;
