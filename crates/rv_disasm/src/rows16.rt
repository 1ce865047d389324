//! The forms of 16-bit instructions: the mnemonic and the operands of each row of the listing.
ghost use Rattle.std.specs.Prelude.{◌≡◌, ◌≢◌, ◌↔◌, IsTrue, option_map};
ghost use Rattle.rv_isa.specs.Bits.{field as bits_of};
ghost use Rattle.rv_isa.specs.Halfwords.{immediate_ci};
ghost use Rattle.rv_disasm.specs.Forms.{form16, form_view};

use crate::form::{
    Form, IMMEDIATE, LOAD, Operand, Operands, REGISTER_IMMEDIATE, STORE, TWO_REGISTERS,
    UPPER_IMMEDIATE, ZERO_BRANCH,
};
use rv_isa::field;

/// Returns the form of a halfword, or `None` if it is not an instruction of RV32IMC.
#[tactic(auto, using(crate::proofs::HalfwordForms::by_quadrant))]
pub(crate) fn form16(half: u32) -> Option<Form>
    ensures { option_map form_view result ≡ form16 half }
{
    match field(half, 1, 0) {
        0 => quadrant0_form(half),
        1 => quadrant1_form(half),
        2 => quadrant2_form(half),
        _ => None, // begins a 32-bit instruction
    }
}

// Returns the form of a halfword of quadrant 0 (low bits 00), or `None` if it is not an instruction.
#[tactic(auto, using(crate::proofs::HalfwordForms::by_quadrant))]
fn quadrant0_form(half: u32) -> Option<Form>
    requires { bits_of half 1 0 ≡ 0 }
    ensures { option_map form_view result ≡ form16 half }
{
    match field(half, 15, 13) {
        0 if field(half, 12, 5) != 0 => Some(Form("c.addi4spn", IMMEDIATE)),
        2 => Some(Form("c.lw", LOAD)),
        6 => Some(Form("c.sw", STORE)),
        _ => None,
    }
}

// Returns the form of a halfword of quadrant 1 (low bits 01), or `None` if it is not an instruction.
#[tactic(auto, using(crate::proofs::HalfwordForms::by_quadrant))]
fn quadrant1_form(half: u32) -> Option<Form>
    requires { bits_of half 1 0 ≡ 1 }
    ensures { option_map form_view result ≡ form16 half }
{
    match field(half, 15, 13) {
        0 if field(half, 11, 7) != 0 => Some(Form("c.addi", REGISTER_IMMEDIATE)),
        0 if has_ci_immediate(half) => Some(Form("c.nop", Operands::One(Operand::Imm))),
        0 => Some(Form("c.nop", Operands::Absent)),
        1 => Some(Form("c.jal", Operands::One(Operand::Target))),
        2 => Some(Form("c.li", REGISTER_IMMEDIATE)),
        3 => lui_or_addi16sp_form(half),
        4 => misc_alu_form(half),
        5 => Some(Form("c.j", Operands::One(Operand::Target))),
        6 => Some(Form("c.beqz", ZERO_BRANCH)),
        _ => Some(Form("c.bnez", ZERO_BRANCH)),
    }
}

// Whether the immediate of a halfword of format CI is nonzero. C.ADDI16SP and C.LUI have their immediates in the same bits.
fn has_ci_immediate(half: u32) -> bool
    ensures { IsTrue result ↔ (immediate_ci half ≢ 0) }
{
    field(half, 12, 12) != 0 || field(half, 6, 2) != 0
}

// Returns the form of C.ADDI16SP or C.LUI, or `None` if the immediate is 0.
#[tactic(auto, using(crate::proofs::HalfwordForms::by_quadrant))]
fn lui_or_addi16sp_form(half: u32) -> Option<Form>
    requires quadrant { bits_of half 1 0 ≡ 1 }
    requires top { bits_of half 15 13 ≡ 3 }
    ensures { option_map form_view result ≡ form16 half }
{
    if !has_ci_immediate(half) {
        None
    } else if field(half, 11, 7) == 2 {
        Some(Form("c.addi16sp", REGISTER_IMMEDIATE))
    } else {
        Some(Form("c.lui", UPPER_IMMEDIATE))
    }
}

// Returns the form of a shift or an arithmetic instruction of quadrant 1 (bits 15 to 13 are 100), or `None` for a reserved encoding.
#[tactic(auto, using(crate::proofs::HalfwordForms::by_quadrant))]
fn misc_alu_form(half: u32) -> Option<Form>
    requires quadrant { bits_of half 1 0 ≡ 1 }
    requires top { bits_of half 15 13 ≡ 4 }
    ensures { option_map form_view result ≡ form16 half }
{
    match (field(half, 11, 10), field(half, 12, 12)) {
        (0, 0) => Some(Form("c.srli", REGISTER_IMMEDIATE)),
        (1, 0) => Some(Form("c.srai", REGISTER_IMMEDIATE)),
        (2, _) => Some(Form("c.andi", REGISTER_IMMEDIATE)),
        (3, 0) => Some(match field(half, 6, 5) {
            0 => Form("c.sub", TWO_REGISTERS),
            1 => Form("c.xor", TWO_REGISTERS),
            2 => Form("c.or", TWO_REGISTERS),
            _ => Form("c.and", TWO_REGISTERS),
        }),
        _ => None,
    }
}

// Returns the form of a halfword of quadrant 2 (low bits 10), or `None` if it is not an instruction.
#[tactic(auto, using(crate::proofs::HalfwordForms::by_quadrant))]
fn quadrant2_form(half: u32) -> Option<Form>
    requires { bits_of half 1 0 ≡ 2 }
    ensures { option_map form_view result ≡ form16 half }
{
    match field(half, 15, 13) {
        0 if field(half, 12, 12) == 0 => Some(Form("c.slli", REGISTER_IMMEDIATE)),
        2 if field(half, 11, 7) != 0 => Some(Form("c.lwsp", LOAD)),
        4 => cr_format_form(half),
        6 => Some(Form("c.swsp", STORE)),
        _ => None,
    }
}

// Returns the form of C.JR, C.MV, C.EBREAK, C.JALR or C.ADD, or `None` for the reserved encoding.
#[tactic(auto, using(crate::proofs::HalfwordForms::by_quadrant))]
fn cr_format_form(half: u32) -> Option<Form>
    requires quadrant { bits_of half 1 0 ≡ 2 }
    requires top { bits_of half 15 13 ≡ 4 }
    ensures { option_map form_view result ≡ form16 half }
{
    match (field(half, 12, 12), field(half, 11, 7), field(half, 6, 2)) {
        (0, 0, 0) => None,
        (0, _, 0) => Some(Form("c.jr", Operands::One(Operand::Rs1))),
        (0, _, _) => Some(Form("c.mv", TWO_REGISTERS)),
        (_, 0, 0) => Some(Form("c.ebreak", Operands::Absent)),
        (_, _, 0) => Some(Form("c.jalr", Operands::One(Operand::Rs1))),
        (_, _, _) => Some(Form("c.add", TWO_REGISTERS)),
    }
}
