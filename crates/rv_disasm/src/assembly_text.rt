//! The assembly text of an instruction.
ghost use Rattle.std.specs.Prelude.{◌≡◌, ◌++◌, OnOk};
ghost use Rattle.rv_isa.specs.Words.{IsWellFormed};
ghost use Rattle.rv_disasm.specs.Assembly.{operands_text, assembly16, assembly32, form_text};
ghost use Rattle.rv_disasm.specs.Forms.{form_view};
ghost use Rattle.rv_disasm.specs.Operands.{operand_text};

use crate::form::{Fetched, Form, Operand, Operands};
use crate::illegal_text::push_unsimulated;
use crate::operand::{push_literal, push_operand};
use crate::rows16::form16;
use crate::rows32::form32;
use crate::unsimulated::{unsimulated16, unsimulated32};
use rv_isa::{Isa, decode16, decode32};
use std::alloc::{AllocError, Global};

/// Appends the assembly text of a 32-bit word fetched at `pc`, such as `lw a0, 8(sp)`. A word that is not an instruction of RV32IM with
/// Zifencei is described as in `csrrw (Zicsr: not simulated)`, or as `not an instruction` if no known listing has it.
#[tactic(auto, unfolding(crate::specs::Assembly::assembly32))]
pub fn push_assembly32(
    alloc: Global,
    bytes: &mut Vec<u8>,
    word: u32,
    pc: u32,
) -> Result<(), AllocError>
    ensures { OnOk result (bytes.new.items ≡ bytes.old.items ++ assembly32 word pc) }
{
    let code = word;
    match decode32(word, Isa::Imc) {
        Some(instr) => { push_form(alloc, bytes, form32(instr.op), Fetched { instr, code, pc }) }
        None => push_unsimulated(bytes, unsimulated32(word)),
    }
}

/// Appends the assembly text of a halfword fetched at `pc`, such as `c.lw a0, 8(a0)`. A halfword that is not an instruction of the C
/// extension of RV32I is described as in `c.flw (F: not simulated)`, or as `not an instruction` if no known listing has it.
#[tactic(auto, unfolding(crate::specs::Assembly::assembly16))]
pub fn push_assembly16(
    alloc: Global,
    bytes: &mut Vec<u8>,
    half: u16,
    pc: u32,
) -> Result<(), AllocError>
    ensures { OnOk result (bytes.new.items ≡ bytes.old.items ++ assembly16 half pc) }
{
    let code = u32::from(half);
    match (form16(code), decode16(half, Isa::Imc)) {
        (Some(form), Some(instr)) => { push_form(alloc, bytes, form, Fetched { instr, code, pc }) }
        _ => push_unsimulated(bytes, unsimulated16(code)),
    }
}

// Appends the text of a fetched instruction: the mnemonic of its form, then its operands.
#[tactic(auto, unfolding(crate::specs::Assembly::form_text))]
fn push_form(
    alloc: Global,
    bytes: &mut Vec<u8>,
    form: Form,
    fetched: Fetched,
) -> Result<(), AllocError>
    requires { IsWellFormed fetched.instr }
    ensures { OnOk result (bytes.new.items
        ≡ bytes.old.items ++ form_text (form_view form) fetched) }
{
    let Form(mnemonic, operands) = form;
    push_literal(bytes, mnemonic)?;
    push_operands(alloc, bytes, operands, fetched)
}

// Appends a space and the operands of a fetched instruction, separated by `, `. Appends nothing if there are no operands.
#[tactic(auto, unfolding(crate::specs::Assembly::operands_text))]
fn push_operands(
    alloc: Global,
    bytes: &mut Vec<u8>,
    operands: Operands,
    fetched: Fetched,
) -> Result<(), AllocError>
    requires { IsWellFormed fetched.instr }
    ensures { OnOk result (bytes.new.items ≡ bytes.old.items ++ operands_text operands fetched) }
{
    match operands {
        Operands::Absent => Ok(()),
        Operands::One(only) => push_separated_operand(alloc, bytes, " ", only, fetched),
        Operands::Two(first, last) => {
            push_separated_operand(alloc, bytes, " ", first, fetched)?;
            push_separated_operand(alloc, bytes, ", ", last, fetched)
        }
        Operands::Three(first, second, last) => {
            push_separated_operand(alloc, bytes, " ", first, fetched)?;
            push_separated_operand(alloc, bytes, ", ", second, fetched)?;
            push_separated_operand(alloc, bytes, ", ", last, fetched)
        }
    }
}

// Appends a separator, and then an operand of a fetched instruction.
fn push_separated_operand(
    alloc: Global,
    bytes: &mut Vec<u8>,
    separator: &str,
    operand: Operand,
    fetched: Fetched,
) -> Result<(), AllocError>
    requires { IsWellFormed fetched.instr }
    ensures { OnOk result (bytes.new.items
        ≡ bytes.old.items ++ (separator.now ++ operand_text operand fetched)) }
{
    push_literal(bytes, separator)?;
    push_operand(alloc, bytes, operand, fetched)
}
