//! The description of an encoding that is not an instruction.
ghost use Rattle.std.specs.Prelude.{◌≡◌, ◌++◌, OnOk, option_map};
ghost use Rattle.rv_disasm.specs.Illegal.{illegal_text16, illegal_text32, missing_extension_text, name_and_reason, unsimulated_text};
ghost use Rattle.rv_disasm.specs.Unsimulated.{row_view};

use crate::form::Form;
use crate::operand::push_literal;
use crate::rows16::form16;
use crate::rows32::form32;
use crate::unsimulated::{Row, unsimulated16, unsimulated32};
use rv_isa::{Isa, decode32};
use std::alloc::AllocError;

/// Appends the description of a 32-bit word that is not in a job's instruction set: its mnemonic and its extension, as in
/// `mul (M: not in this job's "isa")` or `csrrw (Zicsr: not simulated)`, or `not an instruction` if no known listing has it.
#[tactic(auto, unfolding(crate::specs::Illegal::illegal_text32))]
pub fn push_illegal32(bytes: &mut Vec<u8>, word: u32) -> Result<(), AllocError>
    ensures { OnOk result (bytes.new.items ≡ bytes.old.items ++ illegal_text32 word) }
{
    match decode32(word, Isa::Imc) {
        Some(instr) => push_missing_extension(bytes, form32(instr.op), "M"),
        None => push_unsimulated(bytes, unsimulated32(word)),
    }
}

/// Appends the description of a halfword that is not in a job's instruction set, as in `c.li (C: not in this job's "isa")` or
/// `c.flw (F: not simulated)`, or `not an instruction` if no known listing has it.
#[tactic(auto, unfolding(crate::specs::Illegal::illegal_text16))]
pub fn push_illegal16(bytes: &mut Vec<u8>, half: u16) -> Result<(), AllocError>
    ensures { OnOk result (bytes.new.items ≡ bytes.old.items ++ illegal_text16 half) }
{
    let half = u32::from(half);
    match form16(half) {
        Some(form) => push_missing_extension(bytes, form, "C"),
        None => push_unsimulated(bytes, unsimulated16(half)),
    }
}

// Appends `MNEMONIC (EXTENSION: not in this job's "isa")`: the description of an instruction that a job's instruction set lacks, given its
// form and its extension.
fn push_missing_extension(
    bytes: &mut Vec<u8>,
    form: Form,
    extension: &str,
) -> Result<(), AllocError>
    ensures { OnOk result (bytes.new.items
        ≡ bytes.old.items ++ missing_extension_text form.0.now extension.now) }
{
    let Form(mnemonic, _) = form;
    push_name_and_reason(bytes, mnemonic, extension, "not in this job's \"isa\"")
}

/// Appends the description of an encoding that is not an instruction of RV32IMC, given its row in the listings of instructions that are not
/// simulated: `MNEMONIC (EXTENSION: not simulated)`, or `not an instruction` if it has no row.
pub(crate) fn push_unsimulated(bytes: &mut Vec<u8>, row: Option<Row>) -> Result<(), AllocError>
    ensures { OnOk result (bytes.new.items
        ≡ bytes.old.items ++ unsimulated_text (option_map row_view row)) }
{
    match row {
        Some(Row(_, _, mnemonic, extension)) => {
            push_name_and_reason(bytes, mnemonic, extension, "not simulated")
        }
        None => push_literal(bytes, "not an instruction"),
    }
}

// Appends a mnemonic, followed in parentheses by its extension and the reason why it is not an instruction here.
#[tactic(auto, unfolding(crate::specs::Illegal::name_and_reason))]
fn push_name_and_reason(
    bytes: &mut Vec<u8>,
    mnemonic: &str,
    extension: &str,
    reason: &str,
) -> Result<(), AllocError>
    ensures { OnOk result (bytes.new.items
        ≡ bytes.old.items ++ name_and_reason mnemonic.now extension.now reason.now) }
{
    push_literal(bytes, mnemonic)?;
    push_literal(bytes, " (")?;
    push_literal(bytes, extension)?;
    push_literal(bytes, ": ")?;
    push_literal(bytes, reason)?;
    push_literal(bytes, ")")
}
