//! The texts for an instruction: its assembly, what it wrote, and how it ended the run.

ghost use Rattle.std.specs.Prelude.{◌≡◌, ◌++◌, OnOk, option_map};
ghost use Rattle.rv_disasm.specs.Operands.{register_name};
ghost use Rattle.rv_trace.specs.Text.{assembly, assembly_or_empty, end_assembly, end_reason, is_illegal_end, illegal_text};
ghost use Rattle.rv_trace.specs.Text.{address_text, fault_value_text, loaded_text, register_text, stored_value_text, symbol_and_space};
ghost use Rattle.rv_trace.specs.Text.{write_effect_text};

use crate::code::Code;
use crate::columns::push_digits_after_first;
use crate::elf_file::ElfFile;
use crate::step::WriteEffect;
use rv_disasm::{push_assembly16, push_assembly32, push_illegal16, push_illegal32};
use rv_machine::{FaultKind, Width};
use rv_rows::{RowEnd, SymbolAt};
use rv_text::{Span, push_spans, push_symbol, push_text, push_word_digits};
use std::alloc::{AllocError, Global};

/// Appends the assembly text of an encoding at the address `pc`, which determines the targets of jumps and branches. Appends nothing if
/// there is no encoding.
pub(crate) fn push_assembly(
    alloc: Global,
    bytes: &mut Vec<u8>,
    pc: u32,
    code: Option<Code>,
) -> Result<(), AllocError>
    ensures { OnOk result (bytes.new.items ≡ bytes.old.items ++ assembly_or_empty pc code) }
{
    match code {
        Some(code) => push_assembly_of_code(alloc, bytes, pc, code),
        None => Ok(()),
    }
}

// Appends the assembly text of an encoding at the address `pc`.
#[tactic(auto, unfolding(crate::specs::Text::assembly))]
fn push_assembly_of_code(
    alloc: Global,
    bytes: &mut Vec<u8>,
    pc: u32,
    code: Code,
) -> Result<(), AllocError>
    ensures { OnOk result (bytes.new.items ≡ bytes.old.items ++ assembly pc code) }
{
    match code {
        Code::Half(half) => push_assembly16(alloc, bytes, half, pc),
        Code::Word(word) => push_assembly32(alloc, bytes, word, pc),
    }
}

/// Appends the text that says what an instruction wrote; nothing if it wrote nothing.
#[tactic(auto, unfolding(crate::specs::Text::write_effect_text))]
pub(crate) fn push_write_effect(
    alloc: Global,
    bytes: &mut Vec<u8>,
    elf: &ElfFile<'_>,
    write: WriteEffect,
) -> Result<(), AllocError>
    ensures { OnOk result (bytes.new.items ≡ bytes.old.items
        ++ write_effect_text elf.now.image.now elf.now.bytes.now write) }
{
    match write {
        WriteEffect::Nothing => Ok(()),
        WriteEffect::Register(number, value) => push_register(bytes, number, value),
        WriteEffect::Loaded(number, value, from) => {
            push_loaded_text(bytes, number, value)?;
            push_text(bytes, "from ")?;
            push_address(alloc, bytes, elf, from)
        }
        WriteEffect::Stored(address, width, value) => {
            push_address(alloc, bytes, elf, address)?;
            push_text(bytes, " <- ")?;
            push_stored_value(alloc, bytes, width, value)
        }
    }
}

// Appends `NAME <- VALUE` for a register and its new value.
fn push_register(bytes: &mut Vec<u8>, number: u8, value: u32) -> Result<(), AllocError>
    ensures { OnOk result (bytes.new.items ≡ bytes.old.items ++ register_text number value) }
{
    push_spans(
        bytes,
        &[
            Span::Text(register_name_or_empty(number)),
            Span::Text(" <- "),
            Span::Word(value),
        ],
    )
}

// Appends `NAME <- VALUE ` for a register and its loaded value; nothing for a load into x0.
fn push_loaded_text(bytes: &mut Vec<u8>, number: u8, value: u32) -> Result<(), AllocError>
    ensures { OnOk result (bytes.new.items ≡ bytes.old.items ++ loaded_text number value) }
{
    if number == 0 {
        return Ok(());
    }
    push_register(bytes, number, value)?;
    push_text(bytes, " ")
}

// Appends the address of a load or a store, preceded by its symbol if it has one.
fn push_address(
    alloc: Global,
    bytes: &mut Vec<u8>,
    elf: &ElfFile<'_>,
    address: u32,
) -> Result<(), AllocError>
    ensures { OnOk result (bytes.new.items ≡ bytes.old.items
        ++ address_text elf.now.image.now elf.now.bytes.now address) }
{
    push_symbol_and_space(alloc, bytes, elf.symbol_of_value(address))?;
    push_word_digits(bytes, address)
}

// Appends the name of a symbol and the offset from it, followed by a space; nothing if there is no symbol.
fn push_symbol_and_space(
    alloc: Global,
    bytes: &mut Vec<u8>,
    symbol_or_none: Option<SymbolAt<'_>>,
) -> Result<(), AllocError>
    ensures { OnOk result (bytes.new.items ≡ bytes.old.items
        ++ symbol_and_space (option_map (λ s. (s.name.now, s.offset)) symbol_or_none.entry)) }
{
    let Some(symbol) = symbol_or_none else {
        return Ok(());
    };
    push_symbol(alloc, bytes, symbol)?;
    push_text(bytes, " ")
}

/// Returns the name of the register `number`; empty if there is no such register.
pub(crate) fn register_name_or_empty(number: u8) -> &'static str
    ensures { result.now ≡ register_name number }
{
    if number < 32 {
        rv_disasm::register_name(number)
    } else {
        ""
    }
}

// Appends a stored value as hexadecimal digits, two for each byte.
#[tactic(auto, unfolding(crate::specs::Text::stored_value_text))]
fn push_stored_value(
    alloc: Global,
    bytes: &mut Vec<u8>,
    width: Width,
    value: u32,
) -> Result<(), AllocError>
    ensures { OnOk result (bytes.new.items ≡ bytes.old.items ++ stored_value_text width value) }
{
    match width {
        Width::Byte => push_digits_after_first(alloc, bytes, value, 6),
        Width::Half => push_digits_after_first(alloc, bytes, value, 4),
        Width::Word => push_word_digits(bytes, value),
    }
}

/// Appends the assembly text of the encoding at the end of a run. If the run ended because the encoding is not an instruction of the job's
/// set, appends a description of the encoding instead. Appends nothing if there is no encoding.
pub(crate) fn push_end_assembly(
    alloc: Global,
    bytes: &mut Vec<u8>,
    pc: u32,
    code: Option<Code>,
    end: RowEnd,
) -> Result<(), AllocError>
    ensures { OnOk result (bytes.new.items ≡ bytes.old.items ++ end_assembly end pc code) }
{
    match code {
        Some(code) if is_illegal_end(end) => push_illegal(bytes, code),
        Some(code) => push_assembly_of_code(alloc, bytes, pc, code),
        None => Ok(()),
    }
}

// Appends the description of an encoding that is not an instruction of the job's set.
#[tactic(auto, unfolding(crate::specs::Text::illegal_text))]
fn push_illegal(bytes: &mut Vec<u8>, code: Code) -> Result<(), AllocError>
    ensures { OnOk result (bytes.new.items ≡ bytes.old.items ++ illegal_text code) }
{
    match code {
        Code::Half(half) => push_illegal16(bytes, half),
        Code::Word(word) => push_illegal32(bytes, word),
    }
}

// Whether a run ended with an illegal instruction: the job's instruction set has no instruction for the encoding.
fn is_illegal_end(end: RowEnd) -> bool
    ensures { result ≡ is_illegal_end end }
{
    match end {
        RowEnd::Fault(FaultKind::Illegal, _, _) => true,
        _ => false,
    }
}

/// Appends the text that says how a run ended.
#[tactic(auto, unfolding(crate::specs::Text::end_reason))]
pub(crate) fn push_end_reason(bytes: &mut Vec<u8>, end: RowEnd) -> Result<(), AllocError>
    ensures { OnOk result (bytes.new.items ≡ bytes.old.items ++ end_reason end) }
{
    match end {
        RowEnd::Exit(code) => push_spans(bytes, &[Span::Text("exit "), Span::ExitCode(code)]),
        RowEnd::Fault(kind, _, value) => {
            push_text(bytes, kind.name())?;
            push_value_of_fault(bytes, kind, value)
        }
        RowEnd::Budget => push_text(bytes, "not run: the budget is used up"),
        RowEnd::Refused(why) => push_text(bytes, why.name()),
    }
}

// Appends the value of a fault of this kind, with the words before it: ` at ` before an address, `, value ` before another value. Illegal
// instructions and breakpoints have no such text.
#[tactic(auto, unfolding(crate::specs::Text::fault_value_text))]
fn push_value_of_fault(bytes: &mut Vec<u8>, kind: FaultKind, value: u32) -> Result<(), AllocError>
    ensures { OnOk result (bytes.new.items ≡ bytes.old.items ++ fault_value_text kind value) }
{
    let before = match kind {
        FaultKind::Illegal | FaultKind::Breakpoint => return Ok(()),
        FaultKind::UnknownCall | FaultKind::ConsoleFull => ", value ",
        _ => " at ",
    };
    push_spans(bytes, &[Span::Text(before), Span::Word(value)])
}
