//! The columns of an instruction's line.

ghost use Rattle.std.specs.Prelude.{◌≡◌, ◌++◌, OnOk, drop, option_map, replicate};
ghost use Rattle.rv_text.specs.Numbers.{word_digits};
ghost use Rattle.rv_trace.specs.Text.{code_text, code_columns, instruction_line, padded_text, symbol_or_empty, text_columns};

use crate::code::Code;
use rv_rows::SymbolAt;
use rv_text::{Span, push_spans, push_symbol, push_text, push_word_digits, tail_from};
use std::alloc::{AllocError, Global};

/// The separator of columns.
pub(crate) const GAP: &str = "  ";

/// The indentation of each line.
pub(crate) const MARGIN: &str = "     ";

/// The contents of an instruction's line.
#[derive(Clone, Copy)]
pub(crate) struct InstructionLine<'a> {
    pub symbol: Option<SymbolAt<'a>>,
    pub pc: u32,
    pub code: Option<Code>,
    /// The assembly text.
    pub text: &'a [u8],
    /// The text that says what the instruction wrote or how it ended the run.
    pub effect_text: &'a [u8],
}

/// Appends the line of an instruction: address, symbol, encoding, assembly text and effect, in columns.
#[tactic(auto, unfolding(crate::specs::Text::instruction_line))]
pub(crate) fn push_instruction_line(
    alloc: Global,
    bytes: &mut Vec<u8>,
    shown: &InstructionLine<'_>,
) -> Result<(), AllocError>
    ensures { OnOk result (bytes.new.items ≡ bytes.old.items
        ++ instruction_line (option_map (λ s. (s.name.now, s.offset)) shown.now.symbol)
        shown.now.pc shown.now.code shown.now.text.now shown.now.effect_text.now) }
{
    push_spans(
        bytes,
        &[Span::Text(MARGIN), Span::Word(shown.pc), Span::Text(GAP)],
    )?;
    push_symbol_column(alloc, bytes, shown.symbol)?;
    push_text(bytes, GAP)?;
    push_code_columns(alloc, bytes, shown.code, shown.text, shown.effect_text)?;
    push_text(bytes, "\n")
}

// Appends the column of the symbol, which is blank if there is no symbol.
fn push_symbol_column(
    alloc: Global,
    bytes: &mut Vec<u8>,
    symbol: Option<SymbolAt<'_>>,
) -> Result<(), AllocError>
    ensures { OnOk result (bytes.new.items ≡ bytes.old.items
        ++ padded_text 20 (symbol_or_empty (option_map (λ s. (s.name.now, s.offset)) symbol.entry))) }
{
    let mut text = Vec::new(alloc);
    if let Some(symbol) = symbol {
        push_symbol(alloc, &mut text, symbol)?;
    }
    push_padded_text(bytes, 20, &text)
}

// Appends the columns of the encoding, its assembly text and its effect. If there is no encoding, appends only the effect.
#[tactic(auto, unfolding(crate::specs::Text::code_columns))]
fn push_code_columns(
    alloc: Global,
    bytes: &mut Vec<u8>,
    code: Option<Code>,
    text: &[u8],
    effect_text: &[u8],
) -> Result<(), AllocError>
    ensures { OnOk result (bytes.new.items ≡ bytes.old.items ++ code_columns code text.now effect_text.now) }
{
    let Some(code) = code else {
        return bytes.extend_from_slice(effect_text);
    };
    push_code_column(alloc, bytes, code)?;
    push_text(bytes, GAP)?;
    push_text_columns(bytes, text, effect_text)
}

// Appends the columns of the assembly text and of the effect; the second is left out if the effect is empty. The last column is not padded.
fn push_text_columns(bytes: &mut Vec<u8>, text: &[u8], effect_text: &[u8]) -> Result<(), AllocError>
    ensures { OnOk result (bytes.new.items ≡ bytes.old.items ++ text_columns text.now effect_text.now) }
{
    if effect_text.is_empty() {
        return bytes.extend_from_slice(text);
    }
    push_padded_text(bytes, 24, text)?;
    push_text(bytes, GAP)?;
    bytes.extend_from_slice(effect_text)
}

// Appends the column of the encoding.
fn push_code_column(alloc: Global, bytes: &mut Vec<u8>, code: Code) -> Result<(), AllocError>
    ensures { OnOk result (bytes.new.items ≡ bytes.old.items ++ padded_text 8 (code_text code)) }
{
    let mut digits = Vec::new(alloc);
    push_code_digits(alloc, &mut digits, code)?;
    push_padded_text(bytes, 8, &digits)
}

// Appends the hexadecimal digits of an encoding: four for a halfword, eight for a word.
#[tactic(auto, unfolding(crate::specs::Text::code_text))]
fn push_code_digits(alloc: Global, bytes: &mut Vec<u8>, code: Code) -> Result<(), AllocError>
    ensures { OnOk result (bytes.new.items ≡ bytes.old.items ++ code_text code) }
{
    match code {
        Code::Half(half) => push_digits_after_first(alloc, bytes, u32::from(half), 4),
        Code::Word(word) => push_word_digits(bytes, word),
    }
}

/// Appends the hexadecimal digits of a word, except for the first `count` digits.
pub(crate) fn push_digits_after_first(
    alloc: Global,
    bytes: &mut Vec<u8>,
    word: u32,
    count: usize,
) -> Result<(), AllocError>
    ensures { OnOk result (bytes.new.items ≡ bytes.old.items ++ drop count (word_digits word)) }
{
    let mut digits = Vec::new(alloc);
    push_word_digits(&mut digits, word)?;
    bytes.extend_from_slice(tail_from(&digits, count))
}

/// Appends a text, followed by spaces up to `width` characters.
#[tactic(auto, unfolding(crate::specs::Text::padded_text))]
pub(crate) fn push_padded_text(
    bytes: &mut Vec<u8>,
    width: usize,
    text: &[u8],
) -> Result<(), AllocError>
    ensures { OnOk result (bytes.new.items ≡ bytes.old.items ++ padded_text width text.now) }
{
    bytes.extend_from_slice(text)?;
    push_spaces(bytes, width.saturating_sub(text.len()))
}

// Appends `count` spaces.
fn push_spaces(bytes: &mut Vec<u8>, count: usize) -> Result<(), AllocError>
    ensures { OnOk result (bytes.new.items ≡ bytes.old.items ++ replicate count 32) }
{
    for _ in 0..count {
        bytes.push(b' ')?;
    }
    Ok(())
}
