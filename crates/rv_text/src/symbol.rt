//! A code location, as the name of a symbol and the offset from it.

ghost use Rattle.std.specs.Prelude.{◌≡◌, ◌++◌, OnOk, option_map};
ghost use Rattle.rv_text.specs.Symbol.{symbol_in_brackets, symbol_text};

use crate::spans::{Span, push_spans};
use rv_elf::SymbolAt;
use std::alloc::{AllocError, Global};

/// Appends ` (NAME+0xOFFSET)` for a symbol and the offset from it; nothing if there is no symbol.
pub fn push_symbol_in_brackets(
    alloc: Global,
    bytes: &mut Vec<u8>,
    symbol_at: Option<SymbolAt<'_>>,
) -> Result<(), AllocError>
    ensures { OnOk result (bytes.new.items ≡ bytes.old.items
        ++ symbol_in_brackets (option_map (λ s. (s.name.now, s.offset)) symbol_at.entry)) }
{
    match symbol_at {
        Some(symbol) => push_symbol_between(alloc, bytes, " (", symbol, ")"),
        None => Ok(()),
    }
}

/// Appends a symbol and the offset from it, as in `main+0x1c`; the name is in the form of
/// [`push_printable_name`](crate::printable::push_printable_name).
pub fn push_symbol(
    alloc: Global,
    bytes: &mut Vec<u8>,
    symbol: SymbolAt<'_>,
) -> Result<(), AllocError>
    ensures { OnOk result (bytes.new.items ≡ bytes.old.items
        ++ symbol_text (symbol.entry.name.now, symbol.entry.offset)) }
{
    push_symbol_between(alloc, bytes, "", symbol, "")
}

// Appends the text `before`, a symbol and the offset from it as `NAME+0xOFFSET`, and the text `after`.
#[tactic(auto, unfolding(crate::specs::Symbol::symbol_text))]
fn push_symbol_between<'a>(
    alloc: Global,
    bytes: &mut Vec<u8>,
    before: &'a str,
    symbol: SymbolAt<'a>,
    after: &'a str,
) -> Result<(), AllocError>
    ensures { OnOk result (bytes.new.items ≡ bytes.old.items
        ++ (before.now ++ symbol_text (symbol.entry.name.now, symbol.entry.offset) ++ after.now)) }
{
    let offset = symbol.offset;
    let digits = format!(in alloc; "{offset:x}")?;
    push_spans(
        bytes,
        &[
            Span::Text(before),
            Span::Name(symbol.name),
            Span::Text("+0x"),
            Span::Text(digits.as_str()),
            Span::Text(after),
        ],
    )
}
