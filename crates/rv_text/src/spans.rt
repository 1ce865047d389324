//! Lines built from spans.

ghost use Rattle.std.specs.Prelude.{◌≡◌, ◌++◌, IfOk, OnOk};
ghost use Rattle.std.specs.List.{flat_map};
ghost use Rattle.rv_text.specs.Spans.{span_text};

use crate::printable::{push_printable_name, push_printable_text, push_printable_value};
use crate::text_and_numbers::{
    push_count, push_exit_code, push_number, push_text, push_word_digits,
};
use std::alloc::{AllocError, Global};

/// A part of a line: a value, and how it is shown.
#[derive(Clone, Copy)]
pub enum Span<'a> {
    /// Text, unchanged.
    Text(&'a str),
    /// A number in decimal.
    Number(u64),
    /// A number and a noun, as [`push_count`](crate::text_and_numbers::push_count) writes it.
    Count(u64, &'a str),
    /// An exit code, as [`push_exit_code`](crate::text_and_numbers::push_exit_code) writes it.
    ExitCode(u32),
    /// A word as eight lower-case hexadecimal digits.
    Word(u32),
    /// Text from a file, as [`push_printable_text`] shows it.
    Printable(&'a [u8]),
    /// A value, as [`push_printable_value`] shows it.
    Value(&'a [u8]),
    /// The name of a symbol, as [`push_printable_name`] shows it.
    Name(&'a [u8]),
}

/// Appends spans one after another.
pub fn push_spans(bytes: &mut Vec<u8>, spans: &[Span<'_>]) -> Result<(), AllocError>
    ensures { OnOk result (bytes.new.items ≡ bytes.old.items ++ flat_map span_text spans.now) }
{
    for span in spans {
        push_span(bytes, *span)?;
    }
    Ok(())
}

/// Returns the text of spans, one after another.
pub fn text_of_spans(alloc: Global, spans: &[Span<'_>]) -> Result<Vec<u8>, AllocError>
    ensures { IfOk result (λ text. text.items ≡ flat_map span_text spans.now) }
{
    let mut text = Vec::new(alloc);
    push_spans(&mut text, spans)?;
    Ok(text)
}

// Appends the text of a span.
fn push_span(bytes: &mut Vec<u8>, span: Span<'_>) -> Result<(), AllocError>
    ensures { OnOk result (bytes.new.items ≡ bytes.old.items ++ span_text span.entry) }
{
    match span {
        Span::Text(text) => push_text(bytes, text),
        Span::Number(number) => push_number(bytes, number),
        Span::Count(number, noun) => push_count(bytes, number, noun),
        Span::ExitCode(code) => push_exit_code(bytes, code),
        Span::Word(word) => push_word_digits(bytes, word),
        Span::Printable(text) => push_printable_text(bytes, text),
        Span::Value(value) => push_printable_value(bytes, value),
        Span::Name(name) => push_printable_name(bytes, name),
    }
}
