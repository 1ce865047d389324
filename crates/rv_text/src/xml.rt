//! Text in XML 1.0.

ghost use Rattle.std.specs.Prelude.{◌≡◌, ◌<◌, ◌≤◌, ◌++◌, IfOk, OnOk, length, option_map, string_bytes};
ghost use Rattle.rv_text.specs.Xml.{after_first_xml_text, character_text, escape, xml_text, first_xml_character, first_xml_bytes};
ghost use Rattle.rv_text.specs.Xml.{first_xml_text, is_xml_character, character_reference, allowed_xml_character};

use crate::slices::{char_len, tail_from};
use std::alloc::{AllocError, Global};

/// Where a text is written in a document.
#[derive(Clone, Copy)]
pub enum XmlContext {
    /// Between the quotes of an attribute, where an XML parser replaces tabs and line feeds by spaces.
    Attribute,
    /// Between the tags of an element.
    Element,
}

/// Appends the text in XML for these bytes: XML characters are unchanged or replaced by their references, and every other byte is replaced
/// by `\xNN`.
pub fn push_xml_text(
    alloc: Global,
    text: &mut String,
    context: XmlContext,
    bytes: &[u8],
) -> Result<(), AllocError>
    ensures { OnOk result (string_bytes text.new
        ≡ string_bytes text.old ++ xml_text context bytes.now) }
{
    let mut rest = bytes;
    while !rest.is_empty() {
        rest = push_first_xml_text(alloc, text, context, rest)?;
    }
    Ok(())
}

// Appends the text in XML for the first XML character of the bytes, or for their first byte if they do not begin with an XML character, and
// returns the remaining bytes.
fn push_first_xml_text<'a>(
    alloc: Global,
    text: &mut String,
    context: XmlContext,
    bytes: &'a [u8],
) -> Result<&'a [u8], AllocError>
    requires { 0 < length bytes.now }
    ensures text { OnOk result (string_bytes text.new
        ≡ string_bytes text.old ++ first_xml_text context bytes.now) }
    ensures rest { IfOk result (λ rest. rest.now ≡ after_first_xml_text bytes.now) }
    ensures shorter { IfOk result (λ rest. length rest.now < length bytes.now) }
{
    match first_xml_character(bytes) {
        Some(character) => {
            push_character(text, context, character)?;
            Ok(tail_from(bytes, character.len_utf8()))
        }
        None => {
            push_escape(alloc, text, bytes[0])?;
            Ok(tail_from(bytes, 1))
        }
    }
}

// Returns the XML character at the beginning of the bytes, or `None` if they do not begin with an XML character.
fn first_xml_character(bytes: &[u8]) -> Option<char>
    ensures { result ≡ first_xml_character bytes.now }
{
    match str::from_utf8(first_xml_bytes(bytes)) {
        Ok(front) => allowed_xml_character(front.chars().next()),
        Err(_) => None,
    }
}

// Returns the character if XML 1.0 allows it; `None` if it does not, or no character is given.
fn allowed_xml_character(character: Option<char>) -> Option<char>
    ensures { result ≡ allowed_xml_character character }
{
    match character {
        Some(character) if is_xml_character(character) => Some(character),
        _ => None,
    }
}

// Returns the bytes of the first UTF-8 character, whose length is taken from the first byte; all bytes if there are fewer.
fn first_xml_bytes(bytes: &[u8]) -> &[u8]
    ensures { result.now ≡ first_xml_bytes bytes.now }
{
    let Some(first) = bytes.first() else {
        return bytes;
    };
    let len = char_len(*first);
    if len <= bytes.len() {
        &bytes[..len]
    } else {
        bytes
    }
}

// Whether XML 1.0 allows a character: tab, line feed, carriage return, and all characters from U+0020 except the surrogates, U+FFFE and
// U+FFFF.
fn is_xml_character(character: char) -> bool
    ensures { result ≡ is_xml_character character }
{
    matches!(
        character,
        '\t' | '\n' | '\r' | ' '..='\u{D7FF}' | '\u{E000}'..='\u{FFFD}' | '\u{10000}'..='\u{10FFFF}'
    )
}

// Appends the reference of a character if it has one, and otherwise the character in UTF-8.
fn push_character(text: &mut String, context: XmlContext, character: char) -> Result<(), AllocError>
    ensures { OnOk result (string_bytes text.new
        ≡ string_bytes text.old ++ character_text context character) }
{
    match character_reference(context, character) {
        Some(reference) => text.push_str(reference),
        None => text.push(character),
    }
}

// Returns the reference of a character that is markup, or that an XML parser would change; `None` for any other character.
fn character_reference(context: XmlContext, character: char) -> Option<&'static str>
    ensures { option_map (λ text. text.now) result ≡ character_reference context character }
{
    match (context, character) {
        (_, '<') => Some("&lt;"),
        (_, '>') => Some("&gt;"),
        (_, '&') => Some("&amp;"),
        (_, '"') => Some("&quot;"),
        (_, '\r') => Some("&#13;"),
        (XmlContext::Attribute, '\t') => Some("&#9;"),
        (XmlContext::Attribute, '\n') => Some("&#10;"),
        _ => None,
    }
}

// Appends the escape of a byte: `\x` and two lower-case hexadecimal digits.
fn push_escape(alloc: Global, text: &mut String, byte: u8) -> Result<(), AllocError>
    ensures { OnOk result (string_bytes text.new ≡ string_bytes text.old ++ escape byte) }
{
    let digits = hex::encode(alloc, [byte].as_slice())?;
    text.push_str("\\x")?;
    text.push_str(digits.as_str())
}
