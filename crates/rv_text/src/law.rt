//! Laws on shown text and on text in XML, with no code to run.

ghost use Rattle.std.specs.Prelude.{ℕ, List};
ghost use Rattle.hex.specs.Hex.{IsBytes};
ghost use Rattle.rv_text.specs.declared.xml.XmlContext.{XmlContext};
ghost use Rattle.rv_text.specs.Printable.{IsUtf8WithoutControls, printable_name, printable_text, printable_value};
ghost use Rattle.rv_text.specs.Xml.{IsXmlText, xml_text};

/// Proves that `xml_text` of any bytes has only characters of XML 1.0 and no markup: a character that needs escaping is written as its
/// entity or character reference, and every other character is written in UTF-8.
pub fn escaped_bytes_are_xml()
    ensures { (within : XmlContext) (bytes : List ℕ) → IsBytes bytes
        → IsXmlText within (xml_text within bytes) }
{}

/// Proves that the text shown for any bytes is UTF-8 without control and format characters.
pub fn printable_text_is_utf8_without_controls()
    ensures text { (bytes : List ℕ) → IsBytes bytes → IsUtf8WithoutControls (printable_text bytes) }
    ensures value { (bytes : List ℕ) → IsBytes bytes
        → IsUtf8WithoutControls (printable_value bytes) }
    ensures name { (bytes : List ℕ) → IsBytes bytes
        → IsUtf8WithoutControls (printable_name bytes) }
{}
