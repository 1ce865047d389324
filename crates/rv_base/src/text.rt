//! Texts and bytes that contracts see as lists.

ghost use Rattle.std.specs.Prelude.{◌≡◌, IfOk, string_bytes};

use crate::sequence::Sequence;
use std::alloc::{AllocError, Global};
use std::marker::Model;

/// A string, such as a name or a path, seen by contracts as the list of its bytes.
#[derive(Debug, Drop)]
pub struct Text {
    text: String,
}

impl Model for Text {
    ghost use Rattle.std.specs.Prelude.{ℕ, List, string_bytes};

    ghost Value = { List ℕ };

    ghost view = { λ t. string_bytes t.text };
}

impl Text {
    /// Wraps a string. Does not allocate.
    pub fn new(text: String) -> Text
        ensures { result ≡ string_bytes text }
    {
        Text { text }
    }

    /// Returns the text as a string slice.
    pub fn as_str(&self) -> &str
        ensures { result.now ≡ self.now }
    {
        self.text.as_str()
    }

    /// Returns the underlying string. Does not allocate.
    pub fn into_string(self) -> String
        ensures { string_bytes result ≡ self }
    {
        self.text
    }

    /// Returns a copy of a text.
    pub fn copy(alloc: Global, text: &str) -> Result<Text, AllocError>
        ensures { IfOk result (λ t. t ≡ text.now) }
    {
        Ok(Text::new(String::from_str(alloc, text)?))
    }
}

/// Bytes, seen by contracts as a list.
pub type Bytes = Sequence<u8>;
