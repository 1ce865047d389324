//! Texts with some ranges replaced.

ghost use Rattle.std.specs.Prelude.{◌≡◌, IfOk, drop};
ghost use Rattle.rv_accept.specs.Edits.{edited_rest, text_range};

use rv_rows::Bytes;
use std::alloc::{AllocError, Global};

/// A replacement of the bytes of a text from the offset `begin` up to, but not including, `end`.
#[derive(Drop)]
pub struct Edit {
    pub begin: usize,
    pub end: usize,
    pub text: Bytes,
}

/// Returns the text with the range of each edit replaced by the edit's text. The edits must be in text order.
pub fn edited_text(alloc: Global, text: &[u8], edits: &[Edit]) -> Result<Vec<u8>, AllocError>
    ensures { IfOk result (λ edited. edited.items ≡ edited_rest 0 text.now edits.now) }
{
    let mut edited = Vec::new(alloc);
    let mut from = 0;
    for edit in edits {
        edited.extend_from_slice(text_range(text, from, edit.begin))?;
        edited.extend_from_slice(edit.text.as_slice())?;
        from = edit.end;
    }
    edited.extend_from_slice(text_from(text, from))?;
    Ok(edited)
}

// Returns the bytes of a text from the offset `from` up to, but not including, `to`.
fn text_range(text: &[u8], from: usize, to: usize) -> &[u8]
    ensures { result.now ≡ text_range from to text.now }
{
    let rest = text_from(text, from);
    &rest[..to.saturating_sub(from).min(rest.len())]
}

// Returns the bytes of a text after its first `from` bytes.
fn text_from(text: &[u8], from: usize) -> &[u8]
    ensures { result.now ≡ drop from text.now }
{
    &text[from.min(text.len())..]
}
