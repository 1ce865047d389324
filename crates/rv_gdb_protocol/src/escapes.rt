//! Escapes: how bytes with a special meaning are written in a packet.

ghost use Rattle.std.specs.Prelude.{◌≡◌, ◌++◌, IfOk, OnOk, false};
ghost use Rattle.rv_gdb_protocol.specs.Escapes.{data_byte, data_of, escaped, escaped_byte, is_special, is_escape, has_complete_escapes};

use std::alloc::AllocError;

/// The byte before an escaped one.
const ESCAPE: u8 = b'}';

/// The bit that is inverted in an escaped byte.
const INVERTED_BIT: u8 = 0x20;

/// Appends a body with escapes, so that no byte with a special meaning is left in it.
pub fn push_escaped(out: &mut Vec<u8>, body: &[u8]) -> Result<(), AllocError>
    ensures { OnOk result (out.new.items ≡ out.old.items ++ escaped body.now) }
{
    for byte in body {
        push_escaped_byte(out, *byte)?;
    }
    Ok(())
}

// Appends a byte, with an escape if it has a special meaning in a packet.
fn push_escaped_byte(out: &mut Vec<u8>, byte: u8) -> Result<(), AllocError>
    ensures { OnOk result (out.new.items ≡ out.old.items ++ escaped_byte byte) }
{
    if is_special(byte) {
        out.push(ESCAPE)?;
        out.push(byte ^ INVERTED_BIT)?;
    } else {
        out.push(byte)?;
    }
    Ok(())
}

// Whether a byte has a special meaning in a packet: `$`, `#`, `}` or `*`.
fn is_special(byte: u8) -> bool
    ensures { result ≡ is_special byte }
{
    byte == b'$' || byte == b'#' || byte == ESCAPE || byte == b'*'
}

/// Appends the data that a text with escapes represents. Returns whether the text is complete: it does not end with an escape that lacks
/// its byte.
pub fn push_data(out: &mut Vec<u8>, text: &[u8]) -> Result<bool, AllocError>
    ensures appended { OnOk result (out.new.items ≡ out.old.items ++ data_of false text.now) }
    ensures complete { IfOk result (λ complete. complete ≡ has_complete_escapes text.now) }
{
    let mut after_escape = false;
    for byte in text {
        after_escape = push_data_byte(out, after_escape, *byte)?;
    }
    Ok(!after_escape)
}

// Appends the data that a byte represents, or nothing if the byte is an escape. Returns whether it is one. `after_escape` says whether the
// byte before it is an escape.
fn push_data_byte(out: &mut Vec<u8>, after_escape: bool, byte: u8) -> Result<bool, AllocError>
    ensures appended { OnOk result (out.new.items ≡ out.old.items ++ data_byte after_escape byte) }
    ensures escape { IfOk result (λ is. is ≡ is_escape after_escape byte) }
{
    if after_escape {
        out.push(byte ^ INVERTED_BIT)?;
        return Ok(false);
    }
    if byte == ESCAPE {
        return Ok(true);
    }
    out.push(byte)?;
    Ok(false)
}
