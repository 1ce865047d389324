//! Packets, and what is received from gdb.

ghost use Rattle.std.specs.Prelude.{◌≡◌, ◌++◌, OnOk};
ghost use Rattle.rv_gdb_protocol.specs.Escapes.{escaped};
ghost use Rattle.rv_gdb_protocol.specs.Checksums.{packet_of, checksum_digits};

use crate::checksum::checksum_of;
use crate::escapes::push_escaped;
use rv_base::Bytes;
use std::alloc::{AllocError, Global};

/// Whether the checksum of a packet is correct.
#[derive(Clone, Copy, Debug, PartialEq, Eq)]
pub enum Checksum {
    Right,
    Wrong,
}

/// An item received from gdb.
#[derive(Debug, Drop)]
pub enum Incoming {
    /// Ctrl-C: the byte 0x03 between packets.
    Interrupt,
    /// `+`: gdb received the last packet.
    Acknowledged,
    /// `-`: gdb requests the last packet again.
    ResendRequested,
    /// The body of a packet, still with its escapes, and whether its checksum is correct.
    Packet(Bytes, Checksum),
    /// The body has more than 16,384 bytes. It was not stored, and its checksum was not checked.
    TooLong,
}

/// Where the parser is in a packet: what the next byte belongs to.
#[derive(Clone, Copy, Debug, PartialEq, Eq)]
pub(crate) enum PacketPosition {
    /// Between packets.
    Between,
    /// In a body, or the `#` after it.
    Body,
    /// The first digit of a checksum.
    FirstDigit,
    /// The second digit of a checksum, whose first digit is this.
    SecondDigit(u8),
    /// In a body that is too long, or the `#` after it.
    LongBody,
    /// The first digit after a body that is too long.
    LongFirstDigit,
    /// The second digit after a body that is too long.
    LongSecondDigit,
}

/// Appends the packet with a body: `$`, the body with its escapes, `#` and the checksum.
#[tactic(auto, unfolding(crate::specs::Checksums::packet_of))]
pub fn push_frame(alloc: Global, out: &mut Vec<u8>, body: &[u8]) -> Result<(), AllocError>
    ensures { OnOk result (out.new.items ≡ out.old.items ++ packet_of body.now) }
{
    let mut text = Vec::new(alloc);
    push_escaped(&mut text, body)?;
    out.push(b'$')?;
    out.extend_from_slice(text.as_slice())?;
    out.push(b'#')?;
    push_checksum(out, text.as_slice())
}

// Appends the checksum of a text as two digits.
#[tactic(auto, unfolding(crate::specs::Checksums::checksum_digits))]
fn push_checksum(out: &mut Vec<u8>, text: &[u8]) -> Result<(), AllocError>
    ensures { OnOk result (out.new.items ≡ out.old.items ++ checksum_digits text.now) }
{
    let mut digits = [0u8; 2];
    hex::encode_to_slice([checksum_of(text)].as_slice(), &mut digits).unwrap();
    out.extend_from_slice(&digits)
}
