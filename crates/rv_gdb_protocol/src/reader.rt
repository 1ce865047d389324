//! A parser for received packets.

ghost use Rattle.std.specs.Prelude.{◌≡◌, ◌≤◌, IfOk, OnErr, OnOk, Some, fold, length, take};

use crate::checksum::checksum_check;
use crate::frame::{Incoming, PacketPosition};
use rv_base::Bytes;
use std::alloc::{AllocError, Global};
use std::marker::Model;
use std::mem;

/// The maximum length of a body that is stored.
const MAX_BODY: usize = 16384;

/// A parser for packets from gdb, which can arrive in pieces. It stores the body of an incomplete packet, at most 16,384 bytes.
#[derive(Drop)]
pub struct Reader {
    position: PacketPosition,
    body: Vec<u8>,
}

impl Model for Reader {
    ghost use Rattle.std.specs.Prelude.{◌≤◌, length};
    ghost use Rattle.rv_gdb_protocol.specs.ReaderStates.{ReaderState, max_body_len};

    ghost Value = { ReaderState };

    ghost view = { λ s. record { position = s.position; body = s.body.items } };

    ghost invariant = { λ s. length s.body.items ≤ max_body_len s.position };
}

impl Reader {
    ghost use Rattle.rv_gdb_protocol.specs.ReaderStates.{between_packets, state_after_byte, incoming_at, incoming_in, at_body_start, option_list};
    ghost use Rattle.rv_gdb_protocol.specs.declared.frame.PacketPosition.TheVariants as position;

    /// Returns a parser that is between packets.
    pub fn new(alloc: Global) -> Reader
        ensures { result ≡ between_packets }
    {
        Reader {
            position: PacketPosition::Between,
            body: Vec::new(alloc),
        }
    }

    /// Consumes bytes up to and including the first one that completes an item. Returns the number of consumed bytes, and the item or
    /// `None` if no item is complete. The other bytes are for the next call.
    pub fn receive(
        &mut self,
        alloc: Global,
        bytes: &[u8],
    ) -> Result<(usize, Option<Incoming>), AllocError>
        ensures within { IfOk result (λ received. received.0 ≤ length bytes.now) }
        ensures item { IfOk result (λ received. incoming_in self.old (take received.0 bytes.now) ≡ option_list received.1) }
        ensures state { IfOk result (λ received. self.new ≡ fold state_after_byte self.old (take received.0 bytes.now)) }
    {
        for (at, byte) in bytes.iter().enumerate() {
            if let Some(item) = self.receive_byte(alloc, *byte)? {
                return Ok((at + 1, Some(item)));
            }
        }
        Ok((bytes.len(), None))
    }

    /// Consumes a byte. Returns the item that it completes, or `None` if it completes none.
    pub fn receive_byte(&mut self, alloc: Global, byte: u8) -> Result<Option<Incoming>, AllocError>
        ensures item { IfOk result (λ received. received ≡ incoming_at self.old byte) }
        ensures state { OnOk result (self.new ≡ state_after_byte self.old byte) }
        ensures unchanged_after_error { OnErr result (self.new ≡ self.old) }
    {
        match self.position {
            PacketPosition::Between => Ok(self.receive_between_packets(byte)),
            PacketPosition::Body => {
                self.receive_body_byte(byte)?;
                Ok(None)
            }
            PacketPosition::FirstDigit => {
                self.position = PacketPosition::SecondDigit(byte);
                Ok(None)
            }
            PacketPosition::SecondDigit(high) => Ok(Some(self.finish(alloc, high, byte))),
            PacketPosition::LongBody => {
                self.skip_byte(byte);
                Ok(None)
            }
            PacketPosition::LongFirstDigit => {
                self.position = PacketPosition::LongSecondDigit;
                Ok(None)
            }
            PacketPosition::LongSecondDigit => {
                self.position = PacketPosition::Between;
                Ok(Some(Incoming::TooLong))
            }
        }
    }

    // Consumes a byte between packets, and returns the item that it completes: Ctrl-C or an acknowledgement. Other bytes are ignored,
    // except for `$`, which begins a packet.
    fn receive_between_packets(&mut self, byte: u8) -> Option<Incoming>
        requires { self.old.position ≡ position.Between }
        ensures item { result ≡ incoming_at self.old byte }
        ensures state { self.new ≡ state_after_byte self.old byte }
    {
        match byte {
            b'$' => {
                self.begin_body();
                None
            }
            0x03 => Some(Incoming::Interrupt),
            b'+' => Some(Incoming::Acknowledged),
            b'-' => Some(Incoming::ResendRequested),
            _ => None,
        }
    }

    // Consumes a byte of a body. If the body would be too long with it, it is no longer stored.
    fn receive_body_byte(&mut self, byte: u8) -> Result<(), AllocError>
        requires { self.old.position ≡ position.Body }
        ensures state { OnOk result (self.new ≡ state_after_byte self.old byte) }
        ensures unchanged_after_error { OnErr result (self.new ≡ self.old) }
    {
        match byte {
            b'$' => self.begin_body(),
            b'#' => self.position = PacketPosition::FirstDigit,
            _ if self.body.len() < MAX_BODY => self.body.push(byte)?,
            _ => {
                self.position = PacketPosition::LongBody;
                self.body.clear();
            }
        }
        Ok(())
    }

    // Consumes a byte of a body that is too long to be stored.
    fn skip_byte(&mut self, byte: u8)
        requires { self.old.position ≡ position.LongBody }
        ensures { self.new ≡ state_after_byte self.old byte }
    {
        match byte {
            b'$' => self.begin_body(),
            b'#' => self.position = PacketPosition::LongFirstDigit,
            _ => {}
        }
    }

    // Begins a body. Drops the body before it if that was not complete.
    fn begin_body(&mut self)
        ensures { self.new ≡ at_body_start }
    {
        self.position = PacketPosition::Body;
        self.body.clear();
    }

    // Completes a packet and returns it. `high` and `low` are the digits of its checksum.
    fn finish(&mut self, alloc: Global, high: u8, low: u8) -> Incoming
        requires { self.old.position ≡ position.SecondDigit high }
        ensures item { Some result ≡ incoming_at self.old low }
        ensures state { self.new ≡ state_after_byte self.old low }
    {
        self.position = PacketPosition::Between;
        let body = mem::replace(&mut self.body, Vec::new(alloc));
        let sum = checksum_check(body.as_slice(), high, low);
        Incoming::Packet(Bytes::new(body), sum)
    }
}
