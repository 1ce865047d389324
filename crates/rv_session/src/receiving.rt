//! Received bytes, and the packets to send.

ghost use Rattle.std.specs.Prelude.{◌≡◌, ◌++◌, ◌∷◌, ◌&&◌, [], IfOk, None, OnOk, Some};
ghost use Rattle.rv_gdb_protocol.specs.Checksums.{packet_of};
ghost use Rattle.rv_session.specs.Incoming.{AppendsSome, IsByteReceived, IsRespondedTo, IsPacketResponse, acknowledgement, is_wrong_checksum, packets_of, printed_packet, printed_packets, printed_part, last_packet_if_acknowledged, with_sent};
ghost use Rattle.rv_session.specs.Replies.{error_reply};
ghost use Rattle.rv_session.specs.Sessions.{IsSameRun, IsOpenIfRequested};
ghost use Rattle.rv_gdb_protocol.specs.declared.request.Refusal.TheVariants as refusal;

use crate::reply::Reply;
use crate::session::Session;
use rv_gdb_protocol::{
    Bytes, Checksum, Incoming, Refusal, parse_request, push_frame, push_printed,
};
use std::alloc::{AllocError, Global};

/// The maximum number of bytes of console output in a packet, which has two digits for each.
const MAX_PRINTED: usize = 8184;

impl Session {
    /// Receives a byte from gdb, and returns the bytes to send. If the byte requests a move, [`Session::work`] must be called before the
    /// next byte is received. After an error the session cannot be used any more.
    pub fn receive(&mut self, alloc: Global, byte: u8) -> Result<Vec<u8>, AllocError>
        requires { self.old.requested ≡ None }
        ensures received { IfOk result (λ out. IsByteReceived self.old byte out.items self.new) }
        ensures not_over { OnOk result (IsOpenIfRequested self.new) }
        ensures same_run { OnOk result (IsSameRun self.old self.new) }
    {
        let mut out = Vec::new(alloc);
        self.receive_byte(alloc, &mut out, byte)?;
        Ok(out)
    }

    // Receives a byte, and appends the bytes to send.
    fn receive_byte(&mut self, alloc: Global, out: &mut Vec<u8>, byte: u8) -> Result<(), AllocError>
        ensures { OnOk result (AppendsSome out.old.items out.new.items
            (λ sent. IsByteReceived self.old byte sent self.new)) }
    {
        match self.reader.receive_byte(alloc, byte)? {
            Some(received) => self.respond(alloc, out, &received),
            None => Ok(()),
        }
    }

    // Appends the bytes to send for an item that was received. Ctrl-C has no effect here, since no move is in progress. Once the session is
    // over, nothing is sent.
    fn respond(
        &mut self,
        alloc: Global,
        out: &mut Vec<u8>,
        received: &Incoming,
    ) -> Result<(), AllocError>
        ensures { OnOk result (AppendsSome out.old.items out.new.items
            (λ sent. IsRespondedTo self.old (Some received.now) sent self.new)) }
    {
        if self.is_over {
            return Ok(());
        }
        match received {
            Incoming::Interrupt => Ok(()),
            Incoming::Acknowledged => Ok(()),
            Incoming::ResendRequested => self.resend(out),
            Incoming::TooLong => self.reject_long_packet(alloc, out),
            Incoming::Packet(body, sum) => {
                if self.is_rejected(*sum) {
                    return request_resend(out);
                }
                self.respond_to_body(alloc, out, body.as_slice())
            }
        }
    }

    // Appends the last packet that was sent, if packets are acknowledged.
    fn resend(&self, out: &mut Vec<u8>) -> Result<(), AllocError>
        ensures { OnOk result (out.new.items ≡ out.old.items ++ last_packet_if_acknowledged self.now) }
    {
        if self.acknowledges {
            out.extend_from_slice(self.sent.as_slice())?;
        }
        Ok(())
    }

    // Appends the acknowledgement of a packet that is too long, and the reply that refuses it.
    fn reject_long_packet(&mut self, alloc: Global, out: &mut Vec<u8>) -> Result<(), AllocError>
        ensures out { OnOk result (out.new.items
            ≡ out.old.items ++ (acknowledgement self.old ++ packets_of (error_reply refusal.TooLong))) }
        ensures next { OnOk result (self.new ≡ with_sent self.old (error_reply refusal.TooLong)) }
    {
        self.acknowledge(out)?;
        let reply = Reply::error_reply(alloc, Refusal::TooLong)?;
        self.send(alloc, out, &reply)
    }

    // Whether a packet must be rejected: its checksum is wrong, and packets are still acknowledged.
    fn is_rejected(&self, sum: Checksum) -> bool
        ensures { result ≡ (self.now.acknowledges && is_wrong_checksum sum) }
    {
        self.acknowledges && is_wrong_checksum(sum)
    }

    // Appends the acknowledgement of a packet, if packets are acknowledged, and the reply to its request.
    fn respond_to_body(
        &mut self,
        alloc: Global,
        out: &mut Vec<u8>,
        body: &[u8],
    ) -> Result<(), AllocError>
        ensures { OnOk result (AppendsSome out.old.items out.new.items
            (λ sent. IsPacketResponse self.old body.now sent self.new)) }
    {
        self.acknowledge(out)?;
        let request = parse_request(alloc, body)?;
        let reply = self.reply_to(alloc, &request)?;
        self.send(alloc, out, &reply)
    }

    // Appends `+`, if packets are acknowledged.
    fn acknowledge(&self, out: &mut Vec<u8>) -> Result<(), AllocError>
        ensures { OnOk result (out.new.items ≡ out.old.items ++ acknowledgement self.now) }
    {
        if self.acknowledges {
            out.push(b'+')?;
        }
        Ok(())
    }

    /// Appends a reply's packets, and stores the last one in case gdb requests it again.
    pub(crate) fn send(
        &mut self,
        alloc: Global,
        out: &mut Vec<u8>,
        reply: &Reply,
    ) -> Result<(), AllocError>
        ensures out { OnOk result (out.new.items ≡ out.old.items ++ packets_of reply.now) }
        ensures next { OnOk result (self.new ≡ with_sent self.old reply.now) }
    {
        push_printed_packets(alloc, out, reply.printed.as_slice())?;
        push_printed_packets(alloc, out, reply.end_text.as_slice())?;
        match &reply.body {
            Some(body) => self.send_body(alloc, out, body.as_slice()),
            None => Ok(()),
        }
    }

    // Appends the packet with this body, and stores it in case gdb requests it again.
    fn send_body(&mut self, alloc: Global, out: &mut Vec<u8>, body: &[u8]) -> Result<(), AllocError>
        ensures out { OnOk result (out.new.items ≡ out.old.items ++ packet_of body.now) }
        ensures next { OnOk result (self.new ≡ record self.old { sent = packet_of body.now }) }
    {
        let mut packet = Vec::new(alloc);
        push_frame(alloc, &mut packet, body)?;
        out.extend_from_slice(packet.as_slice())?;
        self.sent = Bytes::new(packet);
        Ok(())
    }
}

// Appends `-`, which requests that gdb send its last packet again.
fn request_resend(out: &mut Vec<u8>) -> Result<(), AllocError>
    ensures { OnOk result (out.new.items ≡ out.old.items ++ 45 ∷ []) }
{
    out.push(b'-')?;
    Ok(())
}

// Whether a checksum is wrong.
fn is_wrong_checksum(sum: Checksum) -> bool
    ensures { result ≡ is_wrong_checksum sum }
{
    match sum {
        Checksum::Right => false,
        Checksum::Wrong => true,
    }
}

// Appends packets with all of the console output, in order.
#[tactic(auto, unfolding(crate::specs::Incoming::printed_packets))]
fn push_printed_packets(alloc: Global, out: &mut Vec<u8>, printed: &[u8]) -> Result<(), AllocError>
    ensures { OnOk result (out.new.items ≡ out.old.items ++ printed_packets printed.now) }
{
    let packets = (printed.len() + (MAX_PRINTED - 1)) / MAX_PRINTED;
    for number in 0..packets {
        push_printed_packet(alloc, out, printed, number)?;
    }
    Ok(())
}

// Appends the packet of console output with this number, counted from 0.
fn push_printed_packet(
    alloc: Global,
    out: &mut Vec<u8>,
    printed: &[u8],
    number: usize,
) -> Result<(), AllocError>
    ensures { OnOk result (out.new.items ≡ out.old.items ++ printed_packet printed.now number) }
{
    let mut body = Vec::new(alloc);
    push_printed(alloc, &mut body, printed_part(printed, number))?;
    push_frame(alloc, out, body.as_slice())
}

// Returns the console output of the packet with this number, counted from 0.
fn printed_part(printed: &[u8], number: usize) -> &[u8]
    ensures { result.now ≡ printed_part printed.now number }
{
    let from = printed.len().min(number.saturating_mul(MAX_PRINTED));
    let rest = &printed[from..];
    &rest[..rest.len().min(MAX_PRINTED)]
}
