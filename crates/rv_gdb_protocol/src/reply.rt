//! The bodies of replies that do not depend on the session, and replies with parts of longer texts.

ghost use Rattle.std.specs.Prelude.{◌≡◌, ◌++◌, OnOk, option_copied};
ghost use Rattle.rv_gdb_protocol.specs.Replies.{fixed_reply, part_text, refusal_text};

use crate::request::{Part, Refusal, Request};
use std::alloc::AllocError;

/// The maximum number of bytes of a text in one reply. The reply fits in a packet even if all of them must be escaped.
const MAX_PART: usize = 8184;

/// Returns the body of the reply to a request if it is the same in every session, or `None` if it depends on the session.
pub fn fixed_reply(request: &Request) -> Option<&'static str>
    ensures { option_copied result ≡ fixed_reply request.now }
{
    match request {
        Request::Features => Some(
            "PacketSize=4000;QStartNoAckMode+;ReverseStep+;ReverseContinue+;qXfer:features:read+;qXfer:exec-file:read+",
        ),
        Request::NoAcknowledgements | Request::Accepted | Request::Detach => Some("OK"),
        Request::FileSystem | Request::CloseFile => Some("F0"),
        Request::Actions => Some("vCont;c;C;s;S;r"),
        Request::Thread => Some("QC1"),
        Request::FirstThreads => Some("m1"),
        Request::MoreThreads => Some("l"),
        Request::Attached => Some("0"),
        Request::Refused(refusal) => Some(refusal_text(*refusal)),
        _ => None,
    }
}

/// Returns the body of the reply to a refused request.
pub fn refusal_text(refusal: Refusal) -> &'static str
    ensures { result.now ≡ refusal_text refusal }
{
    match refusal {
        Refusal::Unknown => "",
        Refusal::Failed => "E01",
        Refusal::OtherAnnex => "E00",
        Refusal::OtherFile => "F-1,2",
        Refusal::Malformed => "E.malformed",
        Refusal::WouldChange => "E.the run is read-only: the debugger cannot change it",
        Refusal::NotReached => "E.the run does not reach that point",
        Refusal::TooManyStoppoints => "E.too many breakpoints",
        Refusal::TooLong => "E.packet too long",
    }
}

/// Appends the body of the reply with a part of a text: `l` and the bytes of the part if the text ends there, or else `m` and the bytes, at
/// most 8,184.
#[tactic(auto, unfolding(crate::specs::Replies::part_text))]
pub fn push_part(out: &mut Vec<u8>, text: &[u8], part: Part) -> Result<(), AllocError>
    ensures { OnOk result (out.new.items ≡ out.old.items ++ part_text text.now part) }
{
    let rest = &text[text.len().min(part.offset as usize)..];
    let count = MAX_PART.min(part.count as usize);
    if rest.len() <= count {
        out.push(b'l')?;
        out.extend_from_slice(rest)
    } else {
        out.push(b'm')?;
        out.extend_from_slice(&rest[..count])
    }
}
