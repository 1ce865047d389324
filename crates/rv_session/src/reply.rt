//! A reply, before it is made into packets.

ghost use Rattle.std.specs.Prelude.{◌≡◌, IfOk, codes};

use rv_gdb_protocol::{Bytes, Refusal, refusal_text};
use std::alloc::{AllocError, Global};

/// The reply to a request.
#[derive(Drop)]
pub struct Reply {
    /// Console output, which gdb displays. It is sent in packets of its own, before the body.
    pub printed: Bytes,
    /// The text that describes the run's end. It is sent like console output, after it.
    pub end_text: Bytes,
    /// The body, or `None` if no packet is sent for it.
    pub body: Option<Bytes>,
}

impl Reply {
    ghost use Rattle.rv_session.specs.Replies.{ok_reply, ok_if, with_console, error_reply, with_body, empty_reply};

    /// Creates a reply with only this body.
    pub(crate) fn with_body(alloc: Global, body: Vec<u8>) -> Reply
        ensures { result ≡ with_body body.items }
    {
        Reply {
            printed: Bytes::new(Vec::new(alloc)),
            end_text: Bytes::new(Vec::new(alloc)),
            body: Some(Bytes::new(body)),
        }
    }

    /// Creates an empty reply, for which nothing is sent.
    pub(crate) fn empty_reply(alloc: Global) -> Reply
        ensures { result ≡ empty_reply }
    {
        Reply {
            printed: Bytes::new(Vec::new(alloc)),
            end_text: Bytes::new(Vec::new(alloc)),
            body: None,
        }
    }

    /// Creates a reply with a text that gdb displays, followed by `OK`.
    pub(crate) fn with_console(alloc: Global, text: Vec<u8>) -> Result<Reply, AllocError>
        ensures { IfOk result (λ reply. reply ≡ with_console text.items (codes "OK")) }
    {
        let ok_reply = Vec::from_slice(alloc, b"OK")?;
        Ok(Reply {
            printed: Bytes::new(text),
            end_text: Bytes::new(Vec::new(alloc)),
            body: Some(Bytes::new(ok_reply)),
        })
    }

    /// Creates a reply with only this text as its body.
    pub(crate) fn with_text(alloc: Global, text: &str) -> Result<Reply, AllocError>
        ensures { IfOk result (λ reply. reply ≡ with_body text.now) }
    {
        Ok(Reply::with_body(alloc, Vec::from_slice(alloc, text.as_bytes())?))
    }

    /// Creates the reply `OK`.
    pub(crate) fn ok_reply(alloc: Global) -> Result<Reply, AllocError>
        ensures { IfOk result (λ reply. reply ≡ ok_reply) }
    {
        Reply::with_text(alloc, "OK")
    }

    /// Creates the reply that refuses a request for this reason.
    pub(crate) fn error_reply(alloc: Global, refusal: Refusal) -> Result<Reply, AllocError>
        ensures { IfOk result (λ reply. reply ≡ error_reply refusal) }
    {
        Reply::with_text(alloc, refusal_text(refusal))
    }

    /// Creates the reply `OK` if the request succeeds, and otherwise the refusal.
    pub(crate) fn ok_if(
        alloc: Global,
        succeeds: bool,
        refusal: Refusal,
    ) -> Result<Reply, AllocError>
        ensures { IfOk result (λ reply. reply ≡ ok_if succeeds refusal) }
    {
        if succeeds {
            Reply::ok_reply(alloc)
        } else {
            Reply::error_reply(alloc, refusal)
        }
    }
}
