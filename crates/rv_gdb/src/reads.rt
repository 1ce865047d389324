//! Reads from gdb, before a move or during it.

ghost use Rattle.std.specs.Prelude.{◌≡◌, ◌≢◌, IfErr, IfOk, OnOk, true};
ghost use Rattle.rv_gdb.specs.Serving.{IsChunkRead};
ghost use Rattle.rv_session.specs.Incoming.{is_interrupted};

use crate::conversation::SessionError;
use crate::ctrl_c::CTRL_C;
use std::alloc::Global;
use std::io::{ErrorKind, Read};
use std::sync::atomic::AtomicBool;
use std::sync::atomic::Ordering::SeqCst;

// The maximum number of bytes in a read. A packet of gdb has at most 16,384.
const MAX_READ: usize = 16_384;

/// Reads once, and returns the bytes that were read. There are none only at the end of the input.
pub(crate) fn read_chunk<I: Read>(alloc: Global, input: &mut I) -> Result<Vec<u8>, SessionError>
    ensures read { IfOk result (λ chunk. IsChunkRead (I.remaining input.old) (I.remaining input.new) chunk.items) }
    ensures failed { IfErr result (λ error. error ≢ SessionError.ReplyWriteFailed) }
{
    let mut buffer = [0u8; MAX_READ];
    match input.read(&mut buffer) {
        Ok(count) => Ok(Vec::from_slice(alloc, &buffer[..count])?),
        Err(error) => Err(SessionError::ReadFailed(error.kind())),
    }
}

/// Returns an error if a move was interrupted although the bytes that were read do not interrupt moves. The other thread never raises the
/// interrupt in this case, but no contract says what another thread stores, so this is checked when it happens.
pub(crate) fn check_interrupt(was_seen: bool, chunk: &[u8]) -> Result<(), SessionError>
    ensures raised { OnOk result (was_seen ≡ true → is_interrupted chunk.now true ≡ true) }
    ensures failed { IfErr result (λ error. error ≢ SessionError.ReplyWriteFailed) }
{
    if was_seen && !is_interrupted(chunk) {
        return Err(SessionError::ReadFailed(ErrorKind::Interrupted));
    }
    Ok(())
}

/// Reads once, and returns the bytes that were read. Raises the interrupt if they interrupt a move or if the read fails.
pub(crate) fn read_ahead<I: Read>(
    alloc: Global,
    input: &mut I,
    raised: &AtomicBool,
) -> Result<Vec<u8>, SessionError>
    ensures read { IfOk result (λ chunk. IsChunkRead (I.remaining input.old) (I.remaining input.new) chunk.items) }
    ensures failed { IfErr result (λ error. error ≢ SessionError.ReplyWriteFailed) }
{
    let read = read_chunk(alloc, input);
    let is_raised = match &read {
        Ok(chunk) => is_interrupted(chunk.as_slice()),
        Err(_) => true,
    };
    raised.store(is_raised, SeqCst);
    read
}

// Whether bytes that arrive during a move interrupt it: they begin with 0x03, or there are none because the input has ended.
fn is_interrupted(bytes: &[u8]) -> bool
    ensures { result ≡ is_interrupted bytes.now true }
{
    match bytes.first() {
        Some(byte) => *byte == CTRL_C,
        None => true,
    }
}
