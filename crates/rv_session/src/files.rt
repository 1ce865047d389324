//! The image file, which gdb can read: the only file, with the descriptor 5.

ghost use Rattle.std.specs.Prelude.{◌≡◌, ◌≤◌, ◌++◌, IfOk, OnOk, codes, if◌then◌else◌, length};
ghost use Rattle.std.specs.Int.{w32, to_be_bytes};
ghost use Rattle.std.specs.List.{flat_map};
ghost use Rattle.std.specs.Str.{bytes_eq};
ghost use Rattle.rv_gdb_protocol.specs.declared.request.Refusal.TheVariants as refusal;
ghost use Rattle.rv_session.specs.SessionReplies.{file_reply_prefix, file_part, file_reply, size_reply, stat_words};
ghost use Rattle.rv_session.specs.Replies.{error_reply, with_body};

use crate::reading::{are_equal, shown_count};
use crate::reply::Reply;
use crate::session::Session;
use rv_gdb_protocol::{Part, Refusal};
use std::alloc::{AllocError, Global};

/// The maximum number of bytes of the image file in one reply. The reply fits in a packet even if all of them must be escaped.
const MAX_PART: usize = 8180;

/// The size of gdb's `struct stat` in bytes.
const STAT_BYTES: u32 = 64;

/// The `st_mode` of a regular file that everyone can read.
const READABLE_FILE: u32 = 0x8124;

impl Session {
    /// Handles `vFile:open:`: opens the image file as descriptor 5, and refuses any other file.
    pub(crate) fn open_file(&self, alloc: Global, path: &[u8]) -> Result<Reply, AllocError>
        ensures { IfOk result (λ reply. reply
            ≡ (if bytes_eq self.now.program.path path.now then with_body (codes "F5") else error_reply refusal.OtherFile)) }
    {
        if are_equal(self.program.path.as_slice(), path) {
            Reply::with_text(alloc, "F5")
        } else {
            Reply::error_reply(alloc, Refusal::OtherFile)
        }
    }

    /// Handles `vFile:fstat:5`: returns gdb's `struct stat`, whose big-endian words are 0 except for the mode and the size.
    pub(crate) fn file_size(&self, alloc: Global) -> Result<Reply, AllocError>
        ensures { IfOk result (λ reply. reply ≡ size_reply (length self.now.program.image)) }
    {
        let size = shown_count(self.program.image.as_slice().len());
        let mut body = Vec::new(alloc);
        push_file_reply_prefix(&mut body, STAT_BYTES)?;
        push_words(&mut body, &stat_words(size))?;
        Ok(Reply::with_body(alloc, body))
    }

    /// Handles `vFile:pread:5,`: returns a part of the image file, preceded by its length.
    pub(crate) fn read_file(&self, alloc: Global, part: Part) -> Result<Reply, AllocError>
        ensures { IfOk result (λ reply. reply ≡ file_reply (file_part self.now.program.image part)) }
    {
        let bytes = file_part(self.program.image.as_slice(), part);
        let mut body = Vec::new(alloc);
        push_file_reply_prefix(&mut body, bytes.len() as u32)?;
        body.extend_from_slice(bytes)?;
        Ok(Reply::with_body(alloc, body))
    }
}

// Returns the requested part of the image file, with at most [`MAX_PART`] bytes.
fn file_part(image: &[u8], part: Part) -> &[u8]
    ensures bytes { result.now ≡ file_part image.now part }
    ensures at_most_max { length result.now ≤ 8180 }
{
    let rest = &image[image.len().min(part.offset as usize)..];
    let count = MAX_PART.min(part.count as usize);
    &rest[..rest.len().min(count)]
}

// Returns the 16 words of gdb's `struct stat` for a file of this size: the third is the mode, the ninth the size, and the others are 0.
fn stat_words(size: u32) -> [u32; 16]
    ensures { result ≡ stat_words size }
{
    [
        0,
        0,
        READABLE_FILE,
        0,
        0,
        0,
        0,
        0,
        size,
        0,
        0,
        0,
        0,
        0,
        0,
        0,
    ]
}

// Appends these words, each as four big-endian bytes.
fn push_words(body: &mut Vec<u8>, words: &[u32]) -> Result<(), AllocError>
    ensures { OnOk result (body.new.items ≡ body.old.items ++ flat_map (to_be_bytes w32) words.now) }
{
    for word in words {
        body.extend_from_slice(word.to_be_bytes().as_slice())?;
    }
    Ok(())
}

// Appends `F`, the count as eight hexadecimal digits, and `;`.
fn push_file_reply_prefix(body: &mut Vec<u8>, count: u32) -> Result<(), AllocError>
    ensures { OnOk result (body.new.items ≡ body.old.items ++ file_reply_prefix count) }
{
    let mut digits = [0u8; 8];
    hex::encode_to_slice(count.to_be_bytes().as_slice(), &mut digits).unwrap();
    body.push(b'F')?;
    body.extend_from_slice(&digits)?;
    body.push(b';')?;
    Ok(())
}
