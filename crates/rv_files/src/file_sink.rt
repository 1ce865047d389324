//! A system file being written, as a sink.

ghost use Rattle.std.specs.Prelude.{◌≡◌, ◌≤◌, None, IfOk, IfErr, OnErr, length, take};
ghost use Rattle.std.specs.Io.KnownBytes.{Appends};
ghost use Rattle.rv_base.specs.Sinks.{AppendsPrefix};
ghost use Rattle.rv_base.specs.Counts.{one_more};

use crate::last_error::LastError;
use crate::streams::StreamSink;
use rv_base::{Sink, SinkFailed};
use std::io::{ErrorKind, Write};

/// An open file of [`SystemOutputs`](crate::SystemOutputs) that accepts bytes. It reveals no bytes, since no contract can know what is on a
/// disk.
#[derive(Drop)]
pub struct FileSink<W: Drop> {
    pub(crate) stream: StreamSink<W>,
    /// Whether the file is on a disk, unlike a pipe.
    pub(crate) is_on_disk: bool,
}

impl<W: Write + Drop> Sink for FileSink<W> {
    ghost accepted = { λ _. None };

    ghost failure_count = { λ sink. sink.stream.failures };

    // Writes bytes to the file, and returns how many were written, which is at least one, or fails.
    fn put(&mut self, bytes: &[u8]) -> Result<usize, SinkFailed>
        ensures within { IfOk result (λ count. (1 ≤ count) × (count ≤ length bytes.now)) }
        ensures written { IfOk result (λ count. Appends (W.contents self.old.stream.stream)
            (W.contents self.new.stream.stream) (take count bytes.now)) }
        ensures prefix { OnErr result (AppendsPrefix (W.contents self.old.stream.stream)
            (W.contents self.new.stream.stream) bytes.now) }
        ensures counted { IfOk result (λ _. self.new.stream.failures ≡ self.old.stream.failures) }
        ensures failure { IfErr result
            (λ _. self.new.stream.failures ≡ one_more self.old.stream.failures) }
    {
        self.stream.put(bytes)
    }

    // Returns the number of failed writes.
    fn failures(&self) -> u64 {
        self.stream.failures()
    }
}

impl<W: Write + Drop> LastError for FileSink<W> {
    // Returns the kind of the last error, or `Other` if no write has failed.
    fn last_error(&self) -> ErrorKind {
        self.stream.last_error()
    }
}
