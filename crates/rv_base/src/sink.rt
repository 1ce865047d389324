//! Destinations for text.

ghost use Rattle.std.specs.Prelude.{◌≡◌, ◌≤◌, ◌<◌, ◌+◌, ℕ, List, Option, None, IfOk, IfErr, OnOk, OnErr, length, take};
ghost use Rattle.std.specs.Io.KnownBytes.{Appends, Keeps};
ghost use Rattle.rv_base.specs.Sinks.{AppendsPrefix};
ghost use Rattle.rv_base.specs.Counts.{one_more};

/// The error of a sink that failed, and accepted no bytes of the failed call.
#[derive(Clone, Copy, Debug, PartialEq, Eq)]
pub struct SinkFailed;

/// A destination for bytes, which counts its failures.
pub trait Sink {
    // The bytes accepted so far, if the sink reveals them.
    ghost accepted: { Self → Option (List ℕ) };

    // The number of failures, saturating at `u64::MAX`.
    ghost failure_count: { Self → ℕ };

    /// Accepts a nonempty prefix of `bytes` and returns its length, or fails and accepts nothing. `bytes` must not be empty.
    fn put(&mut self, bytes: &[u8]) -> Result<usize, SinkFailed>
        requires { 0 < length bytes.now }
        ensures within { IfOk result (λ count. (1 ≤ count) × (count ≤ length bytes.now)) }
        ensures taken { IfOk result
            (λ count. Appends (accepted self.old) (accepted self.new) (take count bytes.now)) }
        ensures counted { IfOk result (λ _. failure_count self.new ≡ failure_count self.old) }
        ensures kept { IfErr result (λ _. Keeps (accepted self.old) (accepted self.new)) }
        ensures failure { IfErr result (λ _. failure_count self.new ≡ one_more (failure_count self.old)) };

    /// Returns the number of failed writes.
    fn failures(&self) -> u64
        ensures { result ≡ failure_count self.now };
}

/// Writes all of `bytes` to a sink. If a write fails, the bytes of the earlier writes have been accepted, and no further write is tried.
pub fn put_all<W: Sink>(out: &mut W, bytes: &[u8]) -> Result<(), SinkFailed>
    ensures appended { OnOk result (Appends (W.accepted out.old) (W.accepted out.new) bytes.now) }
    ensures no_failures { OnOk result (W.failure_count out.new ≡ W.failure_count out.old) }
    ensures prefix { OnErr result (AppendsPrefix (W.accepted out.old) (W.accepted out.new) bytes.now) }
    ensures failure { OnErr result (W.failure_count out.new ≡ one_more (W.failure_count out.old)) }
{
    let mut offset = 0;
    while offset < bytes.len() {
        match out.put(&bytes[offset..]) {
            Ok(count) => offset += count,
            Err(failed) => return Err(failed),
        }
    }
    Ok(())
}
