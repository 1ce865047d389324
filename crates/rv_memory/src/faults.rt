//! Why a bus rejects an access or a fetch.

/// Why a load or a store is rejected. If two reasons apply, the first in this order is reported.
#[derive(Clone, Copy, Debug, PartialEq, Eq)]
pub enum BusFault {
    /// The address is not a multiple of the width, and misaligned accesses are rejected.
    Misaligned,
    /// The bytes are not in one region, or, for a store, not in a writable one; or some belong to the console, which does not support the
    /// access.
    Access,
    /// The console's output already has its maximum of 65,536 bytes.
    ConsoleFull,
}

/// Why a fetch of a halfword is rejected. If two reasons apply, the first in this order is reported.
#[derive(Clone, Copy, Debug, PartialEq, Eq)]
pub enum FetchFault {
    /// The two bytes are not in one region.
    Unmapped,
    /// One of them was stored to since the last FENCE.I.
    Stale,
}
