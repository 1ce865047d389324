//! The limits of maps, and of the console's input and output.

/// The maximum number of regions of a map.
pub(crate) const MAX_REGIONS: usize = 4;

/// The maximum total size of a map's regions, in bytes.
pub(crate) const MAX_MAP_SIZE: u64 = 16_777_216;

/// The maximum size of a script, and of the console's output, in bytes.
pub(crate) const CONSOLE_CAPACITY: usize = 0x1_0000;
