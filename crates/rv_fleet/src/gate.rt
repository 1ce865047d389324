//! A hook that a worker calls before it computes a chunk.

/// A hook that is called once for each chunk that is run, by the worker that drew it and before its first row.
pub trait Gate: Sync {
    /// Called before the rows of a chunk are computed. `piece` is the number of the chunk, counted from 0.
    fn enter(&self, piece: u64);
}

/// A gate that never blocks.
#[derive(Clone, Copy, Debug)]
pub struct FreeGate;

impl Gate for FreeGate {
    // Does nothing: this gate is always open.
    fn enter(&self, _piece: u64) {}
}
