//! The ghost state of a shared counter: what each seat at its table holds. No value of these types exists at run time.
use std::collections::LinkedList;

/// A draw: the pass index that it was made under, and the number.
pub struct Entry {
    pub pass_index: u64,
    pub number: u64,
}

/// What a seat holds: the number of chunks; its pass indices, the latest first; its draws in order; and the draws of other seats that it
/// has noted.
pub struct View {
    pub pieces: u64,
    pub pass_indices: LinkedList<u64>,
    pub draws: LinkedList<Entry>,
    pub noted: LinkedList<Entry>,
}
