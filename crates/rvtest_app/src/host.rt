//! What a command runs on.

use std::alloc::Global;

/// What a command runs on: threads and a clock, an allocator, and the files that are read.
#[derive(Drop)]
pub struct Host<'a, R, D> {
    pub rt: &'a R,
    pub alloc: Global,
    pub inputs: &'a D,
}
