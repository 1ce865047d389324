//! A shared counter, from which workers draw the chunks of a list: an atomic counter and the passes that draw from it.
//!
//! A [`Claims`] has a fixed number of chunks, numbered from 0. Each worker holds a [`Pass`], and [`Claims::take`] returns the number of the
//! next chunk. Under every interleaving of up to 64 passes no number is drawn twice, and a pass that holds every assigned index and has
//! ended holds each chunk exactly once. Nothing here blocks, and nothing depends on what a chunk is.
#![tactic(auto)]

mod claims;
mod counter_rule;
mod pass;
mod view;

pub use claims::Claims;
pub use pass::{Pass, SplitError};
