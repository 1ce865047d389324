//! The steps of a run, and a debugger's moves among them, forwards and backwards.
//!
//! Runs are deterministic, so the state after any number of steps can be computed again: by a run from the start, or by a shorter one from
//! a stored state. A [`History`] has a position in a run, and moves to where a search for the next or the previous stop ends: at a
//! breakpoint, at a step that triggers a watchpoint ([`Stops`]), or at either end of the run. Moves do not change the run.
#![tactic(auto)]

mod access;
mod bounds;
mod breaks;
mod checkpoint_list;
mod checkpoints;
mod counts;
mod forward_move;
mod history;
mod interrupt;
mod law;
mod machine_at;
mod outcome;
mod search;
mod search_back;
mod slices;
mod start;
mod stepping;
mod stops;
mod watch_hits;

pub use bounds::Bounds;
pub use counts::Count;
pub use history::History;
pub use interrupt::Interrupt;
pub use law::{console_only_grows, moves_are_determined};
pub use outcome::MoveResult;
pub use start::Start;
pub use stops::{Stops, Watch, WatchHit};

// Re-exports from lower crates: the types in this interface, and what its callers need with them.
pub use rv_trace::{Bus, Ending, Isa, Machine, Map, Misaligned, Region, Sequence};
