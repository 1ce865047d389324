//! A gdb session that debugs a run, as bytes received and bytes to send.
//!
//! A [`Session`] has a position in a run, and gdb moves it forwards and backwards. It shows registers and memory as they are at this
//! position, and refuses every write that would change them. It receives one byte at a time. A requested move is made by a separate call,
//! and can be interrupted. The text that describes the run's end comes from an [`EndText`].
#![tactic(auto)]

mod end_text;
mod files;
mod law;
mod monitor;
mod moving;
mod program;
mod reading;
mod receiving;
mod replies_to_requests;
mod reply;
mod seeking;
mod session;
mod stoppoints;
mod writing;

pub use end_text::EndText;
pub use law::{
    console_is_sent_once, ends_are_reported, reads_can_be_split, replies_are_determined,
};
pub use program::Program;
pub use reply::Reply;
pub use session::Session;

// Re-exports from lower crates: the types in this interface, and what its callers need with them.
pub use rv_gdb_protocol::{Bytes, push_frame};
pub use rv_history::{Bus, Interrupt, Isa, Machine, Map, Misaligned, Region, Start};
