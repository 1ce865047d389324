//! Debugs a job of a plan with gdb.
//!
//! [`session_at`] returns a session at the start of a job's run. [`serve`] receives gdb's bytes from a reader and writes the session's
//! replies. Ctrl-C interrupts a move in progress.
#![tactic(auto)]

mod conversation;
mod ctrl_c;
mod job_session;
mod reads;

pub use conversation::{SessionContext, SessionError, serve};
pub use job_session::session_at;

// Re-exports from lower crates: the types in this interface, and what its callers need with them.
pub use rv_session::{EndText, Session};
