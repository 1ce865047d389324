//! The foundations of the other crates: types that contracts see as lists, the limits of job lists and files, and the sources and
//! destinations of bytes.
//!
//! Contracts see a [`Sequence`] (a vector) and a [`Text`] (a string) as lists. A [`Store`] reads files by path; a [`Sink`] accepts bytes.
//! Both count their failures, so that a caller's contract can say where an error came from. [`limits`] holds the numbers that the job list
//! format fixes.
#![tactic(auto)]

pub mod limits;
mod names;
mod sequence;
mod sink;
mod store;
mod text;

pub use names::is_name;
pub use sequence::Sequence;
pub use sink::{Sink, SinkFailed, put_all};
pub use store::{ReadError, Store};
pub use text::{Bytes, Text};
