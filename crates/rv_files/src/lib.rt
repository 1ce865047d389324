//! The system's files and streams, and files in memory: what a command reads and writes.
//!
//! Contracts cannot know what is outside the program, so they are about any reader and any writer: [`read_at_most`] and [`read_whole`]
//! return a reader's bytes, and a [`StreamSink`] writes to a writer. The contract of a command that is generic over [`Inputs`] and
//! [`Outputs`] states what it read and which files it wrote: [`SystemInputs`] and [`SystemOutputs`] are the system's, [`MemoryInputs`] and
//! [`MemoryOutputs`] are for tests. A [`FileStore`] opens and reads files; a [`RecordingStore`] reads inputs and also records why a file
//! was unreadable.
#![tactic(auto)]

mod file_error;
mod file_identity;
mod file_lock;
mod file_sink;
mod file_store;
mod input;
mod inputs;
mod io_errors;
mod last_error;
mod memory_files;
mod new_file;
mod outputs;
mod pipe_sink;
mod recording_store;
mod roots;
mod sink_paths;
mod streams;
mod system_outputs;
#[cfg(test)]
mod tests;

pub use file_error::FileError;
pub use file_lock::FileLock;
pub use file_store::{FileStore, ReadWholeError, read_whole};
pub use input::{InputError, read_at_most};
pub use inputs::{Inputs, SystemInputs, read_whole_up_to};
pub use io_errors::{io_error_text, write_error_text};
pub use last_error::LastError;
pub use memory_files::{MemoryFile, MemoryInputs, MemoryOutputs};
pub use outputs::Outputs;
pub use pipe_sink::{Closable, PipeSink};
pub use recording_store::{RecordingStore, UnreadablePath};
pub use roots::resolved_path;
pub use streams::StreamSink;
pub use system_outputs::SystemOutputs;

// Re-exports from lower crates: the types in this interface, and what its callers need with them.
pub use rv_base::{Bytes, ReadError, Sink, SinkFailed, Store, Text, is_name, limits, put_all};
