//! The limits on lists, jobs and files.

/// The maximum number of jobs in a list.
pub const MAX_JOBS: usize = 4_096;

/// The maximum length of a job's name, in bytes.
pub const MAX_NAME_LEN: usize = 64;

/// The maximum length of a path, in bytes.
pub const MAX_PATH_LEN: usize = 4_096;

/// The maximum number of steps of a job.
pub const MAX_BUDGET: u32 = 1_000_000_000;

/// The maximum length of a job's script, in bytes.
pub const MAX_SCRIPT_LEN: usize = 0x1_0000;

/// The maximum length of a job's expected console text, in bytes.
pub const MAX_CONSOLE_LEN: usize = 0x1_0000;

/// The maximum length of a signature symbol's name, in bytes.
pub const MAX_SYMBOL_LEN: usize = 255;

/// The maximum number of threads of a run.
pub const MAX_WORKERS: u32 = 64;

/// The maximum number of jobs in a chunk, which a thread takes at a time.
pub const MAX_GROUP: u32 = 4_096;

/// The maximum size of a file that is read, in bytes.
pub const MAX_FILE_SIZE: usize = 0x100_0000;
