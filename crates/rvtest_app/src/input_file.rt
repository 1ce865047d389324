//! The files that a command reads, which are compared with the files that it writes.

ghost use Rattle.std.specs.Prelude.{◌≡◌, length};

use rv_files::Text;
use std::path::PathBuf;

/// The path of a file that a command reads, and how messages refer to the file.
#[derive(Drop)]
pub(crate) struct InputPath<'a> {
    pub(crate) path: PathBuf,
    pub(crate) role: InputRole<'a>,
}

/// How messages refer to a file that a command reads.
#[derive(Clone, Copy)]
pub(crate) enum InputRole<'a> {
    /// A file that the arguments name; messages use this phrase for it, such as `the job list` or `the file of --known`.
    Word(&'a str),
    /// The file that the key `key` of the job `job` names.
    JobFile { key: &'a str, job: &'a str },
}

/// The files that a command reads, with the identity that the system gives each file. Two paths lead to one file exactly if their
/// identities are equal.
#[derive(Drop)]
pub(crate) struct InputFiles<'a> {
    pub(crate) paths: Vec<InputPath<'a>>,
    pub(crate) identities: Vec<Text>,
    ghost same_length: { length identities.items ≡ length paths.items },
}
