//! A job's row, with the data that it is compared with.

use rv_rows::{Job, Row};

/// A job and its row, with the data that the row is compared with.
#[derive(Clone, Copy)]
pub struct Comparison<'a, 'b> {
    pub job: &'a Job,
    pub row: &'a Row,
    /// The bytes of the file with the expected console text, if it was read.
    pub console: Option<&'a [u8]>,
    /// The bytes of the file with the expected signature, if it was read.
    pub reference: Option<&'a [u8]>,
    /// The row of the job that `same_as` names, if that job ran.
    pub other: Option<&'b Row>,
}
