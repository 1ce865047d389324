//! The suite of a document.

use rv_job_text::Judge;

/// The only suite of a document.
#[derive(Clone, Copy)]
pub struct Suite<'a> {
    /// The suite's name, which is also the class name of its test cases.
    pub name: &'a [u8],
    /// Decides which rows are failures.
    pub judge: Judge<'a>,
}
