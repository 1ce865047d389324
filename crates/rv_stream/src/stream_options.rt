//! The options of a stream.

use rv_expect::Judge;

/// How far a stream runs, and whether it counts the instructions that its jobs execute.
#[derive(Clone, Copy, Drop)]
pub struct StreamOptions<'a> {
    /// Decides which rows are failures.
    pub judge: Judge<'a>,
    /// The number of failures after which the run stops; `None` if it runs to its end. With 0 no job is run.
    pub max_failures: Option<u32>,
    /// Whether the executed instructions are counted in the same run. Ignored if `max_failures` is set.
    pub counts_instructions: bool,
}
