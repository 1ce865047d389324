//! Results of moves.

use rv_trace::Ending;

/// The result of a move: why it ended.
#[derive(Clone, Copy)]
pub enum MoveResult {
    /// The step was completed.
    Done,
    /// The pc is at a breakpoint or outside the bounds of a forward move.
    Breakpoint,
    /// A watchpoint was triggered: after a forward move, by the step that would come next; after a backward move, by the preceding step.
    WatchTriggered,
    /// The end of the run was reached.
    End(Ending),
    /// The start of the run was reached.
    RunStart,
    /// An interrupt ended the move.
    Interrupted,
}

/// The step at which a search ended, and why.
#[derive(Clone, Copy)]
pub(crate) struct SearchEnd {
    pub step: u32,
    pub outcome: MoveResult,
}
