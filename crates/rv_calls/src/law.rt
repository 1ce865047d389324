//! A law of call stacks. It is proved and has no code.

ghost use Rattle.std.specs.Prelude.{◌≤◌, ℕ, length};
ghost use Rattle.rv_trace.specs.State.{State};
ghost use Rattle.rv_calls.specs.Calls.{frames_of_run};
ghost use Rattle.rv_calls.specs.Stack.{max_frames};

/// Proves that the call stack of a run never has more than [`MAX_FRAMES`](crate::MAX_FRAMES) frames.
pub fn frames_are_few()
    ensures { (n : ℕ) (s : State) → length (frames_of_run n s) ≤ max_frames }
{}
