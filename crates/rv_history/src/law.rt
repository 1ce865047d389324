//! Laws of moves. They are proved and not executed.

ghost use Rattle.std.specs.Prelude.{◌≡◌, ◌≤◌, ℕ};
ghost use Rattle.rv_history.specs.Counts.{IsFirstStepWith};
ghost use Rattle.rv_history.specs.Moves.{IsNextStep, IsNextStop, IsStepBack, IsStopBefore, IsUninterrupted};
ghost use Rattle.rv_history.specs.Printing.{BeginsWith};
ghost use Rattle.rv_history.specs.declared.bounds.Bounds.{Bounds};
ghost use Rattle.rv_history.specs.declared.counts.Count.{Count};
ghost use Rattle.rv_history.specs.declared.outcome.MoveResult.{MoveResult};
ghost use Rattle.rv_history.specs.declared.stops.Stops.{Stops};
ghost use Rattle.rv_trace.specs.State.{State};
ghost use Rattle.rv_trace.specs.Trace.{state_after};

/// Proves that the result of a move that is not interrupted, and the step at which it ends, depend only on the run, the step at which it
/// begins, and the breakpoints and watchpoints.
pub fn moves_are_determined()
    ensures ahead { (stops : Stops) (bounds : Bounds) (budget from p q : ℕ) (start : State) (first second : MoveResult)
        → IsNextStop stops bounds budget start from p first → IsNextStop stops bounds budget start from q second
        → IsUninterrupted first → IsUninterrupted second → (p ≡ q) × (first ≡ second) }
    ensures step { (stops : Stops) (budget from p q : ℕ) (start : State) (first second : MoveResult)
        → IsNextStep stops budget start from p first → IsNextStep stops budget start from q second → (p ≡ q) × (first ≡ second) }
    ensures back { (stops : Stops) (budget from p q : ℕ) (start : State) (first second : MoveResult)
        → IsStopBefore stops budget start from p first → IsStopBefore stops budget start from q second
        → IsUninterrupted first → IsUninterrupted second → (p ≡ q) × (first ≡ second) }
    ensures step_back { (stops : Stops) (budget from p q : ℕ) (start : State) (first second : MoveResult)
        → IsStepBack stops budget start from p first → IsStepBack stops budget start from q second → (p ≡ q) × (first ≡ second) }
    ensures count { (count : Count) (value budget p q : ℕ) (start : State) → IsFirstStepWith count value budget start p
        → IsFirstStepWith count value budget start q → p ≡ q }
{}

/// Proves that the output at a step is a prefix of the output at every later step.
pub fn console_only_grows()
    ensures { (i j : ℕ) (start : State) → i ≤ j
        → BeginsWith (state_after j start).bus.output (state_after i start).bus.output }
{}
