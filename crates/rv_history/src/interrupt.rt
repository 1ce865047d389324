//! Interrupts of moves.

ghost use Rattle.std.specs.Prelude.{◌≡◌, IsTrue, true};

/// A source of interrupts, which end a move early. A move polls it every 65,536 steps.
pub trait Interrupt {
    ghost use Rattle.std.specs.Prelude.{Bool};

    // Whether an interrupt was raised.
    ghost was_raised: { Self → Bool };

    /// Whether the current move must end.
    fn is_raised(&mut self) -> bool
        ensures { IsTrue result → was_raised self.new ≡ true };
}
