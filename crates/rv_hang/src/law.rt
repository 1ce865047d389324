//! A law of repetitions. It is proved and has no code.

ghost use Rattle.std.specs.Prelude.{◌≡◌, ℕ};
ghost use Rattle.rv_hang.specs.Repetition.{IsRepetition};
ghost use Rattle.rv_hang.specs.declared.repetition.Repetition.{Repetition as ARepetition};
ghost use Rattle.rv_trace.specs.Run.{run_of};
ghost use Rattle.rv_trace.specs.State.{State};
ghost use Rattle.rv_trace.specs.declared_ending.Ending.TheVariants.{Budget};

/// Proves that a run in which a state repeats within its first `steps` steps never ends: it uses up every budget.
pub fn repetitions_never_end()
    ensures { (steps : ℕ) (s : State) (r : ARepetition) → (run_of steps s).steps ≡ steps → IsRepetition steps s r
        → (budget : ℕ) → ((run_of budget s).ending ≡ Budget) × ((run_of budget s).steps ≡ budget) }
{}
