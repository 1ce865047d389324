//! Forward moves in progress.

ghost use Rattle.std.specs.Prelude.{◌≡◌, ◌≤◌, ◌&&◌, IfOk, IsTrue, nat_lt, true};
ghost use Rattle.rv_trace.specs.Machine.{state_of};
ghost use Rattle.rv_history.specs.StoredStates.{IsAt};
ghost use Rattle.rv_history.specs.Moves.{result_at_budget};
ghost use Rattle.rv_history.specs.Stops.{halts_at};

use crate::bounds::Bounds;
use crate::checkpoints::Checkpoints;
use crate::interrupt::Interrupt;
use crate::machine_at::MachineAt;
use crate::outcome::MoveResult;
use crate::slices::{is_at_least_a_slice, is_slice_end};
use crate::stops::Stops;
use rv_trace::Ending;
use std::alloc::{AllocError, Global};

/// A forward move in progress.
#[derive(Drop)]
pub(crate) struct ForwardMove {
    /// The step at which the move began.
    pub from: u32,
    pub budget: u32,
    pub bounds: Bounds,
    /// The machine at the current step of the move.
    pub at: MachineAt,
}

/// Where a forward move ended, with the machine there, and why.
#[derive(Drop)]
pub(crate) struct MoveEnd {
    pub at: MachineAt,
    pub outcome: MoveResult,
}

impl ForwardMove {
    /// Returns the end of the move, at its current step and with this result.
    pub(crate) fn arrived(self, outcome: MoveResult) -> MoveEnd
        ensures { result ≡ record { at = self.at; outcome = outcome } }
    {
        MoveEnd {
            at: self.at,
            outcome,
        }
    }

    /// Whether the move must stop at its current step: it has made at least one step, and the pc is at a breakpoint or outside of the
    /// bounds.
    pub(crate) fn is_stopped(&self, stops: &Stops) -> bool
        ensures { result ≡ (nat_lt self.now.from self.now.at.step
            && halts_at stops.now self.now.bounds (state_of self.now.at.machine).pc) }
    {
        self.from < self.at.step && halts_at(stops, self.bounds, self.at.machine.pc())
    }

    /// Returns the result of a move that has used up the budget: `Breakpoint` if it must stop at its current step, and otherwise the end of
    /// the run.
    pub(crate) fn result_at_budget(&self, stops: &Stops) -> MoveResult
        ensures { result ≡ result_at_budget (nat_lt self.now.from self.now.at.step
            && halts_at stops.now self.now.bounds (state_of self.now.at.machine).pc) }
    {
        if self.is_stopped(stops) {
            MoveResult::Breakpoint
        } else {
            MoveResult::End(Ending::Budget)
        }
    }

    /// Returns whether an interrupt ends the move at its current step. Does nothing within a slice. At the end of a slice, stores the state
    /// if it is due, and polls the interrupt if the move is at least as long as a slice.
    pub(crate) fn store_and_poll<I: Interrupt>(
        &self,
        alloc: Global,
        checkpoints: &mut Checkpoints,
        interrupt: &mut I,
    ) -> Result<bool, AllocError>
        requires is_at { IsAt checkpoints.old self.now.at }
        requires order { self.now.from ≤ self.now.at.step }
        ensures raised { IfOk result (λ interrupted. IsTrue interrupted → I.was_raised interrupt.new ≡ true) }
        ensures run_unchanged { checkpoints.new ≡ checkpoints.old }
    {
        if !is_slice_end(self.at.step) {
            return Ok(false);
        }
        checkpoints.store_if_multiple(alloc, &self.at)?;
        Ok(is_at_least_a_slice(self.at.step - self.from) && interrupt.is_raised())
    }
}

// Whether a forward move stops before an instruction at this address: there is a breakpoint, or the address is outside of the bounds.
fn halts_at(stops: &Stops, bounds: Bounds, pc: u32) -> bool
    ensures { result ≡ halts_at stops.now bounds pc }
{
    stops.has_break(pc) || bounds.is_outside(pc)
}
