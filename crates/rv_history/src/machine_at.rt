//! Machines at steps of a run.

ghost use Rattle.std.specs.Prelude.{◌≡◌, ◌≤◌, IfOk};
ghost use Rattle.rv_trace.specs.Machine.{state_of};
ghost use Rattle.rv_trace.specs.Run.{run_of};
ghost use Rattle.rv_trace.specs.State.{State};
ghost use Rattle.rv_history.specs.StoredStates.{IsAt};

use rv_trace::{Ending, Machine};
use std::alloc::{AllocError, Global};

/// A machine, and the number of steps of its run that are completed.
#[derive(Drop)]
pub(crate) struct MachineAt {
    pub step: u32,
    pub machine: Machine,
}

impl MachineAt {
    /// Returns a copy of the machine with its own memory.
    pub(crate) fn try_clone(&self, alloc: Global) -> Result<MachineAt, AllocError>
        ensures step { IfOk result (λ at. at.step ≡ self.now.step) }
        ensures state { IfOk result (λ at. state_of at.machine ≡ state_of self.now.machine) }
    {
        let machine = self.machine.try_clone(alloc)?;
        Ok(MachineAt {
            step: self.step,
            machine,
        })
    }

    /// Runs the machine to the step `step`, or to the end of the run if that comes first. Returns how this run, with `step` as its budget,
    /// ended.
    pub(crate) fn run_to_step(&mut self, step: u32) -> Ending
        requires { self.old.step ≤ step }
        ensures run { (start : State) → IsAt start self.old → run_of step start
            ≡ record { ending = result; steps = self.new.step; state = state_of self.new.machine } }
        ensures step_not_smaller { self.old.step ≤ self.new.step }
    {
        let ran = self.machine.run(step - self.step);
        self.step += ran.steps;
        ran.ending
    }
}
