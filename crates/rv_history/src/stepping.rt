//! A step, and whether it triggers a watchpoint.

ghost use Rattle.std.specs.Prelude.{◌≡◌, IfOk, MatchOption, OnOk, Ok, Err};
ghost use Rattle.rv_trace.specs.Machine.{state_of};
ghost use Rattle.rv_trace.specs.Run.{step_of};
ghost use Rattle.rv_history.specs.Stepping.{IsStepped};
ghost use Rattle.rv_history.specs.Stops.{watched_bytes};

use crate::stops::Stops;
use rv_trace::{Ending, Machine};
use std::alloc::{AllocError, Global};

/// The result of a step.
#[derive(Clone, Copy)]
pub(crate) enum StepResult {
    /// The step did not complete: the run ended.
    Ended(Ending),
    /// The step triggered a watchpoint.
    WatchTriggered,
    /// The step triggered no watchpoint.
    NotTriggered,
}

/// Executes a machine's next step, and returns whether it completed and whether it triggered a watchpoint. After an error the step may have
/// been executed.
pub(crate) fn step_watched(
    alloc: Global,
    machine: &mut Machine,
    stops: &Stops,
) -> Result<StepResult, AllocError>
    ensures { IfOk result (IsStepped stops.now (state_of machine.old) (state_of machine.new)) }
{
    let mut watched = stops.watched_bytes(alloc, machine.bus())?;
    step_with_watched_bytes(alloc, machine, stops, &mut watched)
}

/// Executes a machine's next step, as [`step_watched`] does. `watched` has the watched bytes before the step, and is updated if the step
/// changes them.
pub(crate) fn step_with_watched_bytes(
    alloc: Global,
    machine: &mut Machine,
    stops: &Stops,
    watched: &mut Vec<u8>,
) -> Result<StepResult, AllocError>
    requires { watched.old.items ≡ watched_bytes stops.now (state_of machine.old).bus }
    ensures step { IfOk result (IsStepped stops.now (state_of machine.old) (state_of machine.new)) }
    ensures same_bytes { OnOk result (watched.new.items ≡ watched_bytes stops.now (state_of machine.new).bus) }
{
    let is_touched = stops.access_hit(machine).is_some();
    if let Some(ending) = execute_step(machine) {
        return Ok(StepResult::Ended(ending));
    }
    if !stops.have_bytes(machine.bus(), watched.as_slice()) {
        *watched = stops.watched_bytes(alloc, machine.bus())?;
        return Ok(StepResult::WatchTriggered);
    }
    if is_touched {
        return Ok(StepResult::WatchTriggered);
    }
    Ok(StepResult::NotTriggered)
}

/// Executes a machine's next step. Returns `None` if it completes, and otherwise how the run ended, with the machine unchanged. It is a run
/// of one step, since a second caller of the function that executes an instruction would slow down every run of the program.
pub(crate) fn execute_step(machine: &mut Machine) -> Option<Ending>
    ensures { MatchOption result (step_of (state_of machine.old) ≡ Ok (state_of machine.new))
        (λ e. (step_of (state_of machine.old) ≡ Err e) × (state_of machine.new ≡ state_of machine.old)) }
{
    let ran = machine.run(1);
    if ran.steps == 1 {
        None
    } else {
        Some(ran.ending)
    }
}
