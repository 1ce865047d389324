//! How a run used up its budget.

ghost use Rattle.std.specs.Prelude.{◌≡◌, IfOk, MatchOption, true};
ghost use Rattle.rv_hang.specs.BudgetUse.{IsBudgetUse, IsBudgetUseIn};
ghost use Rattle.rv_hang.specs.Repetition.{has_values};
ghost use Rattle.rv_trace.specs.declared_job.Job.{Job as AJob};
ghost use Rattle.rv_trace.specs.Machine.{state_of};
ghost use Rattle.rv_trace.specs.Run.{run_of};
ghost use Rattle.rv_trace.specs.Trace.{job_at, state_after};

use crate::hart::HartValues;
use crate::repetition::{Repetition, find_repetition};
use rv_trace::{JobImage, Machine, machine_at};
use std::alloc::{AllocError, Global};

// The last steps of a run are searched for a repetition, at most this many.
const MAX_SEARCHED: u32 = 100_000;

/// How a run used up its budget.
#[derive(Clone, Copy)]
pub enum BudgetUse {
    /// A state repeats, so the run would never end.
    Repeats(Repetition),
    /// No repetition was found among this many last steps.
    NoRepetition(u32),
}

/// Returns how a job's run used up its budget of `steps` steps, or `None` if the job is refused or its run does not complete `steps` steps.
/// Takes as long as two more runs.
pub fn budget_use_of(
    alloc: Global,
    job: &JobImage<'_>,
    steps: u32,
) -> Result<Option<BudgetUse>, AllocError>
    ensures { IfOk result (λ budget_use. (d : AJob) → IsBudgetUseIn job.now.plan.now
        (job_at job.now.plan.now job.now.index d) steps budget_use) }
{
    let machine = match machine_at(alloc, job.plan, job.index, job.image)? {
        Ok(machine) => machine,
        Err(_) => return Ok(None),
    };
    let Some(end) = values_after(machine, steps) else {
        return Ok(None);
    };
    match machine_at(alloc, job.plan, job.index, job.image)? {
        Ok(machine) => Ok(Some(budget_use(machine, steps, &end))),
        Err(_) => Ok(None),
    }
}

// Returns the pc and the registers after `steps` steps of a machine, or `None` if it does not complete them.
fn values_after(machine: Machine, steps: u32) -> Option<HartValues>
    ensures { MatchOption result ((run_of steps (state_of machine)).steps ≡ steps → ⊥)
        (λ end. ((run_of steps (state_of machine)).steps ≡ steps)
        × (has_values end (state_after steps (state_of machine)) ≡ true)) }
{
    let mut ahead = machine;
    if ahead.run(steps).steps != steps {
        return None;
    }
    Some(HartValues {
        pc: ahead.pc(),
        registers: ahead.registers(),
    })
}

// Returns how a machine's run of `steps` steps, all of which complete, used up its budget: by a repetition, or without one among the last
// steps. `end` is the pc and the registers after the last step.
fn budget_use(machine: Machine, steps: u32, end: &HartValues) -> BudgetUse
    requires all_steps_run { (run_of steps (state_of machine)).steps ≡ steps }
    requires end { has_values end.now (state_after steps (state_of machine)) ≡ true }
    ensures { IsBudgetUse steps (state_of machine) result }
{
    match find_repetition(machine, steps, MAX_SEARCHED, end) {
        Some(repetition) => BudgetUse::Repeats(repetition),
        None => BudgetUse::NoRepetition(steps.min(MAX_SEARCHED)),
    }
}
