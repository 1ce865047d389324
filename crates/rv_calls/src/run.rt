//! The call stack at the end of a run.

ghost use Rattle.std.specs.Prelude.{◌≡◌, IfOk, OnOk};
ghost use Rattle.rv_trace.specs.declared_job.Job.{Job as AJob};
ghost use Rattle.rv_trace.specs.Machine.{state_of};
ghost use Rattle.rv_trace.specs.Trace.{job_at, state_after};
ghost use Rattle.rv_calls.specs.Calls.{calls_in, calls_of_run, frames_of_run};

use crate::frames::{Frame, Frames, apply_transfer};
use crate::transfer::next_transfer;
use rv_trace::{JobImage, Machine, machine_at};
use std::alloc::{AllocError, Global};

/// The call stack at the end of a run: the calls that have not returned.
#[derive(Drop)]
pub struct Calls {
    /// The pc at the end.
    pub pc: u32,
    /// The calls, innermost last.
    pub frames: Frames,
}

/// Returns the pc and the call stack at the end of a machine's run within a budget of steps. The stack is empty at the start. Takes longer
/// than the run alone, and memory for at most [`MAX_FRAMES`](crate::MAX_FRAMES) frames.
pub fn calls_of_run(alloc: Global, machine: Machine, budget: u32) -> Result<Calls, AllocError>
    ensures { IfOk result (λ calls. calls ≡ calls_of_run budget (state_of machine)) }
{
    let mut machine = machine;
    let frames = frames_of_run(alloc, &mut machine, budget)?;
    Ok(Calls {
        pc: machine.pc(),
        frames: Frames::new(frames),
    })
}

// Runs a machine within a budget of steps, and returns the frames of the call stack at the end.
fn frames_of_run(
    alloc: Global,
    machine: &mut Machine,
    budget: u32,
) -> Result<Vec<Frame>, AllocError>
    ensures frames { IfOk result (λ frames. frames.items ≡ frames_of_run budget (state_of machine.old)) }
    ensures end { OnOk result (state_of machine.new ≡ state_after budget (state_of machine.old)) }
{
    let mut frames = Vec::new(alloc);
    'steps: for _ in 0..budget {
        let Some(transfer) = next_transfer(machine) else {
            break;
        };
        apply_transfer(&mut frames, transfer)?;
    }
    Ok(frames)
}

/// Runs a job again within its budget, and returns the pc and the call stack at the end, or `None` if the job is refused.
#[tactic(auto, unfolding(crate::specs::Calls::calls_in))]
pub fn calls_at_end(alloc: Global, job: &JobImage<'_>) -> Result<Option<Calls>, AllocError>
    ensures { IfOk result (λ calls. (d : AJob) → calls
        ≡ calls_in job.now.plan.now (job_at job.now.plan.now job.now.index d)) }
{
    match machine_at(alloc, job.plan, job.index, job.image)? {
        Ok(machine) => {
            let budget = job.plan.job(job.index).budget;
            Ok(Some(calls_of_run(alloc, machine, budget)?))
        }
        Err(_) => Ok(None),
    }
}
