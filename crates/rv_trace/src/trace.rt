//! The last instructions of a run, and where it ended.

ghost use Rattle.std.specs.Prelude.{◌≡◌, IfOk, OnOk};
ghost use Rattle.rv_rows.specs.declared_job.Job.{Job as AJob};
ghost use Rattle.rv_machine.specs.Machine.{state_of};
ghost use Rattle.rv_trace.specs.Steps.{steps_from};
ghost use Rattle.rv_trace.specs.Trace.{state_after, job_at, registers_of, trace_in, trace_of};

use crate::code::{Code, code_at};
use crate::job_image::JobImage;
use crate::step::{TracedStep, TracedSteps, trace_next_step};
use rv_machine::Machine;
use rv_rows::machine_at;
use std::alloc::{AllocError, Global};

/// The last instructions of a run, and where it ended.
#[derive(Drop)]
pub struct Trace {
    /// The completed instructions, oldest first.
    pub steps: TracedSteps,
    /// The pc at the end.
    pub pc: u32,
    /// The encoding at the pc, or `None` if it cannot be fetched.
    pub code: Option<Code>,
    /// The registers x0 to x31 at the end.
    pub registers: [u32; 32],
}

/// Returns the trace of a run of `steps` completed steps: the last `max_steps` instructions, or all if there are fewer, and the state at
/// the end. Takes as long as that run, and memory for each instruction shown.
#[tactic(auto, unfolding(crate::specs::Trace::trace_of))]
pub fn trace_run(
    alloc: Global,
    machine: Machine,
    steps: u32,
    max_steps: u32,
) -> Result<Trace, AllocError>
    ensures { IfOk result (λ trace. trace ≡ trace_of steps max_steps (state_of machine)) }
{
    let mut machine = machine;
    let shown = steps.min(max_steps);
    let _ = machine.run(steps - shown);
    let steps = trace_next_steps(alloc, &mut machine, shown)?;
    let pc = machine.pc();
    Ok(Trace {
        steps: TracedSteps::new(steps),
        pc,
        code: code_at(machine.bus(), pc),
        registers: registers_of(&machine),
    })
}

/// Returns the trace of a job's run of `steps` completed steps, as [`trace_run`] does, or `None` if the job is refused.
#[tactic(auto, unfolding(crate::specs::Trace::trace_in))]
pub fn trace_job(
    alloc: Global,
    job: &JobImage<'_>,
    steps: u32,
    max_steps: u32,
) -> Result<Option<Trace>, AllocError>
    ensures { IfOk result (λ trace. (d : AJob) → trace
        ≡ trace_in job.now.plan.now (job_at job.now.plan.now job.now.index d) steps max_steps) }
{
    match machine_at(alloc, job.plan, job.index, job.image)? {
        Ok(machine) => Ok(Some(trace_run(alloc, machine, steps, max_steps)?)),
        Err(_) => Ok(None),
    }
}

// Executes the next `count` instructions, or fewer if one does not complete, and returns the completed ones as a trace shows them.
fn trace_next_steps(
    alloc: Global,
    machine: &mut Machine,
    count: u32,
) -> Result<Vec<TracedStep>, AllocError>
    ensures steps { IfOk result
        (λ steps. steps.items ≡ steps_from count (state_of machine.old)) }
    ensures state { OnOk result (state_of machine.new ≡ state_after count (state_of machine.old)) }
{
    let mut steps = Vec::new(alloc);
    for _ in 0..count {
        let Some(step) = trace_next_step(machine) else {
            break;
        };
        steps.push(step)?;
    }
    Ok(steps)
}

// Returns the values of the registers x0 to x31.
fn registers_of(machine: &Machine) -> [u32; 32]
    ensures { result ≡ registers_of (state_of machine.now) }
{
    let mut registers = [0; 32];
    for n in 0..32u8 {
        registers[n as usize] = machine.reg(n);
    }
    registers
}
