//! Single steps of a machine.

ghost use Rattle.std.specs.Prelude.{◌≡◌, MatchBool, MatchOption, Ok, false, is_ok};
ghost use Rattle.rv_machine.specs.Machine.{state_of};
ghost use Rattle.rv_machine.specs.Run.{step_of};
ghost use Rattle.rv_trace.specs.Steps.{traced_step};

use crate::code::{Code, code_at};
use crate::write_targets::write_target;
use rv_machine::{Machine, Width};
use rv_rows::Sequence;

/// What an instruction wrote.
#[derive(Clone, Copy)]
pub enum WriteEffect {
    Nothing,
    /// A register other than x0, and its new value.
    Register(u8, u32),
    /// A register, which may be x0, its new value, and the address that was loaded from.
    Loaded(u8, u32, u32),
    /// An address, the width of the store, and the value stored there.
    Stored(u32, Width, u32),
}

/// A completed instruction, as a trace shows it.
#[derive(Clone, Copy)]
pub struct TracedStep {
    pub pc: u32,
    /// The encoding that was fetched; always present, since the instruction completed.
    pub code: Option<Code>,
    pub write: WriteEffect,
}

/// Completed instructions in order; contracts see them as a list.
pub type TracedSteps = Sequence<TracedStep>;

/// Executes a machine's next instruction. Returns it as a trace shows it, or `None` if it does not complete; the machine is unchanged then.
pub(crate) fn trace_next_step(machine: &mut Machine) -> Option<TracedStep>
    ensures { MatchOption result
        ((is_ok (step_of (state_of machine.old)) ≡ false)
        × (state_of machine.new ≡ state_of machine.old))
        (λ step. (step_of (state_of machine.old) ≡ Ok (state_of machine.new))
        × (step ≡ traced_step (state_of machine.old) (state_of machine.new))) }
{
    let pc = machine.pc();
    let code = code_at(machine.bus(), pc);
    let target = write_target(machine, code);
    if !execute_step(machine) {
        return None;
    }
    Some(TracedStep {
        pc,
        code,
        write: target.completed_write(machine),
    })
}

// Executes a machine's next instruction, and returns whether it completed. It is a run of one step, so that the loop of `run` remains the
// only caller of the function that executes an instruction, and the compiler inlines it there.
fn execute_step(machine: &mut Machine) -> bool
    ensures { MatchBool result (step_of (state_of machine.old) ≡ Ok (state_of machine.new))
        ((is_ok (step_of (state_of machine.old)) ≡ false)
        × (state_of machine.new ≡ state_of machine.old)) }
{
    machine.run(1).steps != 0
}
