//! Transfers of control from one instruction to the next.

ghost use Rattle.std.specs.Prelude.{◌≡◌, ◌+◌, ◌%◌, MatchBool, MatchOption, Ok, Some, false, is_ok};
ghost use Rattle.rv_trace.specs.Machine.{state_of};
ghost use Rattle.rv_trace.specs.Run.{step_of};
ghost use Rattle.rv_trace.specs.Code.{size_of_code};
ghost use Rattle.rv_calls.specs.Calls.{after_code, transfer_of};
ghost use Rattle.rv_calls.specs.Stack.{instr_action};

use crate::action::{StackAction, action_of, action_of_code};
use rv_trace::{Code, Instr, Machine, code_at, code_length};

/// A completed instruction, as far as the call stack is concerned.
#[derive(Clone, Copy)]
pub struct Transfer {
    /// What the instruction does to the call stack.
    pub action: StackAction,
    /// The instruction's address.
    pub from: u32,
    /// The address after the instruction, to which a call returns.
    pub return_address: u32,
    /// The address at which control continued.
    pub to: u32,
    /// The stack pointer x2 before the instruction.
    pub sp: u32,
}

/// The register number of the stack pointer.
const SP: u8 = 2;

/// Executes a machine's next instruction, and returns its transfer of control. Returns `None` if it does not complete; the machine is
/// unchanged then.
pub fn next_transfer(machine: &mut Machine) -> Option<Transfer>
    ensures { MatchOption result
        ((is_ok (step_of (state_of machine.old)) ≡ false)
        × (state_of machine.new ≡ state_of machine.old))
        (λ transfer. (step_of (state_of machine.old) ≡ Ok (state_of machine.new))
        × (transfer ≡ transfer_of (state_of machine.old) (state_of machine.new))) }
{
    let from = machine.pc();
    let sp = machine.reg(SP);
    let code = code_at(machine.bus(), from);
    if !execute_step(machine) {
        return None;
    }
    Some(Transfer {
        action: action_of_code(code),
        from,
        return_address: after_code(from, code),
        to: machine.pc(),
        sp,
    })
}

/// Returns the transfer of control of an instruction of `length` bytes at the address `from`, after which control continued at `to`. `sp`
/// is the stack pointer before the instruction.
pub fn transfer_by(instr: Instr, length: u32, from: u32, sp: u32, to: u32) -> Transfer
    ensures { result ≡ record { action = instr_action (Some instr); from = from; return_address = (from + length) % 0x1_0000_0000; to = to; sp = sp } }
{
    Transfer {
        action: action_of(instr),
        from,
        return_address: from.wrapping_add(length),
        to,
        sp: sp,
    }
}

// Executes a machine's next instruction, and returns whether it completed.
fn execute_step(machine: &mut Machine) -> bool
    ensures { MatchBool result (step_of (state_of machine.old) ≡ Ok (state_of machine.new))
        ((is_ok (step_of (state_of machine.old)) ≡ false)
        × (state_of machine.new ≡ state_of machine.old)) }
{
    machine.run(1).steps != 0
}

// Returns the address after the encoding at a pc, or the pc itself if there is no encoding.
fn after_code(pc: u32, code: Option<Code>) -> u32
    ensures { result ≡ after_code pc code }
{
    match code {
        Some(code) => pc.wrapping_add(code_length(code)),
        None => pc,
    }
}
