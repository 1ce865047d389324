//! What an instruction does to the call stack.

ghost use Rattle.std.specs.Prelude.{◌≡◌, ◌==◌, Some, option_and_then};
ghost use Rattle.rv_trace.specs.Code.{instr_of};
ghost use Rattle.rv_calls.specs.Stack.{instr_action, is_link, jalr_action, op_action, pushes_frame};

use rv_trace::{Code, Instr, Op, instr_of};

/// What an instruction does to the call stack, by the ISA manual's hints for a return-address stack (ISA manual, table 2.1).
#[derive(Clone, Copy)]
pub enum StackAction {
    /// No effect.
    NoEffect,
    /// A call.
    Push,
    /// A return.
    Pop,
    /// A return followed by a call, as when one coroutine switches to another.
    PopThenPush,
}

impl StackAction {
    /// Whether this effect on the call stack includes a push.
    pub(crate) fn pushes_frame(self) -> bool
        ensures { result ≡ pushes_frame self }
    {
        match self {
            StackAction::Push | StackAction::PopThenPush => true,
            StackAction::NoEffect | StackAction::Pop => false,
        }
    }
}

/// Returns what the instruction of an encoding does to the call stack: `NoEffect` if there is no encoding or it is illegal.
pub fn action_of_code(code: Option<Code>) -> StackAction
    ensures { result ≡ instr_action (option_and_then instr_of code) }
{
    let Some(code) = code else {
        return StackAction::NoEffect;
    };
    match instr_of(code) {
        Some(instr) => action_of(instr),
        None => StackAction::NoEffect,
    }
}

/// Returns what an instruction does to the call stack.
pub fn action_of(instr: Instr) -> StackAction
    ensures { result ≡ instr_action (Some instr) }
{
    op_action(instr.op, instr.rd, instr.rs1)
}

// Returns what an instruction with this operation and these registers does to the call stack.
fn op_action(op: Op, rd: u8, rs1: u8) -> StackAction
    ensures { result ≡ op_action op rd rs1 }
{
    match op {
        Op::Jal if is_link(rd) => StackAction::Push,
        Op::Jalr => jalr_action(rd, rs1),
        _ => StackAction::NoEffect,
    }
}

// Returns what JALR with these registers does to the call stack (ISA manual, table 2.1).
fn jalr_action(rd: u8, rs1: u8) -> StackAction
    ensures { result ≡ jalr_action (is_link rd) (is_link rs1) (rd == rs1) }
{
    match (is_link(rd), is_link(rs1)) {
        (false, false) => StackAction::NoEffect,
        (false, true) => StackAction::Pop,
        (true, false) => StackAction::Push,
        (true, true) if rd == rs1 => StackAction::Push,
        (true, true) => StackAction::PopThenPush,
    }
}

// Whether a register is a link register, which holds return addresses: x1, or x5 as the alternate one (ISA manual, 2.5).
fn is_link(register: u8) -> bool
    ensures { result ≡ is_link register }
{
    register == 1 || register == 5
}
