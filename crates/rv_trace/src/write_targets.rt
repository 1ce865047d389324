//! What an instruction is going to write, found before it is executed.

ghost use Rattle.std.specs.Prelude.{◌≡◌, ◌%◌, ◌^◌, ◌*◌};
ghost use Rattle.rv_machine.specs.IsaWords.{IsWellFormed};
ghost use Rattle.rv_machine.specs.Effect.{address};
ghost use Rattle.rv_machine.specs.Machine.{state_of};
ghost use Rattle.rv_machine.specs.Bus.{size_of};
ghost use Rattle.rv_trace.specs.Code.{code_at};
ghost use Rattle.rv_trace.specs.Steps.{access_of, instruction_write_target, write_target, instr_at, completed_write, HasRegister};

use crate::code::{Code, instr_of};
use crate::step::WriteEffect;
use rv_machine::{Instr, Machine, Op, Width};

/// How an instruction accesses memory.
#[derive(Clone, Copy)]
pub(crate) enum Access {
    Load,
    Store(Width),
    Neither,
}

/// The register or the memory that an instruction is going to write, before it is executed.
#[derive(Clone, Copy)]
pub(crate) enum WriteTarget {
    Nothing,
    /// A register other than x0.
    Register(u8),
    /// A register, which may be x0, and the address to load from.
    Load(u8, u32),
    /// A value, its width, and the address to store it at.
    Store(u32, Width, u32),
}

/// Returns how an instruction accesses memory: as a load, as a store, or not at all.
pub(crate) fn access_of(op: Op) -> Access
    ensures { result ≡ access_of op }
{
    match op {
        Op::Lb | Op::Lh | Op::Lw | Op::Lbu | Op::Lhu => Access::Load,
        Op::Sb => Access::Store(Width::Byte),
        Op::Sh => Access::Store(Width::Half),
        Op::Sw => Access::Store(Width::Word),
        _ => Access::Neither,
    }
}

/// Returns what the instruction at the machine's pc is going to write. `code` is the encoding at the pc.
pub(crate) fn write_target(machine: &Machine, code: Option<Code>) -> WriteTarget
    requires { code ≡ code_at (state_of machine.now).bus (state_of machine.now).pc }
    ensures value { result ≡ write_target (instr_at (state_of machine.now)) (state_of machine.now) }
    ensures register { HasRegister result }
{
    let Some(code) = code else {
        return WriteTarget::Nothing;
    };
    match instr_of(code) {
        Some(instr) => instruction_write_target(access_of(instr.op), instr, machine),
        None => WriteTarget::Nothing,
    }
}

// Returns what an instruction is going to write in the machine's current state.
fn instruction_write_target(access: Access, instr: Instr, machine: &Machine) -> WriteTarget
    requires { IsWellFormed instr }
    ensures value { result ≡ instruction_write_target access instr (state_of machine.now) }
    ensures register { HasRegister result }
{
    match access {
        Access::Load => WriteTarget::Load(instr.rd, accessed_address(machine, instr)),
        Access::Store(width) => {
            let value = low_bytes(machine.reg(instr.rs2), width);
            WriteTarget::Store(accessed_address(machine, instr), width, value)
        }
        Access::Neither if instr.rd == 0 => WriteTarget::Nothing,
        Access::Neither => WriteTarget::Register(instr.rd),
    }
}

/// Returns the address that a load or a store accesses.
pub fn accessed_address(machine: &Machine, instr: Instr) -> u32
    requires { IsWellFormed instr }
    ensures { result ≡ address (state_of machine.now) instr }
{
    machine
        .reg(instr.rs1)
        .wrapping_add(instr.imm.cast_unsigned())
}

// Returns the low 8, 16 or 32 bits of a value, according to the width.
fn low_bytes(value: u32, width: Width) -> u32
    ensures { result ≡ value % 2 ^ (8 * size_of width) }
{
    match width {
        Width::Byte => value % 0x100,
        Width::Half => value % 0x1_0000,
        Width::Word => value,
    }
}

impl WriteTarget {
    /// Returns what the instruction wrote, given the machine after the instruction.
    pub(crate) fn completed_write(self, machine: &Machine) -> WriteEffect
        requires { HasRegister self }
        ensures { result ≡ completed_write self (state_of machine.now) }
    {
        match self {
            WriteTarget::Nothing => WriteEffect::Nothing,
            WriteTarget::Register(number) => WriteEffect::Register(number, machine.reg(number)),
            WriteTarget::Load(number, address) => WriteEffect::Loaded(
                number,
                machine.reg(number),
                address,
            ),
            WriteTarget::Store(address, width, value) => WriteEffect::Stored(address, width, value),
        }
    }
}
